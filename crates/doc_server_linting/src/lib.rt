//! The command `lint`: what is told of a configuration, of the files that it names, and of a journal over its site.
#![tactic(auto)]

pub mod lint;
mod linted_files;
mod linted_journal;
