//! The arguments of the program `docs_server`: the command that they ask for, or what isn't understood of them; what `--help` and
//! `--version` print. Nothing is read or printed here.
#![tactic(auto)]

mod address;
pub mod command;
pub mod command_line;
pub mod help;
pub mod log_form;
mod number;
mod options;
mod shown_word;
mod token_options;
pub mod usage_fault;
pub mod version;
