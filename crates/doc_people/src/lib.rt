//! The pages for people with a browser, as definitions that compute: they stand in `specs/`, one file a subject. Each is made of a
//! reader's view, and of nothing else of the site. `viewed` is how writers ask for a view; the functions of `laws` are empty: their
//! contracts are laws of the definitions.
#![tactic(auto)]

pub mod laws;
pub mod settings;
pub mod style_sheet;
pub mod term;
pub mod viewed;
