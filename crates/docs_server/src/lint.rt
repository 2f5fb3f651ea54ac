//! The command `lint`: what is wrong with a configuration, and what in it may be meant otherwise.

use crate::status::status_of;
use doc_server_arguments::command::Lint;
use doc_server_linting::lint::lint;
use std::rt::Files;

/// Runs `lint`, and answers the status to end with: 1 where a fault is told.
pub fn run_lint<P: AllocGlobal + Clone + Drop + Eprint + Files + Print>(
    rt: &P,
    command: &Lint<'_>,
) -> u8 {
    status_of(rt, lint(rt, command))
}
