//! How outcomes of events are written.

use crate::written::{push, push_after};
use doc_hub::event::{ConnId, Step};
use doc_hub::outcome::Outcome;
use doc_page_parts::failure::Memory;
use doc_page_parts::heap::String;
use doc_store::readers::Set;
use doc_store::store::Put;

/// Writes an outcome: a word, and of a connection its number, of a step its bytes, and of a refusal what it prints.
pub fn push_outcome(out: &mut String, outcome: &Outcome) -> Result<(), Memory> {
    match outcome {
        Outcome::Conn(ConnId(number)) => Ok(write!(out, "connection {number}")?),
        Outcome::Stepped(Step::Sent(reply)) => push_after(out, "sent ", reply.get()),
        Outcome::Stepped(Step::Last(reply)) => push_after(out, "last ", reply.get()),
        Outcome::Refused(refusal) => Ok(write!(out, "refused: {refusal}")?),
        other => push(out, word_of(other)),
    }
}

/// The word for what came of an event.
fn word_of(outcome: &Outcome) -> &'static str {
    match outcome {
        Outcome::Pushed => "pushed",
        Outcome::Stepped(Step::More) => "more",
        Outcome::Stepped(_) => "closed",
        Outcome::Edited(Put::Created) => "created",
        Outcome::Moved => "moved",
        Outcome::ReadersSet | Outcome::PutsSet | Outcome::MediaSet => "set",
        Outcome::ReaderSet(Set::Added) => "added",
        Outcome::Edited(_) | Outcome::ReaderSet(_) => "replaced",
        Outcome::Disconnected(true) | Outcome::Removed(true) | Outcome::ReaderRemoved(true) => {
            "true"
        }
        _ => "false",
    }
}

/// Writes outcomes, with ` | ` between two.
pub fn push_all(out: &mut String, outcomes: &[Outcome]) -> Result<(), Memory> {
    for outcome in outcomes {
        push_said(out, outcome)?;
    }
    Ok(())
}

/// Adds an outcome behind others or none.
fn push_said(out: &mut String, outcome: &Outcome) -> Result<(), Memory> {
    if !out.is_empty() {
        push(out, " | ")?;
    }
    push_outcome(out, outcome)
}
