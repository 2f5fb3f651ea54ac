//! Outcomes as lines.

ghost use Rattle.std.specs.Prelude.{◌≡◌, ◌++◌, codes, decimal, string_bytes, OnOk};
ghost use Rattle.doc_server_script.specs.Escapes.{escaped};
ghost use Rattle.doc_server_script.specs.Outcomes.{outcome_line, put_word, refusal_name, set_word, step_line, truth_word};

use crate::escaping::{push_escaped, push_plain};
use doc_hub_events::event::{ConnId, Step};
use doc_hub_events::outcome::Outcome;
use doc_hub_events::refusal::Refusal;
use doc_page_parts::failure::Memory;
use doc_page_parts::heap::String;
use doc_store::readers::Set;
use doc_store::store::Put;
use std::fmt::Write;

/// Writes the line of an outcome, without its line feed, at the end of the buffer, where after a refusal part of it may stand:
/// `conn N`, `ok`, `sent BYTES`, `last BYTES`, `more`, `closed`, `true`, `false`, `created`, `replaced`, `moved`, `added`, or
/// `refused NAME`.
pub fn push_outcome(out: &mut String, outcome: &Outcome) -> Result<(), Memory>
    ensures { OnOk result
        (string_bytes out.new ≡ string_bytes out.old ++ outcome_line outcome.now) }
{
    match outcome {
        Outcome::Conn(id) => push_connection(out, *id),
        Outcome::Pushed | Outcome::ReadersSet | Outcome::PutsSet | Outcome::MediaSet => {
            push_plain(out, "ok")
        }
        Outcome::Stepped(step) => push_step(out, step),
        Outcome::Disconnected(stood) | Outcome::Removed(stood) | Outcome::ReaderRemoved(stood) => {
            push_plain(out, truth_word(*stood))
        }
        Outcome::Edited(put) => push_plain(out, put_word(*put)),
        Outcome::Moved => push_plain(out, "moved"),
        Outcome::ReaderSet(set) => push_plain(out, set_word(*set)),
        Outcome::Refused(refusal) => push_refusal(out, *refusal),
    }
}

fn push_connection(out: &mut String, id: ConnId) -> Result<(), Memory>
    ensures { OnOk result
        (string_bytes out.new ≡ string_bytes out.old ++ (codes "conn " ++ decimal id.0)) }
{
    write!(out, "conn {}", id.0)?;
    Ok(())
}

fn push_step(out: &mut String, step: &Step) -> Result<(), Memory>
    ensures { OnOk result (string_bytes out.new ≡ string_bytes out.old ++ step_line step.now) }
{
    match step {
        Step::Sent(bytes) => push_reply(out, "sent ", bytes.get()),
        Step::Last(bytes) => push_reply(out, "last ", bytes.get()),
        Step::More => push_plain(out, "more"),
        Step::Closed => push_plain(out, "closed"),
    }
}

fn push_reply(out: &mut String, word: &str, bytes: &[u8]) -> Result<(), Memory>
    ensures { OnOk result
        (string_bytes out.new ≡ string_bytes out.old ++ (word.now ++ escaped bytes.now)) }
{
    push_plain(out, word)?;
    push_escaped(out, bytes)
}

fn push_refusal(out: &mut String, refusal: Refusal) -> Result<(), Memory>
    ensures { OnOk result
        (string_bytes out.new ≡ string_bytes out.old
        ++ (codes "refused " ++ refusal_name refusal)) }
{
    push_plain(out, "refused ")?;
    push_plain(out, refusal_name(refusal))
}

fn truth_word(holds: bool) -> &'static str
    ensures { result.now ≡ truth_word holds }
{
    if holds { "true" } else { "false" }
}

fn put_word(put: Put) -> &'static str
    ensures { result.now ≡ put_word put }
{
    match put {
        Put::Created => "created",
        Put::Replaced => "replaced",
    }
}

fn set_word(set: Set) -> &'static str
    ensures { result.now ≡ set_word set }
{
    match set {
        Set::Added => "added",
        Set::Replaced => "replaced",
    }
}

fn refusal_name(refusal: Refusal) -> &'static str
    ensures { result.now ≡ refusal_name refusal }
{
    match refusal {
        Refusal::NoIds => "NoIds",
        Refusal::NoConnection => "NoConnection",
        Refusal::Closed => "Closed",
        Refusal::Backlog => "Backlog",
        Refusal::TooLong => "TooLong",
        Refusal::StoreFull => "StoreFull",
        Refusal::NoPage => "NoPage",
        Refusal::Taken => "Taken",
        Refusal::BadToken => "BadToken",
        Refusal::Memory => "Memory",
    }
}
