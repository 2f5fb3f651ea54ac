//! Targets at the door.

ghost use Rattle.std.specs.Prelude.{◌≡◌};
ghost use Rattle.doc_server_status.specs.Targets.{is_health, is_metrics, is_place, is_record, path_in, wanted_at};

use crate::cut::cut_at;
use crate::wanted::{Wanted, wanted_in};

/// Whether there is something at a target.
pub fn is_place(target: &[u8]) -> bool
    ensures { result ≡ is_place target.now }
{
    is_health(target) || is_metrics(target) || is_record(target)
}

/// Whether it asks whether the server turns.
pub fn is_health(target: &[u8]) -> bool
    ensures { result ≡ is_health target.now }
{
    target == b"/health".as_slice()
}

/// Whether it asks for the counters.
pub fn is_metrics(target: &[u8]) -> bool
    ensures { result ≡ is_metrics target.now }
{
    target == b"/metrics".as_slice()
}

/// Whether it is that of the journal's records, whatever the query says.
fn is_record(target: &[u8]) -> bool
    ensures { result ≡ is_record target.now }
{
    path_in(target) == b"/record".as_slice()
}

/// The path, which ends where the query begins (RFC 9112, section 3.2.1).
#[tactic(auto, unfolding(crate::specs::Targets::path_in))]
fn path_in(target: &[u8]) -> &[u8]
    ensures { result.now ≡ path_in target.now }
{
    match cut_at(b'?', target) {
        Some(halves) => halves.front,
        None => target,
    }
}

/// What a target wants of the journal's records; `None` where it is none of theirs, or its query is bad.
#[tactic(auto, unfolding(crate::specs::Targets::wanted_at))]
pub fn wanted_at(target: &[u8]) -> Option<Wanted>
    ensures { result ≡ wanted_at target.now }
{
    if !is_record(target) {
        return None;
    }
    match cut_at(b'?', target) {
        Some(halves) => wanted_in(halves.behind),
        None => Some(Wanted::NOTHING),
    }
}
