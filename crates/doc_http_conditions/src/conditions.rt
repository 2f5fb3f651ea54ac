//! The conditions of a request, judged.

ghost use Rattle.std.specs.Prelude.{◌≡◌, option_copied};
ghost use Rattle.doc_http_conditions.specs.Verdicts.{verdict_of, field_names, unmatched, matched, judged};

use crate::comparison::Comparison;
use crate::named::Named;
use crate::verdict::{Failure, Field, Verdict};

/// The values of the two fields of a request, where it has them: those of all fields of a name, joined by `, ` in their
/// order.
#[derive(Clone, Copy, Drop)]
pub struct Conditions<'a> {
    pub if_match: Option<&'a [u8]>,
    pub if_none_match: Option<&'a [u8]>,
}

/// What the conditions of a request come to. `reads`: its method is GET or HEAD. `stands`: the tag of the page that stands
/// under the path, with its quotes; it is a strong one. Without conditions they hold, whatever stands.
///
/// Both fields are read before either is judged, If-Match first.
#[tactic(auto, unfolding(crate::specs::Verdicts::verdict_of))]
pub fn judge(reads: bool, conditions: &Conditions<'_>, stands: Option<&[u8]>) -> Verdict
    ensures { result
        ≡ verdict_of reads (option_copied conditions.now.if_match)
        (option_copied conditions.now.if_none_match) (option_copied stands.entry) }
{
    let Some(if_match) = field_names(conditions.if_match) else {
        return Verdict::Unread(Field::IfMatch);
    };
    let Some(if_none_match) = field_names(conditions.if_none_match) else {
        return Verdict::Unread(Field::IfNoneMatch);
    };
    if let Some(failure) = unmatched(if_match, stands) {
        return Verdict::Fails(failure);
    }
    match matched(if_none_match, stands) {
        Some(_) if reads => Verdict::Unchanged,
        Some(failure) => Verdict::Fails(failure),
        None => Verdict::Holds,
    }
}

/// Whom a field names, where it is sent; `None` where it is malformed.
fn field_names(value: Option<&[u8]>) -> Option<Option<Named<'_>>>
    ensures { result ≡ field_names (option_copied value.entry) }
{
    let Some(text) = value else {
        return Some(None);
    };
    match Named::read(text) {
        Some(named) => Some(Some(named)),
        None => None,
    }
}

/// Why If-Match fails, where it does.
fn unmatched(named: Option<Named<'_>>, stands: Option<&[u8]>) -> Option<Failure>
    ensures { result ≡ unmatched named.entry (option_copied stands.entry) }
{
    let Some(named) = named else {
        return None;
    };
    let Some(tag) = stands else {
        return Some(Failure::NoPage);
    };
    match named {
        Named::Any => None,
        Named::OneOf(tags) if tags.have(Comparison::Strong, tag) => None,
        Named::OneOf(_) => Some(Failure::OtherVersion),
    }
}

/// Why If-None-Match fails, where it does.
fn matched(named: Option<Named<'_>>, stands: Option<&[u8]>) -> Option<Failure>
    ensures { result ≡ matched named.entry (option_copied stands.entry) }
{
    let Some(named) = named else {
        return None;
    };
    let Some(tag) = stands else {
        return None;
    };
    match named {
        Named::Any => Some(Failure::APage),
        Named::OneOf(tags) if tags.have(Comparison::Weak, tag) => Some(Failure::ThisVersion),
        Named::OneOf(_) => None,
    }
}
