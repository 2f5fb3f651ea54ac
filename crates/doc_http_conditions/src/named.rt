//! What a condition names.

ghost use Rattle.std.specs.Prelude.{◌≡◌};
ghost use Rattle.doc_http_conditions.specs.FieldValues.{named_by};

use crate::tags::{Tags, is_list};

/// The pages that the value of an If-Match or an If-None-Match field names (RFC 9110, sections 13.1.1 and 13.1.2).
#[derive(Drop)]
pub enum Named<'a> {
    /// `*`: any page that stands.
    Any,
    /// Those with one of these entity tags.
    OneOf(Tags<'a>),
}

impl<'a> Named<'a> {
    /// Reads the value: those of all fields of the name, joined by `, ` in their order. `None`: it is neither `*` nor a list
    /// of entity tags, between each two of which a comma stands. The value may be any bytes; it takes time that is linear in it.
    #[tactic(auto, unfolding(crate::specs::FieldValues::named_by))]
    pub fn read(text: &'a [u8]) -> Option<Named<'a>>
        ensures { result ≡ named_by text.now }
    {
        if text == b"*".as_slice() {
            return Some(Named::Any);
        }
        if !is_list(text) {
            return None;
        }
        Some(Named::OneOf(Tags::of_list(text)))
    }
}
