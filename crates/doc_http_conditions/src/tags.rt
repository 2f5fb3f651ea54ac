//! Lists of entity tags.

ghost use Rattle.std.specs.Prelude.{◌≡◌, false, IfSome, IfNone};
ghost use Rattle.std.specs.List.{list_all};
ghost use Rattle.doc_http_conditions.specs.Lists.{elements, has_tag, is_element as element_test, tags_in, tags_of_element};

use crate::comparison::Comparison;
use crate::elements::Elements;
use crate::entity_tag::{is_entity_tag, is_same};
use crate::stripping::stripped;
use std::marker::Model;

/// The entity tags of a list, in the text that they are read from. Contracts see them.
#[derive(Drop)]
pub struct Tags<'a> {
    text: &'a [u8],
}

impl<'a> Model for Tags<'a> {
    ghost use Rattle.std.specs.Prelude.{List as Seq};
    ghost use Rattle.std.specs.Coded.{coded_list};
    ghost use Rattle.doc_http_conditions.specs.EntityTags.{EntityTag, entity_tag_code};
    ghost use Rattle.doc_http_conditions.specs.Lists.{tags_in};

    ghost Value = { Seq EntityTag };

    ghost coded = { coded_list entity_tag_code };

    ghost view = { λ t. tags_in t.text.now };
}

impl<'a> Tags<'a> {
    /// The entity tags of a list whose elements are such.
    pub fn of_list(text: &'a [u8]) -> Self
        ensures { result ≡ tags_in text.now }
    {
        Tags { text }
    }

    /// Whether the strong tag with this opaque tag is among them. It takes time that is linear in their text.
    pub fn have(&self, comparison: Comparison, stands: &[u8]) -> bool
        ensures { result ≡ has_tag comparison stands.now self.now }
    {
        for element in Elements::new(self.text) {
            if has_element(comparison, element, stands) {
                return true;
            }
        }
        false
    }
}

/// Whether each element of a list is an entity tag or absent.
pub fn is_list(text: &[u8]) -> bool
    ensures { result ≡ list_all element_test (elements false text.now) }
{
    for element in Elements::new(text) {
        if !is_element(element) {
            return false;
        }
    }
    true
}

/// Whether the element is an entity tag or absent.
fn is_element(element: &[u8]) -> bool
    ensures { result ≡ element_test element.now }
{
    let text = stripped(element);
    text.is_empty() || is_entity_tag(text)
}

/// Whether the element has the tag.
fn has_element(comparison: Comparison, element: &[u8], stands: &[u8]) -> bool
    ensures { result ≡ has_tag comparison stands.now (tags_of_element element.now) }
{
    let text = stripped(element);
    !text.is_empty() && is_same(comparison, text, stands)
}
