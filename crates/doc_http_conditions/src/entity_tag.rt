//! Entity tags.

ghost use Rattle.std.specs.Prelude.{◌≡◌, ◌≤◌, ◌==◌, length, codes, true};
ghost use Rattle.std.specs.List.{prefix_len, starts_with};
ghost use Rattle.doc_http_conditions.specs.EntityTags.{entity_tag, is_entity_tag as entity_tag_test, is_same as same_by, strong_tag};
ghost use Rattle.doc_http_conditions.specs.EntityTags.{is_opaque_tag as opaque_tag_test, is_tag_byte as tag_byte_test};
ghost use Rattle.doc_http_conditions.specs.EntityTags.{is_weak as weak_test, opaque_part as opaque_part_of};

use crate::comparison::Comparison;

/// Whether the text is an entity tag (RFC 9110, section 8.8.3).
pub fn is_entity_tag(text: &[u8]) -> bool
    ensures { result ≡ entity_tag_test text.now }
{
    is_opaque_tag(opaque_part(text))
}

/// Whether the entity tag is the same as the strong one of this opaque tag.
pub fn is_same(comparison: Comparison, text: &[u8], stands: &[u8]) -> bool
    ensures { result ≡ same_by comparison (entity_tag text.now) (strong_tag stands.now) }
{
    let same = opaque_part(text) == stands;
    match comparison {
        Comparison::Strong => !is_weak(text) && same,
        Comparison::Weak => same,
    }
}

/// Whether the text begins with `W/`.
fn is_weak(text: &[u8]) -> bool
    ensures weak { result ≡ weak_test text.now }
    ensures within { result ≡ true → 2 ≤ length text.now }
{
    text.starts_with(b"W/")
}

/// The text without the `W/` that it may begin with.
fn opaque_part(text: &[u8]) -> &[u8]
    ensures { result.now ≡ opaque_part_of text.now }
{
    if is_weak(text) { &text[2..] } else { text }
}

/// Whether the text is an opaque tag, with its quotes.
fn is_opaque_tag(text: &[u8]) -> bool
    ensures { result ≡ opaque_tag_test text.now }
{
    let Some((first, rest)) = text.split_first() else {
        return false;
    };
    *first == b'"' && &rest[tag_bytes(rest)..] == b"\"".as_slice()
}

/// How many bytes of a tag stand at the front.
fn tag_bytes(text: &[u8]) -> usize
    ensures count { result ≡ prefix_len tag_byte_test text.now }
    ensures within { result ≤ length text.now }
{
    text.iter().take_while(|byte| is_tag_byte(**byte)).count()
}

fn is_tag_byte(byte: u8) -> bool
    ensures { result ≡ tag_byte_test byte }
{
    byte == 0x21 || (byte >= 0x23 && byte <= 0x7E) || byte >= 0x80
}
