//! The fields of a line.

ghost use Rattle.std.specs.Prelude.{◌≡◌, MatchOption, None, Some};
ghost use Rattle.std.specs.Char.{is_ascii_digit};
ghost use Rattle.std.specs.List.{list_all};
ghost use Rattle.doc_server_script.specs.Fields.{are_digits, as_text, connection_of, cut, groups_in, owner_in, path_in, text_of};
ghost use Rattle.doc_server_script.specs.Reads.{Reads};

use crate::field_error::FieldError;
use crate::unescaping::unescape;
use doc_hub_events::event::ConnId;
use doc_page_parts::bytes::Bytes;
use doc_page_parts::heap::{Heap, String};
use doc_page_parts::path::{Path, PathError};
use doc_page_parts::text::Text;
use doc_store::groups::{Groups, GroupsError};

/// The field before the first space, and all that follows the space.
pub fn cut(text: &str) -> Option<(&str, &str)>
    ensures { MatchOption result (cut text.now ≡ None)
        (λ fields. cut text.now ≡ Some (fields.0.now, fields.1.now)) }
{
    text.split_once(' ')
}

/// The connection of a number.
pub fn connection_of(field: &str) -> Option<ConnId>
    ensures { result ≡ connection_of field.now }
{
    if !are_digits(field) {
        return None;
    }
    match field.parse::<u64>() {
        Ok(number) => Some(ConnId(number)),
        Err(_) => None,
    }
}

fn are_digits(field: &str) -> bool
    ensures { result ≡ are_digits field.now }
{
    !field.is_empty() && all_digits(field.as_bytes())
}

fn all_digits(field: &[u8]) -> bool
    ensures { result ≡ list_all is_ascii_digit field.now }
{
    field.iter().all(|byte| byte.is_ascii_digit())
}

/// The text that a field stands for.
pub fn text_of(heap: Heap, field: &str) -> Result<Text, FieldError>
    ensures { Reads (text_of field.now) result }
{
    let Some(bytes) = unescape(heap, field)? else {
        return Err(FieldError::Bad);
    };
    as_text(bytes).ok_or(FieldError::Bad)
}

/// The text that bytes are, where they are UTF-8.
fn as_text(bytes: Bytes) -> Option<Text>
    ensures { result ≡ as_text bytes }
{
    match String::from_utf8(bytes.into_inner()) {
        Ok(text) => Some(Text::new(text)),
        Err(_) => None,
    }
}

/// The path that a field stands for.
pub fn path_in(heap: Heap, field: &str) -> Result<Path, FieldError>
    ensures { Reads (path_in field.now) result }
{
    let text = text_of(heap, field)?;
    match Path::new(heap, text.get()) {
        Ok(path) => Ok(path),
        Err(PathError::BadPath) => Err(FieldError::Bad),
        Err(PathError::Memory) => Err(FieldError::Memory),
    }
}

/// The groups that a field names.
pub fn groups_in(heap: Heap, field: &str) -> Result<Groups, FieldError>
    ensures { Reads (groups_in field.now) result }
{
    if field == "-" {
        return Ok(Groups::none(heap));
    }
    match Groups::new(heap, field) {
        Ok(groups) => Ok(groups),
        Err(GroupsError::Memory) => Err(FieldError::Memory),
        Err(_) => Err(FieldError::Bad),
    }
}

/// Whether a reader is an owner.
pub fn owner_in(field: &str) -> Option<bool>
    ensures { result ≡ owner_in field.now }
{
    if field == "owner" {
        return Some(true);
    }
    if field == "plain" {
        return Some(false);
    }
    None
}
