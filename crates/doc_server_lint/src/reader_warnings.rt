//! What of readers may be meant otherwise.

ghost use Rattle.std.specs.Prelude.{◌≡◌, ◌++◌, OnOk, codes, option_map};
ghost use Rattle.toml.specs.Data.{as_str, get};
ghost use Rattle.toml.specs.View.{items_view, view};
ghost use Rattle.doc_store_readers.specs.Keys.{good_token, key_in};
ghost use Rattle.doc_store_readers.specs.Readers.{owner_at};
ghost use Rattle.doc_store_readers.specs.declared.keys.Key.TheVariants as keys;
ghost use Rattle.doc_server_lint.specs.Warnings.{has_owner, is_owner, owners_warning, token_warning};
ghost use Rattle.doc_server_lint.specs.Warnings.{warnings_of_reader, warnings_of_readers};

use crate::reader_faults::token_of;
use doc_page_parts::failure::Memory;
use doc_page_parts::heap::{Heap, Vec};
use doc_server_lint_faults::finding::Finding;
use doc_server_lint_faults::place::Place;
use doc_server_lint_faults::row_line::count;
use doc_server_lint_faults::rule::KNOWN_READER_KEYS;
use doc_server_lint_faults::table_faults::push_told;
use doc_server_lint_faults::unknown::push_unknown_in;
use doc_server_lint_faults::what::What;
use toml::Value;

/// How many characters a token has at least, so that nobody guesses it.
const TOKEN_LENGTH: usize = 22;

/// What is told of all readers together.
pub(crate) fn owners_warning(rows: &[Value]) -> Option<What>
    ensures { result ≡ owners_warning (items_view rows.now) }
{
    if count(rows) == 0 {
        return Some(What::NoReaders);
    }
    if has_owner(rows) {
        return None;
    }
    Some(What::NoOwner)
}

fn has_owner(rows: &[Value]) -> bool
    ensures { result ≡ has_owner (items_view rows.now) }
{
    for row in rows {
        if is_owner(row) {
            return true;
        }
    }
    false
}

fn is_owner(row: &Value) -> bool
    ensures { result ≡ is_owner (owner_at (get (codes "owner") (view row.now))) }
{
    match row.get("owner") {
        Some(owner) => match owner.as_bool() {
            Some(is_owner) => is_owner,
            None => false,
        },
        None => false,
    }
}

/// Adds what is told of each reader.
pub(crate) fn push_warnings_of_readers(
    heap: Heap,
    found: &mut Vec<Finding>,
    rows: &[Value],
) -> Result<(), Memory>
    ensures { OnOk result (found.new.items ≡ found.old.items
        ++ warnings_of_readers 1 (items_view rows.now)) }
{
    for (index, row) in rows.iter().enumerate() {
        push_warnings_of_reader(heap, found, index + 1, row)?;
    }
    Ok(())
}

fn push_warnings_of_reader(
    heap: Heap,
    found: &mut Vec<Finding>,
    number: usize,
    row: &Value,
) -> Result<(), Memory>
    ensures { OnOk result (found.new.items ≡ found.old.items
        ++ warnings_of_reader number (view row.now)) }
{
    let place = Place::Reader(number);
    push_unknown_in(heap, found, false, place, KNOWN_READER_KEYS, row)?;
    push_told(heap, found, false, place, Some("token"), token_warning(row))
}

fn token_warning(row: &Value) -> Option<What>
    ensures { result ≡ token_warning (key_in (view row.now)) }
{
    match (row.get("token"), row.get("token_sha256")) {
        (Some(token), None) => clear_token(token),
        (None, Some(_)) | (None, None) | (Some(_), Some(_)) => None,
    }
}

/// What is told of a token that can be read, or guessed.
fn clear_token(value: &Value) -> Option<What>
    ensures { result ≡ token_warning
        (option_map keys.Token (good_token (as_str (view value.now)))) }
{
    if token_of(value)?.len() >= TOKEN_LENGTH {
        return Some(What::ClearToken);
    }
    Some(What::ShortToken)
}
