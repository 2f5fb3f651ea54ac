//! The faults of readers.

ghost use Rattle.std.specs.Prelude.{◌≡◌, ◌++◌, OnOk, codes, option_copied, option_map, option_and_then};
ghost use Rattle.toml.specs.Data.{as_str, get};
ghost use Rattle.toml.specs.View.{items_view, view};
ghost use Rattle.doc_store_readers.specs.Keys.{digest_of_text, good_token, key_in};
ghost use Rattle.doc_store_readers.specs.declared.keys.Key.TheVariants as keys;
ghost use Rattle.doc_server_lint.specs.Faults.{faults_of_entry, faults_of_key_again, faults_of_name, faults_of_reader, faults_of_readers, faults_of_row};
ghost use Rattle.doc_server_lint.specs.Faults.{naming_fault, nobody_known, with_reader};

use crate::known_readers::KnownReaders;
use doc_page_parts::failure::Memory;
use doc_page_parts::heap::{Heap, Vec};
use doc_page_parts::text::Text;
use doc_page_parts::token::is_token;
use doc_server_lint_faults::digest_text::digest_of_text;
use doc_server_lint_faults::finding::Finding;
use doc_server_lint_faults::place::Place;
use doc_server_lint_faults::rule::{Form, READER_KEYS, Rule};
use doc_server_lint_faults::table_faults::{push_fault_of_key, push_faults_of_keys, push_told};
use doc_server_lint_faults::what::What;
use toml::Value;

/// Adds the faults of all readers.
pub(crate) fn push_faults_of_readers(
    heap: Heap,
    found: &mut Vec<Finding>,
    rows: &[Value],
) -> Result<(), Memory>
    ensures { OnOk result (found.new.items ≡ found.old.items
        ++ faults_of_readers nobody_known 1 (items_view rows.now)) }
{
    let mut known = KnownReaders::none(heap);
    for (index, row) in rows.iter().enumerate() {
        push_faults_of_reader(heap, found, &mut known, index + 1, row)?;
    }
    Ok(())
}

/// Adds the faults of a reader, and its key to those of the readers before it.
fn push_faults_of_reader(
    heap: Heap,
    found: &mut Vec<Finding>,
    known: &mut KnownReaders,
    number: usize,
    row: &Value,
) -> Result<(), Memory>
    ensures faults { OnOk result (found.new.items ≡ found.old.items
        ++ faults_of_reader known.old number (view row.now)) }
    ensures known { OnOk result
        (known.new ≡ with_reader known.old (key_in (view row.now)) number) }
{
    push_faults_of_entry(heap, found, known, number, row)?;
    push_faults_of_name(heap, found, number, row)
}

/// The same but for its name.
fn push_faults_of_entry(
    heap: Heap,
    found: &mut Vec<Finding>,
    known: &mut KnownReaders,
    number: usize,
    row: &Value,
) -> Result<(), Memory>
    ensures faults { OnOk result (found.new.items ≡ found.old.items
        ++ faults_of_entry known.old number (view row.now)) }
    ensures known { OnOk result
        (known.new ≡ with_reader known.old (key_in (view row.now)) number) }
{
    push_faults_of_row(heap, found, number, row)?;
    match (row.get("token"), row.get("token_sha256")) {
        (Some(token), None) => push_token(heap, found, known, number, token),
        (None, Some(digest)) => push_digest(heap, found, known, number, digest),
        (None, None) | (Some(_), Some(_)) => Ok(()),
    }
}

/// Adds what is told of a reader's name.
fn push_faults_of_name(
    heap: Heap,
    found: &mut Vec<Finding>,
    number: usize,
    row: &Value,
) -> Result<(), Memory>
    ensures { OnOk result (found.new.items ≡ found.old.items
        ++ faults_of_name number (view row.now)) }
{
    push_fault_of_key(
        heap,
        found,
        Place::Reader(number),
        "name",
        Rule::Text(Form::Name),
        row.get("name"),
    )
}

/// Adds the faults of a reader's entry, by itself.
fn push_faults_of_row(
    heap: Heap,
    found: &mut Vec<Finding>,
    number: usize,
    row: &Value,
) -> Result<(), Memory>
    ensures { OnOk result (found.new.items ≡ found.old.items
        ++ faults_of_row number (view row.now)) }
{
    let place = Place::Reader(number);
    push_told(heap, found, true, place, Some("token"), naming_fault(row))?;
    push_faults_of_keys(heap, found, place, READER_KEYS, row)
}

/// What is wrong with how a reader is named.
fn naming_fault(row: &Value) -> Option<What>
    ensures { result ≡ naming_fault (get (codes "token") (view row.now))
        (get (codes "token_sha256") (view row.now)) }
{
    match (row.get("token"), row.get("token_sha256")) {
        (None, None) => Some(What::Missing),
        (Some(_), Some(_)) => Some(What::TwoTokens),
        (Some(_), None) | (None, Some(_)) => None,
    }
}

/// Adds what is told of the token of a reader, where it is one, and the token to those before it.
fn push_token(
    heap: Heap,
    found: &mut Vec<Finding>,
    known: &mut KnownReaders,
    number: usize,
    value: &Value,
) -> Result<(), Memory>
    ensures faults { let key = option_map keys.Token (good_token (as_str (view value.now))) in
        OnOk result (found.new.items ≡ found.old.items
        ++ faults_of_key_again known.old number key) }
    ensures known { let key = option_map keys.Token (good_token (as_str (view value.now))) in
        OnOk result (known.new ≡ with_reader known.old key number) }
{
    let Some(token) = token_of(value) else {
        return Ok(());
    };
    let token = Text::copy_of(heap, token)?;
    let what = again(known.with_token(&token));
    push_told(
        heap,
        found,
        true,
        Place::Reader(number),
        Some("token"),
        what,
    )?;
    known.add_token(token, number)
}

/// The same of the digest of a token.
fn push_digest(
    heap: Heap,
    found: &mut Vec<Finding>,
    known: &mut KnownReaders,
    number: usize,
    value: &Value,
) -> Result<(), Memory>
    ensures faults { let key = option_map keys.Digest
        (option_and_then digest_of_text (as_str (view value.now))) in
        OnOk result (found.new.items ≡ found.old.items
        ++ faults_of_key_again known.old number key) }
    ensures known { let key = option_map keys.Digest
        (option_and_then digest_of_text (as_str (view value.now))) in
        OnOk result (known.new ≡ with_reader known.old key number) }
{
    let Some(digest) = digest_in(value) else {
        return Ok(());
    };
    let what = again(known.with_digest(&digest));
    push_told(
        heap,
        found,
        true,
        Place::Reader(number),
        Some("token_sha256"),
        what,
    )?;
    known.add_digest(digest, number)
}

/// What is told where an earlier reader has the token.
fn again(earlier: Option<usize>) -> Option<What>
    ensures { result ≡ option_map What.TokenOf earlier }
{
    match earlier {
        Some(earlier) => Some(What::TokenOf(earlier)),
        None => None,
    }
}

/// The token that a value holds.
pub(crate) fn token_of(value: &Value) -> Option<&str>
    ensures { option_copied result ≡ good_token (as_str (view value.now)) }
{
    let token = value.as_str()?;
    if is_token(token.as_bytes()) {
        Some(token)
    } else {
        None
    }
}

/// The digest that a value holds.
fn digest_in(value: &Value) -> Option<[u8; 32]>
    ensures { result ≡ option_and_then digest_of_text (as_str (view value.now)) }
{
    digest_of_text(value.as_str()?)
}
