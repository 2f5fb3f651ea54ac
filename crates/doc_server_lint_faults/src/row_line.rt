//! The line in which a row of a configuration begins: guessed, and checked.

ghost use Rattle.std.specs.Prelude.{◌≡◌, ◌≤◌, ◌+◌, ◌==◌, Some, IfSome, count_by, length, true};
ghost use Rattle.toml.specs.Data.{get_member};
ghost use Rattle.toml.specs.View.{items_view, table_view, view};
ghost use Rattle.doc_server_lint_faults.specs.RowPlaces.{IsLineOf, IsPlaceOf, count_at, count_items, rows_in};

use doc_page_parts::heap::Heap;
use doc_server_config::table::value_at;
use toml::{Table, Value};

/// Two places in a text.
#[derive(Clone, Copy)]
struct Span {
    begin: usize,
    end: usize,
}

/// The line of the row of this number of an array of tables, where it can be told. It can't where the header of the row isn't written
/// as `[[KEY]]` in a line of its own, or where a line within a string looks like one. It takes the time to read the text up to the row
/// twice. `None` may be for want of memory, too.
pub fn line_of_row(heap: Heap, text: &str, key: &str, row: usize) -> Option<usize>
    ensures { IfSome result (λ line. IsLineOf key.now text.now row line) }
{
    let Some(guess) = header_of(text, key, row) else {
        return None;
    };
    line_in(heap, text.as_bytes(), key, row, guess)
}

/// The line of a row that a guess names, where it is right.
fn line_in(heap: Heap, text: &[u8], key: &str, row: usize, guess: Span) -> Option<usize>
    ensures { IfSome result (λ line. IsLineOf key.now text.now row line) }
{
    let Some(span) = checked(heap, text, key, row, guess) else {
        return None;
    };
    Some(line_behind(&text[..span.begin]))
}

/// The line that begins behind a text: it is one more than its line feeds.
fn line_behind(text: &[u8]) -> usize
    ensures { result ≡ count_by (λ b. b == 10) text.now + 1 }
{
    let mut line = 1;
    for byte in text {
        if *byte == b'\n' {
            line += 1;
        }
    }
    line
}

/// The line that may be the header of the row of this number.
fn header_of(text: &str, key: &str, row: usize) -> Option<Span> {
    let mut left = row;
    let mut begin = 0usize;
    for line in text.split('\n') {
        let end = begin.checked_add(line.len())?;
        if is_header(line, key) {
            left = left.checked_sub(1)?;
            if left == 0 {
                return Some(Span { begin, end });
            }
        }
        begin = end.checked_add(1)?;
    }
    None
}

/// Whether a line looks like the header of a row: a comment may stand behind it.
fn is_header(line: &str, key: &str) -> bool {
    let Some(rest) = behind(line, "[[") else {
        return false;
    };
    let Some(rest) = behind(rest, key) else {
        return false;
    };
    let Some(rest) = behind(rest, "]]") else {
        return false;
    };
    let rest = rest.trim();
    rest.is_empty() || rest.starts_with('#')
}

/// What stands behind a word at the front of a text, where that is so.
fn behind<'a>(text: &'a str, word: &str) -> Option<&'a str> {
    text.trim_start().strip_prefix(word)
}

/// The place of a row that a guess names, where it is right.
fn checked(heap: Heap, text: &[u8], key: &str, row: usize, guess: Span) -> Option<Span>
    ensures place { IfSome result (λ span. IsPlaceOf key.now text.now row span.begin span.end) }
    ensures within { IfSome result (λ span. span.begin ≤ length text.now) }
{
    if guess.begin > guess.end || guess.end > text.len() || row == 0 {
        return None;
    }
    if !has_rows(heap, &text[..guess.begin], key, row - 1) {
        return None;
    }
    if !has_rows(heap, &text[..guess.end], key, row) {
        return None;
    }
    Some(guess)
}

/// Whether a text is a document with so many rows. False may be for want of memory, too.
fn has_rows(heap: Heap, text: &[u8], key: &str, row: usize) -> bool
    ensures { result ≡ true → rows_in key.now text.now ≡ Some row }
{
    match toml::table_from_slice(heap, text) {
        Ok(document) => is_count(&document, key, row),
        Err(_) => false,
    }
}

fn is_count(document: &Table, key: &str, row: usize) -> bool
    ensures { result ≡ true → count_at (get_member key.now (table_view document.now)) ≡ Some row }
{
    match value_at(document, key) {
        None => row == 0,
        Some(value) => has_items(value, row),
    }
}

/// Whether an array has so many rows. A value that is none has no number of them.
fn has_items(value: &Value, row: usize) -> bool
    ensures { result ≡ true → count_at (Some (view value.now)) ≡ Some row }
{
    match items_of(value) {
        Some(count) => count == row,
        None => false,
    }
}

/// How many rows an array has.
fn items_of(value: &Value) -> Option<usize>
    ensures { result ≡ count_at (Some (view value.now)) }
{
    match value.as_array() {
        Some(rows) => Some(count(rows)),
        None => None,
    }
}

/// How many rows there are.
#[tactic(auto, using(crate::proofs::Counts::count_view))]
pub fn count(rows: &[Value]) -> usize
    ensures { result ≡ count_items (items_view rows.now) }
{
    rows.len()
}
