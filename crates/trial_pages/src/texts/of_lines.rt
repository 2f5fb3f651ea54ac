//! Calls of `doc_lines` that answer for a line, a character or a whole text.

use crate::texts::of_scanners;
use crate::texts::tools::{Tools, refused, shown_made};
use doc_lines::characters::{is_punctuation, is_white};
use doc_lines::cursor::Cursor;
use doc_lines::entities::{Entities, TableError};
use doc_lines::lines::Lines;
use doc_lines::pushing::{push_char, push_characters, push_text};
use doc_lines::{html_tag, unescape};
use doc_page_parts::failure::Memory;
use doc_page_parts::heap::{Heap, String};
use trial::answer::{
    no_call, number_and_text, only_char, shown, shown_if, two_texts, word_and_text,
};

/// One or two characters.
type Those = (char, Option<char>);

/// Where a cursor is: place, column, whether inside a tab, and the next character.
type Spot = (usize, u128, bool, Option<char>);

/// What is printed for a call of this name.
pub fn called(tools: Tools<'_>, name: &str, given: &str) -> Result<String, Memory> {
    let heap = tools.heap;
    match name {
        "is_white" => shown_if(heap, only_char(given).map(is_white)),
        "is_punctuation" => shown_if(heap, only_char(given).map(is_punctuation)),
        "lines" => lines(heap, given),
        "next" => shown_if(heap, after(given)),
        "skip" => shown_if(heap, skipped(given)),
        "walk" => walked(heap, given),
        "entity" => shown(heap, tools.entities.find(given)),
        "table_entity" => table_entity(tools, given),
        "table_refusal" => table_refusal(heap, given),
        "unescape" => shown_made(heap, unescape(heap, given, tools.entities)),
        "unescape_by_table" => unescaped_by_table(tools, given),
        "unescape_length" => unescaped_length(tools, given),
        "html_tag" => shown(heap, html_tag(given)),
        "push_text" | "push_char" | "push_characters" => pushed(heap, name, given),
        _ => of_scanners::called(tools, name, given),
    }
}

/// The lines of a text, each with a comma behind it.
fn lines(heap: Heap, text: &str) -> Result<String, Memory> {
    let mut out = String::new(heap);
    match push_lines(&mut out, text) {
        Ok(()) => Ok(out),
        Err(Memory) => Err(Memory),
    }
}

fn push_lines(out: &mut String, text: &str) -> Result<(), Memory> {
    for line in Lines::new(text) {
        write!(out, "{line:?},")?;
    }
    Ok(())
}

/// `N LINE`: the spot after N calls of `next`.
fn after(given: &str) -> Option<Spot> {
    let (count, line) = number_and_text(given)?;
    let mut cursor = Cursor::new(line);
    for _ in 0..count {
        let _ = cursor.next();
    }
    Some(spot(&cursor))
}

/// `N LINE`: what `skip` answers for N columns at the front, and the spot after it.
fn skipped(given: &str) -> Option<(usize, Spot)> {
    let (columns, line) = number_and_text(given)?;
    let mut cursor = Cursor::new(line);
    let taken = cursor.skip(columns);
    Some((taken, spot(&cursor)))
}

/// `MOVES LINE`, where MOVES are numbers with `,` between two, 0 for `next` and another for `skip` with this number: for each move the spot
/// before it, as a copy of the cursor gives it after the move, and what the move answers; then the last spot with what is left of the
/// line.
fn walked(heap: Heap, given: &str) -> Result<String, Memory> {
    let mut out = String::new(heap);
    match push_walk(&mut out, given) {
        Ok(()) => Ok(out),
        Err(Memory) => Err(Memory),
    }
}

fn push_walk(out: &mut String, given: &str) -> Result<(), Memory> {
    let (moves, line) = word_and_text(given).unwrap_or(("", given));
    let mut cursor = Cursor::new(line);
    for columns in moves.split(',') {
        push_move(out, &mut cursor, columns.parse::<usize>().unwrap_or(0))?;
    }
    let spot = spot(&cursor);
    let rest = cursor.rest();
    write!(out, "{spot:?} {rest:?}")?;
    Ok(())
}

fn push_move(out: &mut String, cursor: &mut Cursor, columns: usize) -> Result<(), Memory> {
    let before = cursor.copy();
    if columns == 0 {
        let next = cursor.next();
        let spot = spot(&before);
        write!(out, "{spot:?} Next({next:?}); ")?;
    } else {
        let taken = cursor.skip(columns);
        let spot = spot(&before);
        write!(out, "{spot:?} Skip({taken}); ")?;
    }
    Ok(())
}

fn spot(cursor: &Cursor) -> Spot {
    (
        cursor.place(),
        cursor.column(),
        cursor.is_in_tab(),
        cursor.peek(),
    )
}

/// `NAME TABLE`: the characters of the name with the table, or its refusal.
fn table_entity(tools: Tools<'_>, given: &str) -> Result<String, Memory> {
    let Some((name, table)) = word_and_text(given) else {
        return no_call(tools.heap);
    };
    let entities = Entities::from_table(tools.heap, table);
    let found = found_by(&entities, name);
    drop(entities);
    shown(tools.heap, found)
}

fn found_by(
    entities: &Result<Entities, TableError>,
    name: &str,
) -> Result<Option<Those>, TableError> {
    match entities {
        Ok(entities) => Ok(entities.find(name)),
        Err(error) => Err(*error),
    }
}

/// The text of the refusal of a table.
fn table_refusal(heap: Heap, table: &str) -> Result<String, Memory> {
    let refusal = Entities::from_table(heap, table).err();
    match refusal {
        Some(error) => Ok(format!(in heap; "{error}")?),
        None => shown(heap, refusal),
    }
}

/// `TABLE | TEXT`: the text with its escapes and references read by the names of a table.
fn unescaped_by_table(tools: Tools<'_>, given: &str) -> Result<String, Memory> {
    let (table, text) = two_texts(given).unwrap_or(("", ""));
    let entities = Entities::from_table(tools.heap, table);
    let told = unescaped_by(tools, &entities, text);
    drop(entities);
    told
}

fn unescaped_by(
    tools: Tools<'_>,
    entities: &Result<Entities, TableError>,
    text: &str,
) -> Result<String, Memory> {
    match entities {
        Ok(entities) => shown_made(tools.heap, unescape(tools.heap, text, entities)),
        Err(error) => shown(tools.heap, *error),
    }
}

/// How many bytes and how many characters the text has with its escapes and references read.
fn unescaped_length(tools: Tools<'_>, text: &str) -> Result<String, Memory> {
    let read = unescape(tools.heap, text, tools.entities)?;
    let lengths = lengths(read.get());
    drop(read);
    shown(tools.heap, lengths)
}

fn lengths(text: &str) -> (usize, usize) {
    (text.len(), text.chars().count())
}

/// `TEXT | END`: whether a text, one character, or one or two stand at the end of a text once they were pushed there.
fn pushed(heap: Heap, name: &str, given: &str) -> Result<String, Memory> {
    let (text, end) = two_texts(given).unwrap_or(("", ""));
    let mut out = String::from_str(heap, text)?;
    let pushed = push_end(&mut out, name, end);
    let is_right = has_pushed(&out, text, end, pushed);
    drop(out);
    shown_made(heap, is_right)
}

fn push_end(out: &mut String, name: &str, end: &str) -> Result<(), Memory> {
    let mut characters = end.chars();
    let first = characters.next().unwrap_or('?');
    match name {
        "push_text" => push_text(out, end),
        "push_char" => push_char(out, first),
        _ => push_characters(out, (first, characters.next())),
    }
}

fn has_pushed(
    out: &str,
    text: &str,
    end: &str,
    pushed: Result<(), Memory>,
) -> Result<bool, Memory> {
    match pushed {
        Err(Memory) => refused(out == text),
        Ok(()) => match out.strip_prefix(text) {
            Some(rest) => Ok(rest == end),
            None => Ok(false),
        },
    }
}
