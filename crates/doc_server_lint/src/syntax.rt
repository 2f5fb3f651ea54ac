//! Texts that are no TOML.

ghost use Rattle.std.specs.Prelude.{IfOk};
ghost use Rattle.doc_server_lint.specs.Syntax.{IsReading};

use crate::printed::{push_named, push_numbered};
use doc_page_parts::failure::Memory;
use doc_page_parts::heap::{Heap, String};
use doc_server_config::document::Document;
use toml::de::Error;

/// What a text is read as.
#[derive(Drop)]
pub enum Reading {
    /// A TOML 1.1 document.
    Document(Document),
    /// None: this line says where it isn't, as `FILE:LINE:COLUMN: MESSAGE`.
    Broken(String),
}

/// Reads the text of the file of this name.
pub fn read(heap: Heap, file: &str, text: &str) -> Result<Reading, Memory>
    ensures { IfOk result (IsReading text.now) }
{
    match toml::table_from_str(heap, text) {
        Ok(table) => Ok(Reading::Document(Document { table })),
        Err(error) => {
            if error.is_memory() {
                return Err(Memory);
            }
            Ok(Reading::Broken(broken_line(heap, file, text, &error)?))
        }
    }
}

/// The line that says where a text isn't TOML.
fn broken_line(heap: Heap, file: &str, text: &str, error: &Error) -> Result<String, Memory> {
    let place = match error.span() {
        Some(span) => span.start,
        None => 0,
    };
    let (line, column) = line_and_column(text, place);
    let mut out = String::from_str(heap, file)?;
    push_numbered(&mut out, ":", line, "")?;
    push_numbered(&mut out, ":", column, ": ")?;
    push_named(&mut out, "", error.message(), "\n")?;
    Ok(out)
}

/// The line and the column of a place, both from 1. A column counts characters.
fn line_and_column(text: &str, place: usize) -> (usize, usize) {
    let mut line = 1usize;
    let mut column = 1usize;
    for (index, c) in text.char_indices() {
        if index >= place {
            return (line, column);
        }
        if c == '\n' {
            line = line.saturating_add(1);
            column = 1;
        } else {
            column = column.saturating_add(1);
        }
    }
    (line, column)
}
