//! The lines that are gathered for a leaf.
ghost use Rattle.std.specs.Prelude.{◌≡◌, [], ◌∷◌, ◌++◌, replicate, chars, OnOk};
ghost use Rattle.doc_rules.specs.Columns.{text_of, skip, after_indent};
ghost use Rattle.doc_lines.specs.Cursors.{left_of};
ghost use Rattle.doc_blocks_leaves.specs.OpenLeaves.{kept_by};

use doc_blocks_starts::indentation::after_indent;
use doc_lines::cursor::Cursor;
use doc_page_parts::failure::Memory;
use doc_page_parts::heap::{Heap, String};
use std::marker::Model;

/// The text of the lines of a leaf, and how much of it stands before the last blank ones. Its room stays when it is cleared.
#[derive(Drop)]
pub struct Gathered {
    text: String,
    kept: usize,
}

impl Model for Gathered {
    ghost use Rattle.std.specs.Prelude.{chars, take, string_bytes};
    ghost use Rattle.std.specs.Str.{IsCharBoundary};
    ghost use Rattle.doc_blocks_leaves.specs.OpenLeaves.{Gathering};

    ghost Value = { Gathering };

    ghost view = { λ g. record { all = chars (string_bytes g.text); kept = chars (take g.kept (string_bytes g.text)) } };

    ghost invariant = { λ g. IsCharBoundary (string_bytes g.text) g.kept };
}

impl Gathered {
    /// No lines. Takes no memory.
    pub fn new(heap: Heap) -> Gathered
        ensures all { result.all ≡ [] }
        ensures kept { result.kept ≡ [] }
    {
        Gathered {
            text: String::new(heap),
            kept: 0,
        }
    }

    /// All lines.
    pub fn all(&self) -> &str
        ensures { chars result.now ≡ self.now.all }
    {
        self.text.as_str()
    }

    /// The lines before the last blank ones.
    pub fn kept(&self) -> &str
        ensures { chars result.now ≡ self.now.kept }
    {
        &self.text.as_str()[..self.kept]
    }

    /// Drops the lines and keeps their room.
    pub fn clear(&mut self)
        ensures all { self.new.all ≡ [] }
        ensures kept { self.new.kept ≡ [] }
    {
        self.kept = 0;
        self.text.clear();
    }

    /// Keeps all lines, unless the last one is blank.
    pub fn keep(&mut self, blank: bool)
        ensures all { self.new.all ≡ self.old.all }
        ensures kept { self.new.kept ≡ kept_by blank self.old }
    {
        if blank {
            return;
        }
        self.kept = self.text.len();
    }

    /// Adds a text, which isn't kept yet.
    pub fn add(&mut self, text: &str) -> Result<(), Memory>
        ensures all { OnOk result (self.new.all ≡ self.old.all ++ chars text.now) }
        ensures kept { self.new.kept ≡ self.old.kept }
    {
        Ok(self.text.push_str(text)?)
    }

    /// Adds a space.
    fn add_space(&mut self) -> Result<(), Memory>
        ensures all { OnOk result (self.new.all ≡ self.old.all ++ 32 ∷ []) }
        ensures kept { self.new.kept ≡ self.old.kept }
    {
        self.add(" ")
    }

    /// Adds a line ending.
    pub fn add_ending(&mut self) -> Result<(), Memory>
        ensures all { OnOk result (self.new.all ≡ self.old.all ++ 10 ∷ []) }
        ensures kept { self.new.kept ≡ self.old.kept }
    {
        self.add("\n")
    }

    /// Adds so many spaces.
    fn add_spaces(&mut self, count: usize) -> Result<(), Memory>
        ensures all { OnOk result (self.new.all ≡ self.old.all ++ replicate count 32) }
        ensures kept { self.new.kept ≡ self.old.kept }
    {
        let mut left = count;
        'spaces: while left > 0 {
            self.add_space()?;
            left -= 1;
        }
        Ok(())
    }

    /// Adds what is left of a line. A tab that is used in part leaves its other columns as spaces.
    pub fn add_rest(&mut self, line: &Cursor) -> Result<(), Memory>
        ensures all { OnOk result (self.new.all ≡ self.old.all ++ text_of (left_of line.now)) }
        ensures kept { self.new.kept ≡ self.old.kept }
    {
        if !line.is_in_tab() {
            return self.add(line.rest());
        }
        let mut behind = line.copy();
        let _ = behind.next();
        self.add_spaces((behind.column() - line.column()) as usize)?;
        self.add(behind.rest())
    }

    /// Adds a line behind its first columns of spaces and tabs, and a line ending.
    pub fn add_line(&mut self, line: &Cursor, columns: usize) -> Result<(), Memory>
        ensures all { OnOk result (self.new.all ≡ self.old.all
            ++ (text_of (skip columns (left_of line.now)) ++ 10 ∷ [])) }
        ensures kept { self.new.kept ≡ self.old.kept }
    {
        let mut rest = line.copy();
        let _ = rest.skip(columns);
        self.add_rest(&rest)?;
        self.add_ending()
    }

    /// Adds a line ending, and a line behind it.
    pub fn add_next(&mut self, line: &Cursor) -> Result<(), Memory>
        ensures all { OnOk result (self.new.all ≡ self.old.all ++ 10 ∷ text_of (left_of line.now)) }
        ensures kept { self.new.kept ≡ self.old.kept }
    {
        self.add_ending()?;
        self.add_rest(line)
    }

    /// Adds a line without its indentation.
    pub fn add_text(&mut self, line: &Cursor) -> Result<(), Memory>
        ensures all { OnOk result (self.new.all ≡ self.old.all
            ++ text_of (after_indent (left_of line.now))) }
        ensures kept { self.new.kept ≡ self.old.kept }
    {
        self.add(after_indent(line))
    }

    /// Adds a line ending, and a line without its indentation behind it.
    pub fn add_next_text(&mut self, line: &Cursor) -> Result<(), Memory>
        ensures all { OnOk result (self.new.all ≡ self.old.all ++ 10
            ∷ text_of (after_indent (left_of line.now))) }
        ensures kept { self.new.kept ≡ self.old.kept }
    {
        self.add_ending()?;
        self.add_text(line)
    }
}
