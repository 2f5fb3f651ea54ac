//! A cursor over the characters and columns of a line.

ghost use Rattle.std.specs.Prelude.{◌≡◌, ◌+◌, ◌-◌, ◌*◌, ◌^◌, ◌<◌, ◌≤◌, ℕ, false, min, length, chars};
ghost use Rattle.doc_rules.specs.Columns.{width_at, skip, indent, after_indent, is_blank_line, text_of};
ghost use Rattle.doc_lines.specs.Cursors.{start, first, after_next, skipped, passed, left_of, position_at};

use crate::scan::character::next_char;
use crate::scan::white_space::is_space_or_tab;
use std::marker::Model;

/// A place on a line, which moves from its front to its end.
///
/// A tab reaches the next column that is a multiple of 4. [`Cursor::skip`] may stop inside a tab, which is then used in part:
/// [`Cursor::peek`] and [`Cursor::next`] still give it as a tab, and what is left of the line, as CommonMark reads it, begins
/// with the columns that are left of it as spaces (CommonMark 0.31.2, section 2.2). Contracts see the place as `Position`, and
/// what is left of the line as its `left_of`.
///
/// The cursor looks ahead: it knows the text behind the spaces and tabs that are next, and the column of that, so that a question for the
/// indentation takes one comparison.
#[derive(Drop)]
pub struct Cursor<'a> {
    rest: &'a str,
    text: &'a str,
    line_length: usize,
    column: u128,
    text_column: u128,
    in_tab: bool,
}

impl<'a> Model for Cursor<'a> {
    ghost use Rattle.std.specs.Prelude.{length};
    ghost use Rattle.doc_lines.specs.Cursors.{Position, position_at, IsWithin, IsSound, IsAhead};

    ghost Value = { Position };

    ghost view = { λ c. position_at c.line_length c.rest.now c.column c.in_tab };

    ghost invariant = { λ c. IsWithin c.line_length c.rest.now × IsSound (position_at c.line_length c.rest.now c.column c.in_tab)
        × IsAhead c.line_length c.text.now c.text_column (position_at c.line_length c.rest.now c.column c.in_tab) };
}

impl<'a> Cursor<'a> {
    /// A cursor at the front of a line.
    pub fn new(line: &'a str) -> Self
        ensures { result ≡ start (chars line.now) }
    {
        let (text, text_column) = behind_gap(line, 0);
        Cursor {
            rest: line,
            text,
            line_length: line.len(),
            column: 0,
            text_column,
            in_tab: false,
        }
    }

    /// Another cursor at this place, for looking ahead.
    pub fn copy(&self) -> Self
        ensures { result ≡ self.now }
    {
        Cursor {
            rest: self.rest,
            text: self.text,
            line_length: self.line_length,
            column: self.column,
            text_column: self.text_column,
            in_tab: self.in_tab,
        }
    }

    /// The number of bytes before the place. Inside a tab, the tab is not among them.
    pub fn place(&self) -> usize
        ensures { result ≡ self.now.place }
    {
        self.line_length - self.rest.len()
    }

    /// The number of columns before the place. A line of tabs can have more of them than a `usize` counts.
    pub fn column(&self) -> u128
        ensures { result ≡ self.now.column }
    {
        self.column
    }

    /// Whether the place is inside a tab, of which columns were skipped and columns are left.
    pub fn is_in_tab(&self) -> bool
        ensures { result ≡ self.now.in_tab }
    {
        self.in_tab
    }

    /// What is left of the line, with a tab that is used in part as its first character.
    pub fn rest(&self) -> &'a str
        ensures { chars result.now ≡ self.now.rest }
    {
        self.rest
    }

    /// The next character, if there is one. The rest of a tab that is used in part is a tab.
    pub fn peek(&self) -> Option<char>
        ensures { result ≡ first self.now.rest }
    {
        let (first, _) = next_char(self.rest)?;
        Some(first)
    }

    /// Takes the next character, if there is one, with all the columns that are left of it. The rest of a tab that is used in
    /// part is a tab.
    pub fn next(&mut self) -> Option<char>
        ensures character { result ≡ first self.old.rest }
        ensures place { self.new ≡ after_next self.old }
    {
        let (c, rest) = next_char(self.rest)?;
        self.column += width_at(c, self.column) as u128;
        self.in_tab = false;
        self.rest = rest;
        if is_space_or_tab(c) {
            return Some(c);
        }
        let (text, text_column) = behind_gap(rest, self.column);
        self.text = text;
        self.text_column = text_column;
        Some(c)
    }

    /// How many columns of spaces and tabs are next, where `most` is enough to know.
    #[inline(always)]
    pub fn indent_up_to(&self, most: usize) -> usize
        ensures { result ≡ min most (indent (left_of self.now)) }
    {
        let columns = self.text_column - self.column;
        if columns < most as u128 {
            columns as usize
        } else {
            most
        }
    }

    /// Whether no more than spaces and tabs are left of the line.
    #[inline(always)]
    pub fn is_blank(&self) -> bool
        ensures { result ≡ is_blank_line (left_of self.now) }
    {
        self.text.is_empty()
    }

    /// What is left of the line behind the spaces and tabs that are next.
    #[inline(always)]
    pub fn text(&self) -> &'a str
        ensures { chars result.now ≡ text_of (after_indent (left_of self.now)) }
    {
        self.text
    }

    /// Passes the spaces and tabs that are next.
    #[inline(always)]
    pub fn pass_indent(&mut self)
        ensures place { self.new ≡ passed self.old }
        ensures line { left_of self.new ≡ after_indent (left_of self.old) }
    {
        self.rest = self.text;
        self.column = self.text_column;
        self.in_tab = false;
    }

    /// Skips at most this many columns of spaces and tabs, and answers how many. It stops inside a tab that has more columns.
    pub fn skip(&mut self, columns: usize) -> usize
        ensures place { self.new ≡ skipped columns self.old }
        ensures line { left_of self.new ≡ skip columns (left_of self.old) }
        ensures columns { result ≡ min columns (indent (left_of self.old)) }
    {
        let all = self.text_column - self.column;
        if all <= columns as u128 {
            self.pass_indent();
            return all as usize;
        }
        let mut left = columns;
        while left > 0 {
            let taken = self.skip_one(left);
            if taken == 0 {
                return columns - left;
            }
            left -= taken;
        }
        columns
    }

    /// Skips at most this many columns of one space or tab, and answers how many: 0 where another character or none is next.
    fn skip_one(&mut self, columns: usize) -> usize
        requires { 0 < columns }
        ensures bound { result ≤ columns }
        ensures place { skipped columns self.old ≡ skipped (columns - result) self.new }
        ensures stop { result ≡ 0 → self.new ≡ skipped columns self.old }
        ensures column { self.new.column ≡ self.old.column + result }
    {
        let Some((c, rest)) = next_char(self.rest) else {
            return 0;
        };
        if !is_space_or_tab(c) {
            return 0;
        }
        let width = width_at(c, self.column);
        if columns < width {
            self.column += columns as u128;
            self.in_tab = true;
            return columns;
        }
        self.column += width as u128;
        self.in_tab = false;
        self.rest = rest;
        width
    }
}

/// The columns of a character at a column.
fn width_at(c: char, column: u128) -> usize
    ensures { result ≡ width_at c column }
{
    if c == '\t' {
        4 - (column % 4) as usize
    } else {
        1
    }
}

/// The text behind the spaces and tabs at the front of a text that begins at this column, and its column.
fn behind_gap(text: &str, column: u128) -> (&str, u128)
    requires { column + 4 * length text.now < 2 ^ 127 }
    ensures within { length result.0.now ≤ length text.now }
    ensures place { (line_length : ℕ) → length text.now ≤ line_length
        → position_at line_length result.0.now result.1 false
        ≡ passed (position_at line_length text.now column false) }
{
    let mut rest = text;
    let mut at = column;
    'characters: while let Some((c, behind)) = next_char(rest) {
        if !is_space_or_tab(c) {
            return (rest, at);
        }
        at += width_at(c, at) as u128;
        rest = behind;
    }
    (rest, at)
}
