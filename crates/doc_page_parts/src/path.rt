//! Paths of pages.

ghost use Rattle.std.specs.Prelude.{◌≡◌, IfOk, length};
ghost use Rattle.std.specs.List.{list_all};
ghost use Rattle.std.specs.Str.{chars};
ghost use Rattle.doc_page_parts.specs.Paths.{is_path, path_of, segments, is_segment, is_path_char};
ghost use Rattle.doc_page_parts.specs.Refusals.{IsAnswer};

use crate::failure::Memory;
use crate::heap::Heap;
use crate::text::Text;
use std::cmp::Ordering;
use std::marker::Model;
use thiserror::Error;

/// Why no path could be made of a text.
#[derive(Clone, Copy, Debug, PartialEq, Eq, Error)]
pub enum PathError {
    #[error("not a path of a page")]
    BadPath,
    #[error("{}", Memory)]
    Memory,
}

impl From<Memory> for PathError {
    ghost use Rattle.std.specs.Prelude.{◌≡◌};
    ghost use Rattle.doc_page_parts.specs.declared.path.PathError.TheVariants as refusals;

    ghost from_gives = { λ _ e. e ≡ refusals.Memory };

    fn from(_e: Memory) -> PathError {
        PathError::Memory
    }
}

/// The path of a page, as `guide/start.md`: 1 to 16 segments joined by `/`, at most 200 bytes in
/// all. No segment is empty, `.` or `..`, and none holds a control character (U+0000 to U+001F,
/// U+007F to U+009F), `\`, `%`, `?` or `#`. Contracts see its bytes; it is equal and ordered by
/// them, and hashed as they are.
#[derive(Debug, PartialEq, Eq, PartialOrd, Ord, Hash, Drop)]
pub struct Path {
    text: Text,
}

impl Model for Path {
    ghost use Rattle.std.specs.Prelude.{ℕ, List as Seq, IsTrue};
    ghost use Rattle.doc_page_parts.specs.Paths.{is_path};

    ghost Value = { Seq ℕ };

    ghost view = { λ p. p.text };

    ghost invariant = { λ p. IsTrue (is_path p.text) };

    ghost inverse = { λ bytes. record { text = bytes } };
}

impl Path {
    /// The path that a text is, or `BadPath` where it is none.
    pub fn new(heap: Heap, text: &str) -> Result<Path, PathError>
        ensures { IsAnswer PathError.Memory (path_of text.now) result }
    {
        if !is_path(text) {
            return Err(PathError::BadPath);
        }
        Ok(Path {
            text: Text::copy_of(heap, text)?,
        })
    }

    pub fn text(&self) -> &str
        ensures { result.now ≡ self.now }
    {
        self.text.get()
    }

    pub fn copy(&self, heap: Heap) -> Result<Path, Memory>
        ensures { IfOk result (λ path. path ≡ self.now) }
    {
        Ok(Path {
            text: self.text.copy(heap)?,
        })
    }
}

#[tactic(auto, unfolding(crate::specs::Paths::is_path))]
fn is_path(text: &str) -> bool
    ensures { result ≡ is_path text.now }
{
    text.len() <= 200
        && segment_count(text) <= 16
        && has_good_segments(text)
        && has_good_characters(text)
}

fn segment_count(text: &str) -> usize
    ensures { result ≡ length (segments text.now) }
{
    text.split('/').count()
}

fn has_good_segments(text: &str) -> bool
    ensures { result ≡ list_all is_segment (segments text.now) }
{
    text.split('/').all(|segment| is_segment(segment))
}

fn has_good_characters(text: &str) -> bool
    ensures { result ≡ list_all is_path_char (chars text.now) }
{
    text.chars().all(|c| is_path_char(c))
}

fn is_segment(segment: &str) -> bool
    ensures { result ≡ is_segment segment.now }
{
    segment != "" && segment != "." && segment != ".."
}

fn is_path_char(c: char) -> bool
    ensures { result ≡ is_path_char c }
{
    !(c < ' '
        || ('\u{7f}'..='\u{9f}').contains(&c)
        || c == '\\'
        || c == '%'
        || c == '?'
        || c == '#')
}
