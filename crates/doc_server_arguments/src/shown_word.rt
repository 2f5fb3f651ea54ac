//! A word of the arguments as it is told: nothing in it moves a terminal's cursor or changes its colours.

ghost use Rattle.std.specs.Prelude.{◌≡◌, take};

use percent_encoding::{AsciiSet, CONTROLS, ascii_set, percent_encode};
use std::fmt;

/// How many bytes of a word are told.
const WORD_LIMIT: usize = 1_000;

/// What is told by a number: controls, spaces, and all that isn't ASCII.
const HIDDEN: AsciiSet = ascii_set!(CONTROLS.add(b' '));

/// A word of the arguments as it is told: controls, spaces and what isn't ASCII as `%` and two digits, and cut behind 1,000 bytes, where
/// `...` stands.
#[derive(Clone, Copy)]
pub(crate) struct ShownWord<'a> {
    word: &'a str,
}

impl<'a> ShownWord<'a> {
    pub(crate) fn new(word: &'a str) -> ShownWord<'a>
        ensures { result.word.now ≡ word.entry.now }
    {
        ShownWord { word }
    }
}

impl fmt::Display for ShownWord<'_> {
    ghost use Rattle.std.specs.Prelude.{Some};
    ghost use Rattle.doc_server_arguments.specs.ShownWords.{shown_word};

    ghost output = { λ shown. Some (shown_word shown.word.now) };

    fn fmt<W: fmt::Write>(&self, f: &mut fmt::Formatter<W>) -> fmt::Result {
        let word = self.word.as_bytes();
        let front = percent_encode(front(word, WORD_LIMIT), HIDDEN);
        if word.len() <= WORD_LIMIT {
            return write!(f, "{front}");
        }
        write!(f, "{front}...")
    }
}

/// So many bytes at the front, or all where there are fewer.
fn front(word: &[u8], count: usize) -> &[u8]
    ensures { result.now ≡ take count word.now }
{
    &word[..count.min(word.len())]
}
