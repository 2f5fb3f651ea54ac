//! The elements of a list in the value of a field.

ghost use Rattle.std.specs.Prelude.{◌≡◌, ◌<◌, ◌∷◌, ◌+◌, [], length, take, drop, false, IfSome, IfNone};
ghost use Rattle.std.specs.Iterator.{YieldsFirstRef, item_count};
ghost use Rattle.doc_http_conditions.specs.Lists.{cuts, elements, quoted_behind};

use std::marker::Model;

/// The elements of a list: its text cut at the commas that don't stand in quotes (RFC 9110, section 5.6.1.2).
#[derive(Drop)]
pub struct Elements<'a> {
    rest: Option<&'a [u8]>,
}

impl<'a> Model for Elements<'a> {
    ghost use Rattle.std.specs.Prelude.{ℕ, List as Seq, option_copied};
    ghost use Rattle.doc_http_conditions.specs.Lists.{elements_left};

    ghost Value = { Seq (Seq ℕ) };

    ghost view = { λ e. elements_left (option_copied e.rest) };
}

impl<'a> Elements<'a> {
    pub fn new(text: &'a [u8]) -> Self
        ensures { result ≡ elements false text.now }
    {
        Elements { rest: Some(text) }
    }
}

impl<'a> Iterator for Elements<'a> {
    type Item = &'a [u8];

    ghost next_gives = { YieldsFirstRef (λ s. s) };

    ghost remaining = { item_count (λ s. s) };

    fn next(&mut self) -> Option<&'a [u8]> {
        let text = self.rest?;
        match first_comma(text) {
            Some(comma) => {
                self.rest = Some(&text[comma + 1..]);
                Some(&text[..comma])
            }
            None => {
                self.rest = None;
                Some(text)
            }
        }
    }
}

/// The place of the first comma that doesn't stand in quotes.
fn first_comma(text: &[u8]) -> Option<usize>
    ensures found { IfSome result
        (λ comma. (comma < length text.now)
        × (elements false text.now
        ≡ take comma text.now ∷ elements false (drop (comma + 1) text.now))) }
    ensures none { IfNone result (elements false text.now ≡ text.now ∷ []) }
{
    let mut quoted = false;
    for (i, byte) in text.iter().enumerate() {
        if cuts(*byte, quoted) {
            return Some(i);
        }
        quoted = quoted_behind(*byte, quoted);
    }
    None
}

/// Whether the byte is a comma that doesn't stand in quotes.
fn cuts(byte: u8, quoted: bool) -> bool
    ensures { result ≡ cuts byte quoted }
{
    byte == b',' && !quoted
}

/// Whether what stands behind the byte stands in quotes.
fn quoted_behind(byte: u8, quoted: bool) -> bool
    ensures { result ≡ quoted_behind byte quoted }
{
    if byte == b'"' { !quoted } else { quoted }
}
