//! The lines of a text.

ghost use Rattle.std.specs.Prelude.{◌≡◌, ◌∷◌, ◌<◌, ◌≤◌, length, take, drop};
ghost use Rattle.std.specs.Iterator.{YieldsFirstRef, item_count};
ghost use Rattle.std.specs.Str.{IsCharBoundary, IsUtf8};
ghost use Rattle.doc_page_parts.specs.Lines.{lines, ends_line};

use std::marker::Model;

/// The lines of a text, each up to and with its ending: LF, CR LF, or a CR that no LF follows. The
/// last line may have no ending, and an empty text has no line (CommonMark 0.31.2, section 2.1).
#[derive(Drop)]
pub struct Lines<'a> {
    rest: &'a str,
}

impl<'a> Model for Lines<'a> {
    ghost use Rattle.std.specs.Prelude.{ℕ, List as Seq};
    ghost use Rattle.doc_page_parts.specs.Lines.{lines};

    ghost Value = { Seq (Seq ℕ) };

    ghost view = { λ l. lines l.rest.now };
}

impl<'a> Lines<'a> {
    pub fn new(text: &'a str) -> Self
        ensures { result ≡ lines text.now }
    {
        Lines { rest: text }
    }
}

impl<'a> Iterator for Lines<'a> {
    type Item = &'a str;

    ghost next_gives = { YieldsFirstRef (λ s. s) };

    ghost remaining = { item_count (λ s. s) };

    #[tactic(auto, using(crate::proofs::LineSteps::lines_empty))]
    fn next(&mut self) -> Option<&'a str> {
        if self.rest.is_empty() {
            return None;
        }
        let (line, rest) = self.rest.split_at(first_line_len(self.rest.as_bytes()));
        self.rest = rest;
        Some(line)
    }
}

/// How many bytes the first line has.
fn first_line_len(bytes: &[u8]) -> usize
    requires { 0 < length bytes.now }
    ensures first { lines bytes.now ≡ take result bytes.now ∷ lines (drop result bytes.now) }
    ensures bounds { result ≤ length bytes.now }
    ensures boundary { IsUtf8 bytes.now → IsCharBoundary bytes.now result }
{
    for (i, byte) in bytes.iter().enumerate() {
        if ends_line(*byte, &bytes[i + 1..]) {
            return i + 1;
        }
    }
    bytes.len()
}

fn ends_line(byte: u8, rest: &[u8]) -> bool
    ensures { result ≡ ends_line byte rest.now }
{
    byte == b'\n' || (byte == b'\r' && !matches!(rest, [b'\n', ..]))
}
