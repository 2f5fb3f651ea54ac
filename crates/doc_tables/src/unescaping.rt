//! Cells without the backslashes before their `|`.
ghost use Rattle.std.specs.Prelude.{◌≡◌, ◌≤◌, ◌∷◌, chars, length, IfOk};
ghost use Rattle.doc_lines.specs.RestSteps.{rest_of};
ghost use Rattle.doc_tables.specs.CellSteps.{behind_pair};
ghost use Rattle.doc_rules.specs.Tables.{unescape_pipes};

use doc_lines::pushing::push_char;
use doc_lines::scan::character::{is, next_char};
use doc_page_parts::failure::Memory;
use doc_page_parts::heap::{Heap, String};
use doc_page_parts::text::Text;

/// The text of a cell by its source: each backslash goes that stands directly before a `|`. Only a cell that is escaped needs it.
pub fn unescaped(heap: Heap, source: &str) -> Result<Text, Memory>
    ensures { IfOk result (λ text. chars text ≡ unescape_pipes (chars source.now)) }
{
    let mut out = String::with_capacity(heap, source.len())?;
    let mut rest = source;
    'characters: while let Some((c, behind)) = next_char(rest) {
        let (read, next) = first_read(c, behind);
        push_char(&mut out, read)?;
        rest = next;
    }
    Ok(Text::new(out))
}

/// The first character that is read of a character and the text behind it, and what is left of that text.
fn first_read(c: char, behind: &str) -> (char, &str)
    ensures value { unescape_pipes (c ∷ chars behind.now)
        ≡ result.0 ∷ unescape_pipes (chars result.1.now) }
    ensures size { length (chars result.1.now) ≤ length (chars behind.now) }
{
    match behind_pair(c, behind) {
        Some(next) => ('|', next),
        None => (c, behind),
    }
}

/// The text behind a backslash and a `|`.
#[tactic(auto, unfolding(crate::specs::CellSteps::behind_pair))]
fn behind_pair(c: char, behind: &str) -> Option<&str>
    ensures { rest_of result ≡ behind_pair c (chars behind.now) }
{
    if c == '\\' { is(behind, '|') } else { None }
}
