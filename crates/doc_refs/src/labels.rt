//! Labels in the form in which they match.
ghost use Rattle.std.specs.Prelude.{◌≡◌, ◌++◌, ◌<◌, not, length, chars, string_bytes, IfOk, IsAscii};
ghost use Rattle.caseless.specs.Caseless.{default_case_fold};
ghost use Rattle.doc_rules.specs.Characters.{strip, strip_end, is_space_tab_or_ending};
ghost use Rattle.doc_rules.specs.Labels.{collapse, normal_label};

use caseless::Caseless;
use doc_lines::pushing::{push_char, push_text};
use doc_lines::scan::front::front;
use doc_lines::scan::run::many;
use doc_page_parts::failure::Memory;
use doc_page_parts::heap::{Heap, String};
use doc_page_parts::text::Text;
use doc_refs_parts::scan::label::is_space_tab_or_ending;

/// The label as it matches (CommonMark 0.31.2, section 6.3): case folded, without white space at its ends, each run of spaces, tabs
/// and line endings inside as one space. Backslash escapes and character references stay as they stand. It is given without its
/// brackets; `ẞ` and ` SS ` give `ss`.
#[tactic(auto, unfolding(doc_rules::specs::Labels::normal_label))]
pub fn normalize_label(heap: Heap, label: &str) -> Result<Text, Memory>
    ensures { IfOk result (λ name. chars name ≡ normal_label (chars label.now)) }
{
    let folded = folded(heap, label)?;
    Ok(Text::new(spaced(heap, &folded)?))
}

/// The text with its case folded.
fn folded(heap: Heap, text: &str) -> Result<String, Memory>
    ensures { IfOk result (λ out. chars (string_bytes out) ≡ default_case_fold (chars text.now)) }
{
    if text.is_ascii() {
        return lower(heap, text);
    }
    Ok(text.chars().default_case_fold().collect(heap)?)
}

/// The same of a text in ASCII.
fn lower(heap: Heap, text: &str) -> Result<String, Memory>
    requires { IsAscii text.now }
    ensures { IfOk result (λ out. chars (string_bytes out) ≡ default_case_fold (chars text.now)) }
{
    let mut out = String::from_str(heap, text)?;
    out.make_ascii_lowercase();
    Ok(out)
}

/// The words of a text with one space between two.
fn spaced(heap: Heap, text: &str) -> Result<String, Memory>
    ensures { IfOk result (λ out. chars (string_bytes out)
        ≡ collapse (strip is_space_tab_or_ending (chars text.now))) }
{
    let mut out = String::with_capacity(heap, text.len())?;
    let mut rest = many(text, is_space_tab_or_ending);
    'words: while !rest.is_empty() {
        rest = push_word(&mut out, rest)?;
    }
    Ok(out)
}

/// Adds the word at the front of a text, and a space where another word follows. Answers the text from that word on.
fn push_word<'a>(out: &mut String, text: &'a str) -> Result<&'a str, Memory>
    ensures value { IfOk result (λ rest. chars (string_bytes out.new)
        ++ collapse (strip_end is_space_tab_or_ending (chars rest.now))
        ≡ chars (string_bytes out.old) ++ collapse
        (strip_end is_space_tab_or_ending (chars text.now))) }
    ensures shorter { IfOk result (λ rest. 0 < length (chars text.now)
        → length (chars rest.now) < length (chars text.now)) }
{
    let gap = many(text, is_word_char);
    let rest = many(gap, is_space_tab_or_ending);
    push_text(out, front(text, gap))?;
    if rest.is_empty() {
        return Ok(rest);
    }
    push_char(out, ' ')?;
    Ok(rest)
}

fn is_word_char(c: char) -> bool
    ensures { result ≡ not (is_space_tab_or_ending c) }
{
    !is_space_tab_or_ending(c)
}
