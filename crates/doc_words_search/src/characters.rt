//! The characters of words.

ghost use Rattle.std.specs.Prelude.{◌≡◌, ◌∷◌, ◌++◌, [], chars, string_bytes, IfOk, MatchOption, OnOk};
ghost use Rattle.doc_words_search.specs.Words.{folded, is_word_char};

use caseless::Caseless;
use doc_page_parts::failure::Memory;
use doc_page_parts::heap::{Heap, String};
use unicode::properties::{GeneralCategory, GeneralCategoryGroup};

/// Whether the character is a letter, a mark or a number.
pub fn is_word_char(c: char) -> bool
    ensures { result ≡ is_word_char c }
{
    if c.is_ascii() {
        return c.is_ascii_alphanumeric();
    }
    let category = GeneralCategory::for_char(c);
    GeneralCategoryGroup::Letter.contains(category)
        || GeneralCategoryGroup::Mark.contains(category)
        || GeneralCategoryGroup::Number.contains(category)
}

/// The run with its case folded.
pub fn folded(heap: Heap, run: &str) -> Result<String, Memory>
    ensures { IfOk result (λ out. string_bytes out ≡ folded (chars run.now)) }
{
    Ok(run.chars().default_case_fold().collect(heap)?)
}

/// Adds a character.
pub fn push_char(out: &mut String, c: char) -> Result<(), Memory>
    ensures { OnOk result (chars (string_bytes out.new) ≡ chars (string_bytes out.old) ++ c ∷ []) }
{
    Ok(out.push(c)?)
}

/// The first character, and the text behind it.
#[tactic(auto, using(std::proofs::lemmas::Str::chars_past_char))]
pub(crate) fn next_char(text: &str) -> Option<(char, &str)>
    ensures { MatchOption result (chars text.now ≡ [])
        (λ next. chars text.now ≡ next.0 ∷ chars next.1.now) }
{
    let mut rest = text.chars();
    let c = rest.next()?;
    Some((c, rest.as_str()))
}
