//! Names of headings.
ghost use Rattle.std.specs.Prelude.{◌≡◌, ◌==◌, ◌||◌, ◌++◌, chars, string_bytes, flat_map, IfOk, OnOk};
ghost use Rattle.caseless.specs.Caseless.{default_case_fold};
ghost use Rattle.unicode.specs.GeneralCategory.{general_category};
ghost use Rattle.doc_rules.specs.Anchors.{anchor_char, anchor_name, is_word_category, or_section};

use caseless::Caseless;
use doc_lines::characters::is_white;
use doc_lines::pushing::push_char;
use doc_page_parts::failure::Memory;
use doc_page_parts::heap::{Heap, String};
use unicode::properties::{GeneralCategory, GeneralCategoryGroup};

/// The name of a heading with this plain text: case folded, with its letters, marks, numbers, `-` and `_`, and each Unicode whitespace
/// character as `-`. `Getting Started!` is named `getting-started`, and `?!` is named `section`.
#[tactic(auto, unfolding(doc_rules::specs::Anchors::anchor_name))]
pub fn anchor_name(heap: Heap, heading: &str) -> Result<String, Memory>
    ensures { IfOk result (λ name. chars (string_bytes name) ≡ anchor_name (chars heading.now)) }
{
    let folded = folded(heap, heading)?;
    let kept = kept(heap, &folded)?;
    or_section(heap, kept)
}

/// The text with its case folded.
fn folded(heap: Heap, text: &str) -> Result<String, Memory>
    ensures { IfOk result (λ out. chars (string_bytes out) ≡ default_case_fold (chars text.now)) }
{
    Ok(text.chars().default_case_fold().collect(heap)?)
}

/// What of a text stands in a name.
fn kept(heap: Heap, text: &str) -> Result<String, Memory>
    ensures { IfOk result (λ out. chars (string_bytes out)
        ≡ flat_map anchor_char (chars text.now)) }
{
    let mut out = String::with_capacity(heap, text.len())?;
    'characters: for c in text.chars() {
        push_kept(&mut out, c)?;
    }
    Ok(out)
}

/// Adds what of a character stands in a name.
#[tactic(auto, unfolding(doc_rules::specs::Anchors::anchor_char))]
fn push_kept(out: &mut String, c: char) -> Result<(), Memory>
    ensures { OnOk result (chars (string_bytes out.new) ≡ chars (string_bytes out.old)
        ++ anchor_char c) }
{
    if is_name_char(c) {
        return push_char(out, c);
    }
    if is_white(c) {
        return push_char(out, '-');
    }
    Ok(())
}

/// Whether the character stays as it is.
fn is_name_char(c: char) -> bool
    ensures { result ≡ (is_word_category (general_category c) || ((c == 45) || (c == 95))) }
{
    is_word_category(GeneralCategory::for_char(c)) || matches!(c, '-' | '_')
}

/// Whether the category is one of letters, marks or numbers.
fn is_word_category(category: GeneralCategory) -> bool
    ensures { result ≡ is_word_category category }
{
    GeneralCategoryGroup::Letter.contains(category)
        || GeneralCategoryGroup::Mark.contains(category)
        || GeneralCategoryGroup::Number.contains(category)
}

/// The name where it isn't empty, else `section`.
#[tactic(auto, unfolding(doc_rules::specs::Anchors::or_section))]
fn or_section(heap: Heap, name: String) -> Result<String, Memory>
    ensures { IfOk result (λ out. chars (string_bytes out)
        ≡ or_section (chars (string_bytes name))) }
{
    if name.as_str().is_empty() {
        return Ok(String::from_str(heap, "section")?);
    }
    Ok(name)
}
