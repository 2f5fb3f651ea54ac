//! Classes of characters.

ghost use Rattle.std.specs.Prelude.{◌≡◌};
ghost use Rattle.doc_rules.specs.Characters.{is_white, is_punctuation};

use unicode::properties::{GeneralCategory, GeneralCategoryGroup};

/// Whether the character is Unicode whitespace: the category Zs, tab, LF, FF or CR (CommonMark 0.31.2, section 2.1).
#[tactic(auto, unfolding(doc_rules::specs::Characters::is_white, doc_rules::specs::Characters::is_space_separator))]
pub fn is_white(c: char) -> bool
    ensures { result ≡ is_white c }
{
    matches!(c, '\t' | '\n' | '\u{c}' | '\r')
        || GeneralCategory::for_char(c) == GeneralCategory::SpaceSeparator
}

/// Whether the character is Unicode punctuation: the categories P and S (CommonMark 0.31.2, section 2.1).
#[tactic(auto, unfolding(doc_rules::specs::Characters::is_punctuation))]
pub fn is_punctuation(c: char) -> bool
    ensures { result ≡ is_punctuation c }
{
    let category = GeneralCategory::for_char(c);
    GeneralCategoryGroup::Punctuation.contains(category)
        || GeneralCategoryGroup::Symbol.contains(category)
}
