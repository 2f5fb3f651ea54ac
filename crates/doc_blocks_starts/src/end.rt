//! The end of a line.
ghost use Rattle.std.specs.Prelude.{◌≡◌, chars};
ghost use Rattle.doc_rules.specs.Characters.{is_blank_text};
ghost use Rattle.doc_rules.specs.LeafStarts.{is_end};

use doc_lines::scan::character::next_char;
use doc_lines::scan::white_space::is_space_or_tab;

/// Whether the line ends here, or a space or a tab stands here.
pub fn is_end(text: &str) -> bool
    ensures { result ≡ is_end (chars text.now) }
{
    match next_char(text) {
        Some((c, _)) => is_space_or_tab(c),
        None => true,
    }
}

/// Whether nothing but spaces and tabs stands here (CommonMark 0.31.2, section 2.1).
pub fn is_blank(text: &str) -> bool
    ensures { result ≡ is_blank_text (chars text.now) }
{
    text.chars().all(is_space_or_tab)
}
