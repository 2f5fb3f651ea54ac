//! The end of a paragraph.
ghost use Rattle.std.specs.Prelude.{◌≡◌, chars};
ghost use Rattle.doc_rules.specs.Characters.{is_space_or_tab, strip_end};

use doc_blocks_starts::strip;
use doc_lines::scan::white_space::is_space_or_tab;

/// The text without spaces and tabs at its end.
pub fn strip_end(text: &str) -> &str
    ensures { chars result.now ≡ strip_end is_space_or_tab (chars text.now) }
{
    strip::strip_end(text, is_space_or_tab)
}
