//! Spaces and tabs.

ghost use Rattle.std.specs.Prelude.{◌≡◌};
ghost use Rattle.doc_page_parts.specs.Lines.{is_space_or_tab};

/// Whether the byte is a space or a tab.
pub fn is_space_or_tab(byte: u8) -> bool
    ensures { result ≡ is_space_or_tab byte }
{
    byte == b' ' || byte == b'\t'
}
