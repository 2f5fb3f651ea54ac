//! Texts without the blanks around them.

ghost use Rattle.std.specs.Prelude.{◌≡◌, ◌≤◌, length};
ghost use Rattle.std.specs.List.{prefix_len, suffix_len};
ghost use Rattle.doc_page_parts.specs.Lines.{is_space_or_tab as blank_test, stripped as stripped_of};

/// The text without spaces and tabs at both ends.
pub fn stripped(text: &[u8]) -> &[u8]
    ensures { result.now ≡ stripped_of text.now }
{
    let rest = &text[blanks_at_start(text)..];
    &rest[..rest.len() - blanks_at_end(rest)]
}

fn blanks_at_start(text: &[u8]) -> usize
    ensures count { result ≡ prefix_len blank_test text.now }
    ensures within { result ≤ length text.now }
{
    text.iter()
        .take_while(|byte| is_space_or_tab(**byte))
        .count()
}

fn blanks_at_end(text: &[u8]) -> usize
    ensures count { result ≡ suffix_len blank_test text.now }
    ensures within { result ≤ length text.now }
{
    text.iter()
        .rev()
        .take_while(|byte| is_space_or_tab(**byte))
        .count()
}

fn is_space_or_tab(byte: u8) -> bool
    ensures { result ≡ blank_test byte }
{
    matches!(byte, b' ' | b'\t')
}
