//! Lines without their endings, and texts without blanks at their ends.

ghost use Rattle.std.specs.Prelude.{◌≡◌};
ghost use Rattle.std.specs.List.{prefix_len, suffix_len};
ghost use Rattle.doc_page_parts.specs.Lines.{is_blank, is_ending, is_space_or_tab, stripped, without_ending};

/// The line without its ending (CommonMark 0.31.2, section 2.1): without the LF and CR bytes at its
/// end.
pub fn without_ending(line: &str) -> &str
    ensures { result.now ≡ without_ending line.now }
{
    &line[..line.len() - ending_len(line)]
}

/// Whether the text has nothing but spaces and tabs (CommonMark 0.31.2, section 2.1, "blank line").
/// The line's ending must be off.
pub fn is_blank(text: &str) -> bool
    ensures { result ≡ is_blank text.now }
{
    text.as_bytes().iter().all(|byte| is_space_or_tab(*byte))
}

/// The text without spaces and tabs at both ends.
pub fn stripped(text: &str) -> &str
    ensures { result.now ≡ stripped text.now }
{
    let rest = &text[blanks_at_start(text)..];
    &rest[..rest.len() - blanks_at_end(rest)]
}

/// How many bytes the line ending has.
fn ending_len(line: &str) -> usize
    ensures { result ≡ suffix_len is_ending line.now }
{
    line.as_bytes()
        .iter()
        .rev()
        .take_while(|byte| is_ending(**byte))
        .count()
}

fn blanks_at_start(text: &str) -> usize
    ensures { result ≡ prefix_len is_space_or_tab text.now }
{
    text.as_bytes()
        .iter()
        .take_while(|byte| is_space_or_tab(**byte))
        .count()
}

fn blanks_at_end(text: &str) -> usize
    ensures { result ≡ suffix_len is_space_or_tab text.now }
{
    text.as_bytes()
        .iter()
        .rev()
        .take_while(|byte| is_space_or_tab(**byte))
        .count()
}

fn is_ending(byte: u8) -> bool
    ensures { result ≡ is_ending byte }
{
    matches!(byte, b'\n' | b'\r')
}

fn is_space_or_tab(byte: u8) -> bool
    ensures { result ≡ is_space_or_tab byte }
{
    matches!(byte, b' ' | b'\t')
}
