//! Parts of a text that may be shorter.

ghost use Rattle.std.specs.Prelude.{◌≡◌, take, drop};

/// So many bytes at the front, or all where there are fewer.
pub fn front(text: &[u8], count: usize) -> &[u8]
    ensures { result.now ≡ take count text.now }
{
    &text[..count.min(text.len())]
}

/// What stands behind so many bytes.
pub fn behind(text: &[u8], count: usize) -> &[u8]
    ensures { result.now ≡ drop count text.now }
{
    &text[count.min(text.len())..]
}
