//! Bearer tokens.

ghost use Rattle.std.specs.Prelude.{◌≡◌, ◌≤◌, ◌==◌, length};
ghost use Rattle.std.specs.List.{list_all, prefix_len};
ghost use Rattle.doc_page_parts.specs.Tokens.{is_token as token_test, is_token_byte as token_byte_test};

/// Whether the bytes are a bearer token: one or more ASCII letters, digits and `-._~+/`, then any
/// number of `=` (RFC 6750, section 2.1).
#[tactic(auto, unfolding(crate::specs::Tokens::is_token))]
pub fn is_token(bytes: &[u8]) -> bool
    ensures { result ≡ token_test bytes.now }
{
    let start = token_bytes(bytes);
    start > 0 && is_padding(&bytes[start..])
}

/// How many bytes stand before the padding.
fn token_bytes(bytes: &[u8]) -> usize
    ensures count { result ≡ prefix_len token_byte_test bytes.now }
    ensures within { result ≤ length bytes.now }
{
    bytes
        .iter()
        .take_while(|byte| is_token_byte(**byte))
        .count()
}

fn is_token_byte(byte: u8) -> bool
    ensures { result ≡ token_byte_test byte }
{
    byte.is_ascii_alphanumeric() || b"-._~+/".contains(&byte)
}

fn is_padding(bytes: &[u8]) -> bool
    ensures { result ≡ list_all (λ b. b == 61) bytes.now }
{
    bytes.iter().all(|byte| *byte == b'=')
}
