//! Tokens made of random bytes.

ghost use Rattle.std.specs.Prelude.{◌≡◌, IfOk, string_bytes};
ghost use Rattle.doc_server_token.specs.Tokens.{token_of};

use base64::engine::general_purpose::URL_SAFE_NO_PAD;
use doc_page_parts::failure::Memory;
use doc_page_parts::heap::{Heap, String};

/// The token of 32 random bytes: their base64 for URLs, without padding (RFC 4648, section 5), 43 characters.
pub fn token_of(heap: Heap, bytes: &[u8; 32]) -> Result<String, Memory>
    ensures { IfOk result (λ token. string_bytes token ≡ token_of bytes.now) }
{
    Ok(URL_SAFE_NO_PAD.encode(heap, bytes.as_slice())?)
}
