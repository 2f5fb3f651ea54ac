//! The digest that stands for a token.

ghost use Rattle.std.specs.Prelude.{◌≡◌, IfOk, IfSome, string_bytes};
ghost use Rattle.doc_server_token.specs.Tokens.{digest_text};
ghost use Rattle.doc_server_token.specs.Lines.{IsDigestOf, failed_reads_after};

use crate::fault::TokenFault;
use crate::line::read_line;
use doc_page_parts::failure::Memory;
use doc_page_parts::heap::{Heap, String};
use doc_page_parts::token::is_token;
use doc_server_streams::input::Input;
use sha2::{Digest, Sha256};

/// What a configuration has under `token_sha256` for the token that stands in the first line of an input.
pub fn read_digest<I: Input>(heap: Heap, input: &mut I) -> Result<String, TokenFault>
    ensures told { IfSome (I.unread input.old) (λ left. IsDigestOf left result) }
    ensures reads { I.failed input.new ≡ failed_reads_after (I.failed input.old) result }
{
    let line = read_line(heap, input)?;
    if !is_token(line.as_slice()) {
        return Err(TokenFault::NoToken);
    }
    Ok(digest_of(heap, line.as_slice())?)
}

/// What a configuration has under `token_sha256` for a token: the SHA-256 of its bytes (FIPS 180-4), in 64 small hexadecimal digits.
pub fn digest_of(heap: Heap, token: &[u8]) -> Result<String, Memory>
    ensures { IfOk result (λ text. string_bytes text ≡ digest_text token.now) }
{
    let digest = Sha256::digest(token);
    Ok(hex::encode(heap, digest.as_slice())?)
}
