//! Digests of tokens.

ghost use Rattle.std.specs.Prelude.{◌≡◌};
ghost use Rattle.sha2.specs.Sha256.{sha256};
ghost use Rattle.toml.specs.View.{view};
ghost use Rattle.doc_server_log_names.specs.Names.{digest_in, digest_written};

use hex::FromHex;
use sha2::{Digest, Sha256};
use toml::Value;

/// The digest of a token.
pub(crate) fn digest_of(token: &str) -> [u8; 32]
    ensures { result ≡ sha256 token.now }
{
    Sha256::digest(token.as_bytes())
}

/// The digest by which a row knows its reader.
pub(crate) fn digest_in(row: &Value) -> Option<[u8; 32]>
    ensures { result ≡ digest_in (view row.now) }
{
    match row.get("token") {
        Some(token) => Some(digest_of(token.as_str()?)),
        None => digest_written(row.get("token_sha256")?.as_str()?),
    }
}

/// The 32 bytes of 64 hexadecimal digits.
fn digest_written(text: &str) -> Option<[u8; 32]>
    ensures { result ≡ digest_written text.now }
{
    <[u8; 32] as FromHex>::from_hex(text).ok()
}
