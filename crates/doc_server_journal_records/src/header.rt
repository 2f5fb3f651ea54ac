//! The header of a journal.

ghost use Rattle.std.specs.Prelude.{◌≡◌, ◌++◌, List as Seq, ℕ, length, true, false, IfSome, IsNone};
ghost use Rattle.hex.specs.Hex.{encode_lower};
ghost use Rattle.doc_server_journal_records.specs.Records.{IsIdentity, header, seed};
ghost use Rattle.doc_server_journal_records.specs.Readings.{IsNoJournal};

use crate::hexadecimal::{are_digits, write_digits};
use sha2::{Digest, Sha256};
use std::marker::Model;

/// What stands in front of the identity.
const NAME: &[u8] = b"docs_server journal 2 ";

/// How many bytes a header has: what it begins with, an identity and a line feed.
pub const HEADER_LEN: usize = 55;

/// What tells a journal from each other: 32 hexadecimal digits. Contracts see them.
#[derive(Clone, Copy, Drop)]
pub struct Identity {
    digits: [u8; 32],
}

impl Model for Identity {
    ghost use Rattle.std.specs.Prelude.{ℕ, List as Seq};
    ghost use Rattle.doc_server_journal_records.specs.Records.{IsIdentity};

    ghost Value = { Seq ℕ };

    ghost view = { λ identity. identity.digits };

    ghost invariant = { λ identity. IsIdentity identity.digits };

    ghost inverse = { λ digits. record { digits = digits } };
}

impl Identity {
    /// The identity of these bytes, which nothing else is to have been given.
    pub fn of(random: &[u8; 16]) -> Identity
        ensures { result ≡ encode_lower random.now }
    {
        Identity {
            digits: identity_digits(random.as_slice()),
        }
    }

    /// The header of its journal.
    #[tactic(auto, unfolding(crate::specs::Records::header))]
    pub fn header(&self) -> [u8; 55]
        ensures bytes { result ≡ header self.now }
        ensures identity { IsIdentity self.now }
    {
        let mut bytes = [b'\n'; HEADER_LEN];
        bytes[..22].copy_from_slice(NAME);
        bytes[22..54].copy_from_slice(self.digits.as_slice());
        bytes
    }
}

/// The digits of an identity.
fn identity_digits(random: &[u8]) -> [u8; 32]
    requires { length random.now ≡ 16 }
    ensures digits { result ≡ encode_lower random.now }
    ensures identity { IsIdentity result }
{
    let mut digits = [0; 32];
    write_digits(random, &mut digits);
    digits
}

/// What stands in for the digest of a record before the first, in the journal of this header.
#[tactic(auto, unfolding(crate::specs::Records::seed))]
pub fn seed_of(header_bytes: &[u8]) -> [u8; 32]
    ensures { (identity : Seq ℕ) → header_bytes.now ≡ header identity → result ≡ seed identity }
{
    Sha256::digest(header_bytes)
}

/// The header that bytes begin with, and what stands behind it.
#[tactic(auto, unfolding(crate::specs::Records::header))]
pub fn behind_header(bytes: &[u8]) -> Option<(&[u8], &[u8])>
    ensures found { IfSome result (λ parts. (identity : Seq ℕ) × IsIdentity identity
        × (parts.0.now ≡ header identity) × (bytes.now ≡ parts.0.now ++ parts.1.now)) }
    ensures none { IsNone result → IsNoJournal bytes.now }
{
    if bytes.len() < HEADER_LEN {
        return None;
    }
    let (front, rest) = bytes.split_at(HEADER_LEN);
    if is_header(front) {
        return Some((front, rest));
    }
    None
}

/// Whether so many bytes are a header.
fn is_header(bytes: &[u8]) -> bool
    requires { length bytes.now ≡ 55 }
    ensures yes { result ≡ true → (identity : Seq ℕ) × IsIdentity identity
        × (bytes.now ≡ header identity) }
    ensures no { result ≡ false → (identity : Seq ℕ) → IsIdentity identity
        → bytes.now ≡ header identity → ⊥ }
{
    let (name, behind) = bytes.split_at(NAME.len());
    let (identity, end) = behind.split_at(32);
    let named = name == NAME;
    if !named {
        return false;
    }
    if !are_digits(identity) {
        return false;
    }
    end == [b'\n'].as_slice()
}
