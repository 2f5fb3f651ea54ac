//! The command `token`: a row of a configuration for a new reader, and the digest that stands there in place of a token.

use crate::status::status_of;
use doc_server_arguments::command::Token;
use doc_server_streams::read_from::ReadFrom;
use doc_server_token::digest::read_digest;
use doc_server_token::fault::TokenFault;
use doc_server_token::new_reader::NewReader;
use doc_server_token::new_row::new_row;
use std::random::RandomSource;

/// Runs `token` with a name, and answers the status to end with.
pub fn run_token<P: AllocGlobal + Eprint + Print + RandomSource>(
    rt: &P,
    command: &Token<'_>,
) -> u8 {
    status_of(rt, tell_row(rt, command))
}

/// Prints the row of a new reader, and above it the reader's token.
fn tell_row<P: AllocGlobal + Print + RandomSource>(
    rt: &P,
    command: &Token<'_>,
) -> Result<u8, TokenFault> {
    let heap = rt.alloc();
    let groups = command.groups.unwrap_or("");
    let reader = NewReader::new(heap, command.name, command.is_owner, groups)?;
    let row = new_row(rt, heap, &reader)?;
    tell(rt, row.as_str())
}

/// Runs `token --hash`, and answers the status to end with.
pub fn run_token_hash<P: AllocGlobal + Eprint + Input + Print>(rt: &P) -> u8 {
    status_of(rt, tell_digest(rt))
}

/// Prints the digest of the token in the first line of standard input.
fn tell_digest<P: AllocGlobal + Input + Print>(rt: &P) -> Result<u8, TokenFault> {
    let digest = read_digest(rt.alloc(), &mut ReadFrom::new(rt.reader()))?;
    tell(rt, digest.as_str())?;
    tell(rt, "\n")
}

/// Prints a text.
fn tell<P: Print>(rt: &P, text: &str) -> Result<u8, TokenFault> {
    match print!(rt; "{text}") {
        Ok(()) => Ok(0),
        Err(_) => Err(TokenFault::CannotWrite),
    }
}
