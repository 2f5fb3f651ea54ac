//! The row of a reader of a token that is made for it.

ghost use Rattle.doc_server_token.specs.Tokens.{IsNewRow};

use crate::fault::TokenFault;
use crate::new_reader::NewReader;
use crate::row::push_row;
use crate::token::token_of;
use doc_page_parts::heap::{Heap, String};
use std::random::RandomSource;

/// The row of a reader, and above it, as a comment, the reader's token: that of 32 bytes that the source gives.
pub fn new_row<R: RandomSource>(
    source: &R,
    heap: Heap,
    reader: &NewReader,
) -> Result<String, TokenFault>
    ensures { IsNewRow reader.now result }
{
    let mut bytes = [0u8; 32];
    if source.fill_bytes(&mut bytes).is_err() {
        return Err(TokenFault::NoRandomness);
    }
    let token = token_of(heap, &bytes)?;
    let mut row = String::new(heap);
    push_row(heap, &mut row, reader, token.as_str())?;
    Ok(row)
}
