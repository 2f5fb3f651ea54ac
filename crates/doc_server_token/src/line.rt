//! The first line of an input.

ghost use Rattle.std.specs.Prelude.{◌≡◌, IfSome};
ghost use Rattle.doc_server_token.specs.Lines.{failed_reads_after};
ghost use Rattle.doc_server_token.specs.LineSteps.{IsLineOf};

use crate::fault::TokenFault;
use doc_page_parts::heap::{Heap, Vec};
use doc_server_streams::input::Input;

/// How many bytes are read at most. Whatever is longer is no token of any request, whose head has at most as many.
const LINE_LIMIT: usize = 16_384;

/// The first line, without its line feed. Nothing behind that is read, so that whoever types it needn't end the input.
pub(crate) fn read_line<I: Input>(heap: Heap, input: &mut I) -> Result<Vec<u8>, TokenFault>
    ensures line { IfSome (I.unread input.old) (λ left. IsLineOf left result) }
    ensures reads { I.failed input.new ≡ failed_reads_after (I.failed input.old) result }
{
    let mut line = Vec::new(heap);
    let mut piece = [0u8];
    'bytes: for _ in 0..LINE_LIMIT {
        match input.read(&mut piece) {
            Ok(0) => return Ok(line),
            Ok(_) if piece[0] == b'\n' => return Ok(line),
            Ok(_) => line.extend_from_slice(&piece)?,
            Err(_) => return Err(TokenFault::CannotRead),
        }
    }
    Err(TokenFault::NoToken)
}
