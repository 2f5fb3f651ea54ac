//! Reading an input to its end.

ghost use Rattle.std.specs.Prelude.{◌≡◌, ◌<◌, ◌≤◌, ◌++◌, length, IfOk, IfErr, IfSome, OnOk, string_bytes, vec_len};
ghost use Rattle.std.specs.Io.KnownBytes.{IsAtEnd};
ghost use Rattle.doc_server_streams.specs.Faults.{IsNoText, IsTooLong, IsUnread, ReadsFailed};
ghost use Rattle.doc_server_streams.specs.InputSteps.{IsNamed, IsNoTextOf, IsUnadded};

use crate::fault::Fault;
use crate::input::Input;
use doc_page_parts::heap::{Heap, String, Vec};

/// How often an input is read at most, so that reading it ends.
const READS: u64 = 0x1_0000_0000;

/// How many bytes are read at once.
const PIECE: usize = 16_384;

/// The whole input, or `Refused` once it has given more bytes than the limit. `name` is what a fault
/// calls it. The input is given up after 2^32 reads.
pub fn read_whole<I: Input>(
    heap: Heap,
    name: &str,
    input: &mut I,
    limit: usize,
) -> Result<Vec<u8>, Fault>
    ensures bytes { IfOk result
        (λ bytes. IfSome (I.unread input.old) (λ left. bytes.items ≡ left)) }
    ensures within { IfOk result (λ bytes. vec_len bytes ≤ limit) }
    ensures end { OnOk result (IsAtEnd (I.unread input.new)) }
    ensures fault { IfErr result (IsUnread name.now limit (I.unread input.old)) }
    ensures reads { ReadsFailed (IsTooLong limit (I.unread input.old))
        (I.failed input.old) (I.failed input.new) result }
{
    let mut piece = Vec::from_elem(heap, 0u8, PIECE)?;
    read_pieces(heap, name, input, piece.as_mut_slice(), limit)
}

/// The whole input as a text. A fault calls it by the name: `CannotRead` also where it isn't UTF-8.
pub fn read_text<I: Input>(heap: Heap, name: &str, input: &mut I) -> Result<String, Fault>
    ensures text { IfOk result
        (λ text. IfSome (I.unread input.old) (λ left. string_bytes text ≡ left)) }
    ensures end { OnOk result (IsAtEnd (I.unread input.new)) }
    ensures fault { IfErr result (IsNamed name.now) }
    ensures reads { ReadsFailed (IsNoText (I.unread input.old))
        (I.failed input.old) (I.failed input.new) result }
{
    match read_whole(heap, name, input, usize::MAX) {
        Ok(bytes) => text_of(heap, name, bytes),
        Err(Fault::CannotRead(name)) => Err(Fault::CannotRead(name)),
        Err(_) => Err(Fault::Memory),
    }
}

/// The bytes as a text.
fn text_of(heap: Heap, name: &str, bytes: Vec<u8>) -> Result<String, Fault>
    ensures text { IfOk result (λ text. string_bytes text ≡ bytes.items) }
    ensures fault { IfErr result (IsNoTextOf name.now bytes.items) }
{
    match String::from_utf8(bytes) {
        Ok(text) => Ok(text),
        Err(_) => Err(cannot_read(heap, name)),
    }
}

/// The whole input, by reads into this piece.
fn read_pieces<I: Input>(
    heap: Heap,
    name: &str,
    input: &mut I,
    piece: &mut [u8],
    limit: usize,
) -> Result<Vec<u8>, Fault>
    requires { 0 < length piece.old }
    ensures bytes { IfOk result
        (λ bytes. IfSome (I.unread input.old) (λ left. bytes.items ≡ left)) }
    ensures within { IfOk result (λ bytes. vec_len bytes ≤ limit) }
    ensures end { OnOk result (IsAtEnd (I.unread input.new)) }
    ensures fault { IfErr result (IsUnread name.now limit (I.unread input.old)) }
    ensures reads { ReadsFailed (IsTooLong limit (I.unread input.old))
        (I.failed input.old) (I.failed input.new) result }
{
    let mut bytes = Vec::new(heap);
    'reads: for _ in 0..READS {
        match input.read(piece) {
            Ok(0) => return Ok(bytes),
            Ok(count) => add_piece(&mut bytes, &piece[..count], limit)?,
            Err(_) => return Err(cannot_read(heap, name)),
        }
    }
    Err(cannot_read(heap, name))
}

/// Adds a piece of the input, where the limit allows it.
fn add_piece(bytes: &mut Vec<u8>, piece: &[u8], limit: usize) -> Result<(), Fault>
    requires { vec_len bytes.old ≤ limit }
    ensures added { OnOk result (bytes.new.items ≡ bytes.old.items ++ piece.now) }
    ensures within { OnOk result (vec_len bytes.new ≤ limit) }
    ensures fault { IfErr result (IsUnadded limit bytes.old.items piece.now) }
{
    if piece.len() > limit - bytes.len() {
        return Err(Fault::Refused);
    }
    bytes.extend_from_slice(piece)?;
    Ok(())
}

/// The fault that an input of this name can't be read.
pub fn cannot_read(heap: Heap, name: &str) -> Fault
    ensures { IsNamed name.now result }
{
    match String::from_str(heap, name) {
        Ok(name) => Fault::CannotRead(name),
        Err(_) => Fault::Memory,
    }
}
