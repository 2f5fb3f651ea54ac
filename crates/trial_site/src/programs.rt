//! The commands `demo`, `render` and `examples`, which reads a file of the name `spec.txt`, and streams. A command is given
//! `WAY ROOM TEXT`: the input holds the text, and the output has room for so many bytes, behind which a write fails. The way is `plain`,
//! or what happens besides: `stray`, where a byte that isn't UTF-8 stands behind the text; `unread`, where reading fails behind the
//! text; `unflushed`, where a flush fails; `interrupted`, where the first read, write and flush are.
//!
//! The answer is the status that the command ends with or what stops it, whether it left bytes of the input, and what it wrote.
//!
//! `echo` is given `PIECE READ WRITE TEXT`: a stream over memory (`echo`). `rounds SCRIPT` and `ended SCRIPT` serve rounds over links
//! (`scripts`), and `faults PLACE REPLY | SCRIPT` plays a script with each call of a stream failing in turn (`in_turn`).

use crate::{echo, in_turn, scripts, tried};
use doc_page_parts::failure::Memory;
use doc_page_parts::heap::{Heap, String};
use trial::run::Calls;

/// The calls that stand in front of the first world.
#[derive(Clone, Copy)]
pub struct Programs;

impl Calls for Programs {
    fn called(&mut self, heap: Heap, name: &str, given: &str) -> Result<String, Memory> {
        match name {
            "rounds" => scripts::answer(heap, given),
            "ended" => scripts::ended(heap, given),
            "faults" => in_turn::faults(heap, given),
            "echo" => echo::answer(heap, given),
            _ => tried::called(heap, name, given),
        }
    }
}
