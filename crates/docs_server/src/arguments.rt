//! The words that the program is given.

ghost use Rattle.std.specs.Prelude.{◌≡◌, ◌≢◌};

use doc_page_parts::failure::Memory;
use doc_page_parts::heap::{Heap, String, Vec};
use doc_server_streams::fault::Fault;
use std::env;
use std::io::ErrorKind;
use std::rt::Env;

/// The arguments behind the name of the program.
pub fn words_of<R: AllocGlobal + Env>(rt: &R, heap: Heap) -> Result<Vec<String>, Fault> {
    let mut args = match env::args(rt) {
        Ok(args) => args,
        Err(e) => return Err(argument_fault(e.kind())),
    };
    let _program = args.next();
    let mut words = Vec::new(heap);
    for arg in args {
        let word = String::from_str(heap, &arg)?;
        words.push(word).map_err(Memory::from)?;
    }
    Ok(words)
}

/// What stops the program where its arguments can't be read.
fn argument_fault(kind: ErrorKind) -> Fault
    ensures memory { kind ≡ ErrorKind.OutOfMemory → result ≡ Fault.Memory }
    ensures usage { kind ≢ ErrorKind.OutOfMemory → result ≡ Fault.Usage }
{
    match kind {
        ErrorKind::OutOfMemory => Fault::Memory,
        _ => Fault::Usage,
    }
}
