//! What a command writes.

ghost use Rattle.std.specs.Prelude.{◌≡◌, true, OnOk, OnErr, IfErr};
ghost use Rattle.std.specs.Io.KnownBytes.{Appends, Keeps};
ghost use Rattle.doc_server_streams.specs.Streams.{failures_after, AppendsPrefix};

use crate::fault::Fault;
use crate::output::Output;
use crate::sending::write_all;

/// Writes all of the bytes.
pub fn send<O: Output>(output: &mut O, bytes: &[u8]) -> Result<(), Fault>
    ensures sent { OnOk result (Appends (O.written output.old) (O.written output.new) bytes.now) }
    ensures cut { OnErr result
        (AppendsPrefix (O.written output.old) (O.written output.new) bytes.now) }
    ensures fault { IfErr result (λ fault. fault ≡ Fault.CannotWrite) }
    ensures writes { O.failed output.new ≡ failures_after (O.failed output.old) result }
{
    match write_all(output, bytes) {
        Ok(()) => Ok(()),
        Err(_) => Err(Fault::CannotWrite),
    }
}

/// Flushes what was written.
pub fn flush<O: Output>(output: &mut O) -> Result<(), Fault>
    ensures same { Keeps (O.written output.old) (O.written output.new) }
    ensures flushed { OnOk result (O.flushed output.new ≡ true) }
    ensures fault { IfErr result (λ fault. fault ≡ Fault.CannotWrite) }
    ensures writes { O.failed output.new ≡ failures_after (O.failed output.old) result }
{
    match output.flush() {
        Ok(()) => Ok(()),
        Err(_) => Err(Fault::CannotWrite),
    }
}
