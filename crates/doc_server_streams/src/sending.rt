//! Writing all of some bytes.

ghost use Rattle.std.specs.Prelude.{◌≡◌, OnOk, OnErr};
ghost use Rattle.std.specs.Io.KnownBytes.{Appends};
ghost use Rattle.doc_server_streams.specs.Streams.{failures_after, AppendsPrefix};

use crate::output::Output;
use crate::stream_fault::StreamFault;

/// Writes until all is written or a write fails.
pub fn write_all<O: Output>(output: &mut O, bytes: &[u8]) -> Result<(), StreamFault>
    ensures sent { OnOk result (Appends (O.written output.old) (O.written output.new) bytes.now) }
    ensures cut { OnErr result
        (AppendsPrefix (O.written output.old) (O.written output.new) bytes.now) }
    ensures count { O.failed output.new ≡ failures_after (O.failed output.old) result }
{
    let mut sent = 0;
    'writes: while sent < bytes.len() {
        sent += output.write(&bytes[sent..])?;
    }
    Ok(())
}
