//! Reading and writing once on a stream of the system, again where a signal interrupted the call: that there is nothing yet is what the
//! system says alone.

ghost use Rattle.std.specs.Prelude.{◌≤◌, ◌≡◌, length};
ghost use Rattle.doc_server_network.specs.Networks.{came_len, took_len};

use crate::came::Came;
use crate::net_fault::NetFault;
use mio::net::TcpStream;
use std::io::{ErrorKind, Read, Write};

/// How often an interrupted call is tried, so that it ends.
const TRIES: u64 = 0x1_0000_0000;

/// Reads once.
pub fn read_once(stream: &TcpStream, buf: &mut [u8]) -> Result<Came, NetFault>
    ensures room { length buf.new ≡ length buf.old }
    ensures bound { came_len result ≤ length buf.new }
{
    let mut reader = stream;
    'tries: for _ in 0..TRIES {
        match reader.read(buf) {
            Ok(0) => return Ok(Came::End),
            Ok(count) => return Ok(Came::Bytes(count)),
            Err(e) => match e.kind() {
                ErrorKind::Interrupted => {}
                ErrorKind::WouldBlock => return Ok(Came::Nothing),
                _ => return Err(NetFault),
            },
        }
    }
    Err(NetFault)
}

/// Writes once.
pub fn write_once(stream: &TcpStream, buf: &[u8]) -> Result<usize, NetFault>
    ensures { took_len result ≤ length buf.now }
{
    let mut writer = stream;
    'tries: for _ in 0..TRIES {
        match writer.write(buf) {
            Ok(count) => return Ok(count),
            Err(e) => match e.kind() {
                ErrorKind::Interrupted => {}
                ErrorKind::WouldBlock => return Ok(0),
                _ => return Err(NetFault),
            },
        }
    }
    Err(NetFault)
}
