//! Writing all of some bytes to a peer.

ghost use Rattle.std.specs.Prelude.{◌≡◌, MatchBool};
ghost use Rattle.doc_server_rounds.specs.Sending.{IsSent, IsCutOff};

use doc_server_streams::stream::Stream;

/// Writes until all is written. False: a write failed, or took no byte.
pub fn write_all<S: Stream>(stream: &mut S, bytes: &[u8]) -> bool
    requires { S.failed stream.old ≡ 0 }
    ensures sent { MatchBool result
        (IsSent (S.written stream.old) (S.written stream.new) bytes.now (S.failed stream.new))
        (IsCutOff (S.written stream.old) (S.written stream.new) bytes.now
        (S.failed stream.new) (S.stalls stream.new)) }
    ensures unread { S.unread stream.new ≡ S.unread stream.old }
    ensures stalls { S.stalls stream.new ≡ S.stalls stream.old }
{
    let mut sent = 0;
    'writes: while sent < bytes.len() {
        match stream.write(&bytes[sent..]) {
            Ok(0) | Err(_) => return false,
            Ok(count) => sent += count,
        }
    }
    true
}
