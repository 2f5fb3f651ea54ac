//! How long a peer is a stranger, counted in sweeps: one that was handed over nothing but what whoever asks is given.

ghost use Rattle.std.specs.Prelude.{◌≡◌, ◌||◌, false, not};
ghost use Rattle.doc_server_turns.specs.Strangers.{is_for_whoever, is_over, is_refusal, one_more};

use crate::limits::SWEEPS_A_SECOND;

/// For how many seconds a stranger stays while as many peers are served as may be.
const CROWDED_SECONDS: u64 = 1;

/// A reply was handed over in full: who is given one that not whoever asks is given is known.
pub fn note_handed(is_known: &mut bool, reply: &[u8])
    ensures { is_known.new ≡ (is_known.old || not (is_for_whoever reply.now)) }
{
    *is_known = *is_known || !is_for_whoever(reply);
}

/// Whether whoever asks is given a reply of these bytes: one to what can't be read, isn't signed in, is too large or isn't done, or the
/// style sheet.
fn is_for_whoever(reply: &[u8]) -> bool
    ensures { result ≡ is_for_whoever reply.now }
{
    is_refusal(reply) || reply.starts_with(b"HTTP/1.1 200 OK\r\nContent-Type: text/css;")
}

/// Whether a reply says that a request can't be read, isn't signed in, is too large or isn't done.
fn is_refusal(reply: &[u8]) -> bool
    ensures { result ≡ is_refusal reply.now }
{
    reply.starts_with(b"HTTP/1.1 400 ")
        || reply.starts_with(b"HTTP/1.1 401 ")
        || reply.starts_with(b"HTTP/1.1 413 ")
        || reply.starts_with(b"HTTP/1.1 431 ")
        || reply.starts_with(b"HTTP/1.1 501 ")
}

/// Whether a peer is known, and how many sweeps were made since it came.
#[derive(Clone, Copy)]
pub struct Stranger {
    /// Whether it was handed over a reply that not whoever asks is given.
    pub is_known: bool,
    pub sweeps: u64,
}

impl Stranger {
    pub fn new() -> Stranger
        ensures { result ≡ record { is_known = false; sweeps = 0 } }
    {
        Stranger {
            is_known: false,
            sweeps: 0,
        }
    }

    /// A sweep is made. True: the peer, which may be a stranger for so many seconds, or for one where there is a crowd, is let go.
    pub fn sweep(&mut self, seconds: u64, is_crowded: bool) -> bool
        ensures one { self.new ≡ record self.old { sweeps = one_more self.old.sweeps } }
        ensures over { result ≡ is_over seconds is_crowded self.new }
    {
        self.sweeps = self.sweeps.saturating_add(1);
        let most = if is_crowded {
            seconds.min(CROWDED_SECONDS)
        } else {
            seconds
        };
        !self.is_known && self.sweeps / SWEEPS_A_SECOND >= most
    }
}
