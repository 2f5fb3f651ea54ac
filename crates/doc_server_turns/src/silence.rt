//! How long a peer is silent, counted in sweeps: a turn has one at most, however long it takes.

ghost use Rattle.std.specs.Prelude.{◌≡◌, true, false};
ghost use Rattle.doc_server_turns.specs.Silences.{heard, is_over, swept};

use crate::limits::SWEEPS_A_SECOND;

/// For how many seconds a peer that was sent its last reply may go on sending.
const LINGERS: u64 = 2;

/// How many sweeps were made since a peer was heard, or since it was sent its last reply.
#[derive(Clone, Copy)]
pub struct Silence {
    pub sweeps: u64,
    /// Whether it was sent its last reply, so that what still comes isn't heard.
    pub lingers: bool,
}

impl Silence {
    pub fn new() -> Silence
        ensures { result ≡ record { sweeps = 0; lingers = false } }
    {
        Silence {
            sweeps: 0,
            lingers: false,
        }
    }

    /// The peer was heard: it sent something, or took something.
    pub fn hear(&mut self)
        ensures { self.new ≡ heard self.old }
    {
        if !self.lingers {
            self.sweeps = 0;
        }
    }

    /// The peer was sent its last reply.
    pub fn linger(&mut self)
        ensures { self.new ≡ record { sweeps = 0; lingers = true } }
    {
        self.sweeps = 0;
        self.lingers = true;
    }

    /// A sweep is made. True: the peer, which may be silent for so many seconds, is let go.
    pub fn sweep(&mut self, idle_seconds: u64) -> bool
        ensures swept { self.new ≡ swept self.old }
        ensures over { result ≡ is_over idle_seconds self.new }
    {
        self.sweeps = self.sweeps.saturating_add(1);
        self.is_over(idle_seconds)
    }

    /// Whether the peer is let go, which may be silent for so many seconds.
    fn is_over(&self, idle_seconds: u64) -> bool
        ensures { result ≡ is_over idle_seconds self.now }
    {
        let seconds = self.sweeps / SWEEPS_A_SECOND;
        if self.lingers {
            seconds >= LINGERS
        } else {
            seconds >= idle_seconds
        }
    }
}
