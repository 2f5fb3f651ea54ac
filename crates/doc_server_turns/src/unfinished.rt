//! How long a request isn't whole, counted in sweeps.

ghost use Rattle.std.specs.Prelude.{◌≡◌, false};
ghost use Rattle.doc_server_turns.specs.Strangers.{is_late, later};

use crate::limits::SWEEPS_A_SECOND;

/// Whether a request has begun that isn't whole, and how many sweeps were made since its first byte came.
#[derive(Clone, Copy)]
pub struct Unfinished {
    pub has_begun: bool,
    pub sweeps: u64,
}

impl Unfinished {
    pub fn new() -> Unfinished
        ensures { result ≡ record { has_begun = false; sweeps = 0 } }
    {
        Unfinished {
            has_begun: false,
            sweeps: 0,
        }
    }

    /// A request was answered: what has come behind it came just now.
    pub fn answer(&mut self)
        ensures { self.new ≡ record { has_begun = false; sweeps = 0 } }
    {
        *self = Unfinished::new();
    }

    /// What has come holds no further whole request, but a part of one where `has_begun`.
    pub fn wait(&mut self, has_begun: bool)
        ensures { self.new ≡ record self.old { has_begun = has_begun } }
    {
        self.has_begun = has_begun;
    }

    /// A sweep is made. True: the peer, which may send a request for so many seconds, is let go.
    pub fn sweep(&mut self, seconds: u64) -> bool
        ensures later { self.new ≡ later self.old }
        ensures late { result ≡ is_late seconds self.new }
    {
        if self.has_begun {
            self.sweeps = self.sweeps.saturating_add(1);
        }
        self.has_begun && self.sweeps / SWEEPS_A_SECOND >= seconds
    }
}
