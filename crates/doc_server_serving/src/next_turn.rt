//! What a turn leaves to the next.

ghost use Rattle.std.specs.Prelude.{◌≡◌, ◌||◌, false};

/// What a turn leaves to the next: with whom that begins, and why it doesn't wait.
#[derive(Clone, Copy)]
pub struct NextTurn {
    first: u64,
    goes_on: bool,
    hears_input: bool,
    /// Whether something came on standard input that wasn't asked for yet.
    input_waits: bool,
    /// Whether the source is about to answer.
    source_is_busy: bool,
}

impl NextTurn {
    /// Before the first turn there is nobody.
    pub fn new() -> NextTurn
        ensures { result ≡ record {
          first = 0;
          goes_on = false;
          hears_input = false;
          input_waits = false;
          source_is_busy = false;
        } }
    {
        NextTurn {
            first: 0,
            goes_on: false,
            hears_input: false,
            input_waits: false,
            source_is_busy: false,
        }
    }

    /// With whom it begins.
    pub fn first(&self) -> u64
        ensures { result ≡ self.now.first }
    {
        self.first
    }

    /// Whether something has come on standard input in the turn that ran, or waits since one before. From here on nothing waits.
    pub fn take_input(&mut self) -> bool
        ensures result { result ≡ (self.old.hears_input || self.old.input_waits) }
        ensures taken { self.new ≡ record self.old { input_waits = false } }
    {
        let has_input = self.hears_input || self.input_waits;
        self.input_waits = false;
        has_input
    }

    /// What has come on standard input in the turn that ran waits.
    pub fn keep_input(&mut self)
        ensures { self.new
            ≡ record self.old { input_waits = self.old.input_waits || self.old.hears_input } }
    {
        self.input_waits = self.input_waits || self.hears_input;
    }

    /// Whether the source is about to answer.
    pub fn expect(&mut self, is_busy: bool)
        ensures { self.new ≡ record self.old { source_is_busy = is_busy } }
    {
        self.source_is_busy = is_busy;
    }

    /// Whether something is left to do, be the network to tell of anything or not.
    pub fn is_due(&self) -> bool {
        self.goes_on || self.input_waits || self.source_is_busy
    }

    /// Those that took part were served: it begins with this one, and perhaps one of them goes on.
    pub fn serve(&mut self, first: u64, goes_on: bool)
        ensures { self.new ≡ record self.old { first = first; goes_on = goes_on } }
    {
        self.first = first;
        self.goes_on = goes_on;
    }

    /// All were swept, and perhaps one of them goes on.
    pub fn sweep(&mut self, goes_on: bool)
        ensures { self.new ≡ record self.old { goes_on = self.old.goes_on || goes_on } }
    {
        self.goes_on = self.goes_on || goes_on;
    }

    /// Whether something has come on standard input.
    pub fn hear(&mut self, came: bool)
        ensures { self.new ≡ record self.old { hears_input = came } }
    {
        self.hears_input = came;
    }
}
