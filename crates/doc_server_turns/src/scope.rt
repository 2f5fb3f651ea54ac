//! What a turn answers.

ghost use Rattle.std.specs.Prelude.{◌≡◌};
ghost use Rattle.doc_server_turns.specs.Scopes.{is_earlier, only_reads};

/// What a turn answers of what its peers have sent.
#[derive(Clone, Copy)]
pub enum Scope {
    /// All that has come.
    All,
    /// What had come before it: another server is followed, and what it has written meanwhile is looked at first.
    Earlier,
    /// What only reads: the hub is being led to another site, and an edit waits until it is there.
    Reads,
}

impl Scope {
    /// Whether what comes in a turn waits for the next.
    pub fn is_earlier(self) -> bool
        ensures { result ≡ is_earlier self }
    {
        matches!(self, Scope::Earlier)
    }

    /// Whether edits wait.
    pub fn only_reads(self) -> bool
        ensures { result ≡ only_reads self }
    {
        matches!(self, Scope::Reads)
    }
}
