//! How many replies there were, by class.

ghost use Rattle.std.specs.Prelude.{◌≡◌};
ghost use Rattle.doc_server_status.specs.Counts.{replies_with};

/// How many replies there were, by the first digit of their codes.
#[derive(Clone, Copy, Debug, PartialEq, Eq)]
pub struct Replies {
    /// 2xx.
    pub successful: u64,
    /// 3xx.
    pub redirected: u64,
    /// 4xx.
    pub refused: u64,
    /// 5xx.
    pub failed: u64,
}

impl Replies {
    /// None.
    pub const NONE: Replies = Replies {
        successful: 0,
        redirected: 0,
        refused: 0,
        failed: 0,
    };

    /// These, and one with this code.
    pub fn with(self, code: u16) -> Replies
        ensures { result ≡ replies_with code self }
    {
        match code / 100 {
            2 => Replies {
                successful: self.successful.saturating_add(1),
                ..self
            },
            3 => Replies {
                redirected: self.redirected.saturating_add(1),
                ..self
            },
            4 => Replies {
                refused: self.refused.saturating_add(1),
                ..self
            },
            5 => Replies {
                failed: self.failed.saturating_add(1),
                ..self
            },
            _ => self,
        }
    }
}
