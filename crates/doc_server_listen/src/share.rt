//! What the connections of a turn may still take of it.

ghost use Rattle.std.specs.Prelude.{◌≡◌, true, false};
ghost use Rattle.doc_server_listen.specs.Costs.{Left, Takes, most_cost};

use crate::cost::{LIST_COST, PAGE_COST};
use std::marker::Model;

/// What may still be taken of a turn: by the connection that is served, and of what costs more than a page by all of them together. It
/// tells behind which place the next turn begins, so that whoever waits for something dear comes in turn.
#[derive(Drop)]
pub struct Share {
    own: u32,
    dear: u32,
    place: usize,
    behind: usize,
    /// Whether something dear was refused, so that whatever is dear waits behind it.
    waits: bool,
}

impl Model for Share {
    ghost use Rattle.doc_server_listen.specs.Costs.{Left};

    ghost Value = { Left };

    ghost view = { λ s. record { own = s.own; dear = s.dear } };
}

impl Share {
    /// A turn from which nothing was taken.
    #[tactic(auto, unfolding(crate::specs::Costs::most_cost))]
    pub fn new() -> Share
        ensures { result ≡ record { own = most_cost; dear = most_cost } }
    {
        Share {
            own: LIST_COST,
            dear: LIST_COST,
            place: 0,
            behind: 0,
            waits: false,
        }
    }

    /// The next place is served.
    #[tactic(auto, unfolding(crate::specs::Costs::most_cost))]
    pub fn begin(&mut self)
        ensures { self.new ≡ record self.old { own = most_cost } }
    {
        self.own = LIST_COST;
        self.place = self.place.saturating_add(1);
    }

    /// Takes what a step costs. False: so much isn't left, or another one waits for more, and nothing was taken.
    pub fn take(&mut self, cost: u32) -> bool
        ensures taken { result ≡ true → Takes self.old self.new cost }
        ensures refused { result ≡ false → self.new ≡ self.old }
    {
        if cost > self.own {
            return false;
        }
        if cost > PAGE_COST {
            if self.waits || cost > self.dear {
                self.waits = true;
                return false;
            }
            self.dear -= cost;
            self.behind = self.place;
        }
        self.own -= cost;
        true
    }

    /// How many of the places come last in the next turn: those up to the last that took something dear, none where none did.
    pub fn behind(&self) -> usize {
        self.behind
    }
}
