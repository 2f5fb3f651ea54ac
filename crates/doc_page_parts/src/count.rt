//! A count that contracts alone see.

ghost use Rattle.std.specs.Prelude.{◌≡◌, ◌+◌, ◌<◌, ℕ};

use std::marker::Model;
use std::sync::ledger::{Blank, Book, Ledger, Share};

/// How often it was raised. It takes no bytes when the program runs, and it has no last value.
#[derive(Drop)]
pub struct Count<L: Ledger> {
    book: Book<L>,
    share: Share<L>,
}

impl<L: Ledger> Model for Count<L> {
    ghost use Rattle.std.specs.Prelude.{ℕ, ◌<◌};

    ghost Value = { ℕ };

    ghost view = { λ c. c.book.total };

    ghost invariant = { λ c. 0 < c.share.parts };
}

impl<L: Ledger> Count<L> {
    /// A count of 0, kept in a blank book of the ledger.
    pub fn new(blank: Blank) -> Self
        requires name { blank.name ≡ L.name }
        requires parts { blank.parts ≡ L.parts }
        requires some { 0 < L.parts }
        ensures { result ≡ 0 }
    {
        let (book, share) = blank.open();
        Count { book, share }
    }

    pub fn raise(&mut self)
        ensures { self.new ≡ self.old + 1 }
    {
        self.book.add(&mut self.share, 1);
    }
}
