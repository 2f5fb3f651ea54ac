//! Laws of what bodies come to. A call of one does nothing; its contract is the law.

ghost use Rattle.doc_http_bodies.specs.Laws.{StaysDecided, IsDecidedWithin, TakesBytes, IsNoLongerThan, StaysKnown};

/// Once bytes come to a body or a fault, more bytes don't change it.
pub fn a_decided_body_stays_decided()
    ensures { StaysDecided }
{}

/// As many bytes as an encoded body may take decide what they come to.
pub fn a_body_is_decided_within_the_limit()
    ensures { IsDecidedWithin 2097152 }
{}

/// A body takes no more bytes than there are.
pub fn a_body_takes_bytes_that_stand()
    ensures { TakesBytes }
{}

/// A body is no longer than a body may be.
pub fn a_body_is_within_the_limit()
    ensures { IsNoLongerThan 1048576 }
{}

/// What a reader knows of bytes, it knows of them with more behind them.
pub fn what_a_reader_knows_stays_known()
    ensures { StaysKnown }
{}
