//! Laws of what unread bytes begin with, and of the token that a request carries. A call of one does nothing; its contract is the law.

ghost use Rattle.doc_http.specs.Laws.{IsReadInOneWay, StaysDecided, IsDecidedWithin, TakesBytes, EmptyIsUndecided, FaultsHaveCodes, HasOneSpelling, BearerStays, BearersAreAlone};

/// Bytes begin with one thing.
pub fn bytes_are_read_in_one_way()
    ensures { IsReadInOneWay }
{}

/// Once bytes begin with a request or a fault, more bytes don't change it.
pub fn a_decided_request_stays_decided()
    ensures { StaysDecided }
{}

/// As many bytes as a head and a body may take decide what they begin with: 16,384 and 2,097,152.
pub fn a_request_is_decided_within_the_limit()
    ensures { IsDecidedWithin 2113536 }
{}

/// A request takes at least one byte of those that it begins, and at most all of them.
pub fn a_request_takes_bytes()
    ensures { TakesBytes }
{}

/// Where there are no bytes, there is neither a request nor a fault yet.
pub fn no_bytes_are_undecided()
    ensures { EmptyIsUndecided }
{}

/// A fault has the code 400, 413, 431 or 501.
pub fn a_fault_has_its_code()
    ensures { FaultsHaveCodes }
{}

/// The bytes of a login are written as a text in one way.
pub fn one_spelling()
    ensures { HasOneSpelling }
{}

/// A value that has a bearer's token has that one, also where logins are understood.
pub fn bearer_stays()
    ensures { BearerStays }
{}

/// Where no logins are understood, there are no tokens but those of bearers.
pub fn bearers_are_alone_without_logins()
    ensures { BearersAreAlone }
{}
