//! Laws of who asks. The functions do nothing: their contracts are the laws.

ghost use Rattle.doc_hub_people.specs.Laws.{BasicIsBearer, BearersAloneAreKnown, FieldsAreNeverGuests, GuestsDependOnNoReaders, GuestsOwnNothing};

/// A request with an Authorization field is nobody's or a reader's, and never a guest's.
#[tactic(auto, using(crate::proofs::AskingLaws::fields_are_never_guests))]
pub fn fields_are_never_guests()
    ensures { FieldsAreNeverGuests }
{}

/// Without settings for people who asks is whom the bearer's token names.
#[tactic(auto, using(crate::proofs::AskingLaws::bearers_alone_are_known))]
pub fn bearers_alone_are_known()
    ensures { BearersAloneAreKnown }
{}

/// Who signs in with a token as a password is who sends the token as a bearer does.
pub fn basic_is_bearer()
    ensures { BasicIsBearer }
{}

/// Guests are let in whatever readers there are.
#[tactic(auto, using(crate::proofs::AskingLaws::guests_depend_on_no_readers))]
pub fn guests_depend_on_no_readers()
    ensures { GuestsDependOnNoReaders }
{}

/// No guest is an owner.
#[tactic(auto, using(crate::proofs::AskingLaws::guests_own_nothing))]
pub fn guests_own_nothing()
    ensures { GuestsOwnNothing }
{}
