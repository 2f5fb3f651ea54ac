//! Laws of the room that a journal keeps, as contracts of functions that do nothing. A server whose hub has no more pages than may stand
//! keeps `HasRoomFor` from turn to turn by `SavedHub::settle` and `keep_reserve`, once its journal kept the reserve.

ghost use Rattle.doc_server_settling.specs.Reserves.{RemovalsHaveRoom, ReserveIsEnough, TurnsHaveRoom};

/// A turn before which a journal has room for what may come has room for the first edit that is asked for, whatever that is.
#[tactic(auto, using(crate::proofs::Reserving::turns_have_room))]
pub fn turns_have_room()
    ensures { TurnsHaveRoom }
{}

/// Where no puts are taken it has room for each edit of the turn, so that none waits for room.
#[tactic(auto, using(crate::proofs::Reserving::removals_have_room))]
pub fn removals_have_room()
    ensures { RemovalsHaveRoom }
{}

/// A journal that keeps its reserve has room to remove each page.
#[tactic(auto, using(crate::proofs::Reserving::reserve_is_enough))]
pub fn the_reserve_is_enough()
    ensures { ReserveIsEnough }
{}
