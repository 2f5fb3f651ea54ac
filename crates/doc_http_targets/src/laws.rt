//! Laws of routes. The functions do nothing: their contracts are the laws.

ghost use Rattle.doc_http_targets.specs.Laws.{EditRoutesAreNoOthers, EditRoutesAreNotForPeople, RoutesForPeopleAreNoOthers};

/// A target that concerns the source of a page has no other [`Route`](crate::route::Route).
pub fn edit_routes_are_no_others()
    ensures { EditRoutesAreNoOthers }
{}

/// A target that concerns the source of a page isn't one for people alone.
#[tactic(auto, using(crate::proofs::RouteLaws::edit_routes_are_not_for_people))]
pub fn edit_routes_are_not_for_people()
    ensures { EditRoutesAreNotForPeople }
{}

/// A target for people alone has no other [`Route`](crate::route::Route).
#[tactic(auto, using(crate::proofs::RouteLaws::routes_for_people_are_no_others))]
pub fn routes_for_people_are_no_others()
    ensures { RoutesForPeopleAreNoOthers }
{}
