//! Laws of groups and of what readers see. Each function does nothing: its contract is the law.

ghost use Rattle.doc_store_readers.specs.Laws.{EqualSets, GoalsOfViews, NoReaderSeesNothing, SameGroups, SameNames, ViewOfView};
ghost use Rattle.doc_store_readers.specs.Laws.{OthersStay, ViewsAreSites, WhoIsRemovedIsGone, WhoIsSetIsFound};

/// The groups of some names are these names, and no others.
pub fn groups_are_their_names()
    ensures { SameNames }
{}

/// Equal sets of names make equal groups.
pub fn equal_sets_are_equal_groups()
    ensures { EqualSets }
{}

/// Two sets of groups with the same names are equal values.
#[tactic(auto, using(crate::proofs::GroupLaws::same_groups))]
pub fn groups_with_the_same_names_are_equal()
    ensures { SameGroups }
{}

/// A reader sees the whole of what the reader sees.
pub fn the_view_of_a_view_is_the_view()
    ensures { ViewOfView }
{}

/// What a reader sees of a site is a site: no alias is the path of a page that they see, and each leads
/// to one.
#[tactic(auto, using(crate::proofs::SitesOfViews::views_are_sites))]
pub fn what_a_reader_sees_is_a_site()
    ensures { ViewsAreSites }
{}

/// No reader sees nothing.
#[tactic(auto, using(crate::proofs::ViewLaw::no_reader_sees_nothing))]
pub fn no_reader_sees_nothing()
    ensures { NoReaderSeesNothing }
{}

/// A path leads in a view where it leads in what the reader sees.
#[tactic(auto, using(crate::proofs::ViewLaw::goals_of_views))]
pub fn views_lead_where_sites_lead()
    ensures { GoalsOfViews }
{}

/// The reader who was set is found by the token.
#[tactic(auto, using(crate::proofs::FindLaws::who_is_set_is_found))]
pub fn who_is_set_is_found()
    ensures { WhoIsSetIsFound }
{}

/// Nobody is found by a token whose reader was removed.
#[tactic(auto, using(crate::proofs::FindLaws::who_is_removed_is_gone))]
pub fn who_is_removed_is_gone()
    ensures { WhoIsRemovedIsGone }
{}

/// Setting a reader and removing one change nobody who is found by another token, but for a collision
/// of SHA-256.
pub fn other_readers_stay()
    ensures { OthersStay }
{}
