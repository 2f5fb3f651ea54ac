//! Laws of what readers see of a store, of names, and of stamps. Each function does nothing: its contract is the law.

ghost use Rattle.doc_store.specs.Laws.{NamesOfPages, StampsAreFresh, WhatIsSeen};

pub use doc_store_readers::laws::{
    equal_sets_are_equal_groups, groups_are_their_names, groups_with_the_same_names_are_equal,
    no_reader_sees_nothing, the_view_of_a_view_is_the_view, views_lead_where_sites_lead,
    what_a_reader_sees_is_a_site,
};

/// A reader's sight sees a path exactly where a page stands under it in the reader's view, and of all
/// pages of the site exactly those of the view.
pub fn what_is_seen()
    ensures { WhatIsSeen }
{}

/// The names of a page are the paths that lead to it, each once: in the site, and in the view of each
/// reader who may see the page.
pub fn names_lead_to_their_page()
    ensures { NamesOfPages }
{}

/// No stamp comes twice: the one that a put or a move takes is that of no page, and later ones are
/// larger.
#[tactic(auto, using(crate::proofs::StampLaw::stamps_are_fresh))]
pub fn no_stamp_comes_twice()
    ensures { StampsAreFresh }
{}
