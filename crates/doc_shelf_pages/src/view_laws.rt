//! Laws of what is held of a store's pages, and of the lists that readers are answered. Each function does nothing: its contract is the
//! law.

ghost use Rattle.doc_shelf_pages.specs.ViewLaws.{AnswersOfCut, BacklinksAreTheViews, BrokenAreTheViews, ContentsAreTheViews};
ghost use Rattle.doc_shelf_pages.specs.ViewLaws.{CountsOfSeen, EachIsHeldOnce, HeldIsSeen, HitsAreTheViews, NamesOfTargets};
ghost use Rattle.doc_shelf_pages.specs.ViewLaws.{StoresAnswerAlike, WhatIsHeld};

/// Under a path and a stamp stands what the renderer makes of the page at that path, where the page has
/// that stamp, and else nothing; in an index of links and in one of words what these make of it.
#[tactic(auto, using(crate::proofs::HeldLaws::what_is_held))]
pub fn what_is_held()
    ensures { WhatIsHeld }
{}

/// Each path is held under one stamp, as the queries of an index of links require.
pub fn each_path_is_held_once()
    ensures { EachIsHeldOnce }
{}

/// Of what is held a reader sees the pages of the reader's view, each with what the renderer makes of
/// its text, in the order of their paths.
pub fn what_is_seen_of_what_is_held()
    ensures { HeldIsSeen }
{}

/// An index of links that holds a store's pages has for a reader the contents of the reader's view.
#[tactic(auto, using(crate::proofs::ViewAnswers::contents_are_the_views))]
pub fn contents_are_the_views()
    ensures { ContentsAreTheViews }
{}

/// Such an index has for a reader the backlinks of the reader's view, of any path.
#[tactic(auto, using(crate::proofs::ViewAnswers::backlinks_are_the_views))]
pub fn backlinks_are_the_views()
    ensures { BacklinksAreTheViews }
{}

/// Such an index has for a reader the broken links of the reader's view.
#[tactic(auto, using(crate::proofs::ViewAnswers::broken_are_the_views))]
pub fn broken_links_are_the_views()
    ensures { BrokenAreTheViews }
{}

/// An index of words that holds a store's pages finds for a reader what a search of the reader's view
/// finds, with the same scores.
#[tactic(auto, using(crate::proofs::ViewAnswers::hits_are_the_views))]
pub fn hits_are_the_views()
    ensures { HitsAreTheViews }
{}

/// The names of a page that a reader sees are the written paths by which links lead to it for that
/// reader, each once.
pub fn names_are_what_links_write()
    ensures { NamesOfTargets }
{}

/// As many pages are seen of what an index of words holds as stand in the reader's view.
#[tactic(auto, using(crate::proofs::KnownLaws::counts_of_seen))]
pub fn as_many_are_seen_as_the_view_has()
    ensures { CountsOfSeen }
{}

/// The bodies that a reader is answered of a site are those of what the reader sees of it, taken as a
/// site: for that reader, and for an owner of it.
#[tactic(auto, using(crate::proofs::CutAnswers::answers_of_cut))]
pub fn answers_on_a_site_are_those_on_its_cut()
    ensures { AnswersOfCut }
{}

/// Where a reader sees the same of two stores, what is held of them answers that reader alike.
pub fn stores_that_look_alike_answer_alike()
    ensures { StoresAnswerAlike }
{}
