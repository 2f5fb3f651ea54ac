//! Laws of requests that edit. Each function does nothing: its contract is the law.

ghost use Rattle.doc_hub_editing.specs.Laws.{EditsAreOfWhatWasNamed, NothingIsEditedWithoutTheSetting, NothingIsReplacedUnasked, OwnersAlone, ToldTagsAreThePages, WhoNamesAnotherIsRefused};

/// Where pages aren't edited so, no request is one that edits.
#[tactic(auto, using(crate::proofs::EditLaws::nothing_without_the_setting))]
pub fn nothing_is_edited_without_the_setting()
    ensures { NothingIsEditedWithoutTheSetting }
{}

/// One who is no owner edits nothing, and is answered in plain text by the route and the method alone.
#[tactic(auto, using(crate::proofs::EditLaws::owners_alone))]
pub fn owners_alone()
    ensures { OwnersAlone }
{}

/// An edit whose request named tags by If-Match is of a page that stands and has one of them.
pub fn edits_are_of_what_was_named()
    ensures { EditsAreOfWhatWasNamed }
{}

/// No update is lost: of two writers who each name the tag that they read, the second finds another page there and is refused.
#[tactic(auto, using(crate::proofs::EditLaws::who_names_another_is_refused))]
pub fn who_names_another_is_refused()
    ensures { WhoNamesAnotherIsRefused }
{}

/// With `If-None-Match: *` no page is replaced.
#[tactic(auto, using(crate::proofs::EditLaws::nothing_is_replaced_unasked))]
pub fn nothing_is_replaced_unasked()
    ensures { NothingIsReplacedUnasked }
{}

/// A tag that is told is that of the page that stands, or of the page as the request leaves it.
pub fn told_tags_are_the_pages()
    ensures { ToldTagsAreThePages }
{}
