//! Laws of answers. The functions do nothing: their contracts are the laws.

ghost use Rattle.doc_hub_replies.specs.Laws.{EditsChangeNothingElse, GuestsEditNothing, NoEditIsMade, NothingChangesWithoutEditing, NothingChangesWithoutMedia, NothingChangesWithoutSettings, OnlyPeopleAreShownPages, PeopleEditNothing, UnauthorizedIsAlike};

/// Without media each answer is what it is by the pages alone.
#[tactic(auto, using(crate::proofs::AnswerLaws::nothing_changes_without_media))]
pub fn nothing_changes_without_media()
    ensures { NothingChangesWithoutMedia }
{}

/// Without settings for people each answer is the response's to the entry of the bearer's token.
#[tactic(auto, using(crate::proofs::AnswerLaws::nothing_changes_without_settings))]
pub fn nothing_changes_without_settings()
    ensures { NothingChangesWithoutSettings }
{}

/// Where pages aren't edited by the settings, each answer is that to a request that doesn't edit so.
#[tactic(auto, using(crate::proofs::AnswerLaws::nothing_changes_without_editing))]
pub fn nothing_changes_without_editing()
    ensures { NothingChangesWithoutEditing }
{}

/// With settings, who asks neither for people nor for their style sheet, and doesn't edit by the settings, is answered
/// by the same response.
#[tactic(auto, using(crate::proofs::AnswerLaws::only_people_are_shown_pages))]
pub fn only_people_are_shown_pages()
    ensures { OnlyPeopleAreShownPages }
{}

/// The answer to a request for people has no edit.
#[tactic(auto, using(crate::proofs::AnswerLaws::people_edit_nothing))]
pub fn people_edit_nothing()
    ensures { PeopleEditNothing }
{}

/// The answer to a guest has no edit.
#[tactic(auto, using(crate::proofs::AnswerLaws::guests_edit_nothing))]
pub fn guests_edit_nothing()
    ensures { GuestsEditNothing }
{}

/// The answer to nobody is the same whatever there is to be seen.
#[tactic(auto, using(crate::proofs::AnswerLaws::unauthorized_is_alike))]
pub fn unauthorized_is_alike()
    ensures { UnauthorizedIsAlike }
{}

/// Where edits are taken, each answer is as ever.
#[tactic(auto, using(crate::proofs::TakingLaws::edits_change_nothing_else))]
pub fn edits_change_nothing_else()
    ensures { EditsChangeNothingElse }
{}

/// Where no edits are taken, no answer makes one.
#[tactic(auto, using(crate::proofs::TakingLaws::no_edit_is_made))]
pub fn no_edit_is_made()
    ensures { NoEditIsMade }
{}
