//! Laws of what is answered by media. The functions do nothing: their contracts are the laws.

ghost use Rattle.doc_hub_media.specs.Laws.{MediaEditNothing, NothingWithoutMedia, OthersAreShownMediaAlone};

/// Without media they have a part in nothing.
#[tactic(auto, using(crate::proofs::MediaLaws::nothing_without_media))]
pub fn nothing_without_media()
    ensures { NothingWithoutMedia }
{}

/// No answer by media makes an edit.
#[tactic(auto, using(crate::proofs::MediaLaws::media_edit_nothing))]
pub fn media_edit_nothing()
    ensures { MediaEditNothing }
{}

/// One who is no owner is shown media, and told of them by nothing else.
#[tactic(auto, using(crate::proofs::MediaLaws::others_are_shown_media_alone))]
pub fn others_are_shown_media_alone()
    ensures { OthersAreShownMediaAlone }
{}
