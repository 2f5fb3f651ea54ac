//! Laws of the definitions. The functions do nothing: their contracts are the laws.

ghost use Rattle.doc_people_editing.specs.Laws.{PoliciesAreTold, EscapedTextsBeginNoTags, TheScriptEndsItself, EditPagesHaveOneScript};
ghost use Rattle.doc_people_editing.specs.Laws.{NewPagesHaveOneScript, PreviewsShowThePage, PreviewsHaveNoForms, PreviewsHaveNoFrames};

/// The policies are those that are told.
#[tactic(auto, using(crate::proofs::ScriptLaws::policies_are_told))]
pub fn policies_are_told()
    ensures { PoliciesAreTold }
{}

/// An escaped text begins no tag.
#[tactic(auto, using(crate::proofs::TagLaws::escaped_texts_begin_no_tags))]
pub fn escaped_texts_begin_no_tags()
    ensures { EscapedTextsBeginNoTags }
{}

/// The script begins and ends no tag, so that its element ends behind it.
#[tactic(auto, using(crate::proofs::ScriptLaws::the_script_ends_itself))]
pub fn the_script_ends_itself()
    ensures { TheScriptEndsItself }
{}

/// The main part of the edit page has one script, the one of the digest, whatever text is edited.
pub fn edit_pages_have_one_script()
    ensures { EditPagesHaveOneScript }
{}

/// And so has the page that asks for a path.
pub fn new_pages_have_one_script()
    ensures { NewPagesHaveOneScript }
{}

/// What is previewed is what people see of the page, between its tags, once it has the text.
#[tactic(auto, using(crate::proofs::PreviewLaws::previews_show_the_page))]
pub fn previews_show_the_page()
    ensures { PreviewsShowThePage }
{}

/// A preview begins no form.
#[tactic(auto, using(crate::proofs::PreviewLaws::previews_have_no_forms))]
pub fn previews_have_no_forms()
    ensures { PreviewsHaveNoForms }
{}

/// And no frame.
#[tactic(auto, using(crate::proofs::PreviewLaws::previews_have_no_frames))]
pub fn previews_have_no_frames()
    ensures { PreviewsHaveNoFrames }
{}
