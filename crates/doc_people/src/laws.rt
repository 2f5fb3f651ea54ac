//! Laws of the definitions. The functions do nothing: their contracts are the laws.

ghost use Rattle.doc_people.specs.Laws.{InertHtmlHasNoForms, InertHtmlHasNoFrames, InertHtmlStays, PathsRise, KeysRise, CountsAreSums, WrittenPathsAreRead, WrittenAnchorsAreRead};
ghost use Rattle.doc_people.specs.Laws.{GroupsArePages};

/// Inert HTML begins no form.
#[tactic(auto, using(crate::proofs::InertLaws::inert_html_has_no_forms))]
pub fn inert_html_has_no_forms()
    ensures { InertHtmlHasNoForms }
{}

/// Inert HTML begins no frame.
#[tactic(auto, using(crate::proofs::InertLaws::inert_html_has_no_frames))]
pub fn inert_html_has_no_frames()
    ensures { InertHtmlHasNoFrames }
{}

/// HTML that begins no form and no frame and has no `'` is inert as it is.
#[tactic(auto, using(crate::proofs::InertLaws::inert_html_stays))]
pub fn inert_html_stays()
    ensures { InertHtmlStays }
{}

/// The paths of a view of a site rise in the order of bytes.
#[tactic(auto, using(crate::proofs::KeyLaws::paths_rise))]
pub fn paths_rise()
    ensures { PathsRise }
{}

/// What stands in a folder rises in the order of bytes, where the paths of the view do.
#[tactic(auto, using(crate::proofs::KeyLaws::keys_rise))]
pub fn keys_rise()
    ensures { KeysRise }
{}

/// How many words of a page a term meets is the sum of the counts of those that it meets.
#[tactic(auto, using(crate::proofs::CountLaws::counts_are_sums))]
pub fn counts_are_sums()
    ensures { CountsAreSums }
{}

/// The path of a broken link that names a heading is read from what is told of the link.
#[tactic(auto, using(crate::proofs::WrittenLaws::written_paths_are_read))]
pub fn written_paths_are_read()
    ensures { WrittenPathsAreRead }
{}

/// And so is the anchor, decoded.
#[tactic(auto, using(crate::proofs::WrittenLaws::written_anchors_are_read))]
pub fn written_anchors_are_read()
    ensures { WrittenAnchorsAreRead }
{}

/// Where the paths of a view rise, the pages with broken links or images are listed each once, with all of these.
#[tactic(auto, using(crate::proofs::GroupLaws::groups_are_pages))]
pub fn groups_are_pages()
    ensures { GroupsArePages }
{}
