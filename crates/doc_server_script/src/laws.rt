//! Laws of a script's lines. Each function does nothing: its contract is the law.

ghost use Rattle.doc_server_script.specs.Laws.{EditsAreLines, EditsAreRead};

/// The line of an edit, read, gives that edit: for every path, set of groups and text.
#[tactic(auto, using(crate::proofs::ReadLaws::edits_are_read))]
pub fn the_line_of_an_edit_gives_that_edit()
    ensures { EditsAreRead }
{}

/// The line of an edit is of printable ASCII, so no line feed stands in it.
#[tactic(auto, using(crate::proofs::ReadLaws::edits_are_lines))]
pub fn the_line_of_an_edit_is_one_line()
    ensures { EditsAreLines }
{}
