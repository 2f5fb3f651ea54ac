//! Laws of what a document tells. Each function does nothing: its contract is the law.

ghost use Rattle.doc_server_lint.specs.Laws.{BadFolderIsTold, BadNameIsTold, BadPageIsTold, BadRowIsTold, NoFaultIsTaken, TakenIsClear};
ghost use Rattle.doc_server_lint.specs.Laws.{TwiceIsTold};

/// A document of which no fault is told is taken by all that reads it, the names of its readers among it.
#[tactic(auto, using(crate::proofs::ClearLaw::no_fault_is_taken))]
pub fn no_fault_is_taken()
    ensures { NoFaultIsTaken }
{}

/// A document that is taken has none but faults of the site that is made of it, and each other one has a further fault.
#[tactic(auto, using(crate::proofs::ClearLaw::taken_is_clear))]
pub fn a_taken_document_is_clear()
    ensures { TakenIsClear }
{}

/// The page for which a configuration is refused is the first of which a fault is told.
pub fn a_bad_page_is_told_first()
    ensures { BadPageIsTold }
{}

/// The folder for which it is refused is the first of which a fault is told.
pub fn a_bad_folder_is_told_first()
    ensures { BadFolderIsTold }
{}

/// The reader that is refused for the token of an earlier one is the first of which a fault is told, but of its name.
pub fn a_token_again_is_told_first()
    ensures { TwiceIsTold }
{}

/// The reader that is refused for its row is the first of which a fault is told, but of its name and that an earlier reader has a token.
pub fn a_bad_reader_is_told_first()
    ensures { BadRowIsTold }
{}

/// The reader that is refused for its name is the first of whose name a fault is told.
pub fn a_bad_name_is_told_first()
    ensures { BadNameIsTold }
{}
