//! A law of the lines. The function does nothing: its contract is the law.

ghost use Rattle.doc_server_log.specs.Laws.{IsALine};

/// Whatever came as a method and a target, an entry's line is printable ASCII and one line feed, at its end.
#[tactic(auto, using(crate::proofs::LineSteps::is_a_line))]
pub fn a_line_is_one_line()
    ensures { IsALine }
{}
