//! Laws of a restoration. Each function does nothing: its contract is the law.

ghost use Rattle.doc_server_restore.specs.Laws.{CompactionIsRestored, LinesAreRead};

/// The lines of edits, read as a record, are these edits: for every path, set of groups and text.
#[tactic(auto, using(crate::proofs::LineLaws::lines_are_read))]
pub fn the_lines_of_edits_are_these_edits()
    ensures { LinesAreRead }
{}

/// The records of a compaction, restored on the configuration's site, give the site that was compacted, aliases included: where both are
/// sites, the compacted one is within a store's limits with stamps left, its paths, groups and texts are as calls take them, and the
/// records hold whole lines.
pub fn a_compaction_is_restored()
    ensures { CompactionIsRestored }
{}
