//! Laws of maps of targets. Each function is empty: its contract is the law.
ghost use Rattle.doc_refs_parts.specs.Laws.{FindsTheReference, JoinsDefinitions};

/// What the targets of definitions give for a normal label is the target of the first definition whose label matches.
pub fn targets_are_found_by_label()
    ensures { FindsTheReference }
{}

/// The targets of definitions, joined with those of later ones, are the targets of all.
pub fn targets_of_parts_join()
    ensures { JoinsDefinitions }
{}
