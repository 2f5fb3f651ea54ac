//! Laws of compaction. Each function does nothing: its contract is the law.

ghost use Rattle.doc_server_script.specs.CompactionLaws.{GivesTheSite, ReplayGivesTheSite};

/// The edits that lead from one site to another, one after the other, give the other site, aliases included.
#[tactic(auto, using(crate::proofs::CompactionLaw::gives_the_site))]
pub fn the_effects_of_a_compaction_give_the_site()
    ensures { GivesTheSite }
{}

/// A store refuses none of them, where the site is no larger than a store may be and stamps are left, and has that site afterwards.
#[tactic(auto, using(crate::proofs::ReplayLaw::replay_gives_the_site))]
pub fn the_replay_of_a_compaction_is_the_site()
    ensures { ReplayGivesTheSite }
{}
