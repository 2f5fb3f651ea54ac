//! Laws of a reload. Each function does nothing, or cites laws that others stand on: its contract is the law.

ghost use Rattle.doc_server_reload.specs.CallLaws.{ReloadsStayOfCalls};
ghost use Rattle.doc_server_reload.specs.Laws.{AReloadIsARestartBeside, LedGivesTheSite, LedIsMade, LedIsMadeBeside, NothingLeadsToItself};
ghost use Rattle.doc_server_reload.specs.Laws.{ReloadIsARestart, WhatIsMadeGivesTheSite};
ghost use Rattle.doc_server_reload.specs.ReplyLaws.{HiddenReloadsChangeNoReply, SiteEditsLeaveTheRest};
ghost use Rattle.doc_server_reload.specs.RestoredLaws.{ReadEditsAreEdits, RestoredSitesAreOfCalls, WhatIsLedIsRestored};

use doc_hub::laws::{answers_are_noninterfering, steps_are_noninterfering};
pub use doc_server_kept::laws::{a_turn_is_restored, a_turn_leaves_a_site_of_calls};

/// The edits that lead a site to another make it the other, aliases included: where both are sites.
#[tactic(auto, using(crate::proofs::LeadLaw::led_gives_the_site))]
pub fn the_edits_give_the_site()
    ensures { LedGivesTheSite }
{}

/// A reload that finds nothing changed makes no edit.
#[tactic(auto, using(crate::proofs::Itself::nothing_leads_to_itself))]
pub fn nothing_leads_to_itself()
    ensures { NothingLeadsToItself }
{}

/// A store refuses none of the edits that lead its site to another, and has the other afterwards: where both are sites, the other is within
/// a store's limits, and stamps are left for the edits.
pub fn the_edits_are_made()
    ensures { LedIsMade }
{}

/// So it is beside media, where the other site has no page and no alias on the path of one.
pub fn the_edits_are_made_beside_media()
    ensures { LedIsMadeBeside }
{}

/// Where all of them are accepted, as `make_led` answers it of whatever store and media, the store has the other site afterwards.
pub fn what_is_made_gives_the_site()
    ensures { WhatIsMadeGivesTheSite }
{}

/// A reload is a restart: the edits that lead a store to the site that its journal's records make of the configuration as it stands now are
/// all made, and give this site: beside no media, where the configuration's site and the store's are sites, the one that is restored is
/// within a store's limits, and stamps are left for the edits.
pub fn a_reload_is_a_restart()
    ensures { ReloadIsARestart }
{}

/// So it is beside media, where what is restored has no page and no alias on the path of one.
pub fn a_reload_is_a_restart_beside()
    ensures { AReloadIsARestartBeside }
{}

/// A reload that changes nothing that a reader may see changes no reply of theirs: each request of theirs has the same answer, byte for
/// byte and with the same edit, and so have steps of an open connection whose unread bytes begin with that request, where both are
/// answered. Where the request is a PUT of an owner, a put is to be taken before and behind, or neither time.
pub fn a_hidden_reload_changes_no_reply()
    ensures { HiddenReloadsChangeNoReply }
{
    answers_are_noninterfering();
    steps_are_noninterfering();
}

/// A run of edits of the site, accepted or refused, leaves a world with another store and with all else as it was: so it is what the law
/// above calls a reload.
pub fn edits_of_the_site_leave_the_rest()
    ensures { SiteEditsLeaveTheRest }
{}

/// Behind a reload, all of whose edits are made, the site is as calls make it: its aliases lead to its pages, and each page is for groups
/// and has a text. It is so where the configuration's site is, and the journal's records are of edits as calls take them.
pub fn a_reloaded_site_is_as_calls_make_it()
    ensures { ReloadsStayOfCalls }
{}

/// Behind a reload, all of whose edits are made, the records restore the site that is served over the pages of the new configuration,
/// however many puts made these, and it is as calls make it: where what they restored over the configuration is, and counts no more puts
/// than the configuration and the hub did together.
pub fn what_is_led_is_restored()
    ensures { WhatIsLedIsRestored }
{}

/// What records are read as are edits of paths, groups and texts as calls take them: a line that gives no such edit is none.
pub fn the_edits_that_are_read_are_of_calls()
    ensures { ReadEditsAreEdits }
{}

/// So what records restore over a site as calls make it is such a site, whatever they say.
pub fn what_is_restored_is_of_calls()
    ensures { RestoredSitesAreOfCalls }
{}
