//! Noninterference and other laws of runs, as contracts of functions that do nothing. They speak of the
//! relation `Happens` between two worlds, which the contracts of the hub's calls promise of each call.

ghost use Rattle.doc_hub.specs.ConnectionLaws.{DroppedIsGone, NumbersAreGivenOnce, PushesJoin};
ghost use Rattle.doc_hub.specs.CutLaws.{DecisionsOfCut};
ghost use Rattle.doc_hub.specs.EditLaws.{SiteIsOfEdits};
ghost use Rattle.doc_hub.specs.EditingLaws.{NoPageIsReplacedUnasked, NoUpdateIsLost};
ghost use Rattle.doc_hub.specs.FreshLaws.{NewRepliesAsFresh, PutsAreCounted, PutsAreLeft};
ghost use Rattle.doc_hub.specs.FreshLaws.{RepliesAsFresh, TakingStands};
ghost use Rattle.doc_hub.specs.HiddenLaws.{HiddenAsNone, HiddenMediumAsNone, LinksToHiddenAsToNone, LinksToHiddenMediaAsToNone};
ghost use Rattle.doc_hub.specs.MadeLaws.{FreshIsMade, MadeReplies};
ghost use Rattle.doc_hub.specs.MediaLaws.{MediaStandApart};
ghost use Rattle.doc_hub.specs.RunLaws.{RunsAlike};
ghost use Rattle.doc_hub.specs.StepEdits.{NoStepEdits, StepsChange};
ghost use Rattle.doc_hub.specs.StepLaws.{AnswersAlike, NewReadersAlike, StepsAlike};

/// A request has one answer, with one edit, in two worlds with the same settings, the same who asks (nobody,
/// a guest, or a reader of one entry), and one view and the same media for them; and, where it is a PUT of an
/// owner, a put taken in both or in neither. Nothing else of the worlds matters.
#[tactic(auto, using(crate::proofs::StepLaws::answers_alike))]
pub fn answers_are_noninterfering()
    ensures { AnswersAlike }
{}

/// Readers that are set anew, all at once, change no reply to whoever is found by the new ones as by the old ones: the same reader, or
/// nobody.
#[tactic(auto, using(crate::proofs::StepLaws::new_readers_alike))]
pub fn new_readers_change_nothing_for_others()
    ensures { NewReadersAlike }
{}

/// A hidden page is answered exactly as a page that doesn't exist: each request of a reader who doesn't see
/// the page has the same answer, byte for byte and with the same edit, where the page was removed; and so
/// have steps of an open connection whose unread bytes begin with that request, where both are answered.
#[tactic(auto, using(crate::proofs::HiddenLaws::hidden_as_none))]
pub fn a_hidden_page_is_answered_as_none()
    ensures { HiddenAsNone }
{}

/// A hidden medium is answered exactly as a medium that doesn't exist, as a hidden page is: with the same
/// bytes and the same edit.
#[tactic(auto, using(crate::proofs::HiddenLaws::hidden_medium_as_none))]
pub fn a_hidden_medium_is_answered_as_none()
    ensures { HiddenMediumAsNone }
{}

/// A link to a hidden page is shown like a link to none: each link, and each page with its links, is shown
/// to a reader who doesn't see the hidden page as it is where that was removed.
#[tactic(auto, using(crate::proofs::HiddenLaws::links_to_hidden_as_to_none))]
pub fn a_link_to_a_hidden_page_is_shown_as_one_to_none()
    ensures { LinksToHiddenAsToNone }
{}

/// A link to a hidden medium is shown like a link to none, too, and so is each page with its links.
#[tactic(auto, using(crate::proofs::HiddenLaws::links_to_hidden_media_as_to_none))]
pub fn a_link_to_a_hidden_medium_is_shown_as_one_to_none()
    ensures { LinksToHiddenMediaAsToNone }
{}

/// Step noninterference. Two steps send equal bytes and do the same where their connections are open,
/// their unread bytes begin with the same thing, both are answered (memory sufficed for both), and,
/// where that is a request, the worlds have the same settings, the same who asks, and one view and the
/// same media for them; and, where it is a PUT of an owner, a put taken in both or in neither.
pub fn steps_are_noninterfering()
    ensures { StepsAlike }
{}

/// In any run, from any world, what a step of an open connection answers is what the step of a fresh
/// server answers, and nothing else but where memory runs out there: one with the same settings that holds
/// only what the request's reader may see at that step, of the pages and of the media, and that reader's entry, where a token names it.
/// Two premises: the connection stands and is open, and puts are taken and one is left at that step, where the
/// request is a PUT of an owner. A step that answered that memory ran out sent nothing, and nothing is said of it.
pub fn replies_are_a_fresh_servers()
    ensures { RepliesAsFresh }
{}

/// The same of a step of an open connection in a run from a new hub, in place of the put that is left: the
/// run has fewer than 2^64 - 1 events. Puts are taken at that step still, where the request is a PUT of an owner.
pub fn replies_of_a_new_hub_are_a_fresh_servers()
    ensures { NewRepliesAsFresh }
{}

/// The fresh server is a world that a hub can be in: from a new hub with that reader alone, puts and
/// moves, as many as the site has pages and aliases, then one connection and the push of its unread
/// bytes leave it, and a put is left. The premises: each alias of the site leads to a page and is the
/// path of none, at most 10,000 pages and as many aliases stand, no text has more than 1,048,576 bytes,
/// at most 4,194,304 bytes are unread, and no medium has the path of a page or of an alias.
#[tactic(auto, using(crate::proofs::MadeLaws::fresh_is_made))]
pub fn a_hub_can_be_a_fresh_server()
    ensures { FreshIsMade }
{}

/// Noninterference by hubs alone. In a run of fewer than 2^64 - 1 events from a new hub, what a step of
/// an open connection answers to a request is what a hub answers that was new with that request's reader
/// alone (or none) and with the media that they see, in which the pages of the view were put, its aliases made by moves, one connection
/// made and its unread bytes pushed, and nothing else was done. The premises beside the open connection: the
/// length of the run, and that puts are taken at that step, where the request is a PUT of an owner.
pub fn replies_are_those_of_a_hub_of_the_view()
    ensures { MadeReplies }
{}

/// Run noninterference. Two runs send equal bytes on a connection where it is alike in the worlds that
/// they begin in (or in neither), its own events are the same in the same order, the one that makes it
/// among them, none of these answered that memory ran out, and before each of its steps the worlds are
/// alike for what its unread bytes begin with, as `steps_are_noninterfering` has it. Nothing is asked
/// of other events, nor of memory elsewhere.
#[tactic(auto, using(crate::proofs::RunLaws::runs_alike))]
pub fn runs_are_noninterfering()
    ensures { RunsAlike }
{}

/// No event makes more than one put or move.
#[tactic(auto, using(crate::proofs::PutCounts::puts_are_counted))]
pub fn an_event_puts_at_most_once()
    ensures { PutsAreCounted }
{}

/// No event but `TakePuts` changes whether puts are taken.
#[tactic(auto, using(crate::proofs::Takings::taking_stands))]
pub fn puts_are_taken_as_they_were()
    ensures { TakingStands }
{}

/// A run of fewer than 2^64 - 1 events from a new hub leaves a put; and it is taken, where no event was `TakePuts`.
#[tactic(auto, using(crate::proofs::FreshLaws::puts_are_left))]
pub fn short_runs_leave_a_put()
    ensures { PutsAreLeft }
{}

/// No event but `SetMedia` changes the media; and no path is both a medium's and a page's or an alias, after any run from a
/// new hub, and after any run from a world where it is so.
#[tactic(auto, using(crate::proofs::MediaLaws::media_stand_apart))]
pub fn media_and_pages_stay_apart()
    ensures { MediaStandApart }
{}

/// How bytes are cut does not matter: where two pushes on a connection are accepted, one after the
/// other, the push of the joined bytes is, and leaves the same world.
pub fn two_pushes_are_one()
    ensures { PushesJoin }
{}

/// A dropped connection is gone: pushes and steps on its number answer that there is none.
#[tactic(auto, using(crate::proofs::DropLaws::dropped_is_gone))]
pub fn dropped_connections_are_gone()
    ensures { DroppedIsGone }
{}

/// A number that was given and has no connection, as after a drop, has none after any run.
#[tactic(auto, using(crate::proofs::GivenLaws::given_once))]
pub fn no_number_is_given_again()
    ensures { NumbersAreGivenOnce }
{}

/// The site that a run leaves is the effect of the accepted edits in their order, and of nothing else:
/// those of the calls for edits, and those that the answered requests ask for.
#[tactic(auto, using(crate::proofs::SiteLaws::site_is_of_edits))]
pub fn the_site_is_the_effect_of_the_edits()
    ensures { SiteIsOfEdits }
{}

/// An answered step changes the site by just the edit that it tells, or not at all where it tells none, and a
/// refused step leaves it. A page that was put fits, and stands under its path after the step; one that was
/// removed stood there before.
#[tactic(auto, using(crate::proofs::StepEdits::steps_change))]
pub fn a_step_makes_the_edit_that_it_tells()
    ensures { StepsChange }
{}

/// Where no edits are taken, no step makes one.
#[tactic(auto, using(crate::proofs::StepEdits::no_step_edits))]
pub fn no_step_edits_where_no_edits_are_taken()
    ensures { NoStepEdits }
{}

/// No update is lost. In any run, whatever stands between, an edit whose request named tags by If-Match is of a
/// page that stood then and had one of them: so of two writers who each name the tag that they read, the second
/// is refused (RFC 9110, section 13.1.1).
pub fn no_update_is_lost()
    ensures { NoUpdateIsLost }
{}

/// No page is replaced unasked. In any run an edit whose request has `If-None-Match: *` is of a path at which
/// no page stood then (RFC 9110, section 13.1.2).
pub fn no_page_is_replaced_unasked()
    ensures { NoPageIsReplacedUnasked }
{}

/// The law of the cut for decisions: the pages that a page's links lead to for a reader are the same on
/// the whole site and on what the reader sees of it, taken as a site. It holds of every site, reader,
/// page and rendering, without a premise.
#[tactic(auto, using(crate::proofs::CutLaws::decisions_of_cut))]
pub fn decisions_on_a_site_are_those_on_its_cut()
    ensures { DecisionsOfCut }
{}
