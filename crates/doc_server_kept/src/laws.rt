//! The restart law, and that of who follows another server. Each function does nothing, or cites a law that it stands on: its contract is
//! the law.

ghost use Rattle.doc_server_kept.specs.Followers.{FollowersAnswerAlike};
ghost use Rattle.doc_server_kept.specs.KeptTurns.{QuietTurnIsRestored, TurnIsRestored, TurnStaysOfCalls};

use doc_hub::laws::answers_are_noninterfering;

/// The record of a turn restores what the turn made: where the records before it give the site of the world that the turn met, from the same
/// configuration, these and one of the lines of its edits give the site of the world that it left. Of its puts no more are counted than the
/// hub has counted. The events of the turn are those of connections, and whether puts are taken; its site is as calls make one, and no path
/// is both a medium's and a page's or an alias, which `doc_hub` promises of the worlds of its runs.
pub fn a_turn_is_restored()
    ensures { TurnIsRestored }
{}

/// A turn without edits needs no record: what was restored before it is restored behind it.
pub fn a_turn_without_edits_is_restored()
    ensures { QuietTurnIsRestored }
{}

/// A site as calls make one stays so over a turn: so these laws hold of turn after turn.
pub fn a_turn_leaves_a_site_of_calls()
    ensures { TurnStaysOfCalls }
{}

/// A server that follows another one answers as that one did, where the same records over the same configuration give both their sites: but
/// what it leaves to the one that takes edits.
pub fn a_follower_answers_as_the_writer()
    ensures { FollowersAnswerAlike }
{
    answers_are_noninterfering();
}
