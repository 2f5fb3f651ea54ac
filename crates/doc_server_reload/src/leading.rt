//! A reload's edits happen on a hub.

ghost use Rattle.std.specs.Prelude.{◌≡◌, Some, IfOk};
ghost use Rattle.doc_hub_events.specs.declared.event.Event.TheVariants as events;
ghost use Rattle.doc_hub.specs.Runs.{Leaves};
ghost use Rattle.doc_hub.specs.Worlds.{store_of};
ghost use Rattle.doc_server_restore.specs.Restores.{all_made};
ghost use Rattle.doc_server_restore.specs.RestoreSteps.{Tells};
ghost use Rattle.doc_server_reload.specs.Leading.{LeadsByEdits};
ghost use Rattle.doc_server_reload.specs.LeadSteps.{if_refused, is_accepted};

use doc_hub::hub::Hub;
use doc_hub_events::outcome::Outcome;
use doc_hub_events::refusal::Refusal;
use doc_page::renderer::Renderer;
use doc_page_parts::failure::Memory;
use doc_store::site_edit::SiteEdit;

/// Makes some edits on a hub, in their order, up to the first that is refused, and answers whether each was accepted. Where one isn't, or
/// memory fails, the edits before it stand.
pub fn lead_hub<R: Renderer + Drop>(hub: &mut Hub<R>, edits: &[SiteEdit]) -> Result<bool, Memory>
    ensures runs { LeadsByEdits (R.page hub.old.0) edits.now hub.old.1 hub.new.1 }
    ensures made { IfOk result (λ accepted. Tells accepted
        (all_made hub.old.1.media (store_of hub.old.1) edits.now) (store_of hub.new.1)) }
    ensures same { R.page hub.new.0 ≡ R.page hub.old.0 }
{
    for edit in edits {
        let outcome = make_edit(hub, edit);
        if !is_accepted(&outcome)? {
            return Ok(false);
        }
    }
    Ok(true)
}

/// Makes an edit, and answers what came of it.
fn make_edit<R: Renderer + Drop>(hub: &mut Hub<R>, edit: &SiteEdit) -> Outcome
    ensures world { Leaves (R.page hub.old.0) hub.old.1 (events.Site edit.now) hub.new.1 result }
    ensures same { R.page hub.new.0 ≡ R.page hub.old.0 }
{
    match edit {
        SiteEdit::Put(path, groups, text) => Outcome::from(hub.put_page(path, groups, text.get())),
        SiteEdit::Remove(path) => Outcome::Removed(hub.remove_page(path)),
        SiteEdit::Move(from, to) => Outcome::from(hub.move_page(from, to)),
    }
}

/// Whether an edit was accepted, by what came of it.
fn is_accepted(outcome: &Outcome) -> Result<bool, Memory>
    ensures { IfOk result (λ accepted. is_accepted outcome.now ≡ Some accepted) }
{
    match outcome {
        Outcome::Refused(refusal) => if_refused(*refusal),
        _ => Ok(true),
    }
}

/// That an edit wasn't accepted, unless memory ran out.
fn if_refused(refusal: Refusal) -> Result<bool, Memory>
    ensures { IfOk result (λ accepted. if_refused refusal ≡ Some accepted) }
{
    match refusal {
        Refusal::Memory => Err(Memory),
        _ => Ok(false),
    }
}
