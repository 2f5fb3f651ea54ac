//! A reload of pages, in two calls: one finds the edits that lead a hub to what a start would serve, the other makes some of them.

ghost use Rattle.std.specs.Prelude.{◌≡◌, [], Some, IfErr, IfOk, IfSome, OnOk};
ghost use Rattle.doc_hub.specs.Worlds.{World, store_of, with_media, with_store};
ghost use Rattle.doc_server_network.specs.Crashes.{CrashesLeave, Restores};
ghost use Rattle.doc_server_network.specs.Reloads.{IfCannotWrite, IfRefused, IsRefusedFor, IsUnderWay, UnlessEnds, beside};
ghost use Rattle.doc_server_network.specs.Saved.{HasAll, HasFailed, IsAllSaved, IsReady, IsSaved, StaysSaved, no_lines};
ghost use Rattle.doc_server_reload.specs.Leading.{LeadsByEdits};
ghost use Rattle.doc_server_reload.specs.ReplyLaws.{SiteEditsLeaveTheRest};
ghost use Rattle.doc_server_restore.specs.Restores.{all_made};
ghost use Rattle.doc_store.specs.Store.{StoreState};

use crate::lead::Lead;
use crate::reload_fault::ReloadFault;
use crate::reloading::{pages_of_start, texts_anew};
use crate::saved_hub::{SavedHub, lines_for};
use doc_media::media::Media;
use doc_page::renderer::Renderer;
use doc_page_parts::failure::Memory;
use doc_page_parts::heap::Heap;
use doc_server_journal::device::Device;
use doc_server_journal::journal::Journal;
use doc_server_listen::edit_lines::EditLines;
use doc_server_reload::laws::edits_of_the_site_leave_the_rest;
use doc_server_reload::lead::lead;
use doc_server_reload::leading::lead_hub;
use doc_server_settling::fault::TurnFault;
use doc_store::site_edit::SiteEdit;
use doc_store::store::Store;

impl<D: Device, R: Renderer + Drop> SavedHub<D, R> {
    /// Reads the journal's records anew, makes their edits on these pages beside, and finds the edits that lead the hub to the site that a
    /// start over them and beside these media would serve; the hub is as it was, the media are to be set by `set_media`, and then the edits
    /// are to be made by `lead`. A server calls it between turns. Where it is refused all is as it was; after `Ends` the server ends.
    pub fn begin_reload(
        &mut self,
        heap: Heap,
        config: Store,
        media: &Option<Media>,
    ) -> Result<Lead, ReloadFault>
        requires ready { IsReady D.seen D.may_leave D.failed D.stale self.old }
        requires all { IsAllSaved self.old }
        ensures hub { self.new.hub ≡ self.old.hub }
        ensures ready { UnlessEnds result (IsReady D.seen D.may_leave D.failed D.stale self.new) }
        ensures all { UnlessEnds result (IsAllSaved self.new) }
        ensures begun { IfOk result (λ lead. IsUnderWay D.seen D.may_leave D.failed D.stale config
            (with_media self.old.hub.1 media.now) lead [] (beside media.now self.new)) }
        ensures refused { IfRefused result (λ refusal. IsRefusedFor D.seen D.may_leave D.failed
            D.stale config (with_media self.old.hub.1 media.now) self.new.journal refusal) }
        ensures kept { IfRefused result
            (λ _. StaysSaved D.seen D.may_leave D.failed D.stale self.old self.new) }
        ensures saved { OnOk result
            (StaysSaved D.seen D.may_leave D.failed D.stale self.old self.new) }
        ensures failed { IfCannotWrite result (HasFailed D.failed self.new.journal) }
        ensures any_moment { (before : StoreState) (begin : World)
            → IsSaved D.seen D.may_leave D.failed D.stale before begin self.old
            → CrashesLeave D.seen D.moment D.left_since
            (Restores before begin) self.old.journal self.new.journal }
    {
        let texts = texts_anew(heap, &mut self.journal)?;
        let records = texts.get();
        let again = pages_of_start(heap, &self.hub, media, self.room(), config, records)?;
        let edits = lead(heap, self.hub.store(), &again)?;
        self.unsaved = lines_where(heap, &self.journal);
        Ok(Lead {
            edits,
            records: records.len(),
        })
    }

    /// Makes some of the edits of a reload, in their order. After an `Err` the server ends: memory was lacking, or a stamp, and the edits
    /// before the one that isn't made stand.
    pub fn lead(&mut self, edits: &[SiteEdit]) -> Result<(), TurnFault>
        ensures made { OnOk result (all_made self.old.hub.1.media (store_of self.old.hub.1)
            edits.now ≡ Some (store_of self.new.hub.1)) }
        ensures leads { LeadsByEdits (R.page self.old.hub.0) edits.now
            self.old.hub.1 self.new.hub.1 }
        ensures others { self.new.hub.1 ≡ with_store self.old.hub.1 (store_of self.new.hub.1) }
        ensures same { R.page self.new.hub.0 ≡ R.page self.old.hub.0 }
        ensures journal { self.new.journal ≡ self.old.journal }
        ensures unsaved { self.new.unsaved ≡ self.old.unsaved }
        ensures why { IfErr result (λ fault. fault ≡ TurnFault.Memory) }
    {
        edits_of_the_site_leave_the_rest();
        match lead_hub(&mut self.hub, edits) {
            Ok(true) => Ok(()),
            Ok(false) => Err(TurnFault::Memory),
            Err(Memory) => Err(TurnFault::Memory),
        }
    }
}

/// No lines yet, for the next record of a journal, where there is one.
fn lines_where<D: Device>(heap: Heap, journal: &Option<Journal<D>>) -> EditLines
    ensures all { HasAll journal.now result }
    ensures none { IfSome journal.now (λ j. result ≡ no_lines j.room) }
{
    match journal {
        Some(journal) => lines_for(heap, journal),
        None => EditLines::dropped(),
    }
}
