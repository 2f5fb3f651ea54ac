//! A hub, the journal of its edits, and the lines of those that aren't in it yet.

ghost use Rattle.std.specs.Prelude.{◌≡◌, List, ℕ, false, true, None, Some, Ok, IfOk, IfErr, IsErrOf, IfSome, OnErr, OnOk, option_copied, option_map};
ghost use Rattle.std.specs.FinMap as map;
ghost use Rattle.doc_hub.specs.Runs.{Happens};
ghost use Rattle.doc_hub.specs.Worlds.{IsApart, World};
ghost use Rattle.doc_hub_events.specs.Events.{disconnect_on, push_on, step_on};
ghost use Rattle.doc_hub_events.specs.declared.event.Event.TheVariants as events;
ghost use Rattle.doc_hub_events.specs.declared.event.ReaderEdit.TheVariants as reader_edits;
ghost use Rattle.doc_server_journal.specs.Journals.{IsOpen};
ghost use Rattle.doc_server_reload.specs.KeptTurns.{IsOfCalls, IsRestored, TurnIsRestored, TurnStaysOfCalls};
ghost use Rattle.doc_server_network.specs.Crashes.{CrashesLeave, OfBoth, Restores, RestoresEither, StaleIsBehind};
ghost use Rattle.doc_server_network.specs.Saved.{HasAll, HasFailed, IsAllSaved, IsReady, IsSaved, IsSettled, IsUnedited, StaysSaved, TakesByRoom, WereWritten, has_grown, may_step, no_lines, takes_all_removals};
ghost use Rattle.doc_server_listen.specs.Counting.{count_in};
ghost use Rattle.doc_server_listen.specs.OnlyReads.{StepOnlyReads};
ghost use Rattle.doc_server_settling.specs.Reserves.{HasRoomToRemove};
ghost use Rattle.doc_store.specs.Store.{StoreState};

mod following;
mod reloading;

use crate::permit::Permit;
use doc_hub::event::{ConnId, Step};
use doc_hub::hub::Hub;
use doc_hub::refusal::{ConnectError, MediaSetError, PushError, StepError};
use doc_media::media::Media;
use doc_page::renderer::Renderer;
use doc_page_parts::heap::Heap;
use doc_server_journal::device::Device;
use doc_server_journal::journal::{Journal, RECORD_BESIDE};
use doc_server_listen::edit_lines::{EditLines, step_and_keep};
use doc_server_listen::laws::steps_that_read_leave_the_site;
use doc_server_listen::only_reads::only_reads;
use doc_server_reload::laws::{a_turn_is_restored, a_turn_leaves_a_site_of_calls};
use doc_server_settling::fault::TurnFault;
use doc_server_settling::reserve::{RESERVE, has_room_to_remove, keep_reserve};
use doc_store::readers::Readers;

/// A hub, the journal of its edits, where there is one, and the lines of those that aren't in it yet. No step can be made past these
/// lines.
pub struct SavedHub<D: Device, R: Renderer + Drop> {
    hub: Hub<R>,
    journal: Option<Journal<D>>,
    unsaved: EditLines,
}

/// Written out, so that it is proved here once: what a derived drop does is proved wherever a value is let go.
impl<D: Device + Drop, R: Renderer + Drop> Drop for SavedHub<D, R> {
    fn drop(self) {
        let SavedHub {
            hub: _,
            journal: _,
            unsaved: _,
        } = self;
    }
}

impl<D: Device, R: Renderer + Drop> SavedHub<D, R> {
    /// A hub that keeps no journal: its edits hold until the server ends.
    pub fn new(hub: Hub<R>) -> SavedHub<D, R>
        ensures hub { result.hub ≡ hub }
        ensures none { result.journal ≡ None }
        ensures settled { (config : StoreState)
            → IsSettled D.seen D.may_leave D.failed D.stale config result }
        ensures ready { IsReady D.seen D.may_leave D.failed D.stale result }
    {
        SavedHub {
            hub,
            journal: None,
            unsaved: EditLines::dropped(),
        }
    }

    /// A hub whose edits so far are all in this journal.
    pub fn over(heap: Heap, hub: Hub<R>, journal: Journal<D>) -> SavedHub<D, R>
        ensures hub { result.hub ≡ hub }
        ensures journal { result.journal ≡ Some journal }
        ensures all { IsAllSaved result }
        ensures settled { (config : StoreState) (texts : List (List ℕ))
            → IsOpen D.seen D.may_leave D.failed D.stale journal texts
            → IsRestored config texts hub.1 → IsOfCalls hub.1.site
            → IsApart hub.1.site hub.1.media → HasRoomToRemove journal.room hub.1
            → IsSettled D.seen D.may_leave D.failed D.stale config result }
        ensures ready { (texts : List (List ℕ))
            → IsOpen D.seen D.may_leave D.failed D.stale journal texts
            → IsReady D.seen D.may_leave D.failed D.stale result }
    {
        let unsaved = lines_for(heap, &journal);
        SavedHub {
            hub,
            journal: Some(journal),
            unsaved,
        }
    }

    /// One more connection.
    pub fn connect(&mut self) -> Result<ConnId, ConnectError>
        ensures world { Happens (R.page self.old.hub.0) self.old.hub.1
            events.Connect self.new.hub.1 result }
        ensures fresh { IfOk result (λ id. map.get self.old.hub.1.connections id.0 ≡ None) }
        ensures same { R.page self.new.hub.0 ≡ R.page self.old.hub.0 }
        ensures saved { StaysSaved D.seen D.may_leave D.failed D.stale self.old self.new }
        ensures journal { self.new.journal ≡ self.old.journal }
        ensures unsaved { self.new.unsaved ≡ self.old.unsaved }
        ensures ready { IsReady D.seen D.may_leave D.failed D.stale self.old
            → IsReady D.seen D.may_leave D.failed D.stale self.new }
    {
        self.hub.connect()
    }

    /// Bytes that a connection's peer sent.
    pub fn push(&mut self, id: ConnId, bytes: &[u8]) -> Result<(), PushError>
        ensures world { Happens (R.page self.old.hub.0) self.old.hub.1
            (push_on id bytes.now) self.new.hub.1 result }
        ensures same { R.page self.new.hub.0 ≡ R.page self.old.hub.0 }
        ensures saved { StaysSaved D.seen D.may_leave D.failed D.stale self.old self.new }
        ensures journal { self.new.journal ≡ self.old.journal }
        ensures unsaved { self.new.unsaved ≡ self.old.unsaved }
        ensures ready { IsReady D.seen D.may_leave D.failed D.stale self.old
            → IsReady D.seen D.may_leave D.failed D.stale self.new }
    {
        self.hub.push(id, bytes)
    }

    /// Answers the request at the front of a connection's unread bytes, if they hold one, and makes the edit that it asks for. Where there
    /// is a journal the line of the edit waits until `settle`.
    pub fn step(&mut self, id: ConnId) -> Result<Step, StepError>
        requires room { may_step self.old ≡ true }
        ensures world { Happens (R.page self.old.hub.0) self.old.hub.1
            (step_on id) self.new.hub.1 result }
        ensures same { R.page self.new.hub.0 ≡ R.page self.old.hub.0 }
        ensures saved { StaysSaved D.seen D.may_leave D.failed D.stale self.old self.new }
        ensures journal { self.new.journal ≡ self.old.journal }
        ensures ready { IsReady D.seen D.may_leave D.failed D.stale self.old
            → IsReady D.seen D.may_leave D.failed D.stale self.new }
        ensures rests { StepOnlyReads self.old.hub.1 id.0 → IsUnedited self.old self.new }
    {
        steps_that_read_leave_the_site();
        let Some(_) = &self.journal else {
            return self.hub.step(id);
        };
        turns_are_restored();
        step_and_keep(&mut self.hub, id, &mut self.unsaved)
    }

    /// Drops a connection with its unread bytes; `false` says that there is none.
    pub fn disconnect(&mut self, id: ConnId) -> bool
        ensures world { Happens (R.page self.old.hub.0) self.old.hub.1
            (disconnect_on id) self.new.hub.1 result }
        ensures same { R.page self.new.hub.0 ≡ R.page self.old.hub.0 }
        ensures saved { StaysSaved D.seen D.may_leave D.failed D.stale self.old self.new }
        ensures journal { self.new.journal ≡ self.old.journal }
        ensures unsaved { self.new.unsaved ≡ self.old.unsaved }
        ensures ready { IsReady D.seen D.may_leave D.failed D.stale self.old
            → IsReady D.seen D.may_leave D.failed D.stale self.new }
    {
        self.hub.disconnect(id)
    }

    /// Sets the readers, all at once. It takes no memory, and isn't refused. They are the configuration's, so the journal says nothing of them.
    pub fn set_readers(&mut self, readers: Readers)
        ensures world { Happens (R.page self.old.hub.0) self.old.hub.1
            (events.Reader (reader_edits.All readers)) self.new.hub.1 (Ok tt) }
        ensures given { self.new.hub.1.given ≡ self.old.hub.1.given }
        ensures same { R.page self.new.hub.0 ≡ R.page self.old.hub.0 }
        ensures saved { StaysSaved D.seen D.may_leave D.failed D.stale self.old self.new }
        ensures journal { self.new.journal ≡ self.old.journal }
        ensures unsaved { self.new.unsaved ≡ self.old.unsaved }
        ensures ready { IsReady D.seen D.may_leave D.failed D.stale self.old
            → IsReady D.seen D.may_leave D.failed D.stale self.new }
    {
        self.hub.set_readers(readers);
    }

    /// Sets the media, all at once. `Taken` says that one of them has the path of a page, or of an alias; then nothing changes. They are
    /// the configuration's, so the journal says nothing of them: its records are to be those of a site beside these media.
    pub fn set_media(&mut self, media: Option<Media>) -> Result<(), MediaSetError>
        ensures world { Happens (R.page self.old.hub.0) self.old.hub.1
            (events.SetMedia media) self.new.hub.1 result }
        ensures given { self.new.hub.1.given ≡ self.old.hub.1.given }
        ensures same { R.page self.new.hub.0 ≡ R.page self.old.hub.0 }
        ensures refused { OnErr result
            (StaysSaved D.seen D.may_leave D.failed D.stale self.old self.new) }
        ensures journal { self.new.journal ≡ self.old.journal }
        ensures unsaved { self.new.unsaved ≡ self.old.unsaved }
        ensures ready { IsReady D.seen D.may_leave D.failed D.stale self.old
            → IsReady D.seen D.may_leave D.failed D.stale self.new }
    {
        self.hub.set_media(media)
    }

    /// The bytes of a connection that no reply has answered yet, so that a server can tell what its next step costs.
    pub fn unread(&self, id: ConnId) -> Option<&[u8]>
        ensures { option_copied result
            ≡ option_map (λ c. c.unread) (map.get self.now.hub.1.connections id.0) }
    {
        self.hub.unread(id)
    }

    /// Whether the next step of a connection is of a request that only reads, or of none. `false` where memory was lacking to look.
    pub fn only_reads(&self, heap: Heap, id: ConnId) -> bool
        ensures { result ≡ true → StepOnlyReads self.now.hub.1 id.0 }
    {
        match self.hub.unread(id) {
            Some(unread) => only_reads(heap, unread),
            None => true,
        }
    }

    /// Whether owners' puts are taken.
    pub fn takes_puts(&self) -> bool
        ensures { result ≡ self.now.hub.1.takes_puts }
    {
        self.hub.takes_puts()
    }

    /// Whether one more step may be made. Between turns `keep_reserve` sees to it that it may, and while no puts are taken it may always,
    /// unless memory ran out.
    #[tactic(auto, unfolding(doc_server_settling::specs::Reserves::reserve))]
    pub fn has_room(&self) -> bool
        ensures may { result ≡ may_step self.now }
        ensures removals { (config : StoreState) (begin : World)
            → IsSaved D.seen D.may_leave D.failed D.stale config begin self.now
            → self.now.hub.1.takes_puts ≡ false → self.now.unsaved.is_whole ≡ true
            → result ≡ true }
    {
        let Some(journal) = &self.journal else {
            return true;
        };
        let takes_puts = self.hub.takes_puts();
        if takes_puts && journal.room < RESERVE {
            return false;
        }
        self.unsaved.has_room(takes_puts)
    }

    /// Whether the journal has room for the removal of each page, so that turns have room whatever comes, where there is one.
    pub fn has_room_to_remove(&self) -> bool
        ensures exact { result ≡ takes_all_removals self.now.journal self.now.hub.1 }
        ensures enough { result ≡ true → IfSome self.now.journal
            (λ journal. HasRoomToRemove journal.room self.now.hub.1) }
    {
        match &self.journal {
            Some(journal) => has_room_to_remove(journal, &self.hub),
            None => true,
        }
    }

    /// How much room the journal has, where there is one.
    pub fn room(&self) -> Option<usize>
        ensures { result ≡ option_map (λ journal. journal.room) self.now.journal }
    {
        match &self.journal {
            Some(journal) => Some(journal.room),
            None => None,
        }
    }

    /// Behind how many bytes the journal's records end, where there is one.
    pub fn journal_bytes(&self) -> Option<usize>
        ensures { result ≡ option_map (λ journal. journal.end) self.now.journal }
    {
        match &self.journal {
            Some(journal) => Some(journal.end),
            None => None,
        }
    }

    /// How many pages stand.
    pub fn pages(&self) -> usize
        ensures { result ≡ count_in self.now.hub.1 }
    {
        self.hub.len()
    }

    /// The media that are served beside the pages.
    pub fn media(&self) -> &Option<Media>
        ensures { result.now ≡ self.now.hub.1.media }
    {
        self.hub.media()
    }

    /// The journal's device, where there is one, to be asked what it knows.
    pub fn device(&self) -> Option<&D>
        ensures { option_map (λ device. device.now) result
            ≡ option_map (λ journal. journal.device) self.now.journal }
    {
        match &self.journal {
            Some(journal) => Some(&journal.device),
            None => None,
        }
    }

    /// Puts the edits that wait on the journal's device, where there is one, as one record that says how many seconds there were behind the
    /// beginning of 1970. Where none waits nothing is written. After an `Err` the server ends: nothing may be handed over.
    pub fn settle(&mut self, heap: Heap, seconds: u64) -> Result<(), TurnFault>
        requires ready { IsReady D.seen D.may_leave D.failed D.stale self.old }
        ensures ready { OnOk result (IsReady D.seen D.may_leave D.failed D.stale self.new) }
        ensures settled { (config : StoreState) (begin : World)
            → IsSaved D.seen D.may_leave D.failed D.stale config begin self.old
            → OnOk result (IsSettled D.seen D.may_leave D.failed D.stale config self.new) }
        ensures all { OnOk result (IsAllSaved self.new) }
        ensures failed { IsErrOf result TurnFault.CannotWrite
            → HasFailed D.failed self.new.journal }
        ensures hub { self.new.hub ≡ self.old.hub }
        ensures rests { IsAllSaved self.old → self.new ≡ self.old }
        ensures time { OnOk result ((lines : List ℕ)
            × IfSome self.old.unsaved.lines (λ waiting. waiting ≡ lines)
            × WereWritten seconds lines self.old.journal self.new.journal) }
        ensures any_moment { (config : StoreState) (begin : World)
            → IsSaved D.seen D.may_leave D.failed D.stale config begin self.old
            → CrashesLeave D.seen D.moment D.left_since
            (RestoresEither config begin self.old.hub.1) self.old.journal self.new.journal }
        ensures stale { OfBoth (StaleIsBehind D.stale) self.old.journal self.new.journal }
    {
        let Some(journal) = &mut self.journal else {
            return Ok(());
        };
        let Some(lines) = self.unsaved.whole_lines() else {
            return Err(TurnFault::Memory);
        };
        if lines.is_empty() {
            return Ok(());
        }
        journal.append(heap, seconds, lines.as_bytes())?;
        self.unsaved = lines_for(heap, journal);
        Ok(())
    }

    /// Sees to the room of the journal, where there is one, by so many more bytes at most, and has the hub take puts while it keeps its
    /// reserve. `false`: the device has no room for so many. A server calls it behind `settle`, so that no turn lacks room. After an `Err`
    /// the server ends.
    pub fn keep_reserve(&mut self, heap: Heap, growth: usize) -> Result<bool, TurnFault>
        requires ready { IsReady D.seen D.may_leave D.failed D.stale self.old }
        requires all { IsAllSaved self.old }
        ensures ready { OnOk result (IsReady D.seen D.may_leave D.failed D.stale self.new) }
        ensures settled { (config : StoreState)
            → IsSettled D.seen D.may_leave D.failed D.stale config self.old
            → OnOk result (IsSettled D.seen D.may_leave D.failed D.stale config self.new) }
        ensures all { OnOk result (IsAllSaved self.new) }
        ensures enough { (config : StoreState)
            → IsSettled D.seen D.may_leave D.failed D.stale config self.old
            → OnOk result (may_step self.new ≡ true) }
        ensures taken { OnOk result (TakesByRoom (R.page self.old.hub.0) self.new.journal
            self.old.hub.1 self.new.hub.1) }
        ensures grows { IfOk result (λ grown. grown
            ≡ has_grown growth self.old.journal self.new.journal) }
        ensures failed { OnErr result (HasFailed D.failed self.new.journal) }
        ensures cannot_write { IfErr result (λ e. e ≡ TurnFault.CannotWrite) }
        ensures rests { OnErr result (self.new.hub.1 ≡ self.old.hub.1) }
        ensures same { R.page self.new.hub.0 ≡ R.page self.old.hub.0 }
        ensures any_moment { (config : StoreState) (begin : World)
            → IsSaved D.seen D.may_leave D.failed D.stale config begin self.old
            → CrashesLeave D.seen D.moment D.left_since
            (Restores config begin) self.old.journal self.new.journal }
        ensures stale { OfBoth (StaleIsBehind D.stale) self.old.journal self.new.journal }
    {
        let Some(journal) = &mut self.journal else {
            return Ok(true);
        };
        let has_grown = keep_reserve(journal, &mut self.hub, growth)?;
        self.unsaved = lines_for(heap, journal);
        Ok(has_grown)
    }

    /// The leave to hand bytes over, where all edits are on the device, or there is no journal at all.
    pub fn permit(&self) -> Permit<'_>
        requires { IsAllSaved self.now }
    {
        Permit::over(self)
    }
}

/// What turns write is restored as what they made, and their sites are as calls make them. These are laws, and this does nothing but say
/// them.
fn turns_are_restored()
    ensures restored { TurnIsRestored }
    ensures of_calls { TurnStaysOfCalls }
{
    a_turn_is_restored();
    a_turn_leaves_a_site_of_calls();
}

/// No lines yet, for the next record of a journal.
fn lines_for<D: Device>(heap: Heap, journal: &Journal<D>) -> EditLines
    ensures { result ≡ no_lines journal.now.room }
{
    EditLines::kept(heap, journal.room.saturating_sub(RECORD_BESIDE))
}
