//! What a reload leads to: the journal's records are read anew and made again on other pages beside.

ghost use Rattle.std.specs.Prelude.{◌≡◌, ◌≤◌, ◌+◌, List as Seq, ℕ, true, IfErr, IfOk, IfSome};
ghost use Rattle.std.specs.FinMap as map;
ghost use Rattle.doc_hub.specs.Worlds.{with_media};
ghost use Rattle.doc_server_journal.specs.Devices.{LeavesOnly};
ghost use Rattle.doc_server_journal.specs.Journals.{IsOpen};
ghost use Rattle.doc_server_network.specs.Crashes.{OfBoth};
ghost use Rattle.doc_server_network.specs.Reloads.{AreTexts, IfCannotWrite, IfRefused, IsJustRead, IsOfStart, IsStoppedBy, IsUnread};
ghost use Rattle.doc_server_network.specs.Reloads.{RemovalsFit, UnlessEnds, has_room_for, is_counted};
ghost use Rattle.doc_server_network.specs.Saved.{HasFailed};
ghost use Rattle.doc_store_readers.specs.Sites.{IsSite};

use crate::reload_fault::{Refusal, ReloadFault};
use doc_hub::hub::Hub;
use doc_media::media::Media;
use doc_page::renderer::Renderer;
use doc_page_parts::bytes::Bytes;
use doc_page_parts::heap::{Heap, Vec};
use doc_page_parts::list::List;
use doc_server_journal::device::Device;
use doc_server_journal::journal::Journal;
use doc_server_reload::anew::texts_of_journal;
use doc_server_reload::beside::restored_beside;
use doc_server_settling::reserve::has_room_for_removals;
use doc_store::store::Store;

/// The texts of the records of an open journal, read anew from its file; without a journal there are none.
pub fn texts_anew<D: Device>(
    heap: Heap,
    journal: &mut Option<Journal<D>>,
) -> Result<List<Bytes>, ReloadFault>
    requires open { IfSome journal.old (λ j. (texts : Seq (Seq ℕ))
        × IsOpen D.seen D.may_leave D.failed D.stale j texts) }
    ensures read { IfOk result
        (λ texts. AreTexts D.seen D.may_leave D.failed D.stale journal.new texts) }
    ensures same { IsJustRead journal.old journal.new }
    ensures open { UnlessEnds result (OfBoth (λ before behind. (texts : Seq (Seq ℕ))
        → IsOpen D.seen D.may_leave D.failed D.stale before texts
        → IsOpen D.seen D.may_leave D.failed D.stale behind texts) journal.old journal.new) }
    ensures any_moment { OfBoth (λ before behind. LeavesOnly D.moment D.left_since before.device
        behind.device (D.may_leave before.device)) journal.old journal.new }
    ensures refused { IfRefused result
        (IsUnread D.seen D.may_leave D.failed D.stale journal.new) }
    ensures failed { IfCannotWrite result (HasFailed D.failed journal.new) }
{
    let Some(journal) = journal else {
        return Ok(List::new(Vec::new(heap)));
    };
    Ok(texts_of_journal(heap, journal, usize::MAX)?)
}

/// The pages that a start over a configuration would serve now beside these media, with the edits of these records, as far as a hub may
/// have them.
pub fn pages_of_start<R: Renderer + Drop>(
    heap: Heap,
    hub: &Hub<R>,
    media: &Option<Media>,
    room: Option<usize>,
    config: Store,
    texts: &[Bytes],
) -> Result<Store, ReloadFault>
    ensures start { IfOk result
        (λ again. IsOfStart config media.now texts.now again) }
    ensures room { IfOk result (λ again. RemovalsFit room (map.len again.site.pages)) }
    ensures counted { IfOk result
        (λ again. again.puts ≤ config.puts + hub.now.1.puts) }
    ensures sites { IfOk result (λ again. IsSite again.site × IsSite hub.now.1.site) }
    ensures refused { IfErr result (λ fault. (refusal : Refusal)
        × (fault ≡ ReloadFault.Refused refusal)
        × IsStoppedBy config (with_media hub.now.1 media.now) room texts.now refusal) }
{
    let counted = config.next_stamp();
    let again = restored_beside(heap, config, media, texts)?;
    if !has_room_for(room, page_count(&again)) {
        return Err(ReloadFault::Refused(Refusal::Full));
    }
    if !is_counted(again.next_stamp(), counted, hub.store().next_stamp()) {
        return Err(ReloadFault::Refused(Refusal::Other));
    }
    Ok(again)
}

/// How many pages a store has.
fn page_count(store: &Store) -> usize
    ensures { result ≡ map.len store.now.site.pages }
{
    store.pages().len()
}

/// Whether a journal with so much room takes the removal of so many pages.
fn has_room_for(room: Option<usize>, pages: usize) -> bool
    ensures exact { result ≡ has_room_for room pages }
    ensures enough { result ≡ true → RemovalsFit room pages }
{
    match room {
        Some(room) => has_room_for_removals(room, pages),
        None => true,
    }
}

/// Whether a hub has counted the puts that records make, by the next stamps of what they make, of the configuration's pages and of its own.
fn is_counted(again: Option<u64>, config: Option<u64>, hub: Option<u64>) -> bool
    ensures { result ≡ is_counted again config hub }
{
    match (again, config, hub) {
        (Some(again), Some(config), Some(hub)) => again.saturating_sub(config) <= hub,
        _ => false,
    }
}
