//! A journal of the edits that lead from a configuration's site to another, with the reserve that a server asks of it.

ghost use Rattle.std.specs.Prelude.{◌≡◌, ◌≤◌, ◌+◌, List, ℕ, false, IfOk, OnOk};
ghost use Rattle.doc_server_compacting.specs.Compactings.{LeadThere};
ghost use Rattle.doc_server_journal.specs.Journals.{IsOpen};
ghost use Rattle.doc_store.specs.Store.{put_limit};

use crate::fault::CompactingFault;
use crate::reserve::make_reserve;
use doc_page_parts::heap::Heap;
use doc_server_journal::device::Device;
use doc_server_journal::journal::Journal;
use doc_server_journal_records::header::Identity;
use doc_server_restore::compact::compact;
use doc_server_restore::laws::a_compaction_is_restored;
use doc_server_settling::reserve::RESERVE;
use doc_store::store::Store;

/// Writes a journal of the edits that lead from a configuration's site to another to an empty device, with its reserve. At `Ok` all of it
/// is on the device.
pub fn write_journal<D: Device + Drop>(
    heap: Heap,
    device: D,
    config: &Store,
    site: &Store,
    identity: &Identity,
    seconds: u64,
) -> Result<Journal<D>, CompactingFault>
    requires usable { D.failed device ≡ false }
    ensures written { IfOk result (λ journal. (texts : List (List ℕ))
        × IsOpen D.seen D.may_leave D.failed D.stale journal texts
        × LeadThere config.now site.now.site texts) }
    ensures reserve { IfOk result (λ journal. RESERVE ≤ journal.room) }
{
    a_compaction_is_restored();
    let mut journal = compact(heap, config, site, device, identity, seconds)?;
    has_stamps(config, journal.end)?;
    make_reserve(&mut journal)?;
    Ok(journal)
}

/// Sees to it that a site has stamps left for the edits of a journal that ends there: each takes a byte at least.
#[tactic(auto, unfolding(doc_store::specs::Store::put_limit))]
fn has_stamps(config: &Store, end: usize) -> Result<(), CompactingFault>
    ensures { OnOk result (config.now.puts + end ≤ put_limit) }
{
    match config.next_stamp() {
        Some(stamp) if stamp.checked_add(end as u64).is_some() => Ok(()),
        _ => Err(CompactingFault::NoStamps),
    }
}
