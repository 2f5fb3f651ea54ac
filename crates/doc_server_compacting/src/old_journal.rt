//! The journal that is to be compacted, of either form.

ghost use Rattle.std.specs.Prelude.{◌≡◌, false, Ok, List, ℕ, OnOk, IfSome};
ghost use Rattle.doc_server_compacting.specs.Compactings.{IsJournal};
ghost use Rattle.doc_server_journal_records.specs.FirstReadings.{IsFirst};
ghost use Rattle.doc_server_restore.specs.Restores.{restored};

use crate::fault::CompactingFault;
use doc_page_parts::bytes::Bytes;
use doc_page_parts::heap::Heap;
use doc_page_parts::list::List;
use doc_server_journal::device::Device;
use doc_server_journal::fault::OpenFault;
use doc_server_journal::journal::Journal;
use doc_server_journal::opening::{Opened, Refused};
use doc_server_journal::torn::KeepTorn;
use doc_server_journal::writing::load;
use doc_server_journal_records::first;
use doc_server_restore::edits::Edits;
use doc_server_restore::restore::restore;

/// How many bytes a journal may have: as many as it takes.
pub const MOST_BYTES: usize = 1 << 60;

/// The device of a journal of either form, whose edits are made on a site, in their order. It is to be written anew.
pub fn restore_journal<D: Device + Drop, E: Edits, K: KeepTorn>(
    heap: Heap,
    device: D,
    keeper: &mut K,
    site: &mut E,
) -> Result<D, CompactingFault>
    requires usable { D.failed device ≡ false }
    ensures { OnOk result ((texts : List (List ℕ))
        × IfSome (D.seen device) (λ file. IsJournal file texts)
        × (restored (E.media site.old) (E.store site.old) texts ≡ Ok (E.store site.new))) }
{
    match Journal::open(heap, device, MOST_BYTES, keeper) {
        Ok(Opened { journal, texts }) => {
            make_edits(heap, &texts, site)?;
            Ok(journal.device)
        }
        Err(
            Refused {
                fault: OpenFault::First,
                device,
            },
        ) => restore_first(heap, device, site),
        Err(refused) => Err(CompactingFault::from(refused.fault)),
    }
}

/// The same of one of the first form.
fn restore_first<D: Device + Drop, E: Edits>(
    heap: Heap,
    device: D,
    site: &mut E,
) -> Result<D, CompactingFault>
    requires usable { D.failed device ≡ false }
    ensures { OnOk result ((texts : List (List ℕ))
        × IfSome (D.seen device) (λ file. IsFirst file texts)
        × (restored (E.media site.old) (E.store site.old) texts ≡ Ok (E.store site.new))) }
{
    let mut device = device;
    let bytes = match load(&mut device, heap, MOST_BYTES) {
        Ok(bytes) => bytes,
        Err(e) => return Err(CompactingFault::from(OpenFault::from(e))),
    };
    match first::reading::read(heap, bytes.get())? {
        Some(texts) => {
            make_edits(heap, &texts, site)?;
            Ok(device)
        }
        None => Err(CompactingFault::from(OpenFault::First)),
    }
}

/// Makes the edits of records on a site, in their order.
fn make_edits<E: Edits>(
    heap: Heap,
    records: &List<Bytes>,
    site: &mut E,
) -> Result<(), CompactingFault>
    ensures { OnOk result
        (restored (E.media site.old) (E.store site.old) records.now ≡ Ok (E.store site.new)) }
{
    restore(heap, site, records.get())?;
    Ok(())
}
