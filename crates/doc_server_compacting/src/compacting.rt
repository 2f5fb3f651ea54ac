//! The journal of a name, written anew.

ghost use Rattle.std.specs.Prelude.{◌≡◌, ◌⊎◌, OnErr, OnOk};
ghost use Rattle.doc_server_compacting.specs.Compactings.{Compacts, HoldsSite};

use crate::fault::CompactingFault;
use crate::old_journal::restore_journal;
use crate::place::Place;
use crate::writing::write_journal;
use doc_page_parts::heap::Heap;
use doc_server_journal::torn::KeepTorn;
use doc_server_journal_records::header::Identity;
use doc_store::store::Store;

/// Makes the edits of the journal of a name on a site, which is the configuration's before, and gives the name to a journal of this
/// identity whose edits lead from the configuration's site to that one. They are of so many seconds behind the beginning of 1970. Where
/// this fails the file beside goes.
pub fn compact_file<P: Place, K: KeepTorn>(
    heap: Heap,
    place: &mut P,
    keeper: &mut K,
    config: &Store,
    site: &mut Store,
    identity: &Identity,
    seconds: u64,
) -> Result<(), CompactingFault>
    ensures compacted { OnOk result (Compacts (P.named place.old) (P.named place.new)
        config.now site.old site.new) }
    ensures either { OnErr result ((P.named place.new ≡ P.named place.old)
        ⊎ Compacts (P.named place.old) (P.named place.new) config.now site.old site.new) }
{
    let device = place.open()?;
    let old = restore_journal(heap, device, keeper, site)?;
    replace(heap, place, &old, config, site, identity, seconds)
}

/// A journal of the edits that lead from the configuration's site to another takes the place of an open one. Where that fails the file
/// beside it goes.
fn replace<P: Place>(
    heap: Heap,
    place: &mut P,
    old: &P::Device,
    config: &Store,
    site: &Store,
    identity: &Identity,
    seconds: u64,
) -> Result<(), CompactingFault>
    ensures compacted { OnOk result
        (HoldsSite (P.named place.new) config.now site.now.site) }
    ensures either { OnErr result ((P.named place.new ≡ P.named place.old)
        ⊎ HoldsSite (P.named place.new) config.now site.now.site) }
{
    match write_beside(heap, place, old, config, site, identity, seconds) {
        Ok(()) => Ok(()),
        Err(fault) => {
            place.give_up();
            Err(fault)
        }
    }
}

/// Writes the new journal into a file beside the old one, which then takes its name. All of it is on the disk before that, with its
/// reserve, and both files are open until it has the name.
fn write_beside<P: Place>(
    heap: Heap,
    place: &mut P,
    old: &P::Device,
    config: &Store,
    site: &Store,
    identity: &Identity,
    seconds: u64,
) -> Result<(), CompactingFault>
    ensures compacted { OnOk result
        (HoldsSite (P.named place.new) config.now site.now.site) }
    ensures either { OnErr result ((P.named place.new ≡ P.named place.old)
        ⊎ HoldsSite (P.named place.new) config.now site.now.site) }
{
    let device = place.beside(old)?;
    let journal = write_journal(heap, device, config, site, identity, seconds)?;
    place.take_name(&journal)?;
    Ok(())
}
