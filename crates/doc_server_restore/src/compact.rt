//! A journal whose edits lead from one site to another.

ghost use Rattle.std.specs.Prelude.{◌≡◌, ◌++◌, ◌∷◌, [], ◌||◌, List, Some, false, true, OnOk, IfOk};
ghost use Rattle.std.specs.FinMap as map;
ghost use Rattle.std.specs.List.{flat_map};
ghost use Rattle.doc_store_readers.specs.Groups.{texts_of};
ghost use Rattle.doc_store.specs.Names.{aliases_of};
ghost use Rattle.doc_store.specs.Store.{remove_page};
ghost use Rattle.doc_store.specs.declared.site_edit.SiteEdit.{SiteEdit};
ghost use Rattle.doc_server_script.specs.Compactions.{compacted, made, other_pages, same_at, same_pages, same_texts};
ghost use Rattle.doc_server_restore.specs.Written.{IsWritten};
ghost use Rattle.doc_server_restore.specs.WriterSteps.{HasWritten, IsWriter, Wrote, removals, unless_same};

use crate::compact_fault::CompactFault;
use crate::writer::EditWriter;
use doc_page_parts::failure::Memory;
use doc_page_parts::heap::{Heap, String, Vec};
use doc_page_parts::path::Path;
use doc_server_journal::device::Device;
use doc_server_journal::journal::Journal;
use doc_server_journal_records::header::Identity;
use doc_store::page::Page;
use doc_store::store::Store;

/// Writes a journal of this identity to an empty device: records of whole lines, one line for each edit that leads from a
/// configuration's site to another. They are of so many seconds behind the beginning of 1970. At `Ok` all of it is on the device. Why it
/// was refused no clause says.
pub fn compact<D: Device + Drop>(
    heap: Heap,
    config: &Store,
    site: &Store,
    device: D,
    identity: &Identity,
    seconds: u64,
) -> Result<Journal<D>, CompactFault>
    requires usable { D.failed device ≡ false }
    ensures { IfOk result (λ journal.
        IsWritten D.seen D.may_leave D.failed D.stale journal
        (compacted config.now.site site.now.site)) }
{
    let mut writer = begin(heap, device, identity, seconds)?;
    write_removals(heap, config, site, &mut writer)?;
    write_pages(heap, config, site, &mut writer)?;
    finish(heap, writer)
}

/// A journal without records on an empty device.
fn begin<D: Device + Drop>(
    heap: Heap,
    device: D,
    identity: &Identity,
    seconds: u64,
) -> Result<EditWriter<D>, CompactFault>
    requires usable { D.failed device ≡ false }
    ensures { IfOk result (λ writer. HasWritten D.seen D.may_leave D.failed D.stale writer []) }
{
    match Journal::make(heap, device, identity) {
        Ok(journal) => Ok(EditWriter {
            journal,
            text: String::new(heap),
            seconds,
        }),
        Err(refused) => Err(CompactFault::from(refused.fault)),
    }
}

/// Writes the removals of the pages that the configuration gives otherwise than the site has them.
fn write_removals<D: Device + Drop>(
    heap: Heap,
    config: &Store,
    site: &Store,
    writer: &mut EditWriter<D>,
) -> Result<(), CompactFault>
    requires { IsWriter D.seen D.may_leave D.failed D.stale writer.old }
    ensures { OnOk result (Wrote D.seen D.may_leave D.failed D.stale writer.old writer.new
        (removals (other_pages config.now.site site.now.site config.now.site.pages))) }
{
    'entries: for (path, _page) in config.pages() {
        write_removal(heap, config, site, path, writer)?;
    }
    Ok(())
}

/// Writes the removal of a page, unless both sites have it so.
fn write_removal<D: Device + Drop>(
    heap: Heap,
    config: &Store,
    site: &Store,
    path: &Path,
    writer: &mut EditWriter<D>,
) -> Result<(), CompactFault>
    requires writer { IsWriter D.seen D.may_leave D.failed D.stale writer.old }
    requires stands { map.contains_key config.now.site.pages path.now ≡ true }
    ensures { OnOk result (Wrote D.seen D.may_leave D.failed D.stale writer.old writer.new
        (unless_same config.now.site site.now.site path.now (remove_page path.now ∷ []))) }
{
    if same_at(config, site, path)? {
        return Ok(());
    }
    writer.remove(heap, path)
}

/// Writes the edits that make the pages that the site has otherwise than the configuration gives them.
fn write_pages<D: Device + Drop>(
    heap: Heap,
    config: &Store,
    site: &Store,
    writer: &mut EditWriter<D>,
) -> Result<(), CompactFault>
    requires { IsWriter D.seen D.may_leave D.failed D.stale writer.old }
    ensures { OnOk result (Wrote D.seen D.may_leave D.failed D.stale writer.old writer.new
        (flat_map (made site.now.site)
        (other_pages config.now.site site.now.site site.now.site.pages))) }
{
    'entries: for (path, page) in site.pages() {
        write_page(heap, config, site, path, page, writer)?;
    }
    Ok(())
}

/// Writes the edits that make a page, unless both sites have it so.
fn write_page<D: Device + Drop>(
    heap: Heap,
    config: &Store,
    site: &Store,
    path: &Path,
    page: &Page,
    writer: &mut EditWriter<D>,
) -> Result<(), CompactFault>
    requires writer { IsWriter D.seen D.may_leave D.failed D.stale writer.old }
    requires stands { map.contains_key site.now.site.pages path.now ≡ true }
    ensures { OnOk result (Wrote D.seen D.may_leave D.failed D.stale writer.old writer.new
        (unless_same config.now.site site.now.site path.now
        (made site.now.site (path.now, page.now.page)))) }
{
    if same_at(config, site, path)? {
        return Ok(());
    }
    let names = names_of(site, path)?;
    writer.make_along(heap, page, names.as_slice())
}

/// Whether two sites have the same page under a path, with the same aliases. A page stands there in one of them.
fn same_at(config: &Store, site: &Store, path: &Path) -> Result<bool, Memory>
    requires stands { (map.contains_key config.now.site.pages path.now
        || map.contains_key site.now.site.pages path.now) ≡ true }
    ensures { IfOk result (λ same. same ≡ same_at config.now.site site.now.site path.now) }
{
    let Some(page) = config.get(path) else {
        return Ok(false);
    };
    let Some(other) = site.get(path) else {
        return Ok(false);
    };
    if !is_same_page(page, other) {
        return Ok(false);
    }
    let names = config.names_of(path)?;
    let others = site.names_of(path)?;
    Ok(are_same_names(names.as_slice(), others.as_slice()))
}

fn is_same_page(page: &Page, other: &Page) -> bool
    ensures { result ≡ same_pages (Some page.now.page) (Some other.now.page) }
{
    page.groups() == other.groups() && page.text() == other.text()
}

fn are_same_names(names: &[&Path], others: &[&Path]) -> bool
    ensures { result ≡ same_texts (texts_of names.now) (texts_of others.now) }
{
    names == others
}

/// The names of a page, its path behind its aliases.
fn names_of<'a>(site: &'a Store, path: &Path) -> Result<Vec<&'a Path>, Memory>
    requires stands { map.contains_key site.now.site.pages path.now ≡ true }
    ensures { IfOk result (λ names. texts_of names.items
        ≡ aliases_of site.now.site.aliases path.now ++ path.now ∷ []) }
{
    let mut names = site.names_of(path)?;
    names.rotate_left(1);
    Ok(names)
}

/// The journal, with a record of the lines that are in none yet, where there are any.
fn finish<D: Device + Drop>(heap: Heap, writer: EditWriter<D>) -> Result<Journal<D>, CompactFault>
    requires { IsWriter D.seen D.may_leave D.failed D.stale writer }
    ensures { (edits : List SiteEdit) → HasWritten D.seen D.may_leave D.failed D.stale writer edits
        → IfOk result (λ journal. IsWritten D.seen D.may_leave D.failed D.stale journal edits) }
{
    let mut writer = writer;
    if writer.text.is_empty() {
        return Ok(writer.journal);
    }
    writer.end_record(heap)?;
    Ok(writer.journal)
}
