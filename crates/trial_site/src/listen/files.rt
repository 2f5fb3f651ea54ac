//! Journals in files of the system (`doc_server_journal`), without a server. The calls are given nothing.
//!
//! - `reopen`: a new journal in a file, to which a record is added, is let go and opened again, to add another. The answer: whether the
//!   file was in use while it was open, and how many records each opening found.
//! - `replace`: a new file, a journal without records, takes the name of another one. The answer: whether the name is in use from then
//!   on, where the other file is let go, and how many bytes the file of the name has once the new one is let go too.

ghost use Rattle.std.specs.Prelude.{◌≡◌, false};
ghost use Rattle.doc_server_journal.specs.FileDevices.{has_failed};

use crate::listen::rooms::{add as add_record, rooms_called};
use doc_page_parts::failure::Memory;
use doc_page_parts::heap::{Heap, String};
use doc_server_journal::file_device::FileDevice;
use doc_server_journal::file_fault::FileFault;
use doc_server_journal::journal::Journal;
use doc_server_journal::names::Replacement;
use doc_server_journal::random::new_identity;
use doc_server_journal::torn::Unkept;
use std::fs::{File, create_dir, metadata, remove_dir_all};
use std::rt::Files;
use trial::answer::shown;

/// The folder that each call makes and removes, and the name of a file in it.
const FOLDER: &str = "trial_site_files";

const NAME: &str = "trial_site_files/journal";

/// How many bytes a file may have.
const MOST: usize = 1000;

/// What a line answers: what it is a call of, or itself.
pub fn files_called<P: AllocGlobal + Files<File = File>>(
    rt: &P,
    heap: Heap,
    line: &str,
) -> Result<String, Memory> {
    match line {
        "reopen" => shown(heap, reopened(rt, heap)),
        "replace" => shown(heap, replaced(rt, heap)),
        _ => match rooms_called(heap, line)? {
            Some(told) => Ok(told),
            None => Ok(String::from_str(heap, line)?),
        },
    }
}

fn reopened<P: AllocGlobal + Files<File = File>>(
    rt: &P,
    heap: Heap,
) -> Option<(bool, usize, usize)> {
    make_folder(rt)?;
    let made = make(rt, heap)?;
    let is_in_use = is_in_use(rt);
    drop(made);
    let first = add(heap, FileDevice::open(rt, NAME).ok()?)?;
    let second = add(heap, FileDevice::open(rt, NAME).ok()?)?;
    remove_dir_all(rt, FOLDER).ok()?;
    Some((is_in_use, first, second))
}

fn replaced<P: AllocGlobal + Files<File = File>>(rt: &P, heap: Heap) -> Option<(bool, u64)> {
    make_folder(rt)?;
    let journal = replace(rt, heap)?;
    let is_in_use = is_in_use(rt);
    drop(journal);
    drop(FileDevice::open(rt, NAME).ok()?);
    let len = metadata(rt, NAME).ok()?.len();
    remove_dir_all(rt, FOLDER).ok()?;
    Some((is_in_use, len))
}

/// Makes the folder, in place of one that is there.
fn make_folder<P: AllocGlobal + Files<File = File>>(rt: &P) -> Option<()> {
    let _ = remove_dir_all(rt, FOLDER);
    create_dir(rt, FOLDER).ok()
}

/// Whether the file is in use.
fn is_in_use<P: Files<File = File>>(rt: &P) -> bool {
    matches!(FileDevice::open(rt, NAME), Err(FileFault::InUse))
}

/// Adds a record to the journal of a device, and answers how many it had.
fn add(heap: Heap, device: FileDevice) -> Option<usize>
    requires usable { has_failed device ≡ false }
{
    let mut opened = Journal::open(heap, device, MOST, &mut Unkept).ok()?;
    let count = opened.texts.get().len();
    let added = add_record(heap, &mut opened.journal);
    drop(opened);
    if added? { Some(count) } else { None }
}

/// A new journal in a file, which is open.
fn make<P: Files<File = File>>(rt: &P, heap: Heap) -> Option<Journal<FileDevice>> {
    let device = FileDevice::make(rt, NAME).ok()?;
    Journal::make(heap, device, &new_identity(rt).ok()?).ok()
}

/// A new file with a journal without records, which has taken the name of another one.
fn replace<P: AllocGlobal + Files<File = File>>(rt: &P, heap: Heap) -> Option<Journal<FileDevice>> {
    let old = make(rt, heap)?;
    let place = Replacement::of(rt, heap, NAME).ok()?;
    let new = old.device.make_like(rt, place.new_name()).ok()?;
    let journal = Journal::make(heap, new, &new_identity(rt).ok()?).ok()?;
    place.take_name(rt).ok()?;
    Some(journal)
}
