//! Compacting in memory, and the site of a journal's edits.
//!
//! The configuration's site is what the edits of LINES make of none: a text of lines as a record has them.
//!
//! - `compact CALLS DEVICE_CALLS MOST | LINES`: the file is compacted over that site. So many calls for its name go well, and so many of
//!   each file that is opened, which isn't grown past so many bytes. The answer: whether it was compacted, or why not; whether the file
//!   is as it was; and whether one stands beside.
//! - `pages | LINES`: the pages of the site that the edits of the file make of that one: the text of each, its groups, and its names, the
//!   aliases behind the path; or why they aren't made.

use crate::serving::held::replace;
use doc_page_parts::bytes::Bytes;
use doc_page_parts::failure::Memory;
use doc_page_parts::heap::{Heap, String, Vec};
use doc_page_parts::path::Path;
use doc_server_compacting::compacting::compact_file;
use doc_server_compacting::fault::CompactingFault;
use doc_server_compacting::memory_place::MemoryPlace;
use doc_server_compacting::old_journal::restore_journal;
use doc_server_journal::memory::MemoryDevice;
use doc_server_journal::torn::Unkept;
use doc_server_journal_records::header::Identity;
use doc_server_restore::fault::RestoreFault;
use doc_server_restore::restore::restore;
use doc_store::page::Page;
use doc_store::store::Store;
use trial::answer::no_call;

/// What a compaction is asked to do.
#[derive(Clone, Copy)]
struct Asked<'a> {
    calls: u64,
    device_calls: u64,
    most: usize,
    lines: &'a str,
}

/// The configuration's site, and that on which the edits of the file are made.
#[derive(Drop)]
struct Sites {
    config: Store,
    site: Store,
}

/// Compacts the file, and tells what came of that.
pub fn compacted(heap: Heap, given: &str, file: &mut Vec<u8>) -> Result<String, Memory> {
    let Some(asked) = asked_of(given) else {
        return no_call(heap);
    };
    match sites_of(heap, asked.lines)? {
        Some(sites) => compacted_over(heap, asked, sites, file),
        None => no_call(heap),
    }
}

/// The same over these sites.
fn compacted_over(
    heap: Heap,
    asked: Asked<'_>,
    sites: Sites,
    file: &mut Vec<u8>,
) -> Result<String, Memory> {
    let Ok(bytes) = Bytes::copy_of(heap, file.as_slice()) else {
        drop(sites);
        return Err(Memory);
    };
    let mut place = MemoryPlace::new(heap, bytes, asked.calls, asked.device_calls, asked.most);
    let ended = compact(heap, &mut place, sites);
    let told = told(heap, ended, &place, file.as_slice());
    let kept = keep(heap, &place, file);
    drop(place);
    match kept {
        Ok(()) => told,
        Err(Memory) => {
            drop(told);
            Err(Memory)
        }
    }
}

fn asked_of(given: &str) -> Option<Asked<'_>> {
    let (line, lines) = given.split_once(" | ")?;
    let (calls, rest) = line.split_once(' ')?;
    let (device_calls, most) = rest.split_once(' ')?;
    Some(Asked {
        calls: calls.parse::<u64>().ok()?,
        device_calls: device_calls.parse::<u64>().ok()?,
        most: most.parse::<usize>().ok()?,
        lines,
    })
}

fn compact(heap: Heap, place: &mut MemoryPlace, sites: Sites) -> Result<(), CompactingFault> {
    let Sites { config, mut site } = sites;
    let identity = Identity::of(&[1; 16]);
    let ended = compact_file(heap, place, &mut Unkept, &config, &mut site, &identity, 0);
    drop(config);
    drop(site);
    ended
}

fn told(
    heap: Heap,
    ended: Result<(), CompactingFault>,
    place: &MemoryPlace,
    before: &[u8],
) -> Result<String, Memory> {
    let mut out = String::new(heap);
    match ended {
        Ok(()) => out.push_str("compacted")?,
        Err(fault) => write!(out, "refused: {fault}")?,
    }
    if place.bytes() == before {
        out.push_str(", as before")?;
    }
    if place.has_beside() {
        out.push_str(", one beside")?;
    }
    Ok(out)
}

/// The file is what the name leads to now.
fn keep(heap: Heap, place: &MemoryPlace, file: &mut Vec<u8>) -> Result<(), Memory> {
    if place.bytes() == file.as_slice() {
        return Ok(());
    }
    replace(heap, file, place.bytes())
}

/// The site that the edits of lines make of none, twice. None: they make none.
fn sites_of(heap: Heap, lines: &str) -> Result<Option<Sites>, Memory> {
    let Some(config) = site_of(heap, lines)? else {
        return Ok(None);
    };
    match site_of(heap, lines) {
        Ok(Some(site)) => Ok(Some(Sites { config, site })),
        _ => {
            drop(config);
            Err(Memory)
        }
    }
}

/// The site that the edits of lines make of none. None: they make none.
pub fn site_of(heap: Heap, lines: &str) -> Result<Option<Store>, Memory> {
    let record = Bytes::copy_of(heap, lines.as_bytes())?;
    let mut site = Store::new(heap);
    let restored = restore_one(heap, &mut site, record);
    match restored {
        Ok(()) => Ok(Some(site)),
        Err(RestoreFault::Memory) => {
            drop(site);
            Err(Memory)
        }
        Err(_) => {
            drop(site);
            Ok(None)
        }
    }
}

/// Makes the edits of a record on a site. An empty one has none.
fn restore_one(heap: Heap, site: &mut Store, record: Bytes) -> Result<(), RestoreFault> {
    if record.get().is_empty() {
        drop(record);
        return Ok(());
    }
    let records = [record];
    let restored = restore(heap, site, &records);
    drop(records);
    restored
}

/// Tells the pages of the site that the edits of a file make of the configuration's.
pub fn pages_told(heap: Heap, given: &str, file: &[u8]) -> Result<String, Memory> {
    match site_of(heap, given.strip_prefix("| ").unwrap_or(given))? {
        Some(site) => pages_of(heap, site, file),
        None => no_call(heap),
    }
}

/// The same over this site.
fn pages_of(heap: Heap, site: Store, file: &[u8]) -> Result<String, Memory> {
    let mut site = site;
    let mut out = String::new(heap);
    let told = push_site(heap, &mut out, &mut site, file);
    drop(site);
    told?;
    Ok(out)
}

fn push_site(heap: Heap, out: &mut String, site: &mut Store, file: &[u8]) -> Result<(), Memory> {
    match restore_file(heap, site, file)? {
        Ok(()) => push_pages(out, site),
        Err(fault) => {
            write!(out, "refused: {fault}")?;
            Ok(())
        }
    }
}

/// Makes the edits of a file on a site.
fn restore_file(
    heap: Heap,
    site: &mut Store,
    file: &[u8],
) -> Result<Result<(), CompactingFault>, Memory> {
    let device = MemoryDevice::new(heap, Bytes::copy_of(heap, file)?, u64::MAX, 0)?;
    match restore_journal(heap, device, &mut Unkept, site) {
        Ok(device) => {
            drop(device);
            Ok(Ok(()))
        }
        Err(fault) => Ok(Err(fault)),
    }
}

fn push_pages(out: &mut String, site: &Store) -> Result<(), Memory> {
    for (path, page) in site.pages() {
        push_page(out, site, path, page)?;
    }
    Ok(())
}

fn push_page(out: &mut String, site: &Store, path: &Path, page: &Page) -> Result<(), Memory> {
    let text = page.text();
    write!(out, "{text:?}")?;
    for group in page.groups().names() {
        write!(out, " {group:?}")?;
    }
    out.push_str(" at")?;
    let names = site.names_of(path)?;
    let pushed = push_names(out, names.as_slice());
    drop(names);
    pushed
}

fn push_names(out: &mut String, names: &[&Path]) -> Result<(), Memory> {
    for name in names {
        let name = name.text();
        write!(out, " {name:?}")?;
    }
    out.push_str("; ")?;
    Ok(())
}
