//! Calls of an index of pages, each held under a path and a stamp with a number as its value. Paths and keys have no spaces here.

use crate::sites::given::{last_word_of, number_of, path_of, word_of};
use crate::sites::stop::{Stop, told, told_whether};
use doc_index::held::Held;
use doc_index::index::Index;
use doc_page_parts::failure::Memory;
use doc_page_parts::heap::{BTreeMap, Heap, String};
use doc_page_parts::path::Path;

/// Begins an empty index.
pub fn renewed(heap: Heap, index: &mut Index<u64>) -> Result<String, Stop> {
    *index = Index::new(heap);
    told(heap, "()")
}

/// A path and a stamp.
#[derive(Drop)]
struct Place {
    path: Path,
    stamp: u64,
}

/// What begins with a path and a stamp, and the words behind them.
fn place_of(heap: Heap, given: &str) -> Result<(Place, &str), Stop> {
    let (path, rest) = word_of(given)?;
    let (stamp, rest) = last_word_of(rest);
    let stamp = number_of(stamp)?;
    let path = path_of(heap, path)?;
    Ok((Place { path, stamp }, rest))
}

/// `PATH STAMP VALUE KEY:COUNT ..`: holds a page, and answers whether there was none under that path and stamp.
pub fn entered(heap: Heap, index: &mut Index<u64>, given: &str) -> Result<String, Stop> {
    let (place, rest) = place_of(heap, given)?;
    let is_free = enter(heap, index, &place, rest);
    drop(place);
    told_whether(heap, is_free?)
}

fn enter(heap: Heap, index: &mut Index<u64>, place: &Place, rest: &str) -> Result<bool, Stop> {
    let (value, keys) = last_word_of(rest);
    let value = number_of(value)?;
    let keys = keys_of(heap, keys)?;
    let is_free = add(index, place, value, &keys);
    drop(keys);
    Ok(is_free?)
}

fn add(
    index: &mut Index<u64>,
    place: &Place,
    value: u64,
    keys: &BTreeMap<String, u64>,
) -> Result<bool, Memory> {
    if index.get(&place.path, place.stamp).is_some() {
        return Ok(false);
    }
    index.add(&place.path, place.stamp, value, keys)?;
    Ok(true)
}

fn keys_of(heap: Heap, given: &str) -> Result<BTreeMap<String, u64>, Stop> {
    let mut keys = BTreeMap::new(heap);
    add_keys(heap, &mut keys, given)?;
    Ok(keys)
}

fn add_keys(heap: Heap, keys: &mut BTreeMap<String, u64>, given: &str) -> Result<(), Stop> {
    for key in given.split(' ') {
        add_key(heap, keys, key)?;
    }
    Ok(())
}

/// `KEY:COUNT`; anything else is no key.
fn add_key(heap: Heap, keys: &mut BTreeMap<String, u64>, given: &str) -> Result<(), Stop> {
    let Some((key, count)) = given.split_once(':') else {
        return Ok(());
    };
    let count = number_of(count)?;
    let key = String::from_str(heap, key)?;
    keys.insert(key, count)?;
    Ok(())
}

/// `PATH STAMP PATH STAMP VALUE`: holds a page with the keys of another, and answers likewise.
pub fn copied(heap: Heap, index: &mut Index<u64>, given: &str) -> Result<String, Stop> {
    let (from, rest) = place_of(heap, given)?;
    let is_free = copy_from(heap, index, &from, rest);
    drop(from);
    told_whether(heap, is_free?)
}

fn copy_from(heap: Heap, index: &mut Index<u64>, from: &Place, rest: &str) -> Result<bool, Stop> {
    let (to, value) = place_of(heap, rest)?;
    let is_free = copy_to(index, from, &to, value);
    drop(to);
    is_free
}

fn copy_to(index: &mut Index<u64>, from: &Place, to: &Place, value: &str) -> Result<bool, Stop> {
    let value = number_of(value)?;
    if index.get(&to.path, to.stamp).is_some() {
        return Ok(false);
    }
    index.add_copy(&from.path, from.stamp, &to.path, to.stamp, value)?;
    Ok(true)
}

/// `PATH STAMP`: whether a page was there.
pub fn dropped(heap: Heap, index: &mut Index<u64>, given: &str) -> Result<String, Stop> {
    let (place, _) = place_of(heap, given)?;
    let was_there = index.drop_page(&place.path, place.stamp);
    drop(place);
    told_whether(heap, was_there)
}

/// The pages with their values, or those that have a key with its counts.
pub fn listed(heap: Heap, index: &Index<u64>, key: Option<&str>) -> Result<String, Stop> {
    let slots = index.in_order(heap)?;
    let told = told_of(heap, index, &slots, key);
    drop(slots);
    Ok(told?)
}

fn told_of(
    heap: Heap,
    index: &Index<u64>,
    slots: &[u64],
    key: Option<&str>,
) -> Result<String, Memory> {
    let mut out = String::new(heap);
    push_pages(&mut out, index, slots, key)?;
    Ok(out)
}

fn push_pages(
    out: &mut String,
    index: &Index<u64>,
    slots: &[u64],
    key: Option<&str>,
) -> Result<(), Memory> {
    for slot in slots {
        push_slot(out, index, *slot, key)?;
    }
    Ok(())
}

fn push_slot(
    out: &mut String,
    index: &Index<u64>,
    slot: u64,
    key: Option<&str>,
) -> Result<(), Memory> {
    let Some(page) = index.slot(slot as usize) else {
        return Ok(());
    };
    match key {
        None => push_page(out, page, page.value),
        Some(key) => push_with_key(out, index, slot, page, key),
    }
}

fn push_with_key(
    out: &mut String,
    index: &Index<u64>,
    slot: u64,
    page: &Held<u64>,
    key: &str,
) -> Result<(), Memory> {
    let Some(row) = index.of_key(key) else {
        return Ok(());
    };
    match row.get(slot) {
        Some(count) => push_page(out, page, count),
        None => Ok(()),
    }
}

/// Writes a page with its number.
fn push_page(out: &mut String, page: &Held<u64>, number: u64) -> Result<(), Memory> {
    if !out.is_empty() {
        out.push_str(", ")?;
    }
    out.push_str(page.path.text())?;
    let stamp = page.stamp;
    write!(out, " {stamp} {number}")?;
    Ok(())
}
