//! Calls that are given a path and what stands behind it.

use crate::sites::given::{groups_of, last_of_two, path_of};
use crate::sites::of_links::kinds_told;
use crate::sites::of_site::Site;
use crate::sites::stop::{Stop, answered, told, told_whether, written, written_made};
use doc_page_parts::heap::{Heap, String};
use doc_page_parts::path::Path;
use doc_resolve::classify;
use doc_store::groups::Groups;
use doc_store::moving::MoveError;
use doc_store::page::Page;
use doc_store::store::EditError;

/// `PATH` or `PATH | REST`.
pub fn at_path(heap: Heap, site: &mut Site, name: &str, given: &str) -> Result<String, Stop> {
    let (path, rest) = last_of_two(given);
    let path = path_of(heap, path)?;
    let told = of_path(heap, site, name, &path, rest);
    drop(path);
    told
}

/// - `classify PAGE | DESTINATION`: what a destination in a page leads to. `kinds PAGE | DESTINATION | ..`: what its links lead to.
/// - `add_links PATH`, `add_words PATH`: holds a page of the store in the index of links, or of words.
/// - Others are of the store or the site.
fn of_path(
    heap: Heap,
    site: &mut Site,
    name: &str,
    path: &Path,
    rest: &str,
) -> Result<String, Stop> {
    match name {
        "classify" => written_made(heap, classify(heap, path, rest)),
        "kinds" => kinds_told(heap, path, rest),
        "add_links" | "add_words" => held(heap, site, name, path),
        _ => of_store(heap, site, name, path, rest),
    }
}

fn held(heap: Heap, site: &mut Site, name: &str, path: &Path) -> Result<String, Stop> {
    site.hold(heap, path, name)?;
    told(heap, "()")
}

/// - `get PATH`: the stamp and the text of a page, and `page PATH` all of it. `is_for PATH | GROUPS`: whether these are its groups.
/// - `fits PATH | TEXT`: what a put would be refused for. `may_move FROM | TO`: what a move would be.
/// - `put PATH | GROUPS | TEXT`, `move FROM | TO`, `remove PATH`: edits of the store and of both indexes.
/// - `store PATH | GROUPS | TEXT`, `store_move FROM | TO`, `store_remove PATH`: the same edits of the store alone.
fn of_store(
    heap: Heap,
    site: &mut Site,
    name: &str,
    path: &Path,
    rest: &str,
) -> Result<String, Stop> {
    match name {
        "get" => written(heap, stamp_and_text(site.store.get(path))),
        "page" => page_told(heap, site.store.get(path)),
        "fits" => answered(heap, site.store.fits(path, rest), EditError::Memory),
        "store_remove" => told_whether(heap, site.store.remove(path)),
        "remove" => told_whether(heap, site.remove(path)),
        "may_move" | "store_move" | "move" => to_path(heap, site, name, path, rest),
        "is_for" | "store" | "put" => for_groups(heap, site, name, path, rest),
        _ => Err(Stop::NoCall),
    }
}

fn page_told(heap: Heap, page: Option<&Page>) -> Result<String, Stop> {
    Ok(format!(in heap; "{page:?}")?)
}

fn stamp_and_text<'a>(page: Option<&'a Page>) -> Option<(u64, &'a str)> {
    match page {
        Some(page) => Some((page.stamp(), page.text())),
        None => None,
    }
}

fn to_path(heap: Heap, site: &mut Site, name: &str, from: &Path, to: &str) -> Result<String, Stop> {
    let to = path_of(heap, to)?;
    let moved = match name {
        "may_move" => Ok(site.store.may_move(from, &to)),
        "store_move" => Ok(site.store.move_page(from, &to)),
        _ => site.move_page(heap, from, &to),
    };
    drop(to);
    answered(heap, moved?, MoveError::Memory)
}

fn for_groups(
    heap: Heap,
    site: &mut Site,
    name: &str,
    path: &Path,
    given: &str,
) -> Result<String, Stop> {
    let (groups, text) = last_of_two(given);
    let groups = groups_of(heap, groups)?;
    let told = match name {
        "is_for" => is_for(heap, site.store.get(path), &groups),
        "store" => answered(heap, site.store.put(path, &groups, text), EditError::Memory),
        _ => put(heap, site, path, &groups, text),
    };
    drop(groups);
    told
}

fn is_for(heap: Heap, page: Option<&Page>, groups: &Groups) -> Result<String, Stop> {
    match page {
        Some(page) => written(heap, *page.groups() == *groups),
        None => written(heap, "no page"),
    }
}

fn put(
    heap: Heap,
    site: &mut Site,
    path: &Path,
    groups: &Groups,
    text: &str,
) -> Result<String, Stop> {
    let put = site.put(heap, path, groups, text)?;
    answered(heap, put, EditError::Memory)
}
