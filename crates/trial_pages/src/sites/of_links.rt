//! What the links of a page lead to.

use crate::sites::page::{Kind, page_of};
use crate::sites::stop::Stop;
use doc_page_parts::failure::Memory;
use doc_page_parts::heap::{Heap, String, Vec};
use doc_page_parts::path::Path;
use doc_page_parts::rendered::{Piece, Rendered};
use doc_page_parts::sight::Sight;
use doc_resolve::{decisions, goals_of, kinds};
use std::fmt::Debug;

/// `DESTINATION | ..`: what the links of a page to these destinations lead to.
pub fn kinds_told(heap: Heap, page: &Path, dests: &str) -> Result<String, Stop> {
    let rendered = page_of(heap, Kind::Links, dests)?;
    let kinds = kinds(heap, page, rendered.pieces.get());
    drop(rendered);
    listed(heap, kinds)
}

/// `DESTINATION | ..`: the pages that they lead to for a reader.
pub fn links_told<S: Sight>(
    heap: Heap,
    name: &str,
    page: &Path,
    sight: &S,
    dests: &str,
) -> Result<String, Stop> {
    let rendered = page_of(heap, Kind::Links, dests)?;
    let told = match name {
        "goals" => goals_told(heap, page, sight, rendered.pieces.get()),
        "decisions" => decisions_told(heap, page, sight, &rendered),
        _ => Err(Stop::NoCall),
    };
    drop(rendered);
    told
}

fn goals_told<S: Sight>(
    heap: Heap,
    page: &Path,
    sight: &S,
    pieces: &[Piece],
) -> Result<String, Stop> {
    let links = kinds(heap, page, pieces)?;
    let goals = goals_of(heap, &links, sight);
    drop(links);
    listed(heap, goals)
}

fn decisions_told<S: Sight>(
    heap: Heap,
    page: &Path,
    sight: &S,
    rendered: &Rendered,
) -> Result<String, Stop> {
    let all = decisions(heap, page, rendered, sight)?;
    listed(heap, Ok(all.into_inner()))
}

/// What is printed for values, where memory did not run out for them.
fn listed<T: Debug + Drop>(heap: Heap, made: Result<Vec<T>, Memory>) -> Result<String, Stop> {
    let all = made?;
    let told = shown_each(heap, &all);
    drop(all);
    told
}

fn shown_each<T: Debug>(heap: Heap, all: &[T]) -> Result<String, Stop> {
    Ok(format!(in heap; "{all:?}")?)
}
