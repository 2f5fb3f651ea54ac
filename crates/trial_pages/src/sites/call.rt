//! The calls by their names.

use crate::sites::given::Trial;
use crate::sites::of_paths::at_path;
use crate::sites::of_readers::{asked_by, behind_token};
use crate::sites::of_references::resolved;
use crate::sites::of_site::Site;
use crate::sites::of_words::{query_told, words_told};
use crate::sites::stop::{Stop, told, told_whether, written};
use crate::sites::{of_cache, of_keys};
use doc_page_parts::heap::{Heap, String};
use doc_store::reader::Reader;

/// What a call answers.
pub fn called(trial: &mut Trial, name: &str, given: &str) -> Result<String, Stop> {
    let heap = trial.heap;
    match name {
        "resolve" => resolved(heap, given),
        "words" => words_told(heap, given),
        "query" => query_told(heap, given),
        "new" => renewed(trial),
        "next_stamp" => written(heap, trial.site.store.next_stamp()),
        "watch" => watch(trial, given),
        "asked" => asked(trial),
        _ => of_tokens(trial, name, given),
    }
}

/// Begins an empty site.
fn renewed(trial: &mut Trial) -> Result<String, Stop> {
    trial.site = Site::new(trial.heap);
    told(trial.heap, "()")
}

/// `PATH`: counts from now on how often a question asks whether the page of this path is seen.
fn watch(trial: &mut Trial, given: &str) -> Result<String, Stop> {
    trial.watched = String::from_str(trial.heap, given)?;
    told(trial.heap, "()")
}

/// How often the last question asked that.
fn asked(trial: &Trial) -> Result<String, Stop> {
    if trial.asked <= 1 {
        return written(trial.heap, "at most once");
    }
    written(trial.heap, trial.asked)
}

/// A call of the readers: `reader TOKEN` is who the token stands for, `remove_reader TOKEN` whether it stood for one.
fn of_tokens(trial: &mut Trial, name: &str, given: &str) -> Result<String, Stop> {
    let heap = trial.heap;
    match name {
        "reader" => reader_told(heap, trial.readers.find(given)),
        "remove_reader" => told_whether(heap, trial.readers.remove(given)),
        "set_reader" | "find_reader" => behind_token(heap, &mut trial.readers, name, given),
        _ => of_keys(trial, name, given),
    }
}

fn reader_told(heap: Heap, reader: Option<&Reader>) -> Result<String, Stop> {
    Ok(format!(in heap; "{reader:?}")?)
}

/// A call of the index by key.
fn of_keys(trial: &mut Trial, name: &str, given: &str) -> Result<String, Stop> {
    let heap = trial.heap;
    match name {
        "index" => of_keys::renewed(heap, &mut trial.index),
        "enter" => of_keys::entered(heap, &mut trial.index, given),
        "copy" => of_keys::copied(heap, &mut trial.index, given),
        "drop" => of_keys::dropped(heap, &mut trial.index, given),
        "pages" => of_keys::listed(heap, &trial.index, None),
        "key" => of_keys::listed(heap, &trial.index, Some(given)),
        _ => of_cache(trial, name, given),
    }
}

/// A call of the cache.
fn of_cache(trial: &mut Trial, name: &str, given: &str) -> Result<String, Stop> {
    let heap = trial.heap;
    match name {
        "cache" => of_cache::renewed(heap, &mut trial.cache, given),
        "keep" => of_cache::kept(heap, &mut trial.cache, given),
        "look" => of_cache::looked(heap, &mut trial.cache, given),
        _ => of_pages(trial, name, given),
    }
}

/// A call that is given a reader, or else a path.
fn of_pages(trial: &mut Trial, name: &str, given: &str) -> Result<String, Stop> {
    match name {
        "goal" | "sees" | "show" | "goals" | "decisions" => asked_by(trial, name, given),
        "contents" | "report" | "search" | "search_among" => asked_by(trial, name, given),
        "backlinks" | "backlinks_under" => asked_by(trial, name, given),
        _ => at_path(trial.heap, &mut trial.site, name, given),
    }
}
