//! What a site answers a reader, who is `owner` or has groups, and the readers of tokens.

use crate::sites::counting::Counting;
use crate::sites::given::{Trial, last_of_two, path_of, reader_of, two};
use crate::sites::of_answers::{backlinks_to, contents, report, search};
use crate::sites::of_links::links_told;
use crate::sites::of_postings;
use crate::sites::stop::{Stop, answered, written, written_made};
use doc_page_parts::heap::{Heap, String};
use doc_page_parts::linker::Linker;
use doc_page_parts::path::Path;
use doc_page_parts::sight::Sight;
use doc_resolve::SiteLinker;
use doc_store::reader::Reader;
use doc_store::readers::{ReaderError, Readers};

/// `TOKEN | READER`.
pub fn behind_token(
    heap: Heap,
    readers: &mut Readers,
    name: &str,
    given: &str,
) -> Result<String, Stop> {
    let (token, reader) = two(given)?;
    let reader = reader_of(heap, reader)?;
    let told = of_token(heap, readers, name, token, &reader);
    drop(reader);
    told
}

/// `set_reader`, or whether that is the reader of a token.
fn of_token(
    heap: Heap,
    readers: &mut Readers,
    name: &str,
    token: &str,
    reader: &Reader,
) -> Result<String, Stop> {
    if name == "set_reader" {
        return answered(heap, readers.set(token, reader), ReaderError::Memory);
    }
    match readers.find(token) {
        Some(found) => written(heap, *found == *reader),
        None => written(heap, "no reader"),
    }
}

/// `READER` or `READER | REST`.
pub fn asked_by(trial: &mut Trial, name: &str, given: &str) -> Result<String, Stop> {
    let (reader, rest) = last_of_two(given);
    let reader = reader_of(trial.heap, reader)?;
    let (answer, asked) = answer_of(trial, &reader, name, rest);
    drop(reader);
    trial.asked = asked;
    answer
}

fn answer_of<'a>(
    trial: &'a Trial,
    reader: &'a Reader,
    name: &str,
    rest: &str,
) -> (Result<String, Stop>, u64) {
    let sight = trial.site.store.sight(reader);
    let counting = Counting::new(&sight, &trial.watched);
    let answer = answer_to(trial, reader, &counting, name, rest);
    (answer, counting.asked())
}

fn answer_to(
    trial: &Trial,
    reader: &Reader,
    sight: &Counting,
    name: &str,
    rest: &str,
) -> Result<String, Stop> {
    let indexes = &trial.site.indexes;
    match name {
        "contents" => Ok(contents(trial.heap, indexes.links(), sight)?),
        "report" => Ok(report(trial.heap, indexes.links(), sight)?),
        "search" | "search_among" => search(trial.heap, indexes.words(), sight, name, rest),
        _ => behind_path(trial, reader, sight, name, rest),
    }
}

/// `READER | PATH` or `READER | PATH | REST`.
fn behind_path(
    trial: &Trial,
    reader: &Reader,
    sight: &Counting,
    name: &str,
    given: &str,
) -> Result<String, Stop> {
    let (path, rest) = last_of_two(given);
    let path = path_of(trial.heap, path)?;
    let told = match name {
        "backlinks" => backlinks_to(trial.heap, trial.site.indexes.links(), sight, &path),
        "backlinks_under" => of_postings::backlinks_to(trial.heap, &trial.site, reader, &path),
        _ => of_path(trial.heap, sight, name, &path, rest),
    };
    drop(path);
    told
}

/// - `goal READER | PATH`: the path of the page that a path leads to for a reader, or `nowhere`.
/// - `sees READER | PATH`: whether a reader sees a page there.
/// - `show READER | PAGE | DESTINATION`: how a link of a page is shown to a reader.
/// - `goals READER | PAGE | DESTINATION | ..`: the pages that the links of a page lead to for a reader, who is asked once it is known what
///   they lead to. `decisions ..`: the same by one call.
fn of_path<'a>(
    heap: Heap,
    sight: &'a Counting,
    name: &str,
    path: &'a Path,
    rest: &str,
) -> Result<String, Stop> {
    match name {
        "goal" => goal_told(heap, sight.goal(path)),
        "sees" => written(heap, sight.sees(path)),
        "show" => shown(heap, path, sight, rest),
        _ => links_told(heap, name, path, sight, rest),
    }
}

fn shown<'a>(heap: Heap, page: &'a Path, sight: &'a Counting, dest: &str) -> Result<String, Stop> {
    let linker = SiteLinker::new(page, sight);
    written_made(heap, linker.show(heap, dest))
}

fn goal_told(heap: Heap, goal: Option<&Path>) -> Result<String, Stop> {
    match goal {
        Some(goal) => written(heap, goal.text()),
        None => written(heap, "nowhere"),
    }
}
