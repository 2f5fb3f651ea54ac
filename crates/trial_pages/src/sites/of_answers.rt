//! What the indexes answer a reader.

ghost use Rattle.doc_links_pages.specs.PageLinks.{IsOnce};

use crate::sites::counting::Counting;
use crate::sites::of_postings::search_among;
use crate::sites::stop::{Stop, written};
use doc_links::{Broken, Entry, LinkIndex};
use doc_listings::{push_backlinks, push_contents, push_hits, push_report};
use doc_page_parts::failure::Memory;
use doc_page_parts::heap::{Heap, String};
use doc_page_parts::path::Path;
use doc_words::hit::Hit;
use doc_words::index::WordIndex;
use doc_words::query::{QueryError, query};
use doc_words::word::Word;
use trial::answer::shown;

/// The text of the contents.
pub fn contents(heap: Heap, links: &LinkIndex, sight: &Counting) -> Result<String, Memory> {
    let all = links.contents(sight)?;
    let told = contents_of(heap, all.get());
    drop(all);
    told
}

fn contents_of(heap: Heap, all: &[Entry]) -> Result<String, Memory> {
    let mut out = String::new(heap);
    let pushed = push_contents(heap, &mut out, all);
    text_told(heap, pushed, out)
}

/// The text of the report.
pub fn report(heap: Heap, links: &LinkIndex, sight: &Counting) -> Result<String, Memory>
    requires once { IsOnce links.now }
{
    let all = links.broken(sight)?;
    let told = report_of(heap, all.get());
    drop(all);
    told
}

fn report_of(heap: Heap, all: &[Broken]) -> Result<String, Memory> {
    let mut out = String::new(heap);
    let pushed = push_report(heap, &mut out, all);
    text_told(heap, pushed, out)
}

/// The text of the pages with links to this one.
pub fn backlinks_to(
    heap: Heap,
    links: &LinkIndex,
    sight: &Counting,
    target: &Path,
) -> Result<String, Stop>
    requires once { IsOnce links.now }
{
    let all = links.backlinks(target, sight)?;
    let told = sources_told(heap, all.get());
    drop(all);
    Ok(told?)
}

/// The text of pages with the numbers of their links.
pub fn sources_told(heap: Heap, all: &[(Path, u64)]) -> Result<String, Memory> {
    let mut out = String::new(heap);
    let pushed = push_backlinks(heap, &mut out, all);
    text_told(heap, pushed, out)
}

/// `search QUERY`: the text of the pages that have its words, or why it has none. `search_among`: the same, asked as [`search_among`] says.
pub fn search(
    heap: Heap,
    words: &WordIndex,
    sight: &Counting,
    name: &str,
    text: &str,
) -> Result<String, Stop> {
    match query(heap, text) {
        Ok(query) => {
            let told = match name {
                "search" => search_for(heap, words, sight, query.get()),
                _ => search_among(heap, words, sight, query.get()),
            };
            drop(query);
            told
        }
        Err(QueryError::Memory) => Err(Stop::Refused),
        Err(e) => written(heap, e),
    }
}

fn search_for(
    heap: Heap,
    words: &WordIndex,
    sight: &Counting,
    query: &[Word],
) -> Result<String, Stop> {
    let all = words.search(heap, query, sight)?;
    let told = hits_told(heap, all.get());
    drop(all);
    Ok(told?)
}

/// The text of the pages that a search found.
pub fn hits_told(heap: Heap, all: &[Hit]) -> Result<String, Memory> {
    let mut out = String::new(heap);
    let pushed = push_hits(heap, &mut out, all);
    text_told(heap, pushed, out)
}

/// What is printed for a text once it is written.
fn text_told(heap: Heap, pushed: Result<(), Memory>, text: String) -> Result<String, Memory> {
    let told = match pushed {
        Ok(()) => shown(heap, text.as_str()),
        Err(Memory) => Err(Memory),
    };
    drop(text);
    told
}
