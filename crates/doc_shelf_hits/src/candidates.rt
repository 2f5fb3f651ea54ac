//! What a search knows of the pages that a reader sees.

ghost use Rattle.std.specs.Prelude.{◌≡◌, ◌++◌, IfOk, OnOk, map as mapped, option_map};
ghost use Rattle.std.specs.FinMap as map;
ghost use Rattle.doc_people.specs.Views.{rendered_at};
ghost use Rattle.doc_rows.specs.Rows.{IsRows};
ghost use Rattle.doc_shelf_pages.specs.Shelves.{IsKept};
ghost use Rattle.doc_shelf_pages.specs.ViewLaws.{seen_in};
ghost use Rattle.doc_shelf_pages.specs.Views.{Renders, rendered_pages};
ghost use Rattle.doc_shelf_hits.specs.Candidates.{AreKnown, known_at, known_by, known_from, known_of, parts_by, parts_in, parts_of};

use crate::counting::counts_of;
use crate::naming::is_named;
use doc_index_tables::packed::Packed;
use doc_page_parts::failure::Memory;
use doc_page_parts::heap::{Heap, Vec};
use doc_page_parts::path::Path;
use doc_page_parts::rendered::Heading;
use doc_people::term::Term;
use doc_rows::rows::Rows;
use doc_shelf_pages::KeptPages;
use doc_shelf_pages::named::path_named;
use doc_shelf_pages::visible::visible_page;
use doc_store::reader::Reader;
use doc_store::store::Store;

/// A page that a reader sees: how many of its words each term of a search meets, and whether each term meets a word of its title or of its
/// path.
#[derive(Drop)]
pub struct Candidate {
    pub path: Path,
    pub counts: Vec<u64>,
    pub named: bool,
}

/// What is kept of a page for searches.
#[derive(Clone, Copy)]
pub struct Searched<'a> {
    pub headings: &'a [Heading],
    pub words: &'a Packed,
}

/// The pages that the reader sees, in the order of their paths. It walks the reader's own rows, and of the store it looks at these pages
/// alone, each by its path.
pub fn candidates(
    heap: Heap,
    store: &Store,
    kept: &KeptPages,
    rows: &Rows,
    reader: &Reader,
    terms: &[Term],
) -> Result<Vec<Candidate>, Memory>
    ensures { (render : Renders) → IsKept render store.now kept.now
        → IsRows store.now.site.pages rows.now
        → IfOk result (λ all. AreKnown terms.now
        (rendered_pages render (seen_in store.now reader.now)) all.items) }
{
    let paths = rows.paths_seen(heap, reader, "")?;
    let mut all = Vec::new(heap);
    'paths: for path in paths.get() {
        push_named(heap, &mut all, store, kept, path.get(), reader, terms)?;
    }
    Ok(all)
}

/// Adds the page at the path that a text is, where the reader sees one there.
fn push_named(
    heap: Heap,
    all: &mut Vec<Candidate>,
    store: &Store,
    kept: &KeptPages,
    text: &str,
    reader: &Reader,
    terms: &[Term],
) -> Result<(), Memory>
    ensures { (render : Renders) → IsKept render store.now kept.now
        → OnOk result (mapped known_of all.new.items ≡ mapped known_of all.old.items
        ++ known_at terms.now text.now
        (rendered_at render (seen_in store.now reader.now) text.now)) }
{
    let Some(path) = path_named(heap, store, text)? else {
        return Ok(());
    };
    push_seen(heap, all, store, kept, path, reader, terms)
}

/// Adds the page at a path, where the reader sees one there.
fn push_seen(
    heap: Heap,
    all: &mut Vec<Candidate>,
    store: &Store,
    kept: &KeptPages,
    path: Path,
    reader: &Reader,
    terms: &[Term],
) -> Result<(), Memory>
    ensures { (render : Renders) → IsKept render store.now kept.now
        → OnOk result (mapped known_of all.new.items ≡ mapped known_of all.old.items
        ++ known_at terms.now path
        (rendered_at render (seen_in store.now reader.now) path)) }
{
    let page = searched_at(store, kept, &path, reader);
    push_known(heap, all, path, page, terms)
}

fn push_known(
    heap: Heap,
    all: &mut Vec<Candidate>,
    path: Path,
    page: Option<Searched<'_>>,
    terms: &[Term],
) -> Result<(), Memory>
    ensures { OnOk result (mapped known_of all.new.items ≡ mapped known_of all.old.items
        ++ known_from terms.now path (option_map parts_of page.entry)) }
{
    let Some(page) = page else {
        return Ok(());
    };
    Ok(all.push(candidate_at(heap, path, page, terms)?)?)
}

fn candidate_at(
    heap: Heap,
    path: Path,
    page: Searched<'_>,
    terms: &[Term],
) -> Result<Candidate, Memory>
    ensures { IfOk result (λ candidate. known_of candidate
        ≡ known_by terms.now path page.entry.headings.now page.entry.words.now) }
{
    Ok(Candidate {
        counts: counts_of(heap, terms, page.words)?,
        named: is_named(heap, terms, &path, page.headings)?,
        path,
    })
}

/// What is kept of the page at a path, where the reader sees one there.
fn searched_at<'a>(
    store: &Store,
    kept: &'a KeptPages,
    path: &Path,
    reader: &Reader,
) -> Option<Searched<'a>>
    ensures { (render : Renders) → IsKept render store.now kept.now
        → option_map parts_of result
        ≡ option_map parts_in (rendered_at render (seen_in store.now reader.now) path.now) }
{
    let Some(page) = visible_page(store, reader, path) else {
        return None;
    };
    searched_under(kept, path, page.stamp())
}

/// What is kept of the page under a path and a stamp.
fn searched_under<'a>(kept: &'a KeptPages, path: &Path, stamp: u64) -> Option<Searched<'a>>
    ensures { option_map parts_of result
        ≡ parts_by (map.get kept.now.renderings (path.now, stamp))
        (option_map map.entries (map.get kept.now.words (path.now, stamp))) }
{
    let Some(page) = kept.get(path, stamp) else {
        return None;
    };
    let Some(words) = kept.words().counts(path, stamp) else {
        return None;
    };
    Some(Searched {
        headings: page.headings(),
        words,
    })
}
