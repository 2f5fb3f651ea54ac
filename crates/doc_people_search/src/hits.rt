//! The pages that terms find.

ghost use Rattle.std.specs.Prelude.{◌≡◌, ◌++◌, [], codes, string_bytes, OnOk};
ghost use Rattle.std.specs.List.{flat_map};
ghost use Rattle.doc_people.specs.Hits.{hits};
ghost use Rattle.doc_people.specs.Search.{best_of_them, hit_line, hits_part, pages_found, snippet_by};
ghost use Rattle.doc_people.specs.Views.{rendered_at, rendered_pages};
ghost use Rattle.doc_people_search.specs.Finding.{found_list, none_found, pages_word};

use crate::snippets::push_snippet;
use doc_page_parts::failure::Memory;
use doc_page_parts::heap::{Heap, String};
use doc_page_parts::path::Path;
use doc_people::term::Term;
use doc_people::viewed::Viewed;
use doc_people_lines::links::push_page_and_path;
use doc_people_lines::number::push_number;
use doc_people_lines::titles::page_title;
use doc_words_search::hit::Hit;

/// How many of the pages that are found are shown.
const HIT_LIMIT: usize = 50;

/// The same, as a count of pages.
const SHOWN: u64 = HIT_LIMIT as u64;

/// Writes the pages that terms find, the best ones first, or that there is none.
pub fn push_hits_part<V: Viewed>(
    heap: Heap,
    out: &mut String,
    view: &V,
    terms: &[Term],
) -> Result<(), Memory>
    ensures { OnOk result (string_bytes out.new ≡ string_bytes out.old
        ++ hits_part (V.render view.now) (V.view view.now) terms.now
        (hits (rendered_pages (V.render view.now) (V.view view.now)) terms.now)) }
{
    let found = view.hits(terms, HIT_LIMIT)?;
    if found.count == 0 {
        return push_none_found(out);
    }
    push_found_list(heap, out, view, terms, found.count, found.best.get())
}

/// Writes that no page is found.
fn push_none_found(out: &mut String) -> Result<(), Memory>
    ensures { OnOk result (string_bytes out.new ≡ string_bytes out.old ++ none_found) }
{
    out.push_str("<p class=\"found\">No page that you may read has all of these words.</p>\n")?;
    Ok(())
}

/// Writes how many pages are found, and those that are shown.
fn push_found_list<V: Viewed>(
    heap: Heap,
    out: &mut String,
    view: &V,
    terms: &[Term],
    count: u64,
    best: &[Hit],
) -> Result<(), Memory>
    ensures { OnOk result (string_bytes out.new ≡ string_bytes out.old
        ++ found_list (V.render view.now) (V.view view.now) terms.now count best.now) }
{
    out.push_str("<p class=\"found\">")?;
    push_pages_found(out, count)?;
    push_best_of_them(out, count)?;
    out.push_str("</p>\n<ol class=\"hits\">\n")?;
    push_hit_lines(heap, out, view, terms, best)?;
    out.push_str("</ol>\n")?;
    Ok(())
}

/// Writes how many pages are found.
fn push_pages_found(out: &mut String, count: u64) -> Result<(), Memory>
    ensures { OnOk result (string_bytes out.new ≡ string_bytes out.old ++ pages_found count) }
{
    push_number(out, count)?;
    out.push_str(pages_word(count))?;
    out.push_str(" found.")?;
    Ok(())
}

fn pages_word(count: u64) -> &'static str
    ensures { result.now ≡ pages_word count }
{
    if count == 1 { " page" } else { " pages" }
}

/// Writes that there are more pages than are shown, where there are.
fn push_best_of_them(out: &mut String, count: u64) -> Result<(), Memory>
    ensures { OnOk result (string_bytes out.new ≡ string_bytes out.old ++ best_of_them count) }
{
    if count <= SHOWN {
        return Ok(());
    }
    out.push_str(" The best 50 are these.")?;
    Ok(())
}

fn push_hit_lines<V: Viewed>(
    heap: Heap,
    out: &mut String,
    view: &V,
    terms: &[Term],
    hits: &[Hit],
) -> Result<(), Memory>
    ensures { OnOk result (string_bytes out.new ≡ string_bytes out.old
        ++ flat_map (hit_line (V.render view.now) (V.view view.now) terms.now) hits.now) }
{
    for hit in hits {
        push_hit_line(heap, out, view, terms, hit)?;
    }
    Ok(())
}

/// Writes a page that is found: a link to it, its path, and a piece of it.
fn push_hit_line<V: Viewed>(
    heap: Heap,
    out: &mut String,
    view: &V,
    terms: &[Term],
    hit: &Hit,
) -> Result<(), Memory>
    ensures { OnOk result (string_bytes out.new ≡ string_bytes out.old
        ++ hit_line (V.render view.now) (V.view view.now) terms.now hit.now) }
{
    out.push_str("<li>")?;
    push_page_and_path(out, heap, view, hit.path.text())?;
    out.push_str("\n<p>")?;
    push_snippet_at(heap, out, view, terms, &hit.path)?;
    out.push_str("</p>")?;
    out.push_str("</li>\n")?;
    Ok(())
}

/// Writes the snippet of the page at a path, where one is seen there.
fn push_snippet_at<V: Viewed>(
    heap: Heap,
    out: &mut String,
    view: &V,
    terms: &[Term],
    path: &Path,
) -> Result<(), Memory>
    ensures { OnOk result (string_bytes out.new
        ≡ string_bytes out.old ++ snippet_by terms.now path.now
        (rendered_at (V.render view.now) (V.view view.now) path.now)) }
{
    let texts = view.texts(path)?;
    let Some(texts) = texts else {
        return Ok(());
    };
    let title = page_title(view, path.text())?;
    push_snippet(heap, out, terms, title, texts)
}
