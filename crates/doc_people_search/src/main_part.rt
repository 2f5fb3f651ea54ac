//! The main part of the page.

ghost use Rattle.std.specs.Prelude.{◌≡◌, ◌++◌, codes, string_bytes, IfOk, OnOk};
ghost use Rattle.doc_people.specs.Search.{ask, refusal};
ghost use Rattle.doc_people_search.specs.Asking.{found_of};

use crate::asking::Asked;
use crate::hits::push_hits_part;
use doc_page_parts::escaping::push_escaped;
use doc_page_parts::failure::Memory;
use doc_page_parts::heap::{Heap, String};
use doc_people::viewed::Viewed;
use doc_words_search::query::QueryError;

/// What the main part of a page that lists pages takes: a guess, on which nothing rests.
const ROOM: usize = 4096;

/// The main part, of a query and what it asks for.
pub fn main_part<V: Viewed>(
    heap: Heap,
    view: &V,
    query: &str,
    asked: &Asked,
) -> Result<String, Memory>
    ensures { IfOk result (λ main. string_bytes main ≡ codes "<h1>Search</h1>\n" ++ ask query.now
        ++ found_of (V.render view.now) (V.view view.now) asked.now) }
{
    let mut main = String::with_capacity(heap, ROOM)?;
    main.push_str("<h1>Search</h1>\n")?;
    push_ask(&mut main, query)?;
    push_found(heap, &mut main, view, asked)?;
    Ok(main)
}

/// Writes the form, with the query in it.
fn push_ask(out: &mut String, query: &str) -> Result<(), Memory>
    ensures { OnOk result (string_bytes out.new ≡ string_bytes out.old ++ ask query.now) }
{
    out.push_str(
        "<form class=\"ask\" role=\"search\" action=\"/search\" aria-label=\"Search all pages\">\n",
    )?;
    out.push_str("<input type=\"search\" name=\"q\" value=\"")?;
    push_escaped(out, query)?;
    out.push_str("\" aria-label=\"Words\">\n")?;
    out.push_str("<button>Search</button>\n</form>\n")?;
    Ok(())
}

/// Writes what stands below the form.
fn push_found<V: Viewed>(
    heap: Heap,
    out: &mut String,
    view: &V,
    asked: &Asked,
) -> Result<(), Memory>
    ensures { OnOk result (string_bytes out.new ≡ string_bytes out.old
        ++ found_of (V.render view.now) (V.view view.now) asked.now) }
{
    match asked {
        Asked::Nothing => Ok(()),
        Asked::For(terms) => push_hits_part(heap, out, view, terms.get()),
        Asked::Refused(error) => push_refusal(out, *error),
    }
}

/// Writes why a query finds nothing.
fn push_refusal(out: &mut String, error: QueryError) -> Result<(), Memory>
    ensures { OnOk result (string_bytes out.new ≡ string_bytes out.old ++ refusal error) }
{
    out.push_str(refusal(error))?;
    Ok(())
}

fn refusal(error: QueryError) -> &'static str
    ensures { result.now ≡ refusal error }
{
    match error {
        QueryError::NoWords => {
            "<p>A query is words: letters and numbers. This one has none.</p>\n"
        }
        QueryError::TooManyWords => {
            "<p>A query has 16 different words at most. This one has more.</p>\n"
        }
        QueryError::Memory => "",
    }
}
