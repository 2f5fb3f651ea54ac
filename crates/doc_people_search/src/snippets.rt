//! What is shown of a page that is found: a piece of one of its texts, with the words that terms meet marked.

ghost use Rattle.std.specs.Prelude.{◌≡◌, ◌++◌, [], chars, codes, string_bytes, OnOk, if◌then◌else◌, slice_range};
ghost use Rattle.std.specs.List.{flat_map};
ghost use Rattle.doc_page_parts.specs.Escaping.{escaped};
ghost use Rattle.doc_people.specs.Folders.{ellipsis};
ghost use Rattle.doc_people.specs.Snippets.{best_text, parts, piece, snippet_of, written_part};
ghost use Rattle.doc_people_search.specs.Finding.{marked};
ghost use Rattle.doc_people_search.specs.Reading.{read_of};

use crate::best::best_text;
use crate::parts::{character_count, first_part, is_met, match_at, split_at};
use crate::places::{end_after, start_before};
use doc_page_parts::escaping::push_escaped;
use doc_page_parts::failure::Memory;
use doc_page_parts::heap::{Heap, String};
use doc_page_parts::text::Text;
use doc_people::term::Term;

/// Writes the snippet of a page with this title and these texts.
pub fn push_snippet(
    heap: Heap,
    out: &mut String,
    terms: &[Term],
    title: &str,
    texts: &[Text],
) -> Result<(), Memory>
    ensures { OnOk result (string_bytes out.new ≡ string_bytes out.old
        ++ snippet_of terms.now (chars (best_text terms.now (read_of title.now texts.now)))) }
{
    let text = best_text(heap, terms, title, texts)?;
    push_snippet_of(heap, out, terms, text)
}

/// Writes the snippet of a text.
#[tactic(auto, unfolding(doc_people::specs::Snippets::snippet_of))]
fn push_snippet_of(heap: Heap, out: &mut String, terms: &[Term], text: &str) -> Result<(), Memory>
    ensures { OnOk result
        (string_bytes out.new ≡ string_bytes out.old ++ snippet_of terms.now (chars text.now)) }
{
    let at = match_at(heap, terms, text)?;
    let start = start_before(at, text);
    let end = end_after(start, text);
    push_piece(heap, out, terms, text, start, end)
}

/// Writes the characters of a text from one place to another, and whether something is left out at each end.
fn push_piece(
    heap: Heap,
    out: &mut String,
    terms: &[Term],
    text: &str,
    start: usize,
    end: usize,
) -> Result<(), Memory>
    ensures { OnOk result
        (string_bytes out.new ≡ string_bytes out.old
        ++ piece terms.now (chars text.now) start end) }
{
    let (_, from) = split_at(text, start);
    let (piece, _) = split_at(from, end.saturating_sub(start));
    push_ellipsis_if(out, start > 0)?;
    push_parts(heap, out, terms, piece)?;
    push_ellipsis_if(out, end < character_count(text))
}

/// Writes an ellipsis where something is left out.
fn push_ellipsis_if(out: &mut String, left_out: bool) -> Result<(), Memory>
    ensures { OnOk result
        (string_bytes out.new ≡ string_bytes out.old ++ (if left_out then ellipsis else [])) }
{
    if left_out {
        out.push_str("…")?;
    }
    Ok(())
}

/// Writes the parts of a text.
fn push_parts(heap: Heap, out: &mut String, terms: &[Term], text: &str) -> Result<(), Memory>
    ensures { OnOk result (string_bytes out.new
        ≡ string_bytes out.old ++ flat_map (written_part terms.now) (parts (chars text.now))) }
{
    let mut rest = text;
    while let Some((part, behind)) = first_part(rest) {
        push_part(heap, out, terms, part)?;
        rest = behind;
    }
    Ok(())
}

/// Writes a part, marked where it is a word that a term meets.
fn push_part(heap: Heap, out: &mut String, terms: &[Term], part: &str) -> Result<(), Memory>
    ensures { OnOk result
        (string_bytes out.new ≡ string_bytes out.old ++ written_part terms.now (chars part.now)) }
{
    let met = is_met(heap, terms, part)?;
    if met {
        return push_marked(out, part);
    }
    push_escaped(out, part)
}

/// Writes a part that is marked.
fn push_marked(out: &mut String, part: &str) -> Result<(), Memory>
    ensures { OnOk result (string_bytes out.new ≡ string_bytes out.old ++ marked part.now) }
{
    out.push_str("<mark>")?;
    push_escaped(out, part)?;
    out.push_str("</mark>")?;
    Ok(())
}
