//! What a search found.

ghost use Rattle.std.specs.Prelude.{◌≡◌, ◌++◌, string_bytes, OnOk, OnErr};
ghost use Rattle.std.specs.Io.{StartsWith};
ghost use Rattle.doc_listings.specs.Listings.{hit_line, hits_text};

use crate::number::{MOST_DIGITS, push_number};
use doc_page_parts::failure::Memory;
use doc_page_parts::heap::{Heap, String};
use doc_words_search::hit::Hit;

/// Writes a line for each page that a search found: its score, a tab, and its path.
#[tactic(auto, unfolding(crate::specs::Listings::hits_text), using(doc_page_parts::proofs::BufferSteps::front_same, doc_page_parts::proofs::BufferSteps::front_more))]
pub fn push_hits(heap: Heap, out: &mut String, hits: &[Hit]) -> Result<(), Memory>
    ensures ok { OnOk result (string_bytes out.new ≡ string_bytes out.old ++ hits_text hits.now) }
    ensures err { OnErr result (StartsWith (string_bytes out.new) (string_bytes out.old)) }
{
    out.reserve(room_of(hits))?;
    let mut digits = String::with_capacity(heap, MOST_DIGITS)?;
    for hit in hits {
        push_hit(out, &mut digits, hit)?;
    }
    Ok(())
}

#[tactic(auto, using(doc_page_parts::proofs::BufferSteps::front_same, doc_page_parts::proofs::BufferSteps::front_more))]
fn push_hit(out: &mut String, digits: &mut String, hit: &Hit) -> Result<(), Memory>
    ensures ok { OnOk result (string_bytes out.new ≡ string_bytes out.old ++ hit_line hit.now) }
    ensures err { OnErr result (StartsWith (string_bytes out.new) (string_bytes out.old)) }
{
    push_number(out, digits, hit.score)?;
    out.push_str("\t")?;
    out.push_str(hit.path.text())?;
    out.push_str("\n")?;
    Ok(())
}

/// How many bytes the lines take, where each score has four digits: a guess, on which nothing rests.
fn room_of(hits: &[Hit]) -> usize {
    let mut room: usize = 0;
    for hit in hits {
        room = room.saturating_add(hit.path.text().len()).saturating_add(6);
    }
    room
}
