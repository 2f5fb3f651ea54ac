//! The pages with links to a page.

ghost use Rattle.std.specs.Prelude.{◌≡◌, ◌++◌, string_bytes, OnOk, OnErr};
ghost use Rattle.std.specs.Io.{StartsWith};
ghost use Rattle.doc_listings.specs.Listings.{backlink_line, backlinks_text};

use crate::number::{MOST_DIGITS, push_number};
use doc_page_parts::failure::Memory;
use doc_page_parts::heap::{Heap, String};
use doc_page_parts::path::Path;

/// Writes a line for each page with links to a page: its path, a tab, and how many.
#[tactic(auto, unfolding(crate::specs::Listings::backlinks_text), using(doc_page_parts::proofs::BufferSteps::front_same, doc_page_parts::proofs::BufferSteps::front_more))]
pub fn push_backlinks(heap: Heap, out: &mut String, sources: &[(Path, u64)]) -> Result<(), Memory>
    ensures ok { OnOk result
        (string_bytes out.new ≡ string_bytes out.old ++ backlinks_text sources.now) }
    ensures err { OnErr result (StartsWith (string_bytes out.new) (string_bytes out.old)) }
{
    out.reserve(room_of(sources))?;
    let mut digits = String::with_capacity(heap, MOST_DIGITS)?;
    for source in sources {
        push_backlink(out, &mut digits, source)?;
    }
    Ok(())
}

#[tactic(auto, using(doc_page_parts::proofs::BufferSteps::front_same, doc_page_parts::proofs::BufferSteps::front_more))]
fn push_backlink(out: &mut String, digits: &mut String, source: &(Path, u64)) -> Result<(), Memory>
    ensures ok { OnOk result
        (string_bytes out.new ≡ string_bytes out.old ++ backlink_line source.now) }
    ensures err { OnErr result (StartsWith (string_bytes out.new) (string_bytes out.old)) }
{
    let (path, count) = source;
    out.push_str(path.text())?;
    out.push_str("\t")?;
    push_number(out, digits, *count)?;
    out.push_str("\n")?;
    Ok(())
}

/// How many bytes the lines take, where each count has two digits: a guess, on which nothing rests.
fn room_of(sources: &[(Path, u64)]) -> usize {
    let mut room: usize = 0;
    for source in sources {
        room = room.saturating_add(source.0.text().len()).saturating_add(4);
    }
    room
}
