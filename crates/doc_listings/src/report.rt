//! Broken links.

ghost use Rattle.std.specs.Prelude.{◌≡◌, ◌++◌, string_bytes, OnOk, OnErr};
ghost use Rattle.std.specs.Io.{StartsWith};
ghost use Rattle.doc_listings.specs.Listings.{broken_line, place_of, reason_name, report_text, why};

use crate::number::{MOST_DIGITS, push_number};
use doc_links_pages::answers::{Broken, Reason};
use doc_page_parts::failure::Memory;
use doc_page_parts::heap::{Heap, String};

/// Writes a line for each broken link: the path of its page, its number there, the reason and what it leads to, with tabs between.
#[tactic(auto, unfolding(crate::specs::Listings::report_text), using(doc_page_parts::proofs::BufferSteps::front_same, doc_page_parts::proofs::BufferSteps::front_more))]
pub fn push_report(heap: Heap, out: &mut String, links: &[Broken]) -> Result<(), Memory>
    ensures ok { OnOk result
        (string_bytes out.new ≡ string_bytes out.old ++ report_text links.now) }
    ensures err { OnErr result (StartsWith (string_bytes out.new) (string_bytes out.old)) }
{
    out.reserve(room_of(links))?;
    let mut digits = String::with_capacity(heap, MOST_DIGITS)?;
    for link in links {
        push_broken(out, &mut digits, link)?;
    }
    Ok(())
}

#[tactic(auto, using(doc_page_parts::proofs::BufferSteps::front_same, doc_page_parts::proofs::BufferSteps::front_more))]
fn push_broken(out: &mut String, digits: &mut String, link: &Broken) -> Result<(), Memory>
    ensures ok { OnOk result (string_bytes out.new ≡ string_bytes out.old ++ broken_line link.now) }
    ensures err { OnErr result (StartsWith (string_bytes out.new) (string_bytes out.old)) }
{
    push_place(out, digits, link)?;
    push_why(out, link)
}

/// Writes where a broken link stands.
#[tactic(auto, using(doc_page_parts::proofs::BufferSteps::front_same, doc_page_parts::proofs::BufferSteps::front_more))]
fn push_place(out: &mut String, digits: &mut String, link: &Broken) -> Result<(), Memory>
    ensures ok { OnOk result (string_bytes out.new ≡ string_bytes out.old ++ place_of link.now) }
    ensures err { OnErr result (StartsWith (string_bytes out.new) (string_bytes out.old)) }
{
    out.push_str(link.source.text())?;
    out.push_str("\t")?;
    push_number(out, digits, link.place)?;
    out.push_str("\t")?;
    Ok(())
}

/// Writes why it is broken.
#[tactic(auto, using(doc_page_parts::proofs::BufferSteps::front_same, doc_page_parts::proofs::BufferSteps::front_more))]
fn push_why(out: &mut String, link: &Broken) -> Result<(), Memory>
    ensures ok { OnOk result (string_bytes out.new ≡ string_bytes out.old ++ why link.now) }
    ensures err { OnErr result (StartsWith (string_bytes out.new) (string_bytes out.old)) }
{
    out.push_str(reason_name(link.reason))?;
    out.push_str("\t")?;
    out.push_str(link.target.get())?;
    out.push_str("\n")?;
    Ok(())
}

fn reason_name(reason: Reason) -> &'static str
    ensures { result.now ≡ reason_name reason }
{
    match reason {
        Reason::Page => "page",
        Reason::Anchor => "anchor",
        Reason::Path => "path",
        Reason::Image => "image",
    }
}

/// How many bytes the lines take, where each place has two digits: a guess, on which nothing rests.
fn room_of(links: &[Broken]) -> usize {
    let mut room: usize = 0;
    for link in links {
        room = room.saturating_add(room_of_link(link));
    }
    room
}

fn room_of_link(link: &Broken) -> usize {
    let source = link.source.text().len();
    let target = link.target.get().len();
    source.saturating_add(target).saturating_add(12)
}
