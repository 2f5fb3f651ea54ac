//! Contents: the pages and their headings.

ghost use Rattle.std.specs.Prelude.{◌≡◌, ◌++◌, decimal, string_bytes, None, IfSome, OnOk, OnErr, map as mapped};
ghost use Rattle.std.specs.List.{flat_map};
ghost use Rattle.std.specs.Io.{StartsWith};
ghost use Rattle.doc_resolve.specs.Hrefs.{page_href};
ghost use Rattle.doc_listings.specs.Listings.{contents_text, entry_lines, heading_address, heading_line, heading_start, link_text};
ghost use Rattle.doc_listings.specs.Listings.{page_line, page_start};
ghost use Rattle.doc_links_pages.specs.declared.answers.Entry.{Entry};

use crate::number::{MOST_DIGITS, push_number};
use doc_links_pages::answers::Listed;
use doc_page_encoding::encoding::{push_encoded, push_encoded_path};
use doc_page_parts::escaping::push_escaped;
use doc_page_parts::failure::Memory;
use doc_page_parts::heap::{Heap, String};
use doc_page_parts::path::Path;
use doc_page_parts::rendered::Heading;

/// What a page of contents has before the lines of its pages.
pub const CONTENTS_FRONT: &str = "<!DOCTYPE html>\n<title>Contents</title>\n<ul>\n";

/// What it has behind them.
pub const CONTENTS_END: &str = "</ul>\n";

/// Room for the address of a page.
const ADDRESS_ROOM: usize = 256;

/// What an address has before the path.
const ADDRESS_START: usize = 6;

/// What a line has beside an address and a text, at most.
const LINE_ROOM: usize = 40;

/// Writes a page of HTML with a list of pages and their headings, each a link.
#[tactic(auto, using(doc_page_parts::proofs::BufferSteps::front_same, doc_page_parts::proofs::BufferSteps::front_more))]
pub fn push_contents<P: Listed>(heap: Heap, out: &mut String, pages: &[P]) -> Result<(), Memory>
    ensures ok { OnOk result (string_bytes out.new
        ≡ string_bytes out.old ++ contents_text (mapped P.entry pages.now)) }
    ensures err { OnErr result (StartsWith (string_bytes out.new) (string_bytes out.old)) }
{
    out.reserve(room_of(pages))?;
    out.push_str(CONTENTS_FRONT)?;
    push_pages(heap, out, pages)?;
    out.push_str(CONTENTS_END)?;
    Ok(())
}

#[tactic(auto, using(doc_page_parts::proofs::BufferSteps::front_same, doc_page_parts::proofs::BufferSteps::front_more))]
fn push_pages<P: Listed>(heap: Heap, out: &mut String, pages: &[P]) -> Result<(), Memory>
    ensures ok { OnOk result (string_bytes out.new
        ≡ string_bytes out.old ++ flat_map (λ page. entry_lines (P.entry page)) pages.now) }
    ensures err { OnErr result (StartsWith (string_bytes out.new) (string_bytes out.old)) }
{
    let mut digits = String::with_capacity(heap, MOST_DIGITS)?;
    let mut address = String::with_capacity(heap, ADDRESS_ROOM)?;
    for page in pages {
        push_page(out, &mut digits, &mut address, page.path(), page.headings())?;
    }
    Ok(())
}

/// Writes the lines of one page and its headings, as contents have them.
#[tactic(auto, using(doc_page_parts::proofs::BufferSteps::front_same, doc_page_parts::proofs::BufferSteps::front_more))]
pub fn push_entry_lines(
    heap: Heap,
    out: &mut String,
    path: &Path,
    headings: &[Heading],
) -> Result<(), Memory>
    ensures ok { OnOk result (string_bytes out.new ≡ string_bytes out.old
        ++ entry_lines (record { path = path.now; headings = headings.now })) }
    ensures err { OnErr result (StartsWith (string_bytes out.new) (string_bytes out.old)) }
{
    out.reserve(room_of_page(path, headings))?;
    let mut digits = String::new(heap);
    let mut address = String::with_capacity(heap, address_room(path))?;
    push_page(out, &mut digits, &mut address, path, headings)
}

/// Writes the lines of a page and its headings. Its address is made once, in a buffer of its own.
#[tactic(auto, unfolding(crate::specs::Listings::entry_lines), using(doc_page_parts::proofs::BufferSteps::front_same, doc_page_parts::proofs::BufferSteps::front_more))]
fn push_page(
    out: &mut String,
    digits: &mut String,
    address: &mut String,
    path: &Path,
    headings: &[Heading],
) -> Result<(), Memory>
    ensures ok { OnOk result (string_bytes out.new ≡ string_bytes out.old
        ++ entry_lines (record { path = path.now; headings = headings.now })) }
    ensures err { OnErr result (StartsWith (string_bytes out.new) (string_bytes out.old)) }
{
    set_address(address, path)?;
    push_page_line(out, address.as_str(), path)?;
    push_headings(out, digits, address.as_str(), headings)
}

/// Writes the address of a page alone, as links to the page have it.
fn set_address(address: &mut String, path: &Path) -> Result<(), Memory>
    ensures { OnOk result (string_bytes address.new ≡ page_href path.now None) }
{
    address.clear();
    address.push_str("/page/")?;
    push_encoded_path(address, path.text())
}

#[tactic(auto, using(doc_page_parts::proofs::BufferSteps::front_same, doc_page_parts::proofs::BufferSteps::front_more))]
fn push_page_line(out: &mut String, address: &str, path: &Path) -> Result<(), Memory>
    ensures ok { OnOk result
        (string_bytes out.new ≡ string_bytes out.old ++ page_line address.now path.now) }
    ensures err { OnErr result (StartsWith (string_bytes out.new) (string_bytes out.old)) }
{
    push_page_start(out, address)?;
    push_link_text(out, path.text())
}

/// Writes the element of a page's line up to the end of the address.
#[tactic(auto, using(doc_page_parts::proofs::BufferSteps::front_same, doc_page_parts::proofs::BufferSteps::front_more))]
fn push_page_start(out: &mut String, address: &str) -> Result<(), Memory>
    ensures ok { OnOk result
        (string_bytes out.new ≡ string_bytes out.old ++ page_start address.now) }
    ensures err { OnErr result (StartsWith (string_bytes out.new) (string_bytes out.old)) }
{
    out.push_str("<li><a href=\"")?;
    out.push_str(address)?;
    Ok(())
}

#[tactic(auto, using(doc_page_parts::proofs::BufferSteps::front_same, doc_page_parts::proofs::BufferSteps::front_more))]
fn push_headings(
    out: &mut String,
    digits: &mut String,
    address: &str,
    headings: &[Heading],
) -> Result<(), Memory>
    ensures ok { OnOk result (string_bytes out.new
        ≡ string_bytes out.old ++ flat_map (heading_line address.now) headings.now) }
    ensures err { OnErr result (StartsWith (string_bytes out.new) (string_bytes out.old)) }
{
    for heading in headings {
        push_heading(out, digits, address, heading)?;
    }
    Ok(())
}

#[tactic(auto, unfolding(crate::specs::Listings::heading_line), using(doc_page_parts::proofs::BufferSteps::front_same, doc_page_parts::proofs::BufferSteps::front_more))]
fn push_heading(
    out: &mut String,
    digits: &mut String,
    address: &str,
    heading: &Heading,
) -> Result<(), Memory>
    ensures ok { OnOk result
        (string_bytes out.new ≡ string_bytes out.old ++ heading_line address.now heading.now) }
    ensures err { OnErr result (StartsWith (string_bytes out.new) (string_bytes out.old)) }
{
    push_heading_start(out, digits, heading.level)?;
    push_heading_address(out, address, heading.anchor.get())?;
    push_link_text(out, heading.text.get())
}

/// Writes the element of a heading's line up to the address.
#[tactic(auto, using(doc_page_parts::proofs::BufferSteps::front_same, doc_page_parts::proofs::BufferSteps::front_more))]
fn push_heading_start(out: &mut String, digits: &mut String, level: u8) -> Result<(), Memory>
    ensures ok { OnOk result
        (string_bytes out.new ≡ string_bytes out.old ++ heading_start level) }
    ensures err { OnErr result (StartsWith (string_bytes out.new) (string_bytes out.old)) }
{
    out.push_str("<li class=\"h")?;
    push_level(out, digits, level)?;
    out.push_str("\"><a href=\"")?;
    Ok(())
}

/// Writes the level of a heading, which is a digit but where a renderer gives another number.
fn push_level(out: &mut String, digits: &mut String, level: u8) -> Result<(), Memory>
    ensures ok { OnOk result (string_bytes out.new ≡ string_bytes out.old ++ decimal level) }
    ensures err { OnErr result (StartsWith (string_bytes out.new) (string_bytes out.old)) }
{
    let Some(digit) = digit_of(level) else {
        return push_number(out, digits, u64::from(level));
    };
    out.push_str(digit)?;
    Ok(())
}

/// The digit of a level that CommonMark has.
fn digit_of(level: u8) -> Option<&'static str>
    ensures { IfSome result (λ digit. digit.now ≡ decimal level) }
{
    match level {
        1 => Some("1"),
        2 => Some("2"),
        3 => Some("3"),
        4 => Some("4"),
        5 => Some("5"),
        6 => Some("6"),
        _ => None,
    }
}

/// Writes the address of a heading in the page at an address.
#[tactic(auto, using(doc_page_parts::proofs::BufferSteps::front_same, doc_page_parts::proofs::BufferSteps::front_more))]
fn push_heading_address(out: &mut String, address: &str, anchor: &str) -> Result<(), Memory>
    ensures ok { OnOk result
        (string_bytes out.new ≡ string_bytes out.old ++ heading_address address.now anchor.now) }
    ensures err { OnErr result (StartsWith (string_bytes out.new) (string_bytes out.old)) }
{
    out.push_str(address)?;
    out.push_str("#")?;
    push_encoded(out, anchor)
}

/// Writes what follows the address in a line: the text of the link.
#[tactic(auto, using(doc_page_parts::proofs::BufferSteps::front_same, doc_page_parts::proofs::BufferSteps::front_more))]
fn push_link_text(out: &mut String, text: &str) -> Result<(), Memory>
    ensures ok { OnOk result
        (string_bytes out.new ≡ string_bytes out.old ++ link_text text.now) }
    ensures err { OnErr result (StartsWith (string_bytes out.new) (string_bytes out.old)) }
{
    out.push_str("\">")?;
    push_escaped(out, text)?;
    out.push_str("</a></li>\n")?;
    Ok(())
}

/// How many bytes the address of a page has, where none has to be encoded: a guess, on which nothing rests.
fn address_room(path: &Path) -> usize {
    path.text().len().saturating_add(ADDRESS_START)
}

/// How many bytes the lines take, where no byte has to be encoded: a guess, on which nothing rests.
fn room_of<P: Listed>(pages: &[P]) -> usize {
    let mut room: usize = 60;
    for page in pages {
        room = room.saturating_add(room_of_page(page.path(), page.headings()));
    }
    room
}

fn room_of_page(path: &Path, headings: &[Heading]) -> usize {
    let path = path.text().len();
    let mut room: usize = path.saturating_mul(2).saturating_add(LINE_ROOM);
    for heading in headings {
        room = room.saturating_add(room_of_heading(path, heading));
    }
    room
}

fn room_of_heading(path: usize, heading: &Heading) -> usize {
    let anchor = heading.anchor.get().len();
    let text = heading.text.get().len();
    path.saturating_add(anchor)
        .saturating_add(text)
        .saturating_add(LINE_ROOM)
}
