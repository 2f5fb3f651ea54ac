//! Copies of what stands beside the pieces of a page.

ghost use Rattle.std.specs.Prelude.{◌≡◌, IfOk};

use doc_page_parts::failure::Memory;
use doc_page_parts::heap::{Heap, Vec};
use doc_page_parts::list::List;
use doc_page_parts::rendered::Heading;
use doc_page_parts::text::Text;

pub fn headings_of(heap: Heap, headings: &[Heading]) -> Result<List<Heading>, Memory>
    ensures { IfOk result (λ copies. copies ≡ headings.now) }
{
    let mut copies = Vec::with_capacity(heap, headings.len())?;
    for heading in headings {
        copies.push(heading_of(heap, heading)?)?;
    }
    Ok(List::new(copies))
}

fn heading_of(heap: Heap, heading: &Heading) -> Result<Heading, Memory>
    ensures { IfOk result (λ copy. copy ≡ heading.now) }
{
    Ok(Heading {
        level: heading.level,
        anchor: heading.anchor.copy(heap)?,
        text: heading.text.copy(heap)?,
    })
}

pub fn texts_of(heap: Heap, texts: &[Text]) -> Result<List<Text>, Memory>
    ensures { IfOk result (λ copies. copies ≡ texts.now) }
{
    let mut copies = Vec::with_capacity(heap, texts.len())?;
    for text in texts {
        copies.push(text.copy(heap)?)?;
    }
    Ok(List::new(copies))
}
