//! What is known of a page for the sake of links.

ghost use Rattle.std.specs.Prelude.{◌≡◌, IfOk};

use doc_page_parts::failure::Memory;
use doc_page_parts::heap::{Heap, Vec};
use doc_page_parts::list::List;
use doc_page_parts::rendered::Heading;
use doc_resolve::LinkKind;

/// What each link of a page leads to, in order, also out of the site; and the page's headings, in order.
#[derive(Drop)]
pub struct PageLinks {
    pub links: List<LinkKind>,
    pub headings: List<Heading>,
}

/// Copies of these headings.
pub fn copy_of_headings(heap: Heap, headings: &[Heading]) -> Result<List<Heading>, Memory>
    ensures { IfOk result (λ copies. copies ≡ headings.now) }
{
    let mut copies = Vec::with_capacity(heap, headings.len())?;
    for heading in headings {
        copies.push(copy_of(heap, heading)?)?;
    }
    Ok(List::new(copies))
}

fn copy_of(heap: Heap, heading: &Heading) -> Result<Heading, Memory>
    ensures { IfOk result (λ copy. copy ≡ heading.now) }
{
    Ok(Heading {
        level: heading.level,
        anchor: heading.anchor.copy(heap)?,
        text: heading.text.copy(heap)?,
    })
}
