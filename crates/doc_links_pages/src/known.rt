//! What an index knows of a page.

ghost use Rattle.std.specs.Prelude.{◌≡◌, IfOk};
ghost use Rattle.doc_index_tables.specs.Maps.{text_map};
ghost use Rattle.doc_links_pages.specs.KnownSteps.{HasAnchors, HasKeys};
ghost use Rattle.doc_links_pages.specs.Links.{has_anchor};
ghost use Rattle.doc_links_pages.specs.PageLinks.{page_links};

use crate::keys::keys_of;
use crate::page_links::{PageLinks, copy_of_headings};
use doc_page_parts::failure::Memory;
use doc_page_parts::heap::{BTreeMap, Heap, String};
use doc_page_parts::list::List;
use doc_page_parts::path::Path;
use doc_page_parts::rendered::{Heading, Piece};
use doc_page_parts::text::Text;
use doc_resolve::{LinkKind, kinds};
use std::collections::BTreeSet;
use std::marker::Model;

/// What an index knows of a page. The anchors of its headings stand in a tree besides, so that one is found in the time of a logarithm.
#[derive(Drop)]
pub struct Known {
    page: PageLinks,
    anchors: BTreeSet<Text, Heap>,
}

impl Model for Known {
    ghost use Rattle.doc_links_pages.specs.declared.page_links.PageLinks.{PageLinks};

    ghost Value = { PageLinks };

    ghost use Rattle.doc_links_pages.specs.KnownSteps.{HasAnchors};

    ghost view = { λ k. k.page };

    ghost invariant = { λ k. HasAnchors k.page.headings k.anchors };
}

impl Known {
    /// What is known of the page at a path by its pieces and headings; and the paths that its links write, each with their number.
    pub fn with_keys(
        heap: Heap,
        path: &Path,
        pieces: &[Piece],
        headings: &[Heading],
    ) -> Result<(Known, BTreeMap<String, u64>), Memory>
        ensures known { IfOk result (λ both.
            both.0 ≡ page_links path.now pieces.now headings.now) }
        ensures keys { IfOk result (λ both. HasKeys both.0.links (text_map both.1)) }
    {
        let links = List::new(kinds(heap, path, pieces)?);
        let keys = keys_of(heap, links.get())?;
        let anchors = anchors_of(heap, headings)?;
        let headings = copy_of_headings(heap, headings)?;
        let page = PageLinks { links, headings };
        Ok((Known { page, anchors }, keys))
    }

    pub fn links(&self) -> &[LinkKind]
        ensures { result.now ≡ self.now.links }
    {
        self.page.links.get()
    }

    pub fn headings(&self) -> &[Heading]
        ensures { result.now ≡ self.now.headings }
    {
        self.page.headings.get()
    }

    /// Whether a heading of the page has this anchor.
    pub fn has_anchor(&self, anchor: &Text) -> bool
        ensures { result ≡ has_anchor self.now.headings anchor.now }
    {
        self.anchors.contains(anchor)
    }
}

/// The anchors of these headings.
fn anchors_of(heap: Heap, headings: &[Heading]) -> Result<BTreeSet<Text, Heap>, Memory>
    ensures { IfOk result (λ anchors. HasAnchors headings.now anchors) }
{
    let mut anchors = BTreeSet::new(heap);
    for heading in headings {
        anchors.insert(heading.anchor.copy(heap)?)?;
    }
    Ok(anchors)
}
