//! The renderer of CommonMark texts.
ghost use Rattle.std.specs.Prelude.{◌≡◌, ◌<◌, chars};
ghost use Rattle.doc_rules.specs.Pages.{rendered_of};
ghost use Rattle.doc_front.specs.Front.{front_of, none};

use crate::pages::page_of;
use doc_front::front_of;
use doc_front::rules::FrontRules;
use doc_lines::entities::Entities;
use doc_page::renderer::Renderer;
use doc_page_parts::count::Count;
use doc_page_parts::failure::Memory;
use doc_page_parts::heap::Heap;
use doc_page_parts::rendered::Rendered;
use std::marker::Model;
use std::sync::ledger::{Blank, Ledger};

/// Makes pages of CommonMark texts (0.31.2): their HTML, in the form of the specification's examples, cut at the opening tags of links;
/// each heading with its level, its anchor and its plain text; and the plain text of each paragraph, heading and cell of a table and the
/// content of each code block. Where the options say so, a page tells the destinations of its images too, in their order, but for those
/// that stand in another's text. Contracts see its rules (character references, extensions that are read, and whether images are told), how
/// many calls were made, and what it cuts of the front of a text.
#[derive(Drop)]
pub struct CommonMark<L: Ledger> {
    entities: Entities,
    count: Count<L>,
    front: FrontRules,
}

impl<L: Ledger> Model for CommonMark<L> {
    ghost use Rattle.std.specs.Prelude.{ℕ};
    ghost use Rattle.doc_rules.specs.Rules.{Rules};
    ghost use Rattle.doc_front.specs.declared.rules.FrontRules.{FrontRules};

    ghost Value = { Rules × ℕ × FrontRules };

    ghost view = { λ r. (r.entities, r.count, r.front) };
}

impl<L: Ledger> CommonMark<L> {
    /// A renderer that made no page yet, which goes by these rules and keeps its count in a blank book of the ledger. It reads texts as
    /// they stand.
    pub fn new(entities: Entities, blank: Blank) -> Self
        requires name { blank.name ≡ L.name }
        requires parts { blank.parts ≡ L.parts }
        requires some { 0 < L.parts }
        ensures { result ≡ (entities, 0, none) }
    {
        CommonMark::with_front(entities, blank, FrontRules::none())
    }

    /// The same, but that it reads texts without their fronts, by these rules.
    pub fn with_front(entities: Entities, blank: Blank, front: FrontRules) -> Self
        requires name { blank.name ≡ L.name }
        requires parts { blank.parts ≡ L.parts }
        requires some { 0 < L.parts }
        ensures { result ≡ (entities, 0, front) }
    {
        CommonMark {
            entities,
            count: Count::new(blank),
            front,
        }
    }
}

impl<L: Ledger> Renderer for CommonMark<L> {
    ghost page = { λ r text. rendered_of r.0 (front_of r.2 (chars text)) };

    ghost count = { λ r. r.1 };

    fn render(&mut self, heap: Heap, text: &str) -> Result<Rendered, Memory> {
        self.count.raise();
        let fronted = front_of(heap, self.front, text)?;
        page_of(heap, fronted.get(), &self.entities)
    }
}
