//! The container blocks round what is written.
ghost use Rattle.std.specs.Prelude.{◌≡◌, OnOk};
ghost use Rattle.doc_blocks_starts.specs.Tags.{container_shown};
ghost use Rattle.doc_rules.specs.Html.{is_tight_inside};
ghost use Rattle.doc_html.specs.TellingSteps.{outside, entered, left};

use doc_blocks_starts::tag::ContainerBlock;
use doc_page_parts::failure::Memory;
use doc_page_parts::heap::{Heap, Vec};
use std::marker::Model;

/// Whether what is written stands directly in an item of a tight list, and the same outside each container block round it, the outermost
/// one first. Contracts see the innermost one first.
#[derive(Drop)]
pub(crate) struct Nesting {
    outer: Vec<bool>,
    tight: bool,
}

impl Model for Nesting {
    ghost use Rattle.std.specs.Prelude.{reverse};
    ghost use Rattle.doc_html.specs.TellingSteps.{Nested};

    ghost Value = { Nested };

    ghost view = { λ nesting. record { tight = nesting.tight; outer = reverse nesting.outer.items } };
}

impl Nesting {
    /// In no container block. Takes no memory.
    pub(crate) fn new(heap: Heap) -> Nesting
        ensures { result ≡ outside }
    {
        Nesting {
            outer: Vec::new(heap),
            tight: false,
        }
    }

    pub(crate) fn is_tight(&self) -> bool
        ensures { result ≡ self.now.tight }
    {
        self.tight
    }

    /// Into a container block.
    pub(crate) fn enter(&mut self, container: ContainerBlock) -> Result<(), Memory>
        ensures { OnOk result (self.new ≡ entered (container_shown container) self.old) }
    {
        self.outer.push(self.tight)?;
        self.tight = is_tight_inside(self.tight, container);
        Ok(())
    }

    /// Out of the innermost one.
    pub(crate) fn leave(&mut self)
        ensures { self.new ≡ left self.old }
    {
        if let Some(tight) = self.outer.pop() {
            self.tight = tight;
        }
    }
}

/// The same inside a container block: in a list and in its items it is whether the list is tight (section 5.3).
#[tactic(auto, unfolding(doc_rules::specs::Html::is_tight_inside, doc_blocks_starts::specs::Tags::container_shown))]
fn is_tight_inside(tight: bool, container: ContainerBlock) -> bool
    ensures { result ≡ is_tight_inside tight (container_shown container) }
{
    match container {
        ContainerBlock::Quote => false,
        ContainerBlock::List { start: _, tight } => tight,
        ContainerBlock::Item => tight,
    }
}
