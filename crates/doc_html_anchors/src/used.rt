//! The anchors that a page has used.
ghost use Rattle.std.specs.Prelude.{◌≡◌, [], ◌∷◌, chars, IfOk, OnErr, List};
ghost use Rattle.doc_rules.specs.Anchors.{anchor_name, free_anchor};
ghost use Rattle.doc_rules.specs.Characters as rules;
ghost use Rattle.doc_html_anchors.specs.Uses.{Uses};

use crate::names::anchor_name;
use crate::numbers::give;
use doc_page_parts::failure::Memory;
use doc_page_parts::heap::{BTreeMap, Heap, String};
use doc_page_parts::text::Text;
use std::marker::Model;

/// The anchors that a page has used. Contracts see a list of them, in an order that means nothing, and say by `Uses` which ones they are.
#[derive(Drop)]
pub struct Anchors {
    // each anchor with the next number that may be free behind it
    entries: BTreeMap<String, u64>,
}

impl Model for Anchors {
    ghost use Rattle.std.specs.Prelude.{ℕ, List as Seq};
    ghost use Rattle.doc_html_anchors.specs.Numbers.{names, AreNumbered};

    ghost Value = { Seq (Seq ℕ) };

    ghost view = { λ a. names a.entries };

    ghost invariant = { λ a. AreNumbered a.entries };
}

impl Anchors {
    /// No anchors. Takes no memory.
    pub fn new(heap: Heap) -> Self
        ensures { Uses result [] }
    {
        Anchors {
            entries: BTreeMap::new(heap),
        }
    }

    /// The anchor of the next heading, which has this plain text: its name where that is free, else its name with the least number
    /// from 1 that makes an anchor that is free. A number that was found used behind a name isn't tried there again, so all headings
    /// of a page together take near linear time.
    pub fn next(&mut self, heap: Heap, text: &str) -> Result<Text, Memory>
        ensures ok { (used : List rules.Text) → Uses self.old used
            → IfOk result (λ anchor. (chars anchor
            ≡ free_anchor used (anchor_name (chars text.now)))
            × Uses self.new (free_anchor used (anchor_name (chars text.now)) ∷ used)) }
        ensures err { OnErr result (self.new ≡ self.old) }
    {
        let name = anchor_name(heap, text)?;
        give(&mut self.entries, heap, name)
    }
}
