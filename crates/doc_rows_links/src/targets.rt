//! The paths that the links of a page write.

ghost use Rattle.std.specs.Prelude.{◌≡◌, IfOk, OnOk, string_bytes, map as mapped};
ghost use Rattle.std.specs.FinMap as map;
ghost use Rattle.doc_rows_links.specs.LinkRows.{AreTargets};
ghost use Rattle.doc_rows_links.specs.LinkSteps.{HasTarget};

use doc_page_parts::failure::Memory;
use doc_page_parts::heap::{BTreeMap, Heap, String};
use doc_resolve::LinkKind;
use std::collections::btree_map::Keys;
use std::marker::Model;

/// The paths that the links of a page write, each once. Contracts see the set as a map.
#[derive(Drop)]
pub struct Targets {
    paths: BTreeMap<String, ()>,
}

impl Model for Targets {
    ghost use Rattle.std.specs.Coded.{coded_ℕ, coded_list};
    ghost use Rattle.std.specs.FinMap as map;
    ghost use Rattle.std.specs.FinSet as set;
    ghost use Rattle.doc_index_tables.specs.Maps.{text_map};
    ghost use Rattle.doc_rows.specs.Rows.{TextSet};

    ghost Value = { TextSet };

    ghost coded = { set.code (coded_list coded_ℕ) };

    ghost view = { λ t. text_map t.paths };
}

impl Targets {
    /// No paths. It takes no memory.
    pub fn none(heap: Heap) -> Targets
        ensures { result ≡ map.empty }
    {
        Targets {
            paths: BTreeMap::new(heap),
        }
    }

    /// The paths that these links write.
    pub fn of(heap: Heap, links: &[LinkKind]) -> Result<Targets, Memory>
        ensures { IfOk result (λ targets. AreTargets links.now targets) }
    {
        let mut targets = Targets::none(heap);
        for link in links {
            targets.add(heap, link)?;
        }
        Ok(targets)
    }

    /// A path is among them.
    pub fn contains(&self, path: &str) -> bool
        ensures { result ≡ map.contains_key self.now path.now }
    {
        self.paths.contains_key(path)
    }

    /// The paths in their order.
    pub fn iter(&self) -> Keys<'_, String, ()>
        ensures { mapped string_bytes result ≡ map.keys self.now }
    {
        self.paths.keys()
    }

    /// Adds the path that a link writes, if it writes one.
    fn add(&mut self, heap: Heap, link: &LinkKind) -> Result<(), Memory>
        ensures { OnOk result (HasTarget self.old link.now self.new) }
    {
        let LinkKind::Page { path, anchor: _ } = link else {
            return Ok(());
        };
        self.paths.insert(String::from_str(heap, path.text())?, ())?;
        Ok(())
    }
}
