//! Bodies by path.

ghost use Rattle.std.specs.Prelude.{◌≡◌, OnOk, OnErr, option_copied, string_bytes};
ghost use Rattle.std.specs.FinMap as map;
ghost use Rattle.doc_shelf_bodies.specs.Tables.{AddsAtMost, bodies_in};

use crate::body::Body;
use doc_page_parts::failure::Memory;
use doc_page_parts::heap::{BTreeMap, Heap, String, Vec};
use doc_page_parts::list::List;
use std::marker::Model;

/// The bodies of each of some paths. Contracts see the map.
#[derive(Drop)]
pub struct BodyTable {
    rows: BTreeMap<String, List<Body>>,
}

impl Model for BodyTable {
    ghost use Rattle.std.specs.Coded.{coded_ℕ, coded_list};
    ghost use Rattle.std.specs.FinMap as map;
    ghost use Rattle.doc_index_tables.specs.Maps.{text_map};
    ghost use Rattle.doc_shelf_bodies.specs.Tables.{BodyMap};
    ghost use Rattle.doc_shelf_bodies.specs.contracts.body.Body as one;

    ghost Value = { BodyMap };

    ghost coded = { map.code (coded_list coded_ℕ) (coded_list one.the_row.coded) };

    ghost view = { λ t. text_map t.rows };
}

impl BodyTable {
    /// No bodies. It takes no memory.
    pub fn new(heap: Heap) -> BodyTable
        ensures { result ≡ map.empty }
    {
        BodyTable {
            rows: BTreeMap::new(heap),
        }
    }

    /// The bodies of a path.
    pub fn of_path(&self, path: &str) -> Option<&List<Body>>
        ensures { option_copied result ≡ map.get self.now path.now }
    {
        self.rows.get(path)
    }

    /// One body more of a path. Where memory is refused, those of the path may be gone.
    pub fn add(&mut self, heap: Heap, path: String, body: Body) -> Result<(), Memory>
        ensures { AddsAtMost self.old (string_bytes path) body self.new }
    {
        let mut bodies = self.take(heap, path.as_str());
        bodies.push(body)?;
        self.insert(path, List::new(bodies))
    }

    /// Takes the bodies of a path out.
    fn take(&mut self, heap: Heap, path: &str) -> Vec<Body>
        ensures taken { result.items ≡ bodies_in (map.get self.old path.now) }
        ensures rest { self.new ≡ map.remove self.old path.now }
    {
        bodies_of(heap, self.rows.remove(path))
    }

    fn insert(&mut self, path: String, bodies: List<Body>) -> Result<(), Memory>
        ensures ok { OnOk result (self.new ≡ map.insert self.old (string_bytes path) bodies) }
        ensures err { OnErr result (self.new ≡ self.old) }
    {
        self.rows.insert(path, bodies)?;
        Ok(())
    }

    /// Drops all. It takes no memory.
    pub fn clear(&mut self)
        ensures { self.new ≡ map.empty }
    {
        self.rows.clear();
    }
}

/// The bodies that were found, or none.
fn bodies_of(heap: Heap, found: Option<List<Body>>) -> Vec<Body>
    ensures { result.items ≡ bodies_in found }
{
    match found {
        Some(bodies) => bodies.into_inner(),
        None => Vec::new(heap),
    }
}
