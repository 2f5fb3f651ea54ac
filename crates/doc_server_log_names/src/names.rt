//! The readers of a configuration, as the log names them.

ghost use Rattle.std.specs.Prelude.{◌≡◌, IfOk, OnOk, codes, option_copied, option_and_then};
ghost use Rattle.std.specs.FinMap as map;
ghost use Rattle.doc_server_log_names.specs.Names.{AreNamesIn, AreNamesOf, IsWithRow, name_in};
ghost use Rattle.sha2.specs.Sha256.{sha256};
ghost use Rattle.toml.specs.Data.{as_str, get};
ghost use Rattle.toml.specs.View.{items_view, table_view, view};

use crate::digest::{digest_in, digest_of};
use crate::listed::ListedReader;
use doc_page_parts::failure::Memory;
use doc_page_parts::heap::{BTreeMap, Heap};
use doc_page_parts::text::Text;
use doc_server_names::reader_name::ReaderName;
use doc_store_readers::tables::tables_at;
use std::marker::Model;
use toml::{Table, Value};

/// The readers of a configuration by the SHA-256 of their tokens. Contracts see the map.
#[derive(Drop)]
pub struct Names {
    rows: BTreeMap<[u8; 32], ListedReader>,
}

impl Model for Names {
    ghost use Rattle.std.specs.Coded.{coded_ℕ, coded_list};
    ghost use Rattle.std.specs.FinMap as map;
    ghost use Rattle.doc_server_log_names.specs.Names.{NameTable};
    ghost use Rattle.doc_server_log_names.specs.contracts.listed.ListedReader as one;

    ghost Value = { NameTable };

    ghost coded = { map.code (coded_list coded_ℕ) one.the_row.coded };

    ghost view = { λ n. map.from_entries n.rows.entries };
}

impl Names {
    /// No readers.
    pub fn none(heap: Heap) -> Names
        ensures { result ≡ map.empty }
    {
        Names {
            rows: BTreeMap::new(heap),
        }
    }

    /// The readers of a document: the tables of its array `reader`, each with a `token` (RFC 6750, section 2.1) or a `token_sha256`, the
    /// SHA-256 of one in 64 hexadecimal digits, and perhaps with a `name`. Of two rows with one digest the first counts.
    pub fn of_document(heap: Heap, document: &Table) -> Result<Names, Memory>
        ensures { IfOk result (λ names. AreNamesOf (table_view document.now) names) }
    {
        match tables_at(document, "reader") {
            Some(rows) => Names::of_rows(heap, rows),
            None => Ok(Names::none(heap)),
        }
    }

    /// The readers of rows.
    fn of_rows(heap: Heap, rows: &[Value]) -> Result<Names, Memory>
        ensures { IfOk result (λ names. AreNamesIn (items_view rows.now) names) }
    {
        let mut names = Names::none(heap);
        for (index, row) in rows.iter().enumerate() {
            names.add(heap, index + 1, row)?;
        }
        Ok(names)
    }

    /// Adds the reader of a row, where no earlier one has its digest.
    fn add(&mut self, heap: Heap, number: usize, row: &Value) -> Result<(), Memory>
        ensures { OnOk result (IsWithRow self.old number (view row.now) self.new) }
    {
        let Some(digest) = digest_in(row) else {
            return Ok(());
        };
        if self.with_digest(&digest).is_some() {
            return Ok(());
        }
        let name = name_in(heap, row)?;
        self.insert(digest, ListedReader { row: number, name })
    }

    /// Sets the reader of a digest.
    fn insert(&mut self, digest: [u8; 32], reader: ListedReader) -> Result<(), Memory>
        ensures { OnOk result (self.new ≡ map.insert self.old digest reader) }
    {
        self.rows.insert(digest, reader)?;
        Ok(())
    }

    fn with_digest(&self, digest: &[u8; 32]) -> Option<&ListedReader>
        ensures { option_copied result ≡ map.get self.now digest.now }
    {
        self.rows.get(digest)
    }

    /// The reader of a token.
    pub fn find(&self, token: &str) -> Option<&ListedReader>
        ensures { option_copied result ≡ map.get self.now (sha256 token.now) }
    {
        self.with_digest(&digest_of(token))
    }
}

/// The name in a row, where it is one.
fn name_in(heap: Heap, row: &Value) -> Result<Option<ReaderName>, Memory>
    ensures { IfOk result (λ name. name ≡ name_in (view row.now)) }
{
    let Some(text) = name_written(row) else {
        return Ok(None);
    };
    Ok(ReaderName::new(Text::copy_of(heap, text)?))
}

/// The string that a row has as its name.
fn name_written(row: &Value) -> Option<&str>
    ensures { option_copied result ≡ option_and_then as_str (get (codes "name") (view row.now)) }
{
    row.get("name")?.as_str()
}
