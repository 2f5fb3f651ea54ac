//! Edits written to a journal, a line each, many lines in a record.

ghost use Rattle.std.specs.Prelude.{◌≡◌, ◌≤◌, ◌+◌, [], ◌∷◌, length, string_bytes, OnOk};
ghost use Rattle.doc_server_journal_records.specs.Records.{IsPlain, text_limit};
ghost use Rattle.doc_store_readers.specs.Groups.{texts_of};
ghost use Rattle.doc_store.specs.Store.{set_page, remove_page, move_page};
ghost use Rattle.doc_store.specs.declared.site_edit.SiteEdit.{SiteEdit};
ghost use Rattle.doc_server_script.specs.Compactions.{made_along, moves};
ghost use Rattle.doc_server_script.specs.PageLines.{line_of};
ghost use Rattle.doc_server_restore.specs.WriterSteps.{IsWriter, Wrote};

use crate::compact_fault::CompactFault;
use doc_page_parts::heap::{Heap, String};
use doc_page_parts::path::Path;
use doc_server_journal::device::Device;
use doc_server_journal::journal::{Journal, RECORD_BESIDE};
use doc_server_journal_records::record::TEXT_LIMIT;
use doc_server_script::bytes::{page_bytes, path_bytes};
use doc_server_script::page_lines::{push_move_line, push_put_line, push_remove_line};
use doc_store::page::Page;

/// A journal that edits are written to, and the lines of those that aren't in a record of it yet.
#[derive(Drop)]
pub(crate) struct EditWriter<D: Device> {
    pub(crate) journal: Journal<D>,
    pub(crate) text: String,
    /// What its records say of their time.
    pub(crate) seconds: u64,
}

impl<D: Device> EditWriter<D> {
    /// Writes a put.
    pub(crate) fn put(&mut self, heap: Heap, path: &Path, page: &Page) -> Result<(), CompactFault>
        requires { IsWriter D.seen D.may_leave D.failed D.stale self.old }
        ensures { OnOk result (Wrote D.seen D.may_leave D.failed D.stale self.old self.new
            (set_page path.now page.now.page ∷ [])) }
    {
        let mut line = String::new(heap);
        push_put_line(&mut line, path, page)?;
        page_bytes(path, page);
        self.add(heap, line.as_str())
    }

    /// Writes a removal.
    pub(crate) fn remove(&mut self, heap: Heap, path: &Path) -> Result<(), CompactFault>
        requires { IsWriter D.seen D.may_leave D.failed D.stale self.old }
        ensures { OnOk result (Wrote D.seen D.may_leave D.failed D.stale self.old self.new
            (remove_page path.now ∷ [])) }
    {
        let mut line = String::new(heap);
        push_remove_line(&mut line, path)?;
        path_bytes(path);
        self.add(heap, line.as_str())
    }

    /// Writes a move.
    fn move_page(&mut self, heap: Heap, from: &Path, to: &Path) -> Result<(), CompactFault>
        requires { IsWriter D.seen D.may_leave D.failed D.stale self.old }
        ensures { OnOk result (Wrote D.seen D.may_leave D.failed D.stale self.old self.new
            (move_page from.now to.now ∷ [])) }
    {
        let mut line = String::new(heap);
        push_move_line(&mut line, from, to)?;
        path_bytes(from);
        path_bytes(to);
        self.add(heap, line.as_str())
    }

    /// Writes the edits that make a page along its names: a put under the first of them, and a move from each to the next.
    pub(crate) fn make_along(
        &mut self,
        heap: Heap,
        page: &Page,
        names: &[&Path],
    ) -> Result<(), CompactFault>
        requires { IsWriter D.seen D.may_leave D.failed D.stale self.old }
        ensures { OnOk result (Wrote D.seen D.may_leave D.failed D.stale self.old self.new
            (made_along page.now.page (texts_of names.now))) }
    {
        match names {
            [] => Ok(()),
            [first, others @ ..] => {
                self.put(heap, first, page)?;
                self.move_along(heap, first, others)
            }
        }
    }

    /// Writes a move from each name to the next.
    fn move_along(&mut self, heap: Heap, from: &Path, names: &[&Path]) -> Result<(), CompactFault>
        requires { IsWriter D.seen D.may_leave D.failed D.stale self.old }
        ensures { OnOk result (Wrote D.seen D.may_leave D.failed D.stale self.old self.new
            (moves from.now (texts_of names.now))) }
    {
        let mut last = from;
        'names: for name in names {
            self.move_page(heap, last, name)?;
            last = *name;
        }
        Ok(())
    }

    /// Writes the line of an edit. Where no room is left for it in the record of those before it, it begins another.
    #[tactic(auto, unfolding(doc_server_journal_records::specs::Records::text_limit))]
    fn add(&mut self, heap: Heap, line: &str) -> Result<(), CompactFault>
        requires writer { IsWriter D.seen D.may_leave D.failed D.stale self.old }
        requires plain { IsPlain line.now }
        ensures { (edit : SiteEdit) → line.now ≡ line_of edit
            → OnOk result (Wrote D.seen D.may_leave D.failed D.stale self.old self.new
            (edit ∷ [])) }
    {
        if line.len() > TEXT_LIMIT {
            return Err(CompactFault::TooLong);
        }
        self.make_room(heap, line.len())?;
        self.text.push_str(line)?;
        Ok(())
    }

    /// Makes room for so many bytes more in a record.
    #[tactic(auto, unfolding(doc_server_journal_records::specs::Records::text_limit))]
    fn make_room(&mut self, heap: Heap, len: usize) -> Result<(), CompactFault>
        requires writer { IsWriter D.seen D.may_leave D.failed D.stale self.old }
        requires within { len ≤ text_limit }
        ensures wrote { OnOk result
            (Wrote D.seen D.may_leave D.failed D.stale self.old self.new []) }
        ensures room { OnOk result (length (string_bytes self.new.text) + len ≤ text_limit) }
    {
        if self.text.len() + len <= TEXT_LIMIT {
            return Ok(());
        }
        self.end_record(heap)
    }

    /// Adds the record of the lines that are in none yet, where the device has room for it.
    pub(crate) fn end_record(&mut self, heap: Heap) -> Result<(), CompactFault>
        requires { IsWriter D.seen D.may_leave D.failed D.stale self.old }
        ensures wrote { OnOk result
            (Wrote D.seen D.may_leave D.failed D.stale self.old self.new []) }
        ensures none { OnOk result (string_bytes self.new.text ≡ []) }
    {
        if !self.journal.make_room(self.text.len() + RECORD_BESIDE)? {
            return Err(CompactFault::Full);
        }
        self.journal
            .append(heap, self.seconds, self.text.as_bytes())?;
        self.text.clear();
        Ok(())
    }
}
