//! The edits of a journal happen again.

ghost use Rattle.std.specs.Prelude.{◌≡◌, ◌≢◌, Ok, Err, IfOk, IfErr, OnOk};
ghost use Rattle.doc_server_restore.specs.Restores.{HaveEffect, after_record, edit_in, edits_of, made, restored};
ghost use Rattle.doc_server_restore.specs.RestoreSteps.{Tells, TellsLine, line_refused, made_by, made_of};

use crate::edits::Edits;
use crate::fault::RestoreFault;
use crate::record::edits_of;
use doc_hub::event::Event;
use doc_page_parts::bytes::Bytes;
use doc_page_parts::failure::Memory;
use doc_page_parts::heap::Heap;
use doc_store::site_edit::SiteEdit;

/// Makes the edits of a journal's records, in their order. A record is a text of lines, each the edit that doc_server_script reads
/// of it; none of a record's edits is made where one of its lines is none. The first record that is no such text, and the first of
/// which an edit is refused, ends it: then the edits before it stand.
pub fn restore<E: Edits>(heap: Heap, site: &mut E, records: &[Bytes]) -> Result<(), RestoreFault>
    ensures restored { OnOk result
        (restored (E.media site.old) (E.store site.old) records.now ≡ Ok (E.store site.new)) }
    ensures effect { OnOk result
        (HaveEffect records.now (E.store site.old) (E.store site.new)) }
    ensures fault { IfErr result (λ fault. fault ≢ RestoreFault.Memory
        → restored (E.media site.old) (E.store site.old) records.now ≡ Err fault) }
    ensures alike { E.alike site.old site.new }
{
    restore_all(heap, site, records)
}

/// Makes the edits of all records.
fn restore_all<E: Edits>(heap: Heap, site: &mut E, records: &[Bytes]) -> Result<(), RestoreFault>
    ensures restored { OnOk result
        (restored (E.media site.old) (E.store site.old) records.now ≡ Ok (E.store site.new)) }
    ensures fault { IfErr result (λ fault. fault ≢ RestoreFault.Memory
        → restored (E.media site.old) (E.store site.old) records.now ≡ Err fault) }
    ensures alike { E.alike site.old site.new }
{
    let mut number = 0;
    for record in records {
        number += 1;
        restore_record(heap, site, record.get(), number)?;
    }
    Ok(())
}

/// Makes the edits of the record of this number.
fn restore_record<E: Edits>(
    heap: Heap,
    site: &mut E,
    text: &[u8],
    number: usize,
) -> Result<(), RestoreFault>
    ensures restored { OnOk result
        (after_record (E.media site.old) (E.store site.old) number (edits_of text.now) ≡ Ok (E.store site.new)) }
    ensures fault { IfErr result (λ fault. fault ≢ RestoreFault.Memory
        → after_record (E.media site.old) (E.store site.old) number (edits_of text.now) ≡ Err fault) }
    ensures alike { E.alike site.old site.new }
{
    let Some(events) = edits_of(heap, text)? else {
        return Err(RestoreFault::BadRecord(number));
    };
    if let Some(line) = make_all(site, events.get())? {
        return Err(RestoreFault::Refused(number, line));
    }
    Ok(())
}

/// Makes the edits that these events are, up to the first that is refused, and answers which that is, counted from 1.
fn make_all<E: Edits>(site: &mut E, events: &[Event]) -> Result<Option<usize>, Memory>
    ensures made { IfOk result (λ line. TellsLine line
        (made_of (E.media site.old) (E.store site.old) events.now)
        (line_refused (E.media site.old) 1 (E.store site.old) events.now) (E.store site.new)) }
    ensures alike { E.alike site.old site.new }
{
    let mut number = 0;
    for event in events {
        number += 1;
        if !make(site, event)? {
            return Ok(Some(number));
        }
    }
    Ok(None)
}

/// Makes the edit that an event is, and answers whether it is accepted.
fn make<E: Edits>(site: &mut E, event: &Event) -> Result<bool, Memory>
    ensures made { IfOk result (λ accepted. Tells accepted
        (made_by (E.media site.old) (E.store site.old) (edit_in event.now)) (E.store site.new)) }
    ensures alike { E.alike site.old site.new }
{
    match event {
        Event::Site(edit) => make_edit(site, edit),
        _ => Ok(false),
    }
}

/// Makes an edit, and answers whether it is accepted.
fn make_edit<E: Edits>(site: &mut E, edit: &SiteEdit) -> Result<bool, Memory>
    ensures made { IfOk result (λ accepted. Tells accepted
        (made (E.media site.old) (E.store site.old) edit.now) (E.store site.new)) }
    ensures alike { E.alike site.old site.new }
{
    match edit {
        SiteEdit::Put(path, groups, text) => site.make_put(path, groups, text.get()),
        SiteEdit::Remove(path) => {
            site.make_remove(path);
            Ok(true)
        }
        SiteEdit::Move(from, to) => site.make_move(from, to),
    }
}
