//! What a record of a journal says.

ghost use Rattle.std.specs.Prelude.{◌≡◌, IfOk, None, option_and_then};
ghost use Rattle.std.specs.List.{list_all};
ghost use Rattle.std.specs.Result.{result_ok};
ghost use Rattle.doc_server_script.specs.Scripts.{events_of};
ghost use Rattle.doc_server_restore.specs.Restores.{edits_in, edits_of};
ghost use Rattle.doc_server_restore.specs.RestoreSteps.{Reads, is_edit};

use doc_hub::event::Event;
use doc_page_parts::failure::Memory;
use doc_page_parts::heap::Heap;
use doc_page_parts::list::List;
use doc_server_script::script::events_of;
use doc_server_streams::fault::Fault;
use std::str;

/// The edits of a record's text, as events. `None` says that it isn't UTF-8, or that a line of it is no edit.
pub fn edits_of(heap: Heap, text: &[u8]) -> Result<Option<List<Event>>, Memory>
    ensures { IfOk result (λ events. Reads (edits_of text.now) events) }
{
    match str::from_utf8(text) {
        Ok(script) => edits_in(heap, script),
        Err(_) => Ok(None),
    }
}

/// The edits of a script, as events.
fn edits_in(heap: Heap, script: &str) -> Result<Option<List<Event>>, Memory>
    ensures { IfOk result (λ events.
        Reads (option_and_then edits_in (result_ok (events_of script.now))) events) }
{
    let events = match events_of(heap, script) {
        Ok(events) => events,
        Err(Fault::Memory) => return Err(Memory),
        Err(_) => return Ok(None),
    };
    if !are_edits(events.get()) {
        return Ok(None);
    }
    Ok(Some(events))
}

fn are_edits(events: &[Event]) -> bool
    ensures { result ≡ list_all is_edit events.now }
{
    events.iter().all(is_edit)
}

fn is_edit(event: &Event) -> bool
    ensures { result ≡ is_edit event.now }
{
    matches!(event, Event::Site(_))
}
