//! The script of the command `replay`: one event a line.

ghost use Rattle.std.specs.Prelude.{◌≡◌, ◌≢◌, ◌<◌, [], ◌∷◌, length, None, Some, Ok, Err, IfOk, IfErr, MatchOption};
ghost use Rattle.doc_server_script.specs.Lines.{event_of};
ghost use Rattle.doc_server_script.specs.ScriptSteps.{cut};
ghost use Rattle.doc_server_script.specs.Scripts.{events_of, lines};

use crate::line::event_of;
use doc_hub_events::event::Event;
use doc_page_parts::failure::Memory;
use doc_page_parts::heap::{Heap, Vec};
use doc_page_parts::list::List;
use doc_server_streams::fault::Fault;

/// The events of a script, one a line. A line ends at a line feed alone, and the last one may end without. `BadScriptLine` has the
/// number of the first line that is no event, counted from 1; an empty line is none.
pub fn events_of(heap: Heap, script: &str) -> Result<List<Event>, Fault>
    ensures read { IfOk result (λ events. events_of script.now ≡ Ok events) }
    ensures fault { IfErr result (λ fault. fault ≢ Fault.Memory
        → events_of script.now ≡ Err fault) }
{
    let mut events = Vec::new(heap);
    let mut left = script;
    let mut number = 1;
    'lines: while let Some((line, more)) = first_line(left) {
        let event = event_at(heap, line, number)?;
        events.push(event).map_err(Memory::from)?;
        left = more;
        number += 1;
    }
    Ok(List::new(events))
}

/// The event of the line with this number.
fn event_at(heap: Heap, line: &str, number: u64) -> Result<Event, Fault>
    ensures read { IfOk result (λ event. event_of line.now ≡ Some event) }
    ensures fault { IfErr result (λ fault. fault ≢ Fault.Memory
        → (fault ≡ Fault.BadScriptLine number) × (event_of line.now ≡ None)) }
{
    match event_of(heap, line)? {
        Some(event) => Ok(event),
        None => Err(Fault::BadScriptLine(number)),
    }
}

/// The first line, without the line feed that ends it, and all that follows; none where nothing is left.
fn first_line(script: &str) -> Option<(&str, &str)>
    ensures { MatchOption result (script.now ≡ []) (λ cut.
        (lines script.now ≡ cut.0.now ∷ lines cut.1.now)
        × (length cut.1.now < length script.now)) }
{
    if script.is_empty() {
        return None;
    }
    match cut(script) {
        Some(cut) => Some(cut),
        None => Some((script, "")),
    }
}

/// What stands before the first line feed, and all that follows it.
fn cut(script: &str) -> Option<(&str, &str)>
    ensures { MatchOption result (cut script.now ≡ None)
        (λ parts. cut script.now ≡ Some (parts.0.now, parts.1.now)) }
{
    script.split_once('\n')
}
