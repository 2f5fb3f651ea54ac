//! Lines of a script as events.

ghost use Rattle.std.specs.Prelude.{◌≡◌, IfOk};
ghost use Rattle.doc_server_script.specs.Escapes.{unescaped};
ghost use Rattle.doc_server_script.specs.Fields.{cut, connection_of, path_in};
ghost use Rattle.doc_server_script.specs.Lines.{call_with, event_by, event_of, event_of_fields, move_with, put_of, push_with, reader_of};
ghost use Rattle.doc_server_script.specs.Reads.{Reads};

use crate::command::{Command, command_of};
use crate::field_error::FieldError;
use crate::fields::{connection_of, cut, groups_in, owner_in, path_in, text_of};
use crate::unescaping::unescape;
use doc_hub_events::event::{ConnectionEvent, Event, ReaderEdit};
use doc_page_parts::failure::Memory;
use doc_page_parts::heap::Heap;
use doc_page_parts::text::Text;
use doc_store::reader::Reader;
use doc_store::site_edit::SiteEdit;

/// The event of a line, which is given without its line feed. `None` says that the line is bad.
#[tactic(auto, unfolding(crate::specs::Lines::event_of))]
pub fn event_of(heap: Heap, line: &str) -> Result<Option<Event>, Memory>
    ensures { IfOk result (λ event. event ≡ event_of line.now) }
{
    let Some((word, rest)) = cut(line) else {
        return Ok(if line == "connect" {
            Some(Event::Connect)
        } else {
            None
        });
    };
    let Some(command) = command_of(word) else {
        return Ok(None);
    };
    match event_by(heap, command, rest) {
        Ok(event) => Ok(Some(event)),
        Err(FieldError::Bad) => Ok(None),
        Err(FieldError::Memory) => Err(Memory),
    }
}

/// The event of a command and what follows its space.
fn event_by(heap: Heap, command: Command, rest: &str) -> Result<Event, FieldError>
    ensures { Reads (event_by command rest.now) result }
{
    match command {
        Command::Step => call_of(rest, ConnectionEvent::Step),
        Command::Disconnect => call_of(rest, ConnectionEvent::Disconnect),
        Command::Remove => Ok(Event::Site(SiteEdit::Remove(path_in(heap, rest)?))),
        Command::Unreader => Ok(Event::Reader(ReaderEdit::Remove(Text::copy_of(heap, rest)?))),
        _ => match cut(rest) {
            Some((first, more)) => event_of_fields(heap, command, first, more),
            None => Err(FieldError::Bad),
        },
    }
}

/// The event of a command with two fields or more.
fn event_of_fields(
    heap: Heap,
    command: Command,
    first: &str,
    more: &str,
) -> Result<Event, FieldError>
    ensures { Reads (event_of_fields command (first.now, more.now)) result }
{
    match command {
        Command::Push => push_of(heap, first, more),
        Command::Put => put_of(heap, first, more),
        Command::Move => move_of(heap, first, more),
        Command::Reader => reader_of(heap, first, more),
        _ => Err(FieldError::Bad),
    }
}

/// A call of a connection alone.
fn call_of(id: &str, call: ConnectionEvent) -> Result<Event, FieldError>
    ensures { Reads (call_with call (connection_of id.now)) result }
{
    match connection_of(id) {
        Some(id) => Ok(Event::On(id, call)),
        None => Err(FieldError::Bad),
    }
}

fn push_of(heap: Heap, id: &str, bytes: &str) -> Result<Event, FieldError>
    ensures { Reads (push_with (connection_of id.now) (unescaped bytes.now)) result }
{
    let Some(id) = connection_of(id) else {
        return Err(FieldError::Bad);
    };
    let Some(bytes) = unescape(heap, bytes)? else {
        return Err(FieldError::Bad);
    };
    Ok(Event::On(id, ConnectionEvent::Push(bytes)))
}

fn put_of(heap: Heap, path: &str, more: &str) -> Result<Event, FieldError>
    ensures { Reads (put_of path.now (cut more.now)) result }
{
    let Some((groups, text)) = cut(more) else {
        return Err(FieldError::Bad);
    };
    let path = path_in(heap, path)?;
    let groups = groups_in(heap, groups)?;
    let text = text_of(heap, text)?;
    Ok(Event::Site(SiteEdit::Put(path, groups, text)))
}

fn move_of(heap: Heap, from: &str, to: &str) -> Result<Event, FieldError>
    ensures { Reads (move_with (path_in from.now) (path_in to.now)) result }
{
    let from = path_in(heap, from)?;
    let to = path_in(heap, to)?;
    Ok(Event::Site(SiteEdit::Move(from, to)))
}

fn reader_of(heap: Heap, token: &str, more: &str) -> Result<Event, FieldError>
    ensures { Reads (reader_of token.now (cut more.now)) result }
{
    let Some((owner, groups)) = cut(more) else {
        return Err(FieldError::Bad);
    };
    let Some(owner) = owner_in(owner) else {
        return Err(FieldError::Bad);
    };
    let groups = groups_in(heap, groups)?;
    let token = Text::copy_of(heap, token)?;
    Ok(Event::Reader(ReaderEdit::Set(token, Reader { owner, groups })))
}
