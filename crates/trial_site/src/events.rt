//! Events, as a line writes them: `connect`, `push ID BYTES`, `step ID`, `disconnect ID`, `put PATH | GROUPS | TEXT`, `remove PATH`,
//! `move FROM | TO`, `reader TOKEN | READER`, where the reader is `owner` or has these groups, `unreader TOKEN`, `readers TOML`, and
//! `puts taken` or `puts refused`, and `media` with what `media` says.

use crate::given::{both, connection, groups_of, id_and_bytes, path_of, reader_of, text_of, two};
use crate::media::set_media;
use crate::stop::Stop;
use doc_hub::event::{ConnectionEvent, Event, ReaderEdit};
use doc_page_parts::bytes::Bytes;
use doc_page_parts::heap::{Heap, Vec};
use doc_page_parts::path::Path;
use doc_store::readers::Readers;
use doc_store::site_edit::SiteEdit;

/// Events with ` ; ` between two.
pub fn events_of(heap: Heap, given: &str) -> Result<Vec<Event>, Stop> {
    let mut events = Vec::new(heap);
    match push_events(heap, &mut events, given) {
        Ok(()) => Ok(events),
        Err(stop) => Err(stop),
    }
}

fn push_events(heap: Heap, events: &mut Vec<Event>, given: &str) -> Result<(), Stop> {
    for line in given.split(" ; ") {
        push_event(heap, events, line)?;
    }
    Ok(())
}

fn push_event(heap: Heap, events: &mut Vec<Event>, line: &str) -> Result<(), Stop> {
    let (name, given) = line.split_once(' ').unwrap_or((line, ""));
    events.push(event_of(heap, name, given)?)?;
    Ok(())
}

/// The event of this name.
pub fn event_of(heap: Heap, name: &str, given: &str) -> Result<Event, Stop> {
    match name {
        "connect" => Ok(Event::Connect),
        "push" => push(heap, given),
        "step" => Ok(Event::On(connection(given)?, ConnectionEvent::Step)),
        "disconnect" => Ok(Event::On(connection(given)?, ConnectionEvent::Disconnect)),
        "puts" => puts(given),
        _ => edit_of(heap, name, given),
    }
}

/// The event of this name that changes pages, readers or media.
fn edit_of(heap: Heap, name: &str, given: &str) -> Result<Event, Stop> {
    match name {
        "put" => put(heap, given),
        "remove" => Ok(Event::Site(SiteEdit::Remove(path_of(heap, given)?))),
        "move" => move_page(heap, given),
        "reader" => set_reader(heap, given),
        "unreader" => Ok(Event::Reader(ReaderEdit::Remove(text_of(heap, given)?))),
        "readers" => set_readers(heap, given),
        "media" => set_media(heap, given),
        _ => Err(Stop::NoCall),
    }
}

fn puts(given: &str) -> Result<Event, Stop> {
    match given {
        "taken" => Ok(Event::TakePuts(true)),
        "refused" => Ok(Event::TakePuts(false)),
        _ => Err(Stop::NoCall),
    }
}

fn push(heap: Heap, given: &str) -> Result<Event, Stop> {
    let (id, bytes) = id_and_bytes(heap, given)?;
    Ok(Event::On(id, ConnectionEvent::Push(Bytes::new(bytes))))
}

fn put(heap: Heap, given: &str) -> Result<Event, Stop> {
    let (path, rest) = two(given)?;
    let (groups, text) = two(rest)?;
    put_at(heap, path_of(heap, path)?, groups, text)
}

fn put_at(heap: Heap, path: Path, groups: &str, text: &str) -> Result<Event, Stop> {
    let (groups, text) = both(groups_of(heap, groups), text_of(heap, text))?;
    Ok(Event::Site(SiteEdit::Put(path, groups, text)))
}

fn move_page(heap: Heap, given: &str) -> Result<Event, Stop> {
    let (from, to) = two(given)?;
    let (from, to) = both(path_of(heap, from), path_of(heap, to))?;
    Ok(Event::Site(SiteEdit::Move(from, to)))
}

fn set_reader(heap: Heap, given: &str) -> Result<Event, Stop> {
    let (token, reader) = two(given)?;
    let (token, reader) = both(text_of(heap, token), reader_of(heap, reader))?;
    Ok(Event::Reader(ReaderEdit::Set(token, reader)))
}

fn set_readers(heap: Heap, given: &str) -> Result<Event, Stop> {
    let config = text_of(heap, given)?;
    Ok(Event::Reader(ReaderEdit::All(Readers::from_toml(heap, config.get())?)))
}
