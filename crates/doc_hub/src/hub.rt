//! The hub: pages, readers and connections, and what each call does to them.
//!
//! A call looks first, then takes the memory that it needs, and changes the hub last: so a refused call
//! leaves the world as it was. A step goes so:
//!
//! 1. The unread bytes begin with a request, with a fault, or with neither yet.
//! 2. The reply to a request is written whole, from what the request's reader may see. It stands before
//!    the edit that the request asks for, since an edit that was made could not be taken back where the
//!    reply then found no memory.
//! 3. The edit is made. Where it finds no memory the reply is dropped, and the request waits.
//! 4. The bytes of the request are taken, and the connection closes or not; that takes no memory.

ghost use Rattle.std.specs.Prelude.{◌≡◌, ◌+◌, ◌&&◌, false, None, Ok, IfOk, option_copied, option_map};
ghost use Rattle.std.specs.FinMap as map;
ghost use Rattle.std.specs.List.{list_any};
ghost use Rattle.doc_page_parts.specs.Refusals.{IsAnswer};
ghost use Rattle.doc_hub.specs.Counts.{Counted, CountedAll, ran_out};
ghost use Rattle.doc_hub_events.specs.Events.{disconnect_on, push_on, step_on, stepping};
ghost use Rattle.doc_hub.specs.Runs.{Happens, Leaves, GivesRun};
ghost use Rattle.doc_hub.specs.StepEdits.{StepTells, step_in};
ghost use Rattle.doc_hub.specs.Worlds.{has_medium, hub_made, may_put, plain_settings, report_in, store_of};
ghost use Rattle.doc_hub_replies.specs.Shelves.{rendered_for};

use crate::connection::Connection;
use crate::connections::Connections;
use crate::media_to_set::{are_apart, copy_of};
use crate::telling::step_of;
use doc_http::request::Next;
use doc_http::unread::Unread;
use doc_http_targets::routes::Routes;
use doc_hub_events::event::{ConnId, ConnectionEvent, Event, ReaderEdit, Step};
use doc_hub_events::outcome::Outcome;
use doc_hub_events::refusal::{ConnectError, HubError, MediaSetError, PushError, StepError};
use doc_hub_replies::Shelf;
use doc_hub_replies::answer::answer_to_fault;
use doc_hub_replies::edit::Edit;
use doc_hub_replies::serving::Serving;
use doc_media::media::Media;
use doc_page::renderer::Renderer;
use doc_page_parts::failure::Memory;
use doc_page_parts::heap::{Heap, Vec};
use doc_page_parts::list::List;
use doc_page_parts::path::Path;
use doc_page_parts::text::Text;
use doc_people::settings::Settings;
use doc_store::groups::Groups;
use doc_store::moving::MoveError;
use doc_store::page::Page;
use doc_store::reader::Reader;
use doc_store::readers::{ReaderError, Readers, Set};
use doc_store::site_edit::SiteEdit;
use doc_store::store::{EditError, Put, Store};
use std::marker::Model;

/// The pages, the readers and the connections of a server. Contracts see the renderer beside the
/// world that the hub stands for; routes and the heap are in no contract.
///
/// A call that is refused leaves the world as it was. The hub keeps the heap that it was made with,
/// so its calls take none.
pub struct Hub<R: Renderer + Drop> {
    heap: Heap,
    routes: Routes,
    readers: Readers,
    settings: Settings,
    media: Option<Media>,
    shelf: Shelf<R>,
    takes_puts: bool,
    given: u64,
    connections: Connections,
}

/// Written out, so that it is proved here once: what a derived drop does is proved wherever a value is let go.
impl<R: Renderer + Drop> Drop for Hub<R> {
    fn drop(self) {
        let Hub {
            heap: _,
            routes: _,
            readers: _,
            settings: _,
            media: _,
            shelf: _,
            takes_puts: _,
            given: _,
            connections: _,
        } = self;
    }
}

impl<R: Renderer + Drop> Model for Hub<R> {
    ghost use Rattle.std.specs.Coded.{coded×};
    ghost use Rattle.doc_hub.specs.Connections.{HaveGivenNumbers};
    ghost use Rattle.doc_hub.specs.Worlds.{World, world_code};
    ghost use Rattle.doc_hub.specs.contracts.connection.Connection as one;
    ghost use Rattle.doc_people.specs.contracts.settings.Settings as settings_row;
    ghost use Rattle.doc_store_readers.specs.contracts.readers.Readers as reader_table;

    ghost Value = { R × World };

    ghost coded = { coded× R.code (world_code reader_table.the_row.coded settings_row.the_row.coded one.the_row.coded) };

    ghost view = { λ h. (
      h.shelf.0,
      record {
        site = h.shelf.1.site;
        media = h.media;
        puts = h.shelf.1.puts;
        takes_puts = h.takes_puts;
        readers = h.readers;
        settings = h.settings;
        given = h.given;
        connections = h.connections;
      },
    ) };

    ghost invariant = { λ h. HaveGivenNumbers h.given h.connections };
}

impl<R: Renderer + Drop> Hub<R> {
    /// A hub without pages and connections, which takes puts, and without pages for people. `keep_alive` says whether
    /// connections stay open where a request allows it. `cache` is how many documents of pages may be kept
    /// for the next reader, 1 to 4,096.
    pub fn new(
        heap: Heap,
        renderer: R,
        readers: Readers,
        keep_alive: bool,
        cache: usize,
    ) -> Result<Self, HubError>
        ensures { IsAnswer HubError.Memory
            (hub_made renderer readers (plain_settings keep_alive) None cache) result }
    {
        let settings = Settings {
            keep_alive,
            takes_edits: true,
            browse: None,
        };
        Hub::with_settings(heap, renderer, readers, settings, cache)
    }

    /// The same with these settings, which no event changes. With pages for people the hub keeps what these
    /// are made of beside the documents.
    pub fn with_settings(
        heap: Heap,
        renderer: R,
        readers: Readers,
        settings: Settings,
        cache: usize,
    ) -> Result<Self, HubError>
        ensures { IsAnswer HubError.Memory (hub_made renderer readers settings None cache) result }
    {
        Hub::with_media(heap, renderer, readers, settings, cache, None)
    }

    /// The same with these media beside the pages, or with none at all: then no path is kept for any.
    pub fn with_media(
        heap: Heap,
        renderer: R,
        readers: Readers,
        settings: Settings,
        cache: usize,
        media: Option<Media>,
    ) -> Result<Self, HubError>
        ensures { IsAnswer HubError.Memory (hub_made renderer readers settings media cache) result }
    {
        if cache < 1 || cache > 4096 {
            return Err(HubError::BadCapacity);
        }
        let Ok(shelf) = Shelf::new(heap, renderer, cache, settings.browse.is_some()) else {
            return Err(HubError::Memory);
        };
        Ok(Hub {
            heap,
            routes: Routes::new(heap)?,
            readers,
            settings,
            media,
            shelf,
            takes_puts: true,
            given: 0,
            connections: Connections::new(heap),
        })
    }

    /// One more connection, open and without unread bytes, under a number that has none.
    #[tactic(auto, unfolding(crate::specs::Worlds::last_id))]
    pub fn connect(&mut self) -> Result<ConnId, ConnectError>
        ensures world { Happens (R.page self.old.0) self.old.1 Event.Connect self.new.1 result }
        ensures fresh { IfOk result (λ id. map.get self.old.1.connections id.0 ≡ None) }
        ensures same { R.page self.new.0 ≡ R.page self.old.0 }
        ensures counted { R.count self.new.0 ≡ R.count self.old.0 }
    {
        if self.given == u64::MAX {
            return Err(ConnectError::NoIds);
        }
        let id = self.given + 1;
        let connection = Connection {
            unread: Unread::new(self.heap),
            closed: false,
        };
        self.connections.insert(id, connection)?;
        self.given = id;
        Ok(ConnId(id))
    }

    /// Bytes that a connection's peer sent.
    pub fn push(&mut self, id: ConnId, bytes: &[u8]) -> Result<(), PushError>
        ensures world { Happens (R.page self.old.0) self.old.1
            (push_on id bytes.now) self.new.1 result }
        ensures same { R.page self.new.0 ≡ R.page self.old.0 }
        ensures counted { R.count self.new.0 ≡ R.count self.old.0 }
    {
        self.connections.push(id.0, bytes)
    }

    /// Answers the request or fault at the front of a connection's unread bytes, if they hold one, and
    /// makes the edit that it asks for. `Memory` says that nothing was sent and nothing changed: the
    /// request waits.
    pub fn step(&mut self, id: ConnId) -> Result<Step, StepError>
        ensures world { Happens (R.page self.old.0) self.old.1 (step_on id) self.new.1 result }
        ensures same { R.page self.new.0 ≡ R.page self.old.0 }
        ensures counted { Counted (R.page self.old.0) (R.count self.old.0) self.old.1
            (R.count self.new.0) self.new.1 (step_on id) (stepping result) }
    {
        let (step, _edit) = self.step_edited(id)?;
        Ok(step)
    }

    /// The same step, and beside it the edit that its request asked for and that it made, if any: so that a
    /// server can write it down before the next step. The text of a page that was put stands under its path
    /// then, and is copied nowhere. It takes no more memory than `step`, which no clause says.
    pub fn step_edited(&mut self, id: ConnId) -> Result<(Step, Option<Edit>), StepError>
        ensures world { Happens (R.page self.old.0) self.old.1
            (step_on id) self.new.1 (step_in result) }
        ensures edit { IfOk result
            (λ told. StepTells (R.page self.old.0) self.old.1 id.0 told.1) }
        ensures same { R.page self.new.0 ≡ R.page self.old.0 }
        ensures counted { Counted (R.page self.old.0) (R.count self.old.0) self.old.1
            (R.count self.new.0) self.new.1 (step_on id) (stepping (step_in result)) }
    {
        let Some(connection) = self.connections.get(id.0) else {
            return Err(StepError::NoConnection);
        };
        if connection.closed {
            return Ok((Step::Closed, None));
        }
        match self.connections.next_request(id.0)? {
            Next::More => Ok((Step::More, None)),
            Next::Fault { code, bare } => {
                let bytes = answer_to_fault(self.heap, code, bare)?;
                self.connections.finish(id.0, 0, true);
                Ok((Step::Last(bytes), None))
            }
            Next::Request { used, request } => {
                let serving = Serving {
                    heap: self.heap,
                    routes: &self.routes,
                    readers: &self.readers,
                    settings: &self.settings,
                    media: &self.media,
                    takes_puts: self.takes_puts,
                };
                let answer = serving.answer(&mut self.shelf, &request)?;
                self.connections.finish(id.0, used, answer.closes);
                Ok(step_of(answer))
            }
        }
    }

    /// Drops a connection with its unread bytes; `false` says that there is none. Its number stays
    /// given, and calls on it answer that there is no such connection. It takes no memory.
    pub fn disconnect(&mut self, id: ConnId) -> bool
        ensures world { Happens (R.page self.old.0) self.old.1
            (disconnect_on id) self.new.1 result }
        ensures same { R.page self.new.0 ≡ R.page self.old.0 }
        ensures counted { R.count self.new.0 ≡ R.count self.old.0 }
    {
        self.connections.remove(id.0)
    }

    /// The bytes of a connection that no reply has answered yet, so that a server can tell what its next step costs.
    pub fn unread(&self, id: ConnId) -> Option<&[u8]>
        ensures { option_copied result
            ≡ option_map (λ c. c.unread) (map.get self.now.1.connections id.0) }
    {
        let Some(connection) = self.connections.get(id.0) else {
            return None;
        };
        Some(connection.unread.get())
    }

    /// Whether owners' puts are taken, so that a server can tell what the next edit may be.
    pub fn takes_puts(&self) -> bool
        ensures { result ≡ self.now.1.takes_puts }
    {
        self.takes_puts
    }

    /// How many pages stand.
    pub fn len(&self) -> usize
        ensures { result ≡ map.len self.now.1.site.pages }
    {
        self.shelf.store().pages().len()
    }

    /// The pages as they stand, to be compared with others.
    pub fn store(&self) -> &Store
        ensures site { result.now.site ≡ self.now.1.site }
        ensures puts { result.now.puts ≡ self.now.1.puts }
    {
        self.shelf.store()
    }

    /// The media that are served beside the pages.
    pub fn media(&self) -> &Option<Media>
        ensures { result.now ≡ self.now.1.media }
    {
        &self.media
    }

    /// The page of a path with its groups and its text, where one stands there.
    pub fn page(&self, path: &Path) -> Option<&Page>
        ensures { option_map (λ page. page.now.page) result
            ≡ map.get self.now.1.site.pages path.now }
    {
        self.shelf.store().get(path)
    }

    /// Whether a medium stands under a path, seen or not.
    fn has_medium(&self, path: &Path) -> bool
        ensures { result ≡ has_medium self.now.1.media path.now }
    {
        match &self.media {
            Some(media) => media.contains(path),
            None => false,
        }
    }

    /// Puts a page under a path, in place of the one that stands there. Refused are, in this order, `Taken`, where a medium stands
    /// there, `TooLong`, `StoreFull` and `Memory`.
    pub fn put_page(&mut self, path: &Path, groups: &Groups, text: &str) -> Result<Put, EditError>
        ensures world { Happens (R.page self.old.0) self.old.1
            (Event.Site (SiteEdit.Put path.now groups.now text.now)) self.new.1 result }
        ensures same { R.page self.new.0 ≡ R.page self.old.0 }
        ensures counted { R.count self.new.0 ≡ R.count self.old.0
            + rendered_for (may_put self.old.1.media (store_of self.old.1) path.now text.now) }
    {
        if self.has_medium(path) {
            return Err(EditError::Taken);
        }
        self.shelf.put(path, groups, text)
    }

    /// Removes the page of a path with its aliases; `false` says that none stands there. It takes no
    /// memory.
    pub fn remove_page(&mut self, path: &Path) -> bool
        ensures world { Happens (R.page self.old.0) self.old.1
            (Event.Site (SiteEdit.Remove path.now)) self.new.1 result }
        ensures same { R.page self.new.0 ≡ R.page self.old.0 }
        ensures counted { R.count self.new.0 ≡ R.count self.old.0 }
    {
        self.shelf.remove(path)
    }

    /// Takes the page of one path to another, and leaves the old path as an alias of it. Refused are,
    /// in this order, `NoPage`, `Taken`, where a page or a medium stands under the new path, `StoreFull` and `Memory`.
    pub fn move_page(&mut self, from: &Path, to: &Path) -> Result<(), MoveError>
        ensures world { Happens (R.page self.old.0) self.old.1
            (Event.Site (SiteEdit.Move from.now to.now)) self.new.1 result }
        ensures same { R.page self.new.0 ≡ R.page self.old.0 }
        ensures counted { R.count self.new.0 ≡ R.count self.old.0 }
    {
        if self.moves_onto_medium(from, to) {
            return Err(MoveError::Taken);
        }
        self.shelf.move_page(from, to)
    }

    /// Whether a page stands under one path, and a medium under the other.
    fn moves_onto_medium(&self, from: &Path, to: &Path) -> bool
        ensures { result ≡ (map.contains_key self.now.1.site.pages from.now
            && has_medium self.now.1.media to.now) }
    {
        self.page(from).is_some() && self.has_medium(to)
    }

    /// Sets the reader of a token, and no other. A request that a later step answers with it is that
    /// reader's, also on a connection that stands. Refused are, in this order, `BadToken` and `Memory`.
    pub fn set_reader(&mut self, token: &str, reader: &Reader) -> Result<Set, ReaderError>
        ensures world { Happens (R.page self.old.0) self.old.1
            (Event.Reader (ReaderEdit.Set token.now reader.now)) self.new.1 result }
        ensures same { R.page self.new.0 ≡ R.page self.old.0 }
        ensures counted { R.count self.new.0 ≡ R.count self.old.0 }
    {
        self.readers.set(token, reader)
    }

    /// Removes the reader of a token, and no other; `false` says that there is none. It takes no
    /// memory.
    pub fn remove_reader(&mut self, token: &str) -> bool
        ensures world { Happens (R.page self.old.0) self.old.1
            (Event.Reader (ReaderEdit.Remove token.now)) self.new.1 result }
        ensures same { R.page self.new.0 ≡ R.page self.old.0 }
        ensures counted { R.count self.new.0 ≡ R.count self.old.0 }
    {
        self.readers.remove(token)
    }

    /// Sets the readers, all at once: nobody is found but by these from here on. It takes no memory, and isn't refused.
    pub fn set_readers(&mut self, readers: Readers)
        ensures world { Happens (R.page self.old.0) self.old.1
            (Event.Reader (ReaderEdit.All readers)) self.new.1 (Ok tt) }
        ensures same { R.page self.new.0 ≡ R.page self.old.0 }
        ensures counted { R.count self.new.0 ≡ R.count self.old.0 }
    {
        self.readers = readers;
    }

    /// The same with a copy of these readers. `Memory` says that there was no room for one: then nothing changes.
    fn set_copies(&mut self, readers: &Readers) -> Result<(), ReaderError>
        ensures world { Happens (R.page self.old.0) self.old.1
            (Event.Reader (ReaderEdit.All readers.now)) self.new.1 result }
        ensures same { R.page self.new.0 ≡ R.page self.old.0 }
        ensures counted { R.count self.new.0 ≡ R.count self.old.0 }
    {
        let copies = readers.copy(self.heap)?;
        self.set_readers(copies);
        Ok(())
    }

    /// Sets the media, all at once: these stand beside the pages from here on, or none do. `Taken` says that one of them has the path of a
    /// page, or of an alias; then nothing changes. It takes no memory.
    pub fn set_media(&mut self, media: Option<Media>) -> Result<(), MediaSetError>
        ensures world { Happens (R.page self.old.0) self.old.1
            (Event.SetMedia media) self.new.1 result }
        ensures same { R.page self.new.0 ≡ R.page self.old.0 }
        ensures counted { R.count self.new.0 ≡ R.count self.old.0 }
    {
        if !are_apart(self.shelf.store(), &media) {
            return Err(MediaSetError::Taken);
        }
        self.media = media;
        Ok(())
    }

    /// The same with a copy of these media. `Memory` says that there was no room for one: then nothing changes.
    fn set_media_copies(&mut self, media: &Option<Media>) -> Result<(), MediaSetError>
        ensures world { Happens (R.page self.old.0) self.old.1
            (Event.SetMedia media.now) self.new.1 result }
        ensures same { R.page self.new.0 ≡ R.page self.old.0 }
        ensures counted { R.count self.new.0 ≡ R.count self.old.0 }
    {
        if !are_apart(self.shelf.store(), media) {
            return Err(MediaSetError::Taken);
        }
        let copies = copy_of(self.heap, media)?;
        self.set_media(copies)
    }

    /// Whether owners' puts are taken from here on, with the moves and the changes of groups that ask for a stamp as they do. Where they
    /// aren't, each is answered as by a store that takes no more; all else is answered as ever. It takes no memory.
    pub fn take_puts(&mut self, takes: bool)
        ensures world { Happens (R.page self.old.0) self.old.1
            (Event.TakePuts takes) self.new.1 result }
        ensures same { R.page self.new.0 ≡ R.page self.old.0 }
        ensures counted { R.count self.new.0 ≡ R.count self.old.0 }
    {
        self.takes_puts = takes;
    }

    /// The lines of the links that are broken for the reader of a token, each a page, a number of a link there, a reason and what the
    /// link leads to. There are none where no reader has the token.
    pub fn report(&mut self, token: &str) -> Result<Option<Text>, Memory>
        ensures report { IfOk result (λ text. text
            ≡ report_in (R.page self.old.0) self.old.1 token.now) }
        ensures same { self.new ≡ self.old }
    {
        let Some(reader) = self.readers.find(token) else {
            return Ok(None);
        };
        Ok(Some(self.shelf.report(reader, &self.media)?))
    }

    /// Makes these events happen in their order, each in what those before it left, and answers what
    /// came of each. One that is refused does nothing, and the next one follows. `Memory` says that
    /// there was no room for the outcomes: then no event happened.
    pub fn run(&mut self, events: &[Event]) -> Result<List<Outcome>, Memory>
        ensures world { GivesRun (R.page self.old.0) events.now self.old.1 self.new.1 result }
        ensures same { R.page self.new.0 ≡ R.page self.old.0 }
        ensures counted { IfOk result (λ told. list_any ran_out told ≡ false → CountedAll
            (R.page self.old.0) events.now (R.count self.old.0) self.old.1 (R.count self.new.0)
            self.new.1 told) }
    {
        let mut outcomes = Vec::with_capacity(self.heap, events.len())?;
        for event in events {
            let outcome = self.happen(event);
            outcomes.push(outcome).unwrap();
        }
        Ok(List::new(outcomes))
    }

    /// Makes an event happen: its call, and what comes of it.
    pub fn happen(&mut self, event: &Event) -> Outcome
        ensures world { Leaves (R.page self.old.0) self.old.1 event.now self.new.1 result }
        ensures same { R.page self.new.0 ≡ R.page self.old.0 }
        ensures counted { Counted (R.page self.old.0) (R.count self.old.0) self.old.1
            (R.count self.new.0) self.new.1 event.now result }
    {
        match event {
            Event::Connect => Outcome::from(self.connect()),
            Event::On(id, call) => self.happen_on(*id, call),
            Event::Site(edit) => self.edit_site(edit),
            Event::Reader(edit) => self.edit_reader(edit),
            Event::TakePuts(takes) => {
                self.take_puts(*takes);
                Outcome::PutsSet
            }
            Event::SetMedia(media) => Outcome::from(self.set_media_copies(media)),
        }
    }

    /// The call of an event on a connection.
    fn happen_on(&mut self, id: ConnId, call: &ConnectionEvent) -> Outcome
        ensures world { Leaves (R.page self.old.0) self.old.1
            (Event.On id call.now) self.new.1 result }
        ensures same { R.page self.new.0 ≡ R.page self.old.0 }
        ensures counted { Counted (R.page self.old.0) (R.count self.old.0) self.old.1
            (R.count self.new.0) self.new.1 (Event.On id call.now) result }
    {
        match call {
            ConnectionEvent::Push(bytes) => Outcome::from(self.push(id, bytes.get())),
            ConnectionEvent::Step => Outcome::from(self.step(id)),
            ConnectionEvent::Disconnect => Outcome::Disconnected(self.disconnect(id)),
        }
    }

    /// The call of an edit of the site.
    fn edit_site(&mut self, edit: &SiteEdit) -> Outcome
        ensures world { Leaves (R.page self.old.0) self.old.1
            (Event.Site edit.now) self.new.1 result }
        ensures same { R.page self.new.0 ≡ R.page self.old.0 }
        ensures counted { Counted (R.page self.old.0) (R.count self.old.0) self.old.1
            (R.count self.new.0) self.new.1 (Event.Site edit.now) result }
    {
        match edit {
            SiteEdit::Put(path, groups, text) => {
                Outcome::from(self.put_page(path, groups, text.get()))
            }
            SiteEdit::Remove(path) => Outcome::Removed(self.remove_page(path)),
            SiteEdit::Move(from, to) => Outcome::from(self.move_page(from, to)),
        }
    }

    /// The call of an edit of the readers.
    fn edit_reader(&mut self, edit: &ReaderEdit) -> Outcome
        ensures world { Leaves (R.page self.old.0) self.old.1
            (Event.Reader edit.now) self.new.1 result }
        ensures same { R.page self.new.0 ≡ R.page self.old.0 }
        ensures counted { Counted (R.page self.old.0) (R.count self.old.0) self.old.1
            (R.count self.new.0) self.new.1 (Event.Reader edit.now) result }
    {
        match edit {
            ReaderEdit::Set(token, reader) => Outcome::from(self.set_reader(token.get(), reader)),
            ReaderEdit::Remove(token) => Outcome::ReaderRemoved(self.remove_reader(token.get())),
            ReaderEdit::All(readers) => Outcome::from(self.set_copies(readers)),
        }
    }
}
