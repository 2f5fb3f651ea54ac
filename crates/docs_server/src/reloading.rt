//! A configuration, read anew where a line on standard input asks for that.

ghost use Rattle.std.specs.Prelude.{◌≡◌, IfOk, None, OnErr};
ghost use Rattle.doc_server_files.specs.Configured.{IsConfigured};

use crate::changed::Changed;
use crate::gathered::{Gathered, Made, Pending};
use crate::listen_fault::ListenFault;
use crate::looks::Looks;
use crate::reading::{OpenedConfig, ReadFolders, Reading};
use crate::refusals::Refusals;
use crate::reload_fault::ReloadFault;
use crate::shared::Shared;
use crate::told_folders::tell_passed;
use doc_media::media::Media;
use doc_page_parts::failure::Memory;
use doc_page_parts::heap::Heap;
use doc_page_parts::text::Text;
use doc_server_config::document::Document;
use doc_server_files::bounded::{Bounded, bounded_with, opened_of, written_of};
use doc_server_files::files::{Site, read_file};
use doc_server_files::gathered_media::are_served;
use doc_server_files::seen_files::SeenFiles;
use doc_server_files::told_faults::tell_refusal;
use doc_server_files::written::Written;
use doc_server_journal::clock::seconds_of;
use doc_server_serving::given::Configuration;
use doc_server_serving::net::reloaded::Reloaded;
use doc_server_streams::input::Input as _;
use doc_server_streams::read_from::ReadFrom;
use std::fmt::Display;
use std::rt::{Clock, Files};
use toml::{Table, Value};

/// How many bytes of standard input are read at once.
const MOST_BYTES: usize = 4_096;

/// The line that asks for a reload.
const RELOAD: &str = "reload";

/// What stands in front of why a reload is refused.
pub const REFUSED: &str = "reload refused";

/// The key of the readers in a configuration.
const READERS: &str = "reader";

/// The keys of its pages.
const PAGES: &str = "page";

const FOLDERS: &str = "folder";

/// A configuration that is served, and that can be read anew.
pub struct Reloading<'a, P: Files> {
    pub rt: &'a P,
    pub heap: Heap,
    /// The name of its file.
    name: &'a str,
    /// What it is as it is served.
    document: Document,
    /// How many media are served.
    media_count: usize,
    /// What was given, until it is told what came of it.
    pub given: Option<Pending>,
    /// How often something was given.
    pub count: u64,
    /// Where the log finds the names of new readers, and the door what stands.
    shared: &'a Shared,
    looks: Looks<P>,
    refusals: Refusals,
}

/// Written out, so that it is proved here once: what a derived drop does is proved wherever a value is let go.
impl<P: Files + Drop> Drop for Reloading<'_, P> {
    fn drop(self) {
        let Reloading {
            rt: _,
            heap: _,
            name: _,
            document: _,
            media_count: _,
            given: _,
            count: _,
            shared: _,
            looks: _,
            refusals: _,
        } = self;
    }
}

impl<'a, P: AllocGlobal + Clock + Clone + Drop + Eprint + Files + Input> Reloading<'a, P> {
    /// A configuration that is served, the file of this name, beside so many media. After so many seconds each it is looked whether files
    /// have changed, where there are any.
    pub fn new(
        rt: &'a P,
        name: &'a str,
        watch: Option<u32>,
        document: Document,
        media_count: usize,
        shared: &'a Shared,
    ) -> Reloading<'a, P>
        ensures { result.count ≡ 0 }
    {
        Reloading {
            rt,
            heap: rt.alloc(),
            name,
            document,
            media_count,
            given: None,
            count: 0,
            shared,
            looks: Looks::new(rt, watch),
            refusals: Refusals::none(),
        }
    }

    /// Whether what has come on standard input asks for a reload. Each other line is told.
    pub fn is_asked(&self) -> bool {
        let mut buf = [0; MOST_BYTES];
        let count = match ReadFrom::new(self.rt.reader()).read(&mut buf) {
            Ok(count) => count,
            Err(_) => 0,
        };
        let mut asks = false;
        for line in buf[..count].split(|byte| *byte == b'\n') {
            if line == RELOAD.as_bytes() {
                asks = true;
            } else if !line.is_empty() {
                let _ = eprintln!(self.rt; "unknown line");
            }
        }
        asks
    }

    /// Whether it is to be looked whether files have changed.
    pub fn is_looking(&self) -> bool {
        self.looks.is_due(self.rt)
    }

    /// Looks whether files have changed, at some of them.
    pub fn has_changed(&mut self) -> bool
        ensures count { self.new.count ≡ self.old.count }
        ensures given { self.new.given ≡ self.old.given }
    {
        self.looks.look(self.rt, self.heap)
    }

    /// Whether somebody asked for the reload that began last.
    pub fn was_asked(&self) -> bool {
        self.refusals.is_asked()
    }

    /// The next look finds all changed.
    pub fn look_again(&mut self)
        ensures count { self.new.count ≡ self.old.count }
        ensures given { self.new.given ≡ self.old.given }
    {
        self.looks.note(self.rt, None);
    }

    /// A reload begins, and the pause to the next look. Where it is quiet nobody has asked for it: then it isn't told that nothing has
    /// changed, nor twice why it is refused.
    pub fn begin_reload(&mut self, is_quiet: bool)
        ensures count { self.new.count ≡ self.old.count }
        ensures given { self.new.given ≡ self.old.given }
    {
        self.looks.rest(self.rt);
        self.refusals.begin(is_quiet);
    }

    /// What the file and those that it names give as they are now, all read at once. Where it is refused all stays as it was, and its
    /// faults are told behind a word, where there is one.
    pub fn reload(
        &mut self,
        served: &Option<Media>,
        word: Option<&str>,
    ) -> Result<Configuration, ReloadFault>
        ensures given { IfOk result (λ given. IsConfigured given.pages) }
        ensures count { self.new.count ≡ self.old.count }
        ensures refused { OnErr result (self.new.document ≡ self.old.document) }
    {
        let config = self.open(word)?;
        let reading = Reading::all(self.rt, self.heap, config)?;
        let gathered = self.end(served, reading)?;
        let made = gathered.make(self.heap).map_err(ListenFault::from)?;
        Ok(self.give(made))
    }

    /// The document that the file is now, and what it says, read up to its folders. Where it is refused its faults are told behind a word,
    /// where there is one.
    fn open(&mut self, word: Option<&str>) -> Result<OpenedConfig, ReloadFault>
        ensures count { self.new.count ≡ self.old.count }
        ensures given { self.new.given ≡ self.old.given }
        ensures document { self.new.document ≡ self.old.document }
    {
        self.looks.note(self.rt, None);
        let seen = SeenFiles::of_config(self.rt, self.heap, self.name)?;
        let text = read_file(self.rt, self.heap, self.name).map_err(ListenFault::from)?;
        match written_of(self.heap, &text) {
            Ok((document, written)) => self.open_files(document, written, seen),
            Err(fault) => {
                self.looks.note(self.rt, Some(seen));
                self.tell_faults(word, &text);
                Err(ReloadFault::from(fault))
            }
        }
    }

    /// Tells the faults of this text of the configuration behind a word, where there is one.
    fn tell_faults(&mut self, word: Option<&str>, text: &str)
        ensures count { self.new.count ≡ self.old.count }
        ensures given { self.new.given ≡ self.old.given }
        ensures document { self.new.document ≡ self.old.document }
    {
        let Some(word) = word else {
            return;
        };
        if self.refusals.tells_faults(self.heap, text) {
            tell_refusal(self.rt, self.heap, word, self.name, text);
        }
    }

    /// A document and what it says, with the files that it names.
    fn open_files(
        &mut self,
        document: Document,
        written: Written,
        seen: SeenFiles,
    ) -> Result<OpenedConfig, ReloadFault>
        ensures count { self.new.count ≡ self.old.count }
        ensures given { self.new.given ≡ self.old.given }
        ensures document { self.new.document ≡ self.old.document }
    {
        let seen = self.seen_of(&document, &written, seen)?;
        let opened = opened_of(self.rt, self.heap, written)?;
        Ok(OpenedConfig {
            document,
            opened,
            seen,
        })
    }

    /// The files as they were seen, with those that a configuration names. Where something else than readers and pages has changed in its
    /// document it is refused.
    fn seen_of(
        &mut self,
        document: &Document,
        written: &Written,
        seen: SeenFiles,
    ) -> Result<SeenFiles, ReloadFault>
        ensures count { self.new.count ≡ self.old.count }
        ensures given { self.new.given ≡ self.old.given }
        ensures document { self.new.document ≡ self.old.document }
    {
        match changed_key(self.heap, &self.document.table, &document.table)? {
            None => {
                let seen = seen.with_named(self.rt, self.heap, &written.config)?;
                Ok(seen.with_places(self.rt, self.heap, written.folders.get())?)
            }
            Some(key) => {
                self.looks.note(self.rt, Some(seen));
                Err(ReloadFault::Changed(key))
            }
        }
    }

    /// Begins to read the file and those that it names, some at a time. Where it is refused its faults are told.
    pub fn begin(&mut self) -> Result<Reading<P>, ReloadFault>
        ensures count { self.new.count ≡ self.old.count }
    {
        let config = self.open(Some(REFUSED))?;
        Ok(Reading::begin(self.heap, config)?)
    }

    /// What a document and the files that it names give, which are read.
    pub fn end(
        &mut self,
        served: &Option<Media>,
        reading: Reading<P>,
    ) -> Result<Gathered, ReloadFault>
        ensures count { self.new.count ≡ self.old.count }
        ensures document { self.new.document ≡ self.old.document }
    {
        let ReadFolders {
            document,
            opened,
            rows,
            seen,
        } = reading.end();
        self.looks.note(self.rt, Some(seen));
        let bounded = bounded_with(self.heap, opened, rows)?;
        self.take(served, document, bounded)
    }

    /// What a configuration gives, whose files are read.
    fn take(
        &self,
        served: &Option<Media>,
        document: Document,
        bounded: Bounded,
    ) -> Result<Gathered, ReloadFault> {
        let Bounded {
            site,
            bounds: _,
            media,
            media_paths,
            moves,
            passed,
            names,
        } = bounded;
        let paths = media_paths.get();
        let has_other_media = paths.len() != self.media_count || !are_served(served, &media, paths);
        tell_passed(self.rt, passed.get());
        let Site { pages, entities: _ } = site;
        Ok(Gathered {
            pending: Pending {
                document,
                names,
                media_count: paths.len(),
                has_other_media,
            },
            pages,
            moves,
            media,
        })
    }

    /// What is served, once what was made is in force.
    pub fn give(&mut self, made: Made) -> Configuration
        ensures given { IsConfigured result.pages }
        ensures count { self.new.count ≡ self.old.count }
        ensures document { self.new.document ≡ self.old.document }
    {
        let (pending, configuration) = made.end();
        self.given = Some(pending);
        configuration
    }

    /// Tells what came of a reload: it is served from here on.
    pub fn tell_served(&mut self, reloaded: Reloaded)
        ensures count { self.new.count ≡ self.old.count }
        ensures given { self.new.given ≡ None }
    {
        let changed = self.serve_given();
        let Reloaded {
            put,
            removed,
            records: _,
        } = reloaded;
        if !changed.is_any() && put == 0 && removed == 0 {
            self.tell_nothing();
            return;
        }
        self.shared.tell_reload(seconds_of(self.rt));
        self.tell_made("reload", changed, reloaded);
    }

    /// Tells that a reload has changed nothing, where somebody asked for it.
    fn tell_nothing(&self) {
        if self.refusals.is_asked() {
            let _ = eprintln!(self.rt; "reload: nothing has changed");
        }
    }

    /// Tells what stands by a reload, or by what this word says.
    pub fn tell_made(&self, what: &str, changed: Changed, reloaded: Reloaded) {
        let Reloaded {
            put,
            removed,
            records,
        } = reloaded;
        let readers = reader_count(&self.document.table);
        let media = if changed.media { ", other media" } else { "" };
        let _ = eprintln!(self.rt;
            "{what}: {readers} readers, {put} pages put, {removed} removed{media} (record {records})"
        );
    }

    /// A reload is refused: what was given isn't served.
    pub fn refuse<F: Display>(&mut self, fault: &F)
        ensures count { self.new.count ≡ self.old.count }
        ensures given { self.new.given ≡ None }
    {
        self.given = None;
        if self.refusals.tells(self.heap, fault) {
            self.shared.tell_refusal();
            let _ = eprintln!(self.rt; "{REFUSED}: {fault}");
        }
    }

    /// What was given isn't served.
    pub fn forget(&mut self)
        ensures count { self.new.count ≡ self.old.count }
        ensures given { self.new.given ≡ None }
    {
        self.given = None;
    }

    /// What was given is served from here on, and the log finds its readers' names. Answers what is another than before.
    pub fn serve_given(&mut self) -> Changed
        ensures count { self.new.count ≡ self.old.count }
        ensures given { self.new.given ≡ None }
    {
        let Some(
            Pending {
                document,
                names,
                media_count,
                has_other_media,
            },
        ) = self.given.take()
        else {
            return Changed::NOTHING;
        };
        let readers = !has_same_readers(&self.document.table, &document.table);
        self.refusals.forget();
        self.document = document;
        self.media_count = media_count;
        self.shared.names.set(Some(names));
        Changed {
            readers,
            media: has_other_media,
        }
    }

    /// A turn has ended: so many pages stand, and where there is a journal its records end behind so many bytes.
    pub fn note(&self, pages: usize, journal_bytes: Option<usize>) {
        self.shared.tell_standing(pages, journal_bytes);
    }
}

/// The first key, but those of the readers and pages, that two documents don't have alike.
fn changed_key(heap: Heap, old: &Table, new: &Table) -> Result<Option<Text>, Memory> {
    match key_apart(heap, old, new)? {
        Some(key) => Ok(Some(key)),
        None => key_apart(heap, new, old),
    }
}

/// The first key of a document, but those of the readers and pages, that another doesn't have so.
fn key_apart(heap: Heap, document: &Table, other: &Table) -> Result<Option<Text>, Memory> {
    'keys: for (key, value) in document.iter() {
        if !is_reloaded(key.as_str()) && !has(other, key.as_str(), value) {
            return Ok(Some(Text::copy_of(heap, key.as_str())?));
        }
    }
    Ok(None)
}

/// Whether a reload reads anew what stands under this key.
fn is_reloaded(key: &str) -> bool {
    key == READERS || key == PAGES || key == FOLDERS
}

/// Whether a document has this value under the key.
fn has(document: &Table, key: &str, value: &Value) -> bool {
    match document.get(key) {
        Some(found) => found == value,
        None => false,
    }
}

/// Whether two documents have the same readers, or none.
fn has_same_readers(old: &Table, new: &Table) -> bool {
    match old.get(READERS) {
        Some(readers) => has(new, READERS, readers),
        None => new.get(READERS).is_none(),
    }
}

/// How many readers a document has.
fn reader_count(document: &Table) -> usize {
    match document.get(READERS) {
        Some(Value::Array(rows)) => rows.len(),
        _ => 0,
    }
}
