//! What `listen` reads of a configuration.

ghost use Rattle.std.specs.Prelude.{◌≡◌, ◌≢◌, Ok, Err, IfOk, IfErr};
ghost use Rattle.toml.specs.View.{table_view};
ghost use Rattle.doc_server_config.specs.Listenings.{listening_of, listening_of_document};

use crate::bounds::{Bounds, bounds_in};
use crate::folder::{Folder, FolderFault, folders_of};
use crate::reader_names::bad_name_in;
use doc_page_parts::failure::Memory;
use doc_page_parts::heap::Heap;
use doc_page_parts::list::List;
use doc_store::readers::ReadersError;
use doc_store_readers::tables::{document_of, tables_at};
use std::error::Error;
use std::fmt;
use toml::Table;

/// Why a text says nothing that `listen` could go by. Folders and readers are counted from 1.
#[derive(Clone, Copy, Debug)]
pub enum ListeningError {
    /// The text is no TOML document.
    BadToml,
    /// `listen` is no table, or has a key other than `connections`, `idle_seconds`, `media_bytes`, `stranger_seconds`,
    /// `request_seconds` and `follow_millis`.
    BadListen,
    /// `connections` is no integer from 1 to 65,535.
    BadConnections,
    /// `idle_seconds` is no integer from 1 to 86,400.
    BadIdleSeconds,
    /// `media_bytes` is no integer from 1 to 1,073,741,824.
    BadMediaBytes,
    /// `stranger_seconds` is no integer from 1 to 86,400.
    BadStrangerSeconds,
    /// `request_seconds` is no integer from 1 to 86,400.
    BadRequestSeconds,
    /// `follow_millis` is no integer from 1 to 10,000.
    BadFollowMillis,
    /// `folder` is no array of tables.
    BadFolders,
    /// The first folder that is none, and its first fault.
    BadFolder(usize, FolderFault),
    /// The first reader whose `name` is no string of 1 to 32 of a-z, 0-9, `-`, `_`, `.` and `@`.
    BadName(usize),
    Memory,
}

impl fmt::Display for ListeningError {
    fn fmt<W: fmt::Write>(&self, f: &mut fmt::Formatter<W>) -> fmt::Result {
        let text = match self {
            ListeningError::BadToml => "no TOML",
            ListeningError::BadListen => "`listen` is bad",
            ListeningError::BadConnections => "`connections` is bad",
            ListeningError::BadIdleSeconds => "`idle_seconds` is bad",
            ListeningError::BadMediaBytes => "`media_bytes` is bad",
            ListeningError::BadStrangerSeconds => "`stranger_seconds` is bad",
            ListeningError::BadRequestSeconds => "`request_seconds` is bad",
            ListeningError::BadFollowMillis => "`follow_millis` is bad",
            ListeningError::BadFolders => "`folder` is bad",
            ListeningError::BadFolder(row, fault) => return write!(f, "folder {row}: {fault}"),
            ListeningError::BadName(row) => return write!(f, "reader {row}: `name` is bad"),
            ListeningError::Memory => return fmt::Display::fmt(&Memory, f),
        };
        f.write_str(text)
    }
}

impl Error for ListeningError {}

impl From<Memory> for ListeningError {
    ghost use Rattle.std.specs.Prelude.{◌≡◌};
    ghost use Rattle.doc_server_config.specs.declared.listening.ListeningError.TheVariants as refusals;

    ghost from_gives = { λ _ e. e ≡ refusals.Memory };

    fn from(_e: Memory) -> ListeningError {
        ListeningError::Memory
    }
}

/// What `listen` goes by.
#[derive(Drop)]
pub struct Listening {
    /// At most 65,535 connections, a day without a byte, and 1 GiB of media.
    pub bounds: Bounds,
    /// The folders in their order.
    pub folders: List<Folder>,
}

impl Listening {
    /// What `listen` goes by, of a TOML 1.1 document: its table `listen` with `connections` (1 to 65,535, else 1,024), `idle_seconds` (1 to
    /// 86,400, else 30), `media_bytes` (1 to 1,073,741,824, else 67,108,864), `stranger_seconds` (1 to 86,400, else 5), `request_seconds`
    /// (1 to 86,400, else 60) and `follow_millis` (1 to 10,000, else 20), and its array `folder`, each with a `path`, a `prefix` (else
    /// none), `groups` (an array of names, else none), `except` (an array of names of folders in it, else none), and what says how its
    /// files are taken ([`Folder`]). These tables have no other keys. Of the document's others the `name` of each `reader` is its concern
    /// (else none), and that alone. Refusals come in the order of [`ListeningError`], but that `Memory` may be answered before another one
    /// is found.
    pub fn from_toml(heap: Heap, text: &str) -> Result<Listening, ListeningError>
        ensures read { IfOk result (λ listening. listening_of text.now ≡ Ok listening) }
        ensures refused { IfErr result
            (λ e. e ≢ ListeningError.Memory → listening_of text.now ≡ Err e) }
    {
        let document = match document_of(heap, text) {
            Ok(document) => document,
            Err(ReadersError::Memory) => return Err(ListeningError::Memory),
            Err(_) => return Err(ListeningError::BadToml),
        };
        Listening::from_document(heap, &document)
    }

    /// The same of a document.
    pub(crate) fn from_document(heap: Heap, document: &Table) -> Result<Listening, ListeningError>
        ensures read { IfOk result (λ listening.
            listening_of_document (table_view document.now) ≡ Ok listening) }
        ensures refused { IfErr result (λ e. e ≢ ListeningError.Memory
            → listening_of_document (table_view document.now) ≡ Err e) }
    {
        let bounds = bounds_in(document)?;
        let Some(tables) = tables_at(document, "folder") else {
            return Err(ListeningError::BadFolders);
        };
        let folders = folders_of(heap, tables)?;
        match bad_name_in(document) {
            Some(row) => Err(ListeningError::BadName(row)),
            None => Ok(Listening { bounds, folders }),
        }
    }
}
