//! Events, and what a step of a hub does.

use doc_media::media::Media;
use doc_page_parts::bytes::Bytes;
use doc_page_parts::text::Text;
use doc_store::reader::Reader;
use doc_store::readers::Readers;
use doc_store::site_edit::SiteEdit;

/// The number of a connection. The first one given is 1, and none is given twice.
#[derive(Clone, Copy, Debug, PartialEq, Eq)]
pub struct ConnId(pub u64);

/// What a step did on a connection.
#[derive(Debug, Drop)]
pub enum Step {
    /// A reply, after which the connection stays open.
    Sent(Bytes),
    /// A reply after which the connection is closed. Its unread bytes are dropped.
    Last(Bytes),
    /// The unread bytes are no whole request yet.
    More,
    /// The connection was closed before.
    Closed,
}

/// A call of a hub, with all that it takes: by its flat name one of Connect, Push, Step, Disconnect, Put,
/// Remove, MovePage, SetReader, RemoveReader, SetReaders, TakePuts and SetMedia.
#[derive(Debug, Drop)]
pub enum Event {
    Connect,
    /// Push, Step or Disconnect of a connection.
    On(ConnId, ConnectionEvent),
    /// Put, Remove or MovePage.
    Site(SiteEdit),
    /// SetReader, RemoveReader or SetReaders.
    Reader(ReaderEdit),
    /// From here on owners' puts are taken, or none is. It is the server's own: no script writes it.
    TakePuts(bool),
    /// From here on these media stand beside the pages, or none do. It is the server's own: no script writes it.
    SetMedia(Option<Media>),
}

/// What happens on a connection.
#[derive(Debug, Drop)]
pub enum ConnectionEvent {
    /// Its peer sent these bytes.
    Push(Bytes),
    Step,
    Disconnect,
}

/// An edit of the readers.
#[derive(Debug, Drop)]
pub enum ReaderEdit {
    /// A token, and the reader that it is for.
    Set(Text, Reader),
    /// The token's reader is removed.
    Remove(Text),
    /// The readers are these, and no others. It is the server's own: no script writes it.
    All(Readers),
}
