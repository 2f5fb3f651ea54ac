//! The journal that another server writes, taken as far as it stands.

ghost use Rattle.std.specs.Prelude.{IfOk};
ghost use Rattle.docs_server.specs.Followed.{AreAllTaken};

use crate::growing_file::GrowingFile;
use crate::listen_fault::ListenFault;
use doc_page_parts::bytes::Bytes;
use doc_page_parts::failure::Memory;
use doc_page_parts::heap::{Heap, Vec};
use doc_page_parts::list::List;
use doc_server_follow::followed::{Begun, Followed, begin};
use doc_server_follow::growing::Growing;
use doc_server_follow::growing_fault::GrowingFault;
use doc_server_follow::looked::Looked;
use doc_server_journal::fault::OpenFault;
use doc_server_restore::fault::RestoreFault;
use doc_server_streams::fault::Fault;
use doc_server_streams::whole_input::cannot_read;
use std::fs::File;
use std::rt::Files;

/// How often a journal is looked at before what it gives is served, and about how many bytes it gives then.
const LOOKS: u32 = 64;

const MOST_BYTES: usize = 1_048_576;

/// The file of a journal, and how far it was taken.
pub struct FollowedJournal {
    pub file: GrowingFile,
    pub followed: Followed,
}

/// Written out, so that it is proved here once: what a derived drop does is proved wherever a value is let go.
impl Drop for FollowedJournal {
    fn drop(self) {
        let FollowedJournal {
            file: _,
            followed: _,
        } = self;
    }
}

impl FollowedJournal {
    /// Looks at it, and takes the records that are new: those of about a mebibyte. At `Err` nothing is taken.
    pub fn look(&mut self, heap: Heap) -> Result<Looked, GrowingFault> {
        let mut followed = self.followed;
        let looked = look_on(heap, &mut followed, &mut self.file)?;
        self.followed = followed;
        Ok(looked)
    }
}

/// Looks at a journal as often as more stands there, until about a mebibyte was taken.
fn look_on<F: Growing>(
    heap: Heap,
    followed: &mut Followed,
    file: &mut F,
) -> Result<Looked, GrowingFault> {
    let begin = followed.end();
    let mut texts = Vec::new(heap);
    'looks: for _ in 0..LOOKS {
        match followed.look(heap, file)? {
            Looked::More(more) => add_texts(&mut texts, more)?,
            looked if texts.is_empty() => return Ok(looked),
            _ => return Ok(Looked::More(List::new(texts))),
        }
        if followed.end().saturating_sub(begin) >= MOST_BYTES {
            return Ok(Looked::More(List::new(texts)));
        }
    }
    Ok(Looked::More(List::new(texts)))
}

/// Adds texts behind others.
fn add_texts(texts: &mut Vec<Bytes>, more: List<Bytes>) -> Result<(), Memory> {
    for text in more.into_inner() {
        texts.push(text)?;
    }
    Ok(())
}

/// Opens the journal of this name, and takes all that stands in it: its texts. It is read again, twice at most, where it looks damaged: its
/// server may be writing it.
pub fn take_journal<R: Files<File = File>>(
    rt: &R,
    heap: Heap,
    name: &str,
) -> Result<(FollowedJournal, List<Bytes>), ListenFault>
    ensures { IfOk result (λ taken. AreAllTaken taken.0.followed taken.1) }
{
    match take_once(rt, heap, name) {
        Err(ListenFault::Journal(OpenFault::Damaged(_))) => (),
        taken => return taken,
    }
    match take_once(rt, heap, name) {
        Err(ListenFault::Journal(OpenFault::Damaged(_))) => take_once(rt, heap, name),
        taken => taken,
    }
}

/// Opens the journal of this name, and takes all that stands in it.
fn take_once<R: Files<File = File>>(
    rt: &R,
    heap: Heap,
    name: &str,
) -> Result<(FollowedJournal, List<Bytes>), ListenFault>
    ensures { IfOk result (λ taken. AreAllTaken taken.0.followed taken.1) }
{
    let file = opened(rt, heap, name)?;
    let bytes = file.whole(heap);
    taken_of(heap, name, file, bytes)
}

/// Opens the journal of this name, and takes no record of it yet.
pub fn begin_journal<R: Files<File = File>>(
    rt: &R,
    heap: Heap,
    name: &str,
) -> Result<(FollowedJournal, List<Bytes>), ListenFault>
    ensures { IfOk result (λ taken. AreAllTaken taken.0.followed taken.1) }
{
    let file = opened(rt, heap, name)?;
    let bytes = file.front(heap);
    taken_of(heap, name, file, bytes)
}

/// The file of this name, opened.
fn opened<R: Files<File = File>>(
    rt: &R,
    heap: Heap,
    name: &str,
) -> Result<GrowingFile, ListenFault> {
    match GrowingFile::open(rt, name) {
        Ok(file) => Ok(file),
        Err(fault) => Err(unread(heap, name, fault)),
    }
}

/// A journal in a file of this name, of which these bytes are taken.
fn taken_of(
    heap: Heap,
    name: &str,
    file: GrowingFile,
    bytes: Result<Bytes, GrowingFault>,
) -> Result<(FollowedJournal, List<Bytes>), ListenFault>
    ensures { IfOk result (λ taken. AreAllTaken taken.0.followed taken.1) }
{
    let bytes = match bytes {
        Ok(bytes) => bytes,
        Err(fault) => return Err(unread(heap, name, fault)),
    };
    let Begun { followed, texts } = begin(heap, bytes.get()).map_err(OpenFault::from)?;
    Ok((FollowedJournal { file, followed }, texts))
}

/// Why the file of this name isn't read.
pub fn unread(heap: Heap, name: &str, fault: GrowingFault) -> ListenFault {
    match fault {
        GrowingFault::Failed => ListenFault::Command(cannot_read(heap, name)),
        GrowingFault::Memory => ListenFault::Command(Fault::Memory),
    }
}

/// The same fault of a record that stands behind so many others.
pub fn refused_behind(fault: RestoreFault, before: usize) -> RestoreFault {
    match fault {
        RestoreFault::BadRecord(number) => RestoreFault::BadRecord(before.saturating_add(number)),
        RestoreFault::Refused(number, line) => {
            RestoreFault::Refused(before.saturating_add(number), line)
        }
        RestoreFault::Memory => RestoreFault::Memory,
    }
}
