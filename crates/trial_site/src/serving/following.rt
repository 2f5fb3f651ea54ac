//! A server that follows the file, as another server's journal.
//!
//! `follow WAITS CONNECTIONS | GUEST | GUEST ..`: a server without a journal, which takes no edits. The first turn finds the journal of the
//! file without its records, and behind that turn they are there. What is given and the answer are as of a `host` (`hosted`).

use crate::serving::hosted::{asked_without_bounds, serve_guests};
use doc_hub::hub::Hub;
use doc_media::media::Media;
use doc_page::renderer::Renderer;
use doc_page_parts::bytes::Bytes;
use doc_page_parts::failure::Memory;
use doc_page_parts::heap::{Heap, String, Vec};
use doc_server_follow::followed::{Followed, begin};
use doc_server_follow::looked::Looked;
use doc_server_follow::memory_file::MemoryFile;
use doc_server_journal::memory::MemoryDevice;
use doc_server_journal_records::header::HEADER_LEN;
use doc_server_journal_records::record::CLOSED_GATE;
use doc_server_serving::given::Given;
use doc_server_serving::net::follow_fault::FollowFault;
use doc_server_serving::net::reload_fault::Refusal;
use doc_server_serving::net::reloaded::Reloaded;
use doc_server_serving::net::saved_hub::SavedHub;
use doc_server_serving::source::Source;
use std::rt::Clock;
use trial::answer::no_call;

/// A journal in memory that is followed.
#[derive(Drop)]
struct Following {
    heap: Heap,
    followed: Followed,
    file: MemoryFile,
}

/// Serves while the file is followed.
pub fn followed<R: Renderer + Drop, P: Clock>(
    rt: &P,
    heap: Heap,
    hub: Hub<R>,
    given: &str,
    file: &[u8],
) -> Result<String, Memory> {
    let Some(asked) = asked_without_bounds(given) else {
        return no_call(heap);
    };
    let Some(mut source) = following_of(heap, file)? else {
        return Ok(String::from_str(heap, "refused: no journal")?);
    };
    let mut saved: SavedHub<MemoryDevice, R> = SavedHub::new(hub);
    let answer = serve_guests(rt, heap, asked, &mut saved, &mut source);
    drop(saved);
    drop(source);
    answer
}

/// The journal of a file, of which no record was taken yet.
fn following_of(heap: Heap, file: &[u8]) -> Result<Option<Following>, Memory> {
    let mut front = Vec::from_slice(heap, &file[..HEADER_LEN.min(file.len())])?;
    front.push(CLOSED_GATE)?;
    let Ok(begun) = begin(heap, front.as_slice()) else {
        return Ok(None);
    };
    let bytes = Bytes::copy_of(heap, file)?;
    Ok(Some(Following {
        heap,
        followed: begun.followed,
        file: MemoryFile::of(bytes),
    }))
}

impl Source for Following {
    ghost use Rattle.std.specs.Prelude.{⊤, true};

    ghost follows = { λ _. true };

    ghost answered = { λ _ _. ⊤ };

    ghost told = { λ _ _. ⊤ };

    fn follows(&self) -> bool {
        true
    }

    fn is_busy(&self) -> bool {
        false
    }

    fn hear(
        &mut self,
        _media: &Option<Media>,
        _has_input: bool,
    ) -> Result<Option<Given>, FollowFault> {
        match self.followed.look(self.heap, &mut self.file) {
            Ok(Looked::More(texts)) => Ok(Some(Given::Records(texts))),
            Ok(Looked::Rests) => Ok(None),
            _ => Err(FollowFault::Damaged),
        }
    }

    fn tell(&mut self, _outcome: Result<Reloaded, Refusal>) {}

    fn note(&mut self, _pages: usize, _journal_bytes: Option<usize>) {}
}
