//! Scripts that are played again and again, with each call of a stream failing in turn.

use crate::scene::Scene;
use crate::scripts::played;
use crate::stop::Stop;
use doc_page_parts::failure::Memory;
use doc_page_parts::heap::{Heap, String};
use doc_server_rounds::link::Link;
use doc_server_streams::memory_stream::MemoryStream;
use trial::answer::no_call;

/// More calls of a stream than a script has here.
const MANY: u64 = 1_000_000;

/// A script with a hole for the number of the call that fails, the place of its link, and the reply that each link is to write.
#[derive(Clone, Copy)]
struct Faulty<'a> {
    place: usize,
    reply: &'a str,
    before: &'a str,
    behind: &'a str,
}

/// What came of a script in which one call fails.
#[derive(Clone, Copy)]
enum End {
    /// The call never came, and all links wrote the whole reply.
    Whole,
    /// Its link alone is listed, and wrote so many bytes of the reply, and all others the whole.
    Cut(usize),
    Wrong,
}

/// What is printed for `PLACE REPLY | SCRIPT`: how many calls of a link's stream there are to fail, and how many bytes the link wrote
/// before they did, in all. The script has `#` for the number of the call; all its links are closed in the end.
pub fn faults(heap: Heap, given: &str) -> Result<String, Memory> {
    match read_faulty(given) {
        Some(faulty) => fail_each(heap, faulty),
        None => no_call(heap),
    }
}

fn read_faulty(given: &str) -> Option<Faulty<'_>> {
    let (place, given) = given.split_once(' ')?;
    let (reply, script) = given.split_once(" | ")?;
    let (before, behind) = script.split_once('#')?;
    Some(Faulty {
        place: place.parse::<usize>().ok()?,
        reply,
        before,
        behind,
    })
}

fn fail_each(heap: Heap, faulty: Faulty<'_>) -> Result<String, Memory> {
    let mut bytes: usize = 0;
    for number in 0..MANY {
        match fail_at(heap, faulty, number.saturating_add(1))? {
            End::Whole => return all_failed(heap, number, bytes),
            End::Cut(len) => bytes = bytes.saturating_add(len),
            End::Wrong => return wrong_at(heap, number),
        }
    }
    wrong_at(heap, MANY)
}

fn all_failed(heap: Heap, calls: u64, bytes: usize) -> Result<String, Memory> {
    Ok(format!(in heap; "{calls} faults, each of that link alone, {bytes} bytes before them")?)
}

fn wrong_at(heap: Heap, number: u64) -> Result<String, Memory> {
    Ok(format!(in heap; "another end behind {number}")?)
}

fn fail_at(heap: Heap, faulty: Faulty<'_>, number: u64) -> Result<End, Memory> {
    let Faulty { before, behind, .. } = faulty;
    let script = format!(in heap; "{before}{number}{behind}")?;
    let scene = played(heap, &script);
    drop(script);
    match scene {
        Ok(scene) => Ok(end_of(faulty, &scene)),
        Err(Stop::Memory) => Err(Memory),
        Err(_) => Ok(End::Wrong),
    }
}

fn end_of(faulty: Faulty<'_>, scene: &Scene) -> End {
    let reply = faulty.reply.as_bytes();
    match (
        scene.faults.as_slice(),
        cut_of(&scene.links, faulty.place, reply),
    ) {
        ([], Some(len)) if len == reply.len() => End::Whole,
        ([place], Some(len)) if *place == faulty.place => End::Cut(len),
        _ => End::Wrong,
    }
}

/// How many bytes of the reply the link at this place wrote, where all are closed and the others wrote the whole.
fn cut_of(links: &[Link<MemoryStream>], place: usize, reply: &[u8]) -> Option<usize> {
    let mut cut = None;
    for (at, link) in links.iter().enumerate() {
        let len = len_of(link, reply)?;
        if at == place {
            cut = Some(len);
        } else if len < reply.len() {
            return None;
        }
    }
    cut
}

/// How many bytes of the reply a closed link wrote.
fn len_of(link: &Link<MemoryStream>, reply: &[u8]) -> Option<usize> {
    let written = link.stream().written();
    if link.is_open() || !reply.starts_with(written) {
        return None;
    }
    Some(written.len())
}
