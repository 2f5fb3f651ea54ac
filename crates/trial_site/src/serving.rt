//! Tries serving over a network and files in memory (`doc_server_serving`, `doc_server_network`)
//! and compacting there (`doc_server_compacting`). Nothing waits for the system, so each call ends by itself.
//!
//! The calls have a file, which is that of a journal. At first it is empty.
//!
//! - `holds BYTES`: from now on the file holds these bytes.
//! - `serve WAITS CONNECTIONS IDLE CALLS MOST | GUEST | GUEST ..` and `host WAITS CONNECTIONS | GUEST ..`: a server with its guests
//!   (`hosted`). `follow WAITS CONNECTIONS | GUEST ..`: one that follows the file (`following`). `turns CALLS MOST | BYTES | BYTES ..`: turns without a network (`turning`).
//! - `compact CALLS DEVICE_CALLS MOST | LINES` and `pages | LINES`: what a compaction makes of the file, and the site of its edits
//!   (`compacting`).
//! - `file`, `records`, `flips` and `cuts` are of the file (`journals`).

ghost use Rattle.std.specs.Prelude.{◌≡◌, ◌<◌};

mod compacting;
mod following;
mod guests;
mod held;
mod hosted;
mod notes;
mod nothing_given;
mod turning;

use crate::listen::journals::journal_called;
use crate::listen::scene::new_hub;
use crate::serving::compacting::{compacted, pages_told};
use crate::serving::following::followed;
use crate::serving::held::held;
use crate::serving::hosted::{hosted, served};
use crate::serving::turning::turned;
use doc_hub::hub::Hub;
use doc_page::plain::PlainRenderer;
use doc_page::renderer::Renderer;
use doc_page_parts::failure::Memory;
use doc_page_parts::heap::{Heap, String, Vec};
use std::io;
use std::marker::Brand;
use std::rt::Clock;
use std::sync::ledger::{Blank, Ledger};
use trial::answer::no_call;
use trial::line::{Line, read_line};
use trial::run::print_answer;

/// Prints what each line answers.
pub fn run_serving<P: AllocGlobal + Clock + Print>(rt: &P, text: &str) -> io::Result<()> {
    let heap = rt.alloc();
    let mut file = Vec::new(heap);
    for line in text.lines() {
        print_answer(rt, answer_of(rt, heap, line, &mut file))?;
    }
    Ok(())
}

/// What is printed for a line.
fn answer_of<P: Clock>(
    rt: &P,
    heap: Heap,
    line: &str,
    file: &mut Vec<u8>,
) -> Result<String, Memory> {
    match read_line(heap, line)? {
        Line::Comment => Ok(String::from_str(heap, line)?),
        Line::Call { name, given } => {
            let answer = called(rt, heap, name, &given, file);
            drop(given);
            answer
        }
        Line::Wrong => no_call(heap),
    }
}

/// What a call answers.
fn called<P: Clock>(
    rt: &P,
    heap: Heap,
    name: &str,
    given: &str,
    file: &mut Vec<u8>,
) -> Result<String, Memory> {
    match name {
        "holds" => held(heap, given, file),
        "serve" | "host" | "follow" | "turns" => begin(rt, heap, &[name, given], file),
        "compact" => compacted(heap, given, file),
        "pages" => pages_told(heap, given, file.as_slice()),
        _ => journal_called(heap, file.as_slice(), name),
    }
}

/// What a call of a hub answers, of this name and with what it is given.
fn begin<P: Clock>(
    rt: &P,
    heap: Heap,
    texts: &[&str; 2],
    file: &mut Vec<u8>,
) -> Result<String, Memory> {
    begin_plain::<Brand, P>(rt, heap, Blank::new(1), texts, file)
}

/// The same with a hub of plain pages.
fn begin_plain<L: Ledger, P: Clock>(
    rt: &P,
    heap: Heap,
    blank: Blank,
    texts: &[&str; 2],
    file: &mut Vec<u8>,
) -> Result<String, Memory>
    requires name { blank.name ≡ L.name }
    requires parts { blank.parts ≡ L.parts }
    requires some { 0 < L.parts }
{
    let renderer: PlainRenderer<L> = PlainRenderer::new(blank);
    let takes_edits = texts[0] != "follow";
    match new_hub(heap, renderer, takes_edits) {
        Some(hub) => called_on(rt, heap, hub, texts, file),
        None => Err(Memory),
    }
}

/// The same with any hub.
fn called_on<R: Renderer + Drop, P: Clock>(
    rt: &P,
    heap: Heap,
    hub: Hub<R>,
    texts: &[&str; 2],
    file: &mut Vec<u8>,
) -> Result<String, Memory> {
    let [name, given] = *texts;
    match name {
        "serve" => served(rt, heap, hub, given, file),
        "host" => hosted(rt, heap, hub, given),
        "follow" => followed(rt, heap, hub, given, file.as_slice()),
        _ => turned(heap, hub, given, file),
    }
}
