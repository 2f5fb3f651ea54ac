//! Tries a server that accepts while it serves (`doc_server_serving`), over TCP, as `trial` says. The program is its own client: a call
//! alternates between turns of the server and what the peers write and read, until what it waits for has come, so that its answer is
//! the same whatever the timing.
//!
//! - `server CONNECTIONS IDLE CALLS MOST` begins a server at a port that the system chooses, with at most so many connections, each of
//!   which ends after so many seconds of silence. Its journal is an empty file in memory, of which so many calls go well and the next one
//!   fails, and which isn't grown past so many bytes.
//!   Its site has no pages, and three readers: an owner (`tok-owner`), one of the group `staff` (`tok-ann`), one of `ops` (`tok-bob`). The
//!   calls below it are of this server. The lines of one that can't be made are printed as they stand.
//! - `server CONNECTIONS IDLE CALLS MOST again` begins one with the file that the server before has left, and with the pages of its edits;
//!   with `bare` in place of `again` the zeros at the end of that file are gone.
//! - The calls of a server: `calls`.
//! - The calls in front of the first server are of files: `files`, `rooms`. Other lines there are printed as they stand.

ghost use Rattle.std.specs.Prelude.{◌≡◌, ◌<◌};

mod calls;
mod files;
pub mod journals;
mod peer;
mod rooms;
pub mod scene;
pub mod served;
pub mod told;

use crate::listen::calls::answer;
use crate::listen::files::files_called;
use crate::listen::scene::{Scene, new_scene};
use doc_page::plain::PlainRenderer;
use doc_page::renderer::Renderer;
use doc_page_parts::failure::Memory;
use doc_page_parts::heap::{Heap, String, Vec};
use std::fs::File;
use std::io;
use std::marker::Brand;
use std::net::Net;
use std::rt::{Clock, Files};
use std::sync::ledger::{Blank, Ledger};
use trial::answer::no_call;
use trial::line::{Line, read_line};
use trial::run::print_answer;

/// Prints what the lines in front of the first server answer, and then what those of each server do.
pub fn run_servers<P: AllocGlobal + Clock + Files<File = File> + Net + Print>(
    rt: &P,
    text: &str,
) -> io::Result<()> {
    let (front, servers) = text.split_once("\nserver ").unwrap_or((text, ""));
    let heap = rt.alloc();
    call_files(rt, heap, front)?;
    let mut file = Vec::new(heap);
    for lines in servers.split("\nserver ") {
        begin(rt, lines, &mut file)?;
    }
    Ok(())
}

/// Prints what lines without a server answer.
fn call_files<P: AllocGlobal + Files<File = File> + Print>(
    rt: &P,
    heap: Heap,
    text: &str,
) -> io::Result<()> {
    for line in text.lines() {
        print_answer(rt, files_called(rt, heap, line))?;
    }
    Ok(())
}

/// Prints lines as they stand.
fn print_lines<P: Print>(rt: &P, text: &str) -> io::Result<()> {
    for line in text.lines() {
        println!(rt; "{line}")?;
    }
    Ok(())
}

/// Makes a server and its calls. The file is that of the journal of the server before, and then of this one.
fn begin<P: AllocGlobal + Clock + Net + Print>(
    rt: &P,
    lines: &str,
    file: &mut Vec<u8>,
) -> io::Result<()> {
    let (line, calls) = lines.split_once('\n').unwrap_or((lines, ""));
    begin_server::<Brand, P>(rt, Blank::new(1), &[line, calls], file)
}

/// Makes a server of plain pages as the first of two texts says, and the calls of the lines of the second.
fn begin_server<L: Ledger, P: AllocGlobal + Clock + Net + Print>(
    rt: &P,
    blank: Blank,
    texts: &[&str; 2],
    file: &mut Vec<u8>,
) -> io::Result<()>
    requires name { blank.name ≡ L.name }
    requires parts { blank.parts ≡ L.parts }
    requires some { 0 < L.parts }
{
    let renderer: PlainRenderer<L> = PlainRenderer::new(blank);
    run_server(rt, rt.alloc(), renderer, texts, file)
}

/// The same with any renderer.
fn run_server<R: Renderer + Drop, P: Clock + Net + Print>(
    rt: &P,
    heap: Heap,
    renderer: R,
    texts: &[&str; 2],
    file: &mut Vec<u8>,
) -> io::Result<()> {
    let Some(mut scene) = new_scene(rt, heap, renderer, texts[0], file) else {
        println!(rt; "no server")?;
        return print_lines(rt, texts[1]);
    };
    let ran = run_calls(rt, &mut scene, texts[1]);
    file.clear();
    let kept = file.extend_from_slice(scene.served.journal_bytes());
    drop(scene);
    kept?;
    ran
}

/// Prints what a server's line and each of its calls answer.
fn run_calls<R: Renderer + Drop, P: Clock + Net + Print>(
    rt: &P,
    scene: &mut Scene<R>,
    calls: &str,
) -> io::Result<()> {
    println!(rt; "()")?;
    for line in calls.lines() {
        print_answer(rt, answer_of(rt, scene, line))?;
    }
    Ok(())
}

/// What is printed for a line.
fn answer_of<R: Renderer + Drop, P: Clock + Net>(
    rt: &P,
    scene: &mut Scene<R>,
    line: &str,
) -> Result<String, Memory> {
    let heap = scene.heap;
    match read_line(heap, line)? {
        Line::Comment => Ok(String::from_str(heap, line)?),
        Line::Call { name, given } => {
            let answer = answer(rt, scene, name, &given);
            drop(given);
            answer
        }
        Line::Wrong => no_call(heap),
    }
}
