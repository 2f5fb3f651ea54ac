//! Tries the calls of `doc_http` and of `doc_hub`, and the commands `demo`, `render` and `examples`, as `trial` says. A line `world` begins
//! a new world, of which the calls below it are; the lines in front of the first one are of commands and streams (`programs`). Behind a
//! line `listening` come those of servers that accept while they serve, and of journals (`listen`), and behind a line `serving` those of
//! servers, turns and compactions in memory (`serving`).
//!
//! - `world keep CACHE READERS` makes a hub with the readers of a TOML text, `world close CACHE READERS` one that keeps no connection
//!   alive, and `world read CACHE READERS` one that takes no edits. It answers `()`, or what refuses it; then no calls follow.
//! - `next BYTES` and `drip BYTES` (`requests`), an event (`events`), and `ask ID BYTES`, `report TOKEN` and `run EVENT ; EVENT ..`
//!   (`hubs`) are the calls. Pages are rendered as CommonMark. `times N CALL` makes a call N times (`times`).
//!
//! Bytes are those of a text, in which `\xff` is the byte with that hexadecimal number: so `\\xff` in a line. An answer is a word with what
//! the call gave, or `refused: ` with what the refusal prints. Bytes are written in it as in a line, but those that are no printable ASCII
//! as `\xff`, and 32 and more equal ones as `{999*a}`. Where a call finds no memory, the answer is `refused: out of memory`, and where what
//! it is given or answers finds none, `no memory for the line`.
//!
//! Values that own memory go by calls of `drop`, once on each way: that is much cheaper to prove than what the end of a scope does, which
//! is written out at each exit.
#![tactic(auto)]

ghost use Rattle.std.specs.Prelude.{◌≡◌, ◌<◌};

mod commands;
mod echo;
mod events;
mod feed;
mod given;
mod hubs;
mod in_turn;
mod listen;
mod media;
mod outcomes;
mod programs;
mod requests;
mod scene;
mod scripts;
mod serving;
mod sink;
mod stop;
mod streams;
mod times;
mod tried;
mod ways;
mod world;
mod written;

use doc_html::CommonMark;
use doc_lines::entities::Entities;
use doc_page::renderer::Renderer;
use listen::run_servers;
use programs::Programs;
use serving::run_serving;
use std::fs::File;
use std::io;
use std::marker::Brand;
use std::net::Net;
use std::rt::{Clock, Files};
use std::sync::ledger::{Blank, Ledger};
use trial::run::run_lines;
use world::{World, new_world};

fn main(rt: HostRuntime) -> io::Result<()> {
    let text = io::read_to_string(rt.alloc(), rt.reader())?;
    let ran = run(&rt, &text);
    drop(text);
    ran
}

/// Prints what the lines of worlds answer, and then those of servers.
fn run<P: AllocGlobal + Clock + Files<File = File> + Net + Print>(
    rt: &P,
    text: &str,
) -> io::Result<()> {
    let Some((worlds, servers)) = text.split_once("\nlistening\n") else {
        return run_worlds(rt, text);
    };
    run_worlds(rt, worlds)?;
    println!(rt; "listening")?;
    let Some((servers, calls)) = servers.split_once("\nserving\n") else {
        return run_servers(rt, servers);
    };
    run_servers(rt, servers)?;
    println!(rt; "serving")?;
    run_serving(rt, calls)
}

/// Prints what the lines in front of the first world answer, and then those of each world.
fn run_worlds<P: AllocGlobal + Print>(rt: &P, text: &str) -> io::Result<()> {
    let (lines, worlds) = text.split_once("\nworld ").unwrap_or((text, ""));
    run_lines(rt, lines, &mut Programs)?;
    for lines in worlds.split("\nworld ") {
        begin_world(rt, lines)?;
    }
    Ok(())
}

/// Makes a world and its calls.
fn begin_world<P: AllocGlobal + Print>(rt: &P, lines: &str) -> io::Result<()> {
    let (line, calls) = lines.split_once('\n').unwrap_or((lines, ""));
    run_world::<Brand, P>(rt, Blank::new(1), &[line, calls])
}

/// Makes a world of CommonMark as the first of two texts says, and the calls of the lines of the second.
fn run_world<L: Ledger, P: AllocGlobal + Print>(
    rt: &P,
    blank: Blank,
    texts: &[&str; 2],
) -> io::Result<()>
    requires name { blank.name ≡ L.name }
    requires parts { blank.parts ≡ L.parts }
    requires some { 0 < L.parts }
{
    let renderer: CommonMark<L> = CommonMark::new(Entities::built_in(), blank);
    run_world_with(rt, renderer, texts)
}

/// The same with any renderer.
fn run_world_with<R: Renderer + Drop, P: AllocGlobal + Print>(
    rt: &P,
    renderer: R,
    texts: &[&str; 2],
) -> io::Result<()> {
    match new_world(rt.alloc(), renderer, texts[0]) {
        Ok(mut world) => {
            let ran = run_calls(rt, &mut world, texts[1]);
            drop(world);
            ran
        }
        Err(stop) => println!(rt; "{stop}"),
    }
}

/// Prints what a world's line and each of its calls answer.
fn run_calls<R: Renderer + Drop, P: AllocGlobal + Print>(
    rt: &P,
    world: &mut World<R>,
    calls: &str,
) -> io::Result<()> {
    println!(rt; "()")?;
    run_lines(rt, calls, world)
}
