//! Calls by their names, and calls that are made many times.

use crate::given::number_first;
use crate::stop::Stop;
use crate::world::World;
use crate::{hubs, requests};
use doc_page::renderer::Renderer;
use doc_page_parts::heap::{Heap, String};

/// Writes what a call answers. `times N CALL`: the last answer of N calls, in which `#` is the number of the call, from 0.
pub fn push_answer<R: Renderer + Drop>(
    out: &mut String,
    world: &mut World<R>,
    name: &str,
    given: &str,
) -> Result<(), Stop> {
    match name {
        "times" => times(out, world, given),
        _ => call(out, world, name, given),
    }
}

fn call<R: Renderer + Drop>(
    out: &mut String,
    world: &mut World<R>,
    name: &str,
    given: &str,
) -> Result<(), Stop> {
    match name {
        "next" => requests::next(out, world.heap, given),
        "drip" => requests::drip(out, world.heap, given),
        _ => hubs::called(out, world, name, given),
    }
}

fn times<R: Renderer + Drop>(
    out: &mut String,
    world: &mut World<R>,
    given: &str,
) -> Result<(), Stop> {
    let (count, text) = number_first(given)?;
    for number in 0..count {
        out.clear();
        call_numbered(out, world, text, number)?;
    }
    Ok(())
}

fn call_numbered<R: Renderer + Drop>(
    out: &mut String,
    world: &mut World<R>,
    text: &str,
    number: u64,
) -> Result<(), Stop> {
    let text = numbered(world.heap, text, number)?;
    let (name, given) = text.split_once(' ').unwrap_or((&text, ""));
    let called = call(out, world, name, given);
    drop(text);
    called
}

/// A text with a number in place of each `#`.
fn numbered(heap: Heap, text: &str, number: u64) -> Result<String, Stop> {
    let number = format!(in heap; "{number}")?;
    let text = text.replace(heap, '#', &number);
    drop(number);
    Ok(text?)
}
