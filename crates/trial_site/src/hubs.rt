//! Calls of the hub of the world.

use crate::events::{event_of, events_of};
use crate::given::id_and_bytes;
use crate::outcomes::{push_all, push_outcome};
use crate::stop::Stop;
use crate::world::World;
use crate::written::{push, push_after};
use doc_hub::event::ConnId;
use doc_hub::hub::Hub;
use doc_hub::outcome::Outcome;
use doc_page::renderer::Renderer;
use doc_page_parts::failure::Memory;
use doc_page_parts::heap::{Heap, String};

/// Writes what a call of this name answers: that of an event, or of one of these.
pub fn called<R: Renderer + Drop>(
    out: &mut String,
    world: &mut World<R>,
    name: &str,
    given: &str,
) -> Result<(), Stop> {
    let World { heap, hub } = world;
    match name {
        "ask" => ask(out, *heap, hub, given),
        "report" => report(out, hub, given),
        "run" => run(out, *heap, hub, given),
        _ => {
            let event = event_of(*heap, name, given)?;
            let outcome = hub.happen(&event);
            drop(event);
            told(out, outcome)
        }
    }
}

/// Writes what came of an event.
fn told(out: &mut String, outcome: Outcome) -> Result<(), Stop> {
    let pushed = push_outcome(out, &outcome);
    drop(outcome);
    Ok(pushed?)
}

/// `ID BYTES`: a push and a step.
fn ask<R: Renderer + Drop>(
    out: &mut String,
    heap: Heap,
    hub: &mut Hub<R>,
    given: &str,
) -> Result<(), Stop> {
    let (id, bytes) = id_and_bytes(heap, given)?;
    let outcome = asked(hub, id, &bytes);
    drop(bytes);
    told(out, outcome)
}

/// What comes of a step on a connection once these bytes are pushed.
fn asked<R: Renderer + Drop>(hub: &mut Hub<R>, id: ConnId, bytes: &[u8]) -> Outcome {
    match hub.push(id, bytes) {
        Ok(()) => Outcome::from(hub.step(id)),
        refused => Outcome::from(refused),
    }
}

/// `TOKEN`: the report of the token's reader.
fn report<R: Renderer + Drop>(out: &mut String, hub: &mut Hub<R>, token: &str) -> Result<(), Stop> {
    match hub.report(token) {
        Ok(Some(text)) => {
            let pushed = push_after(out, "report ", text.get().as_bytes());
            drop(text);
            Ok(pushed?)
        }
        Ok(None) => Ok(push(out, "no reader")?),
        Err(Memory) => Err(Stop::Refused),
    }
}

/// `EVENT ; EVENT ..`: a run of these events.
fn run<R: Renderer + Drop>(
    out: &mut String,
    heap: Heap,
    hub: &mut Hub<R>,
    given: &str,
) -> Result<(), Stop> {
    let events = events_of(heap, given)?;
    let outcomes = hub.run(&events);
    drop(events);
    let Ok(outcomes) = outcomes else {
        return Err(Stop::Refused);
    };
    let pushed = push_all(out, outcomes.get());
    drop(outcomes);
    Ok(pushed?)
}
