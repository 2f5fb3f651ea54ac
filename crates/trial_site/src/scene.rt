//! Links over streams in memory, and rounds over them.

use crate::given::connection;
use crate::stop::Stop;
use crate::streams::Streamed;
use doc_hub::hub::Hub;
use doc_hub::refusal::PushError;
use doc_page::renderer::Renderer;
use doc_page_parts::failure::Memory;
use doc_page_parts::heap::{Heap, String, Vec};
use doc_server_rounds::link::Link;
use doc_server_rounds::round::{Round, serve_round};
use doc_server_streams::memory_stream::MemoryStream;
use doc_server_streams::stream::Stream;
use std::str::from_utf8;

/// Links, and what came of the rounds over them.
#[derive(Drop)]
pub struct Scene {
    pub heap: Heap,
    pub links: Vec<Link<MemoryStream>>,
    /// The places that rounds listed.
    pub faults: Vec<usize>,
    /// What the rounds answered.
    pub out: String,
}

impl Scene {
    pub fn new(heap: Heap) -> Scene {
        Scene {
            heap,
            links: Vec::new(heap),
            faults: Vec::new(heap),
            out: String::new(heap),
        }
    }
}

/// Does what a part of a script says.
pub fn act<R: Renderer + Drop>(
    scene: &mut Scene,
    hub: &mut Hub<R>,
    part: &str,
) -> Result<(), Stop> {
    let (name, given) = part.split_once(' ').unwrap_or((part, ""));
    match name {
        "link" => link(scene, hub, given),
        "push" => push(hub, given),
        "step" => {
            drop(hub.step(connection(given)?));
            Ok(())
        }
        "drop" => {
            hub.disconnect(connection(given)?);
            Ok(())
        }
        "round" => round(scene, hub, given),
        _ => Err(Stop::NoCall),
    }
}

/// `link PIECE READ WRITE TEXT`: a link over such a stream.
fn link<R: Renderer + Drop>(scene: &mut Scene, hub: &mut Hub<R>, given: &str) -> Result<(), Stop> {
    let Some(streamed) = Streamed::read(given) else {
        return Err(Stop::NoCall);
    };
    let Ok(stream) = streamed.stream(scene.heap) else {
        return Err(Stop::Memory);
    };
    match Link::new(hub, stream) {
        Ok(link) => Ok(scene.links.push(link)?),
        Err(_) => Err(Stop::Memory),
    }
}

/// `push ID TEXT`: a push that is no link's.
fn push<R: Renderer + Drop>(hub: &mut Hub<R>, given: &str) -> Result<(), Stop> {
    let (id, text) = given.split_once(' ').ok_or(Stop::NoCall)?;
    match hub.push(connection(id)?, text.as_bytes()) {
        Ok(()) => Ok(()),
        Err(PushError::Memory) => Err(Stop::Memory),
        Err(_) => Err(Stop::NoCall),
    }
}

/// `round TURNS`: a round, with what it answers and what the links are then.
fn round<R: Renderer + Drop>(scene: &mut Scene, hub: &mut Hub<R>, given: &str) -> Result<(), Stop> {
    let Ok(turns) = given.parse::<u32>() else {
        return Err(Stop::NoCall);
    };
    let served = serve_round(scene.heap, hub, scene.links.as_mut_slice(), turns);
    push_served(scene, served)?;
    Ok(push_links(&mut scene.out, &scene.links)?)
}

fn push_served(scene: &mut Scene, served: Result<Round, Memory>) -> Result<(), Memory> {
    push_break(&mut scene.out)?;
    match served {
        Ok(Round { passes, faults }) => {
            let listed = faults.get();
            scene.faults.extend_from_slice(listed)?;
            write!(scene.out, "passes {passes}, faults {listed:?}")?;
        }
        Err(Memory) => scene.out.push_str("no memory")?,
    }
    Ok(())
}

/// Sets off what comes from what stands before it.
fn push_break(out: &mut String) -> Result<(), Memory> {
    if !out.is_empty() {
        out.push_str(" / ")?;
    }
    Ok(())
}

/// Writes for each link whether it is open, and what it wrote.
fn push_links(out: &mut String, links: &[Link<MemoryStream>]) -> Result<(), Memory> {
    for link in links {
        let state = if link.is_open() { "open" } else { "closed" };
        push_link(out, state, link)?;
    }
    Ok(())
}

fn push_link(out: &mut String, state: &str, link: &Link<MemoryStream>) -> Result<(), Memory> {
    let wrote = from_utf8(link.stream().written()).unwrap_or("no text");
    write!(out, "; {state} {wrote:?}")?;
    Ok(())
}

/// Writes, in place of what the rounds answered, for each link whether it was served, and what it wrote.
pub fn push_ends(scene: &mut Scene) -> Result<(), Memory> {
    scene.out.clear();
    scene.out.push_str("ended")?;
    for link in &scene.links {
        let is_served = !link.is_open() && link.stream().failures() == 0;
        let state = if is_served { "served" } else { "unserved" };
        push_link(&mut scene.out, state, link)?;
    }
    Ok(())
}
