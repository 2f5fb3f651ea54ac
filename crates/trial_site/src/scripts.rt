//! Scripts of links and rounds, on hubs with the demonstration site.
//!
//! A script has parts with ` ; ` between two. `link PIECE READ WRITE TEXT` makes a link over a stream of this text, whose calls move so
//! many bytes at most and whose read and write of these numbers fail (0: none); connections are numbered from 1. `push ID TEXT`,
//! `step ID` and `drop ID` are a push, a step and a disconnect that are no link's. `round TURNS` serves a round of all links. `hub` goes
//! on with a new hub, which doesn't know the connections of the links that stand.

ghost use Rattle.std.specs.Prelude.{◌≡◌, ◌<◌};

use crate::scene::{Scene, act, push_ends};
use crate::stop::Stop;
use doc_hub::hub::Hub;
use doc_page::plain::PlainRenderer;
use doc_page::renderer::Renderer;
use doc_page_parts::failure::Memory;
use doc_page_parts::heap::{Heap, String};
use doc_server::demo_site::demo_hub;
use std::marker::Brand;
use std::sync::ledger::{Blank, Ledger};
use trial::answer::no_call;

/// What is printed for a script: for each round its passes and the places that it lists, and for each link whether it is open then and
/// what it wrote.
pub fn answer(heap: Heap, script: &str) -> Result<String, Memory> {
    told(heap, played(heap, script))
}

/// What is printed for a script, of which only the end is told: for each link whether it was served, so that it is closed and no call of
/// its stream has failed, and what it wrote. So rounds that find no memory may be made good by those behind them.
pub fn ended(heap: Heap, script: &str) -> Result<String, Memory> {
    told(heap, ended_in(heap, script))
}

fn told(heap: Heap, played: Result<Scene, Stop>) -> Result<String, Memory> {
    match played {
        Ok(scene) => Ok(scene.out),
        Err(Stop::Memory) => Err(Memory),
        Err(_) => no_call(heap),
    }
}

fn ended_in(heap: Heap, script: &str) -> Result<Scene, Stop> {
    let mut scene = played(heap, script)?;
    match push_ends(&mut scene) {
        Ok(()) => Ok(scene),
        Err(Memory) => Err(Stop::Memory),
    }
}

/// What comes of a script.
pub fn played(heap: Heap, script: &str) -> Result<Scene, Stop> {
    let mut scene = Scene::new(heap);
    match act_on_hubs(&mut scene, script) {
        Ok(()) => Ok(scene),
        Err(stop) => Err(stop),
    }
}

fn act_on_hubs(scene: &mut Scene, script: &str) -> Result<(), Stop> {
    for parts in script.split(" ; hub ; ") {
        act_on_new_hub(scene, parts)?;
    }
    Ok(())
}

fn act_on_new_hub(scene: &mut Scene, parts: &str) -> Result<(), Stop> {
    act_on_hub::<Brand>(scene, Blank::new(1), &[parts])
}

/// Does what the parts of one text say, on a new hub.
fn act_on_hub<L: Ledger>(scene: &mut Scene, blank: Blank, texts: &[&str; 1]) -> Result<(), Stop>
    requires name { blank.name ≡ L.name }
    requires parts { blank.parts ≡ L.parts }
    requires some { 0 < L.parts }
{
    let renderer: PlainRenderer<L> = PlainRenderer::new(blank);
    let Ok(mut hub) = demo_hub(scene.heap, renderer) else {
        return Err(Stop::Memory);
    };
    let acted = act_all(scene, &mut hub, texts[0]);
    drop(hub);
    acted
}

fn act_all<R: Renderer + Drop>(
    scene: &mut Scene,
    hub: &mut Hub<R>,
    parts: &str,
) -> Result<(), Stop> {
    for part in parts.split(" ; ") {
        act(scene, hub, part)?;
    }
    Ok(())
}
