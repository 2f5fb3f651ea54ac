//! The commands that are tried.

ghost use Rattle.std.specs.Prelude.{◌≡◌, ◌<◌};

use crate::feed::Feed;
use crate::sink::Sink;
use doc_page::plain::PlainRenderer;
use doc_page_parts::heap::Heap;
use doc_server::demo::demo;
use doc_server::examples::examples;
use doc_server::fault::Fault;
use doc_server::rendering::render;
use doc_server_streams::read_from::ReadFrom;
use doc_server_streams::write_to::WriteTo;
use std::marker::Brand;
use std::sync::ledger::{Blank, Ledger};

/// A command of the program.
#[derive(Clone, Copy)]
pub enum Command {
    /// `demo`, over pages of plain text.
    Demo,
    Render,
    /// `examples`, over a file of the name `spec.txt`.
    Examples,
}

impl Command {
    /// Runs the command, and answers the status that it ends with.
    pub fn run(
        self,
        heap: Heap,
        input: &mut ReadFrom<Feed<'_>>,
        output: &mut WriteTo<Sink>,
    ) -> Result<u8, Fault> {
        match self {
            Command::Demo => well(demonstrated::<Brand>(heap, Blank::new(1), input, output)),
            Command::Render => well(render(heap, input, output)),
            Command::Examples => examples(heap, "spec.txt", input, output),
        }
    }
}

/// The status of a command that has no other.
fn well(ended: Result<(), Fault>) -> Result<u8, Fault> {
    match ended {
        Ok(()) => Ok(0),
        Err(fault) => Err(fault),
    }
}

fn demonstrated<L: Ledger>(
    heap: Heap,
    blank: Blank,
    input: &mut ReadFrom<Feed<'_>>,
    output: &mut WriteTo<Sink>,
) -> Result<(), Fault>
    requires name { blank.name ≡ L.name }
    requires parts { blank.parts ≡ L.parts }
    requires some { 0 < L.parts }
{
    let renderer: PlainRenderer<L> = PlainRenderer::new(blank);
    demo(heap, renderer, input, output)
}
