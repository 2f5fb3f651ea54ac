//! The commands without a configuration, over standard input and output.

ghost use Rattle.std.specs.Prelude.{◌≡◌, ◌<◌};

use doc_html::CommonMark;
use doc_lines::entities::Entities;
use doc_page::renderer::Renderer;
use doc_server::demo::demo;
use doc_server::examples::examples;
use doc_server::rendering::render;
use doc_server_files::files::open_file;
use doc_server_streams::fault::Fault;
use doc_server_streams::read_from::ReadFrom;
use doc_server_streams::write_to::WriteTo;
use std::io;
use std::rt::Files;
use std::sync::ledger::{Blank, Ledger};

/// Runs `demo` over pages of CommonMark, and answers the status to end with.
pub fn run_demo<L: Ledger, P: AllocGlobal + Input + Print>(
    rt: &P,
    blank: Blank,
) -> Result<u8, Fault>
    requires name { blank.name ≡ L.name }
    requires parts { blank.parts ≡ L.parts }
    requires some { 0 < L.parts }
{
    let renderer: CommonMark<L> = CommonMark::new(Entities::built_in(), blank);
    demo_with(rt, renderer)
}

/// The same with any renderer.
fn demo_with<R: Renderer + Drop, P: AllocGlobal + Input + Print>(
    rt: &P,
    renderer: R,
) -> Result<u8, Fault> {
    let heap = rt.alloc();
    let mut input = ReadFrom::new(rt.reader());
    let mut output = WriteTo::new(io::writer(rt));
    demo(heap, renderer, &mut input, &mut output)?;
    Ok(0)
}

/// Runs `render` over standard input and output.
pub fn run_render<R: AllocGlobal + Input + Print>(rt: &R) -> Result<u8, Fault> {
    let heap = rt.alloc();
    let mut input = ReadFrom::new(rt.reader());
    let mut output = WriteTo::new(io::writer(rt));
    render(heap, &mut input, &mut output)?;
    Ok(0)
}

/// Runs `examples` over the file of this name.
pub fn run_examples<R: AllocGlobal + Files + Print>(rt: &R, name: &str) -> Result<u8, Fault> {
    let heap = rt.alloc();
    let mut input = open_file(rt, heap, name)?;
    let mut output = WriteTo::new(io::writer(rt));
    examples(heap, name, &mut input, &mut output)
}
