//! The commands of a configured site, over standard input and output.

ghost use Rattle.std.specs.Prelude.{◌≡◌, ◌<◌};

use doc_html::CommonMark;
use doc_page::renderer::Renderer;
use doc_server::check::check;
use doc_server::replay::replay;
use doc_server_arguments::command::{Check, Replay};
use doc_server_files::files::{Pages, Site, read_site};
use doc_server_streams::fault::Fault;
use doc_server_streams::read_from::ReadFrom;
use doc_server_streams::write_to::WriteTo;
use std::io;
use std::rt::Files;
use std::sync::ledger::{Blank, Ledger};

/// Runs `check` over pages of CommonMark, and answers the status to end with.
pub fn run_check<L: Ledger, P: AllocGlobal + Files + Print>(
    rt: &P,
    blank: Blank,
    command: &Check<'_>,
) -> Result<u8, Fault>
    requires name { blank.name ≡ L.name }
    requires parts { blank.parts ≡ L.parts }
    requires some { 0 < L.parts }
{
    let Site { pages, entities } = read_site(rt, command.config)?;
    let renderer: CommonMark<L> = CommonMark::with_front(
        entities,
        blank,
        pages.config.markdown.front,
    );
    check_with(rt, renderer, pages, command.token)
}

/// The same with any renderer.
fn check_with<R: Renderer + Drop, P: AllocGlobal + Print>(
    rt: &P,
    renderer: R,
    pages: Pages,
    token: &str,
) -> Result<u8, Fault> {
    let heap = rt.alloc();
    let mut output = WriteTo::new(io::writer(rt));
    check(
        heap,
        renderer,
        pages.config,
        pages.texts.get(),
        token,
        &mut output,
    )
}

/// Runs `replay` over pages of CommonMark, and answers the status to end with.
pub fn run_replay<L: Ledger, P: AllocGlobal + Files + Input + Print>(
    rt: &P,
    blank: Blank,
    command: &Replay<'_>,
) -> Result<u8, Fault>
    requires name { blank.name ≡ L.name }
    requires parts { blank.parts ≡ L.parts }
    requires some { 0 < L.parts }
{
    let Site { pages, entities } = read_site(rt, command.config)?;
    let renderer: CommonMark<L> = CommonMark::with_front(
        entities,
        blank,
        pages.config.markdown.front,
    );
    replay_with(rt, renderer, pages)
}

/// The same with any renderer.
fn replay_with<R: Renderer + Drop, P: AllocGlobal + Input + Print>(
    rt: &P,
    renderer: R,
    pages: Pages,
) -> Result<u8, Fault> {
    let heap = rt.alloc();
    let mut input = ReadFrom::new(rt.reader());
    let mut output = WriteTo::new(io::writer(rt));
    replay(
        heap,
        renderer,
        pages.config,
        pages.texts.get(),
        &mut input,
        &mut output,
    )
}
