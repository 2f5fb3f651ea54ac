//! The command `serve`: a configured site over TCP.

ghost use Rattle.std.specs.Prelude.{◌≡◌, ◌<◌};
ghost use Rattle.docs_server.specs.Serving.{fault_of};

use doc_html::CommonMark;
use doc_page::renderer::Renderer;
use doc_server::site::site_hub;
use doc_server_arguments::command::Serve;
use doc_server_files::files::{Pages, Site, read_site};
use doc_server_rounds::fault::ServeFault;
use doc_server_rounds::serving::serve_on;
use doc_server_streams::fault::Fault;
use doc_server_streams::output::Output;
use doc_server_streams::whole_output::{flush, send};
use doc_server_streams::write_to::WriteTo;
use std::io;
use std::net::{Net, TcpListener, TcpStream};
use std::rt::Files;
use std::sync::ledger::{Blank, Ledger};

/// Runs `serve` over pages of CommonMark, and answers the status to end with.
pub fn run_serve<
    L: Ledger,
    P: AllocGlobal + Files + Net<Listener = TcpListener, Stream = TcpStream> + Print,
>(rt: &P, blank: Blank, command: &Serve<'_>) -> Result<u8, Fault>
    requires name { blank.name ≡ L.name }
    requires parts { blank.parts ≡ L.parts }
    requires some { 0 < L.parts }
{
    let Site { pages, entities } = read_site(rt, command.config)?;
    let renderer: CommonMark<L> = CommonMark::with_front(
        entities,
        blank,
        pages.config.markdown.front,
    );
    serve_with(rt, renderer, pages, command)
}

/// The same with any renderer. All pages stand before the address is bound, and peers are accepted behind the line that tells it.
fn serve_with<
    R: Renderer + Drop,
    P: AllocGlobal + Net<Listener = TcpListener, Stream = TcpStream> + Print,
>(rt: &P, renderer: R, pages: Pages, command: &Serve<'_>) -> Result<u8, Fault> {
    let heap = rt.alloc();
    let mut hub = site_hub(heap, renderer, pages.config, pages.texts.get())?;
    let Ok(listener) = TcpListener::bind(rt, command.address) else {
        return Err(Fault::Socket);
    };
    tell_address(&mut WriteTo::new(io::writer(rt)), command.written)?;
    match serve_on(heap, &mut hub, &listener, command.count, command.turns) {
        Ok(_) => Ok(0),
        Err(fault) => Err(fault_of(fault)),
    }
}

/// Writes the line that tells the address.
pub fn tell_address<O: Output>(output: &mut O, written: &str) -> Result<(), Fault> {
    send(output, b"listening ")?;
    send(output, written.as_bytes())?;
    send(output, b"\n")?;
    flush(output)
}

/// What stops the program where its peers are not served.
fn fault_of(fault: ServeFault) -> Fault
    ensures { result ≡ fault_of fault }
{
    match fault {
        ServeFault::Accept => Fault::Socket,
        ServeFault::NoIds => Fault::Refused,
        ServeFault::Memory => Fault::Memory,
    }
}
