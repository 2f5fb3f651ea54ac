//! The command `listen`: a configured site over TCP, until the program is told to stop.

ghost use Rattle.std.specs.Prelude.{◌≡◌, ◌<◌, ◌≤◌, Ok, IfOk, option_copied};
ghost use Rattle.std.specs.FinMap as map;
ghost use Rattle.doc_server_serving.specs.Hostings.{IsHosted};
ghost use Rattle.doc_server_serving.specs.Wirings.{AreWoken};
ghost use Rattle.docs_server.specs.Followed.{IsFollowed};
ghost use Rattle.docs_server.specs.Listening.{IsReady};

use crate::access_log::AccessLog;
use crate::ended::ended_status;
use crate::followed_journal::{FollowedJournal, take_journal};
use crate::following::Following;
use crate::held::{Held, hold};
use crate::listen_fault::ListenFault;
use crate::monitors::Monitors;
use crate::reloading::Reloading;
use crate::reloading_in_steps::ReloadingInSteps;
use crate::shared::Shared;
use crate::status::status_of;
use crate::system::System;
use crate::told_folders::tell_passed;
use crate::watching::Watching;
use doc_html::CommonMark;
use doc_hub::hub::Hub;
use doc_media::media::Media;
use doc_page::renderer::Renderer;
use doc_page_parts::heap::Heap;
use doc_page_parts::list::List;
use doc_server::site::site_hub_taking;
use doc_server_arguments::command::Listen;
use doc_server_arguments::log_form::LogForm;
use doc_server_config::bounds::Bounds;
use doc_server_config::config::SiteConfig;
use doc_server_config::document::Document;
use doc_server_config::readme::Move;
use doc_server_files::bounded::{Bounded, read_bounded};
use doc_server_files::files::{Pages, Site};
use doc_server_files::moving::make_moves;
use doc_server_log_names::lines::{Askers, Lines};
use doc_server_log_names::names::Names;
use doc_server_restore::restore::restore;
use doc_server_serving::hosting::ended::Ended;
use doc_server_serving::hosting::fault::HostingFault;
use doc_server_serving::hosting::host::Host;
use doc_server_serving::hosting::host_site;
use doc_server_serving::hosting::terms::Terms;
use doc_server_serving::limits::Limits;
use doc_server_serving::net::watch::Watch;
use doc_server_serving::source::Source;
use doc_server_status::standing::Standing;
use doc_server_streams::fault::Fault;
use std::cell::Cell;
use std::fs::{File, metadata};
use std::net::{Net, SocketAddr};
use std::os::unix::fs::FileTypeExt;
use std::rt::{Clock, Files};
use std::sync::ledger::{Blank, Ledger};

/// A site that is ready to be served.
struct Ready {
    pages: Pages,
    media: Option<Media>,
    /// The moves that are made on its pages, once they stand.
    moves: List<Move>,
}

/// Who is told what passes: a log, where there is one, and the door, if the arguments ask for one.
#[derive(Drop)]
struct Told<'a, P> {
    log: Option<AccessLog<'a, P>>,
    shared: &'a Shared,
}

/// Where the system tells what standard input is.
const INPUT: &str = "/proc/self/fd/0";

/// Runs `listen` over pages of CommonMark, and answers the status to end with.
pub fn run_listen<
    'a,
    L: Ledger,
    P: AllocGlobal + Clock + Clone + Drop + Eprint + Files<File = File> + Input + Net + Print,
>(rt: &'a P, blank: Blank, command: &Listen<'a>) -> u8
    requires name { blank.name ≡ L.name }
    requires parts { blank.parts ≡ L.parts }
    requires some { 0 < L.parts }
{
    status_of(rt, listen_configured::<L, P>(rt, blank, command))
}

/// The same as a result.
fn listen_configured<
    'a,
    L: Ledger,
    P: AllocGlobal + Clock + Clone + Drop + Eprint + Files<File = File> + Input + Net + Print,
>(rt: &'a P, blank: Blank, command: &Listen<'a>) -> Result<u8, ListenFault>
    requires name { blank.name ≡ L.name }
    requires parts { blank.parts ≡ L.parts }
    requires some { 0 < L.parts }
{
    let (document, bounded) = read_bounded(rt, command.config)?;
    listen_bounded::<L, P>(rt, blank, command, document, bounded)
}

/// The same of a configuration that is read.
fn listen_bounded<
    'a,
    L: Ledger,
    P: AllocGlobal + Clock + Clone + Drop + Eprint + Files<File = File> + Input + Net + Print,
>(
    rt: &'a P,
    blank: Blank,
    command: &Listen<'a>,
    document: Document,
    bounded: Bounded,
) -> Result<u8, ListenFault>
    requires name { blank.name ≡ L.name }
    requires parts { blank.parts ≡ L.parts }
    requires some { 0 < L.parts }
{
    let Bounded {
        site,
        bounds,
        media,
        media_paths,
        moves,
        passed,
        names,
    } = bounded;
    tell_passed(rt, passed.get());
    let shared = Shared::new();
    let Site { pages, entities } = site;
    let login = takes_logins(&pages.config);
    let form = lines_of(command.log, Askers { names, login });
    let media_count = media_paths.get().len();
    let config = Reloading::new(
        rt,
        command.config,
        command.watch,
        document,
        media_count,
        &shared,
    );
    let front = pages.config.markdown.front;
    let renderer: CommonMark<L> = CommonMark::with_front(entities, blank, front);
    let ready = Ready {
        pages,
        media,
        moves,
    };
    let told = Told {
        log: log_of(rt, form, &shared.names),
        shared: &shared,
    };
    match command.follow {
        None => listen_with(rt, renderer, ready, &bounds, command, told, config),
        Some(name) => follow_with(rt, renderer, ready, &bounds, command, told, name, config),
    }
}

/// The same with any renderer, as a result: with a journal of its own, or with none.
fn listen_with<
    'a,
    R: Renderer + Drop,
    P: AllocGlobal + Clock + Clone + Drop + Eprint + Files<File = File> + Input + Net + Print,
>(
    rt: &'a P,
    renderer: R,
    ready: Ready,
    bounds: &Bounds,
    command: &Listen<'_>,
    told: Told<'a, P>,
    config: Reloading<'a, P>,
) -> Result<u8, ListenFault> {
    let hub = hub_of(rt.alloc(), renderer, ready, true)?;
    let mut source = ReloadingInSteps::new(config);
    serve_hub(rt, hub, bounds, command, told, &mut source)
}

/// The same where another server's journal is followed, the file of this name.
fn follow_with<
    'a,
    R: Renderer + Drop,
    P: AllocGlobal + Clock + Clone + Drop + Eprint + Files<File = File> + Input + Net + Print,
>(
    rt: &'a P,
    renderer: R,
    ready: Ready,
    bounds: &Bounds,
    command: &Listen<'_>,
    told: Told<'a, P>,
    name: &'a str,
    config: Reloading<'a, P>,
) -> Result<u8, ListenFault> {
    let (hub, journal) = followed_hub(rt, rt.alloc(), renderer, ready, name)?;
    let mut source = Following::new(rt, name, config, journal, told.shared);
    match serve_hub(rt, hub, bounds, command, told, &mut source) {
        Err(ListenFault::Follow(fault)) => Err(source.ended(fault)),
        status => status,
    }
}

/// A hub with all pages and the edits of the journal of this name, as far as that stands.
fn followed_hub<R: Renderer + Drop, P: Files<File = File>>(
    rt: &P,
    heap: Heap,
    renderer: R,
    ready: Ready,
    name: &str,
) -> Result<(Hub<R>, FollowedJournal), ListenFault> {
    let mut hub = hub_of(heap, renderer, ready, false)?;
    let journal = followed_by(rt, heap, &mut hub, name)?;
    Ok((hub, journal))
}

/// A hub with all pages, which takes edits or doesn't.
fn hub_of<R: Renderer + Drop>(
    heap: Heap,
    renderer: R,
    ready: Ready,
    takes_edits: bool,
) -> Result<Hub<R>, ListenFault>
    ensures ready { IfOk result (λ hub. IsReady takes_edits ready.pages.config ready.pages.texts
        ready.media ready.moves hub.1) }
    ensures same { IfOk result (λ hub. R.page hub.0 ≡ R.page renderer) }
{
    let Ready {
        pages,
        media,
        moves,
    } = ready;
    let Pages { config, texts } = pages;
    let mut hub = site_hub_taking(heap, renderer, config, texts.get(), media, takes_edits)?;
    make_moves(&mut hub, moves.get())?;
    Ok(hub)
}

/// The journal of this name, whose edits are made on a hub as far as it stands.
fn followed_by<R: Renderer + Drop, P: Files<File = File>>(
    rt: &P,
    heap: Heap,
    hub: &mut Hub<R>,
    name: &str,
) -> Result<FollowedJournal, ListenFault>
    ensures followed { IfOk result
        (λ journal. IsFollowed journal.followed hub.old.1 hub.new.1) }
    ensures same { R.page hub.new.0 ≡ R.page hub.old.0 }
{
    let (journal, texts) = take_journal(rt, heap, name)?;
    restore(heap, hub, texts.get())?;
    Ok(journal)
}

/// Serves a hub that has all pages. The edits of a journal of its own are made before the address is bound; peers are accepted behind the
/// line that tells it.
fn serve_hub<
    'a,
    R: Renderer + Drop,
    P: AllocGlobal + Clock + Eprint + Files<File = File> + Net + Print,
    S: Source,
>(
    rt: &'a P,
    hub: Hub<R>,
    bounds: &Bounds,
    command: &Listen<'_>,
    told: Told<'a, P>,
    source: &mut S,
) -> Result<u8, ListenFault> {
    let heap = rt.alloc();
    let (_held, monitors) = held_and_monitors(rt, heap, command, &told.shared.standing)?;
    let host = System {
        rt,
        heap,
        written: command.written,
        address: command.address,
        hears_input: is_pipe(rt),
        shared: told.shared,
    };
    let watch = Watching::of(rt, told.log, monitors);
    let ended = listen_on(rt, heap, &host, hub, bounds, command.journal, watch, source)?;
    ended_status(&ended)
}

/// Serves a hub that has the pages of the configuration, on a host, with the journal that the arguments name, if they do, and with the
/// readers and pages that a source gives. Somebody may watch.
fn listen_on<H: Host, R: Renderer + Drop, C: Clock, W: Watch + Drop, S: Source>(
    rt: &C,
    heap: Heap,
    host: &H,
    hub: Hub<R>,
    bounds: &Bounds,
    journal: Option<&str>,
    watch: Option<W>,
    source: &mut S,
) -> Result<Ended<H::Device, H::Network, R, W>, HostingFault<H::Fault>>
    ensures hosted { IfOk result (λ ended. IsHosted H.Device.seen H.Device.may_leave
        H.Device.failed H.Device.stale H.Device.moment H.Device.left_since
        (S.answered source.new) (R.page hub.0) (H.file host.now) (option_copied journal.entry)
        hub.1 ended.saved
        (H.Network.came ended.net) (H.Network.gone ended.net) (ended.served ≡ Ok tt)) }
    ensures woken { IfOk result (λ ended. AreWoken (H.Network.wakes ended.net) ended.server.peers) }
    ensures bound { IfOk result (λ ended. map.len ended.server.peers ≤ bounds.now.connections) }
{
    let terms = Terms {
        journal,
        connections: bounds.connections,
        limits: Limits {
            idle_seconds: bounds.idle_seconds,
            stranger_seconds: bounds.stranger_seconds,
            request_seconds: bounds.request_seconds,
        },
        follow_millis: bounds.follow_millis,
    };
    host_site(rt, heap, host, hub, &terms, watch, source)
}

/// What is held open while a server runs, and the door for monitors, where the arguments ask for one.
fn held_and_monitors<'a, P: AllocGlobal + Files + Net>(
    rt: &P,
    heap: Heap,
    command: &Listen<'_>,
    standing: &'a Cell<Standing>,
) -> Result<(Held<P::File>, Option<Monitors<'a>>), ListenFault> {
    let held = hold(rt, heap, command.config)?;
    let monitors = monitors_of(rt, command.status, standing)?;
    Ok((held, monitors))
}

/// The door for monitors, where the arguments ask for one.
fn monitors_of<'a, P: AllocGlobal + Net>(
    rt: &P,
    address: Option<SocketAddr>,
    standing: &'a Cell<Standing>,
) -> Result<Option<Monitors<'a>>, ListenFault> {
    let Some(address) = address else {
        return Ok(None);
    };
    match Monitors::bind(rt, rt.alloc(), address, standing) {
        Ok(monitors) => Ok(Some(monitors)),
        Err(_) => Err(ListenFault::Command(Fault::Socket)),
    }
}

/// The lines of the log that the arguments ask for, if they do.
fn lines_of(log: Option<LogForm>, askers: Askers) -> Option<Lines> {
    match log? {
        LogForm::Plain => Some(Lines::Plain),
        LogForm::Json => Some(Lines::Json(askers)),
    }
}

/// A log of such lines.
fn log_of<'a, P: AllocGlobal + Clock + Eprint>(
    rt: &'a P,
    form: Option<Lines>,
    names: &'a Cell<Option<Names>>,
) -> Option<AccessLog<'a, P>> {
    Some(AccessLog::new(rt, rt.alloc(), form?, names))
}

/// Whether readers may sign in by a password.
fn takes_logins(config: &SiteConfig) -> bool {
    match &config.browse {
        Some(browse) => browse.login,
        None => false,
    }
}

/// Whether standard input is a pipe, whose end ends the server. The end of a terminal or a socket is no word to it.
fn is_pipe<P: Files>(rt: &P) -> bool {
    match metadata(rt, INPUT) {
        Ok(found) => found.file_type().is_fifo(),
        Err(_) => false,
    }
}
