//! The command `compact`: a journal is written anew, of the site that its edits lead to.

use crate::held::hold;
use crate::listen_fault::ListenFault;
use crate::status::status_of;
use crate::system_place::SystemPlace;
use crate::told_folders::tell_passed;
use crate::torn::TornFile;
use doc_page_parts::heap::Heap;
use doc_page_parts::list::List;
use doc_server_arguments::command::Compact;
use doc_server_compacting::compacting::compact_file;
use doc_server_config::readme::Move;
use doc_server_files::bounded::{Bounded, read_bounded};
use doc_server_files::files::{Pages, Site};
use doc_server_files::site_store::configured_store;
use doc_server_journal::clock::seconds_of;
use doc_server_journal::random::new_identity;
use doc_store::store::Store;
use std::fs::File;
use std::rt::{Clock, Files};

/// Runs `compact`, and answers the status to end with.
pub fn run_compact<P: AllocGlobal + Clock + Clone + Drop + Eprint + Files<File = File>>(
    rt: &P,
    command: &Compact<'_>,
) -> u8 {
    match compact_with(rt, command) {
        Ok(()) => 0,
        Err(fault) => status_of(rt, Err(fault)),
    }
}

/// The same, as a result.
fn compact_with<P: AllocGlobal + Clock + Clone + Drop + Eprint + Files<File = File>>(
    rt: &P,
    command: &Compact<'_>,
) -> Result<(), ListenFault> {
    let (pages, moves) = pages_of(rt, command.config)?;
    compact_over(rt, &pages, moves.get(), command)
}

/// The pages of the configuration of this name, those of its folders behind its own, and the moves that are made on them.
fn pages_of<P: AllocGlobal + Clone + Drop + Eprint + Files>(
    rt: &P,
    config: &str,
) -> Result<(Pages, List<Move>), ListenFault> {
    let (_, bounded) = read_bounded(rt, config)?;
    let Bounded {
        site,
        bounds: _,
        media: _,
        media_paths: _,
        moves,
        passed,
        names: _,
    } = bounded;
    tell_passed(rt, passed.get());
    let Site { pages, entities: _ } = site;
    Ok((pages, moves))
}

/// The same over these pages, which stand in a store.
fn compact_over<P: AllocGlobal + Clock + Eprint + Files<File = File>>(
    rt: &P,
    pages: &Pages,
    moves: &[Move],
    command: &Compact<'_>,
) -> Result<(), ListenFault> {
    let heap = rt.alloc();
    let config = configured_store(heap, pages, moves)?;
    compact_beside(rt, heap, pages, moves, &config, command)
}

/// The same, where they stand in a second store too: the journal's edits are made on it.
fn compact_beside<P: AllocGlobal + Clock + Eprint + Files<File = File>>(
    rt: &P,
    heap: Heap,
    pages: &Pages,
    moves: &[Move],
    config: &Store,
    command: &Compact<'_>,
) -> Result<(), ListenFault> {
    let mut site = configured_store(heap, pages, moves)?;
    compact_held(rt, heap, config, &mut site, command)
}

/// The same, with no descriptor of a standard stream left to the journal's files.
fn compact_held<P: AllocGlobal + Clock + Eprint + Files<File = File>>(
    rt: &P,
    heap: Heap,
    config: &Store,
    site: &mut Store,
    command: &Compact<'_>,
) -> Result<(), ListenFault> {
    let _held = hold(rt, heap, command.config)?;
    compact_named(rt, heap, command.journal, config, site)
}

/// The same of the journal of this name, whose edits are made on a site that is the configuration's.
fn compact_named<P: AllocGlobal + Clock + Eprint + Files<File = File>>(
    rt: &P,
    heap: Heap,
    name: &str,
    config: &Store,
    site: &mut Store,
) -> Result<(), ListenFault> {
    let mut place = SystemPlace::of(rt, heap, name);
    let mut torn = TornFile { rt, heap, name };
    let identity = new_identity(rt)?;
    let seconds = seconds_of(rt);
    compact_file(
        heap, &mut place, &mut torn, config, site, &identity, seconds,
    )?;
    Ok(())
}
