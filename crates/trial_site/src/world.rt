//! The hub of one world, and its calls.

use crate::given::number_first;
use crate::stop::Stop;
use crate::times::push_answer;
use doc_hub::hub::Hub;
use doc_page::renderer::Renderer;
use doc_page_parts::failure::Memory;
use doc_page_parts::heap::{Heap, String};
use doc_people::settings::Settings;
use doc_server_config::browsing::browse_of;
use doc_store::readers::Readers;
use trial::run::Calls;
use trial::written::text_of;

/// A refusal has room in so many bytes: so it is told also where all growths behind the first one are refused.
const ROOM: usize = 64;

/// What the calls of one world share.
#[derive(Drop)]
pub struct World<R: Renderer + Drop> {
    pub heap: Heap,
    pub hub: Hub<R>,
}

/// The world of a line `keep CACHE CONFIG`, or `close CACHE CONFIG` where no connection is kept alive, or `read CACHE CONFIG` where no
/// edits are taken. Of the configuration the readers are taken, and the pages for people.
pub fn new_world<R: Renderer + Drop>(
    heap: Heap,
    renderer: R,
    line: &str,
) -> Result<World<R>, Stop> {
    let Begin {
        settings,
        cache,
        readers,
    } = read_begin(heap, line)?;
    Ok(World {
        heap,
        hub: Hub::with_settings(heap, renderer, readers, settings, cache)?,
    })
}

/// What the line of a world says of its hub.
struct Begin {
    settings: Settings,
    cache: usize,
    readers: Readers,
}

fn read_begin(heap: Heap, line: &str) -> Result<Begin, Stop> {
    let Some(given) = text_of(heap, line)? else {
        return Err(Stop::NoCall);
    };
    let begin = begin_of(heap, &given);
    drop(given);
    begin
}

fn begin_of(heap: Heap, given: &str) -> Result<Begin, Stop> {
    let (kind, rest) = given.split_once(' ').unwrap_or((given, ""));
    let (cache, config) = number_first(rest)?;
    let readers = Readers::from_toml(heap, config)?;
    Ok(Begin {
        settings: Settings {
            keep_alive: kind != "close",
            takes_edits: kind != "read",
            browse: browse_of(heap, config)?,
        },
        cache: cache as usize,
        readers,
    })
}

impl<R: Renderer + Drop> Calls for World<R> {
    fn called(&mut self, heap: Heap, name: &str, given: &str) -> Result<String, Memory> {
        let mut out = String::with_capacity(heap, ROOM)?;
        match push_said(&mut out, self, name, given) {
            Ok(()) => Ok(out),
            Err(Memory) => Err(Memory),
        }
    }
}

/// Writes what is printed for a call.
fn push_said<R: Renderer + Drop>(
    out: &mut String,
    world: &mut World<R>,
    name: &str,
    given: &str,
) -> Result<(), Memory> {
    match push_answer(out, world, name, given) {
        Ok(()) => Ok(()),
        Err(Stop::Memory) => Err(Memory),
        Err(stop) => Ok(write!(out, "{stop}")?),
    }
}
