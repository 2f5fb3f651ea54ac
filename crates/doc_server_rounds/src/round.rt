//! Rounds of passes over links.

ghost use Rattle.std.specs.Prelude.{◌≡◌, ◌≤◌, ◌<◌, ◌⊎◌, length, vec_len, vec_capacity, false, IfOk, OnErr, OnOk};
ghost use Rattle.doc_server_rounds.specs.Rounds.{ServesAll, AreClosed, fault_places, failures_in, risen_from};

use crate::link::Link;
use doc_hub::hub::Hub;
use doc_page::renderer::Renderer;
use doc_page_parts::failure::Memory;
use doc_page_parts::heap::{Heap, Vec};
use doc_page_parts::list::List;
use doc_server_streams::stream::Stream;

/// What a round did.
#[derive(Drop)]
pub struct Round {
    pub passes: u32,
    /// The places of the links whose stream failed in the round.
    pub faults: List<usize>,
}

/// Passes over the open links in their order, until none is open, and at most so many. A link that fails is closed, and no other.
/// `Memory` says that there was no room to tell the faults: then nothing was done. That a pass reads at all no clause says.
pub fn serve_round<R: Renderer + Drop, S: Stream + Drop>(
    heap: Heap,
    hub: &mut Hub<R>,
    links: &mut [Link<S>],
    turns: u32,
) -> Result<Round, Memory>
    ensures serves { OnOk result
        (ServesAll (R.page hub.old.0) hub.old.1 links.old hub.new.1 links.new) }
    ensures faults { IfOk result (λ round. round.faults ≡ fault_places links.old links.new) }
    ensures turns { IfOk result (λ round. round.passes ≤ turns) }
    ensures all { IfOk result (λ round. (round.passes ≡ turns) ⊎ AreClosed links.new) }
    ensures refused { OnErr result ((hub.new.1 ≡ hub.old.1) × (links.new ≡ links.old)) }
    ensures same { R.page hub.new.0 ≡ R.page hub.old.0 }
{
    let mut before = Vec::with_capacity(heap, links.len())?;
    count_failures(links, &mut before);
    let mut faults = Vec::with_capacity(heap, links.len())?;
    let passes = make_passes(hub, links, turns);
    list_faults(&before, links, &mut faults);
    Ok(Round {
        passes,
        faults: List::new(faults),
    })
}

/// Lists the places of the links whose streams have failed more often than before.
fn list_faults<S: Stream + Drop>(before: &[u64], links: &[Link<S>], faults: &mut Vec<usize>)
    requires empty { vec_len faults.old ≡ 0 }
    requires room { length links.now ≤ vec_capacity faults.old }
    requires counts { length before.now ≡ length links.now }
    ensures { faults.new.items ≡ risen_from 0 before.now (failures_in links.now) }
{
    'places: for (place, link) in links.iter().enumerate() {
        if before[place] < link.stream().failures() {
            faults.push(place).unwrap();
        }
    }
}

/// Lists how many calls of each link's stream have failed.
fn count_failures<S: Stream + Drop>(links: &[Link<S>], counts: &mut Vec<u64>)
    requires empty { vec_len counts.old ≡ 0 }
    requires room { length links.now ≤ vec_capacity counts.old }
    ensures { counts.new.items ≡ failures_in links.now }
{
    'links: for link in links {
        counts.push(link.stream().failures()).unwrap();
    }
}

/// Passes, until none is open, and at most so many. The answer is how many there were.
fn make_passes<R: Renderer + Drop, S: Stream + Drop>(
    hub: &mut Hub<R>,
    links: &mut [Link<S>],
    turns: u32,
) -> u32
    ensures serves { ServesAll (R.page hub.old.0) hub.old.1 links.old hub.new.1 links.new }
    ensures turns { result ≤ turns }
    ensures all { (result ≡ turns) ⊎ AreClosed links.new }
    ensures same { R.page hub.new.0 ≡ R.page hub.old.0 }
{
    let mut passes = 0;
    'passes: while passes < turns && any_open(links) {
        pass_all(hub, links);
        passes += 1;
    }
    passes
}

/// Whether a link is open.
fn any_open<S: Stream + Drop>(links: &[Link<S>]) -> bool
    ensures { result ≡ false → AreClosed links.now }
{
    'links: for link in links {
        if link.is_open() {
            return true;
        }
    }
    false
}

/// One pass over the open links, in their order.
fn pass_all<R: Renderer + Drop, S: Stream + Drop>(hub: &mut Hub<R>, links: &mut [Link<S>])
    ensures serves { ServesAll (R.page hub.old.0) hub.old.1 links.old hub.new.1 links.new }
    ensures same { R.page hub.new.0 ≡ R.page hub.old.0 }
{
    'links: for place in 0..links.len() {
        pass_at(hub, links, place);
    }
}

/// One pass of the link at this place, where it is open.
fn pass_at<R: Renderer + Drop, S: Stream + Drop>(
    hub: &mut Hub<R>,
    links: &mut [Link<S>],
    place: usize,
)
    requires { place < length links.old }
    ensures serves { ServesAll (R.page hub.old.0) hub.old.1 links.old hub.new.1 links.new }
    ensures same { R.page hub.new.0 ≡ R.page hub.old.0 }
    ensures length { length links.new ≡ length links.old }
{
    let link = &mut links[place];
    if !link.is_open() {
        return;
    }
    link.pass(hub);
}
