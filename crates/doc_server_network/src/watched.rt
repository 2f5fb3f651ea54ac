//! A network whose traffic is told to somebody.

ghost use Rattle.std.specs.Prelude.{◌≡◌};

use crate::accepted::Accepted;
use crate::came::Came;
use crate::handed::Handed;
use crate::net_fault::NetFault;
use crate::network::Network;
use crate::permit::Permit;
use crate::told::Told;
use crate::watch::Watch;
use doc_page_parts::heap::{BTreeMap, Heap};
use std::time::Duration;

/// A network and who watches it. What passes on its connections is what passes on the network's.
pub struct Watched<N: Network + Drop, W: Watch + Drop> {
    net: N,
    watch: W,
    /// The replies that were begun and aren't handed over in full, by the numbers of their connections.
    begun: BTreeMap<u64, Handed>,
}

/// Written out, so that it is proved here once: what a derived drop does is proved wherever a value is let go.
impl<N: Network + Drop, W: Watch + Drop> Drop for Watched<N, W> {
    fn drop(self) {
        let Watched {
            net: _,
            watch: _,
            begun: _,
        } = self;
    }
}

impl<N: Network + Drop, W: Watch + Drop> Watched<N, W> {
    /// A network of which somebody is told from now on.
    pub fn new(heap: Heap, net: N, watch: W) -> Watched<N, W>
        ensures net { result.net ≡ net }
        ensures watch { result.watch ≡ watch }
    {
        Watched {
            net,
            watch,
            begun: BTreeMap::new(heap),
        }
    }

    /// The network, of which nobody is told any more, and who was.
    pub fn into_parts(self) -> (N, W)
        ensures { result ≡ (self.net, self.watch) }
    {
        let Watched {
            net,
            watch,
            begun: _,
        } = self;
        (net, watch)
    }

    /// Tells a reply once it is handed over in full. A write is passed what is left of one reply, and took so many bytes of that.
    fn went(&mut self, id: u64, rest: &[u8], taken: usize)
        ensures { self.new.net ≡ self.old.net }
    {
        let reply = match self.begun.get(&id) {
            Some(reply) => *reply,
            None => Handed::of(rest),
        };
        if taken < rest.len() {
            self.keep(id, reply);
            return;
        }
        let _ = self.begun.remove(&id);
        self.watch.answered(id, reply);
    }

    /// Keeps a reply that was begun. Where memory is lacking for that, nothing more is told of its connection.
    fn keep(&mut self, id: u64, reply: Handed)
        ensures { self.new.net ≡ self.old.net }
    {
        if self.begun.insert(id, reply).is_err() {
            self.watch.left(id);
        }
    }
}

impl<N: Network + Drop, W: Watch + Drop> Network for Watched<N, W> {
    ghost came = { λ watched. N.came watched.net };

    ghost gone = { λ watched. N.gone watched.net };

    ghost is_free = { λ watched. N.is_free watched.net };

    ghost wakes = { λ watched. N.wakes watched.net };

    ghost has_ended = { λ watched. N.has_ended watched.net };

    ghost told_all = { λ watched. N.told_all watched.net };

    ghost made = { λ watched. N.made watched.net };

    fn wait(&mut self, most: Duration) -> Result<(), NetFault> {
        self.watch.end_turn();
        let waited = self.net.wait(most);
        self.watch.begin_turn();
        waited
    }

    fn told(&mut self) -> Option<Told> {
        self.net.told()
    }

    fn accept(&mut self, id: u64) -> Accepted {
        let accepted = self.net.accept(id);
        if accepted == Accepted::Peer {
            self.watch.joined(id);
        }
        accepted
    }

    fn read(&mut self, id: u64, buf: &mut [u8]) -> Result<Came, NetFault> {
        let came = self.net.read(id, buf)?;
        if let Came::Bytes(count) = came {
            self.watch.came(id, &buf[..count]);
        }
        Ok(came)
    }

    fn write(&mut self, permit: &Permit<'_>, id: u64, buf: &[u8]) -> Result<usize, NetFault> {
        let count = self.net.write(permit, id, buf)?;
        self.went(id, buf, count);
        Ok(count)
    }

    fn end(&mut self, id: u64) -> bool {
        self.net.end(id)
    }

    fn close(&mut self, id: u64) {
        self.watch.left(id);
        let _ = self.begun.remove(&id);
        self.net.close(id);
    }
}
