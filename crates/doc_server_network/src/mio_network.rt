//! A network over the system's sockets. Of its bytes nothing is known: what its functions do with them is trusted.

ghost use Rattle.std.specs.Prelude.{◌≡◌};

use crate::accepted::Accepted;
use crate::came::Came;
use crate::net_fault::NetFault;
use crate::network::Network;
use crate::permit::Permit;
use crate::retrying::{read_once, write_once};
use crate::told::Told;
use doc_page_parts::heap::{BTreeMap, Heap};
use mio::event::Event;
use mio::net::{TcpListener, TcpStream};
use mio::unix::SourceFd;
use mio::{Events, Interest, Poll, Token};
use std::io::ErrorKind;
use std::net::{Net, Shutdown, SocketAddr};
use std::os::fd::RawFd;
use std::time::Duration;

/// The token of the listener. Those of connections are their numbers, which begin at 1.
const LISTENER: usize = usize::MAX;

/// The token of standard input.
const INPUT: usize = usize::MAX - 1;

const STANDARD_INPUT: RawFd = 0;

/// How many events a wait gives at most.
const MOST_EVENTS: usize = 256;

/// A poll, a listener, and the streams of the connections by their numbers. The poll tells of changes alone.
#[derive(Drop)]
pub struct MioNetwork {
    poll: Poll,
    events: Events<Heap>,
    /// How many of the events were told.
    told: usize,
    listener: TcpListener,
    streams: BTreeMap<u64, TcpStream>,
}

impl MioNetwork {
    /// A network that listens at this address, without a connection. It tells of standard input where that is wanted.
    pub fn bind<R: Net>(
        rt: &R,
        heap: Heap,
        address: SocketAddr,
        hears_input: bool,
    ) -> Result<MioNetwork, NetFault> {
        let Ok((poll, listener)) = opened(rt, address) else {
            return Err(NetFault);
        };
        let Ok(events) = Events::with_capacity(heap, MOST_EVENTS) else {
            return Err(NetFault);
        };
        if hears_input {
            watch_input(&poll);
        }
        Ok(MioNetwork {
            poll,
            events,
            told: 0,
            listener,
            streams: BTreeMap::new(heap),
        })
    }

    /// The address that it listens at, where the system tells it. It tells the port where the port of the address asked for was 0.
    pub fn address(&self) -> Option<SocketAddr> {
        match self.listener.local_addr() {
            Ok(address) => Some(address),
            Err(_) => None,
        }
    }

    /// Has the poll tell of a peer's stream, which sends what is written at once, and keeps it under this number.
    fn keep(&mut self, id: u64, mut stream: TcpStream) -> Accepted {
        let _ = stream.set_nodelay(true);
        let registry = self.poll.registry();
        if registry
            .register(&mut stream, Token(id as usize), both())
            .is_err()
        {
            return Accepted::Failed;
        }
        match self.streams.insert(id, stream) {
            Ok(_) => Accepted::Peer,
            Err(_) => Accepted::Failed,
        }
    }
}

/// A connection is waited for to read and to write.
fn both() -> Interest {
    Interest::READABLE | Interest::WRITABLE
}

/// A poll, and a listener at this address of which it tells.
fn opened<R: Net>(rt: &R, address: SocketAddr) -> std::io::Result<(Poll, TcpListener)> {
    let poll = Poll::new(rt)?;
    let mut listener = TcpListener::bind(rt, address)?;
    poll.registry()
        .register(&mut listener, Token(LISTENER), Interest::READABLE)?;
    Ok((poll, listener))
}

/// Has the poll tell of standard input, which isn't read here.
fn watch_input(poll: &Poll) {
    let _ = poll.registry().register(
        &mut SourceFd(&STANDARD_INPUT),
        Token(INPUT),
        Interest::READABLE,
    );
}

/// What an event tells. Where standard input has ended nothing else is told of it.
fn told_by(event: &Event) -> Told {
    match event.token().0 {
        LISTENER => Told::Door,
        INPUT => {
            if event.is_read_closed() {
                Told::InputEnds
            } else {
                Told::Input
            }
        }
        number => Told::Connection {
            id: number as u64,
            is_gone: event.is_write_closed(),
        },
    }
}

impl Network for MioNetwork {
    ghost use Rattle.std.specs.Prelude.{None, ⊤};

    ghost came = { λ _ _. None };

    ghost gone = { λ _ _. None };

    ghost is_free = { λ _ _. ⊤ };

    ghost wakes = { λ _ _. ⊤ };

    ghost has_ended = { λ _ _. ⊤ };

    ghost told_all = { λ _. ⊤ };

    ghost made = { λ _ _. ⊤ };

    fn wait(&mut self, most: Duration) -> Result<(), NetFault> {
        self.told = 0;
        match self.poll.poll(&mut self.events, Some(most)) {
            Ok(()) => Ok(()),
            Err(_) => Err(NetFault),
        }
    }

    fn told(&mut self) -> Option<Told> {
        let event = self.events.iter().nth(self.told)?;
        self.told = self.told.saturating_add(1);
        Some(told_by(event))
    }

    fn accept(&mut self, id: u64) -> Accepted {
        match self.listener.accept() {
            Ok((stream, _)) => self.keep(id, stream),
            Err(e) => match e.kind() {
                ErrorKind::WouldBlock => Accepted::Nobody,
                ErrorKind::ConnectionAborted | ErrorKind::Interrupted => Accepted::Failed,
                _ => Accepted::Rests,
            },
        }
    }

    fn read(&mut self, id: u64, buf: &mut [u8]) -> Result<Came, NetFault> {
        match self.streams.get(&id) {
            Some(stream) => read_once(stream, buf),
            None => Err(NetFault),
        }
    }

    fn write(&mut self, _permit: &Permit<'_>, id: u64, buf: &[u8]) -> Result<usize, NetFault> {
        match self.streams.get(&id) {
            Some(stream) => write_once(stream, buf),
            None => Err(NetFault),
        }
    }

    fn end(&mut self, id: u64) -> bool {
        match self.streams.get(&id) {
            Some(stream) => stream.shutdown(Shutdown::Write).is_ok(),
            None => false,
        }
    }

    fn close(&mut self, id: u64) {
        let _ = self.streams.remove(&id);
    }
}
