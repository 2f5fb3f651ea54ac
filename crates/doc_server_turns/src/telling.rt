//! What a network tells of, and the clients that it wakes.

ghost use Rattle.doc_server_turns.specs.Tellings.{IsNews};
ghost use Rattle.std.specs.Prelude.{◌≡◌, ◌<◌, ◌-◌, ◌^◌, ◌||◌, false};
ghost use Rattle.doc_server_network.specs.Networks.{Recalls, Rests, Stays};
ghost use Rattle.doc_server_turns.specs.Hearing.{RouseAll};
ghost use Rattle.doc_server_turns.specs.Wirings.{AreWoken, Gives};

use crate::peers::Peers;
use doc_server_network::network::Network;
use doc_server_network::told::Told;

/// What a network has told besides of connections.
#[derive(Clone, Copy)]
pub struct News {
    /// Whether a peer may be waiting to be accepted.
    pub is_knocked: bool,
    /// Whether a peer is gone.
    pub is_lost: bool,
    /// Whether something has come on standard input.
    pub input_came: bool,
    /// Whether standard input has ended.
    pub input_has_ended: bool,
    /// How many things it has told. Where they are as many as a `u64` counts, more may be left.
    pub count: u64,
}

impl News {
    /// A peer may be gone.
    fn hear_loss(&mut self, is_gone: bool)
        ensures { self.new ≡ record self.old { is_lost = self.old.is_lost || is_gone } }
    {
        self.is_lost = self.is_lost || is_gone;
    }
}

/// Wakes the clients that the network tells of, until it has told all.
pub fn wake_told<N: Network>(peers: &mut Peers, net: &mut N) -> News
    ensures all { result.count < 2 ^ 64 - 1 → N.told_all net.new }
    ensures news { IsNews result (N.made net.new) }
    ensures gives { Gives (N.gone net.old) (N.gone net.new) (N.has_ended net.new) peers.old peers.new }
    ensures rouses { RouseAll peers.old peers.new }
    ensures came { Rests (N.came net.old) (N.came net.new) }
    ensures gone { Rests (N.gone net.old) (N.gone net.new) }
    ensures woken { AreWoken (N.wakes net.old) peers.old → AreWoken (N.wakes net.new) peers.new }
    ensures ended { Stays (N.has_ended net.old) (N.has_ended net.new) }
    ensures free { Stays (N.is_free net.old) (N.is_free net.new) }
    ensures calls { Recalls (N.made net.old) (N.made net.new) }
{
    let mut news = News {
        is_knocked: false,
        is_lost: false,
        input_came: false,
        input_has_ended: false,
        count: 0,
    };
    'told: for count in 0..u64::MAX {
        if !wake_one(peers, net, &mut news) {
            news.count = count;
            return news;
        }
    }
    news.count = u64::MAX;
    news
}

/// Wakes the client that the network tells of next, or notes what else it tells. False: it has told all.
fn wake_one<N: Network>(peers: &mut Peers, net: &mut N, news: &mut News) -> bool
    ensures all { result ≡ false → N.told_all net.new }
    ensures news { IsNews news.old (N.made net.old) → IsNews news.new (N.made net.new) }
    ensures gives { Gives (N.gone net.old) (N.gone net.new) (N.has_ended net.new) peers.old peers.new }
    ensures rouses { RouseAll peers.old peers.new }
    ensures came { Rests (N.came net.old) (N.came net.new) }
    ensures gone { Rests (N.gone net.old) (N.gone net.new) }
    ensures woken { AreWoken (N.wakes net.old) peers.old → AreWoken (N.wakes net.new) peers.new }
    ensures ended { Stays (N.has_ended net.old) (N.has_ended net.new) }
    ensures free { Stays (N.is_free net.old) (N.is_free net.new) }
    ensures calls { Recalls (N.made net.old) (N.made net.new) }
{
    match net.told() {
        None => false,
        Some(Told::Connection { id, is_gone }) => {
            news.hear_loss(is_gone);
            peers.wake(id, is_gone);
            true
        }
        Some(Told::Door) => {
            news.is_knocked = true;
            true
        }
        Some(Told::Input) => {
            news.input_came = true;
            true
        }
        Some(Told::InputEnds) => {
            news.input_has_ended = true;
            true
        }
    }
}
