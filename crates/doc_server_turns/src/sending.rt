//! Handing replies over to a connection that may take a part of them.

ghost use Rattle.std.specs.Prelude.{◌≡◌, ◌≤◌, [], length, drop, true, false, IfOk, OnErr};
ghost use Rattle.doc_server_network.specs.Networks.{Recalls, Rests, RestsBut, Stays, StaysBut};
ghost use Rattle.doc_server_turns.specs.Replies.{Starts, left_of};
ghost use Rattle.doc_server_turns.specs.Wirings.{HandsOver};

use crate::stranger::note_handed;
use doc_page_parts::bytes::Bytes;
use doc_page_parts::heap::Heap;
use doc_server_network::net_fault::NetFault;
use doc_server_network::network::Network;
use doc_server_network::permit::Permit;
use std::collections::VecDeque;

/// Hands replies over until all are, or the connection takes no more yet. Of the first one `sent` bytes were handed over. Its peer is known
/// once one is handed over in full that not whoever asks is given. True: all are.
pub fn send_replies<N: Network>(
    id: u64,
    net: &mut N,
    permit: &Permit<'_>,
    replies: &mut VecDeque<Bytes, Heap>,
    sent: &mut usize,
    is_known: &mut bool,
) -> Result<bool, NetFault>
    requires starts { Starts sent.old replies.old.items }
    ensures gives { HandsOver (N.gone net.old id) (N.gone net.new id)
        (left_of sent.old replies.old.items) (left_of sent.new replies.new.items) }
    ensures starts { Starts sent.new replies.new.items }
    ensures all { IfOk result (λ all. all ≡ true → replies.new.items ≡ []) }
    ensures others { RestsBut id (N.gone net.old) (N.gone net.new) }
    ensures came { Rests (N.came net.old) (N.came net.new) }
    ensures arms { IfOk result (λ all. all ≡ false → N.wakes net.new id) }
    ensures wakes { StaysBut id (N.wakes net.old) (N.wakes net.new) }
    ensures fails { OnErr result (N.has_ended net.new id) }
    ensures ended { Stays (N.has_ended net.old) (N.has_ended net.new) }
    ensures free { Stays (N.is_free net.old) (N.is_free net.new) }
    ensures calls { Recalls (N.made net.old) (N.made net.new) }
{
    'replies: while let Some(reply) = replies.front() {
        if !send_reply(id, net, permit, reply.get(), sent)? {
            return Ok(false);
        }
        note_handed(is_known, reply.get());
        let _ = replies.pop_front();
        *sent = 0;
    }
    Ok(true)
}

/// Hands the bytes of one reply over from `sent` on, until all are, or the connection takes no more yet. True: all are.
fn send_reply<N: Network>(
    id: u64,
    net: &mut N,
    permit: &Permit<'_>,
    bytes: &[u8],
    sent: &mut usize,
) -> Result<bool, NetFault>
    ensures gives { HandsOver (N.gone net.old id) (N.gone net.new id)
        (drop sent.old bytes.now) (drop sent.new bytes.now) }
    ensures whole { IfOk result (λ whole. whole ≡ true → length bytes.now ≤ sent.new) }
    ensures others { RestsBut id (N.gone net.old) (N.gone net.new) }
    ensures came { Rests (N.came net.old) (N.came net.new) }
    ensures arms { IfOk result (λ whole. whole ≡ false → N.wakes net.new id) }
    ensures wakes { StaysBut id (N.wakes net.old) (N.wakes net.new) }
    ensures fails { OnErr result (N.has_ended net.new id) }
    ensures ended { Stays (N.has_ended net.old) (N.has_ended net.new) }
    ensures free { Stays (N.is_free net.old) (N.is_free net.new) }
    ensures calls { Recalls (N.made net.old) (N.made net.new) }
{
    'writes: while *sent < bytes.len() {
        let count = net.write(permit, id, &bytes[*sent..])?;
        if count == 0 {
            return Ok(false);
        }
        *sent += count;
    }
    Ok(true)
}
