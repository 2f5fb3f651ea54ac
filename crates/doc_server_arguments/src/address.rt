//! Addresses as arguments write them.

ghost use Rattle.std.specs.Prelude.{◌≡◌, ◌++◌, option_copied};
ghost use Rattle.doc_server_arguments.specs.Addresses.{address_of, behind, listen_address_of, loopback};

use crate::number::port_of;
use std::net::{Ipv4Addr, SocketAddr, SocketAddrV4};

/// The address that a word writes: an IP address and a port, as `127.0.0.1:8080` or `[::1]:8080`.
pub(crate) fn address_of(written: &str) -> Option<SocketAddr>
    ensures { result ≡ address_of written.now }
{
    written.parse::<SocketAddr>().ok()
}

/// The same, where `localhost` may stand for 127.0.0.1.
pub(crate) fn listen_address_of(written: &str) -> Option<SocketAddr>
    ensures { result ≡ listen_address_of written.now }
{
    match behind("localhost:", written) {
        Some(port) => local_address_of(port),
        None => address_of(written),
    }
}

/// 127.0.0.1, and the port that a word writes.
fn local_address_of(port: &str) -> Option<SocketAddr>
    ensures { result ≡ address_of (loopback ++ port.now) }
{
    let port = port_of(port)?;
    Some(SocketAddr::V4(SocketAddrV4::new(Ipv4Addr::LOCALHOST, port)))
}

/// What follows a front, where the word has it.
fn behind<'a>(front: &str, word: &'a str) -> Option<&'a str>
    ensures { option_copied result ≡ behind front.now word.now }
{
    word.strip_prefix(front)
}
