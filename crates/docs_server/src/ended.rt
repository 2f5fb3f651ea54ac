//! The status that `listen` ends with.

use crate::listen_fault::ListenFault;
use doc_page::renderer::Renderer;
use doc_server_journal::device::Device;
use doc_server_serving::fault::ServeFault;
use doc_server_serving::hosting::ended::Ended;
use doc_server_serving::named_file::NamedFile;
use doc_server_serving::net::network::Network;
use doc_server_serving::net::watch::Watch;

/// The status to end with, where the server was told to stop. Where it can't write and its journal isn't found under its name, that is why.
pub fn ended_status<D: Device + NamedFile, N: Network, R: Renderer + Drop, W: Watch>(
    ended: &Ended<D, N, R, W>,
) -> Result<u8, ListenFault> {
    match ended.served {
        Ok(()) => Ok(0),
        Err(ServeFault::CannotWrite) if !is_found(ended) => Err(ListenFault::Moved),
        Err(fault) => Err(ListenFault::from(fault)),
    }
}

/// Whether the journal is found under its name, where there is one.
fn is_found<D: Device + NamedFile, N: Network, R: Renderer + Drop, W: Watch>(
    ended: &Ended<D, N, R, W>,
) -> bool {
    match ended.saved.device() {
        Some(device) => device.is_found(),
        None => true,
    }
}
