//! What a site was served with, and how that ended.

ghost use Rattle.std.specs.Prelude.{◌≡◌, Some};

use crate::fault::ServeFault;
use crate::server::Server;
use doc_page::renderer::Renderer;
use doc_server_journal::device::Device;
use doc_server_network::network::Network;
use doc_server_network::saved_hub::SavedHub;
use doc_server_network::watch::Watch;
use doc_server_network::watched::Watched;

/// The hub, the network and the server of a site that isn't served any more, who watched it, and why it isn't.
pub struct Ended<D: Device, N: Network, R: Renderer + Drop, W: Watch> {
    pub saved: SavedHub<D, R>,
    pub net: N,
    pub server: Server,
    pub watch: Option<W>,
    pub served: Result<(), ServeFault>,
}

/// Written out, so that it is proved here once: what a derived drop does is proved wherever a value is let go.
impl<D: Device + Drop, N: Network + Drop, R: Renderer + Drop, W: Watch + Drop> Drop
    for Ended<D, N, R, W> {
    fn drop(self) {
        let Ended {
            saved: _,
            net: _,
            server: _,
            watch: _,
            served: _,
        } = self;
    }
}

impl<D: Device, N: Network + Drop, R: Renderer + Drop, W: Watch + Drop> Ended<
    D,
    Watched<N, W>,
    R,
    W,
> {
    /// The same with the network of which nobody is told any more, and with who was.
    pub fn unwatched(self) -> Ended<D, N, R, W>
        ensures saved { result.saved ≡ self.saved }
        ensures net { result.net ≡ self.net.net }
        ensures server { result.server ≡ self.server }
        ensures watch { result.watch ≡ Some self.net.watch }
        ensures served { result.served ≡ self.served }
    {
        let Ended {
            saved,
            net,
            server,
            watch: _,
            served,
        } = self;
        let (net, watch) = net.into_parts();
        Ended {
            saved,
            net,
            server,
            watch: Some(watch),
            served,
        }
    }
}
