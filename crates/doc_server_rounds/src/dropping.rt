//! Dropping the connections of links.

ghost use Rattle.std.specs.Prelude.{◌≡◌};
ghost use Rattle.doc_server_rounds.specs.Rounds.{ids_of};
ghost use Rattle.doc_server_rounds.specs.Dropped.{dropped_all};

use crate::link::Link;
use doc_hub::hub::Hub;
use doc_page::renderer::Renderer;
use doc_server_streams::stream::Stream;

/// Drops the connection of each link, also of a closed one, whose connection is gone already.
pub fn disconnect_all<R: Renderer + Drop, S: Stream + Drop>(hub: &mut Hub<R>, links: &[Link<S>])
    ensures world { hub.new.1 ≡ dropped_all hub.old.1 (ids_of links.now) }
    ensures same { R.page hub.new.0 ≡ R.page hub.old.0 }
{
    'links: for link in links {
        hub.disconnect(link.id());
    }
}
