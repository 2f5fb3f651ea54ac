//! What a configuration sets besides its pages.

ghost use Rattle.std.specs.Prelude.{◌≡◌, IfErr, OnErr, OnOk};
ghost use Rattle.doc_hub.specs.Worlds.{IsApart};
ghost use Rattle.doc_server_network.specs.Saved.{IsReady, StaysSaved};
ghost use Rattle.doc_server_turns.specs.QuietRuns.{LeadsQuietlyBy};
ghost use Rattle.doc_server_turns.specs.Settings.{IsSetting, IsUnset, with_both};

use doc_media::media::Media;
use doc_page::renderer::Renderer;
use doc_server_journal::device::Device;
use doc_server_network::reload_fault::Refusal;
use doc_server_network::saved_hub::SavedHub;
use doc_store::readers::Readers;

/// Sets media, and then readers. Where the media are refused nothing is set.
pub fn set_both<D: Device, R: Renderer + Drop>(
    saved: &mut SavedHub<D, R>,
    readers: Readers,
    media: Option<Media>,
) -> Result<(), Refusal>
    ensures quiet { LeadsQuietlyBy (IsSetting readers media) (R.page saved.old.hub.0)
        saved.old.hub.1 saved.new.hub.1 }
    ensures set { OnOk result
        (saved.new.hub.1 ≡ with_both saved.old.hub.1 readers media) }
    ensures apart { OnOk result (IsApart saved.old.hub.1.site saved.old.hub.1.media
        → IsApart saved.old.hub.1.site media) }
    ensures refused { IfErr result (IsUnset saved.old.hub.1 media) }
    ensures world { OnErr result (saved.new.hub.1 ≡ saved.old.hub.1) }
    ensures kept { OnErr result
        (StaysSaved D.seen D.may_leave D.failed D.stale saved.old saved.new) }
    ensures given { saved.new.hub.1.given ≡ saved.old.hub.1.given }
    ensures same { R.page saved.new.hub.0 ≡ R.page saved.old.hub.0 }
    ensures journal { saved.new.journal ≡ saved.old.journal }
    ensures unsaved { saved.new.unsaved ≡ saved.old.unsaved }
    ensures ready { IsReady D.seen D.may_leave D.failed D.stale saved.old
        → IsReady D.seen D.may_leave D.failed D.stale saved.new }
{
    saved.set_media(media)?;
    saved.set_readers(readers);
    Ok(())
}
