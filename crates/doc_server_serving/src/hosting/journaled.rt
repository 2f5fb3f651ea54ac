//! A hub made ready to be served: the edits of its journal are made on it, and it keeps its further edits there.

ghost use Rattle.std.specs.Prelude.{◌≡◌, false, Some, IfOk, option_copied};
ghost use Rattle.doc_server_journal.specs.Devices.{IsFresh};
ghost use Rattle.doc_server_journal.specs.Journals.{IsOpen};
ghost use Rattle.doc_server_serving.specs.Hostings.{IsMadeReady, IsRestoredFrom};

use crate::hosting::fault::HostingFault;
use crate::hosting::host::Host;
use crate::hosting::room::make_room;
use crate::hosting::torn_on_host::TornOnHost;
use doc_hub::hub::Hub;
use doc_page::renderer::Renderer;
use doc_page_parts::heap::Heap;
use doc_server_journal::device::Device;
use doc_server_journal::journal::Journal;
use doc_server_journal::opening::Opened;
use doc_server_network::saved_hub::SavedHub;
use doc_server_restore::restore::restore;

/// The hub with the journal of this name; without a name, a hub that keeps none.
pub fn saved_hub<H: Host, R: Renderer + Drop>(
    heap: Heap,
    host: &H,
    hub: Hub<R>,
    journal: Option<&str>,
) -> Result<SavedHub<H::Device, R>, HostingFault<H::Fault>>
    ensures ready { IfOk result (λ saved. IsMadeReady H.Device.seen H.Device.may_leave
        H.Device.failed H.Device.stale (R.page hub.0) (H.file host.now) (option_copied journal.entry)
        hub.1 saved) }
    ensures same { IfOk result (λ saved. R.page saved.hub.0 ≡ R.page hub.0) }
{
    match journal {
        None => Ok(SavedHub::new(hub)),
        Some(name) => journaled_hub(heap, host, hub, name),
    }
}

/// The hub with the journal of this name.
fn journaled_hub<H: Host, R: Renderer + Drop>(
    heap: Heap,
    host: &H,
    hub: Hub<R>,
    name: &str,
) -> Result<SavedHub<H::Device, R>, HostingFault<H::Fault>>
    ensures ready { IfOk result (λ saved. IsMadeReady H.Device.seen H.Device.may_leave
        H.Device.failed H.Device.stale (R.page hub.0) (H.file host.now) (Some name.now)
        hub.1 saved) }
    ensures same { IfOk result (λ saved. R.page saved.hub.0 ≡ R.page hub.0) }
{
    let device = match host.open_journal(heap, name) {
        Ok(device) => device,
        Err(fault) => return Err(HostingFault::Host(fault)),
    };
    let mut hub = hub;
    let mut journal = restored_journal(heap, host, name, device, &mut hub)?;
    make_room(&mut journal, &mut hub)?;
    Ok(SavedHub::over(heap, hub, journal))
}

/// The journal of a name, whose file is this one: opened, and its edits made on a hub's pages, in their order.
fn restored_journal<H: Host, R: Renderer + Drop>(
    heap: Heap,
    host: &H,
    name: &str,
    device: H::Device,
    hub: &mut Hub<R>,
) -> Result<Journal<H::Device>, HostingFault<H::Fault>>
    requires usable { H.Device.failed device ≡ false }
    requires fresh { IsFresh (H.Device.stale device) }
    ensures restored { IfOk result (λ journal. (is : IsRestoredFrom (H.Device.seen device)
        hub.old.1 hub.new.1) × IsOpen H.Device.seen H.Device.may_leave H.Device.failed
        H.Device.stale journal is.texts) }
    ensures same { R.page hub.new.0 ≡ R.page hub.old.0 }
{
    let mut torn = TornOnHost { host, name };
    match Journal::open(heap, device, usize::MAX, &mut torn) {
        Ok(Opened { journal, texts }) => {
            restore(heap, hub, texts.get())?;
            host.tell_journal(name, texts.get().len());
            Ok(journal)
        }
        Err(refused) => Err(HostingFault::Journal(refused.fault)),
    }
}
