//! What a server asks of the system: the device of its journal, and a network.

ghost use Rattle.std.specs.Prelude.{◌≡◌, false, List, ℕ, Option, IfOk};
ghost use Rattle.doc_server_journal.specs.Devices.{IsFresh};
ghost use Rattle.doc_server_serving.specs.Hosts.{IsUnused};

use crate::named_file::NamedFile;
use doc_page_parts::heap::Heap;
use doc_server_journal::device::Device;
use doc_server_network::network::Network;

/// A system with files and an address. All that a server does with it is proved for every one, those included whose files and connections
/// are known.
pub trait Host {
    type Device: Device + NamedFile + Drop;

    type Network: Network + Drop;
    /// Why it can't do what it is asked for.
    type Fault: Drop;

    /// What the file of a name holds, where that is known.
    ghost file: { Self → List ℕ → Option (List ℕ) };

    /// The journal's file of this name, opened; that of a new one where there is none. No sync of it has failed since the machine began.
    fn open_journal(&self, heap: Heap, name: &str) -> Result<Self::Device, Self::Fault>
        ensures usable { IfOk result (λ device. Self.Device.failed device ≡ false) }
        ensures file { IfOk result (λ device. Self.Device.seen device ≡ file self.now name.now) }
        ensures fresh { IfOk result (λ device. IsFresh (Self.Device.stale device)) };

    /// Keeps what stood torn in that file behind so many records, before it is zeroed.
    fn keep_torn(&self, name: &str, records: usize, bytes: &[u8]);

    /// The journal of that file is open, and the edits of its records, which are so many, are made.
    fn tell_journal(&self, name: &str, records: usize);

    /// A network that listens at the address, on which nothing has passed.
    fn bind(&self, heap: Heap) -> Result<Self::Network, Self::Fault>
        ensures { IfOk result (λ net. (k : ℕ) → IsUnused (Self.Network.came net k)
            (Self.Network.gone net k) (Self.Network.is_free net k)) };

    /// The address is bound, and nobody is accepted yet.
    fn tell_bound(&self) -> Result<(), Self::Fault>;
}
