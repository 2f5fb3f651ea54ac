//! The file of a name, and one beside it that takes the name.

ghost use Rattle.std.specs.Prelude.{◌≡◌, ◌⊎◌, List, ℕ, Option, false, IfOk, OnOk, OnErr};
ghost use Rattle.doc_server_journal.specs.Journals.{IsOpen};

use doc_server_journal::device::Device;
use doc_server_journal::file_fault::FileFault;
use doc_server_journal::journal::Journal;

/// The file of a name, and one beside it that takes the name. Of files of the system nothing is known: `named` is `None`.
pub trait Place {
    /// A file that is open.
    type Device: Device + Drop;

    /// What the file of the name holds, where that is known. What is written through a device that was opened before doesn't show here.
    ghost named: { Self → Option (List ℕ) };

    /// Opens the file of the name.
    fn open(&mut self) -> Result<Self::Device, FileFault>
        ensures usable { IfOk result (λ device. Self.Device.failed device ≡ false) }
        ensures file { IfOk result (λ device. Self.Device.seen device ≡ named self.old) }
        ensures named { named self.new ≡ named self.old };

    /// An empty file beside the open one of the name, locked as that is.
    fn beside(&mut self, old: &Self::Device) -> Result<Self::Device, FileFault>
        ensures usable { IfOk result (λ device. Self.Device.failed device ≡ false) }
        ensures named { named self.new ≡ named self.old };

    /// Gives the name to the file beside, of which a journal is open: so all of it is on the disk. At `Err` either file may have the name.
    fn take_name(&mut self, beside: &Journal<Self::Device>) -> Result<(), FileFault>
        requires open { (texts : List (List ℕ))
            × IsOpen Self.Device.seen Self.Device.may_leave Self.Device.failed Self.Device.stale
            beside.now texts }
        ensures taken { OnOk result (named self.new ≡ Self.Device.seen beside.now.device) }
        ensures either { OnErr result ((named self.new ≡ named self.old)
            ⊎ (named self.new ≡ Self.Device.seen beside.now.device)) };

    /// Has the file beside go, where it hasn't got the name.
    fn give_up(&mut self)
        ensures named { named self.new ≡ named self.old };
}
