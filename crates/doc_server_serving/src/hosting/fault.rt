//! Why a site isn't served.

use crate::fault::ServeFault;
use doc_server_journal::fault::OpenFault;
use doc_server_restore::fault::RestoreFault;
use doc_server_settling::fault::TurnFault;

/// Why a site isn't served. Nobody was accepted then.
#[derive(Drop)]
pub enum HostingFault<F: Drop> {
    /// The host can't do what it was asked for.
    Host(F),
    /// The journal isn't read.
    Journal(OpenFault),
    /// Its edits can't be made.
    Restore(RestoreFault),
    /// The disk has no room for the journal's reserve.
    NoRoom,
    /// The journal isn't made ready, or the server isn't.
    Serve(ServeFault),
}

impl<F: Drop> From<RestoreFault> for HostingFault<F> {
    ghost use Rattle.std.specs.Prelude.{◌≡◌};
    ghost use Rattle.doc_server_serving.specs.declared.hosting.fault.HostingFault.TheVariants as faults;

    ghost from_gives = { λ fault stop. stop ≡ faults.Restore fault };

    fn from(fault: RestoreFault) -> HostingFault<F> {
        HostingFault::Restore(fault)
    }
}

impl<F: Drop> From<TurnFault> for HostingFault<F> {
    ghost use Rattle.std.specs.Prelude.{◌≡◌};
    ghost use Rattle.doc_server_serving.specs.declared.hosting.fault.HostingFault.TheVariants as faults;
    ghost use Rattle.doc_server_serving.specs.Faults.{of_turn};

    ghost from_gives = { λ fault stop. stop ≡ faults.Serve (of_turn fault) };

    fn from(fault: TurnFault) -> HostingFault<F> {
        HostingFault::Serve(ServeFault::from(fault))
    }
}

impl<F: Drop> From<ServeFault> for HostingFault<F> {
    ghost use Rattle.std.specs.Prelude.{◌≡◌};
    ghost use Rattle.doc_server_serving.specs.declared.hosting.fault.HostingFault.TheVariants as faults;

    ghost from_gives = { λ fault stop. stop ≡ faults.Serve fault };

    fn from(fault: ServeFault) -> HostingFault<F> {
        HostingFault::Serve(fault)
    }
}
