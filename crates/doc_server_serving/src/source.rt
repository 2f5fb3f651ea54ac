//! Where a server's readers and pages come from while it serves, and who is told what stands.

ghost use Rattle.std.specs.Prelude.{◌≡◌, Bool, IfOk, Option, Result};
ghost use Rattle.doc_server_network.specs.declared.reload_fault.Refusal as refusals;
ghost use Rattle.doc_server_network.specs.declared.reloaded.Reloaded as reloads;
ghost use Rattle.doc_server_serving.specs.declared.given.Given as givens;
ghost use Rattle.doc_server_serving.specs.Leading.{StayAnswered};

use crate::given::Given;
use doc_media::media::Media;
use doc_server_network::follow_fault::FollowFault;
use doc_server_network::reload_fault::Refusal;
use doc_server_network::reloaded::Reloaded;

/// Who is asked on standard input for another configuration, or follows another server: where readers and pages come from. Behind each turn it
/// is told what stands.
pub trait Source {
    /// Whether it follows another server.
    ghost follows: { Self → Bool };

    /// Whether it was asked, and has answered so: with a configuration, with records, or with nothing.
    ghost answered: { Self → Option givens.Given → Type 0 };

    /// Whether it was told last that this came of the configuration that it had given.
    ghost told: { Self → Result reloads.Reloaded refusals.Refusal → Type 0 };

    /// Whether it follows another server. Then it is asked behind each turn, and what comes from a peer in one is answered in the next.
    fn follows(&self) -> bool
        ensures { result ≡ follows self.now };

    /// Whether it is about to answer: then the network isn't waited for, and it is asked behind the next turn, too.
    fn is_busy(&self) -> bool;

    /// What is served from now on, where something is asked for, or has come from the server that is followed, beside the media that are
    /// served. `has_input`: something has come on standard input, which is read here, once. After an `Err` the server ends.
    fn hear(&mut self, media: &Option<Media>, has_input: bool) -> Result<Option<Given>, FollowFault>
        ensures answers { IfOk result (answered self.new) }
        ensures keeps { StayAnswered (answered self.old) (answered self.new) }
        ensures follows { follows self.new ≡ follows self.old };

    /// What came of the configuration that it has given last: where it was refused all is as it was.
    fn tell(&mut self, outcome: Result<Reloaded, Refusal>)
        ensures told { told self.new outcome }
        ensures keeps { StayAnswered (answered self.old) (answered self.new) }
        ensures follows { follows self.new ≡ follows self.old };

    /// A turn has ended: so many pages stand, and where there is a journal its records end behind so many bytes.
    fn note(&mut self, pages: usize, journal_bytes: Option<usize>)
        ensures keeps { StayAnswered (answered self.old) (answered self.new) }
        ensures follows { follows self.new ≡ follows self.old };
}
