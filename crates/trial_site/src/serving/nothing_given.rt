//! A source of configurations that has none.

use doc_media::media::Media;
use doc_server_serving::given::Given;
use doc_server_serving::net::follow_fault::FollowFault;
use doc_server_serving::net::reload_fault::Refusal;
use doc_server_serving::net::reloaded::Reloaded;
use doc_server_serving::source::Source;

/// Who is asked for another configuration, and has none.
#[derive(Clone, Copy)]
pub struct NothingGiven;

impl Source for NothingGiven {
    ghost use Rattle.std.specs.Prelude.{◌≡◌, ⊤, false, None};

    ghost follows = { λ _. false };

    ghost answered = { λ _ answer. answer ≡ None };

    ghost told = { λ _ _. ⊤ };

    fn follows(&self) -> bool {
        false
    }

    fn is_busy(&self) -> bool {
        false
    }

    fn hear(
        &mut self,
        _media: &Option<Media>,
        _has_input: bool,
    ) -> Result<Option<Given>, FollowFault> {
        Ok(None)
    }

    fn tell(&mut self, _outcome: Result<Reloaded, Refusal>) {}

    fn note(&mut self, _pages: usize, _journal_bytes: Option<usize>) {}
}
