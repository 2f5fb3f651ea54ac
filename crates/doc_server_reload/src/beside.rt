//! The pages that a start would serve now, beside media.

ghost use Rattle.std.specs.Prelude.{◌≡◌, ◌≢◌, Ok, Err, IfOk, IfErr};
ghost use Rattle.doc_hub.specs.Worlds.{has_medium};
ghost use Rattle.doc_server_restore.specs.Restores.{restored, unstamped};

use doc_media::media::Media;
use doc_page_parts::bytes::Bytes;
use doc_page_parts::failure::Memory;
use doc_page_parts::heap::Heap;
use doc_page_parts::path::Path;
use doc_server_restore::edits::Edits;
use doc_server_restore::fault::RestoreFault;
use doc_server_restore::restore::restore;
use doc_store::groups::Groups;
use doc_store::store::Store;

/// A store beside media, on whose paths no page is put or moved: edits are made on it as a hub makes them.
#[derive(Drop)]
pub struct Beside<'a> {
    pub store: Store,
    pub media: &'a Option<Media>,
}

impl Beside<'_> {
    /// Whether a medium stands under a path, seen or not.
    fn has_medium(&self, path: &Path) -> bool
        ensures { result ≡ has_medium self.now.media.now path.now }
    {
        match self.media {
            Some(media) => media.contains(path),
            None => false,
        }
    }
}

impl Edits for Beside<'_> {
    ghost use Rattle.std.proofs.Common.{◌≡◌, refl, ◌∙◌};
    ghost use Rattle.doc_server_restore.specs.Restores.{unstamped};

    ghost store = { λ b. unstamped b.store };

    ghost media = { λ b. b.media.now };

    ghost alike = { λ a b. b.media.now ≡ a.media.now };

    fn make_put(&mut self, path: &Path, groups: &Groups, text: &str) -> Result<bool, Memory> {
        if self.has_medium(path) {
            return Ok(false);
        }
        self.store.make_put(path, groups, text)
    }

    fn make_remove(&mut self, path: &Path) {
        self.store.make_remove(path);
    }

    fn make_move(&mut self, from: &Path, to: &Path) -> Result<bool, Memory> {
        if self.has_medium(to) {
            return Ok(false);
        }
        self.store.make_move(from, to)
    }

    ghost alike_media = { λ _ _ is. is };

    ghost alike_itself = { λ _. refl };

    ghost alike_behind = { λ _ _ _ first second. second ∙ first };
}

/// The pages that a start would serve now: those of a configuration and, behind them, what the records of a journal make of them, beside
/// media.
pub fn restored_beside(
    heap: Heap,
    config: Store,
    media: &Option<Media>,
    texts: &[Bytes],
) -> Result<Store, RestoreFault>
    ensures restored { IfOk result (λ again.
        restored media.now (unstamped config) texts.now ≡ Ok (unstamped again)) }
    ensures fault { IfErr result (λ fault. fault ≢ RestoreFault.Memory
        → restored media.now (unstamped config) texts.now ≡ Err fault) }
{
    let mut site = Beside {
        store: config,
        media,
    };
    restore(heap, &mut site, texts)?;
    Ok(site.store)
}
