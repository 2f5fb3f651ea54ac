//! Pages that edits are made on.

ghost use Rattle.std.specs.Prelude.{◌≡◌, Some, IfOk};
ghost use Rattle.doc_media.specs.Media.{Media};
ghost use Rattle.doc_store.specs.Store.{StoreState, set_page, remove_page, move_page};
ghost use Rattle.doc_server_restore.specs.Restores.{made};
ghost use Rattle.doc_server_restore.specs.RestoreSteps.{Tells};

use doc_hub::hub::Hub;
use doc_page::renderer::Renderer;
use doc_page_parts::failure::Memory;
use doc_page_parts::path::Path;
use doc_store::groups::Groups;
use doc_store::moving::MoveError;
use doc_store::store::{EditError, Store};

/// Pages that edits are made on: those of a hub, or of a store alone. A put or a move answers whether it was accepted.
pub trait Edits {
    /// The site, and how many puts and moves were accepted.
    ghost store: { Self → StoreState };

    /// The media beside the pages, on whose paths no page is put or moved.
    ghost media: { Self → Media };

    /// All but the pages is the same.
    ghost alike: { Self → Self → Type 0 };

    /// Puts a page.
    fn make_put(&mut self, path: &Path, groups: &Groups, text: &str) -> Result<bool, Memory>
        ensures made { IfOk result (λ accepted. Tells accepted (made (media self.old) (store self.old)
            (set_page path.now (record { groups = groups.now; text = text.now })))
            (store self.new)) }
        ensures alike { alike self.old self.new };

    /// Removes a page, where one stands.
    fn make_remove(&mut self, path: &Path)
        ensures made { made (media self.old) (store self.old) (remove_page path.now) ≡ Some (store self.new) }
        ensures alike { alike self.old self.new };

    /// Moves a page.
    fn make_move(&mut self, from: &Path, to: &Path) -> Result<bool, Memory>
        ensures made { IfOk result (λ accepted. Tells accepted
            (made (media self.old) (store self.old) (move_page from.now to.now)) (store self.new)) }
        ensures alike { alike self.old self.new };

    ghost alike_media: { (x y : Self) → alike x y → media y ≡ media x };

    ghost alike_itself: { (x : Self) → alike x x };

    ghost alike_behind: { (x y z : Self) → alike x y → alike y z → alike x z };
}

impl<R: Renderer + Drop> Edits for Hub<R> {
    ghost use Rattle.std.proofs.Common.{refl, ap, ◌∙◌};
    ghost use Rattle.doc_hub.specs.Worlds.{store_of, with_store};
    ghost use Rattle.doc_server_restore.specs.RestoreSteps.{AreAlike};

    ghost store = { λ h. store_of h.1 };

    ghost media = { λ h. h.1.media };

    ghost alike = { λ a b. AreAlike (R.page a.0) (R.page b.0) a.1 b.1 };

    fn make_put(&mut self, path: &Path, groups: &Groups, text: &str) -> Result<bool, Memory> {
        match self.put_page(path, groups, text) {
            Ok(_) => Ok(true),
            Err(EditError::Memory) => Err(Memory),
            Err(_) => Ok(false),
        }
    }

    fn make_remove(&mut self, path: &Path) {
        let _ = self.remove_page(path);
    }

    fn make_move(&mut self, from: &Path, to: &Path) -> Result<bool, Memory> {
        match self.move_page(from, to) {
            Ok(()) => Ok(true),
            Err(MoveError::Memory) => Err(Memory),
            Err(_) => Ok(false),
        }
    }

    ghost alike_media = { λ _ _ is. ap (λ w. w.media) is.others };

    ghost alike_itself = { λ _. record { page = refl; others = refl } };

    ghost alike_behind = { λ _ _ c first second. record {
      page = second.page ∙ first.page;
      others = second.others ∙ ap (λ w. with_store w (store_of c.1)) first.others;
    } };
}

impl Edits for Store {
    ghost use Rattle.std.specs.Prelude.{⊤, None, refl};
    ghost use Rattle.doc_server_restore.specs.Restores.{unstamped};

    ghost store = { unstamped };

    ghost media = { λ _. None };

    ghost alike = { λ _ _. ⊤ };

    fn make_put(&mut self, path: &Path, groups: &Groups, text: &str) -> Result<bool, Memory> {
        match self.put(path, groups, text) {
            Ok(_) => Ok(true),
            Err(EditError::Memory) => Err(Memory),
            Err(_) => Ok(false),
        }
    }

    fn make_remove(&mut self, path: &Path) {
        let _ = self.remove(path);
    }

    fn make_move(&mut self, from: &Path, to: &Path) -> Result<bool, Memory> {
        match self.move_page(from, to) {
            Ok(()) => Ok(true),
            Err(MoveError::Memory) => Err(Memory),
            Err(_) => Ok(false),
        }
    }

    ghost alike_media = { λ _ _ _. refl };

    ghost alike_itself = { λ _. tt };

    ghost alike_behind = { λ _ _ _ _ _. tt };
}
