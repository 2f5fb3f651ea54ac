//! The edits of another server's records, made on a hub.

ghost use Rattle.std.specs.Prelude.{◌≡◌, List, ℕ, true, None, Err, Ok, IfErr, OnOk, is_some};
ghost use Rattle.doc_hub.specs.Worlds.{store_of, with_store};
ghost use Rattle.doc_server_network.specs.Followings.{EditsAlone, IsUnfollowed};
ghost use Rattle.doc_server_network.specs.Saved.{IsReady, StaysSaved};
ghost use Rattle.doc_server_network.specs.declared.follow_fault.FollowFault.TheVariants as follow_faults;
ghost use Rattle.doc_server_restore.specs.Restores.{restored};

use crate::follow_fault::FollowFault;
use crate::saved_hub::SavedHub;
use doc_page::renderer::Renderer;
use doc_page_parts::bytes::Bytes;
use doc_page_parts::failure::Memory;
use doc_page_parts::heap::Heap;
use doc_page_parts::path::Path;
use doc_server_journal::device::Device;
use doc_server_restore::edits::Edits;
use doc_server_restore::restore::restore;
use doc_store::groups::Groups;
use doc_store::moving::MoveError;
use doc_store::store::EditError;

impl<D: Device, R: Renderer + Drop> SavedHub<D, R> {
    /// Makes the edits of records that another server has written, in their order, as `restore` does. A hub that keeps a journal follows
    /// nobody: nothing happens then. After any other `Err` the server ends: the edits before the one that isn't made stand.
    pub fn follow(&mut self, heap: Heap, texts: &[Bytes]) -> Result<(), FollowFault>
        ensures followed { OnOk result (restored self.old.hub.1.media (store_of self.old.hub.1)
            texts.now ≡ Ok (store_of self.new.hub.1)) }
        ensures alone { OnOk result (self.new.journal ≡ None) }
        ensures why { IfErr result (IsUnfollowed (is_some self.old.journal)
            self.old.hub.1.media (store_of self.old.hub.1) texts.now) }
        ensures keeps { is_some self.old.journal ≡ true → self.new ≡ self.old }
        ensures edits { EditsAlone (R.page self.old.hub.0) self.old.hub.1 self.new.hub.1 }
        ensures others { self.new.hub.1 ≡ with_store self.old.hub.1 (store_of self.new.hub.1) }
        ensures same { R.page self.new.hub.0 ≡ R.page self.old.hub.0 }
        ensures journal { self.new.journal ≡ self.old.journal }
        ensures unsaved { self.new.unsaved ≡ self.old.unsaved }
        ensures saved { StaysSaved D.seen D.may_leave D.failed D.stale self.old self.new }
        ensures ready { IsReady D.seen D.may_leave D.failed D.stale self.old
            → IsReady D.seen D.may_leave D.failed D.stale self.new }
    {
        if self.journal.is_some() {
            return Err(FollowFault::Keeps);
        }
        restore(heap, self, texts)?;
        Ok(())
    }
}

impl<D: Device, R: Renderer + Drop> Edits for SavedHub<D, R> {
    ghost use Rattle.std.specs.Prelude.{◌≡◌, ◌++◌, []};
    ghost use Rattle.std.proofs.Common.{ap, refl, subst, ◌∙◌};
    ghost use Rattle.std.proofs.lemmas.List.Elements.{All-nil, All-append};
    ghost use Rattle.doc_hub.specs.Runs.{Runs, nothing};
    ghost use Rattle.doc_hub.specs.Worlds.{store_of, with_store};
    ghost use Rattle.doc_hub.proofs.RunParts.{runs_join};
    ghost use Rattle.doc_server_network.specs.Followings.{IsEdited};
    ghost use Rattle.doc_server_reload.specs.ReplyLaws.{IsSiteEdit};

    ghost store = { λ k. store_of k.hub.1 };

    ghost media = { λ k. k.hub.1.media };

    ghost alike = { λ a b. IsEdited (R.page a.hub.0) (R.page b.hub.0) a b };

    fn make_put(&mut self, path: &Path, groups: &Groups, text: &str) -> Result<bool, Memory> {
        match self.hub.put_page(path, groups, text) {
            Ok(_) => Ok(true),
            Err(EditError::Memory) => Err(Memory),
            Err(_) => Ok(false),
        }
    }

    fn make_remove(&mut self, path: &Path) {
        let _ = self.hub.remove_page(path);
    }

    fn make_move(&mut self, from: &Path, to: &Path) -> Result<bool, Memory> {
        match self.hub.move_page(from, to) {
            Ok(()) => Ok(true),
            Err(MoveError::Memory) => Err(Memory),
            Err(_) => Ok(false),
        }
    }

    ghost alike_media = { λ _ _ is. ap (λ w. w.media) is.others };

    ghost alike_itself = { λ k. record {
      page = refl;
      edits = record { run = []; runs = nothing k.hub.1; own = All-nil IsSiteEdit };
      others = refl;
      journal = refl;
      unsaved = refl;
    } };

    ghost alike_behind = { λ a b c first second. record {
      page = second.page ∙ first.page;
      edits = record {
        run = first.edits.run ++ second.edits.run;
        runs = runs_join (R.page a.hub.0) a.hub.1 b.hub.1 c.hub.1 first.edits.run second.edits.run first.edits.runs
            (subst (λ r. Runs r b.hub.1 second.edits.run c.hub.1) first.page second.edits.runs);
        own = All-append IsSiteEdit first.edits.run second.edits.run first.edits.own second.edits.own;
      };
      others = second.others ∙ ap (λ w. with_store w (store_of c.hub.1)) first.others;
      journal = second.journal ∙ first.journal;
      unsaved = second.unsaved ∙ first.unsaved;
    } };
}
