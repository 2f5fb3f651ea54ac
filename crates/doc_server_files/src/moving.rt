//! READMEs become the indexes of their folders.

ghost use Rattle.std.specs.Prelude.{◌≡◌, Some, IfOk, OnOk};
ghost use Rattle.doc_store.specs.Store.{move_page};
ghost use Rattle.doc_server_restore.specs.Restores.{all_made, made};
ghost use Rattle.doc_server_restore.specs.RestoreSteps.{Tells};
ghost use Rattle.doc_server_files.specs.Moving.{edits_of_moves};

use doc_page_parts::failure::Memory;
use doc_server_config::readme::Move;
use doc_server_restore::edits::Edits;
use doc_server_streams::fault::Fault;

/// Makes moves on a site, in their order. `Refused` says that one of them isn't accepted.
pub fn make_moves<E: Edits>(site: &mut E, moves: &[Move]) -> Result<(), Fault>
    ensures made { OnOk result
        (all_made (E.media site.old) (E.store site.old) (edits_of_moves moves.now) ≡ Some (E.store site.new)) }
    ensures alike { OnOk result (E.alike site.old site.new) }
{
    for one in moves {
        make_move(site, one)?;
    }
    Ok(())
}

/// Makes a move.
fn make_move<E: Edits>(site: &mut E, one: &Move) -> Result<(), Fault>
    ensures made { OnOk result (made (E.media site.old) (E.store site.old)
        (move_page one.now.from one.now.to) ≡ Some (E.store site.new)) }
    ensures alike { OnOk result (E.alike site.old site.new) }
{
    match site.make_move(&one.from, &one.to) {
        Ok(true) => Ok(()),
        Ok(false) => Err(Fault::Refused),
        Err(Memory) => Err(Fault::Memory),
    }
}
