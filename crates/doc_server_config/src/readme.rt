//! READMEs that become the indexes of their folders.

ghost use Rattle.std.specs.Prelude.{◌≡◌, ◌++◌, ◌∷◌, [], IfOk, OnOk, option_map, string_bytes};
ghost use Rattle.std.specs.List.{filter};
ghost use Rattle.doc_server_config.specs.Overlaps.{paths_of};
ghost use Rattle.doc_server_config.specs.OverlapSteps.{is_free_in};
ghost use Rattle.doc_server_config.specs.Readmes.{index_alone, index_in, index_move, index_of, is_free, is_readme, move_to};

use crate::growth::push;
use crate::overlap::Marks;
use crate::page_row::PageRow;
use doc_page_parts::failure::Memory;
use doc_page_parts::heap::{Heap, String, Vec};
use doc_page_parts::path::{Path, PathError};

/// A page that is to be moved.
#[derive(Drop)]
pub struct Move {
    pub from: Path,
    pub to: Path,
}

/// The move by which the page of this path becomes the index of its folder, where its last part is `README.md`.
pub fn index_move(heap: Heap, path: &Path) -> Result<Option<Move>, Memory>
    ensures { IfOk result (λ found. found ≡ index_move path.now) }
{
    match index_of(heap, path.text())? {
        Some(index) => move_to(heap, path, index.as_str()),
        None => Ok(None),
    }
}

/// The move of a page to this path, where it is one.
fn move_to(heap: Heap, from: &Path, to: &str) -> Result<Option<Move>, Memory>
    ensures { IfOk result (λ found. found ≡ move_to from.now to.now) }
{
    match Path::new(heap, to) {
        Ok(to) => Ok(Some(Move {
            from: from.copy(heap)?,
            to,
        })),
        Err(PathError::BadPath) => Ok(None),
        Err(PathError::Memory) => Err(Memory),
    }
}

/// The path of the index beside a README of this path.
fn index_of(heap: Heap, path: &str) -> Result<Option<String>, Memory>
    ensures { IfOk result (λ index. option_map string_bytes index ≡ index_of path.now) }
{
    match path.rsplit_once('/') {
        Some((folder, name)) => index_in(heap, folder, name),
        None => index_alone(heap, path),
    }
}

/// The path of the index that no folder has, where the name is that of a README.
fn index_alone(heap: Heap, name: &str) -> Result<Option<String>, Memory>
    ensures { IfOk result (λ index. option_map string_bytes index ≡ index_alone name.now) }
{
    if !is_readme(name) {
        return Ok(None);
    }
    Ok(Some(String::from_str(heap, "index.md")?))
}

/// The path of the index in a folder, where the name is that of a README.
fn index_in(heap: Heap, folder: &str, name: &str) -> Result<Option<String>, Memory>
    ensures { IfOk result
        (λ index. option_map string_bytes index ≡ index_in folder.now name.now) }
{
    if !is_readme(name) {
        return Ok(None);
    }
    let mut index = String::from_str(heap, folder)?;
    index.push_str("/index.md")?;
    Ok(Some(index))
}

fn is_readme(name: &str) -> bool
    ensures { result ≡ is_readme name.now }
{
    name == "README.md"
}

/// Those of some moves to whose goals no page stands.
pub fn free_moves(heap: Heap, pages: &[PageRow], moves: Vec<Move>) -> Result<Vec<Move>, Memory>
    ensures { IfOk result (λ free.
        free.items ≡ filter (is_free (paths_of pages.now)) moves.items) }
{
    let marks = Marks::of(heap, pages)?;
    free_by(heap, &marks, moves)
}

/// Those to whose goals no path leads that is marked.
fn free_by(heap: Heap, marks: &Marks, moves: Vec<Move>) -> Result<Vec<Move>, Memory>
    ensures { IfOk result (λ free. free.items ≡ filter (is_free_in marks.now) moves.items) }
{
    let mut free = Vec::new(heap);
    for one in moves {
        add_free(marks, one, &mut free)?;
    }
    Ok(free)
}

/// Adds a move to whose goal no page stands.
fn add_free(marks: &Marks, one: Move, free: &mut Vec<Move>) -> Result<(), Memory>
    ensures { OnOk result
        (free.new.items ≡ free.old.items ++ filter (is_free_in marks.now) (one ∷ [])) }
{
    if marks.has(&one.to) {
        return Ok(());
    }
    push(free, one)
}
