//! The lines of edits, each with its line feed. After a refusal part of them may stand at the end of the buffer.

ghost use Rattle.std.specs.Prelude.{◌≡◌, ◌++◌, string_bytes, OnOk, OnErr};
ghost use Rattle.std.specs.Io.{StartsWith};
ghost use Rattle.doc_store.specs.Store.{set_page, remove_page, move_page};
ghost use Rattle.doc_server_script.specs.PageLines.{line_of};

use crate::edit::{push_move, push_put, push_remove};
use crate::escaping::push_plain;
use doc_page_parts::failure::Memory;
use doc_page_parts::heap::String;
use doc_page_parts::path::Path;
use doc_store::page::Page;

/// Writes the edit that puts a page.
#[tactic(auto, using(doc_page_parts::proofs::BufferSteps::front_same, doc_page_parts::proofs::BufferSteps::front_more))]
pub fn push_put_line(out: &mut String, path: &Path, page: &Page) -> Result<(), Memory>
    ensures ok { OnOk result (string_bytes out.new
        ≡ string_bytes out.old ++ line_of (set_page path.now page.now.page)) }
    ensures err { OnErr result (StartsWith (string_bytes out.new) (string_bytes out.old)) }
{
    push_put(out, path, page.groups(), page.text())?;
    push_plain(out, "\n")
}

/// Writes the edit that removes a page.
#[tactic(auto, using(doc_page_parts::proofs::BufferSteps::front_same, doc_page_parts::proofs::BufferSteps::front_more))]
pub fn push_remove_line(out: &mut String, path: &Path) -> Result<(), Memory>
    ensures ok { OnOk result (string_bytes out.new
        ≡ string_bytes out.old ++ line_of (remove_page path.now)) }
    ensures err { OnErr result (StartsWith (string_bytes out.new) (string_bytes out.old)) }
{
    push_remove(out, path)?;
    push_plain(out, "\n")
}

/// Writes the edit that moves a page.
#[tactic(auto, using(doc_page_parts::proofs::BufferSteps::front_same, doc_page_parts::proofs::BufferSteps::front_more))]
pub fn push_move_line(out: &mut String, from: &Path, to: &Path) -> Result<(), Memory>
    ensures ok { OnOk result (string_bytes out.new
        ≡ string_bytes out.old ++ line_of (move_page from.now to.now)) }
    ensures err { OnErr result (StartsWith (string_bytes out.new) (string_bytes out.old)) }
{
    push_move(out, from, to)?;
    push_plain(out, "\n")
}
