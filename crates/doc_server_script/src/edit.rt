//! Edits of pages as lines of a script. Each is written without its line feed, in printable ASCII, at the end of a buffer, where after a
//! refusal part of it may stand. The line, read, gives the edit.

ghost use Rattle.std.specs.Prelude.{◌≡◌, ◌∷◌, ◌++◌, codes, string_bytes, OnOk, OnErr};
ghost use Rattle.std.specs.Io.{StartsWith};
ghost use Rattle.doc_server_script.specs.Escapes.{escaped, spaceless};
ghost use Rattle.doc_server_script.specs.Edits.{behind_commas, groups_text, move_line, put_line, remove_line};

use crate::escaping::{push_escaped, push_plain, push_spaceless};
use doc_page_parts::failure::Memory;
use doc_page_parts::heap::String;
use doc_page_parts::path::Path;
use doc_page_parts::text::Text;
use doc_store::groups::Groups;

/// Writes `put PATH GROUPS TEXT`.
#[tactic(auto, using(doc_page_parts::proofs::BufferSteps::front_same, doc_page_parts::proofs::BufferSteps::front_more))]
pub fn push_put(out: &mut String, path: &Path, groups: &Groups, text: &str) -> Result<(), Memory>
    ensures ok { OnOk result (string_bytes out.new
        ≡ string_bytes out.old ++ put_line path.now groups.now text.now) }
    ensures err { OnErr result (StartsWith (string_bytes out.new) (string_bytes out.old)) }
{
    push_start(out, "put ", path)?;
    push_put_rest(out, groups.names(), text)
}

/// Writes a command, which ends with a space, and then `PATH` and a space.
#[tactic(auto, using(doc_page_parts::proofs::BufferSteps::front_same, doc_page_parts::proofs::BufferSteps::front_more))]
fn push_start(out: &mut String, command: &str, path: &Path) -> Result<(), Memory>
    ensures ok { OnOk result (string_bytes out.new
        ≡ string_bytes out.old ++ (command.now ++ (spaceless path.now ++ codes " "))) }
    ensures err { OnErr result (StartsWith (string_bytes out.new) (string_bytes out.old)) }
{
    push_plain(out, command)?;
    push_spaceless(out, path.text().as_bytes())?;
    push_plain(out, " ")
}

/// Writes `GROUPS TEXT`.
#[tactic(auto, using(doc_page_parts::proofs::BufferSteps::front_same, doc_page_parts::proofs::BufferSteps::front_more))]
fn push_put_rest(out: &mut String, groups: &[Text], text: &str) -> Result<(), Memory>
    ensures ok { OnOk result (string_bytes out.new
        ≡ string_bytes out.old ++ (groups_text groups.now ++ 32 ∷ escaped text.now)) }
    ensures err { OnErr result (StartsWith (string_bytes out.new) (string_bytes out.old)) }
{
    push_groups_field(out, groups)?;
    push_escaped(out, text.as_bytes())
}

/// Writes `GROUPS` and a space.
#[tactic(auto, using(doc_page_parts::proofs::BufferSteps::front_same, doc_page_parts::proofs::BufferSteps::front_more))]
fn push_groups_field(out: &mut String, groups: &[Text]) -> Result<(), Memory>
    ensures ok { OnOk result (string_bytes out.new
        ≡ string_bytes out.old ++ (groups_text groups.now ++ codes " ")) }
    ensures err { OnErr result (StartsWith (string_bytes out.new) (string_bytes out.old)) }
{
    push_groups(out, groups)?;
    push_plain(out, " ")
}

/// Writes `remove PATH`.
#[tactic(auto, using(doc_page_parts::proofs::BufferSteps::front_same, doc_page_parts::proofs::BufferSteps::front_more))]
pub fn push_remove(out: &mut String, path: &Path) -> Result<(), Memory>
    ensures ok { OnOk result (string_bytes out.new ≡ string_bytes out.old ++ remove_line path.now) }
    ensures err { OnErr result (StartsWith (string_bytes out.new) (string_bytes out.old)) }
{
    push_plain(out, "remove ")?;
    push_spaceless(out, path.text().as_bytes())
}

/// Writes `move FROM TO`.
#[tactic(auto, using(doc_page_parts::proofs::BufferSteps::front_same, doc_page_parts::proofs::BufferSteps::front_more))]
pub fn push_move(out: &mut String, from: &Path, to: &Path) -> Result<(), Memory>
    ensures ok { OnOk result (string_bytes out.new
        ≡ string_bytes out.old ++ move_line from.now to.now) }
    ensures err { OnErr result (StartsWith (string_bytes out.new) (string_bytes out.old)) }
{
    push_start(out, "move ", from)?;
    push_spaceless(out, to.text().as_bytes())
}

/// Writes the names of a set of groups, joined by commas. `-` is none, so the one group `-` is written twice.
#[tactic(auto, using(doc_page_parts::proofs::BufferSteps::front_same, doc_page_parts::proofs::BufferSteps::front_more))]
fn push_groups(out: &mut String, groups: &[Text]) -> Result<(), Memory>
    ensures ok { OnOk result
        (string_bytes out.new ≡ string_bytes out.old ++ groups_text groups.now) }
    ensures err { OnErr result (StartsWith (string_bytes out.new) (string_bytes out.old)) }
{
    match groups {
        [] => push_plain(out, "-"),
        [name] if name.get() == "-" => push_plain(out, "-,-"),
        [name, names @ ..] => push_names(out, name.get(), names),
    }
}

/// Writes a name, and then others behind a comma each.
#[tactic(auto, using(doc_page_parts::proofs::BufferSteps::front_same, doc_page_parts::proofs::BufferSteps::front_more))]
fn push_names(out: &mut String, first: &str, names: &[Text]) -> Result<(), Memory>
    ensures ok { OnOk result
        (string_bytes out.new ≡ string_bytes out.old ++ (first.now ++ behind_commas names.now)) }
    ensures err { OnErr result (StartsWith (string_bytes out.new) (string_bytes out.old)) }
{
    push_plain(out, first)?;
    for name in names {
        push_behind_comma(out, name.get())?;
    }
    Ok(())
}

#[tactic(auto, using(doc_page_parts::proofs::BufferSteps::front_same, doc_page_parts::proofs::BufferSteps::front_more))]
fn push_behind_comma(out: &mut String, name: &str) -> Result<(), Memory>
    ensures ok { OnOk result (string_bytes out.new ≡ string_bytes out.old ++ 44 ∷ name.now) }
    ensures err { OnErr result (StartsWith (string_bytes out.new) (string_bytes out.old)) }
{
    push_plain(out, ",")?;
    push_plain(out, name)
}
