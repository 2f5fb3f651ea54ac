//! The groups of a page as a text.

ghost use Rattle.std.specs.Prelude.{◌≡◌, ◌++◌, ◌∷◌, string_bytes, IfOk, OnOk};
ghost use Rattle.std.specs.List.{flat_map};
ghost use Rattle.doc_store_tags.specs.Tags.{names_text};

use doc_page_parts::failure::Memory;
use doc_page_parts::heap::{Heap, String};
use doc_page_parts::text::Text;
use doc_store::groups::Groups;

/// The names of groups with a comma between two, as a request may name them.
pub fn names_text(heap: Heap, groups: &Groups) -> Result<Text, Memory>
    ensures { IfOk result (λ text. text ≡ names_text groups.now) }
{
    let mut out = String::new(heap);
    push_names(&mut out, groups.names())?;
    Ok(Text::new(out))
}

/// Writes names with a comma between two.
fn push_names(out: &mut String, names: &[Text]) -> Result<(), Memory>
    ensures { OnOk result (string_bytes out.new ≡ string_bytes out.old ++ names_text names.now) }
{
    let Some((first, others)) = names.split_first() else {
        return Ok(());
    };
    out.push_str(first.get())?;
    push_others(out, others)
}

/// Writes names, each behind a comma.
fn push_others(out: &mut String, names: &[Text]) -> Result<(), Memory>
    ensures { OnOk result (string_bytes out.new
        ≡ string_bytes out.old ++ flat_map (λ name. 44 ∷ name) names.now) }
{
    for name in names {
        out.push_str(",")?;
        out.push_str(name.get())?;
    }
    Ok(())
}
