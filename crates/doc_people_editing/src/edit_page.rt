//! The page that the text of a page is edited on.

ghost use Rattle.std.specs.Prelude.{◌≡◌, ◌++◌, string_bytes, IfOk, OnOk};
ghost use Rattle.doc_people_editing.specs.EditPage.{begin_body, edit_body, edit_main, edit_parts, edit_title};

use crate::form::{push_edit_form, push_edit_heading};
use crate::sections::{push_other_section, push_preview_frame, push_script, push_stands_section};
use doc_page_parts::failure::Memory;
use doc_page_parts::heap::{Heap, String};
use doc_page_parts::text::Text;
use doc_people::viewed::Viewed;
use doc_people_shell::frame::Frame;
use doc_people_shell::shell::shell;

/// What the main part has beside the text, the script among it: a guess, on which nothing rests.
const ROOM: usize = 8192;

/// The page for people that edits the page at a path, which stands: by its text, its groups with commas between, and its tag.
#[tactic(auto, unfolding(crate::specs::EditPage::edit_body))]
pub fn edit_body<V: Viewed>(
    frame: Frame<'_>,
    view: &V,
    path: &str,
    text: &str,
    groups: &str,
    tag: &str,
) -> Result<Text, Memory>
    ensures { IfOk result (λ body. body ≡ edit_body (V.render view.now) frame.entry.browse.now
        frame.entry.offers (V.view view.now) path.now text.now groups.now tag.now) }
{
    let title = edit_title(frame.heap, path)?;
    let mut main = String::with_capacity(frame.heap, text.len().saturating_add(ROOM))?;
    push_edit_main(&mut main, path, text, groups, tag, true)?;
    shell(frame, view, title.get(), Some(path), main.as_str(), "")
}

/// The page for people that begins a page at a path, where none stands.
#[tactic(auto, unfolding(crate::specs::EditPage::begin_body))]
pub fn begin_body<V: Viewed>(frame: Frame<'_>, view: &V, path: &str) -> Result<Text, Memory>
    ensures { IfOk result (λ body. body ≡ begin_body (V.render view.now) frame.entry.browse.now
        frame.entry.offers (V.view view.now) path.now) }
{
    let title = edit_title(frame.heap, path)?;
    let mut main = String::with_capacity(frame.heap, ROOM)?;
    push_edit_main(&mut main, path, "", "", "", false)?;
    shell(frame, view, title.get(), None, main.as_str(), "")
}

fn edit_title(heap: Heap, path: &str) -> Result<Text, Memory>
    ensures { IfOk result (λ title. title ≡ edit_title path.now) }
{
    let mut title = String::from_str(heap, "Edit ")?;
    title.push_str(path)?;
    Ok(Text::new(title))
}

/// Writes the main part: the form with a text, its groups with commas between, and its tag; what may be done with the page is hidden where
/// none stands at the path.
#[tactic(auto, unfolding(crate::specs::EditPage::edit_main))]
pub fn push_edit_main(
    out: &mut String,
    path: &str,
    text: &str,
    groups: &str,
    tag: &str,
    stands: bool,
) -> Result<(), Memory>
    ensures { OnOk result (string_bytes out.new ≡ string_bytes out.old
        ++ edit_main path.now text.now groups.now tag.now stands) }
{
    push_edit_parts(out, path, text, groups, tag, stands)?;
    push_script(out)?;
    Ok(())
}

/// Writes all but the script.
fn push_edit_parts(
    out: &mut String,
    path: &str,
    text: &str,
    groups: &str,
    tag: &str,
    stands: bool,
) -> Result<(), Memory>
    ensures { OnOk result (string_bytes out.new ≡ string_bytes out.old
        ++ edit_parts path.now text.now groups.now tag.now stands) }
{
    push_edit_heading(out, path)?;
    push_edit_form(out, path, text, groups, tag)?;
    push_other_section(out)?;
    push_preview_frame(out)?;
    push_stands_section(out, path, stands)?;
    Ok(())
}
