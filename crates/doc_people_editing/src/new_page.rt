//! The page that asks for the path of a new page.

ghost use Rattle.std.specs.Prelude.{◌≡◌, ◌++◌, string_bytes, IfOk, OnOk};
ghost use Rattle.doc_people_editing.specs.NewPage.{new_body, new_form, new_heading, new_main, new_parts};

use crate::sections::push_script;
use doc_page_parts::escaping::push_escaped;
use doc_page_parts::failure::Memory;
use doc_page_parts::heap::String;
use doc_page_parts::text::Text;
use doc_people::viewed::Viewed;
use doc_people_shell::frame::Frame;
use doc_people_shell::shell::shell;

/// What the main part has, the script among it: a guess, on which nothing rests.
const ROOM: usize = 6144;

/// The title, and what is told where no script runs.
const NEW_HEADING: &str = r#"<h1>New page</h1>
<noscript><p>This takes the script of this page. Without it, write the path behind /edit/ in the address.</p></noscript>
"#;

/// What stands behind the path that is asked for.
const FORM_END: &str = r#"" size="40" required></label> <button disabled>Begin</button></p></form>
<p>As guide/start.md: up to 16 names with / between, 200 bytes in all.</p>
"#;

/// The page for people that asks for the path of a new page, by the folder that it is to stand in.
#[tactic(auto, unfolding(crate::specs::NewPage::new_body))]
pub fn new_body<V: Viewed>(frame: Frame<'_>, view: &V, folder: &str) -> Result<Text, Memory>
    ensures { IfOk result (λ body. body ≡ new_body (V.render view.now) frame.entry.browse.now
        frame.entry.offers (V.view view.now) folder.now) }
{
    let mut main = String::with_capacity(frame.heap, ROOM)?;
    push_new_main(&mut main, folder)?;
    shell(frame, view, "New page", None, main.as_str(), "")
}

/// Writes the main part, by the folder.
#[tactic(auto, unfolding(crate::specs::NewPage::new_main))]
pub fn push_new_main(out: &mut String, folder: &str) -> Result<(), Memory>
    ensures { OnOk result (string_bytes out.new ≡ string_bytes out.old ++ new_main folder.now) }
{
    push_new_parts(out, folder)?;
    push_script(out)?;
    Ok(())
}

/// Writes all but the script.
fn push_new_parts(out: &mut String, folder: &str) -> Result<(), Memory>
    ensures { OnOk result (string_bytes out.new ≡ string_bytes out.old ++ new_parts folder.now) }
{
    push_new_heading(out)?;
    push_new_form(out, folder)
}

/// Writes the title, and what is told where no script runs.
fn push_new_heading(out: &mut String) -> Result<(), Memory>
    ensures { OnOk result (string_bytes out.new ≡ string_bytes out.old ++ new_heading) }
{
    out.push_str(NEW_HEADING)?;
    Ok(())
}

/// Writes the form, which begins with a folder, and what a path is.
fn push_new_form(out: &mut String, folder: &str) -> Result<(), Memory>
    ensures { OnOk result (string_bytes out.new ≡ string_bytes out.old ++ new_form folder.now) }
{
    out.push_str(
        "<form id=\"new\" autocomplete=\"off\"><p><label>Path <input id=\"path\" value=\"",
    )?;
    push_escaped(out, folder)?;
    out.push_str(FORM_END)?;
    Ok(())
}
