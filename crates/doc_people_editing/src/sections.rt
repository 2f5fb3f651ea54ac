//! What stands below the form, and the script.

ghost use Rattle.std.specs.Prelude.{◌≡◌, ◌++◌, string_bytes, OnOk};
ghost use Rattle.doc_people_editing.specs.EditPage.{hidden_unless, other_section, preview_frame, stands_section};
ghost use Rattle.doc_people_editing.specs.Script.{script, script_element};

use crate::script::SCRIPT;
use doc_page_parts::escaping::push_escaped;
use doc_page_parts::failure::Memory;
use doc_page_parts::heap::String;

/// What shows the text that another writer has saved.
const OTHER_SECTION: &str = r#"<section id="other" hidden>
<h2>As it stands</h2>
<textarea id="theirs" rows="12" cols="80" aria-label="As it stands" readonly></textarea>
<p>Groups: <output id="their-groups"></output></p>
<p><button id="keep" type="button">Save mine in its place</button> <button id="take" type="button">Take it in place of mine</button></p>
</section>
"#;

/// What stands behind the path that a page is to move to.
const STANDS_END: &str = r#"" size="40"></label> <button disabled>Move</button></p></form>
<form id="remove"><p><button disabled>Delete this page</button></p></form>
</section>
"#;

/// Writes what shows the text that another writer has saved.
pub(crate) fn push_other_section(out: &mut String) -> Result<(), Memory>
    ensures { OnOk result (string_bytes out.new ≡ string_bytes out.old ++ other_section) }
{
    out.push_str(OTHER_SECTION)?;
    Ok(())
}

/// Writes the frame that shows the preview.
pub(crate) fn push_preview_frame(out: &mut String) -> Result<(), Memory>
    ensures { OnOk result (string_bytes out.new ≡ string_bytes out.old ++ preview_frame) }
{
    out.push_str(
        "<iframe id=\"shown\" title=\"Preview\" sandbox=\"allow-same-origin\" width=\"100%\" height=\"400\" hidden></iframe>\n",
    )?;
    Ok(())
}

/// Writes what may be done with a page that stands; hidden where none does.
pub(crate) fn push_stands_section(out: &mut String, path: &str, stands: bool) -> Result<(), Memory>
    ensures { OnOk result (string_bytes out.new
        ≡ string_bytes out.old ++ stands_section path.now stands) }
{
    out.push_str("<section id=\"stands\"")?;
    out.push_str(hidden_unless(stands))?;
    out.push_str(
        ">\n<form id=\"move\" autocomplete=\"off\"><p><label>New path <input id=\"to\" value=\"",
    )?;
    push_escaped(out, path)?;
    out.push_str(STANDS_END)?;
    Ok(())
}

/// The attribute of what is hidden where no page stands.
fn hidden_unless(stands: bool) -> &'static str
    ensures { result.now ≡ hidden_unless stands }
{
    if stands { "" } else { " hidden" }
}

/// Writes the script, in its element.
pub(crate) fn push_script(out: &mut String) -> Result<(), Memory>
    ensures { OnOk result (string_bytes out.new ≡ string_bytes out.old ++ script_element) }
{
    out.push_str("<script>")?;
    out.push_str(script())?;
    out.push_str("</script>\n")?;
    Ok(())
}

#[tactic(auto, unfolding(crate::specs::Script::script))]
fn script() -> &'static str
    ensures { result.now ≡ script }
{
    SCRIPT
}
