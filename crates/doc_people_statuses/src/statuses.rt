//! The pages that say no more than a status. The codes are those of RFC 9110, section 15.

ghost use Rattle.std.specs.Prelude.{◌≡◌, ◌++◌, codes, option_copied, string_bytes, true, IfOk, OnOk, Some};
ghost use Rattle.doc_page_parts.specs.Escaping.{escaped};
ghost use Rattle.doc_people.specs.Lines.{link};
ghost use Rattle.doc_people.specs.Statuses.{begin_line, moved_body, not_found_body, not_signed_in_body, notice, refused_body, status_text, status_title};

use doc_page_parts::escaping::push_escaped;
use doc_page_parts::failure::Memory;
use doc_page_parts::heap::{Heap, String};
use doc_page_parts::text::Text;
use doc_people::settings::Browse;
use doc_people::viewed::Viewed;
use doc_people_lines::lines::push_link;
use doc_people_lines::links::push_edit_link;
use doc_people_shell::frame::Frame;
use doc_people_shell::shell::{bare, shell};

/// The page of 301, by the value of the Location field.
#[tactic(auto, unfolding(doc_people::specs::Statuses::moved_body))]
pub fn moved_body(heap: Heap, browse: &Browse, location: &str) -> Result<Text, Memory>
    ensures { IfOk result (λ text. text ≡ moved_body browse.now location.now) }
{
    let mut link = String::new(heap);
    push_location(&mut link, location)?;
    let main = notice(heap, 301, link.as_str())?;
    bare(heap, browse, status_title(301), main.get())
}

/// Writes where a page stands now.
fn push_location(out: &mut String, location: &str) -> Result<(), Memory>
    ensures { OnOk result (string_bytes out.new ≡ string_bytes out.old
        ++ (codes "<p><a href=\"" ++ escaped location.now ++ codes "\">" ++ escaped location.now
        ++ codes "</a></p>\n")) }
{
    out.push_str("<p><a href=\"")?;
    push_escaped(out, location)?;
    out.push_str("\">")?;
    push_escaped(out, location)?;
    out.push_str("</a></p>\n")?;
    Ok(())
}

/// The page of 401, into which nothing of any view goes.
#[tactic(auto, unfolding(doc_people::specs::Statuses::not_signed_in_body))]
pub fn not_signed_in_body(heap: Heap, browse: &Browse) -> Result<Text, Memory>
    ensures { IfOk result (λ text. text ≡ not_signed_in_body browse.now) }
{
    let main = notice(heap, 401, "")?;
    bare(heap, browse, status_title(401), main.get())
}

/// The page of 404, by the path that a page may be begun at: readers who are offered tools are told it.
#[tactic(auto, unfolding(doc_people::specs::Statuses::not_found_body))]
pub fn not_found_body<V: Viewed>(
    frame: Frame<'_>,
    view: &V,
    new: Option<&str>,
) -> Result<Text, Memory>
    ensures { IfOk result (λ text. text ≡ not_found_body (V.render view.now)
        frame.entry.browse.now frame.entry.offers (V.view view.now)
        (option_copied new.entry)) }
{
    let mut behind = String::new(frame.heap);
    push_contents(&mut behind)?;
    push_begin_line(&mut behind, frame.offers.tools, new)?;
    let main = notice(frame.heap, 404, behind.as_str())?;
    shell(frame, view, status_title(404), None, main.get(), "")
}

/// Writes a link to all that a reader sees.
fn push_contents(out: &mut String) -> Result<(), Memory>
    ensures { OnOk result (string_bytes out.new ≡ string_bytes out.old
        ++ (codes "<p>" ++ link (codes "/contents") (codes "Contents") ++ codes "</p>\n")) }
{
    out.push_str("<p>")?;
    push_link(out, "/contents", "Contents")?;
    out.push_str("</p>\n")?;
    Ok(())
}

/// Writes what begins a page, where tools are offered and there is a path for it.
fn push_begin_line(out: &mut String, offered: bool, new: Option<&str>) -> Result<(), Memory>
    ensures { OnOk result (string_bytes out.new
        ≡ string_bytes out.old ++ begin_line offered (option_copied new.entry)) }
{
    if !offered {
        return Ok(());
    }
    match new {
        Some(path) => push_begin(out, path),
        None => Ok(()),
    }
}

/// Writes what begins a page at a path.
fn push_begin(out: &mut String, path: &str) -> Result<(), Memory>
    ensures { OnOk result (string_bytes out.new
        ≡ string_bytes out.old ++ begin_line true (Some path.now)) }
{
    out.push_str("<p>")?;
    push_edit_link(out, path, "New page")?;
    out.push_str(" at <code>")?;
    push_escaped(out, path)?;
    out.push_str("</code></p>\n")?;
    Ok(())
}

/// The page of 400, 403, 405 or 507.
#[tactic(auto, unfolding(doc_people::specs::Statuses::refused_body))]
pub fn refused_body<V: Viewed>(frame: Frame<'_>, view: &V, code: u16) -> Result<Text, Memory>
    ensures { IfOk result (λ text. text ≡ refused_body (V.render view.now)
        frame.entry.browse.now frame.entry.offers (V.view view.now) code) }
{
    let main = notice(frame.heap, code, "")?;
    shell(frame, view, status_title(code), None, main.get(), "")
}

/// What a code is called and what it means, as HTML, with what stands behind.
fn notice(heap: Heap, code: u16, behind: &str) -> Result<Text, Memory>
    ensures { IfOk result (λ html. html ≡ notice code behind.now) }
{
    let mut out = String::new(heap);
    push_notice(&mut out, code, behind)?;
    Ok(Text::new(out))
}

fn push_notice(out: &mut String, code: u16, behind: &str) -> Result<(), Memory>
    ensures { OnOk result (string_bytes out.new ≡ string_bytes out.old ++ notice code behind.now) }
{
    out.push_str("<h1>")?;
    out.push_str(status_title(code))?;
    out.push_str("</h1>\n<p>")?;
    out.push_str(status_text(code))?;
    out.push_str("</p>\n")?;
    out.push_str(behind)?;
    Ok(())
}

/// What a code is called, in the title of its page and in its heading.
fn status_title(code: u16) -> &'static str
    ensures { result.now ≡ status_title code }
{
    match code {
        301 => "Moved",
        400 => "This can't be done",
        401 => "Not signed in",
        403 => "Not allowed",
        404 => "Not found",
        405 => "Not possible",
        _ => "No room",
    }
}

/// What a code means.
fn status_text(code: u16) -> &'static str
    ensures { result.now ≡ status_text code }
{
    match code {
        301 => "The page stands at another address now:",
        400 => "What was sent isn't of the form that is wanted here.",
        401 => {
            "These pages are for readers who are signed in. Whoever runs this site can let you in."
        }
        403 => "Only those who write these pages may do this.",
        404 => "There is no page here that you may read.",
        405 => "This can't be done at this address.",
        _ => { "The page wasn't kept: its text is too long, or there are as many pages as can be." }
    }
}
