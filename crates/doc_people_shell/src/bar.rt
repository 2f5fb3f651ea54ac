//! The bar at the top of pages with navigation.

ghost use Rattle.std.specs.Prelude.{◌≡◌, ◌++◌, string_bytes, OnOk};
ghost use Rattle.doc_people.specs.Shell.{bar, bar_start, search_form, sign_in_link, site_links};

use doc_page_parts::escaping::push_escaped;
use doc_page_parts::failure::Memory;
use doc_page_parts::heap::String;
use doc_people::settings::{Browse, Offers};

/// Writes the bar.
pub(crate) fn push_bar(out: &mut String, browse: &Browse, offers: Offers) -> Result<(), Memory>
    ensures { OnOk result (string_bytes out.new ≡ string_bytes out.old ++ bar browse.now offers) }
{
    push_bar_start(out)?;
    push_escaped(out, browse.title.get())?;
    out.push_str("</a>\n<a class=\"menu\" href=\"#.pages\">Pages</a>\n")?;
    push_search_form(out)?;
    push_site_links(out, offers)?;
    out.push_str("</header>\n")?;
    Ok(())
}

/// Writes what stands before the site's title.
fn push_bar_start(out: &mut String) -> Result<(), Memory>
    ensures { OnOk result (string_bytes out.new ≡ string_bytes out.old ++ bar_start) }
{
    out.push_str(
        "<a class=\"skip\" href=\"#.main\">Skip to content</a>\n<header>\n<a class=\"site\" href=\"/\">",
    )?;
    Ok(())
}

/// Writes the form for searches.
fn push_search_form(out: &mut String) -> Result<(), Memory>
    ensures { OnOk result (string_bytes out.new ≡ string_bytes out.old ++ search_form) }
{
    out.push_str("<form role=\"search\" action=\"/search\">\n")?;
    out.push_str(
        "<input type=\"search\" name=\"q\" aria-label=\"Search\" placeholder=\"Search\">\n",
    )?;
    out.push_str("<button>Search</button>\n</form>\n")?;
    Ok(())
}

/// Writes the links to lists of the whole site, and to sign in.
fn push_site_links(out: &mut String, offers: Offers) -> Result<(), Memory>
    ensures { OnOk result (string_bytes out.new ≡ string_bytes out.old ++ site_links offers) }
{
    out.push_str(
        "<nav aria-label=\"Site\">\n<a href=\"/contents\">Contents</a>\n<a href=\"/broken\">Broken links</a>\n",
    )?;
    out.push_str(sign_in_link(offers.sign_in))?;
    out.push_str("</nav>\n")?;
    Ok(())
}

/// The link to sign in, where it is offered.
fn sign_in_link(offered: bool) -> &'static str
    ensures { result.now ≡ sign_in_link offered }
{
    if offered {
        "<a href=\"/sign-in\">Sign in</a>\n"
    } else {
        ""
    }
}
