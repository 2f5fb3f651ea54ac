//! The templates as a whole.

ghost use Rattle.std.specs.Prelude.{◌≡◌, ◌++◌, codes, option_copied, string_bytes, IfOk, OnOk};
ghost use Rattle.doc_people.specs.Shell.{bar, bare, head, shell};

use crate::bar::push_bar;
use crate::crumbs::push_over;
use crate::foot::{push_aside, push_foot, push_main};
use crate::frame::Frame;
use crate::head::push_head;
use crate::tree::push_tree;
use doc_page_parts::failure::Memory;
use doc_page_parts::heap::{Heap, String};
use doc_page_parts::text::Text;
use doc_people::settings::Browse;
use doc_people::viewed::Viewed;

/// What a page has beside its main part and what stands beside that: a guess, on which nothing rests.
const ROOM: usize = 8192;

/// A page by its title, the place that it stands at, its main part and what stands beside. A place is the path of a page that is seen, or
/// a folder; some pages stand at none.
pub fn shell<V: Viewed>(
    frame: Frame<'_>,
    view: &V,
    title: &str,
    at: Option<&str>,
    main: &str,
    aside: &str,
) -> Result<Text, Memory>
    ensures { IfOk result (λ text. text ≡ shell (V.render view.now)
        frame.entry.browse.now frame.entry.offers (V.view view.now) title.now
        (option_copied at.entry) main.now aside.now) }
{
    let room = main.len().saturating_add(aside.len()).saturating_add(ROOM);
    let mut out = String::with_capacity(frame.heap, room)?;
    push_shell(&mut out, frame, view, title, at, main, aside)?;
    Ok(Text::new(out))
}

#[tactic(auto, unfolding(doc_people::specs::Shell::shell))]
fn push_shell<V: Viewed>(
    out: &mut String,
    frame: Frame<'_>,
    view: &V,
    title: &str,
    at: Option<&str>,
    main: &str,
    aside: &str,
) -> Result<(), Memory>
    ensures { OnOk result (string_bytes out.new ≡ string_bytes out.old
        ++ shell (V.render view.now) frame.entry.browse.now frame.entry.offers
        (V.view view.now) title.now
        (option_copied at.entry) main.now aside.now) }
{
    push_top(out, frame, title)?;
    push_over(out, frame, view, at)?;
    push_main(out, main)?;
    push_aside(out, aside)?;
    push_tree(out, frame.heap, view, at)?;
    out.push_str("</div>\n")?;
    push_foot(out, frame, at)?;
    out.push_str("</body>\n</html>\n")?;
    Ok(())
}

/// Writes a page up to what stands in its frame.
fn push_top(out: &mut String, frame: Frame<'_>, title: &str) -> Result<(), Memory>
    ensures { OnOk result (string_bytes out.new ≡ string_bytes out.old
        ++ (head frame.entry.browse.now title.now ++ bar frame.entry.browse.now frame.entry.offers
        ++ codes "<div class=\"frame\">\n")) }
{
    push_head(out, frame.browse, title)?;
    push_bar(out, frame.browse, frame.offers)?;
    out.push_str("<div class=\"frame\">\n")?;
    Ok(())
}

/// A page that nothing of a view goes into.
pub fn bare(heap: Heap, browse: &Browse, title: &str, main: &str) -> Result<Text, Memory>
    ensures { IfOk result (λ text. text ≡ bare browse.now title.now main.now) }
{
    let mut out = String::with_capacity(heap, main.len().saturating_add(ROOM))?;
    push_bare(&mut out, browse, title, main)?;
    Ok(Text::new(out))
}

#[tactic(auto, unfolding(doc_people::specs::Shell::bare))]
fn push_bare(out: &mut String, browse: &Browse, title: &str, main: &str) -> Result<(), Memory>
    ensures { OnOk result (string_bytes out.new
        ≡ string_bytes out.old ++ bare browse.now title.now main.now) }
{
    push_head(out, browse, title)?;
    out.push_str("<div class=\"frame bare\">\n")?;
    push_main(out, main)?;
    out.push_str("</div>\n")?;
    out.push_str("</body>\n</html>\n")?;
    Ok(())
}
