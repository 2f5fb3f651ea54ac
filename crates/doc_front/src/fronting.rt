//! Texts without their fronts.
ghost use Rattle.std.specs.Prelude.{◌≡◌, chars, option_and_then, IfOk};
ghost use Rattle.doc_rules.specs.Lines.{lines_of};
ghost use Rattle.doc_front.specs.Front.{front_of, skipped, title_in, titled, with_title, without_bom};
ghost use Rattle.doc_front.specs.Fronted.{text_of};
ghost use Rattle.doc_front.specs.Titles.{simple_value};

use crate::escaping::headed;
use crate::fences::{Matter, front_in};
use crate::fronted::Fronted;
use crate::headings::has_heading;
use crate::rules::{FrontMatter, FrontRules};
use crate::titles::title_in;
use crate::values::simple_value;
use doc_lines::scan::character::is;
use doc_page_parts::failure::Memory;
use doc_page_parts::heap::Heap;

/// What is read of a text by these rules: its end, or, where a title becomes a heading, a text of its own. Takes no memory but there. Of
/// the text behind front matter its first lines alone are looked at, up to the one behind the first that isn't blank.
pub fn front_of<'a>(heap: Heap, rules: FrontRules, text: &'a str) -> Result<Fronted<'a>, Memory>
    ensures { IfOk result (λ fronted. text_of fronted ≡ front_of rules (chars text.now)) }
{
    let text = if rules.skip_bom {
        without_bom(text)
    } else {
        text
    };
    match rules.front_matter {
        FrontMatter::Keep => Ok(Fronted::Rest(text)),
        FrontMatter::Skip => Ok(Fronted::Rest(skipped(text))),
        FrontMatter::Title => with_title(heap, text),
    }
}

/// The text without a byte order mark at its front.
#[tactic(auto, unfolding(crate::specs::Front::without_bom))]
fn without_bom(text: &str) -> &str
    ensures { chars result.now ≡ without_bom (chars text.now) }
{
    match is(text, '\u{feff}') {
        Some(rest) => rest,
        None => text,
    }
}

/// The text without its front matter, where it begins with some.
fn skipped(text: &str) -> &str
    ensures { chars result.now ≡ skipped (chars text.now) }
{
    match front_in(text) {
        Some(matter) => matter.behind,
        None => text,
    }
}

/// The same with its title as a heading, where the text behind has none.
fn with_title<'a>(heap: Heap, text: &'a str) -> Result<Fronted<'a>, Memory>
    ensures { IfOk result (λ fronted. text_of fronted ≡ with_title (chars text.now)) }
{
    match front_in(text) {
        Some(matter) => titled(heap, matter),
        None => Ok(Fronted::Rest(text)),
    }
}

/// What stands behind front matter, with its title as a heading where that has none.
fn titled<'a>(heap: Heap, matter: Matter<'a>) -> Result<Fronted<'a>, Memory>
    ensures { IfOk result (λ fronted. text_of fronted ≡ titled (option_and_then simple_value
        (title_in (lines_of (chars matter.entry.inside.now))))
        (lines_of (chars matter.entry.behind.now))) }
{
    if has_heading(matter.behind) {
        return Ok(Fronted::Rest(matter.behind));
    }
    let Some(written) = title_in(matter.inside) else {
        return Ok(Fronted::Rest(matter.behind));
    };
    let Some(title) = simple_value(heap, written)? else {
        return Ok(Fronted::Rest(matter.behind));
    };
    Ok(Fronted::Titled(headed(heap, title.get(), matter.behind)?))
}
