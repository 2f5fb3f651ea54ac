//! What a link names.
ghost use Rattle.std.specs.Prelude.{◌≡◌, chars, IfOk};
ghost use Rattle.doc_rules.specs.Destinations.{destination_value, title_value, target_of};
ghost use Rattle.doc_refs_parts.specs.Sources.{text_shown};
ghost use Rattle.doc_refs_parts.specs.Targets.{target_shown};

use crate::scan::inside::inside;
use doc_lines::entities::Entities;
use doc_lines::scan::character::is;
use doc_lines::unescape;
use doc_page_parts::failure::Memory;
use doc_page_parts::heap::Heap;
use doc_page_parts::text::Text;

/// Where a link leads, and its title, both with their escapes and references read (CommonMark 0.31.2, section 6.3). An empty title is
/// a title.
#[derive(Debug, Drop)]
pub struct Target {
    pub dest: Text,
    pub title: Option<Text>,
}

/// The target of a destination and a title as they stand in a text.
pub fn read_target(
    heap: Heap,
    dest: &str,
    title: Option<&str>,
    entities: &Entities,
) -> Result<Target, Memory>
    ensures { IfOk result (λ made. target_shown made
        ≡ target_of entities.now (chars dest.now) (text_shown title.entry)) }
{
    let dest = destination_value(heap, dest, entities)?;
    let title = match title {
        Some(title) => Some(title_value(heap, title, entities)?),
        None => None,
    };
    Ok(Target { dest, title })
}

/// Where a destination leads that stands as this, with its `<` and `>` if it has them.
#[tactic(auto, unfolding(doc_rules::specs::Destinations::destination_value))]
pub fn destination_value(heap: Heap, source: &str, entities: &Entities) -> Result<Text, Memory>
    ensures { IfOk result (λ dest. chars dest ≡ destination_value entities.now (chars source.now)) }
{
    match is(source, '<') {
        Some(_) => unescape(heap, inside(source), entities),
        None => unescape(heap, source, entities),
    }
}

/// The title that stands as this, with its quotes or parentheses.
#[tactic(auto, unfolding(doc_rules::specs::Destinations::title_value))]
pub fn title_value(heap: Heap, source: &str, entities: &Entities) -> Result<Text, Memory>
    ensures { IfOk result (λ title. chars title ≡ title_value entities.now (chars source.now)) }
{
    unescape(heap, inside(source), entities)
}
