//! The definitions at the front of a text.
ghost use Rattle.std.specs.Prelude.{◌≡◌, chars, drop, IfOk};
ghost use Rattle.std.specs.Str.{IsCharBoundary};
ghost use Rattle.doc_rules.specs.Definitions.{definitions_of};
ghost use Rattle.doc_refs_parts.specs.Targets.{targets_of};

use crate::labels::normalize_label;
use crate::ref_map::RefMap;
use doc_lines::entities::Entities;
use doc_page_parts::failure::Memory;
use doc_page_parts::heap::Heap;
use doc_refs_parts::scan::definition::definition_source;
use doc_refs_parts::target::read_target;

/// Takes the link reference definitions at the front of a text (CommonMark 0.31.2, section 4.7), one after another, and answers what
/// they name with how many bytes they take, the line ending after each included.
///
/// A text that begins with no definition gives an empty map and 0. Its lines are taken as they stand: a definition is indented by
/// three spaces at most.
pub fn take_definitions(
    heap: Heap,
    text: &str,
    entities: &Entities,
) -> Result<(RefMap, usize), Memory>
    ensures refs { IfOk result (λ taken. taken.0
        ≡ targets_of (definitions_of entities.now (chars text.now)).0) }
    ensures rest { IfOk result (λ taken. chars (drop taken.1 text.now)
        ≡ (definitions_of entities.now (chars text.now)).1) }
    ensures boundary { IfOk result (λ taken. IsCharBoundary text.now taken.1) }
{
    let mut refs = RefMap::new(heap);
    let mut rest = text;
    'definitions: while let Some(source) = definition_source(rest) {
        let label = normalize_label(heap, source.label)?;
        let target = read_target(heap, source.dest, source.title, entities)?;
        refs.add(label.into_inner(), target)?;
        rest = source.rest;
    }
    Ok((refs, text.len() - rest.len()))
}
