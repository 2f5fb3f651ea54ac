//! Blocks as HTML (CommonMark 0.31.2, sections 4 and 5).
ghost use Rattle.std.specs.Prelude.{◌≡◌, List, OnOk, false};
ghost use Rattle.doc_rules.specs.Blocks.{Blocks};
ghost use Rattle.doc_rules.specs.Definitions.{Definition};
ghost use Rattle.doc_refs_parts.specs.Targets.{targets_of};
ghost use Rattle.doc_blocks_starts.specs.Tags.{tag_shown, tags_shown, tags_of};
ghost use Rattle.doc_html.specs.ProgressSteps.{Progress, Goes};
ghost use Rattle.doc_html.specs.TellingSteps.{nested_behind, tag_told, blocks_told};

use crate::containers::{begin, end};
use crate::leaves::push_leaf;
use crate::nesting::Nesting;
use crate::reading::Source;
use crate::writer::Writer;
use doc_blocks_starts::tag::Tag;
use doc_inlines::Reader;
use doc_page_parts::failure::Memory;

/// Writes the blocks of a document, of which these are the tags.
pub(crate) fn push_all<'d, W: Writer>(
    writer: &mut W,
    source: &Source<'d>,
    tags: &'d [Tag<'d>],
) -> Result<(), Memory>
    ensures { (definitions : List Definition) (blocks : Blocks) (p : Progress)
        → source.now.refs.now ≡ targets_of definitions → tags_shown tags.now ≡ tags_of blocks
        → W.holds writer.old p →
        OnOk result (W.holds writer.new
        (blocks_told source.now.entities.now definitions false blocks p)) }
{
    let mut reader: Reader<'d, 'd> = Reader::new(source.heap, source.arena);
    let mut nesting = Nesting::new(source.heap);
    for tag in tags {
        push_tag(writer, source, &mut reader, &mut nesting, *tag)?;
    }
    Ok(())
}

/// Writes a leaf block, or the start or the end of a container block.
#[tactic(auto, unfolding(doc_blocks_starts::specs::Tags::tag_shown, crate::specs::TellingSteps::nested_behind, crate::specs::TellingSteps::tag_told))]
fn push_tag<'d, W: Writer>(
    writer: &mut W,
    source: &Source<'d>,
    reader: &mut Reader<'d, 'd>,
    nesting: &mut Nesting,
    tag: Tag<'d>,
) -> Result<(), Memory>
    ensures nested { OnOk result (nesting.new ≡ nested_behind (tag_shown tag.entry) nesting.old) }
    ensures written { (definitions : List Definition)
        → source.now.refs.now ≡ targets_of definitions →
        OnOk result (Goes W.holds writer.old writer.new
        (tag_told source.now.entities.now definitions nesting.old.tight
        (tag_shown tag.entry))) }
{
    match tag {
        Tag::Leaf(leaf) => push_leaf(writer, source, reader, leaf, nesting.is_tight()),
        Tag::Start(container) => {
            begin(writer, source.heap, container)?;
            nesting.enter(container)
        }
        Tag::End(container) => {
            end(writer, container)?;
            nesting.leave();
            Ok(())
        }
    }
}
