//! Calls of `doc_blocks`.

use crate::texts::of_inlines;
use crate::texts::of_refs::found;
use crate::texts::tools::Tools;
use doc_blocks::{Block, blocks};
use doc_page_parts::failure::Memory;
use doc_page_parts::heap::{Heap, String};
use doc_refs::normalize_label;
use trial::answer::{no_call, shown, two_texts};

/// What is printed for a call of this name.
pub fn called(tools: Tools<'_>, name: &str, given: &str) -> Result<String, Memory> {
    match name {
        "blocks" => shown_blocks(tools, given),
        "blocks_count" => count(tools, given),
        "blocks_target" => target(tools, given),
        _ => of_inlines::called(tools, name, given),
    }
}

/// The blocks of a text.
fn shown_blocks(tools: Tools<'_>, text: &str) -> Result<String, Memory> {
    let document = blocks(tools.heap, text, tools.entities)?;
    let told = shown_each(tools.heap, &document.blocks);
    drop(document);
    told
}

fn shown_each(heap: Heap, blocks: &[Block]) -> Result<String, Memory> {
    Ok(format!(in heap; "{blocks:?}")?)
}

/// How many blocks stand at the outermost level.
fn count(tools: Tools<'_>, text: &str) -> Result<String, Memory> {
    let document = blocks(tools.heap, text, tools.entities)?;
    let count = document.blocks.len();
    drop(document);
    shown(tools.heap, count)
}

/// `LABEL | TEXT`: what the document's definitions name for a label as it stands in a text.
fn target(tools: Tools<'_>, given: &str) -> Result<String, Memory> {
    let Some((label, text)) = two_texts(given) else {
        return no_call(tools.heap);
    };
    let label = normalize_label(tools.heap, label)?;
    let told = target_of(tools, label.get(), text);
    drop(label);
    told
}

fn target_of(tools: Tools<'_>, label: &str, text: &str) -> Result<String, Memory> {
    let document = blocks(tools.heap, text, tools.entities)?;
    let told = shown(tools.heap, found(&document.refs, label));
    drop(document);
    told
}
