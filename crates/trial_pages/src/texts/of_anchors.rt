//! Calls of `doc_html_anchors`.

use crate::texts::of_filling;
use crate::texts::tools::Tools;
use doc_html_anchors::anchors_of;
use doc_page_parts::failure::Memory;
use doc_page_parts::heap::{BTreeMap, Heap, String, Vec};
use doc_page_parts::list::List;
use doc_page_parts::text::Text;
use trial::answer::no_call;

/// What is printed for a call of this name.
pub fn called(tools: Tools<'_>, name: &str, given: &str) -> Result<String, Memory> {
    match name {
        "anchors" => anchors(tools, given),
        "anchors_of_equal" => anchors_of_equal(tools, given),
        _ => of_filling::called(tools, name, given),
    }
}

/// `HEADING | HEADING ..`: the anchors of headings with these texts.
fn anchors(tools: Tools<'_>, given: &str) -> Result<String, Memory> {
    let mut headings = Vec::new(tools.heap);
    let pushed = push_headings(tools.heap, &mut headings, given);
    let anchors = anchors_unless(tools.heap, pushed, headings)?;
    let told = shown_each(tools.heap, anchors.get());
    drop(anchors);
    told
}

fn shown_each(heap: Heap, anchors: &[Text]) -> Result<String, Memory> {
    Ok(format!(in heap; "{anchors:?}")?)
}

fn anchors_unless(
    heap: Heap,
    pushed: Result<(), Memory>,
    headings: Vec<Text>,
) -> Result<List<Text>, Memory> {
    let anchors = match pushed {
        Ok(()) => anchors_of(heap, &headings),
        Err(Memory) => Err(Memory),
    };
    drop(headings);
    anchors
}

fn push_headings(heap: Heap, headings: &mut Vec<Text>, given: &str) -> Result<(), Memory> {
    for heading in given.split(" | ") {
        headings.push(Text::copy_of(heap, heading)?)?;
    }
    Ok(())
}

/// `N`: the anchors of N headings `A`.
fn anchors_of_equal(tools: Tools<'_>, given: &str) -> Result<String, Memory> {
    let Ok(count) = given.parse::<usize>() else {
        return no_call(tools.heap);
    };
    let mut headings = Vec::new(tools.heap);
    let pushed = push_equal(tools.heap, &mut headings, count);
    let anchors = anchors_unless(tools.heap, pushed, headings)?;
    let told = shown_ends(tools.heap, anchors.get());
    drop(anchors);
    told
}

fn push_equal(heap: Heap, headings: &mut Vec<Text>, count: usize) -> Result<(), Memory> {
    for _ in 0..count {
        headings.push(Text::copy_of(heap, "A")?)?;
    }
    Ok(())
}

/// The first and the last of some anchors, and how many different ones there are.
fn shown_ends(heap: Heap, anchors: &[Text]) -> Result<String, Memory> {
    let first = anchors.first();
    let last = anchors.last();
    let different = different(heap, anchors)?;
    Ok(format!(in heap; "Ends {{ first: {first:?}, last: {last:?}, different: {different} }}")?)
}

/// How many of the texts differ from all before them.
fn different(heap: Heap, texts: &[Text]) -> Result<usize, Memory> {
    let mut seen: BTreeMap<&str, ()> = BTreeMap::new(heap);
    for text in texts {
        seen.insert(text.get(), ())?;
    }
    Ok(seen.len())
}
