//! Calls of `doc_refs`.

use crate::texts::of_blocks;
use crate::texts::tools::{Tools, refused, shown_made};
use doc_page_parts::failure::Memory;
use doc_page_parts::heap::String;
use doc_refs::{
    RefMap, destination, destination_value, normalize_label, take_definitions, title, title_value,
};
use trial::answer::{no_call, shown, two_texts, word_and_text};
use trial::leads::Leads;

/// What is printed for a call of this name.
pub fn called(tools: Tools<'_>, name: &str, given: &str) -> Result<String, Memory> {
    let Tools { heap, entities } = tools;
    match name {
        "normalize_label" => shown_made(heap, normalize_label(heap, given)),
        "destination" => shown(heap, destination(given)),
        "title" => shown(heap, title(given)),
        "destination_value" => shown_made(heap, destination_value(heap, given, entities)),
        "title_value" => shown_made(heap, title_value(heap, given, entities)),
        "definitions" => definitions(tools, given),
        "target" => target(tools, given),
        "join" => joined(tools, given),
        "joins" => joins(tools, given),
        _ => of_blocks::called(tools, name, given),
    }
}

/// How many bytes the definitions at the front of a text take.
fn definitions(tools: Tools<'_>, text: &str) -> Result<String, Memory> {
    let (_refs, taken) = take_definitions(tools.heap, text, tools.entities)?;
    shown(tools.heap, taken)
}

/// `LABEL | TEXT`: how many bytes the definitions take, and what they name for a label as it stands in a text.
fn target(tools: Tools<'_>, given: &str) -> Result<String, Memory> {
    let Some((label, text)) = two_texts(given) else {
        return no_call(tools.heap);
    };
    let label = normalize_label(tools.heap, label)?;
    let told = target_of(tools, label.get(), text);
    drop(label);
    told
}

fn target_of(tools: Tools<'_>, label: &str, text: &str) -> Result<String, Memory> {
    let (refs, taken) = take_definitions(tools.heap, text, tools.entities)?;
    let told = shown(tools.heap, (taken, found(&refs, label)));
    drop(refs);
    told
}

/// What a label names as it matches, for printing.
pub fn found<'a>(refs: &'a RefMap, label: &str) -> Option<Leads<'a>> {
    let target = refs.find(label)?;
    Some(Leads {
        dest: target.dest.get(),
        title: match &target.title {
            Some(title) => Some(title.get()),
            None => None,
        },
    })
}

/// `LABEL | TEXT | TEXT`: what the joined definitions of two texts name for a label as it matches.
fn joined(tools: Tools<'_>, given: &str) -> Result<String, Memory> {
    let Some((label, texts)) = two_texts(given) else {
        return no_call(tools.heap);
    };
    let Some((first, second)) = two_texts(texts) else {
        return no_call(tools.heap);
    };
    let mut refs = refs_of(tools, first)?;
    let told = join_second(tools, &mut refs, label, second);
    drop(refs);
    told
}

fn join_second(
    tools: Tools<'_>,
    refs: &mut RefMap,
    label: &str,
    second: &str,
) -> Result<String, Memory> {
    refs.join(refs_of(tools, second)?)?;
    shown(tools.heap, found(refs, label))
}

/// `OLD NEW | TEXT | TEXT`: whether the joined definitions of two texts name each of the labels as they match, which have `,` between two.
/// A refused join leaves each of OLD and none of NEW.
fn joins(tools: Tools<'_>, given: &str) -> Result<String, Memory> {
    let (labels, texts) = two_texts(given).unwrap_or(("", ""));
    let (first, second) = two_texts(texts).unwrap_or(("", ""));
    let mut refs = refs_of(tools, first)?;
    let is_right = join_labels(tools, &mut refs, labels, second);
    drop(refs);
    shown_made(tools.heap, is_right)
}

fn join_labels(
    tools: Tools<'_>,
    refs: &mut RefMap,
    labels: &str,
    second: &str,
) -> Result<bool, Memory> {
    let (old, new) = word_and_text(labels).unwrap_or(("", ""));
    match refs.join(refs_of(tools, second)?) {
        Ok(()) => Ok(each_is(refs, old, true) && each_is(refs, new, true)),
        Err(Memory) => refused(each_is(refs, old, true) && each_is(refs, new, false)),
    }
}

/// Whether each of the labels names something, or none does.
fn each_is(refs: &RefMap, labels: &str, is_there: bool) -> bool {
    for label in labels.split(',') {
        if refs.find(label).is_some() != is_there {
            return false;
        }
    }
    true
}

/// What the definitions at the front of a text name.
pub fn refs_of(tools: Tools<'_>, text: &str) -> Result<RefMap, Memory> {
    let (refs, _taken) = take_definitions(tools.heap, text, tools.entities)?;
    Ok(refs)
}
