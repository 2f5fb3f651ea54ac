//! Calls of `doc_inlines`. Marks are printed as the HTML of the specification's examples has them, but for its escapes: a line ending is
//! `\\n`, and an image is an element with the marks of its text inside.

use crate::texts::of_html;
use crate::texts::of_refs::refs_of;
use crate::texts::tools::Tools;
use doc_inlines::{Mark, Span, inlines, inlines_counted};
use doc_page_parts::failure::Memory;
use doc_page_parts::heap::{Heap, String};
use doc_refs::{RefMap, Target};
use trial::answer::{no_call, number_and_text, shown, two_texts};

/// What is printed for a call of this name.
pub fn called(tools: Tools<'_>, name: &str, given: &str) -> Result<String, Memory> {
    match name {
        "inlines" => written(tools, "", given),
        "inlines_with" => with_definitions(tools, given),
        "inlines_are_text" => are_text(tools, given),
        "inlines_look_at" => look_at(tools, given),
        _ => of_html::called(tools, name, given),
    }
}

/// `DEFINITIONS | TEXT`: the marks of a text beside definitions.
fn with_definitions(tools: Tools<'_>, given: &str) -> Result<String, Memory> {
    match two_texts(given) {
        Some((definitions, text)) => written(tools, definitions, text),
        None => no_call(tools.heap),
    }
}

/// Whether the marks of a text are that text.
fn are_text(tools: Tools<'_>, text: &str) -> Result<String, Memory> {
    let read = written(tools, "", text)?;
    let is_text = read.as_str() == text;
    drop(read);
    shown(tools.heap, is_text)
}

/// `N TEXT`: whether the searches for openers look at N runs at most.
fn look_at(tools: Tools<'_>, given: &str) -> Result<String, Memory> {
    let Some((most, text)) = number_and_text(given) else {
        return no_call(tools.heap);
    };
    let refs = RefMap::new(tools.heap);
    let looked = looked(tools, &refs, text);
    drop(refs);
    shown(tools.heap, looked? <= most as u64)
}

fn looked(tools: Tools<'_>, refs: &RefMap, text: &str) -> Result<u64, Memory> {
    let (_marks, looked) = inlines_counted(tools.heap, text, refs, tools.entities)?;
    Ok(looked)
}

/// The marks of a text beside the definitions of another.
fn written(tools: Tools<'_>, definitions: &str, text: &str) -> Result<String, Memory> {
    let refs = refs_of(tools, definitions)?;
    let written = written_with(tools, &refs, text);
    drop(refs);
    written
}

fn written_with(tools: Tools<'_>, refs: &RefMap, text: &str) -> Result<String, Memory> {
    let marks = inlines(tools.heap, text, refs, tools.entities)?;
    let written = written_marks(tools.heap, &marks);
    drop(marks);
    written
}

fn written_marks(heap: Heap, marks: &[Mark]) -> Result<String, Memory> {
    let mut out = String::new(heap);
    match push_marks(&mut out, marks) {
        Ok(()) => Ok(out),
        Err(Memory) => Err(Memory),
    }
}

fn push_marks(out: &mut String, marks: &[Mark]) -> Result<(), Memory> {
    for mark in marks {
        push_mark(out, mark)?;
    }
    Ok(())
}

fn push_mark(out: &mut String, mark: &Mark) -> Result<(), Memory> {
    match mark {
        Mark::Text(text) => push_text(out, text),
        Mark::Code(text) => push_enclosed(out, "<code>", text, "</code>"),
        Mark::Soft => push_enclosed(out, "", "\n", ""),
        Mark::Hard => push_enclosed(out, "<br />", "\n", ""),
        Mark::Raw(text) => push_text(out, text),
        Mark::Reference { source: _, text } => push_text(out, text.get()),
        Mark::Start(span) => push_start(out, span),
        Mark::End(span) => push_end(out, span),
    }
}

/// A text, of which each line ending is `\\n`.
fn push_text(out: &mut String, text: &str) -> Result<(), Memory> {
    for c in text.chars() {
        match c {
            '\n' => out.push_str("\\n")?,
            _ => out.push(c)?,
        }
    }
    Ok(())
}

fn push_enclosed(out: &mut String, start: &str, text: &str, end: &str) -> Result<(), Memory> {
    out.push_str(start)?;
    push_text(out, text)?;
    out.push_str(end)?;
    Ok(())
}

fn push_start(out: &mut String, span: &Span) -> Result<(), Memory> {
    match span {
        Span::Emphasis => push_enclosed(out, "<em>", "", ""),
        Span::Strong => push_enclosed(out, "<strong>", "", ""),
        Span::Strike => push_enclosed(out, "<del>", "", ""),
        Span::Link(target) => push_target(out, "<a href=", target),
        Span::Image(target) => push_target(out, "<img src=", target),
    }
}

fn push_target(out: &mut String, start: &str, target: &Target) -> Result<(), Memory> {
    let dest = target.dest.get();
    match &target.title {
        Some(title) => {
            let title = title.get();
            write!(out, "{start}{dest:?} title={title:?}>")?;
        }
        None => write!(out, "{start}{dest:?}>")?,
    }
    Ok(())
}

fn push_end(out: &mut String, span: &Span) -> Result<(), Memory> {
    let end = match span {
        Span::Emphasis => "</em>",
        Span::Strong => "</strong>",
        Span::Strike => "</del>",
        Span::Link(_) => "</a>",
        Span::Image(_) => "</img>",
    };
    push_enclosed(out, end, "", "")
}
