//! Calls of `doc_html`. HTML is printed as a text is written in the input.

use crate::texts::hides::Hides;
use crate::texts::of_anchors;
use crate::texts::printed::{compared, printed_made};
use crate::texts::tools::Tools;
use doc_blocks::blocks;
use doc_html::{render_plain, to_html};
use doc_lines::entities::Entities;
use doc_lines::options::Options;
use doc_page_parts::failure::Memory;
use doc_page_parts::heap::String;
use doc_page_parts::text::Text;
use trial::answer::{no_call, two_texts};

/// What is printed for a call of this name.
pub fn called(tools: Tools<'_>, name: &str, given: &str) -> Result<String, Memory> {
    match name {
        "html" => printed_made(tools.heap, rendered(tools, given)),
        "html_by" => html_by(tools, given),
        "html_is" => is_html(tools, given),
        "html_of_runs" => html_of_runs(tools, given),
        "html_without_links" => printed_made(tools.heap, html_without_links(tools, given)),
        _ => of_anchors::called(tools, name, given),
    }
}

fn rendered(tools: Tools<'_>, text: &str) -> Result<Text, Memory> {
    render_plain(tools.heap, text, tools.entities)
}

/// `NAME TEXT`: the HTML of a text that is read with the extension of this name.
fn html_by(tools: Tools<'_>, given: &str) -> Result<String, Memory> {
    let Some((name, text)) = given.split_once(" ") else {
        return no_call(tools.heap);
    };
    let entities = Entities::built_in().with_options(options_of(name));
    let html = render_plain(tools.heap, text, &entities);
    drop(entities);
    printed_made(tools.heap, html)
}

fn options_of(name: &str) -> Options {
    Options {
        tables: name == "tables",
        strikethrough: name == "strikethrough",
        tasks: name == "tasks",
        bare_links: name == "bare_links",
        images: false,
    }
}

/// `TEXT | HTML`: whether this is the text's HTML, and else where they differ.
fn is_html(tools: Tools<'_>, given: &str) -> Result<String, Memory> {
    let Some((text, wanted)) = two_texts(given) else {
        return no_call(tools.heap);
    };
    let html = rendered(tools, text)?;
    let told = compared(tools.heap, html.get(), wanted);
    drop(html);
    told
}

/// `N`: whether `a` and runs of 1 to N backticks, each behind a space, are one paragraph of that text.
fn html_of_runs(tools: Tools<'_>, given: &str) -> Result<String, Memory> {
    let Ok(most) = given.parse::<usize>() else {
        return no_call(tools.heap);
    };
    let mut text = String::from_str(tools.heap, "a")?;
    let told = html_of_more_runs(tools, &mut text, most);
    drop(text);
    told
}

fn html_of_more_runs(tools: Tools<'_>, text: &mut String, most: usize) -> Result<String, Memory> {
    push_runs(text, most)?;
    let text = text.as_str();
    let both = format!(in tools.heap; "{text} | <p>{text}</p>\n")?;
    let told = is_html(tools, &both);
    drop(both);
    told
}

fn push_runs(text: &mut String, most: usize) -> Result<(), Memory> {
    for length in 0..most {
        text.push_str(" `")?;
        push_backticks(text, length)?;
    }
    Ok(())
}

fn push_backticks(text: &mut String, length: usize) -> Result<(), Memory> {
    for _ in 0..length {
        text.push('`')?;
    }
    Ok(())
}

/// The HTML of a text by a linker that shows no link.
fn html_without_links(tools: Tools<'_>, text: &str) -> Result<Text, Memory> {
    let document = blocks(tools.heap, text, tools.entities)?;
    let html = to_html(tools.heap, &document, tools.entities, &Hides);
    drop(document);
    html
}
