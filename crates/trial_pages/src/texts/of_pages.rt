//! Calls of `doc_html`'s renderer of pages.

ghost use Rattle.std.specs.Prelude.{◌≡◌, ◌<◌, ◌+◌};

use crate::texts::tools::Tools;
use doc_html::CommonMark;
use doc_lines::entities::Entities;
use doc_lines::options::Options;
use doc_page::renderer::Renderer;
use doc_page_parts::failure::Memory;
use doc_page_parts::heap::{Heap, String};
use doc_page_parts::rendered::Rendered;
use doc_page_parts::text::Text;
use std::fmt::Debug;
use std::marker::Brand;
use std::sync::ledger::{Blank, Ledger};
use trial::answer::no_call;

/// What is printed for a call of this name.
pub fn called(tools: Tools<'_>, name: &str, given: &str) -> Result<String, Memory> {
    match name {
        "page" => page(tools.heap, given),
        "images" => images(tools.heap, given),
        _ => no_call(tools.heap),
    }
}

/// The pieces, the headings and the texts of a page, each on a line of its own.
fn page(heap: Heap, text: &str) -> Result<String, Memory> {
    let page = made(heap, Options::default(), text)?;
    let mut out = String::new(heap);
    let pushed = push_page(&mut out, &page);
    drop(page);
    match pushed {
        Ok(()) => Ok(out),
        Err(Memory) => Err(Memory),
    }
}

fn push_page(out: &mut String, page: &Rendered) -> Result<(), Memory> {
    push_each(out, "pieces", page.pieces.get())?;
    push_each(out, "\nheadings", page.headings.get())?;
    push_each(out, "\ntexts", page.texts.get())
}

fn push_each<T: Debug>(out: &mut String, name: &str, items: &[T]) -> Result<(), Memory> {
    out.push_str(name)?;
    for item in items {
        write!(out, "\n  {item:?}")?;
    }
    Ok(())
}

/// `NAME TEXT`: the images of the page of a text that is read with tables, where it is to tell them (`told`) or not.
fn images(heap: Heap, given: &str) -> Result<String, Memory> {
    let Some((name, text)) = given.split_once(" ") else {
        return no_call(heap);
    };
    let options = Options {
        tables: true,
        strikethrough: false,
        tasks: false,
        bare_links: false,
        images: name == "told",
    };
    let page = made(heap, options, text)?;
    let told = shown_each(heap, page.images.get());
    drop(page);
    told
}

fn shown_each(heap: Heap, images: &[Text]) -> Result<String, Memory> {
    Ok(format!(in heap; "{images:?}")?)
}

fn made(heap: Heap, options: Options, text: &str) -> Result<Rendered, Memory> {
    made_by::<Brand>(heap, Blank::new(1), options, &[text])
}

/// The page that a renderer makes of a text the second time.
fn made_by<L: Ledger>(
    heap: Heap,
    blank: Blank,
    options: Options,
    texts: &[&str; 1],
) -> Result<Rendered, Memory>
    requires name { blank.name ≡ L.name }
    requires parts { blank.parts ≡ L.parts }
    requires some { 0 < L.parts }
{
    let mut renderer: CommonMark<L> = CommonMark::new(
        Entities::built_in().with_options(options),
        blank,
    );
    let page = made_again(heap, &mut renderer, texts[0]);
    drop(renderer);
    page
}

/// Makes a page of a text twice. Both calls are counted, whether or not memory runs out for them.
fn made_again<L: Ledger>(
    heap: Heap,
    renderer: &mut CommonMark<L>,
    text: &str,
) -> Result<Rendered, Memory>
    ensures { renderer.new.1 ≡ renderer.old.1 + 2 }
{
    drop(renderer.render(heap, text));
    renderer.render(heap, text)
}
