//! Titles of pages, and the labels of pages and folders: what links to them read.

ghost use Rattle.std.specs.Prelude.{◌≡◌, ◌++◌, ◌-◌, chars, encode_utf8_all, length, nat_le, option_copied, string_bytes, take, IfOk, OnOk};
ghost use Rattle.doc_page_parts.specs.Escaping.{escaped};
ghost use Rattle.doc_people.specs.Folders.{ellipsis, first_text, folder_label, heading_title, label, short, title, title_by};
ghost use Rattle.doc_people.specs.Limits.{short_limit};

use crate::texts::{index_of, name};
use doc_page_parts::escaping::push_escaped;
use doc_page_parts::failure::Memory;
use doc_page_parts::heap::{Heap, String};
use doc_page_parts::rendered::Heading;
use doc_page_parts::text::Text;
use doc_people::viewed::Viewed;

/// The characters that a label has at most.
const SHORT: usize = 80;

/// The text of the first heading whose text isn't empty.
pub fn first_text(headings: &[Heading]) -> Option<&str>
    ensures { option_copied result ≡ first_text headings.now }
{
    for heading in headings {
        if !heading.text.get().is_empty() {
            return Some(heading.text.get());
        }
    }
    None
}

/// The title of a page at a path, by its headings.
pub fn title<'a>(path: &'a str, headings: &'a [Heading]) -> &'a str
    ensures { result.now ≡ title_by path.now (first_text headings.now) }
{
    first_text(headings).unwrap_or(path)
}

/// The text of the first heading whose text isn't empty, of the page at a path.
fn heading_title<'a, V: Viewed>(view: &'a V, path: &str) -> Result<Option<&'a str>, Memory>
    ensures { IfOk result (λ text.
        option_copied text ≡ heading_title (V.render view.now) (V.view view.now) path.now) }
{
    let Some(headings) = view.headings(path)? else {
        return Ok(None);
    };
    Ok(first_text(headings))
}

/// The title of the page at a path.
pub fn page_title<'a, V: Viewed>(view: &'a V, path: &'a str) -> Result<&'a str, Memory>
    ensures { IfOk result (λ text.
        text.now ≡ title (V.render view.now) (V.view view.now) path.now) }
{
    Ok(heading_title(view, path)?.unwrap_or(path))
}

/// The text, shortened to 80 characters at most: its first 79 and `…`.
#[tactic(auto, unfolding(doc_people::specs::Folders::short))]
pub fn short(heap: Heap, text: &str) -> Result<Text, Memory>
    ensures { IfOk result (λ shown. shown ≡ short text.now) }
{
    if is_short(text) {
        return Text::copy_of(heap, text);
    }
    let mut cut = first_characters(heap, text)?;
    cut.push_str("…")?;
    Ok(Text::new(cut))
}

/// Whether the text has so few characters that it is shown whole.
fn is_short(text: &str) -> bool
    ensures { result ≡ nat_le (length (chars text.now)) short_limit }
{
    character_count(text) <= SHORT
}

fn character_count(text: &str) -> usize
    ensures { result ≡ length (chars text.now) }
{
    text.chars().count()
}

/// The characters that a longer text is shown with.
fn first_characters(heap: Heap, text: &str) -> Result<String, Memory>
    ensures { IfOk result (λ cut.
        string_bytes cut ≡ encode_utf8_all (take (short_limit - 1) (chars text.now))) }
{
    Ok(text.chars().take(SHORT - 1).collect(heap)?)
}

/// Writes a text, shortened, and escaped.
pub fn push_escaped_short(out: &mut String, heap: Heap, text: &str) -> Result<(), Memory>
    ensures { OnOk result (string_bytes out.new
        ≡ string_bytes out.old ++ escaped (short text.now)) }
{
    let text = short(heap, text)?;
    push_escaped(out, text.get())
}

/// What links to the page at a path read, not escaped.
pub fn label<V: Viewed>(heap: Heap, view: &V, path: &str) -> Result<Text, Memory>
    ensures { IfOk result (λ text.
        text ≡ label (V.render view.now) (V.view view.now) path.now) }
{
    match heading_title(view, path)? {
        Some(text) => short(heap, text),
        None => Text::copy_of(heap, name(path)),
    }
}

/// Writes what links to the page at a path read.
pub fn push_label<V: Viewed>(
    out: &mut String,
    heap: Heap,
    view: &V,
    path: &str,
) -> Result<(), Memory>
    ensures { OnOk result (string_bytes out.new ≡ string_bytes out.old
        ++ escaped (label (V.render view.now) (V.view view.now) path.now)) }
{
    let text = label(heap, view, path)?;
    push_escaped(out, text.get())
}

/// What links to a folder read, not escaped.
pub fn folder_label<V: Viewed>(heap: Heap, view: &V, folder: &str) -> Result<Text, Memory>
    ensures { IfOk result (λ text.
        text ≡ folder_label (V.render view.now) (V.view view.now) folder.now) }
{
    if folder.is_empty() {
        return Text::copy_of(heap, "Home");
    }
    let index = index_of(heap, folder)?;
    if view.sees(index.get())? {
        return label(heap, view, index.get());
    }
    Text::copy_of(heap, name(folder))
}

/// Writes what links to a folder read.
pub fn push_folder_label<V: Viewed>(
    out: &mut String,
    heap: Heap,
    view: &V,
    folder: &str,
) -> Result<(), Memory>
    ensures { OnOk result (string_bytes out.new ≡ string_bytes out.old
        ++ escaped (folder_label (V.render view.now) (V.view view.now) folder.now)) }
{
    let text = folder_label(heap, view, folder)?;
    push_escaped(out, text.get())
}
