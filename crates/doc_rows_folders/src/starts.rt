//! Where to look for what stands in a folder.

ghost use Rattle.std.specs.Prelude.{◌≡◌, ◌++◌, true, None, IfOk, OnOk, option_copied, string_bytes};
ghost use Rattle.doc_people.specs.Folders.{through_slash};
ghost use Rattle.doc_rows_folders.specs.Starts.{end_of, ends_in_slash, first_start, is_whole, key_found, last_start, rest_below, start_in};

use doc_page_parts::failure::Memory;
use doc_page_parts::heap::{Heap, String};
use doc_page_parts::text::Text;

/// The text from which paths on have keys that don't come before a text.
pub fn first_start(heap: Heap, folder: &str, text: &str) -> Result<String, Memory>
    ensures { IfOk result (λ start. string_bytes start ≡ first_start folder.now text.now) }
{
    let Some(rest) = rest_below(folder, text) else {
        return first_outside(heap, folder, text);
    };
    start_below(heap, folder, rest)
}

/// The text before which paths have keys that come before a text.
pub fn last_start(heap: Heap, folder: &str, text: &str) -> Result<String, Memory>
    requires { is_whole folder.now ≡ true }
    ensures { IfOk result (λ start. string_bytes start ≡ last_start folder.now text.now) }
{
    let Some(rest) = rest_below(folder, text) else {
        return last_outside(heap, folder, text);
    };
    start_below(heap, folder, rest)
}

/// Whether a text is empty or ends in a slash.
pub fn is_whole(folder: &str) -> bool
    ensures { result ≡ is_whole folder.now }
{
    folder.is_empty() || folder.ends_with('/')
}

/// What a folder shows of a path that was found, if it stands there.
pub fn key_found(heap: Heap, folder: &str, found: Option<&str>) -> Result<Option<Text>, Memory>
    ensures { IfOk result (λ key. key ≡ key_found folder.now (option_copied found.entry)) }
{
    let Some(path) = found else {
        return Ok(None);
    };
    let Some(rest) = rest_below(folder, path) else {
        return Ok(None);
    };
    Ok(Some(key_of(heap, folder, rest)?))
}

/// What follows a folder in a text that begins with it.
fn rest_below<'a>(folder: &str, text: &'a str) -> Option<&'a str>
    ensures { option_copied result ≡ rest_below folder.now text.now }
{
    text.strip_prefix(folder)
}

/// The folder, and what follows it up to its first slash.
fn key_of(heap: Heap, folder: &str, rest: &str) -> Result<Text, Memory>
    ensures { IfOk result (λ key. key ≡ folder.now ++ through_slash rest.now) }
{
    let mut key = String::from_str(heap, folder)?;
    push_part(&mut key, rest)?;
    Ok(Text::new(key))
}

/// Where to look from for a text that begins with the folder, by what follows that.
fn start_below(heap: Heap, folder: &str, rest: &str) -> Result<String, Memory>
    ensures { IfOk result (λ start. string_bytes start ≡ folder.now ++ start_in rest.now) }
{
    let mut start = String::from_str(heap, folder)?;
    push_start(&mut start, rest)?;
    Ok(start)
}

/// The same for a text that doesn't.
fn first_outside(heap: Heap, folder: &str, text: &str) -> Result<String, Memory>
    requires { rest_below folder.now text.now ≡ None }
    ensures { IfOk result (λ start. string_bytes start ≡ first_start folder.now text.now) }
{
    if text < folder {
        return Ok(String::from_str(heap, folder)?);
    }
    Ok(String::from_str(heap, text)?)
}

/// The same, before which the last path of the folder stands.
fn last_outside(heap: Heap, folder: &str, text: &str) -> Result<String, Memory>
    requires outside { rest_below folder.now text.now ≡ None }
    requires whole { is_whole folder.now ≡ true }
    ensures { IfOk result (λ start. string_bytes start ≡ last_start folder.now text.now) }
{
    if text < folder {
        return Ok(String::from_str(heap, folder)?);
    }
    end_of(heap, folder)
}

/// The next text behind all that begins with a folder: its last slash made the next byte.
fn end_of(heap: Heap, folder: &str) -> Result<String, Memory>
    requires { ends_in_slash folder.now ≡ true }
    ensures { IfOk result (λ end. string_bytes end ≡ end_of folder.now) }
{
    let Some(name) = folder.strip_suffix('/') else {
        return Ok(String::from_str(heap, folder)?);
    };
    let mut end = String::from_str(heap, name)?;
    end.push_str("0")?;
    Ok(end)
}

/// Adds a text up to its first slash, with it.
fn push_part(out: &mut String, rest: &str) -> Result<(), Memory>
    ensures { OnOk result (string_bytes out.new ≡ string_bytes out.old ++ through_slash rest.now) }
{
    let Some((first, _)) = rest.split_once('/') else {
        out.push_str(rest)?;
        return Ok(());
    };
    out.push_str(first)?;
    out.push_str("/")?;
    Ok(())
}

/// Adds a text up to its first slash; where more follows, that slash made the next byte.
fn push_start(out: &mut String, rest: &str) -> Result<(), Memory>
    ensures { OnOk result (string_bytes out.new ≡ string_bytes out.old ++ start_in rest.now) }
{
    let Some((first, more)) = rest.split_once('/') else {
        out.push_str(rest)?;
        return Ok(());
    };
    out.push_str(first)?;
    if more.is_empty() {
        out.push_str("/")?;
        return Ok(());
    }
    out.push_str("0")?;
    Ok(())
}
