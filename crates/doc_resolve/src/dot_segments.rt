//! Paths without their dot segments.

ghost use Rattle.std.specs.Prelude.{◌≡◌, ◌++◌, map, IfOk, OnOk};
ghost use Rattle.doc_page_parts.specs.Paths.{segments};
ghost use Rattle.doc_resolve.specs.DotSegments.{is_dot, is_two_dots, is_dots, but_last, back, put_out, put_all, ends_in_dots, without_dots};

use doc_page_parts::failure::Memory;
use doc_page_parts::heap::{Heap, Vec};

/// Adds the segments of a path, which `/` parts.
pub fn push_segments<'a>(out: &mut Vec<&'a str>, path: &'a str) -> Result<(), Memory>
    ensures { OnOk result
        (map (λ s. s.now) out.new.items ≡ map (λ s. s.now) out.old.items
        ++ segments path.entry.now) }
{
    for segment in path.split('/') {
        out.push(segment)?;
    }
    Ok(())
}

/// A path without its dot segments (RFC 3986, section 5.2.4): these segments, and those of a text behind them.
pub fn without_dots<'a>(
    heap: Heap,
    front: &[&'a str],
    path: &'a str,
) -> Result<Vec<&'a str>, Memory>
    ensures { IfOk result
        (λ out. map (λ s. s.now) out.items
        ≡ without_dots (map (λ s. s.now) front.now ++ segments path.entry.now)) }
{
    let mut out = Vec::with_capacity(heap, room_of(front, path))?;
    put_each(&mut out, front)?;
    if !put_segments(&mut out, path)? {
        return Ok(out);
    }
    out.push("")?;
    Ok(out)
}

/// How many segments these are at most, and one more: a guess, on which nothing rests.
fn room_of(front: &[&str], path: &str) -> usize {
    let slashes = path.bytes().filter(|b| *b == b'/').count();
    front.len().saturating_add(slashes).saturating_add(2)
}

/// Puts segments out.
fn put_each<'a>(out: &mut Vec<&'a str>, segments: &[&'a str]) -> Result<(), Memory>
    ensures { OnOk result
        (map (λ s. s.now) out.new.items
        ≡ put_all (map (λ s. s.now) out.old.items) (map (λ s. s.now) segments.now)) }
{
    for segment in segments {
        put_out(out, segment)?;
    }
    Ok(())
}

/// Puts the segments of a text out, and answers whether the last one is a dot segment.
fn put_segments<'a>(out: &mut Vec<&'a str>, path: &'a str) -> Result<bool, Memory>
    ensures out { OnOk result
        (map (λ s. s.now) out.new.items
        ≡ put_all (map (λ s. s.now) out.old.items) (segments path.entry.now)) }
    ensures dots { IfOk result (λ dots. dots ≡ ends_in_dots (segments path.entry.now)) }
{
    let mut dots = false;
    for segment in path.split('/') {
        put_out(out, segment)?;
        dots = is_dots(segment);
    }
    Ok(dots)
}

/// Puts one segment more out.
fn put_out<'a>(out: &mut Vec<&'a str>, segment: &'a str) -> Result<(), Memory>
    ensures { OnOk result
        (map (λ s. s.now) out.new.items
        ≡ put_out (map (λ s. s.now) out.old.items) segment.entry.now) }
{
    if segment == "." {
        return Ok(());
    }
    if segment == ".." {
        back(out);
        return Ok(());
    }
    out.push(segment)?;
    Ok(())
}

/// Takes the last segment back. The place of the first one stays.
fn back<'a>(out: &mut Vec<&'a str>)
    ensures { map (λ s. s.now) out.new.items ≡ back (map (λ s. s.now) out.old.items) }
{
    if out.len() == 1 {
        out[0] = "";
        return;
    }
    out.pop();
}

fn is_dots(segment: &str) -> bool
    ensures { result ≡ is_dots segment.now }
{
    segment == "." || segment == ".."
}
