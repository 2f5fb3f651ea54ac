//! References, resolved on a base.

ghost use Rattle.std.specs.Prelude.{◌≡◌, ◌≤◌, ◌&&◌, length, take, map, IfOk, is_some, option_copied};
ghost use Rattle.doc_page_parts.specs.Paths.{segments};
ghost use Rattle.doc_resolve.specs.DotSegments.{without_dots};
ghost use Rattle.doc_resolve.specs.References.{uri_of};
ghost use Rattle.doc_resolve.specs.Resolution.{uri_of_resolved, resolve, on_its_own, on_base, path_on};
ghost use Rattle.doc_resolve.specs.Resolution.{query_on, folder, is_no_path, is_rooted};

use crate::dot_segments::{push_segments, without_dots};
use crate::reference::Reference;
use crate::resolved::Resolved;
use doc_page_parts::failure::Memory;
use doc_page_parts::heap::{Heap, Vec};

/// The reference, resolved on the base (RFC 3986, section 5.2.2; strict, so that a reference with the base's scheme is absolute too).
/// The base may lack a scheme. No text is copied.
#[tactic(auto, unfolding(crate::specs::Resolution::resolve))]
pub fn resolve<'a>(
    heap: Heap,
    base: &Reference<'a>,
    reference: &Reference<'a>,
) -> Result<Resolved<'a>, Memory>
    ensures { IfOk result
        (λ r. uri_of_resolved r ≡ resolve (uri_of base.now) (uri_of reference.now)) }
{
    if let Some(_) = reference.scheme {
        return on_its_own(heap, reference.scheme, reference);
    }
    if let Some(_) = reference.authority {
        return on_its_own(heap, base.scheme, reference);
    }
    on_base(heap, base, reference)
}

/// The reference's own components, with this scheme.
fn on_its_own<'a>(
    heap: Heap,
    scheme: Option<&'a str>,
    reference: &Reference<'a>,
) -> Result<Resolved<'a>, Memory>
    ensures { IfOk result
        (λ r. uri_of_resolved r ≡ on_its_own (option_copied scheme.entry) (uri_of reference.now)) }
{
    let path = own_path(heap, reference.path)?;
    Ok(Resolved {
        scheme,
        authority: reference.authority,
        path,
        query: reference.query,
        fragment: reference.fragment,
    })
}

/// A reference that has neither scheme nor authority.
fn on_base<'a>(
    heap: Heap,
    base: &Reference<'a>,
    reference: &Reference<'a>,
) -> Result<Resolved<'a>, Memory>
    ensures { IfOk result
        (λ r. uri_of_resolved r ≡ on_base (uri_of base.now) (uri_of reference.now)) }
{
    let mut parts = Vec::new(heap);
    push_segments(&mut parts, base.path)?;
    let path = path_on(heap, base.authority, &parts, reference.path)?;
    Ok(Resolved {
        scheme: base.scheme,
        authority: base.authority,
        path,
        query: query_on(base.query, reference),
        fragment: reference.fragment,
    })
}

/// The reference's query, or the base's where the reference has no path either.
fn query_on<'a>(base: Option<&'a str>, reference: &Reference<'a>) -> Option<&'a str>
    ensures { option_copied result
        ≡ query_on (option_copied base.entry) (segments reference.now.path.now)
        (option_copied reference.now.query) }
{
    if is_no_path(reference.path) {
        reference.query.or(base)
    } else {
        reference.query
    }
}

/// The path of a reference that has neither scheme nor authority, on the segments of the base's path.
pub fn path_on<'a>(
    heap: Heap,
    authority: Option<&str>,
    base: &[&'a str],
    path: &'a str,
) -> Result<Vec<&'a str>, Memory>
    ensures { IfOk result
        (λ out. map (λ s. s.now) out.items
        ≡ path_on (option_copied authority.entry) (map (λ s. s.now) base.now)
        (segments path.entry.now)) }
{
    if is_no_path(path) {
        return Ok(Vec::from_slice(heap, base)?);
    }
    if is_rooted(path) {
        return own_path(heap, path);
    }
    without_dots(heap, &base[..folder_len(authority, base)], path)
}

/// The path without its dot segments.
fn own_path<'a>(heap: Heap, path: &'a str) -> Result<Vec<&'a str>, Memory>
    ensures { IfOk result
        (λ out. map (λ s. s.now) out.items ≡ without_dots (segments path.entry.now)) }
{
    without_dots(heap, &[], path)
}

/// How many segments of the base's path stay: all but the last one, but of an empty path after an authority that too (RFC 3986, section
/// 5.2.3).
fn folder_len(authority: Option<&str>, base: &[&str]) -> usize
    ensures within { result ≤ length base.now }
    ensures folder { map (λ s. s.now) (take result base.now)
        ≡ folder (option_copied authority.entry) (map (λ s. s.now) base.now) }
{
    if stays(authority, base) {
        return base.len();
    }
    base.len().saturating_sub(1)
}

/// Whether the base has an authority and no path.
fn stays(authority: Option<&str>, base: &[&str]) -> bool
    ensures { result ≡ (is_some (option_copied authority.entry)
        && is_no_path (map (λ s. s.now) base.now)) }
{
    authority.is_some() && is_one_empty(base)
}

/// Whether these are the segments of an empty path.
fn is_one_empty(segments: &[&str]) -> bool
    ensures { result ≡ is_no_path (map (λ s. s.now) segments.now) }
{
    match segments {
        [only] => only.is_empty(),
        _ => false,
    }
}

fn is_no_path(path: &str) -> bool
    ensures { result ≡ is_no_path (segments path.now) }
{
    path.is_empty()
}

fn is_rooted(path: &str) -> bool
    ensures { result ≡ is_rooted (segments path.now) }
{
    path.starts_with('/')
}
