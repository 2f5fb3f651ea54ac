//! What the links of a page lead to.

ghost use Rattle.std.specs.Prelude.{◌≡◌, ◌||◌, [], ◌∷◌, ◌++◌, map, IfOk, OnOk, is_some, option_copied};
ghost use Rattle.std.specs.List.{flat_map};
ghost use Rattle.doc_page_parts.specs.Paths.{segments};
ghost use Rattle.doc_resolve.specs.Links.{classify, kinds, kinds_in, kind_on, on_path, anchor_of, decoded_text};
ghost use Rattle.doc_resolve.specs.LinkSteps.{leaves_site, target_on, kind_inside};
ghost use Rattle.doc_resolve.specs.References.{uri_of};

use crate::dot_segments::push_segments;
use crate::link_kind::LinkKind;
use crate::reference::Reference;
use crate::resolution::path_on;
use crate::written_paths::path_of_segments;
use doc_page_encoding::encoding::encoded_path;
use doc_page_parts::failure::Memory;
use doc_page_parts::heap::{Heap, Vec};
use doc_page_parts::path::Path;
use doc_page_parts::rendered::Piece;
use doc_page_parts::text::Text;
use percent_encoding::{DecodeError, percent_decode};

/// The segments of `/` and a page's path at most.
const SEGMENTS: usize = 17;

/// What a destination in the page at this path leads to. The page's path is copied only where it has bytes that a URI has to encode.
pub fn classify(heap: Heap, page: &Path, dest: &str) -> Result<LinkKind, Memory>
    ensures { IfOk result (λ kind. kind ≡ classify page.now dest.now) }
{
    let reference = Reference::parse(dest);
    if leaves_site(&reference) {
        return Ok(LinkKind::External);
    }
    let path = encoded_path(heap, page.text())?;
    let base = rooted(heap, path.as_str())?;
    kind_inside(heap, &base, &reference)
}

/// What each link of the pieces of the page at this path leads to, in order, also out of the site. The page's path is encoded and
/// split once.
pub fn kinds(heap: Heap, page: &Path, pieces: &[Piece]) -> Result<Vec<LinkKind>, Memory>
    ensures { IfOk result (λ all. all.items ≡ kinds page.now pieces.now) }
{
    let path = encoded_path(heap, page.text())?;
    let base = rooted(heap, path.as_str())?;
    kinds_on(heap, &base, pieces)
}

/// What each link of these pieces leads to on a path.
fn kinds_on(heap: Heap, base: &[&str], pieces: &[Piece]) -> Result<Vec<LinkKind>, Memory>
    ensures { IfOk result
        (λ all. all.items ≡ flat_map (kinds_in (on_path (map (λ s. s.now) base.now))) pieces.now) }
{
    let mut all = Vec::with_capacity(heap, link_count(pieces))?;
    for piece in pieces {
        push_kind(heap, &mut all, base, piece)?;
    }
    Ok(all)
}

fn link_count(pieces: &[Piece]) -> usize {
    pieces
        .iter()
        .filter(|piece| matches!(piece, Piece::Link(_)))
        .count()
}

/// Adds what a piece leads to, where it is a link.
fn push_kind(
    heap: Heap,
    all: &mut Vec<LinkKind>,
    base: &[&str],
    piece: &Piece,
) -> Result<(), Memory>
    ensures { OnOk result
        (all.new.items ≡ all.old.items
        ++ kinds_in (on_path (map (λ s. s.now) base.now)) piece.now) }
{
    match piece {
        Piece::Html(_) => Ok(()),
        Piece::Link(spot) => {
            all.push(kind_on(heap, base, spot.dest.get())?)?;
            Ok(())
        }
    }
}

/// The segments of `/` and a path.
fn rooted<'a>(heap: Heap, path: &'a str) -> Result<Vec<&'a str>, Memory>
    ensures { IfOk result (λ base. map (λ s. s.now) base.items ≡ [] ∷ segments path.entry.now) }
{
    let mut base = Vec::with_capacity(heap, SEGMENTS)?;
    base.push("")?;
    push_segments(&mut base, path)?;
    Ok(base)
}

/// What a destination leads to on a path of these segments.
fn kind_on(heap: Heap, base: &[&str], dest: &str) -> Result<LinkKind, Memory>
    ensures { IfOk result (λ kind. kind ≡ kind_on (on_path (map (λ s. s.now) base.now)) dest.now) }
{
    let reference = Reference::parse(dest);
    if leaves_site(&reference) {
        return Ok(LinkKind::External);
    }
    kind_inside(heap, base, &reference)
}

fn leaves_site(reference: &Reference) -> bool
    ensures { result ≡ leaves_site (uri_of reference.now) }
{
    reference.scheme.is_some() || reference.authority.is_some()
}

/// What a reference with neither scheme nor authority leads to on a path of these segments.
fn kind_inside(heap: Heap, base: &[&str], reference: &Reference) -> Result<LinkKind, Memory>
    ensures { IfOk result
        (λ kind. kind ≡ kind_inside (map (λ s. s.now) base.now) (uri_of reference.now)) }
{
    let Some(path) = target_on(heap, base, reference.path)? else {
        return Ok(LinkKind::Nowhere);
    };
    let anchor = anchor_of(heap, reference.fragment)?;
    Ok(LinkKind::Page { path, anchor })
}

/// The page at the path of a reference.
fn target_on(heap: Heap, base: &[&str], path: &str) -> Result<Option<Path>, Memory>
    ensures { IfOk result
        (λ target. target ≡ target_on (map (λ s. s.now) base.now) (segments path.now)) }
{
    let found = path_on(heap, None, base, path)?;
    let Some((_, written)) = found.as_slice().split_first() else {
        return Ok(None);
    };
    path_of_segments(heap, written)
}

/// The anchor that a fragment names.
fn anchor_of(heap: Heap, fragment: Option<&str>) -> Result<Option<Text>, Memory>
    ensures { IfOk result (λ anchor. anchor ≡ anchor_of (option_copied fragment.entry)) }
{
    let Some(text) = fragment else {
        return Ok(None);
    };
    if text.is_empty() {
        return Ok(None);
    }
    Ok(Some(decoded_text(heap, text)?))
}

/// What the text stands for, or the text itself where that is no UTF-8.
fn decoded_text(heap: Heap, text: &str) -> Result<Text, Memory>
    ensures { IfOk result (λ decoded. decoded ≡ decoded_text text.now) }
{
    match percent_decode(text.as_bytes()).decode_utf8(heap) {
        Ok(decoded) => Ok(Text::new(decoded.into_owned(heap)?)),
        Err(DecodeError::OutOfMemory) => Err(Memory),
        Err(DecodeError::Utf8(_)) => Text::copy_of(heap, text),
    }
}
