//! The links of a page as a reader sees them.

ghost use Rattle.std.specs.Prelude.{◌≡◌, ◌++◌, string_bytes, option_copied, IfOk, OnOk};
ghost use Rattle.doc_page_parts.specs.Escaping.{escaped};
ghost use Rattle.doc_page_parts.specs.declared.linker.Shown.TheVariants.{Href};
ghost use Rattle.doc_page_encoding.specs.Encoding.{destination};
ghost use Rattle.doc_resolve.specs.Hrefs.{shown_by, shown_page, page_href, fragment_of};

use crate::link_kind::LinkKind;
use crate::links::classify;
use doc_page_encoding::encoding::{push_destination, push_encoded, push_encoded_path};
use doc_page_parts::failure::Memory;
use doc_page_parts::heap::{Heap, String};
use doc_page_parts::linker::{Linker, Shown};
use doc_page_parts::path::Path;
use doc_page_parts::sight::Sight;
use doc_page_parts::text::Text;

/// Shows the links of one page to one reader: a link to a page that the reader sees with that page's address, a link out of the site as
/// its destination stands, and any other as one that leads nowhere, whether there is such a page or not.
#[derive(Drop)]
pub struct SiteLinker<'a, S> {
    page: &'a Path,
    sight: &'a S,
}

impl<'a, S: Sight> SiteLinker<'a, S> {
    /// Shows the links of the page at this path.
    pub fn new(page: &'a Path, sight: &'a S) -> Self
        ensures page { result.page.now ≡ page.entry.now }
        ensures sight { result.sight.now ≡ sight.entry.now }
    {
        SiteLinker { page, sight }
    }
}

impl<'a, S: Sight> Linker for SiteLinker<'a, S> {
    ghost use Rattle.doc_resolve.specs.Hrefs.{shown as shown_in};

    ghost shown = { λ l dest. shown_in (S.goals l.sight.now) l.page.now dest };

    fn show(&self, heap: Heap, dest: &str) -> Result<Shown, Memory> {
        let kind = classify(heap, self.page, dest)?;
        shown_by(heap, self.sight, dest, &kind)
    }
}

/// A link by what it leads to.
fn shown_by<S: Sight>(heap: Heap, sight: &S, dest: &str, kind: &LinkKind) -> Result<Shown, Memory>
    ensures { IfOk result (λ how. how ≡ shown_by (S.goals sight.now) dest.now kind.now) }
{
    match kind {
        LinkKind::External => external(heap, dest),
        LinkKind::Page { path, anchor } => shown_page(heap, sight.goal(path), anchor),
        LinkKind::Nowhere => Ok(Shown::Missing),
    }
}

/// A link out of the site.
fn external(heap: Heap, dest: &str) -> Result<Shown, Memory>
    ensures { IfOk result (λ how. how ≡ Href (escaped (destination dest.now))) }
{
    let mut out = String::new(heap);
    push_destination(heap, &mut out, dest)?;
    Ok(Shown::Href(Text::new(out)))
}

/// A link to the page that a path leads to.
fn shown_page(heap: Heap, goal: Option<&Path>, anchor: &Option<Text>) -> Result<Shown, Memory>
    ensures { IfOk result (λ how. how ≡ shown_page (option_copied goal.entry) anchor.now) }
{
    let Some(path) = goal else {
        return Ok(Shown::Missing);
    };
    let mut out = String::with_capacity(heap, room_of(path, anchor))?;
    out.push_str("/page/")?;
    push_encoded_path(&mut out, path.text())?;
    push_fragment(&mut out, anchor)?;
    Ok(Shown::Href(Text::new(out)))
}

/// How many bytes the address of a page takes, where no byte has to be encoded: a guess, on which nothing rests.
fn room_of(path: &Path, anchor: &Option<Text>) -> usize {
    let fragment = match anchor {
        Some(anchor) => anchor.get().len().saturating_add(1),
        None => 0,
    };
    path.text().len().saturating_add(fragment).saturating_add(6)
}

/// Writes `#` and the anchor, where there is one.
fn push_fragment(out: &mut String, anchor: &Option<Text>) -> Result<(), Memory>
    ensures { OnOk result (string_bytes out.new ≡ string_bytes out.old ++ fragment_of anchor.now) }
{
    let Some(anchor) = anchor else {
        return Ok(());
    };
    out.push_str("#")?;
    push_encoded(out, anchor.get())?;
    Ok(())
}
