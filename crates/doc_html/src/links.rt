//! The opening tags of links, into one buffer (CommonMark 0.31.2, section 6.3).
ghost use Rattle.std.specs.Prelude.{◌≡◌, ◌++◌, ℕ, List as Seq, string_bytes, OnOk};
ghost use Rattle.doc_page_parts.specs.Pages.{opening_tag};
ghost use Rattle.doc_page_parts.specs.declared.linker.Shown.{Shown};
ghost use Rattle.doc_html.specs.PlainLinks.{plain_shown};

use crate::destinations::push_url;
use doc_page_parts::failure::Memory;
use doc_page_parts::filling::{push_opening_tag, push_title};
use doc_page_parts::heap::{Heap, String};
use doc_page_parts::linker::Linker;
use doc_page_parts::text::Text;

/// How the links of a document are written.
pub(crate) trait Links {
    /// How the link to each destination is shown.
    ghost shown: { Self → Seq ℕ → Shown };

    /// Adds the opening tag of a link to this destination.
    fn push_tag(
        &self,
        heap: Heap,
        out: &mut String,
        dest: &str,
        title: &Option<Text>,
    ) -> Result<(), Memory>
        ensures { OnOk result (string_bytes out.new ≡ string_bytes out.old
            ++ opening_tag title.now (shown self.now dest.now)) };
}

/// As a linker shows them.
#[derive(Clone, Copy)]
pub(crate) struct ByLinker<'l, L: Linker> {
    pub(crate) linker: &'l L,
}

impl<'l, L: Linker> Links for ByLinker<'l, L> {
    ghost shown = { λ links. L.shown links.linker.now };

    fn push_tag(
        &self,
        heap: Heap,
        out: &mut String,
        dest: &str,
        title: &Option<Text>,
    ) -> Result<(), Memory> {
        let shown = self.linker.show(heap, dest)?;
        push_opening_tag(out, title, &shown)
    }
}

/// As they stand, escaped, as in the examples of CommonMark 0.31.2. No text is made of a destination.
#[derive(Clone, Copy)]
pub(crate) struct AsTheyStand;

impl Links for AsTheyStand {
    ghost shown = { λ _. plain_shown };

    #[tactic(auto, unfolding(crate::specs::PlainLinks::plain_shown))]
    fn push_tag(
        &self,
        heap: Heap,
        out: &mut String,
        dest: &str,
        title: &Option<Text>,
    ) -> Result<(), Memory> {
        out.push_str("<a href=\"")?;
        push_url(heap, out, dest)?;
        out.push_str("\"")?;
        push_title(out, title)?;
        out.push_str(">")?;
        Ok(())
    }
}
