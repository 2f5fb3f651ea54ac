//! One buffer into which HTML is written.
ghost use Rattle.std.specs.Prelude.{◌≡◌, false, string_bytes, IfOk};
ghost use Rattle.doc_html.specs.ProgressSteps.{begun};
ghost use Rattle.doc_html.specs.WrittenSteps.{HoldsHtml, read_again};

use crate::escaping::push_escaped;
use crate::fresh::fresh_behind;
use crate::links::Links;
use crate::writer::Writer;
use doc_inlines_marks::mark_ref::MarkRef;
use doc_inlines_marks::target_ref::TargetRef;
use doc_page_parts::failure::Memory;
use doc_page_parts::heap::{Heap, String};
use doc_page_parts::text::Text;

/// HTML so far. It is fresh where nothing was written or a LF was written last.
#[derive(Drop)]
pub(crate) struct HtmlWriter<'l, K: Links> {
    heap: Heap,
    out: String,
    fresh: bool,
    links: &'l K,
}

impl<'l, K: Links> HtmlWriter<'l, K> {
    /// Nothing is written yet. There is room for so many bytes.
    pub(crate) fn new(heap: Heap, links: &'l K, room: usize) -> Result<Self, Memory>
        ensures { IfOk result (λ writer. HoldsHtml (K.shown writer.links.now)
            (string_bytes writer.out) writer.fresh (begun (K.shown links.now) false None)) }
    {
        let out = String::with_capacity(heap, room)?;
        Ok(HtmlWriter {
            heap,
            out,
            fresh: true,
            links,
        })
    }

    pub(crate) fn into_text(self) -> Text
        ensures { result ≡ string_bytes self.entry.out }
    {
        let HtmlWriter {
            heap: _,
            out,
            fresh: _,
            links: _,
        } = self;
        Text::new(out)
    }
}

impl<'l, K: Links> Writer for HtmlWriter<'l, K> {
    ghost holds = { λ w p. HoldsHtml (K.shown w.links.now) (string_bytes w.out) w.fresh p };

    fn text(&mut self, text: &str) -> Result<(), Memory> {
        self.out.push_str(text)?;
        self.fresh = fresh_behind(self.fresh, text);
        Ok(())
    }

    fn escaped(&mut self, text: &str) -> Result<(), Memory> {
        push_escaped(&mut self.out, text)?;
        self.fresh = fresh_behind(self.fresh, text);
        Ok(())
    }

    fn link(&mut self, target: TargetRef) -> Result<(), Memory> {
        let dest = target.dest(self.heap)?;
        let title = target.title(self.heap)?;
        title_is_text(&title);
        self.links
            .push_tag(self.heap, &mut self.out, dest.get(), &title)?;
        self.fresh = false;
        Ok(())
    }

    fn image(&mut self, _dest: &str) -> Result<(), Memory> {
        self.fresh = false;
        Ok(())
    }

    fn new_line(&mut self) -> Result<(), Memory> {
        if self.fresh {
            return Ok(());
        }
        self.out.push_str("\n")?;
        self.fresh = true;
        Ok(())
    }

    fn meet_text(&mut self, _text: &str) -> Result<(), Memory> {
        Ok(())
    }

    fn meet_paragraph(&mut self, _marks: &[MarkRef]) -> Result<(), Memory> {
        Ok(())
    }

    fn meet_heading(&mut self, _level: u8, _marks: &[MarkRef]) -> Result<(), Memory> {
        Ok(())
    }
}

/// A title's bytes are those of its characters, as of any text.
pub(crate) fn title_is_text(title: &Option<Text>)
    ensures { read_again title.now ≡ title.now }
{
    let Some(title) = title else {
        return;
    };
    let _text = title.get();
}
