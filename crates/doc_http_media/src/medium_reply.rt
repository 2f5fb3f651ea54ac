//! Replies that are a medium.

ghost use Rattle.std.specs.Prelude.{◌≡◌, ◌++◌, not, IfOk, OnOk, string_bytes};
ghost use Rattle.doc_http_replies.specs.Heads.{head_of};
ghost use Rattle.doc_http_replies.specs.Replies.{where_true};
ghost use Rattle.doc_http_media.specs.MediumReplies.{medium_bytes, medium_lines};
ghost use Rattle.doc_http_media.specs.MediumSteps.{medium_with};

use crate::lines::{
    push_box, push_close, push_nosniff, push_private, push_saved, push_status_line,
    push_typed_lines,
};
use doc_page_parts::bytes::Bytes;
use doc_page_parts::failure::Memory;
use doc_page_parts::heap::{Heap, String};

/// Room for the head, with each line that it may have, but for the type.
const HEAD_ROOM: usize = 384;

/// A reply that is a medium, its parts borrowed.
#[derive(Clone, Copy)]
pub struct MediumParts<'a> {
    /// The media type: the value of Content-Type, whose bytes are written as they are.
    pub kind: &'a str,
    /// Whether a browser is to keep what stands in it from running and from loading anything.
    pub boxed: bool,
    /// Whether a browser is to save it.
    pub saved: bool,
    /// Whether no shared cache keeps it.
    pub private: bool,
    pub body: &'a [u8],
}

impl MediumParts<'_> {
    /// The bytes of the reply. The medium is copied once, and not at all with `head_only`.
    #[tactic(auto, unfolding(crate::specs::MediumReplies::medium_bytes))]
    pub fn write(&self, heap: Heap, head_only: bool, close: bool) -> Result<Bytes, Memory>
        ensures { IfOk result
            (λ bytes. bytes ≡ medium_bytes (medium_with self.now) head_only close) }
    {
        let mut out = String::with_capacity(heap, self.room(head_only))?;
        self.push_head(&mut out, close)?;
        with_content(out, self.body, head_only)
    }

    /// Room for the reply, for which no growth is needed as it is written.
    fn room(&self, head_only: bool) -> usize {
        let content = if head_only { 0 } else { self.body.len() };
        HEAD_ROOM
            .saturating_add(self.kind.len())
            .saturating_add(content)
    }

    /// Adds the head, with the empty line that ends it.
    fn push_head(&self, out: &mut String, close: bool) -> Result<(), Memory>
        ensures { OnOk result (string_bytes out.new ≡ string_bytes out.old
            ++ head_of 200 (medium_lines (medium_with self.now) close)) }
    {
        push_status_line(out)?;
        self.push_lines(out, close)?;
        out.push_str("\r\n")?;
        Ok(())
    }

    /// Adds the field lines.
    fn push_lines(&self, out: &mut String, close: bool) -> Result<(), Memory>
        ensures { OnOk result (string_bytes out.new
            ≡ string_bytes out.old ++ medium_lines (medium_with self.now) close) }
    {
        push_typed_lines(out, self.kind, self.body)?;
        push_box(out, self.boxed)?;
        push_nosniff(out)?;
        push_saved(out, self.saved)?;
        push_private(out, self.private)?;
        push_close(out, close)
    }
}

/// The head, and the content behind it, where more than the head is asked for.
fn with_content(head: String, content: &[u8], head_only: bool) -> Result<Bytes, Memory>
    ensures { IfOk result (λ bytes. bytes
        ≡ string_bytes head ++ where_true (not head_only) content.now) }
{
    let mut out = head.into_bytes();
    if !head_only {
        out.extend_from_slice(content)?;
    }
    Ok(Bytes::new(out))
}
