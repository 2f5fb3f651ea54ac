//! A reply of status 200 whose content is made of texts that lie apart.

ghost use Rattle.std.specs.Prelude.{◌≡◌, ◌+◌, ◌++◌, List, ℕ, length, IfOk, OnOk, string_bytes};
ghost use Rattle.doc_http_replies.specs.Heads.{dressed_bytes, dressed_head, dressed_lines};
ghost use Rattle.doc_http_replies.specs.Manners.{dress_of};
ghost use Rattle.doc_http_replies.specs.PieceSteps.{content_in};
ghost use Rattle.doc_http_replies.specs.ReplyForms.{content_reply};
ghost use Rattle.doc_http_replies.specs.Replies.{content_lines};

use crate::challenges::push_challenges;
use crate::lines::{
    GUARD_ROOM, HEAD_ROOM, push_close, push_field, push_guards, push_length, push_status_line,
};
use crate::manner::Manner;
use crate::reply_parts::content_type;
use doc_page_parts::bytes::Bytes;
use doc_page_parts::failure::Memory;
use doc_page_parts::heap::{Heap, String};
use doc_page_parts::text::Text;

/// A content whose texts lie apart.
#[derive(Clone, Copy)]
pub struct Pieces<'a> {
    /// What stands in front.
    pub front: &'a str,
    /// The texts, each behind the one before.
    pub texts: &'a [&'a Text],
    /// What stands behind them.
    pub end: &'a str,
}

/// The bytes of a reply of status 200 round these texts, each of which is copied once, into one buffer; and none where the manner is the
/// head alone.
#[tactic(auto, unfolding(crate::specs::Heads::dressed_bytes))]
pub fn write_pieces(
    heap: Heap,
    html: bool,
    pieces: &Pieces,
    manner: Manner,
) -> Result<Bytes, Memory>
    ensures { IfOk result (λ bytes. bytes ≡ dressed_bytes (dress_of manner.entry)
        (content_reply html (content_in pieces.now)) manner.entry.head_only manner.entry.close) }
{
    let len = pieces.len()?;
    let content = if manner.head_only { 0 } else { len };
    let room = HEAD_ROOM.saturating_add(GUARD_ROOM).saturating_add(content);
    let mut out = String::with_capacity(heap, room)?;
    push_head(&mut out, html, len, manner)?;
    if !manner.head_only {
        pieces.push(&mut out)?;
    }
    Ok(Bytes::new(out.into_bytes()))
}

impl Pieces<'_> {
    /// How many bytes there are. There is no memory for more than can be counted.
    fn len(&self) -> Result<usize, Memory>
        ensures { IfOk result (λ len. len ≡ length (content_in self.now)) }
    {
        let mut len = self.front.len();
        for text in self.texts {
            len = plus(len, text.get().len())?;
        }
        plus(len, self.end.len())
    }

    /// Adds them.
    fn push(&self, out: &mut String) -> Result<(), Memory>
        ensures { OnOk result (string_bytes out.new ≡ string_bytes out.old ++ content_in self.now) }
    {
        out.push_str(self.front)?;
        for text in self.texts {
            out.push_str(text.get())?;
        }
        out.push_str(self.end)?;
        Ok(())
    }
}

/// The sum of two numbers of bytes.
fn plus(some: usize, more: usize) -> Result<usize, Memory>
    ensures { IfOk result (λ sum. sum ≡ some + more) }
{
    match some.checked_add(more) {
        Some(sum) => Ok(sum),
        None => Err(Memory),
    }
}

/// Adds the head of a reply of status 200 with a content of this length, and the empty line that ends it.
#[tactic(auto, unfolding(crate::specs::Heads::dressed_head))]
fn push_head(out: &mut String, html: bool, len: usize, manner: Manner) -> Result<(), Memory>
    ensures { (body : List ℕ) → len ≡ length body → OnOk result (string_bytes out.new
        ≡ string_bytes out.old
        ++ dressed_head (dress_of manner.entry) (content_reply html body) manner.entry.close) }
{
    push_status_line(out, 200)?;
    push_field_lines(out, html, len, manner)?;
    out.push_str("\r\n")?;
    Ok(())
}

/// Adds the field lines.
fn push_field_lines(out: &mut String, html: bool, len: usize, manner: Manner) -> Result<(), Memory>
    ensures { (body : List ℕ) → len ≡ length body → OnOk result (string_bytes out.new
        ≡ string_bytes out.old
        ++ dressed_lines (dress_of manner.entry) (content_reply html body) manner.entry.close) }
{
    push_content_lines(out, html, len)?;
    push_challenges(out, 200, manner.realm)?;
    push_guards(out, manner.guarded && html, manner.private)?;
    push_close(out, manner.close)
}

/// Adds what says of the content its type and its length.
fn push_content_lines(out: &mut String, html: bool, len: usize) -> Result<(), Memory>
    ensures { (body : List ℕ) → len ≡ length body → OnOk result (string_bytes out.new
        ≡ string_bytes out.old ++ content_lines (content_reply html body)) }
{
    push_field(out, "Content-Type", content_type(html))?;
    push_length(out, len)
}
