//! The reply with the style sheet of people's pages.

ghost use Rattle.std.specs.Prelude.{◌≡◌, ◌++◌, IfOk, OnOk, string_bytes};
ghost use Rattle.doc_http_replies.specs.PeopleReplies.{sheet_cache_line, style_sheet_bytes, style_sheet_lines};

use crate::ending::with_content;
use crate::lines::{
    HEAD_ROOM, push_close, push_field, push_nosniff, push_status_line, push_typed_lines,
};
use doc_page_parts::bytes::Bytes;
use doc_page_parts::failure::Memory;
use doc_page_parts::heap::{Heap, String};

/// The bytes of the reply with a style sheet, which is copied once, and not at all with `head_only`. It is the same for all who ask.
#[tactic(auto, unfolding(crate::specs::PeopleReplies::style_sheet_bytes))]
pub fn write_style_sheet(
    heap: Heap,
    sheet: &[u8],
    head_only: bool,
    close: bool,
) -> Result<Bytes, Memory>
    ensures { IfOk result (λ bytes. bytes ≡ style_sheet_bytes sheet.now head_only close) }
{
    let content = if head_only { 0 } else { sheet.len() };
    let mut out = String::with_capacity(heap, HEAD_ROOM.saturating_add(content))?;
    push_status_line(&mut out, 200)?;
    push_lines(&mut out, sheet, close)?;
    out.push_str("\r\n")?;
    with_content(out, sheet, head_only)
}

/// Adds the field lines.
fn push_lines(out: &mut String, sheet: &[u8], close: bool) -> Result<(), Memory>
    ensures { OnOk result (string_bytes out.new
        ≡ string_bytes out.old ++ style_sheet_lines sheet.now close) }
{
    push_typed_lines(out, "text/css; charset=utf-8", sheet)?;
    push_nosniff(out)?;
    push_sheet_cache(out)?;
    push_close(out, close)
}

/// Adds that any cache may keep it, for a day.
#[tactic(auto, unfolding(crate::specs::PeopleReplies::sheet_cache_line))]
fn push_sheet_cache(out: &mut String) -> Result<(), Memory>
    ensures { OnOk result (string_bytes out.new ≡ string_bytes out.old ++ sheet_cache_line) }
{
    push_field(out, "Cache-Control", "public, max-age=86400")
}
