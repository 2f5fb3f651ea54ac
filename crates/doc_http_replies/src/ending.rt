//! The end of a reply that is written.

ghost use Rattle.std.specs.Prelude.{◌≡◌, ◌++◌, not, IfOk, string_bytes};
ghost use Rattle.doc_http_replies.specs.Replies.{where_true};

use doc_page_parts::bytes::Bytes;
use doc_page_parts::failure::Memory;
use doc_page_parts::heap::String;

/// The head, and the content behind it, where more than the head is asked for.
pub fn with_content(head: String, content: &[u8], head_only: bool) -> Result<Bytes, Memory>
    ensures { IfOk result (λ bytes. bytes
        ≡ string_bytes head ++ where_true (not head_only) content.now) }
{
    let mut out = head.into_bytes();
    if !head_only {
        out.extend_from_slice(content)?;
    }
    Ok(Bytes::new(out))
}
