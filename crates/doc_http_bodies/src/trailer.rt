//! The trailer behind the last chunk.

ghost use Rattle.std.specs.Prelude.{◌≡◌, ◌≤◌, length, IfSome};
ghost use Rattle.doc_http_bodies.specs.Chunks.{trailer_len as len_of};
ghost use Rattle.doc_http_bodies.specs.Places.{blank_line, IsSearched};

use crate::finding::lines_len;

/// The length of the trailer at the front of the text, with the empty line that ends it, where no CR LF CR LF begins
/// in the first `searched` bytes.
pub fn trailer_len(text: &[u8], searched: usize) -> Option<usize>
    requires { IsSearched blank_line searched text.now }
    ensures len { result ≡ len_of text.now }
    ensures within { IfSome result (λ len. len ≤ length text.now) }
{
    if text.starts_with(b"\r\n") {
        return Some(2);
    }
    lines_len(text, searched)
}
