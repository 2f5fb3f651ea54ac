//! Where a text first has some bytes. A search goes on where an earlier one stopped.

ghost use Rattle.std.specs.Prelude.{◌≡◌, ◌<◌, ◌≤◌, ◌+◌, length, IfSome};
ghost use Rattle.doc_http_bodies.specs.Places.{place_of, blank_line, lines_len, IsSearched};

/// Where the text first has the needle, which doesn't begin in its first `searched` bytes.
pub fn find(needle: &[u8], text: &[u8], searched: usize) -> Option<usize>
    requires { IsSearched needle.now searched text.now }
    ensures place { result ≡ place_of needle.now text.now }
    ensures within { IfSome result (λ place. place + length needle.now ≤ length text.now) }
{
    'places: for at in searched..text.len() {
        if text[at..].starts_with(needle) {
            return Some(at);
        }
    }
    None
}

/// The length of the text up to and with the first CR LF CR LF, none of which begins in its first `searched` bytes.
pub fn lines_len(text: &[u8], searched: usize) -> Option<usize>
    requires { IsSearched blank_line searched text.now }
    ensures len { result ≡ lines_len text.now }
    ensures within { IfSome result (λ len. len ≤ length text.now) }
{
    let place = find(b"\r\n\r\n", text, searched)?;
    Some(place + 4)
}
