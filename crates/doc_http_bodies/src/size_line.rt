//! The line in front of a chunk, which says its size.

ghost use Rattle.std.specs.Prelude.{◌≡◌, ◌<◌, ◌≤◌, ◌+◌, take, drop, length, true, IfSome, not, ◌||◌, ◌==◌};
ghost use Rattle.std.specs.List.{list_all, prefix_len};
ghost use Rattle.std.specs.Char.{is_ascii_hexdigit};
ghost use Rattle.doc_http_bodies.specs.Chunks.{size_of as size_by, size_line as line_at, is_extension as extension_test, begins_extension as begins_by};
ghost use Rattle.doc_http_bodies.specs.Places.{line_end, IsSearched};
ghost use Rattle.doc_http_bodies.specs.StageSteps.{IsLineWithin};

use crate::blanks::is_space_or_tab;
use crate::digits::hexadecimal;
use crate::finding::find;
use crate::slices::front;

/// How many bytes a size line may take, with its CR LF.
pub const LINE_LIMIT: usize = 256;

/// What bytes have for a size line at their front.
#[derive(Clone, Copy)]
pub enum SizeLine {
    /// It doesn't end yet.
    Unfinished,
    Malformed,
    /// Its length with its CR LF, and the size that it says.
    Size { len: usize, size: usize },
}

/// The size line at the front of the text, where no CR LF begins in the first `searched` bytes that it may take.
pub fn size_line(text: &[u8], searched: usize) -> SizeLine
    requires { IsSearched line_end searched (take 256 text.now) }
    ensures line { result ≡ line_at text.now }
    ensures within { IsLineWithin (length text.now) result }
{
    let front = front(text, LINE_LIMIT);
    match find(b"\r\n", front, searched) {
        Some(len) => match size_of(&front[..len]) {
            Some(size) => SizeLine::Size { len: len + 2, size },
            None => SizeLine::Malformed,
        },
        None if front.len() == LINE_LIMIT => SizeLine::Malformed,
        None => SizeLine::Unfinished,
    }
}

/// The size that a line says, which stands without its CR LF.
fn size_of(line: &[u8]) -> Option<usize>
    ensures size { result ≡ size_by line.now }
    ensures bound { IfSome result (λ size. size < 4294967296) }
{
    let count = digits_at_front(line);
    if count == 0 || count > 8 || !is_extension(&line[count..]) {
        return None;
    }
    Some(hexadecimal(&line[..count]))
}

/// How many hexadecimal digits stand at the front.
fn digits_at_front(line: &[u8]) -> usize
    ensures count { result ≡ prefix_len is_ascii_hexdigit line.now }
    ensures within { result ≤ length line.now }
{
    line.iter()
        .take_while(|byte| byte.is_ascii_hexdigit())
        .count()
}

/// Whether what stands behind a size is an extension, or nothing.
fn is_extension(text: &[u8]) -> bool
    ensures { result ≡ extension_test text.now }
{
    let Some((first, rest)) = text.split_first() else {
        return true;
    };
    begins_extension(*first) && has_no_line_end(rest)
}

/// Whether the byte may begin an extension: `;`, space or tab.
fn begins_extension(byte: u8) -> bool
    ensures { result ≡ begins_by byte }
{
    byte == b';' || is_space_or_tab(byte)
}

/// Whether the text has neither CR nor LF.
fn has_no_line_end(text: &[u8]) -> bool
    ensures { result ≡ list_all (λ byte. not (byte == 13 || byte == 10)) text.now }
{
    text.iter().all(|byte| !(*byte == b'\r' || *byte == b'\n'))
}
