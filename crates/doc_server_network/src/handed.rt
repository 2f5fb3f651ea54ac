//! A reply that was handed over.

ghost use Rattle.std.specs.Prelude.{◌≡◌, ◌≤◌, length};

/// A reply that was handed over.
#[derive(Clone, Copy)]
pub struct Handed {
    /// The code of its status line, 0 where it has none.
    pub code: u16,
    /// How many bytes it has, its head among them.
    pub bytes: usize,
}

impl Handed {
    /// The reply of these bytes.
    pub fn of(reply: &[u8]) -> Handed
        ensures { result.bytes ≡ length reply.now }
    {
        Handed {
            code: code_of(reply),
            bytes: reply.len(),
        }
    }
}

/// The code of a reply's status line, `HTTP/1.1 ` and three digits (RFC 9112, section 4); 0 where there is none.
fn code_of(reply: &[u8]) -> u16 {
    match reply {
        [_, _, _, _, _, _, _, _, b' ', first, second, third, ..] => {
            100 * digit_of(*first) + 10 * digit_of(*second) + digit_of(*third)
        }
        _ => 0,
    }
}

/// What a digit stands for; 0 of any other byte.
fn digit_of(byte: u8) -> u16
    ensures { result ≤ 9 }
{
    match byte {
        b'0'..=b'9' => u16::from(byte - b'0'),
        _ => 0,
    }
}
