//! Numbers written in digits.

ghost use Rattle.std.specs.Prelude.{◌≡◌, ◌≤◌, ◌<◌, length, true, nat_lt, if◌then◌else◌, Option, Some, None};
ghost use Rattle.std.specs.List.{list_all};
ghost use Rattle.std.specs.Char.{is_ascii_digit, is_ascii_hexdigit, digit_value};
ghost use Rattle.std.specs.Str.Parse.{digits_value};
ghost use Rattle.doc_http_bodies.specs.Framings.{allowed};

use crate::framing::BODY_LIMIT;

/// The length of a body that decimal digits, of any count, write; none where it is more than a body may have.
pub fn length_of_digits(digits: &[u8]) -> Option<usize>
    requires { list_all is_ascii_digit digits.now ≡ true }
    ensures { result ≡ allowed (digits_value 10 digits.now) }
{
    let mut length = 0;
    for digit in digits {
        length = length * 10 + (*digit - b'0') as usize;
        if length > BODY_LIMIT {
            return None;
        }
    }
    Some(length)
}

/// The number that at most 8 hexadecimal digits write.
pub fn hexadecimal(digits: &[u8]) -> usize
    requires digits { list_all is_ascii_hexdigit digits.now ≡ true }
    requires count { length digits.now ≤ 8 }
    ensures value { result ≡ digits_value 16 digits.now }
    ensures bound { result < 4294967296 }
{
    let mut number = 0;
    for digit in digits {
        number = number * 16 + digit_value(*digit);
    }
    number
}

/// The value of a hexadecimal digit.
fn digit_value(digit: u8) -> usize
    requires { is_ascii_hexdigit digit ≡ true }
    ensures value { result ≡ digit_value digit }
    ensures bound { result < 16 }
{
    match digit {
        b'0'..=b'9' => (digit - b'0') as usize,
        b'A'..=b'F' => (digit - b'A') as usize + 10,
        _ => (digit - b'a') as usize + 10,
    }
}
