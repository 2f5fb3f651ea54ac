//! Numbers as arguments write them: decimal digits alone. A sign is no digit.

ghost use Rattle.std.specs.Prelude.{◌≡◌};
ghost use Rattle.std.specs.Char.{is_ascii_digit};
ghost use Rattle.std.specs.List.{list_all};
ghost use Rattle.doc_server_arguments.specs.Numbers.{are_digits, count_of, is_pause, pause_of, port_of};

/// The number of digits, where it is below 2^32.
pub(crate) fn count_of(word: &str) -> Option<u32>
    ensures { result ≡ count_of word.now }
{
    if !are_digits(word) {
        return None;
    }
    match word.parse::<u32>() {
        Ok(count) => Some(count),
        Err(_) => None,
    }
}

/// Seconds from one look to the next, 1 to 3,600.
pub(crate) fn pause_of(word: &str) -> Option<u32>
    ensures { result ≡ pause_of word.now }
{
    match count_of(word) {
        Some(seconds) if is_pause(seconds) => Some(seconds),
        _ => None,
    }
}

fn is_pause(seconds: u32) -> bool
    ensures { result ≡ is_pause seconds }
{
    1 <= seconds && seconds <= 3_600
}

/// The number of digits, where it is below 2^16.
pub(crate) fn port_of(word: &str) -> Option<u16>
    ensures { result ≡ port_of word.now }
{
    if !are_digits(word) {
        return None;
    }
    match word.parse::<u16>() {
        Ok(port) => Some(port),
        Err(_) => None,
    }
}

fn are_digits(word: &str) -> bool
    ensures { result ≡ are_digits word.now }
{
    !word.is_empty() && all_digits(word.as_bytes())
}

fn all_digits(word: &[u8]) -> bool
    ensures { result ≡ list_all is_ascii_digit word.now }
{
    word.iter().all(|byte| byte.is_ascii_digit())
}
