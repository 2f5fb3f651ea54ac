//! Runs of ASCII, and those that are words as they stand: of its small letters and digits.

ghost use Rattle.std.specs.Prelude.{◌≡◌, ◌++◌, ◌<◌, ◌≤◌, ◌&&◌, not, true, chars, length, take, IfSome, IsAscii};
ghost use Rattle.std.specs.Char.{is_ascii, is_ascii_alphanumeric};
ghost use Rattle.std.specs.List.{list_all};
ghost use Rattle.doc_words_search.specs.Words.{words_of};
ghost use Rattle.doc_words_search.specs.WordSteps.{IsRun, is_plain, own_word, word_if};

/// The run that a text begins with, which may be empty, and the text behind the character after it: where the run is plain, and
/// ASCII or nothing stands after it.
pub(crate) fn plain_run(text: &str) -> Option<(&str, &str)>
    ensures words { IfSome result (λ run.
        words_of text.now ≡ own_word run.0.now ++ words_of run.1.now) }
    ensures shorter { IfSome result (λ run. 0 < length (chars text.now)
        → length (chars run.1.now) < length (chars text.now)) }
{
    let end = plain_len(text.as_bytes());
    run_to(text, end)
}

/// The same where the run is of ASCII, small or not.
pub(crate) fn ascii_run(text: &str) -> Option<(&str, &str)>
    ensures words { IfSome result (λ run.
        words_of text.now ≡ word_if run.0.now ++ words_of run.1.now) }
    ensures ascii { IfSome result (λ run. IsAscii run.0.now) }
    ensures shorter { IfSome result (λ run. 0 < length (chars text.now)
        → length (chars run.1.now) < length (chars text.now)) }
{
    let end = ascii_len(text.as_bytes());
    run_to(text, end)
}

/// The run of ASCII that ends at a place, and the text behind the character there: where ASCII or nothing stands there and ends it.
fn run_to(text: &str, end: usize) -> Option<(&str, &str)>
    requires within { end ≤ length text.now }
    requires run { IsRun (take end text.now) }
    ensures run { IfSome result (λ run. run.0.now ≡ take end text.now) }
    ensures words { IfSome result (λ run.
        words_of text.now ≡ word_if run.0.now ++ words_of run.1.now) }
    ensures shorter { IfSome result (λ run. 0 < length (chars text.now)
        → length (chars run.1.now) < length (chars text.now)) }
{
    let bytes = text.as_bytes();
    if end == bytes.len() {
        return Some((text, ""));
    }
    if !is_gap(bytes[end]) {
        return None;
    }
    Some((&text[..end], &text[end + 1..]))
}

/// How many small letters and digits stand at the front.
fn plain_len(bytes: &[u8]) -> usize
    ensures within { result ≤ length bytes.now }
    ensures plain { list_all is_plain (take result bytes.now) ≡ true }
{
    for at in 0..bytes.len() {
        if !is_plain(bytes[at]) {
            return at;
        }
    }
    bytes.len()
}

/// How many letters and digits of ASCII stand at the front.
fn ascii_len(bytes: &[u8]) -> usize
    ensures within { result ≤ length bytes.now }
    ensures letters { list_all is_ascii_alphanumeric (take result bytes.now) ≡ true }
{
    for at in 0..bytes.len() {
        if !bytes[at].is_ascii_alphanumeric() {
            return at;
        }
    }
    bytes.len()
}

/// Whether it is one of ASCII's small letters and digits.
fn is_plain(byte: u8) -> bool
    ensures { result ≡ is_plain byte }
{
    byte.is_ascii_lowercase() || byte.is_ascii_digit()
}

/// Whether it is of ASCII, and ends a word.
fn is_gap(byte: u8) -> bool
    ensures { result ≡ (is_ascii byte && not (is_ascii_alphanumeric byte)) }
{
    byte.is_ascii() && !byte.is_ascii_alphanumeric()
}
