//! Why files of folders are bad.

ghost use Rattle.std.specs.Prelude.{◌≡◌, ◌≢◌, false, length};
ghost use Rattle.std.specs.List.{list_all};
ghost use Rattle.std.specs.Str.{chars};
ghost use Rattle.doc_page_parts.specs.Paths.{segments};
ghost use Rattle.doc_server_config.specs.Reasons.{is_of_path, is_plain_char, path_reason};

use crate::browsing_texts::has_no_controls;
use doc_page_parts::text::Text;
use std::error::Error;
use std::fmt;
use std::io::ErrorKind;

/// How many parts a path has at most.
const PARTS: usize = 16;

/// Why a file of a folder is bad: the first of these that holds.
#[derive(Debug, Drop)]
pub enum Reason {
    /// Its path has a `\`, `%`, `?` or `#`.
    BadCharacter,
    /// Its path has a control character.
    Control,
    /// Its path has more than 16 parts.
    ManyParts,
    /// Its path has more than 200 bytes.
    LongPath,
    /// There is no such file.
    Absent,
    /// The system doesn't allow it to be read.
    Denied,
    /// It is a folder.
    IsFolder,
    /// The system doesn't give it, for some other reason.
    Unread,
    /// It is a page of more than 1,048,576 bytes.
    LongPage,
    /// It is a page, and no UTF-8.
    NoText,
    /// It is a medium of more than 8,388,608 bytes.
    LongMedium,
    /// A file of the folder before it has the same path: the one of this name.
    PathOf(Text),
    /// The site has no room for another page.
    ManyPages,
    /// The site has no room for another medium.
    ManyMedia,
    /// With it the media of the site would have more bytes together than they may.
    MuchMedia(usize),
}

impl fmt::Display for Reason {
    fn fmt<W: fmt::Write>(&self, f: &mut fmt::Formatter<W>) -> fmt::Result {
        let text = match self {
            Reason::BadCharacter => "a path has no \\, %, ? or #",
            Reason::Control => "a path has no control character",
            Reason::ManyParts => "a path has at most 16 parts",
            Reason::LongPath => "a path has at most 200 bytes",
            Reason::Absent => "no such file",
            Reason::Denied => "permission denied",
            Reason::IsFolder => "a folder",
            Reason::Unread => "cannot be read",
            Reason::LongPage => "more than 1048576 bytes",
            Reason::NoText => "not UTF-8",
            Reason::LongMedium => "more than 8388608 bytes",
            Reason::PathOf(first) => return write!(f, "its path is that of {}", first.get()),
            Reason::ManyPages => "more than 10000 pages",
            Reason::ManyMedia => "more than 10000 media",
            Reason::MuchMedia(bytes) => {
                return write!(f, "media of more than {bytes} bytes together");
            }
        };
        f.write_str(text)
    }
}

impl Error for Reason {}

/// Why a text is no path, where each of its parts could stand in one.
pub(crate) fn path_reason(text: &str) -> Reason
    ensures { result ≡ path_reason text.now }
{
    if !has_plain_characters(text) {
        return Reason::BadCharacter;
    }
    if !has_no_controls(text) {
        return Reason::Control;
    }
    if part_count(text) > PARTS {
        return Reason::ManyParts;
    }
    Reason::LongPath
}

fn has_plain_characters(text: &str) -> bool
    ensures { result ≡ list_all is_plain_char (chars text.now) }
{
    text.chars().all(is_plain_char)
}

fn is_plain_char(c: char) -> bool
    ensures { result ≡ is_plain_char c }
{
    !(c == '\\' || c == '%' || c == '?' || c == '#')
}

fn part_count(text: &str) -> usize
    ensures { result ≡ length (segments text.now) }
{
    text.split('/').count()
}

/// Why the system opens no file.
pub fn open_reason(kind: ErrorKind) -> Reason
    ensures absent { kind ≡ ErrorKind.NotFound → result ≡ Reason.Absent }
    ensures denied { kind ≡ ErrorKind.PermissionDenied → result ≡ Reason.Denied }
    ensures folder { kind ≡ ErrorKind.IsADirectory → result ≡ Reason.IsFolder }
    ensures other { is_of_path result ≡ false }
{
    match kind {
        ErrorKind::NotFound => Reason::Absent,
        ErrorKind::PermissionDenied => Reason::Denied,
        ErrorKind::IsADirectory => Reason::IsFolder,
        _ => Reason::Unread,
    }
}
