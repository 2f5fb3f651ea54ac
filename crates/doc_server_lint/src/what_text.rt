//! What is told, as it is printed.

ghost use Rattle.std.specs.Prelude.{◌≡◌, ◌++◌, OnOk, string_bytes};
ghost use Rattle.doc_server_lint.specs.Lines.{kind_text, meant_text, what_text};

use crate::printed::{push_named, push_numbered};
use doc_page_parts::failure::Memory;
use doc_page_parts::heap::String;
use doc_page_parts::text::Text;
use doc_server_lint_faults::what::{Kind, What};

/// Writes what is told of a key.
pub(crate) fn push_what(out: &mut String, key: &str, what: &What) -> Result<(), Memory>
    ensures { OnOk result (string_bytes out.new
        ≡ string_bytes out.old ++ what_text key.now what.now) }
{
    match what {
        What::MustBe(kind) => {
            push_named(out, "`", key, "` must be ")?;
            push_kind(out, *kind)
        }
        What::Bad => push_named(out, "`", key, "` is bad"),
        What::Missing => push_named(out, "no `", key, "`"),
        What::Unknown(other) => {
            push_named(out, "unknown key `", key, "`")?;
            push_meant(out, other)
        }
        What::NoToken => push_named(out, "`", key, "` is no bearer token"),
        What::TokenOf(reader) => push_numbered(out, "the token of reader ", *reader, ""),
        What::ShortToken => push(out, "a token of fewer than 22 characters can be guessed"),
        What::ClearToken => push(
            out,
            "a token in clear text; `docs_server token` makes one that isn't",
        ),
        What::NoName => push_named(
            out,
            "`",
            key,
            "` must be 1 to 32 of a-z, 0-9, `-`, `_`, `.` and `@`",
        ),
        What::NoReaders => push(out, "no readers"),
        What::NoOwner => push(out, "no owner"),
        What::NoGroup(name) => {
            push_named(out, "`", key, "`: \"")?;
            push_named(out, "", name.get(), "\" is no name of a group")
        }
        What::ManyGroups => push_named(out, "`", key, "`: more than 32"),
        What::Unheld(name) => push_named(out, "a group that no reader has: ", name.get(), ""),
        What::NoPath => push_named(out, "`", key, "` is no path of a page"),
        What::NoSource => push(out, "neither `text` nor `file`"),
        What::TwoSources => push(out, "both `text` and `file`"),
        What::TwoTokens => push(out, "both `token` and `token_sha256`"),
        What::LongText => push_named(out, "`", key, "` has more than 1048576 bytes"),
        What::Covers(page) => push_numbered(
            out,
            "the path of page ",
            *page,
            ", which this one covers",
        ),
        What::ManyPages => push(out, "more than 10000 pages"),
        What::NotUtf8 => push(out, "not UTF-8"),
        What::CannotRead(file, reason) => {
            push_named(out, "cannot read ", file.get(), ": ")?;
            push_named(out, "", reason.get(), "")
        }
        What::PathOfPage(path, page) => {
            push_named(out, "", path.get(), ": the path of page ")?;
            push_numbered(out, "", *page, "")
        }
        What::PathOfFolder(path, folder) => {
            push_named(out, "", path.get(), ": a page of folder ")?;
            push_numbered(out, "", *folder, "")
        }
        What::BadRow(line) => push_numbered(out, "line ", *line, ": bad row"),
        What::NameAgain(line) => {
            push_numbered(out, "line ", *line, ": a name that has other characters")
        }
        What::NoPage => push(out, "no page"),
        What::Edited(path) => {
            push_named(
                out,
                "",
                path.get(),
                ": an edit of the journal stands in its place",
            )
        }
        What::Journal(told) => push_named(out, "", told.get(), ""),
    }
}

fn push(out: &mut String, text: &str) -> Result<(), Memory>
    ensures { OnOk result (string_bytes out.new ≡ string_bytes out.old ++ text.now) }
{
    out.push_str(text)?;
    Ok(())
}

/// Writes what a key has to hold.
fn push_kind(out: &mut String, kind: Kind) -> Result<(), Memory>
    ensures { OnOk result (string_bytes out.new ≡ string_bytes out.old ++ kind_text kind) }
{
    match kind {
        Kind::Boolean => push(out, "a boolean"),
        Kind::Text => push(out, "a string"),
        Kind::Texts => push(out, "an array of strings"),
        Kind::Integer(most) => push_numbered(out, "an integer from 1 to ", most as usize, ""),
        Kind::Table => push(out, "a table"),
        Kind::Tables => push(out, "an array of tables"),
    }
}

/// Writes the key that may be meant.
fn push_meant(out: &mut String, other: &Option<Text>) -> Result<(), Memory>
    ensures { OnOk result (string_bytes out.new ≡ string_bytes out.old ++ meant_text other.now) }
{
    match other {
        Some(other) => push_named(out, ": is `", other.get(), "` meant?"),
        None => Ok(()),
    }
}
