//! Kinds of media.

ghost use Rattle.std.specs.Prelude.{◌≡◌};
ghost use Rattle.std.specs.Str.{str_eq_ignore_ascii_case};
ghost use Rattle.doc_media.specs.Kinds.{content_type, kind_in, kind_named, kind_of, manner_of, rows_of};

use crate::extension::extension_of;
use crate::manner::Manner;
use doc_page_parts::path::Path;

/// The kind of a medium.
#[derive(Clone, Copy, Debug, PartialEq, Eq)]
pub enum MediaKind {
    Png,
    Gif,
    Webp,
    Avif,
    /// With the extension `jpg` or `jpeg`.
    Jpeg,
    Ico,
    Svg,
    Pdf,
    Txt,
    Csv,
    Json,
    Zip,
    Gz,
    Docx,
    Xlsx,
    Pptx,
}

/// The extensions of media, each with the kind that it names.
const EXTENSIONS: &[(&str, MediaKind)] = &[
    ("png", MediaKind::Png),
    ("gif", MediaKind::Gif),
    ("webp", MediaKind::Webp),
    ("avif", MediaKind::Avif),
    ("jpg", MediaKind::Jpeg),
    ("jpeg", MediaKind::Jpeg),
    ("ico", MediaKind::Ico),
    ("svg", MediaKind::Svg),
    ("pdf", MediaKind::Pdf),
    ("txt", MediaKind::Txt),
    ("csv", MediaKind::Csv),
    ("json", MediaKind::Json),
    ("zip", MediaKind::Zip),
    ("gz", MediaKind::Gz),
    ("docx", MediaKind::Docx),
    ("xlsx", MediaKind::Xlsx),
    ("pptx", MediaKind::Pptx),
];

impl MediaKind {
    /// The kind of the medium that stands under a path, by the extension of the path's last part. `None` where that names
    /// no kind: then no medium can stand there.
    #[tactic(auto, unfolding(crate::specs::Kinds::kind_of))]
    pub fn of(path: &Path) -> Option<MediaKind>
        ensures { result ≡ kind_of path.now }
    {
        kind_named(extension_of(path.text())?)
    }

    /// The media type, as the field Content-Type has it.
    pub fn content_type(self) -> &'static str
        ensures { result.now ≡ content_type self }
    {
        match self {
            MediaKind::Png => "image/png",
            MediaKind::Gif => "image/gif",
            MediaKind::Webp => "image/webp",
            MediaKind::Avif => "image/avif",
            MediaKind::Jpeg => "image/jpeg",
            MediaKind::Ico => "image/vnd.microsoft.icon",
            MediaKind::Svg => "image/svg+xml",
            MediaKind::Pdf => "application/pdf",
            MediaKind::Txt => "text/plain; charset=utf-8",
            MediaKind::Csv => "text/csv; charset=utf-8",
            MediaKind::Json => "application/json",
            MediaKind::Zip => "application/zip",
            MediaKind::Gz => "application/gzip",
            MediaKind::Docx => {
                "application/vnd.openxmlformats-officedocument.wordprocessingml.document"
            }
            MediaKind::Xlsx => "application/vnd.openxmlformats-officedocument.spreadsheetml.sheet",
            MediaKind::Pptx => {
                "application/vnd.openxmlformats-officedocument.presentationml.presentation"
            }
        }
    }

    /// How a browser is to take a medium of this kind.
    pub fn manner(self) -> Manner
        ensures { result ≡ manner_of self }
    {
        match self {
            MediaKind::Svg => Manner::Boxed,
            MediaKind::Csv
            | MediaKind::Json
            | MediaKind::Zip
            | MediaKind::Gz
            | MediaKind::Docx
            | MediaKind::Xlsx
            | MediaKind::Pptx => Manner::Saved,
            MediaKind::Png
            | MediaKind::Gif
            | MediaKind::Webp
            | MediaKind::Avif
            | MediaKind::Jpeg
            | MediaKind::Ico
            | MediaKind::Pdf
            | MediaKind::Txt => Manner::Shown,
        }
    }
}

/// The kind that an extension names, in any case of ASCII letters.
fn kind_named(extension: &str) -> Option<MediaKind>
    ensures { result ≡ kind_named extension.now }
{
    kind_in(EXTENSIONS, extension)
}

/// The kind of the first row whose extension this is, in any case of ASCII letters.
fn kind_in(rows: &[(&str, MediaKind)], extension: &str) -> Option<MediaKind>
    ensures { result ≡ kind_in (rows_of rows.now) extension.now }
{
    for (name, kind) in rows {
        if is_extension(extension, name) {
            return Some(*kind);
        }
    }
    None
}

/// Whether an extension is another, in any case of ASCII letters.
fn is_extension(extension: &str, name: &str) -> bool
    ensures { result ≡ str_eq_ignore_ascii_case extension.now name.now }
{
    extension.eq_ignore_ascii_case(name)
}
