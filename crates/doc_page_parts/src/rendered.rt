//! What a renderer makes of a text.

use crate::list::List;
use crate::text::Text;

/// The place of a link's opening tag in a page. The tag itself depends on what the reader sees.
#[derive(Debug, Drop)]
pub struct LinkSpot {
    /// The destination, with its escapes and character references read.
    pub dest: Text,
    /// The title, likewise. `[a](b "")` has the empty one.
    pub title: Option<Text>,
}

/// A piece of a page.
#[derive(Debug, Drop)]
pub enum Piece {
    /// HTML that is the same for every reader.
    Html(Text),
    /// The opening tag of a link.
    Link(LinkSpot),
}

/// A heading of a page.
#[derive(Debug, Drop)]
pub struct Heading {
    /// From 1 to 6, as in `<h1>` to `<h6>`.
    pub level: u8,
    /// The value of the heading's `id`, not escaped.
    pub anchor: Text,
    /// The plain text, not escaped.
    pub text: Text,
}

/// A page, rendered once for all readers.
#[derive(Debug, Drop)]
pub struct Rendered {
    /// In order. No `Html` is empty, and no two stand side by side.
    pub pieces: List<Piece>,
    /// In order.
    pub headings: List<Heading>,
    /// The plain text of each block of text, in order, not escaped.
    pub texts: List<Text>,
    /// The destination of each image, in order, with its escapes and character references read, where the renderer tells them. An image in
    /// the text of another one is no image of the page.
    pub images: List<Text>,
}
