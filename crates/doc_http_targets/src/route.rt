//! What a target asks for.

/// What a target asks for. REST is what follows the second `/` of its path, as it is written there; it isn't empty.
#[derive(Clone, Copy, Debug, PartialEq, Eq)]
pub enum Route<'a> {
    /// `/page/REST`: the page whose path is written as REST.
    Page(&'a str),
    /// `/backlinks/REST`: the pages with links to the page whose path is written as REST.
    Backlinks(&'a str),
    /// `/contents`: the pages and their headings.
    Contents,
    /// `/search`: the pages that have the words of the query.
    Search,
    /// `/broken`: the broken links.
    Broken,
}
