//! What a request asks of the source of a page, as a type.

use doc_http_replies::reply::Allow;

/// What a request asks of the source of a page. REST is what follows the second `/` of its target's path, as it is written there.
#[derive(Clone, Copy)]
pub enum EditRequest<'a> {
    /// GET and HEAD of `/source/REST`: the text of a page.
    ReadSource(&'a str),
    /// PUT of `/source/REST`: the body becomes the text of a page.
    PutSource(&'a str),
    /// The same at `/page/REST`.
    PutPage(&'a str),
    /// DELETE of `/source/REST` or of `/page/REST`.
    Remove(&'a str),
    /// PUT of `/groups/REST`: the groups of a page.
    Regroup(&'a str),
    /// PUT of `/move/REST`: the path of a page.
    Move(&'a str),
    /// GET and HEAD of `/edit/REST`: the form that edits a page. REST may be empty.
    Open(&'a str),
    /// POST of `/preview/REST`: what a text would look like there.
    Preview(&'a str),
    /// A method that the resource hasn't.
    NotAllowed(Allow),
}
