//! How media are handed to a browser.

/// How a browser is to take a medium.
#[derive(Clone, Copy, Debug, PartialEq, Eq)]
pub enum Manner {
    /// As it is.
    Shown,
    /// Under a policy that keeps what stands in it from running and from loading anything.
    Boxed,
    /// As a download.
    Saved,
}
