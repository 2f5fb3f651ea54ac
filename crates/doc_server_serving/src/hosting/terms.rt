//! How a site is served.

use doc_server_turns::limits::Limits;

/// How a site is served.
#[derive(Clone, Copy, Drop)]
pub struct Terms<'a> {
    /// The name of its journal; none, and edits hold until the server ends.
    pub journal: Option<&'a str>,
    /// How many connections there are at most at once.
    pub connections: usize,
    /// After how long connections end.
    pub limits: Limits,
    /// How many milliseconds the network is waited for at most where another server is followed.
    pub follow_millis: u64,
}
