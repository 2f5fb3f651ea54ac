//! After how long peers are let go.

/// How many sweeps a second has at most.
pub const SWEEPS_A_SECOND: u64 = 4;

/// After how many seconds peers are let go. They are counted in sweeps.
#[derive(Clone, Copy)]
pub struct Limits {
    /// Behind the last byte that passed.
    pub idle_seconds: u64,
    /// Behind the moment at which a peer was accepted, while it is a stranger.
    pub stranger_seconds: u64,
    /// Behind the first byte of a request that isn't whole.
    pub request_seconds: u64,
}
