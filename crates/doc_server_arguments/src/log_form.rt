//! The forms of the log.

/// How a request is logged.
#[derive(Clone, Copy, Debug, PartialEq, Eq)]
pub enum LogForm {
    /// Six fields with a space between.
    Plain,
    /// A JSON object a line.
    Json,
}
