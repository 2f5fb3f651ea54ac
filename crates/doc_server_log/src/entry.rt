//! What a line of the log tells.

use crate::moment::Moment;
use crate::reader::Reader;

/// A request that was answered, as a line tells of it. There is no place in it for a field of the request's head.
#[derive(Clone, Copy, Debug)]
pub struct Entry<'a> {
    /// When the first reply of the turn had been handed over; `None` where the clock failed.
    pub time: Option<Moment>,
    /// The number of the connection.
    pub connection: u64,
    pub reader: Reader<'a>,
    /// The method as it came.
    pub method: &'a str,
    /// The target as it came, its query too.
    pub target: &'a str,
    /// The code of the reply's status line.
    pub code: u16,
    /// How many bytes the reply has, its head among them.
    pub bytes: usize,
    /// For how many microseconds the request has waited for its reply.
    pub micros: u128,
}
