//! A door of its own for those who run the server: whether it turns, how far its journal is, and counters for Prometheus. A reply there
//! is a function of the request line and of counters: there is no page, no reader and no token in it.
#![tactic(auto)]

pub mod counters;
pub mod cut;
pub mod door;
mod head;
pub mod identity;
mod metrics;
mod record;
pub mod replies;
mod request_line;
pub mod standing;
mod target;
mod wanted;
