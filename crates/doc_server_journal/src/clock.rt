//! The time of records.

use std::rt::Clock;
use std::time::SystemTime;

/// How many seconds the clock has behind the beginning of 1970; 0 where it has none.
pub fn seconds_of<R: Clock>(rt: &R) -> u64 {
    let Ok(now) = SystemTime::now(rt) else {
        return 0;
    };
    match now.duration_since(SystemTime::UNIX_EPOCH) {
        Ok(since) => since.as_secs(),
        Err(_) => 0,
    }
}
