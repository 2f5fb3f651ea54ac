//! The bounds of a server that runs.

ghost use Rattle.std.specs.Prelude.{◌≡◌};
ghost use Rattle.toml.specs.Data.{get_member};
ghost use Rattle.toml.specs.View.{table_view};
ghost use Rattle.doc_server_config.specs.Bounds.{bounds_of, bounds_in, within};
ghost use Rattle.doc_server_config.specs.BoundSteps.{number_at};

use crate::listening::ListeningError;
use crate::table::{has_only, value_at};
use toml::{Table, Value};

/// The keys of the table `listen`.
const KEYS: [&str; 6] = [
    "connections",
    "idle_seconds",
    "media_bytes",
    "stranger_seconds",
    "request_seconds",
    "follow_millis",
];

/// How many connections stand at most, where a configuration doesn't say.
const CONNECTIONS: u32 = 1_024;

/// After how many seconds without a byte a connection ends, where a configuration doesn't say.
const IDLE_SECONDS: u32 = 30;

/// How many bytes the media of folders may have together, where a configuration doesn't say.
const MEDIA_BYTES: u32 = 67_108_864;

/// For how many seconds a peer may be a stranger, where a configuration doesn't say.
const STRANGER_SECONDS: u32 = 5;

/// How many seconds a request may take to come, where a configuration doesn't say.
const REQUEST_SECONDS: u32 = 60;

/// How many milliseconds a server that follows another waits at most before it looks, where a configuration doesn't say.
const FOLLOW_MILLIS: u32 = 20;

/// How many connections may be asked for.
const MOST_CONNECTIONS: u32 = 65_535;

/// How many seconds may be asked for: a day.
const MOST_SECONDS: u32 = 86_400;

/// How many milliseconds may be asked for: ten seconds.
const MOST_MILLIS: u32 = 10_000;

/// How many bytes of media may be asked for: 1 GiB.
const MOST_MEDIA_BYTES: u32 = 1_073_741_824;

/// The bounds of a server that runs.
#[derive(Clone, Copy)]
pub struct Bounds {
    /// How many connections stand at most.
    pub connections: usize,
    /// After how many seconds without a byte a connection ends.
    pub idle_seconds: u64,
    /// How many bytes the media of folders have together at most.
    pub media_bytes: usize,
    /// After how many seconds a connection ends on which nothing was answered but what whoever asks is given.
    pub stranger_seconds: u64,
    /// After how many seconds a connection ends whose request isn't whole.
    pub request_seconds: u64,
    /// How many milliseconds a server that follows another waits at most before it looks.
    pub follow_millis: u64,
}

/// The bounds of a document, or the first refusal.
pub(crate) fn bounds_in(document: &Table) -> Result<Bounds, ListeningError>
    ensures { result ≡ bounds_in (table_view document.now) }
{
    let Some(value) = value_at(document, "listen") else {
        return Ok(Bounds {
            connections: CONNECTIONS as usize,
            idle_seconds: IDLE_SECONDS as u64,
            media_bytes: MEDIA_BYTES as usize,
            stranger_seconds: STRANGER_SECONDS as u64,
            request_seconds: REQUEST_SECONDS as u64,
            follow_millis: FOLLOW_MILLIS as u64,
        });
    };
    match value.as_table() {
        Some(table) => bounds_of(table),
        None => Err(ListeningError::BadListen),
    }
}

/// The bounds that a table is.
fn bounds_of(table: &Table) -> Result<Bounds, ListeningError>
    ensures { result ≡ bounds_of (table_view table.now) }
{
    if !has_only(table, &KEYS) {
        return Err(ListeningError::BadListen);
    }
    let Some(connections) = number_at(table, "connections", MOST_CONNECTIONS, CONNECTIONS) else {
        return Err(ListeningError::BadConnections);
    };
    let Some(idle_seconds) = number_at(table, "idle_seconds", MOST_SECONDS, IDLE_SECONDS) else {
        return Err(ListeningError::BadIdleSeconds);
    };
    let Some(media_bytes) = number_at(table, "media_bytes", MOST_MEDIA_BYTES, MEDIA_BYTES) else {
        return Err(ListeningError::BadMediaBytes);
    };
    let Some(stranger_seconds) = number_at(
        table,
        "stranger_seconds",
        MOST_SECONDS,
        STRANGER_SECONDS,
    ) else {
        return Err(ListeningError::BadStrangerSeconds);
    };
    let Some(request_seconds) = number_at(table, "request_seconds", MOST_SECONDS, REQUEST_SECONDS)
    else {
        return Err(ListeningError::BadRequestSeconds);
    };
    let Some(follow_millis) = number_at(table, "follow_millis", MOST_MILLIS, FOLLOW_MILLIS) else {
        return Err(ListeningError::BadFollowMillis);
    };
    Ok(Bounds {
        connections: connections as usize,
        idle_seconds: idle_seconds as u64,
        media_bytes: media_bytes as usize,
        stranger_seconds: stranger_seconds as u64,
        request_seconds: request_seconds as u64,
        follow_millis: follow_millis as u64,
    })
}

/// The number that a key holds, from 1 to a bound, or the one that stands for it where the key is missing.
fn number_at(table: &Table, key: &str, most: u32, missing: u32) -> Option<u32>
    ensures { result ≡ number_at most missing (get_member key.now (table_view table.now)) }
{
    match value_at(table, key) {
        None => Some(missing),
        Some(value) => within(most, value.as_integer()?),
    }
}

/// A number from 1 to a bound.
pub fn within(most: u32, number: i64) -> Option<u32>
    ensures { result ≡ within most number }
{
    if number < 1 || number > most as i64 {
        return None;
    }
    Some(number as u32)
}
