//! What is replied at the door.

ghost use Rattle.std.specs.Prelude.{◌≡◌, IfOk};
ghost use Rattle.doc_server_status.specs.Door.{is_look, is_read, metrics_said, replied_to, said_at, said_to, status_of, status_reply};
ghost use Rattle.doc_server_status.specs.RequestLines.{asked_in, line_of};

use crate::counters::Counters;
use crate::head::{Shown, reason};
use crate::metrics::push_metrics;
use crate::record::said_record;
use crate::request_line::{RequestLine, read};
use crate::target::{is_health, is_metrics, is_place, wanted_at};
use doc_page_parts::bytes::Bytes;
use doc_page_parts::failure::Memory;
use doc_page_parts::heap::{Heap, String};
use doc_page_parts::text::Text;

/// Room for all metrics.
const METRICS_ROOM: usize = 2_048;

/// The reply to a request of this line, which is given without its end; `None` where it is no request line of at most 1,024 bytes: then the
/// connection is closed. Behind a reply it is closed too.
#[tactic(auto, unfolding(crate::specs::Door::status_reply))]
pub fn status_reply(heap: Heap, line: &[u8], counters: &Counters) -> Result<Option<Bytes>, Memory>
    ensures { IfOk result (λ reply. reply ≡ status_reply line.now counters.now) }
{
    match read(line) {
        Some(asked) => Ok(Some(reply_to(heap, asked, counters)?)),
        None => Ok(None),
    }
}

/// Whether a reply to this line has the metrics, so that they were looked at.
pub fn looks_at_metrics(line: &[u8]) -> bool
    ensures { result ≡ is_look (asked_in line.now) }
{
    match read(line) {
        Some(asked) => is_read(asked.method) && is_metrics(asked.target),
        None => false,
    }
}

/// The reply to what is asked.
#[tactic(auto, unfolding(crate::specs::Door::replied_to))]
fn reply_to(heap: Heap, asked: RequestLine<'_>, counters: &Counters) -> Result<Bytes, Memory>
    ensures { IfOk result (λ bytes. bytes ≡ replied_to (line_of asked.entry) counters.now) }
{
    let said = said_to(heap, asked, counters)?;
    said.write(heap, asked.method == b"HEAD".as_slice())
}

/// What is said to what is asked.
#[tactic(auto, unfolding(crate::specs::Door::said_to))]
fn said_to(heap: Heap, asked: RequestLine<'_>, counters: &Counters) -> Result<Shown, Memory>
    ensures { IfOk result (λ shown. shown ≡ said_to (line_of asked.entry) counters.now) }
{
    if is_read(asked.method) || !is_place(asked.target) {
        return said_at(heap, asked.target, counters);
    }
    status(heap, 405)
}

fn is_read(method: &[u8]) -> bool
    ensures { result ≡ is_read method.now }
{
    method == b"GET".as_slice() || method == b"HEAD".as_slice()
}

/// What is said at a target.
#[tactic(auto, unfolding(crate::specs::Door::said_at))]
fn said_at(heap: Heap, target: &[u8], counters: &Counters) -> Result<Shown, Memory>
    ensures { IfOk result (λ shown. shown ≡ said_at target.now counters.now) }
{
    if is_health(target) {
        return Ok(content(false, Text::copy_of(heap, "ok\n")?));
    }
    if is_metrics(target) {
        return said_metrics(heap, counters);
    }
    match wanted_at(target) {
        Some(wanted) => said_record(heap, &wanted, &counters.standing),
        None => status(heap, 404),
    }
}

fn said_metrics(heap: Heap, counters: &Counters) -> Result<Shown, Memory>
    ensures { IfOk result (λ shown. shown ≡ metrics_said counters.now) }
{
    let mut text = String::with_capacity(heap, METRICS_ROOM)?;
    push_metrics(&mut text, counters)?;
    Ok(content(true, Text::new(text)))
}

/// A content with status 200.
fn content(metrics: bool, content: Text) -> Shown
    ensures { result ≡ record { code = 200; metrics = metrics; content = content } }
{
    Shown {
        code: 200,
        metrics,
        content,
    }
}

/// A status, as a line of its own.
fn status(heap: Heap, code: u16) -> Result<Shown, Memory>
    ensures { IfOk result (λ shown. shown ≡ status_of code) }
{
    Ok(Shown {
        code,
        metrics: false,
        content: Text::new(format!(in heap; "{} {}\n", code, reason(code))?),
    })
}
