//! A hub that is saved in a journal, by its calls, without a network.
//!
//! `turns CALLS MOST | BYTES | BYTES ..`: one connection is made, and each text is a turn: its bytes are pushed, steps are made while
//! there is room and a request is whole, and the edits are settled; then the journal's room is seen to, by as much as behind a turn of a
//! server. The file isn't grown past so many bytes; so many calls of it go well, and the next one fails. Afterwards it is what was left.
//! A text `reload LINES` is no turn: the pages that the edits of LINES make of none are loaded, as between two turns.
//!
//! The answer, for each turn and with ` | ` between two: the bytes of its replies, how many bytes of the connection are unread then, and
//! what refused a step, or the settling, or the room: that turn is the last one. Behind a turn that is settled: whether puts are taken, how
//! much room there is, and whether that is enough for removals. Of a reload: how many pages it has put and removed, and how many records
//! the journal has, or why it is refused.

ghost use Rattle.std.specs.Prelude.{◌≡◌, true, IfOk};
ghost use Rattle.doc_server_serving.specs.Saved.{IsAllSaved, IsReady};

use crate::listen::served::{Bounds, saved_over};
use crate::listen::told::push_told;
use crate::serving::compacting::site_of;
use crate::serving::hosted::keep_file;
use doc_hub::event::{ConnId, Step};
use doc_hub::hub::Hub;
use doc_page::renderer::Renderer;
use doc_page_parts::bytes::Bytes;
use doc_page_parts::failure::Memory;
use doc_page_parts::heap::{Heap, String, Vec};
use doc_server_journal::device::Device;
use doc_server_serving::net::lead::Lead;
use doc_server_serving::net::reload_fault::ReloadFault;
use doc_server_serving::net::reloaded::Reloaded;
use doc_server_serving::net::saved_hub::SavedHub;
use doc_server_serving::room::growth;
use trial::answer::no_call;

/// How many steps a turn makes at most.
const STEPS: u32 = 64;

/// Makes turns on a hub that is saved in the file.
pub fn turned<R: Renderer + Drop>(
    heap: Heap,
    hub: Hub<R>,
    given: &str,
    file: &mut Vec<u8>,
) -> Result<String, Memory> {
    let Some((bounds, turns)) = bounds_and_turns(given) else {
        return no_call(heap);
    };
    let Some(mut saved) = saved_over(heap, hub, bounds, file.as_slice()) else {
        return Ok(String::from_str(heap, "refused: no journal")?);
    };
    let mut out = String::new(heap);
    let made = make_turns(heap, &mut saved, turns, &mut out);
    let kept = keep_file(heap, &saved, file);
    drop(saved);
    kept?;
    made?;
    Ok(out)
}

fn bounds_and_turns(given: &str) -> Option<(Bounds, &str)> {
    let (line, turns) = given.split_once(" | ")?;
    let (calls, most) = line.split_once(' ')?;
    let bounds = Bounds {
        connections: 0,
        idle_seconds: 0,
        calls: calls.parse::<u64>().ok()?,
        most: most.parse::<usize>().ok()?,
    };
    Some((bounds, turns))
}

/// Makes the turns of a connection, up to the first that is refused.
fn make_turns<D: Device, R: Renderer + Drop>(
    heap: Heap,
    saved: &mut SavedHub<D, R>,
    turns: &str,
    out: &mut String,
) -> Result<(), Memory>
    requires all { IsAllSaved saved.old }
    requires ready { IsReady D.seen D.may_leave D.failed D.stale saved.old }
{
    let Ok(id) = saved.connect() else {
        return Err(Memory);
    };
    'turns: for text in turns.split(" | ") {
        let goes_on = match text.strip_prefix("reload ") {
            Some(lines) => reload(heap, saved, lines, out)?,
            None => make_turn(heap, saved, id, text, out)?,
        };
        if !goes_on {
            return Ok(());
        }
    }
    let is_dropped = saved.disconnect(id);
    write!(out, "{is_dropped}")?;
    Ok(())
}

/// Makes a turn. False: it was refused.
fn make_turn<D: Device, R: Renderer + Drop>(
    heap: Heap,
    saved: &mut SavedHub<D, R>,
    id: ConnId,
    text: &str,
    out: &mut String,
) -> Result<bool, Memory>
    requires all { IsAllSaved saved.old }
    requires ready { IsReady D.seen D.may_leave D.failed D.stale saved.old }
    ensures { IfOk result (λ goes. goes ≡ true
        → IsAllSaved saved.new × IsReady D.seen D.may_leave D.failed D.stale saved.new) }
{
    if let Err(refusal) = saved.push(id, text.as_bytes()) {
        write!(out, "refused: {refusal}")?;
        return Ok(false);
    }
    let mut replies = Vec::new(heap);
    let stepped = step_all(saved, id, &mut replies, out);
    let told = push_told(out, replies.as_slice());
    drop(replies);
    stepped?;
    told?;
    push_unread(saved, id, out)?;
    settle(heap, saved, out)
}

/// Loads the pages that the edits of lines make of none. False: it has ended the server.
fn reload<D: Device, R: Renderer + Drop>(
    heap: Heap,
    saved: &mut SavedHub<D, R>,
    lines: &str,
    out: &mut String,
) -> Result<bool, Memory>
    requires all { IsAllSaved saved.old }
    requires ready { IsReady D.seen D.may_leave D.failed D.stale saved.old }
    ensures { IfOk result (λ goes. goes ≡ true
        → IsAllSaved saved.new × IsReady D.seen D.may_leave D.failed D.stale saved.new) }
{
    let Some(pages) = site_of(heap, lines)? else {
        out.push_str("no pages | ")?;
        return Ok(true);
    };
    match saved.begin_reload(heap, pages, &None) {
        Ok(begun) => lead(saved, &begun, out),
        Err(ReloadFault::Refused(refusal)) => {
            write!(out, "refused: {refusal} | ")?;
            Ok(true)
        }
        Err(ReloadFault::Ends(fault)) => {
            write!(out, "ended: {fault}")?;
            Ok(false)
        }
    }
}

/// Makes the edits of a reload that has begun. False: it has ended the server.
fn lead<D: Device, R: Renderer + Drop>(
    saved: &mut SavedHub<D, R>,
    begun: &Lead,
    out: &mut String,
) -> Result<bool, Memory>
    requires all { IsAllSaved saved.old }
    requires ready { IsReady D.seen D.may_leave D.failed D.stale saved.old }
    ensures { IfOk result (λ goes. goes ≡ true
        → IsAllSaved saved.new × IsReady D.seen D.may_leave D.failed D.stale saved.new) }
{
    let edits = begun.edits.get();
    match saved.lead(edits) {
        Ok(()) => {
            push_reloaded(out, Reloaded::by(edits, begun.records))?;
            Ok(true)
        }
        Err(fault) => {
            write!(out, "ended: {fault}")?;
            Ok(false)
        }
    }
}

fn push_reloaded(out: &mut String, made: Reloaded) -> Result<(), Memory> {
    let Reloaded {
        put,
        removed,
        records,
    } = made;
    write!(out, "{put} put, {removed} removed, {records} records | ")?;
    Ok(())
}

/// Steps while there is room and a request is whole.
fn step_all<D: Device, R: Renderer + Drop>(
    saved: &mut SavedHub<D, R>,
    id: ConnId,
    replies: &mut Vec<u8>,
    out: &mut String,
) -> Result<(), Memory>
    ensures ready { IsReady D.seen D.may_leave D.failed D.stale saved.old
        → IsReady D.seen D.may_leave D.failed D.stale saved.new }
{
    'steps: for _ in 0..STEPS {
        if !step(saved, id, replies, out)? {
            return Ok(());
        }
    }
    Ok(())
}

/// One step, where there is room. True: a reply came, behind which others may.
fn step<D: Device, R: Renderer + Drop>(
    saved: &mut SavedHub<D, R>,
    id: ConnId,
    replies: &mut Vec<u8>,
    out: &mut String,
) -> Result<bool, Memory>
    ensures ready { IsReady D.seen D.may_leave D.failed D.stale saved.old
        → IsReady D.seen D.may_leave D.failed D.stale saved.new }
{
    if !saved.has_room() {
        out.push_str("no room ")?;
        return Ok(false);
    }
    match saved.step(id) {
        Ok(Step::Sent(reply)) => add_reply(replies, reply),
        Ok(Step::Last(reply)) => add_reply(replies, reply),
        Ok(Step::More | Step::Closed) => Ok(false),
        Err(refusal) => {
            write!(out, "refused: {refusal} ")?;
            Ok(false)
        }
    }
}

fn add_reply(replies: &mut Vec<u8>, reply: Bytes) -> Result<bool, Memory> {
    let added = replies.extend_from_slice(reply.get());
    drop(reply);
    added?;
    Ok(true)
}

fn push_unread<D: Device, R: Renderer + Drop>(
    saved: &SavedHub<D, R>,
    id: ConnId,
    out: &mut String,
) -> Result<(), Memory> {
    let count = saved.unread(id).map_or(0, |bytes| bytes.len());
    write!(out, " {count}")?;
    Ok(())
}

/// Settles the edits, and sees to the room. False: one of these was refused.
fn settle<D: Device, R: Renderer + Drop>(
    heap: Heap,
    saved: &mut SavedHub<D, R>,
    out: &mut String,
) -> Result<bool, Memory>
    requires ready { IsReady D.seen D.may_leave D.failed D.stale saved.old }
    ensures { IfOk result (λ goes. goes ≡ true
        → IsAllSaved saved.new × IsReady D.seen D.may_leave D.failed D.stale saved.new) }
{
    if let Err(fault) = saved.settle(heap, 0) {
        write!(out, "; refused to settle: {fault}")?;
        return Ok(false);
    }
    let more = growth(saved.room());
    if let Err(fault) = saved.keep_reserve(heap, more) {
        write!(out, "; refused the room: {fault}")?;
        return Ok(false);
    }
    push_room(saved, out)?;
    Ok(true)
}

fn push_room<D: Device, R: Renderer + Drop>(
    saved: &SavedHub<D, R>,
    out: &mut String,
) -> Result<(), Memory> {
    let takes = saved.takes_puts();
    let room = saved.room().unwrap_or(0);
    let removes = saved.has_room_to_remove();
    write!(out, "; {takes} {room} {removes} | ")?;
    Ok(())
}
