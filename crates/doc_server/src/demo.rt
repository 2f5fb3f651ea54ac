//! The command `demo`: requests on one connection of the demonstration site.

ghost use Rattle.std.specs.Prelude.{◌≡◌, true, Some, Ok, IfOk, IfErr, OnOk, OnErr};
ghost use Rattle.doc_hub.specs.Runs.{Happens};
ghost use Rattle.doc_hub_events.specs.Events.{push_on, step_on};
ghost use Rattle.doc_hub_events.specs.declared.event.Event.TheVariants as events;
ghost use Rattle.doc_hub.specs.Worlds.{connected, world_pushed};
ghost use Rattle.doc_server.specs.Demo.{Demonstrates, StopsDemo};
ghost use Rattle.doc_server.specs.DemoSite.{demo_world};
ghost use Rattle.doc_server.specs.DemoSteps.{IsMade, SendsNext, SendsToEnd, StopsCall, StopsNext, StopsReplies};
ghost use Rattle.doc_server_streams.specs.Faults.{failed_writes_after, ReadsFailed};
ghost use Rattle.doc_server_streams.specs.InputSteps.{IsRead};

use crate::demo_site::demo_hub;
use doc_hub::event::{ConnId, Step};
use doc_hub::hub::Hub;
use doc_hub::refusal::{ConnectError, PushError, StepError};
use doc_page::renderer::Renderer;
use doc_page_parts::heap::Heap;
use doc_server_streams::fault::Fault;
use doc_server_streams::input::Input;
use doc_server_streams::output::Output;
use doc_server_streams::whole_input::read_whole;
use doc_server_streams::whole_output::{flush, send};

/// How many bytes the input may have: as many as a connection may have unread.
const LIMIT: usize = 4_194_304;

/// Pushes the whole input on one connection of the demonstration site, and writes each reply.
/// An input of more than 4,194,304 bytes is `Refused` before anything is written; the rest of it
/// may stay unread.
#[tactic(auto, unfolding(doc_hub::specs::Connections::backlog_limit))]
pub fn demo<R: Renderer + Drop, I: Input, O: Output>(
    heap: Heap,
    renderer: R,
    input: &mut I,
    output: &mut O,
) -> Result<(), Fault>
    ensures sent { OnOk result (Demonstrates (R.page renderer) (I.unread input.old)
        (O.written output.old) (O.written output.new)) }
    ensures flushed { OnOk result (O.flushed output.new ≡ true) }
    ensures fault { IfErr result (StopsDemo (R.page renderer) (I.unread input.old)
        (O.written output.old) (O.written output.new)) }
    ensures reads { ReadsFailed ⊥ (I.failed input.old) (I.failed input.new) result }
    ensures writes { O.failed output.new ≡ failed_writes_after (O.failed output.old) result }
{
    let mut hub = demo_hub(heap, renderer)?;
    let bytes = read_whole(heap, "-", input, LIMIT)?;
    answer_all(&mut hub, &bytes, output)
}

/// Pushes the bytes on the first connection, and writes each reply.
fn answer_all<R: Renderer + Drop, O: Output>(
    hub: &mut Hub<R>,
    bytes: &[u8],
    output: &mut O,
) -> Result<(), Fault>
    requires world { hub.old.1 ≡ demo_world }
    ensures sent { OnOk result (Demonstrates (R.page hub.old.0) (Some bytes.now)
        (O.written output.old) (O.written output.new)) }
    ensures flushed { OnOk result (O.flushed output.new ≡ true) }
    ensures fault { IfErr result (StopsDemo (R.page hub.old.0) (Some bytes.now)
        (O.written output.old) (O.written output.new)) }
    ensures read { IfErr result IsRead }
    ensures writes { O.failed output.new ≡ failed_writes_after (O.failed output.old) result }
{
    let id = connect(hub)?;
    push(hub, id, bytes)?;
    write_replies(hub, id, output)
}

/// Makes a connection.
fn connect<R: Renderer + Drop>(hub: &mut Hub<R>) -> Result<ConnId, Fault>
    ensures world { IfOk result
        (λ id. Happens (R.page hub.old.0) hub.old.1 events.Connect hub.new.1 (Ok id)) }
    ensures same { R.page hub.new.0 ≡ R.page hub.old.0 }
    ensures fault { IfErr result (StopsCall (connected hub.old.1).1) }
{
    match hub.connect() {
        Ok(id) => Ok(id),
        Err(ConnectError::NoIds) => Err(Fault::Refused),
        Err(ConnectError::Memory) => Err(Fault::Memory),
    }
}

/// Pushes the bytes on a connection.
fn push<R: Renderer + Drop>(hub: &mut Hub<R>, id: ConnId, bytes: &[u8]) -> Result<(), Fault>
    ensures world { OnOk result
        (Happens (R.page hub.old.0) hub.old.1 (push_on id bytes.now) hub.new.1 (Ok tt)) }
    ensures same { R.page hub.new.0 ≡ R.page hub.old.0 }
    ensures fault { IfErr result (StopsCall (world_pushed hub.old.1 id.0 bytes.now).1) }
{
    match hub.push(id, bytes) {
        Ok(()) => Ok(()),
        Err(PushError::Memory) => Err(Fault::Memory),
        Err(_) => Err(Fault::Refused),
    }
}

/// Writes each reply until the unread bytes hold no request. Each step but the last takes unread
/// bytes, so this ends.
fn write_replies<R: Renderer + Drop, O: Output>(
    hub: &mut Hub<R>,
    id: ConnId,
    output: &mut O,
) -> Result<(), Fault>
    requires made { IsMade hub.old.1 id.0 }
    ensures sent { OnOk result (SendsToEnd (R.page hub.old.0) hub.old.1 id.0 hub.new.1
        (O.written output.old) (O.written output.new)) }
    ensures flushed { OnOk result (O.flushed output.new ≡ true) }
    ensures fault { IfErr result (StopsReplies (R.page hub.old.0) hub.old.1 id.0
        (O.written output.old) (O.written output.new)) }
    ensures writes { O.failed output.new ≡ failed_writes_after (O.failed output.old) result }
{
    'replies: while write_reply(hub, id, output)? {}
    flush(output)
}

/// Writes the next reply; false where there is none.
fn write_reply<R: Renderer + Drop, O: Output>(
    hub: &mut Hub<R>,
    id: ConnId,
    output: &mut O,
) -> Result<bool, Fault>
    requires made { IsMade hub.old.1 id.0 }
    ensures sent { IfOk result (SendsNext (R.page hub.old.0) hub.old.1 id.0 hub.new.1
        (O.written output.old) (O.written output.new)) }
    ensures same { R.page hub.new.0 ≡ R.page hub.old.0 }
    ensures fault { IfErr result (StopsNext (R.page hub.old.0) hub.old.1 id.0 hub.new.1
        (O.written output.old) (O.written output.new)) }
    ensures writes { O.failed output.new ≡ failed_writes_after (O.failed output.old) result }
{
    match step(hub, id)? {
        Step::Sent(reply) => {
            send(output, reply.get())?;
            Ok(true)
        }
        Step::Last(reply) => {
            send(output, reply.get())?;
            Ok(true)
        }
        Step::More => Ok(false),
        Step::Closed => Ok(false),
    }
}

/// A step of a connection that was made.
fn step<R: Renderer + Drop>(hub: &mut Hub<R>, id: ConnId) -> Result<Step, Fault>
    requires made { IsMade hub.old.1 id.0 }
    ensures world { IfOk result
        (λ said. Happens (R.page hub.old.0) hub.old.1 (step_on id) hub.new.1 (Ok said)) }
    ensures same { R.page hub.new.0 ≡ R.page hub.old.0 }
    ensures fault { IfErr result (λ fault. fault ≡ Fault.Memory) }
    ensures kept { OnErr result (hub.new.1 ≡ hub.old.1) }
{
    match hub.step(id) {
        Ok(step) => Ok(step),
        Err(StepError::Memory) => Err(Fault::Memory),
        Err(StepError::NoConnection) => Err(Fault::Refused),
    }
}
