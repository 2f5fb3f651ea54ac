//! The command `replay`: a script of events on a configured site.

ghost use Rattle.std.specs.Prelude.{◌≡◌, ◌∷◌, [], ◌++◌, true, string_bytes, IfOk, IfErr, OnOk};
ghost use Rattle.std.specs.Io.KnownBytes.{Appends};
ghost use Rattle.doc_server_script.specs.Outcomes.{outcome_line};
ghost use Rattle.doc_server_streams.specs.Faults.{failed_writes_after, IsNoText, ReadsFailed};
ghost use Rattle.doc_server_streams.specs.OutputSteps.{StopsAt};
ghost use Rattle.doc_server.specs.Replays.{outcome_lines, Replays, RunTells, StopsReplay};
ghost use Rattle.doc_server.specs.ReplaySteps.{StopsScript};

use crate::site::site_hub;
use doc_hub::hub::Hub;
use doc_hub::outcome::Outcome;
use doc_page::renderer::Renderer;
use doc_page_parts::failure::Memory;
use doc_page_parts::heap::{Heap, String};
use doc_page_parts::text::Text;
use doc_server_config::config::SiteConfig;
use doc_server_script::outcome::push_outcome;
use doc_server_script::script::events_of;
use doc_server_streams::fault::Fault;
use doc_server_streams::input::Input;
use doc_server_streams::output::Output;
use doc_server_streams::whole_input::read_text;
use doc_server_streams::whole_output::{flush, send};

/// Makes the events of a script, which is the whole input, happen on a configured site, and writes a line for what came of each. The
/// answer is the status to end with. `texts` are those of the files that the configuration's pages name, in the order of these pages.
/// A fault calls the input `-`. Nothing happens before the whole script is read, and nothing is written before all of it happened; an
/// event that is refused, also for want of memory, has its line, and the next one follows.
pub fn replay<R: Renderer + Drop, I: Input, O: Output>(
    heap: Heap,
    renderer: R,
    config: SiteConfig,
    texts: &[Text],
    input: &mut I,
    output: &mut O,
) -> Result<u8, Fault>
    ensures sent { OnOk result (Replays (R.page renderer) config texts.now (I.unread input.old)
        (Appends (O.written output.old) (O.written output.new))) }
    ensures status { IfOk result (λ status. status ≡ 0) }
    ensures flushed { OnOk result (O.flushed output.new ≡ true) }
    ensures fault { IfErr result (StopsReplay (R.page renderer) config texts.now
        (I.unread input.old) (O.written output.old) (O.written output.new)) }
    ensures reads { ReadsFailed (IsNoText (I.unread input.old))
        (I.failed input.old) (I.failed input.new) result }
    ensures writes { O.failed output.new ≡ failed_writes_after (O.failed output.old) result }
{
    let mut hub = site_hub(heap, renderer, config, texts)?;
    let script = read_text(heap, "-", input)?;
    run_script(heap, &mut hub, &script, output)?;
    Ok(0)
}

/// Makes the events of a script happen, and writes what came of each.
fn run_script<R: Renderer + Drop, O: Output>(
    heap: Heap,
    hub: &mut Hub<R>,
    script: &str,
    output: &mut O,
) -> Result<(), Fault>
    ensures sent { OnOk result (RunTells (R.page hub.old.0) hub.old.1 script.now
        (Appends (O.written output.old) (O.written output.new))) }
    ensures flushed { OnOk result (O.flushed output.new ≡ true) }
    ensures fault { IfErr result (StopsScript (R.page hub.old.0) hub.old.1 script.now
        (O.written output.old) (O.written output.new)) }
    ensures writes { O.failed output.new ≡ failed_writes_after (O.failed output.old) result }
{
    let events = events_of(heap, script)?;
    let outcomes = hub.run(events.get())?;
    write_outcomes(heap, outcomes.get(), output)?;
    flush(output)
}

/// Writes a line for each outcome.
fn write_outcomes<O: Output>(heap: Heap, outcomes: &[Outcome], output: &mut O) -> Result<(), Fault>
    ensures sent { OnOk result
        (Appends (O.written output.old) (O.written output.new) (outcome_lines outcomes.now)) }
    ensures fault { IfErr result
        (StopsAt (O.written output.old) (O.written output.new) (outcome_lines outcomes.now)) }
    ensures writes { O.failed output.new ≡ failed_writes_after (O.failed output.old) result }
{
    for outcome in outcomes {
        let line = line_of(heap, outcome)?;
        send(output, line.as_bytes())?;
    }
    Ok(())
}

/// The line of an outcome, with its line feed.
fn line_of(heap: Heap, outcome: &Outcome) -> Result<String, Memory>
    ensures { IfOk result (λ line. string_bytes line ≡ outcome_line outcome.now ++ 10 ∷ []) }
{
    let mut line = String::new(heap);
    push_outcome(&mut line, outcome)?;
    line.push('\n')?;
    Ok(line)
}
