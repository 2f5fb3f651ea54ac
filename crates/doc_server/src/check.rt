//! The command `check`: the broken links that a reader sees.

ghost use Rattle.std.specs.Prelude.{◌≡◌, true, IfOk, IfErr, OnOk};
ghost use Rattle.std.specs.Io.KnownBytes.{Appends};
ghost use Rattle.doc_server_streams.specs.Faults.{failed_writes_after};
ghost use Rattle.doc_server_streams.specs.Streams.{AppendsPrefix};
ghost use Rattle.doc_server.specs.Checks.{report_status, Checks, StopsCheck};

use crate::site::site_hub;
use doc_page::renderer::Renderer;
use doc_page_parts::heap::Heap;
use doc_page_parts::text::Text;
use doc_server_config::config::SiteConfig;
use doc_server_streams::fault::Fault;
use doc_server_streams::output::Output;
use doc_server_streams::whole_output::{flush, send};

/// Writes the report of a token's reader in a configured site: a line for each link that is broken for that reader. The answer is the
/// status to end with. `texts` are those of the files that the configuration's pages name, in the order of these pages. Nothing is
/// written before the whole report is made.
pub fn check<R: Renderer + Drop, O: Output>(
    heap: Heap,
    renderer: R,
    config: SiteConfig,
    texts: &[Text],
    token: &str,
    output: &mut O,
) -> Result<u8, Fault>
    ensures sent { IfOk result (Checks (R.page renderer) config texts.now token.now
        (O.written output.old) (O.written output.new)) }
    ensures flushed { OnOk result (O.flushed output.new ≡ true) }
    ensures fault { IfErr result (StopsCheck (R.page renderer) config texts.now token.now
        (O.written output.old) (O.written output.new)) }
    ensures writes { O.failed output.new ≡ failed_writes_after (O.failed output.old) result }
{
    let mut hub = site_hub(heap, renderer, config, texts)?;
    let Some(report) = hub.report(token)? else {
        return Err(Fault::UnknownToken);
    };
    write_report(report.get(), output)
}

/// Writes a report, and answers the status to end with.
fn write_report<O: Output>(report: &str, output: &mut O) -> Result<u8, Fault>
    ensures sent { OnOk result
        (Appends (O.written output.old) (O.written output.new) report.now) }
    ensures status { IfOk result (λ status. status ≡ report_status report.now) }
    ensures flushed { OnOk result (O.flushed output.new ≡ true) }
    ensures fault { IfErr result (λ fault. (fault ≡ Fault.CannotWrite)
        × AppendsPrefix (O.written output.old) (O.written output.new) report.now) }
    ensures writes { O.failed output.new ≡ failed_writes_after (O.failed output.old) result }
{
    send(output, report.as_bytes())?;
    flush(output)?;
    Ok(if report.is_empty() { 0 } else { 1 })
}
