//! The command `render`: standard input as HTML.

ghost use Rattle.std.specs.Prelude.{◌≡◌, true, string_bytes, IfOk, IfErr, OnOk};
ghost use Rattle.doc_server_streams.specs.Faults.{failed_writes_after, IsNoText, ReadsFailed};
ghost use Rattle.doc_server.specs.Rendering.{rendered, Renders, StopsRendering};

use doc_html::render_plain;
use doc_lines::entities::Entities;
use doc_page_parts::failure::Memory;
use doc_page_parts::heap::{Heap, String};
use doc_server_streams::fault::Fault;
use doc_server_streams::input::Input;
use doc_server_streams::output::Output;
use doc_server_streams::whole_input::read_text;
use doc_server_streams::whole_output::{flush, send};

/// Writes the HTML of the whole input, which is called `-`. Nothing is written before all of it is made.
/// By clause `CannotRead` may be answered wherever the bytes of the input aren't known.
pub fn render<I: Input, O: Output>(heap: Heap, input: &mut I, output: &mut O) -> Result<(), Fault>
    ensures sent { OnOk result (Renders (I.unread input.old)
        (O.written output.old) (O.written output.new)) }
    ensures flushed { OnOk result (O.flushed output.new ≡ true) }
    ensures fault { IfErr result (StopsRendering (I.unread input.old)
        (O.written output.old) (O.written output.new)) }
    ensures reads { ReadsFailed (IsNoText (I.unread input.old))
        (I.failed input.old) (I.failed input.new) result }
    ensures writes { O.failed output.new ≡ failed_writes_after (O.failed output.old) result }
{
    let text = read_text(heap, "-", input)?;
    let html = html_of(heap, &text)?;
    send(output, html.as_bytes())?;
    flush(output)
}

/// The HTML of a text, with the built-in character references.
pub fn html_of(heap: Heap, text: &str) -> Result<String, Memory>
    ensures { IfOk result (λ html. string_bytes html ≡ rendered text.now) }
{
    let html = render_plain(heap, text, &Entities::built_in())?;
    Ok(html.into_inner())
}
