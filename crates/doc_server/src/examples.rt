//! The command `examples`: the examples of a published text, shown and compared.

ghost use Rattle.std.specs.Prelude.{◌≡◌, true, IfOk, IfErr, OnOk, string_bytes};
ghost use Rattle.std.specs.Io.KnownBytes.{Appends};
ghost use Rattle.doc_server.specs.Examples.{count_line, count_of, example_before, example_line, examples_of, lines_from};
ghost use Rattle.doc_server.specs.Examples.{no_examples, one_more, passes, place_after, report, status_of, StopsExamples};
ghost use Rattle.doc_server.specs.ExampleSteps.{count_after, line_before, place_of, HasRoom};
ghost use Rattle.doc_server_streams.specs.OutputSteps.{StopsAt};
ghost use Rattle.doc_server_streams.specs.Faults.{failed_writes_after, IsNoText, ReadsFailed};
ghost use Rattle.doc_server_streams.specs.Inputs.{OfText};

use crate::count::Count;
use crate::example_reader::ExampleReader;
use crate::rendering::html_of;
use doc_page_parts::heap::Heap;
use doc_server_streams::fault::Fault;
use doc_server_streams::input::Input;
use doc_server_streams::output::Output;
use doc_server_streams::whole_input::read_text;
use doc_server_streams::whole_output::{flush, send};

/// Shows each example of the file's text, writes which differ from what they should be, and then how many passed and failed. The
/// answer is the status to end with. A fault calls the file by this name. By clause `CannotRead` may be answered wherever the
/// bytes of the file aren't known.
pub fn examples<I: Input, O: Output>(
    heap: Heap,
    name: &str,
    file: &mut I,
    output: &mut O,
) -> Result<u8, Fault>
    ensures sent { IfOk result (λ status. OfText (I.unread file.old) (λ text.
        (status ≡ status_of (count_of text))
        × Appends (O.written output.old) (O.written output.new) (report text))) }
    ensures flushed { OnOk result (O.flushed output.new ≡ true) }
    ensures fault { IfErr result (StopsExamples name.now (I.unread file.old)
        (O.written output.old) (O.written output.new)) }
    ensures reads { ReadsFailed (IsNoText (I.unread file.old))
        (I.failed file.old) (I.failed file.new) result }
    ensures writes { O.failed output.new ≡ failed_writes_after (O.failed output.old) result }
{
    let text = read_text(heap, name, file)?;
    report_on(heap, &text, output)
}

/// The same for a text.
fn report_on<O: Output>(heap: Heap, text: &str, output: &mut O) -> Result<u8, Fault>
    ensures sent { OnOk result
        (Appends (O.written output.old) (O.written output.new) (report text.now)) }
    ensures status { IfOk result (λ status. status ≡ status_of (count_of text.now)) }
    ensures flushed { OnOk result (O.flushed output.new ≡ true) }
    ensures fault { IfErr result
        (StopsAt (O.written output.old) (O.written output.new) (report text.now)) }
    ensures writes { O.failed output.new ≡ failed_writes_after (O.failed output.old) result }
{
    let count = compare_all(heap, text, output)?;
    let line = count.count_line(heap)?;
    send(output, line.as_bytes())?;
    flush(output)?;
    Ok(count.status())
}

/// Compares each example, and writes which differ.
fn compare_all<O: Output>(heap: Heap, text: &str, output: &mut O) -> Result<Count, Fault>
    ensures sent { OnOk result (Appends (O.written output.old) (O.written output.new)
        (lines_from no_examples (examples_of text.now))) }
    ensures count { IfOk result (λ count. count ≡ count_of text.now) }
    ensures fault { IfErr result (StopsAt (O.written output.old) (O.written output.new)
        (lines_from no_examples (examples_of text.now))) }
    ensures writes { O.failed output.new ≡ failed_writes_after (O.failed output.old) result }
{
    let mut reader = ExampleReader::new(heap);
    let mut count = Count {
        passed: 0,
        failed: 0,
    };
    for line in text.split('\n') {
        read_line(heap, &mut reader, &mut count, line, output)?;
    }
    Ok(count)
}

/// Reads a line, and compares the example that ends before it.
fn read_line<O: Output>(
    heap: Heap,
    reader: &mut ExampleReader,
    count: &mut Count,
    line: &str,
    output: &mut O,
) -> Result<(), Fault>
    requires room { HasRoom count.old }
    ensures sent { OnOk result (Appends (O.written output.old) (O.written output.new)
        (line_before count.old (example_before (place_of reader.old) line.now))) }
    ensures count { OnOk result
        (count.new ≡ count_after count.old (example_before (place_of reader.old) line.now)) }
    ensures place { OnOk result (place_of reader.new ≡ place_after (place_of reader.old) line.now) }
    ensures fault { IfErr result (StopsAt (O.written output.old) (O.written output.new)
        (line_before count.old (example_before (place_of reader.old) line.now))) }
    ensures writes { O.failed output.new ≡ failed_writes_after (O.failed output.old) result }
{
    let Some((input, wanted)) = reader.example_before(line) else {
        return Ok(reader.read(line)?);
    };
    compare(heap, input, wanted, count, output)?;
    Ok(reader.read(line)?)
}

/// Counts an example, and writes its line where it differs.
fn compare<O: Output>(
    heap: Heap,
    input: &str,
    wanted: &str,
    count: &mut Count,
    output: &mut O,
) -> Result<(), Fault>
    requires room { HasRoom count.old }
    ensures sent { OnOk result (Appends (O.written output.old) (O.written output.new)
        (example_line count.old (passes (record { input = input.now; output = wanted.now })))) }
    ensures count { OnOk result (count.new
        ≡ one_more count.old (passes (record { input = input.now; output = wanted.now }))) }
    ensures fault { IfErr result (StopsAt (O.written output.old) (O.written output.new)
        (example_line count.old (passes (record { input = input.now; output = wanted.now })))) }
    ensures writes { O.failed output.new ≡ failed_writes_after (O.failed output.old) result }
{
    let html = html_of(heap, input)?;
    if html.as_str() == wanted {
        count.add(true);
        return Ok(());
    }
    let line = count.differs_line(heap)?;
    send(output, line.as_bytes())?;
    count.add(false);
    Ok(())
}
