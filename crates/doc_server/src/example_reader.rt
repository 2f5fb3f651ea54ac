//! Reading the examples of a published text, line by line.

ghost use Rattle.std.specs.Prelude.{◌≡◌, ◌++◌, string_bytes, option_map, OnOk};
ghost use Rattle.doc_server.specs.Examples.{Between, begins_example, ends_input, ends_output, example_before, meant, place_after, tab_or};
ghost use Rattle.doc_server.specs.ExampleSteps.{example_shown, place_of};

use doc_page_parts::failure::Memory;
use doc_page_parts::heap::{Heap, String};

/// Where a line stands.
#[derive(Clone, Copy)]
enum Part {
    Between,
    Input,
    Output,
}

/// The example that is read. The texts of the next one take the place of its own.
#[derive(Drop)]
pub struct ExampleReader {
    part: Part,
    input: String,
    output: String,
}

impl ExampleReader {
    pub fn new(heap: Heap) -> ExampleReader
        ensures { place_of result ≡ Between }
    {
        ExampleReader {
            part: Part::Between,
            input: String::new(heap),
            output: String::new(heap),
        }
    }

    /// The input and the output of the example that ends before this line.
    pub fn example_before(&self, line: &str) -> Option<(&str, &str)>
        ensures { option_map example_shown result ≡ example_before (place_of self.now) line.now }
    {
        match self.part {
            Part::Output if ends_output(line) => Some((self.input.as_str(), self.output.as_str())),
            _ => None,
        }
    }

    /// Reads a line.
    pub fn read(&mut self, line: &str) -> Result<(), Memory>
        ensures { OnOk result (place_of self.new ≡ place_after (place_of self.old) line.now) }
    {
        match self.part {
            Part::Between if begins_example(line) => {
                self.input.clear();
                self.part = Part::Input;
                Ok(())
            }
            Part::Between => Ok(()),
            Part::Input if ends_input(line) => {
                self.output.clear();
                self.part = Part::Output;
                Ok(())
            }
            Part::Input => push_meant(&mut self.input, line),
            Part::Output if ends_output(line) => {
                self.part = Part::Between;
                Ok(())
            }
            Part::Output => push_meant(&mut self.output, line),
        }
    }
}

/// Adds a line as it is meant.
fn push_meant(out: &mut String, line: &str) -> Result<(), Memory>
    ensures { OnOk result (string_bytes out.new ≡ string_bytes out.old ++ meant line.now) }
{
    for c in line.chars() {
        out.push(tab_or(c))?;
    }
    Ok(out.push('\n')?)
}

fn tab_or(c: char) -> char
    ensures { result ≡ tab_or c }
{
    if c == '→' { '\t' } else { c }
}

#[tactic(auto, unfolding(crate::specs::Examples::begins_example))]
fn begins_example(line: &str) -> bool
    ensures { result ≡ begins_example line.now }
{
    line == "```````````````````````````````` example"
        || line == "```````````````````````````````` example\r"
}

#[tactic(auto, unfolding(crate::specs::Examples::ends_input))]
fn ends_input(line: &str) -> bool
    ensures { result ≡ ends_input line.now }
{
    line == "."
}

#[tactic(auto, unfolding(crate::specs::Examples::ends_output))]
fn ends_output(line: &str) -> bool
    ensures { result ≡ ends_output line.now }
{
    line == "````````````````````````````````" || line == "````````````````````````````````\r"
}
