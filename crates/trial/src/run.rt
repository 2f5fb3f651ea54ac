//! Trial programs from their first line to their last.

use crate::answer::no_call;
use crate::line::{Line, read_line};
use doc_page_parts::failure::Memory;
use doc_page_parts::heap::{Heap, String};
use std::io;

/// The calls of a trial program, and what they change.
pub trait Calls {
    /// What a call answers.
    fn called(&mut self, heap: Heap, name: &str, given: &str) -> Result<String, Memory>;
}

/// Prints for each line of standard input what it answers.
pub fn run<R: AllocGlobal + Input + Print, C: Calls>(rt: &R, calls: &mut C) -> io::Result<()> {
    let text = io::read_to_string(rt.alloc(), rt.reader())?;
    let ran = run_lines(rt, &text, calls);
    drop(text);
    ran
}

/// Prints for each line of a text what it answers.
pub fn run_lines<R: AllocGlobal + Print, C: Calls>(
    rt: &R,
    text: &str,
    calls: &mut C,
) -> io::Result<()> {
    let heap = rt.alloc();
    for line in text.lines() {
        print_answer(rt, answer_of(heap, line, calls))?;
    }
    Ok(())
}

/// Prints what a line answers.
pub fn print_answer<R: Print>(rt: &R, answer: Result<String, Memory>) -> io::Result<()> {
    match answer {
        Ok(answer) => {
            let printed = println!(rt; "{answer}");
            drop(answer);
            printed
        }
        Err(Memory) => println!(rt; "no memory for the line"),
    }
}

/// What is printed for a line.
fn answer_of<C: Calls>(heap: Heap, line: &str, calls: &mut C) -> Result<String, Memory> {
    match read_line(heap, line)? {
        Line::Comment => Ok(String::from_str(heap, line)?),
        Line::Call { name, given } => {
            let answer = calls.called(heap, name, &given);
            drop(given);
            answer
        }
        Line::Wrong => no_call(heap),
    }
}
