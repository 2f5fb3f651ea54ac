//! What is wrong with a configuration that stops a server, beside the one line that says that it does.

ghost use Rattle.std.specs.Prelude.{IfOk, string_bytes};
ghost use Rattle.doc_server_files.specs.ToldFaults.{IsToldFaults};

use doc_page_parts::failure::Memory;
use doc_page_parts::heap::{Heap, String};
use doc_server_lint::findings::faults;
use doc_server_lint::report::report;
use doc_server_lint::syntax::{Reading, read};

/// Prints the faults of a configuration in the file of this name, a line each, where memory is left for them.
pub fn tell_faults<P: Eprint>(rt: &P, heap: Heap, name: &str, text: &str) {
    if let Ok(lines) = faults_told(heap, name, text) {
        let _ = eprint!(rt; "{lines}");
    }
}

/// Prints them behind a word, as what a reload is refused for.
pub fn tell_refusal<P: Eprint>(rt: &P, heap: Heap, word: &str, name: &str, text: &str) {
    if let Ok(lines) = faults_told(heap, name, text) {
        for line in lines.as_str().lines() {
            let _ = eprintln!(rt; "{word}: {line}");
        }
    }
}

/// The lines of the faults of a configuration in the file of this name.
#[tactic(auto, using(crate::proofs::ToldSteps::none_told, crate::proofs::ToldSteps::faults_told))]
fn faults_told(heap: Heap, name: &str, text: &str) -> Result<String, Memory>
    ensures { IfOk result (λ lines. IsToldFaults name.now text.now (string_bytes lines)) }
{
    match read(heap, name, text)? {
        Reading::Broken(lines) => Ok(lines),
        Reading::Document(document) => {
            let found = faults(heap, &document.table)?;
            report(heap, name, text, &document.table, found.get())
        }
    }
}
