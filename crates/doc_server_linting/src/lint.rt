//! The command `lint`: what is wrong with a configuration, and what in it may be meant otherwise.

ghost use Rattle.std.specs.Prelude.{◌≡◌, false, true, IfOk};
ghost use Rattle.toml.specs.View.{table_view};
ghost use Rattle.doc_server_lint.specs.Laws.{is_taken};
ghost use Rattle.doc_server_linting.specs.Linting.{IsTaken};

use crate::linted_files::{add, add_of_files};
use crate::linted_journal::add_of_journal;
use doc_page_parts::failure::Memory;
use doc_page_parts::heap::{Heap, String, Vec};
use doc_server_arguments::command::Lint;
use doc_server_config::document::Document;
use doc_server_files::files::open_file;
use doc_server_files::site_fault::SiteFault;
use doc_server_files::written::{Written, written_in};
use doc_server_lint::findings::findings;
use doc_server_lint::line::push_finding;
use doc_server_lint::order::{has_fault, sort};
use doc_server_lint::report::report;
use doc_server_lint::syntax::{Reading, read};
use doc_server_lint_faults::finding::Finding;
use doc_server_lint_faults::place::Place;
use doc_server_lint_faults::what::What;
use doc_server_streams::whole_input::read_whole;
use doc_server_streams::whole_output::{flush, send};
use doc_server_streams::write_to::WriteTo;
use std::io;
use std::rt::Files;

/// What is told, a line each, and whether a fault is.
#[derive(Drop)]
struct Told {
    lines: String,
    is_fault: bool,
}

/// Tells what is wrong with the configuration that a command names, a line each, and answers the status to end with: 1 where a fault is
/// told.
pub fn lint<P: AllocGlobal + Clone + Drop + Files + Print>(
    rt: &P,
    command: &Lint<'_>,
) -> Result<u8, SiteFault> {
    let told = told_of(rt, rt.alloc(), command)?;
    let mut output = WriteTo::new(io::writer(rt));
    send(&mut output, told.lines.as_bytes())?;
    flush(&mut output)?;
    Ok(if told.is_fault { 1 } else { 0 })
}

/// What is told of the configuration that a command names.
fn told_of<R: AllocGlobal + Clone + Drop + Files>(
    rt: &R,
    heap: Heap,
    command: &Lint<'_>,
) -> Result<Told, SiteFault> {
    let mut input = open_file(rt, heap, command.config)?;
    let bytes = read_whole(heap, command.config, &mut input, usize::MAX)?;
    match String::from_utf8(bytes) {
        Ok(text) => told_of_text(rt, heap, text.as_str(), command),
        Err(_) => Ok(not_utf8(heap, command.config)?),
    }
}

/// What is told of a file that is no text.
fn not_utf8(heap: Heap, name: &str) -> Result<Told, Memory>
    ensures { IfOk result (λ told. told.is_fault ≡ true) }
{
    let mut lines = String::new(heap);
    let finding = Finding {
        place: Place::Document,
        key: None,
        what: What::NotUtf8,
        is_fault: true,
    };
    push_finding(&mut lines, name, None, None, &finding)?;
    Ok(Told {
        lines,
        is_fault: true,
    })
}

/// What is told of a configuration's text: without a fault it is one that a server takes.
fn told_of_text<R: AllocGlobal + Clone + Drop + Files>(
    rt: &R,
    heap: Heap,
    text: &str,
    command: &Lint<'_>,
) -> Result<Told, SiteFault>
    ensures { IfOk result (λ told. told.is_fault ≡ false → IsTaken text.now) }
{
    match read(heap, command.config, text)? {
        Reading::Broken(lines) => Ok(Told {
            lines,
            is_fault: true,
        }),
        Reading::Document(document) => told_of_document(rt, heap, text, &document, command),
    }
}

/// What is told of a document. Files are looked at where it has no fault, and the journal where they have none either.
#[tactic(auto, using(crate::proofs::LintSteps::clear_is_taken))]
fn told_of_document<R: AllocGlobal + Clone + Drop + Files>(
    rt: &R,
    heap: Heap,
    text: &str,
    document: &Document,
    command: &Lint<'_>,
) -> Result<Told, SiteFault>
    ensures { IfOk result
        (λ told. told.is_fault ≡ false → is_taken (table_view document.now.table) ≡ true) }
{
    let listed = findings(heap, &document.table)?;
    if has_fault(listed.get()) {
        let lines = report(heap, command.config, text, &document.table, listed.get())?;
        return Ok(Told {
            lines,
            is_fault: true,
        });
    }
    let mut found = listed.into_inner();
    add_behind(rt, heap, &mut found, document, command)?;
    sort(&mut found)?;
    Ok(Told {
        lines: report(heap, command.config, text, &document.table, &found)?,
        is_fault: has_fault(&found),
    })
}

/// Adds what is told of the files behind a document without a fault, and of the journal, where one is named.
fn add_behind<R: AllocGlobal + Clone + Drop + Files>(
    rt: &R,
    heap: Heap,
    found: &mut Vec<Finding>,
    document: &Document,
    command: &Lint<'_>,
) -> Result<(), SiteFault> {
    let written = written_in(heap, document)?;
    add_of_files(rt, heap, found, &written)?;
    match command.journal {
        Some(journal) if !has_fault(found) => add_of_journal(rt, heap, found, written, journal),
        _ => Ok(()),
    }
}
