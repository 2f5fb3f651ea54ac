//! What is said of the journal's records.

ghost use Rattle.std.specs.Prelude.{◌≡◌, IfOk, if◌then◌else◌};
ghost use Rattle.doc_server_status.specs.Records.{is_met, is_named, record_said, record_text};

use crate::head::Shown;
use crate::standing::Standing;
use crate::wanted::Wanted;
use doc_page_parts::failure::Memory;
use doc_page_parts::heap::Heap;
use doc_page_parts::text::Text;

/// The journal's identity and how many of its records are in the site, with a code that says whether it is there as it is wanted.
#[tactic(auto, unfolding(crate::specs::Records::record_said))]
pub fn said_record(heap: Heap, wanted: &Wanted, standing: &Standing) -> Result<Shown, Memory>
    ensures { IfOk result (λ shown. shown ≡ record_said wanted.now standing.now.journal) }
{
    Ok(Shown {
        code: record_code(wanted, standing),
        metrics: false,
        content: record_text(heap, standing)?,
    })
}

/// The code to what is wanted.
fn record_code(wanted: &Wanted, standing: &Standing) -> u16
    ensures { result ≡ (if is_met wanted.now standing.now.journal then 200 else 503) }
{
    if is_met(wanted, standing) { 200 } else { 503 }
}

/// Whether the journal is there as it is wanted.
fn is_met(wanted: &Wanted, standing: &Standing) -> bool
    ensures { result ≡ is_met wanted.now standing.now.journal }
{
    is_named(wanted, standing) && wanted.least <= standing.records()
}

/// Whether the journal is the one that is named, where one is.
fn is_named(wanted: &Wanted, standing: &Standing) -> bool
    ensures { result ≡ is_named wanted.now.identity standing.now.journal }
{
    match (&wanted.identity, &standing.journal) {
        (None, _) => true,
        (Some(_), None) => false,
        (Some(identity), Some(journal)) => {
            journal.identity.get().as_bytes() == identity.as_slice()
        }
    }
}

/// The journal's identity and how many of its records are in the site, as a line.
#[tactic(auto, unfolding(crate::specs::Records::record_text))]
fn record_text(heap: Heap, standing: &Standing) -> Result<Text, Memory>
    ensures { IfOk result (λ text. text ≡ record_text standing.now.journal) }
{
    match &standing.journal {
        Some(journal) => {
            let text = format!(in heap; "{} {}\n", journal.identity.get(), journal.records)?;
            Ok(Text::new(text))
        }
        None => Text::copy_of(heap, "- 0\n"),
    }
}
