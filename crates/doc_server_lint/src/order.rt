//! The order in which findings are told.

ghost use Rattle.std.specs.Prelude.{◌≡◌};
ghost use Rattle.std.specs.List.{list_any};
ghost use Rattle.std.specs.List.Sorted.{IsPermutation};

use doc_page_parts::failure::Memory;
use doc_page_parts::heap::Vec;
use doc_server_lint_faults::finding::Finding;

/// Puts findings in the order in which they are told: faults first, each part in the order of places. Those of one place stay as they
/// stand.
pub fn sort(findings: &mut Vec<Finding>) -> Result<(), Memory>
    ensures { IsPermutation findings.old.items findings.new.items }
{
    findings.sort_by_key(|finding| (!finding.is_fault, finding.place))?;
    Ok(())
}

/// Whether a fault is among some findings.
pub fn has_fault(findings: &[Finding]) -> bool
    ensures { result ≡ list_any (λ finding. finding.is_fault) findings.now }
{
    findings.iter().any(|finding| finding.is_fault)
}
