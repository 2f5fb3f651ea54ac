//! What is found in a configuration.

ghost use Rattle.std.specs.Prelude.{◌≡◌, ◌++◌, ◌∷◌, [], OnOk};

use crate::place::Place;
use crate::what::What;
use doc_page_parts::failure::Memory;
use doc_page_parts::heap::Vec;
use doc_page_parts::text::Text;

/// A fault or a warning.
#[derive(Drop)]
pub struct Finding {
    pub place: Place,
    /// The key of which it is told, if it is one key's.
    pub key: Option<Text>,
    pub what: What,
    /// Whether the configuration is refused for it. Else it is a warning.
    pub is_fault: bool,
}

/// Adds a finding.
pub(crate) fn push(found: &mut Vec<Finding>, finding: Finding) -> Result<(), Memory>
    ensures { OnOk result (found.new.items ≡ found.old.items ++ finding ∷ []) }
{
    found.push(finding)?;
    Ok(())
}
