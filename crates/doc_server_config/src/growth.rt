//! Lists that grow by one.

ghost use Rattle.std.specs.Prelude.{◌≡◌, ◌++◌, ◌∷◌, [], OnOk};

use doc_page_parts::failure::Memory;
use doc_page_parts::heap::Vec;

/// Adds a value at the end of a list.
pub(crate) fn push<T: Drop>(list: &mut Vec<T>, value: T) -> Result<(), Memory>
    ensures { OnOk result (list.new.items ≡ list.old.items ++ value ∷ []) }
{
    list.push(value)?;
    Ok(())
}
