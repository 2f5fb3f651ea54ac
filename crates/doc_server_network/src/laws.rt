//! Laws of a reload, as contracts of functions that do nothing.

ghost use Rattle.doc_server_network.specs.Reloads.{ReloadsAreRestored};

use doc_server_reload::laws::{what_is_led_is_restored, what_is_restored_is_of_calls};

/// What a reload leaves is restored by a start, and is as calls make it: so a hub is settled where all of its edits are made.
pub fn reloads_are_restored()
    ensures { ReloadsAreRestored }
{
    what_is_led_is_restored();
    what_is_restored_is_of_calls();
}
