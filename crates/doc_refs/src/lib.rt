//! Link reference definitions (CommonMark 0.31.2, sections 4.7 and 6.3): labels, destinations and titles, the definitions at the
//! front of a text, and a map of what they name. Its parts stand in `doc_refs_parts`: the gate's edits of labels and of the map prove this
//! crate once more, and not those.
#![tactic(auto)]

mod definitions;
mod labels;
mod ref_map;

pub use definitions::take_definitions;
pub use doc_refs_parts::target::{Target, destination_value, title_value};
pub use doc_refs_parts::{destination, laws, scan, title};
pub use labels::normalize_label;
pub use ref_map::RefMap;
