//! References of RFC 3986 and what the links of a page lead to.
#![tactic(auto)]

mod dot_segments;
pub mod encoding;
mod goals;
pub mod laws;
mod link_kind;
mod links;
mod reference;
mod resolution;
mod resolved;
mod site_linker;
mod written_paths;

pub use goals::{decisions, goals_of};
pub use link_kind::LinkKind;
pub use links::{classify, kinds};
pub use reference::Reference;
pub use resolution::resolve;
pub use resolved::Resolved;
pub use site_linker::SiteLinker;
pub use written_paths::written_path;
