//! Links to media: a link that leads to no page that a reader sees, but to a medium that they see, is shown with the medium's address,
//! and isn't broken. And images: which of them show nothing.
#![tactic(auto)]

mod beside_linker;
mod broken;
mod goals;
mod images;
pub mod laws;
mod leading;
#[cfg(test)]
mod tests;

pub use beside_linker::BesideLinker;
pub use broken::unbroken;
pub use goals::goals_beside;
pub use images::push_broken_images;
pub use leading::{lead_to_media, name_places};
