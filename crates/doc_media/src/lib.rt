//! The media of a site: pictures and other files that stand beside its pages, by their paths, in memory. What a medium is
//! goes by the extension of its name. Who may see one is who may see a page of its groups: for the definitions the media
//! are the pages of a second site, which has no aliases.
#![tactic(auto)]

mod extension;
mod held;
pub mod kind;
pub mod laws;
pub mod manner;
pub mod media;
pub mod medium;
#[cfg(test)]
mod tests;
