//! What requests are answered by the media that stand beside the pages, as definitions (`specs/MediaAnswers`), and these answers: to
//! whoever sees a medium the medium itself, and to owners that it isn't written, nor anything else where only a medium may stand.
//!
//! These answers come before all others to who may read, and none of the others knows of media. Whoever is no owner is told of the media
//! that they see by these alone: what they edit is refused as it is without media. No answer here makes an edit.
#![tactic(auto)]

pub mod laws;
pub mod media_desk;
pub mod media_request;
pub mod media_visit;

pub use doc_hub_editing::{
    Shelf, answer, edit, edit_request, editing, exchange, method, people, routes, visit,
};
