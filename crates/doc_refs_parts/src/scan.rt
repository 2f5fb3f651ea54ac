//! Scanners: each answers the text behind what stands at the front of a text, or `None` where that does not stand there. They are
//! those of `doc_lines` for labels, destinations, titles and definitions, and look at each character a fixed number of times.

pub mod definition;
pub mod destination;
pub mod escaped;
pub mod inside;
pub mod label;
pub mod line;
pub mod title;
