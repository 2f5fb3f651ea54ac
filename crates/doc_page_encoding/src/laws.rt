//! Laws of encoded texts. The functions do nothing: their contracts are the laws.

ghost use Rattle.doc_page_encoding.specs.Laws.{DestinationsByBytes, PathsBySegments};

/// In HTML each byte of a destination is written by itself: `&` as a reference, another byte that stays as it is, and the others
/// encoded.
#[tactic(auto, using(crate::proofs::DestinationLaws::destinations_by_bytes))]
pub fn destinations_by_bytes()
    ensures { DestinationsByBytes }
{}

/// The segments of an encoded path are the path's, encoded.
#[tactic(auto, using(crate::proofs::EncodingLaws::paths_by_segments))]
pub fn paths_by_segments()
    ensures { PathsBySegments }
{}
