//! Laws of what a reader sees of the media. Each function does nothing: its contract is the law.

ghost use Rattle.doc_media.specs.Laws.{BesideOfMedia, MediaOfMedia};

/// A reader sees the whole of what the reader sees of the media.
pub fn what_is_seen_of_media_is_seen_whole()
    ensures { MediaOfMedia }
{}

/// The media that a reply is made of hang on what the reader sees alone.
pub fn media_beside_a_view_are_those_seen()
    ensures { BesideOfMedia }
{}
