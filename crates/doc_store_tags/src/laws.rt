//! Laws of the tags of pages. Each function does nothing: its contract is the law.

ghost use Rattle.doc_store_tags.specs.Laws.{EqualTagsAreEqualDigests, TaggedPagesDiffer};

/// A page's groups and its text can be read off the bytes that its tag is the digest of. So two pages with equal tags are the
/// same, or a collision of SHA-256.
pub fn tags_tell_pages_apart()
    ensures { TaggedPagesDiffer }
{}

/// Pages with equal tags have equal digests.
pub fn equal_tags_are_equal_digests()
    ensures { EqualTagsAreEqualDigests }
{}
