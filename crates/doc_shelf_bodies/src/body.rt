//! One page for people that is kept.

ghost use Rattle.std.specs.Prelude.{◌≡◌, IsTrue};

use doc_page_parts::text::Text;
use doc_people::settings::Offers;
use doc_store_readers::reader::Reader;

/// A page for people, and whom it was made for: by their row, not by their token.
#[derive(Drop)]
pub struct Body {
    pub reader: Reader,
    /// What it offers them.
    pub offers: Offers,
    pub text: Text,
}

impl Body {
    /// Whether it was made for such a reader.
    pub fn is_for(&self, offers: Offers, reader: &Reader) -> bool
        ensures { IsTrue result → (self.now.offers ≡ offers) × (self.now.reader ≡ reader.now) }
    {
        self.offers == offers && self.reader == *reader
    }
}
