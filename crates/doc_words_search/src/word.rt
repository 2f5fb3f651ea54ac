//! Words.

ghost use Rattle.std.specs.Prelude.{◌≡◌, string_bytes};

use doc_page_parts::heap::String;
use doc_page_parts::text::Text;
use std::marker::Model;

/// A word: a run of letters, marks and numbers with its case folded. Contracts see its bytes.
#[derive(Drop)]
pub struct Word {
    text: Text,
}

impl Model for Word {
    ghost use Rattle.std.specs.Prelude.{ℕ, List as Seq};

    ghost Value = { Seq ℕ };

    ghost view = { λ w. w.text };

    ghost inverse = { λ bytes. record { text = bytes } };
}

impl Word {
    pub(crate) fn new(text: Text) -> Word
        ensures { result ≡ text }
    {
        Word { text }
    }

    pub fn text(&self) -> &str
        ensures { result.now ≡ self.now }
    {
        self.text.get()
    }
}
