//! What is left of a text without its front.
ghost use Rattle.std.specs.Prelude.{◌≡◌, chars};
ghost use Rattle.doc_front.specs.Fronted.{text_of};

use doc_page_parts::text::Text;

/// What is left of a text without its front.
#[derive(Drop)]
pub enum Fronted<'a> {
    /// The end of the text, or all of it.
    Rest(&'a str),
    /// A heading, and the end of the text behind it.
    Titled(Text),
}

impl<'a> Fronted<'a> {
    pub fn get(&self) -> &str
        ensures { chars result.now ≡ text_of self.now }
    {
        match self {
            Fronted::Rest(text) => text,
            Fronted::Titled(text) => text.get(),
        }
    }
}
