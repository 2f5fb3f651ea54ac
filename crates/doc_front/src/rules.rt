//! What is cut of the front of a text.
ghost use Rattle.std.specs.Prelude.{◌≡◌};
ghost use Rattle.doc_front.specs.Front.{none};

/// What becomes of front matter: of the lines between a line `---` at the front of a text and the next line `---`. It is some only where
/// the line behind the first is a key, a comment or the line at the end.
#[derive(Clone, Copy, Debug)]
pub enum FrontMatter {
    /// It is text as it stands.
    Keep,
    /// It isn't read.
    Skip,
    /// It isn't read, but that its `title` stands as a heading of level 1 where the text behind has none.
    Title,
}

/// What is cut of the front of a text.
#[derive(Clone, Copy, Debug)]
pub struct FrontRules {
    /// Whether U+FEFF at the front goes.
    pub skip_bom: bool,
    pub front_matter: FrontMatter,
}

impl FrontRules {
    /// Nothing is cut.
    pub fn none() -> Self
        ensures { result ≡ none }
    {
        FrontRules {
            skip_bom: false,
            front_matter: FrontMatter::Keep,
        }
    }
}
