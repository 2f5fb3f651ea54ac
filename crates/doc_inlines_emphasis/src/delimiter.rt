//! The characters that runs are made of.
ghost use Rattle.std.specs.Prelude.{◌≡◌, ◌==◌, [], ◌∷◌, chars};
ghost use Rattle.doc_inlines_emphasis.specs.RunSteps.{delimiter, first_kind};

/// What a run is made of (CommonMark 0.31.2, section 6.2, and of `~` GFM 0.29, section 6.5). A pair of `~` has one length, so one of
/// them and two are told apart.
#[derive(Clone, Copy)]
pub enum Delimiter {
    Star,
    Underscore,
    Tilde,
    TwoTildes,
}

impl Delimiter {
    /// One of it.
    pub(crate) fn text(self) -> &'static str
        ensures { chars result.now ≡ delimiter self ∷ [] }
    {
        match self {
            Delimiter::Star => "*",
            Delimiter::Underscore => "_",
            Delimiter::Tilde => "~",
            Delimiter::TwoTildes => "~",
        }
    }

    /// Whether it strikes through.
    pub(crate) fn is_tilde(self) -> bool
        ensures { result ≡ (delimiter self == 126) }
    {
        matches!(self, Delimiter::Tilde | Delimiter::TwoTildes)
    }

    /// The first of the kinds of closers that it may be.
    pub(crate) fn first_kind(self) -> usize
        ensures { result ≡ first_kind self }
    {
        match self {
            Delimiter::Star => 6,
            Delimiter::Underscore => 0,
            Delimiter::Tilde => 12,
            Delimiter::TwoTildes => 13,
        }
    }
}
