//! Kinds of lists.
ghost use Rattle.std.specs.Prelude.{◌≡◌};
ghost use Rattle.doc_rules.specs.ContainerStarts.{is_same_kind};
ghost use Rattle.doc_blocks_starts.specs.Items.{kind_of};

/// The character of a list's bullets, or the delimiter behind its numbers.
#[derive(Clone, Copy, Debug, PartialEq, Eq)]
pub enum ListKind {
    Bullet(char),
    Ordered(char),
}

impl ListKind {
    /// Whether items of these two kinds are of one list (CommonMark 0.31.2, section 5.3).
    #[tactic(auto, unfolding(doc_rules::specs::ContainerStarts::is_same_kind))]
    pub fn is_same(self, other: ListKind) -> bool
        ensures { result ≡ is_same_kind (kind_of self) (kind_of other) }
    {
        self == other
    }
}
