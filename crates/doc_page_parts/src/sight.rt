//! Which pages a reader sees, and where paths lead.

ghost use Rattle.std.specs.Prelude.{◌≡◌, ℕ, List as Seq, Option as Maybe, option_copied};
ghost use Rattle.doc_page_parts.specs.Sights.{leads_to_itself};

use crate::path::Path;

/// What a reader sees of a site: some of its pages, each under its path and under the aliases that
/// moves left of it.
pub trait Sight {
    /// The path of the page that a path leads to: the path itself where a page is seen there, or
    /// that of the seen page that has it as alias.
    ghost goals: { Self → Seq ℕ → Maybe (Seq ℕ) };

    /// Whether a page is seen under this path itself. Takes no memory.
    fn sees(&self, path: &Path) -> bool
        ensures { result ≡ leads_to_itself (goals self.now path.now) path.now };

    /// The path of the page that a path leads to, or `None` where the reader sees none there. Takes
    /// no memory.
    fn goal(&self, path: &Path) -> Option<&Path>
        ensures { option_copied result ≡ goals self.now path.now };
}
