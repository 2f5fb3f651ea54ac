//! How the pages for people are set.

ghost use Rattle.std.specs.Prelude.{◌≡◌, IfOk, option_copied};

use doc_page_parts::failure::Memory;
use doc_page_parts::heap::Heap;
use doc_page_parts::path::Path;
use doc_page_parts::text::Text;
use doc_store_readers::groups::Groups;

/// What whoever runs the site says of the pages for people.
#[derive(PartialEq, Eq, Drop)]
pub struct Browse {
    /// The title of the site.
    pub title: Text,
    /// The language that the site's texts are written in, as a tag of BCP 47.
    pub language: Text,
    /// The path of the page at the front, which need not stand.
    pub home: Path,
    /// The groups of those who come without signing in. Without them nobody is a guest; guests of no group see no page.
    pub guest: Option<Groups>,
    /// Whether readers may sign in as browsers do (RFC 7617).
    pub login: bool,
    /// Whether owners edit pages by requests with conditions, and in a browser.
    pub editing: bool,
}

impl Browse {
    pub fn copy(&self, heap: Heap) -> Result<Browse, Memory>
        ensures { IfOk result (λ copy. copy ≡ self.now) }
    {
        Ok(Browse {
            title: self.title.copy(heap)?,
            language: self.language.copy(heap)?,
            home: self.home.copy(heap)?,
            guest: copied(heap, self.guest.as_ref())?,
            login: self.login,
            editing: self.editing,
        })
    }
}

/// Copies of groups, where there are some.
fn copied(heap: Heap, groups: Option<&Groups>) -> Result<Option<Groups>, Memory>
    ensures { IfOk result (λ copy. copy ≡ option_copied groups.entry) }
{
    let Some(groups) = groups else {
        return Ok(None);
    };
    Ok(Some(groups.copy(heap)?))
}

/// What is set for a server that runs. No event changes it.
#[derive(Drop)]
pub struct Settings {
    /// Whether connections are kept after a reply.
    pub keep_alive: bool,
    /// Whether pages are edited. Where they aren't, no resource has the methods that edit.
    pub takes_edits: bool,
    /// The pages for people, where there are some.
    pub browse: Option<Browse>,
}

/// What the pages offer whoever asks, beside what they show.
#[derive(Clone, Copy, PartialEq, Eq)]
pub struct Offers {
    /// A link to sign in.
    pub sign_in: bool,
    /// Links that edit pages and begin new ones.
    pub tools: bool,
}
