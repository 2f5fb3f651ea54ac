//! What a reader sees of a site.

ghost use Rattle.std.specs.Prelude.{◌≡◌, Some, None, MatchOption};
ghost use Rattle.doc_store_readers.specs.Sites.{IsSite};

use crate::aliases::Aliases;
use crate::counted_pages::CountedPages;
use doc_page_parts::path::Path;
use doc_page_parts::sight::Sight;
use doc_store_readers::reader::Reader;
use std::marker::Model;

/// What a reader sees of a site. Contracts see the view: the pages that the reader may see, and the
/// aliases that lead to such pages. An alias of a hidden page leads nowhere.
#[derive(Drop)]
pub struct SiteSight<'a> {
    pages: &'a CountedPages,
    aliases: &'a Aliases,
    reader: &'a Reader,
}

impl<'a> Model for SiteSight<'a> {
    ghost use Rattle.std.specs.Prelude.{Some};
    ghost use Rattle.doc_store_readers.specs.Sites.{IsSite, View, view_code, view_of};
    ghost use Rattle.doc_store.specs.Store.{site_with};

    ghost Value = { View };

    ghost coded = { view_code };

    ghost view = { λ s. view_of (site_with s.pages.now s.aliases.now) (Some s.reader.now) };

    ghost invariant = { λ s. IsSite (site_with s.pages.now s.aliases.now) };
}

impl<'a> SiteSight<'a> {
    ghost use Rattle.doc_store_readers.specs.Sites.{IsSite, view_of};
    ghost use Rattle.doc_store.specs.Store.{site_with};

    pub(crate) fn new(
        pages: &'a CountedPages,
        aliases: &'a Aliases,
        reader: &'a Reader,
    ) -> SiteSight<'a>
        requires { IsSite (site_with pages.now aliases.now) }
        ensures { result ≡ view_of (site_with pages.now aliases.now) (Some reader.now) }
    {
        SiteSight {
            pages,
            aliases,
            reader,
        }
    }
}

impl<'a> Sight for SiteSight<'a> {
    ghost use Rattle.doc_store_readers.specs.Sites.{goal_in};

    ghost goals = { goal_in };

    fn sees(&self, path: &Path) -> bool {
        self.pages.sees(self.reader, path)
    }

    fn goal(&self, path: &Path) -> Option<&Path> {
        if let Some((path, page)) = self.pages.entry(path) {
            return if self.reader.may_see(page) {
                Some(path)
            } else {
                None
            };
        }
        let goal = self.aliases.get(path)?;
        self.pages.seen_goal(self.reader, goal)
    }
}
