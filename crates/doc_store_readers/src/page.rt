//! Pages.

ghost use Rattle.std.specs.Prelude.{◌≡◌, [], IfOk};
ghost use Rattle.doc_store_readers.specs.Pages.{empty_page};

use crate::groups::Groups;
use doc_page_parts::failure::Memory;
use doc_page_parts::heap::{Heap, String};
use doc_page_parts::text::Text;
use std::marker::Model;

/// A page: its text, the groups whose readers may see it, and its stamp. Contracts see the three.
#[derive(Debug, Drop)]
pub struct Page {
    groups: Groups,
    text: Text,
    stamp: u64,
}

impl Model for Page {
    ghost use Rattle.doc_store_readers.specs.Pages as pages;

    ghost Value = { pages.StampedPage };

    ghost coded = { pages.stamped_code };

    ghost view = { λ p.
        record { page = record { groups = p.groups; text = p.text }; stamp = p.stamp } };
}

impl Page {
    /// A page with copies of these groups and of this text.
    pub fn copy_of(heap: Heap, groups: &Groups, text: &str, stamp: u64) -> Result<Page, Memory>
        ensures { IfOk result
            (λ page. page
            ≡ record { page = record { groups = groups.now; text = text.now }; stamp = stamp }) }
    {
        Ok(Page {
            groups: groups.copy(heap)?,
            text: Text::copy_of(heap, text)?,
            stamp,
        })
    }

    /// A page without groups and text. It takes no memory.
    pub fn empty(heap: Heap) -> Page
        ensures { result ≡ empty_page }
    {
        Page {
            groups: Groups::none(heap),
            text: Text::new(String::new(heap)),
            stamp: 0,
        }
    }

    /// The same page with another stamp.
    pub fn stamped(self, stamp: u64) -> Page
        ensures { result ≡ record { page = self.page; stamp = stamp } }
    {
        let Page {
            groups,
            text,
            stamp: _,
        } = self;
        Page {
            groups,
            text,
            stamp,
        }
    }

    pub fn groups(&self) -> &Groups
        ensures { result.now ≡ self.now.page.groups }
    {
        &self.groups
    }

    pub fn text(&self) -> &str
        ensures { result.now ≡ self.now.page.text }
    {
        self.text.get()
    }

    /// The stamp that the put or the move took that last set this page or gave it its path. No two
    /// puts and moves of a store take the same.
    pub fn stamp(&self) -> u64
        ensures { result ≡ self.now.stamp }
    {
        self.stamp
    }
}
