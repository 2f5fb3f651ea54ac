//! Groups of readers.

ghost use Rattle.std.specs.Prelude.{◌≡◌, [], IfOk};
ghost use Rattle.doc_page_parts.specs.Refusals.{IsAnswer};
ghost use Rattle.doc_store_readers.specs.Groups.{IsGroups, groups_of, groups_of_names, meet, texts_of};

use crate::names::{add_name, are_groups, are_groups_in_text, have_common_name};
use arrayvec::ArrayVec;
use doc_page_parts::failure::Memory;
use doc_page_parts::heap::{Heap, Vec};
use doc_page_parts::list::List;
use doc_page_parts::text::Text;
use std::marker::Model;
use thiserror::Error;

/// Why no groups could be made of a text.
#[derive(Clone, Copy, Debug, PartialEq, Eq, Error)]
pub enum GroupsError {
    /// A name is no group name.
    #[error("not the name of a group")]
    BadGroup,
    /// There are more than 32 different names.
    #[error("more than 32 groups")]
    TooMany,
    #[error("{}", Memory)]
    Memory,
}

impl From<Memory> for GroupsError {
    ghost use Rattle.std.specs.Prelude.{◌≡◌};
    ghost use Rattle.doc_store_readers.specs.declared.groups.GroupsError.TheVariants as refusals;

    ghost from_gives = { λ _ e. e ≡ refusals.Memory };

    fn from(_e: Memory) -> GroupsError {
        GroupsError::Memory
    }
}

/// A set of groups, at most 32. The name of a group has 1 to 32 lower case ASCII letters, digits
/// or `-`. Contracts see the names, each once and in the order of their bytes, so that equal sets
/// are equal lists.
#[derive(Debug, PartialEq, Eq, Drop)]
pub struct Groups {
    names: List<Text>,
}

impl Model for Groups {
    ghost use Rattle.std.specs.Prelude.{ℕ, List as Seq};
    ghost use Rattle.doc_store_readers.specs.Groups.{IsGroups};

    ghost Value = { Seq (Seq ℕ) };

    ghost view = { λ g. g.names };

    ghost invariant = { λ g. IsGroups g.names };

    ghost inverse = { λ names. record { names = names } };
}

impl Groups {
    /// No groups.
    #[tactic(auto, using(crate::proofs::SortedSteps::no_names))]
    pub fn none(heap: Heap) -> Groups
        ensures { result ≡ [] }
    {
        Groups {
            names: List::new(Vec::new(heap)),
        }
    }

    /// The groups that a text names, joined by commas; the empty text names none. A name may stand
    /// more than once.
    #[tactic(auto, unfolding(crate::specs::Groups::groups_of_names))]
    pub fn new(heap: Heap, text: &str) -> Result<Groups, GroupsError>
        ensures { IsAnswer GroupsError.Memory (groups_of text.now) result }
    {
        if text.is_empty() {
            return Ok(Groups::none(heap));
        }
        if !are_groups_in_text(text) {
            return Err(GroupsError::BadGroup);
        }
        let mut names = ArrayVec::new();
        for name in text.split(',') {
            add_name(&mut names, name)?;
        }
        Ok(Groups::copies_of(heap, names.as_slice())?)
    }

    /// The groups of these names, of which some may be the same.
    #[tactic(auto, unfolding(crate::specs::Groups::groups_of_names))]
    pub fn of_names(heap: Heap, names: &[&str]) -> Result<Groups, GroupsError>
        ensures { IsAnswer GroupsError.Memory (groups_of_names (texts_of names.now)) result }
    {
        if !are_groups(names) {
            return Err(GroupsError::BadGroup);
        }
        let mut different = ArrayVec::new();
        for name in names {
            add_name(&mut different, name)?;
        }
        Ok(Groups::copies_of(heap, different.as_slice())?)
    }

    /// Groups with copies of these names.
    #[tactic(auto, using(crate::proofs::SortedSteps::groups_are))]
    fn copies_of(heap: Heap, names: &[&str]) -> Result<Groups, Memory>
        requires { IsGroups (texts_of names.now) }
        ensures { IfOk result (λ groups. groups ≡ texts_of names.now) }
    {
        let mut copies = Vec::with_capacity(heap, names.len())?;
        for name in names {
            copies.push(Text::copy_of(heap, name)?)?;
        }
        Ok(Groups {
            names: List::new(copies),
        })
    }

    #[tactic(auto, using(crate::proofs::SortedSteps::groups_are))]
    pub fn copy(&self, heap: Heap) -> Result<Groups, Memory>
        ensures { IfOk result (λ copy. copy ≡ self.now) }
    {
        let mut names = Vec::with_capacity(heap, self.names.get().len())?;
        for name in self.names.get() {
            names.push(name.copy(heap)?)?;
        }
        Ok(Groups {
            names: List::new(names),
        })
    }

    /// The names, each once and in the order of their bytes.
    pub fn names(&self) -> &[Text]
        ensures same { result.now ≡ self.now }
        ensures groups { IsGroups result.now }
    {
        self.names.get()
    }

    /// Whether the two have a group in common.
    pub fn meets(&self, others: &Groups) -> bool
        ensures { result ≡ meet self.now others.now }
    {
        have_common_name(self.names.get(), others.names.get())
    }
}
