//! The names of groups.

ghost use Rattle.std.specs.Prelude.{◌≡◌, ◌≤◌, ◌<◌, ◌∷◌, ◌++◌, length, take, drop, OnOk, IfErr, MatchResult};
ghost use Rattle.std.specs.Cmp.Lexicographic.{slice_cmp};
ghost use Rattle.std.specs.List.{list_all};
ghost use Rattle.std.specs.List.Sorted.{IsStrictlySortedBy};
ghost use Rattle.std.specs.Ordering.{nat_cmp};
ghost use Rattle.doc_store_readers.specs.Groups.{group_limit, has_good_length, is_group, is_group_byte, meet, parts_of, texts_of, with_name};

use crate::groups::GroupsError;
use arrayvec::ArrayVec;
use doc_page_parts::text::Text;
use std::cmp::Ordering;

/// Adds a name in its place by the order of bytes, unless it stands already.
pub fn add_name<'a>(names: &mut ArrayVec<&'a str, 32>, name: &'a str) -> Result<(), GroupsError>
    ensures ok { OnOk result
        (texts_of names.new.items ≡ with_name name.entry.now (texts_of names.old.items)) }
    ensures err { IfErr result (λ e. (e ≡ GroupsError.TooMany)
        × (group_limit < length (with_name name.entry.now (texts_of names.old.items)))) }
{
    let Err(place) = place_of(names.as_slice(), name) else {
        return Ok(());
    };
    if names.is_full() {
        return Err(GroupsError::TooMany);
    }
    names.insert(place, name);
    Ok(())
}

/// Where a name stands, or else its place.
fn place_of(names: &[&str], name: &str) -> Result<usize, usize>
    ensures bound { IfErr result (λ place. place ≤ length names.now) }
    ensures place { MatchResult result
        (λ _. with_name name.now (texts_of names.now) ≡ texts_of names.now)
        (λ place. with_name name.now (texts_of names.now)
        ≡ texts_of (take place names.now) ++ name.now ∷ texts_of (drop place names.now)) }
{
    for (place, other) in names.iter().enumerate() {
        match name.cmp(other) {
            Ordering::Less => return Err(place),
            Ordering::Equal => return Ok(place),
            Ordering::Greater => {}
        }
    }
    Err(names.len())
}

/// Whether two lists of different names, both in the order of bytes, have a name in common.
pub fn have_common_name(ours: &[Text], theirs: &[Text]) -> bool
    requires ours { IsStrictlySortedBy (slice_cmp nat_cmp) ours.now }
    requires theirs { IsStrictlySortedBy (slice_cmp nat_cmp) theirs.now }
    ensures { result ≡ meet ours.now theirs.now }
{
    let mut ours = ours;
    let mut theirs = theirs;
    loop {
        let Some((our, our_rest)) = ours.split_first() else {
            return false;
        };
        let Some((their, their_rest)) = theirs.split_first() else {
            return false;
        };
        match our.cmp(their) {
            Ordering::Less => ours = our_rest,
            Ordering::Equal => return true,
            Ordering::Greater => theirs = their_rest,
        }
    }
}

/// Whether each part of a text between its commas is the name of a group.
pub fn are_groups_in_text(text: &str) -> bool
    ensures { result ≡ list_all is_group (parts_of text.now) }
{
    text.split(',').all(|name| is_group(name))
}

pub fn are_groups(names: &[&str]) -> bool
    ensures { result ≡ list_all is_group (texts_of names.now) }
{
    for name in names {
        if !is_group(name) {
            return false;
        }
    }
    true
}

fn is_group(name: &str) -> bool
    ensures { result ≡ is_group name.now }
{
    has_good_length(name) && has_good_bytes(name.as_bytes())
}

fn has_good_length(name: &str) -> bool
    ensures { result ≡ has_good_length name.now }
{
    !name.is_empty() && name.len() <= 32
}

fn has_good_bytes(name: &[u8]) -> bool
    ensures { result ≡ list_all is_group_byte name.now }
{
    name.iter().all(|b| is_group_byte(*b))
}

fn is_group_byte(b: u8) -> bool
    ensures { result ≡ is_group_byte b }
{
    b.is_ascii_lowercase() || b.is_ascii_digit() || b == b'-'
}
