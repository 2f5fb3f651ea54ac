//! What the calls share.

use crate::sites::of_site::Site;
use crate::sites::stop::Stop;
use doc_cache::cache::PageCache;
use doc_index::index::Index;
use doc_page_parts::heap::{Heap, String};
use doc_page_parts::path::{Path, PathError};
use doc_store::groups::{Groups, GroupsError};
use doc_store::reader::Reader;
use doc_store::readers::Readers;
use trial::answer::{two_texts, word_and_text};

/// What the calls change.
#[derive(Drop)]
pub struct Trial {
    pub heap: Heap,
    pub site: Site,
    pub readers: Readers,
    pub index: Index<u64>,
    pub cache: PageCache,
    /// The path of the page of which it is counted how often a reader is asked for it, and how often that was for the last answer.
    pub watched: String,
    pub asked: u64,
}

impl Trial {
    /// Everything empty.
    pub fn new(heap: Heap) -> Result<Trial, Stop> {
        match PageCache::new(heap, 1) {
            Ok(cache) => Trial::with_cache(heap, cache),
            Err(_) => Err(Stop::Memory),
        }
    }

    fn with_cache(heap: Heap, cache: PageCache) -> Result<Trial, Stop> {
        match Readers::from_toml(heap, "") {
            Ok(readers) => Ok(Trial {
                heap,
                site: Site::new(heap),
                readers,
                index: Index::new(heap),
                cache,
                watched: String::new(heap),
                asked: 0,
            }),
            Err(_) => {
                drop(cache);
                Err(Stop::Memory)
            }
        }
    }
}

/// Two texts that a call is given, or one and further ones.
pub fn two(given: &str) -> Result<(&str, &str), Stop> {
    match two_texts(given) {
        Some(both) => Ok(both),
        None => Err(Stop::NoCall),
    }
}

/// The same, where nothing need stand behind the first.
pub fn last_of_two(given: &str) -> (&str, &str) {
    match two_texts(given) {
        Some(both) => both,
        None => (given, ""),
    }
}

/// A word that a call is given, and what stands behind its space.
pub fn word_of(given: &str) -> Result<(&str, &str), Stop> {
    match word_and_text(given) {
        Some(both) => Ok(both),
        None => Err(Stop::NoCall),
    }
}

/// The same, where nothing need stand behind the word.
pub fn last_word_of(given: &str) -> (&str, &str) {
    match word_and_text(given) {
        Some(both) => both,
        None => (given, ""),
    }
}

/// The number that a text writes.
pub fn number_of(text: &str) -> Result<u64, Stop> {
    match text.parse::<u64>() {
        Ok(number) => Ok(number),
        Err(_) => Err(Stop::NoCall),
    }
}

/// The path that a text is.
pub fn path_of(heap: Heap, text: &str) -> Result<Path, Stop> {
    match Path::new(heap, text) {
        Ok(path) => Ok(path),
        Err(PathError::BadPath) => Err(Stop::NoCall),
        Err(PathError::Memory) => Err(Stop::Memory),
    }
}

/// The groups of names with commas between them.
pub fn groups_of(heap: Heap, names: &str) -> Result<Groups, Stop> {
    match Groups::new(heap, names) {
        Ok(groups) => Ok(groups),
        Err(GroupsError::Memory) => Err(Stop::Memory),
        Err(_) => Err(Stop::NoCall),
    }
}

/// The reader that a text names: `owner`, or a reader of groups.
pub fn reader_of(heap: Heap, text: &str) -> Result<Reader, Stop> {
    let owner = text == "owner";
    let groups = groups_of(heap, if owner { "" } else { text })?;
    Ok(Reader { owner, groups })
}
