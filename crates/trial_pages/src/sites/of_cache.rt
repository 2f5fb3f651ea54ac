//! Calls of a cache. A key is a stamp and, behind its space, the goals of a page's links, with spaces between: `-` where one has none.

use crate::sites::given::{number_of, path_of, two, word_of};
use crate::sites::stop::{Stop, told, written};
use doc_cache::cache::PageCache;
use doc_cache::failure::CacheError;
use doc_cache::key::Key;
use doc_page_parts::heap::{Heap, String, Vec};
use doc_page_parts::list::List;
use doc_page_parts::path::Path;
use doc_page_parts::text::Text;

/// `CAPACITY`: begins an empty cache.
pub fn renewed(heap: Heap, cache: &mut PageCache, given: &str) -> Result<String, Stop> {
    let capacity = number_of(given)?;
    match PageCache::new(heap, capacity as usize) {
        Ok(new) => {
            *cache = new;
            told(heap, "Ok(())")
        }
        Err(CacheError::BadCapacity) => told(heap, "Err(BadCapacity)"),
        Err(CacheError::Memory) => Err(Stop::Refused),
    }
}

/// `KEY | TEXT`: true, or no memory.
pub fn kept(heap: Heap, cache: &mut PageCache, given: &str) -> Result<String, Stop> {
    let (key, text) = two(given)?;
    let key = key_of(heap, key)?;
    let text = Text::copy_of(heap, text)?;
    if cache.keep(key, text) {
        told(heap, "true")
    } else {
        Err(Stop::Refused)
    }
}

/// `KEY`: the text under it.
pub fn looked(heap: Heap, cache: &mut PageCache, given: &str) -> Result<String, Stop> {
    let key = key_of(heap, given)?;
    let told = written(heap, cache.look(&key));
    drop(key);
    told
}

fn key_of(heap: Heap, given: &str) -> Result<Key, Stop> {
    let (stamp, goals) = word_of(given)?;
    let stamp = number_of(stamp)?;
    let decisions = goals_of(heap, goals)?;
    Ok(Key { stamp, decisions })
}

fn goals_of(heap: Heap, goals: &str) -> Result<List<Option<Path>>, Stop> {
    let mut all = Vec::new(heap);
    push_goals(heap, &mut all, goals)?;
    Ok(List::new(all))
}

fn push_goals(heap: Heap, all: &mut Vec<Option<Path>>, goals: &str) -> Result<(), Stop> {
    for goal in goals.split(' ') {
        push_goal(heap, all, goal)?;
    }
    Ok(())
}

fn push_goal(heap: Heap, all: &mut Vec<Option<Path>>, goal: &str) -> Result<(), Stop> {
    if goal.is_empty() {
        return Ok(());
    }
    let goal = goal_of(heap, goal)?;
    all.push(goal)?;
    Ok(())
}

fn goal_of(heap: Heap, goal: &str) -> Result<Option<Path>, Stop> {
    if goal == "-" {
        return Ok(None);
    }
    Ok(Some(path_of(heap, goal)?))
}
