//! Pages held under a path and a stamp, and searched by their words.

ghost use Rattle.std.specs.Prelude.{◌≡◌, ℕ, List as Seq, Option as Maybe, None, IfOk, OnOk, OnErr, length, option_copied, option_map};
ghost use Rattle.std.specs.Prelude.{map as mapped};
ghost use Rattle.std.specs.FinMap as map;
ghost use Rattle.doc_page_parts.specs.Sights.{leads_to_itself, seen};
ghost use Rattle.doc_words_search.specs.Held.{counts_or_none};
ghost use Rattle.doc_words_search.specs.Searches.{pages_of, search};
ghost use Rattle.doc_words_search.specs.Words.{word_counts};

use doc_index::index::Index;
use doc_index_tables::packed::Packed;
use doc_page_parts::failure::Memory;
use doc_page_parts::heap::Heap;
use doc_page_parts::list::List;
use doc_page_parts::path::Path;
use doc_page_parts::rendered::Rendered;
use doc_page_parts::sight::Sight;
use doc_words_search::flagging::slots_flagged;
use doc_words_search::hit::Hit;
use doc_words_search::marking::slots_for;
use doc_words_search::ranking::search_in_order;
use doc_words_search::search::{search_in, seen_among};
use doc_words_search::word::Word;
use doc_words_search::words::counted;
use std::marker::Model;

/// Pages, each held under a path and a stamp with the counts of its words. Contracts see the map.
pub struct WordIndex {
    heap: Heap,
    pages: Index<()>,
}

/// Written out, so that it is proved here once: what a derived drop does is proved wherever a value is let go.
impl Drop for WordIndex {
    fn drop(self) {
        let WordIndex { heap: _, pages: _ } = self;
    }
}

impl Model for WordIndex {
    ghost use Rattle.std.specs.Prelude.{ℕ};
    ghost use Rattle.std.specs.Coded.{coded×, coded_list, coded_ℕ};
    ghost use Rattle.std.specs.FinMap as map;
    ghost use Rattle.doc_index_tables.specs.Maps.{PairMap, TextMap};
    ghost use Rattle.doc_words_search.specs.Held.{words_held};

    ghost Value = { PairMap (TextMap ℕ) };

    ghost coded = { map.code (coded× (coded_list coded_ℕ) coded_ℕ)
        (map.code (coded_list coded_ℕ) coded_ℕ) };

    ghost view = { λ w. words_held w.pages };
}

impl WordIndex {
    /// An index that holds no page. It takes no memory.
    pub fn new(heap: Heap) -> WordIndex
        ensures { result ≡ map.empty }
    {
        WordIndex {
            heap,
            pages: Index::new(heap),
        }
    }

    /// Holds a page under a path and a stamp that none has. A refusal leaves the index as it was.
    pub fn add(&mut self, path: &Path, stamp: u64, page: &Rendered) -> Result<(), Memory>
        requires free { map.get self.old (path.now, stamp) ≡ None }
        ensures ok { OnOk result (self.new
            ≡ map.insert self.old (path.now, stamp) (word_counts page.now)) }
        ensures err { OnErr result (self.new ≡ self.old) }
    {
        let counts = counted(self.heap, page)?;
        self.pages.add_counts(path, stamp, (), counts)
    }

    /// Holds a page under a path and a stamp that none has, with the words of the page under another
    /// path and stamp: with none where no page is there. A refusal leaves the index as it was.
    pub fn add_copy(
        &mut self,
        from: &Path,
        from_stamp: u64,
        to: &Path,
        stamp: u64,
    ) -> Result<(), Memory>
        requires free { map.get self.old (to.now, stamp) ≡ None }
        ensures ok { OnOk result (self.new ≡ map.insert self.old (to.now, stamp)
            (counts_or_none (map.get self.old (from.now, from_stamp)))) }
        ensures err { OnErr result (self.new ≡ self.old) }
    {
        self.pages.add_copy(from, from_stamp, to, stamp, ())
    }

    /// Lets the page under a path and a stamp go, and tells whether there was one. It takes no
    /// memory.
    pub fn drop_page(&mut self, path: &Path, stamp: u64) -> bool
        ensures answer { result ≡ map.contains_key self.old (path.now, stamp) }
        ensures rest { self.new ≡ map.remove self.old (path.now, stamp) }
    {
        self.pages.drop_page(path, stamp)
    }

    /// The words of the page under a path and a stamp, each once with its count, in the order of their
    /// bytes.
    pub fn counts(&self, path: &Path, stamp: u64) -> Option<&Packed>
        ensures { option_copied result
            ≡ option_map map.entries (map.get self.now (path.now, stamp)) }
    {
        let Some(counts) = self.pages.counts(path, stamp) else {
            return None;
        };
        Some(counts.entries())
    }

    /// Searches the held pages that are seen for those that have each word: the first 100 by score
    /// falling, then by path. The list may be empty, and a word may stand in it twice. The sight is
    /// asked once a page, which counts those that are seen; the rest is `search_among`, by which the
    /// product serves.
    pub fn search<S: Sight>(
        &self,
        heap: Heap,
        words: &[Word],
        sight: &S,
    ) -> Result<List<Hit>, Memory>
        ensures { IfOk result (λ hits. hits
            ≡ search (seen (S.goals sight.now) (pages_of self.now)) words.now) }
    {
        let count = self.count_seen(heap, sight)?;
        self.search_among(heap, words, sight, count)
    }

    /// How many of the held pages are seen.
    fn count_seen<S: Sight>(&self, heap: Heap, sight: &S) -> Result<u64, Memory>
        ensures { IfOk result (λ count. count
            ≡ length (seen (S.goals sight.now) (pages_of self.now))) }
    {
        let slots = self.pages.in_order(heap)?;
        let seen = seen_among(heap, &self.pages, &slots, sight)?;
        Ok(seen.len() as u64)
    }

    /// As `search`, told how many of the held pages are seen. It looks at the pages that have one of
    /// the words alone, and asks the sight once for each of these.
    pub fn search_among<S: Sight>(
        &self,
        heap: Heap,
        words: &[Word],
        sight: &S,
        count: u64,
    ) -> Result<List<Hit>, Memory>
        requires count { count ≡ length (seen (S.goals sight.now) (pages_of self.now)) }
        ensures { IfOk result (λ hits. hits
            ≡ search (seen (S.goals sight.now) (pages_of self.now)) words.now) }
    {
        let marked = slots_for(heap, &self.pages, words)?;
        let seen = seen_among(heap, &self.pages, &marked, sight)?;
        search_in(heap, &self.pages, &seen, count, words)
    }

    /// As `search`, told of each held page, by path and then by stamp, whether it is seen.
    pub fn search_flagged(
        &self,
        heap: Heap,
        words: &[Word],
        flags: &[bool],
    ) -> Result<List<Hit>, Memory>
        ensures { (goals : Seq ℕ → Maybe (Seq ℕ))
            → flags.now ≡ mapped (λ page. leads_to_itself (goals page.0) page.0) (pages_of self.now)
            → IfOk result (λ hits. hits ≡ search (seen goals (pages_of self.now)) words.now) }
    {
        let slots = self.pages.in_order(heap)?;
        let seen = slots_flagged(heap, &slots, flags)?;
        search_in_order(heap, &self.pages, &seen, seen.len() as u64, words)
    }

    /// How many pages have one of these words at least, whether they are seen or not: as many as have the
    /// most frequent of them, and all where there are no words. A guess, on which nothing rests: of so many
    /// pages `search_among` asks the sight.
    pub fn reach(&self, words: &[Word]) -> usize {
        if words.is_empty() {
            return self.pages.len();
        }
        let mut most = 0;
        for word in words {
            most = most.max(self.holders(word));
        }
        most
    }

    /// How many pages have a word.
    fn holders(&self, word: &Word) -> usize {
        let Some(row) = self.pages.of_key(word.text()) else {
            return 0;
        };
        row.len()
    }
}
