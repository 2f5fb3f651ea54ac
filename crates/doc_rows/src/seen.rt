//! What a reader sees, by rows.

ghost use Rattle.std.specs.Prelude.{◌≡◌, ◌++◌, ◌∷◌, [], Some, IfOk, option_copied, string_bytes};
ghost use Rattle.std.specs.FinMap as map;
ghost use Rattle.doc_store_readers.specs.Sites.{Site, view_of};
ghost use Rattle.doc_rows.specs.Looks.{first_from, from_text, greater, last_before, lesser};
ghost use Rattle.doc_rows.specs.Rows.{IsRows, paths_among, paths_in};

use crate::rows::Rows;
use doc_page_parts::failure::Memory;
use doc_page_parts::heap::{Heap, String, Vec};
use doc_page_parts::list::List;
use doc_page_parts::text::Text;
use doc_store_readers::reader::Reader;

impl Rows {
    /// The first path that a reader sees and that doesn't come before a text: one look into each row of theirs.
    pub fn first_seen(&self, reader: &Reader, from: &String) -> Option<&str>
        ensures { (site : Site) → IsRows site.pages self.now
            → option_copied result
            ≡ first_from (string_bytes from.now) (paths_in (view_of site (Some reader.now))) }
    {
        let names = reader.groups.names();
        if reader.owner {
            return self.first("*", from);
        }
        self.first_among(names, from)
    }

    /// The last path that a reader sees and that comes before a text: one look into each row of theirs.
    pub fn last_seen(&self, reader: &Reader, before: &String) -> Option<&str>
        ensures { (site : Site) → IsRows site.pages self.now
            → option_copied result
            ≡ last_before (string_bytes before.now) (paths_in (view_of site (Some reader.now))) }
    {
        let names = reader.groups.names();
        if reader.owner {
            return self.last("*", before);
        }
        self.last_among(names, before)
    }

    /// The paths that a reader sees from a text on, in order: each is found by one look into each row of theirs.
    pub fn paths_seen(&self, heap: Heap, reader: &Reader, from: &str) -> Result<List<Text>, Memory>
        ensures { (site : Site) → IsRows site.pages self.now → IfOk result (λ paths.
            paths ≡ from_text from.now (paths_in (view_of site (Some reader.now)))) }
    {
        let mut found = Vec::new(heap);
        let mut start = String::from_str(heap, from)?;
        for _turn in 0..usize::MAX {
            let Some(path) = self.first_seen(reader, &start) else {
                return Ok(List::new(found));
            };
            start = next_text(heap, path)?;
            found.push(Text::copy_of(heap, path)?)?;
        }
        Err(Memory)
    }

    /// The first path of some rows that doesn't come before a text.
    fn first_among(&self, rows: &[Text], from: &String) -> Option<&str>
        ensures { option_copied result
            ≡ first_from (string_bytes from.now) (map.keys (paths_among self.now rows.now)) }
    {
        let mut best = None;
        for row in rows {
            best = lesser(best, self.first(row.get(), from));
        }
        best
    }

    /// The last path of some rows that comes before a text.
    fn last_among(&self, rows: &[Text], before: &String) -> Option<&str>
        ensures { option_copied result
            ≡ last_before (string_bytes before.now) (map.keys (paths_among self.now rows.now)) }
    {
        let mut best = None;
        for row in rows {
            best = greater(best, self.last(row.get(), before));
        }
        best
    }
}

/// The text right behind another.
fn next_text(heap: Heap, text: &str) -> Result<String, Memory>
    ensures { IfOk result (λ next. string_bytes next ≡ text.now ++ (0 ∷ [])) }
{
    let mut next = String::from_str(heap, text)?;
    next.push_str("\0")?;
    Ok(next)
}

/// The one of two that comes first, where both are there.
fn lesser<'a>(one: Option<&'a str>, other: Option<&'a str>) -> Option<&'a str>
    ensures { option_copied result ≡ lesser (option_copied one.entry) (option_copied other.entry) }
{
    let Some(first) = one else {
        return other;
    };
    let Some(second) = other else {
        return one;
    };
    if second < first { other } else { one }
}

/// The one of two that comes last, where both are there.
fn greater<'a>(one: Option<&'a str>, other: Option<&'a str>) -> Option<&'a str>
    ensures { option_copied result ≡ greater (option_copied one.entry) (option_copied other.entry) }
{
    let Some(first) = one else {
        return other;
    };
    let Some(second) = other else {
        return one;
    };
    if first < second { other } else { one }
}
