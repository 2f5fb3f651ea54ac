//! Names with numbers, and the anchors that are kept.
ghost use Rattle.std.specs.Prelude.{◌≡◌, ◌∷◌, ◌+◌, ◌<◌, ◌≤◌, ◌^◌, chars, string_bytes, Some, IfOk, OnErr, OnOk};
ghost use Rattle.std.specs.BTreeMap.{get_by_text};
ghost use Rattle.doc_rules.specs.Anchors.{with_number};
ghost use Rattle.doc_html_anchors.specs.Uses.{Uses, IsAnchor};
ghost use Rattle.doc_html_anchors.specs.Numbers.{names, name_of, AreNumbered, AreUsed, IsNext};

use doc_page_parts::failure::Memory;
use doc_page_parts::heap::{BTreeMap, Heap, String};
use doc_page_parts::text::Text;

/// Gives a heading of this name its anchor, and keeps it.
pub fn give(entries: &mut BTreeMap<String, u64>, heap: Heap, name: String) -> Result<Text, Memory>
    requires { AreNumbered entries.old }
    ensures anchor { IfOk result (λ anchor. IsAnchor (names entries.old) (name_of name)
        (chars anchor)) }
    ensures uses { IfOk result (λ anchor. Uses (names entries.new)
        (chars anchor ∷ names entries.old)) }
    ensures numbered { AreNumbered entries.new }
    ensures err { OnErr result (names entries.new ≡ names entries.old) }
{
    match entries.get(name.as_str()).copied() {
        None => put(entries, heap, name),
        Some(first) => put_numbered(entries, heap, &name, first),
    }
}

/// Keeps an anchor.
fn put(entries: &mut BTreeMap<String, u64>, heap: Heap, anchor: String) -> Result<Text, Memory>
    requires { AreNumbered entries.old }
    ensures anchor { IfOk result (λ text. text ≡ string_bytes anchor) }
    ensures uses { OnOk result (Uses (names entries.new)
        (name_of anchor ∷ names entries.old)) }
    ensures numbered { AreNumbered entries.new }
    ensures err { OnErr result (names entries.new ≡ names entries.old) }
{
    let text = Text::copy_of(heap, &anchor)?;
    entries.insert(anchor, 1)?;
    Ok(text)
}

/// Keeps the anchor that is made of a name and the least number that is free, of which those below `first` are used.
fn put_numbered(
    entries: &mut BTreeMap<String, u64>,
    heap: Heap,
    name: &str,
    first: u64,
) -> Result<Text, Memory>
    requires numbered { AreNumbered entries.old }
    requires first { get_by_text entries.old name.now ≡ Some first }
    ensures anchor { IfOk result (λ anchor. IsAnchor (names entries.old) (chars name.now)
        (chars anchor)) }
    ensures uses { IfOk result (λ anchor. Uses (names entries.new)
        (chars anchor ∷ names entries.old)) }
    ensures numbered { AreNumbered entries.new }
    ensures err { OnErr result (names entries.new ≡ names entries.old) }
{
    let (number, anchor) = next_number(heap, entries, name, first)?;
    let text = put(entries, heap, anchor)?;
    raise(entries, name, number + 1);
    Ok(text)
}

/// The least number from this one on that is free behind a name, and the anchor that it makes. Memory runs out before there are 2^64
/// of them.
fn next_number(
    heap: Heap,
    entries: &BTreeMap<String, u64>,
    name: &str,
    first: u64,
) -> Result<(u64, String), Memory>
    ensures next { IfOk result (λ found. IsNext (names entries.now) (chars name.now) first
        found.0) }
    ensures anchor { IfOk result (λ found. name_of found.1 ≡ with_number (chars name.now) found.0) }
    ensures small { IfOk result (λ found. found.0 + 1 < 2 ^ 64) }
{
    'numbers: for number in first..u64::MAX {
        let anchor = with_number(heap, name, number)?;
        if !entries.contains_key(anchor.as_str()) {
            return Ok((number, anchor));
        }
    }
    Err(Memory)
}

/// `NAME-n`.
fn with_number(heap: Heap, name: &str, number: u64) -> Result<String, Memory>
    ensures { IfOk result (λ out. name_of out ≡ with_number (chars name.now) number) }
{
    Ok(format!(in heap; "{name}-{number}")?)
}

/// Keeps another number with a name, where the name is kept. Those below it are used.
fn raise(entries: &mut BTreeMap<String, u64>, name: &str, number: u64)
    requires numbered { AreNumbered entries.old }
    requires positive { 1 ≤ number }
    requires below { AreUsed (names entries.old) (chars name.now) 1 number }
    ensures names { names entries.new ≡ names entries.old }
    ensures numbered { AreNumbered entries.new }
{
    let Some(next) = entries.get_mut(name) else {
        return;
    };
    *next = number;
}
