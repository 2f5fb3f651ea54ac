//! What a cell of a delimiter row says of its column.
ghost use Rattle.std.specs.Prelude.{◌≡◌, ◌==◌, chars};
ghost use Rattle.doc_rules.specs.Tables.{aligned, alignment_of, colon_end, dashes, some_dashes};

use doc_lines::scan::character::{is, next_char};
use doc_lines::scan::run::many;
use doc_rules::alignment::Alignment;

/// What a cell of a delimiter row says: dashes, one at least, with at most one `:` at each end.
#[tactic(auto, unfolding(doc_rules::specs::Tables::alignment_of))]
pub fn alignment_of(cell: &str) -> Option<Alignment>
    ensures { result ≡ alignment_of (chars cell.now) }
{
    match is(cell, ':') {
        Some(rest) => Some(aligned(true, some_dashes(rest)?)),
        None => Some(aligned(false, some_dashes(cell)?)),
    }
}

#[tactic(auto, unfolding(doc_rules::specs::Tables::aligned))]
fn aligned(left: bool, right: bool) -> Alignment
    ensures { result ≡ aligned left right }
{
    match (left, right) {
        (true, true) => Alignment::Center,
        (true, false) => Alignment::Left,
        (false, true) => Alignment::Right,
        (false, false) => Alignment::Default,
    }
}

/// Whether a `:` stands behind the dashes, of which there is one at least.
#[tactic(auto, unfolding(doc_rules::specs::Tables::some_dashes))]
fn some_dashes(text: &str) -> Option<bool>
    ensures { result ≡ some_dashes (chars text.now) }
{
    dashes(is(text, '-')?)
}

#[tactic(auto, unfolding(doc_rules::specs::Tables::dashes))]
fn dashes(text: &str) -> Option<bool>
    ensures { result ≡ dashes (chars text.now) }
{
    colon_end(many(text, is_dash))
}

fn is_dash(c: char) -> bool
    ensures { result ≡ (c == 45) }
{
    c == '-'
}

/// Whether a `:` stands here, where nothing else does.
#[tactic(auto, unfolding(doc_rules::specs::Tables::colon_end))]
fn colon_end(text: &str) -> Option<bool>
    ensures { result ≡ colon_end (chars text.now) }
{
    let Some((c, rest)) = next_char(text) else {
        return Some(false);
    };
    if c == ':' && next_char(rest).is_none() {
        Some(true)
    } else {
        None
    }
}
