//! What a part of a file tells, read from the mark on.

ghost use Rattle.std.specs.Prelude.{◌≡◌, ◌<◌, ◌∷◌, ◌^◌, List as Seq, ℕ, IfOk, IfSome};
ghost use Rattle.doc_server_journal_records.specs.Records.{open_gate};
ghost use Rattle.doc_server_follow.specs.Sights.{IsSight, MovesTo, Sees, Stands, beyond, longest};
ghost use Rattle.doc_server_follow.specs.declared.sight.Sight.TheVariants as sights;

use crate::followed::Followed;
use crate::growing::Growing;
use crate::growing_fault::GrowingFault;
use crate::taken::{Taken, taken_from};
use doc_page_parts::bytes::Bytes;
use doc_page_parts::heap::Heap;
use doc_page_parts::list::List;
use doc_server_journal_records::record::{FOOT_LEN, HEAD_LEN, TEXT_LIMIT};

/// How many bytes are read behind the mark where the gate is open.
const NEAR: usize = 65_536;

/// How many bytes the longest record takes with its gate.
const LONGEST: usize = 1 + HEAD_LEN + TEXT_LIMIT + FOOT_LEN;

/// What a part of a file tells.
#[derive(Drop)]
pub enum Sight {
    /// The mark or a gate behind it is missing.
    Back,
    /// The gate is closed.
    Rests,
    /// The gate is open, and the part ends within the record behind it.
    Short,
    /// The gate is open, and no record stands behind it.
    Damaged,
    /// The texts of the whole records behind the mark, and the journal followed as far as those.
    More(List<Bytes>, Followed),
}

/// What a piece of a file tells that is to begin with the mark.
fn sight_of(heap: Heap, followed: &Followed, piece: &[u8]) -> Result<Sight, GrowingFault>
    ensures { IfOk result (λ sight. IsSight followed.now piece.now sight) }
{
    match followed.behind_mark(piece) {
        Some(bytes) => sight_behind(heap, followed, bytes),
        None => Ok(Sight::Back),
    }
}

/// What the bytes behind the mark tell.
fn sight_behind(heap: Heap, followed: &Followed, bytes: &[u8]) -> Result<Sight, GrowingFault>
    ensures { IfOk result (λ sight. Stands followed.now bytes.now sight) }
{
    match bytes {
        [0xf0, ..] => Ok(Sight::Rests),
        [0xff, ..] => sight_behind_gate(heap, followed, bytes),
        _ => Ok(Sight::Back),
    }
}

/// What they tell where they begin with an open gate.
fn sight_behind_gate(heap: Heap, followed: &Followed, bytes: &[u8]) -> Result<Sight, GrowingFault>
    requires { (behind : Seq ℕ) × (bytes.now ≡ open_gate ∷ behind) }
    ensures { IfOk result (λ sight. Stands followed.now bytes.now sight) }
{
    let taken = taken_from(heap, followed.digest(), bytes)?;
    let is_empty = taken.texts.get().is_empty();
    if !is_empty {
        return more_of(followed, taken);
    }
    if taken.is_short {
        return Ok(Sight::Short);
    }
    Ok(Sight::Damaged)
}

/// The records that were taken.
fn more_of(followed: &Followed, taken: Taken) -> Result<Sight, GrowingFault>
    ensures { IfOk result (λ sight. sight ≡ sights.More taken.texts (beyond followed.now taken)) }
{
    match followed.moved(&taken) {
        Some(further) => Ok(Sight::More(taken.texts, further)),
        None => Err(GrowingFault::Failed),
    }
}

/// Looks at so many bytes behind the mark.
fn look_at<F: Growing>(
    heap: Heap,
    followed: &Followed,
    file: &mut F,
    most: usize,
) -> Result<Sight, GrowingFault>
    requires some { 0 < most }
    requires fits { most < 2 ^ 32 }
    ensures sees { IfOk result (λ sight. IfSome (F.seen file.old)
        (λ bytes. Sees bytes most followed.now sight)) }
    ensures moves { IfOk result (λ sight. MovesTo followed.now sight) }
    ensures seen { F.seen file.new ≡ F.seen file.old }
{
    let len = followed.mark_len();
    let Some(at) = followed.end().checked_sub(len) else {
        return Ok(Sight::Back);
    };
    let piece = file.read_at(heap, at, len + most)?;
    sight_of(heap, followed, piece.get())
}

/// Looks behind the mark, as far as it needs to.
pub fn look_behind<F: Growing>(
    heap: Heap,
    followed: &Followed,
    file: &mut F,
) -> Result<Sight, GrowingFault>
    ensures sees { IfOk result (λ sight. IfSome (F.seen file.old)
        (λ bytes. Sees bytes longest followed.now sight)) }
    ensures moves { IfOk result (λ sight. MovesTo followed.now sight) }
    ensures seen { F.seen file.new ≡ F.seen file.old }
{
    match look_at(heap, followed, file, 1)? {
        Sight::Short => look_far(heap, followed, file),
        sight => Ok(sight),
    }
}

/// Looks behind an open gate: at records of usual lengths, and where none of those is whole, at the longest.
fn look_far<F: Growing>(
    heap: Heap,
    followed: &Followed,
    file: &mut F,
) -> Result<Sight, GrowingFault>
    ensures sees { IfOk result (λ sight. IfSome (F.seen file.old)
        (λ bytes. Sees bytes longest followed.now sight)) }
    ensures moves { IfOk result (λ sight. MovesTo followed.now sight) }
    ensures seen { F.seen file.new ≡ F.seen file.old }
{
    match look_at(heap, followed, file, NEAR)? {
        Sight::Short => look_farthest(heap, followed, file),
        sight => Ok(sight),
    }
}

/// Looks at as many bytes as the longest record takes.
#[tactic(auto, unfolding(doc_server_journal_records::specs::Records::text_limit))]
fn look_farthest<F: Growing>(
    heap: Heap,
    followed: &Followed,
    file: &mut F,
) -> Result<Sight, GrowingFault>
    ensures sees { IfOk result (λ sight. IfSome (F.seen file.old)
        (λ bytes. Sees bytes longest followed.now sight)) }
    ensures moves { IfOk result (λ sight. MovesTo followed.now sight) }
    ensures seen { F.seen file.new ≡ F.seen file.old }
{
    look_at(heap, followed, file, LONGEST)
}
