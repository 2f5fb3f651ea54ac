//! How far the reading of an encoded body came.

ghost use Rattle.std.specs.Prelude.{◌≡◌, ◌<◌, ◌+◌, ◌^◌};
ghost use Rattle.doc_http_bodies.specs.Chunks.{extent_of};
ghost use Rattle.doc_http_bodies.specs.KnowledgeSteps.{Knows};
ghost use Rattle.doc_http_bodies.specs.StageSteps.{IsStep, IsAdvance, step_behind_line};
ghost use Rattle.doc_http_bodies.specs.declared.stage.Stage.TheVariants as stages;

use crate::extent::Extent;
use crate::fault::Fault;
use crate::framing::BODY_LIMIT;
use crate::size_line::{SizeLine, size_line};
use crate::slices::behind;
use crate::trailer::trailer_len;

/// How far the reading of an encoded body came: what is next in it, where that begins, and the sum of the sizes
/// so far.
#[derive(Clone, Copy)]
pub enum Stage {
    /// A size line, in which no CR LF begins in the first `searched` bytes.
    Line {
        start: usize,
        searched: usize,
        total: usize,
    },
    /// A chunk's data, and the CR LF behind them.
    Data {
        start: usize,
        size: usize,
        total: usize,
    },
    /// The trailer, in which no CR LF CR LF begins in the first `searched` bytes.
    Trailer {
        start: usize,
        searched: usize,
        total: usize,
    },
}

/// What a stage comes to.
#[derive(Clone, Copy)]
enum Step {
    /// The next stage.
    On(Stage),
    /// More bytes are needed; meanwhile as much is known.
    Waiting(Stage),
    Ended(Extent),
}

/// How far the body reaches, and the stage to go on at with more bytes.
pub fn advance(first: Stage, window: &[u8]) -> (Stage, Extent)
    requires { Knows first window.now }
    ensures { IsAdvance window.now result.0 result.1 }
{
    let mut stage = first;
    'stages: loop {
        match step_from(stage, window) {
            Step::On(next) => {
                stage = next;
            }
            Step::Waiting(next) => {
                return (next, Extent::More);
            }
            Step::Ended(extent) => {
                return (stage, extent);
            }
        }
    }
}

/// What the stage comes to.
fn step_from(stage: Stage, window: &[u8]) -> Step
    requires { Knows stage window.now }
    ensures { IsStep window.now stage result }
{
    match stage {
        Stage::Line {
            start,
            searched,
            total,
        } => at_line(start, searched, total, window),
        Stage::Data { start, size, total } => at_data(start, size, total, window),
        Stage::Trailer {
            start,
            searched,
            total,
        } => at_trailer(start, searched, total, window),
    }
}

/// What a size line comes to.
fn at_line(start: usize, searched: usize, total: usize, window: &[u8]) -> Step
    requires { Knows (stages.Line start searched total) window.now }
    ensures { IsStep window.now (stages.Line start searched total) result }
{
    let text = behind(window, start);
    match size_line(text, searched) {
        SizeLine::Unfinished => Step::Waiting(Stage::Line {
            start,
            searched: text.len().saturating_sub(1),
            total,
        }),
        SizeLine::Malformed => Step::Ended(Extent::Fault(Fault::Malformed)),
        SizeLine::Size { len, size } => behind_line(start + len, size, total),
    }
}

/// What stands behind a size line.
#[tactic(auto, unfolding(crate::specs::Framings::body_limit))]
fn behind_line(start: usize, size: usize, total: usize) -> Step
    requires { total + size < 2 ^ 64 }
    ensures { result ≡ step_behind_line start size total }
{
    if size == 0 {
        return Step::On(Stage::Trailer {
            start,
            searched: 0,
            total,
        });
    }
    let total = total + size;
    if total > BODY_LIMIT {
        return Step::Ended(Extent::Fault(Fault::TooLarge));
    }
    Step::On(Stage::Data { start, size, total })
}

/// What a chunk's data, and the two bytes behind them, come to.
#[tactic(auto, unfolding(crate::specs::Framings::body_limit))]
fn at_data(start: usize, size: usize, total: usize, window: &[u8]) -> Step
    requires { Knows (stages.Data start size total) window.now }
    ensures { IsStep window.now (stages.Data start size total) result }
{
    let text = behind(window, start);
    if text.len() < size + 2 {
        return Step::Waiting(Stage::Data { start, size, total });
    }
    if behind(text, size).starts_with(b"\r\n") {
        Step::On(Stage::Line {
            start: start + (size + 2),
            searched: 0,
            total,
        })
    } else {
        Step::Ended(Extent::Fault(Fault::Malformed))
    }
}

/// What the trailer comes to.
fn at_trailer(start: usize, searched: usize, total: usize, window: &[u8]) -> Step
    requires { Knows (stages.Trailer start searched total) window.now }
    ensures { IsStep window.now (stages.Trailer start searched total) result }
{
    let text = behind(window, start);
    match trailer_len(text, searched) {
        Some(len) => Step::Ended(Extent::Whole {
            used: start + len,
            len: total,
        }),
        None => Step::Waiting(Stage::Trailer {
            start,
            searched: text.len().saturating_sub(3),
            total,
        }),
    }
}
