//! Fences of code blocks (CommonMark 0.31.2, section 4.5).
ghost use Rattle.std.specs.Prelude.{◌≡◌, ◌==◌, not, true, Some, chars};
ghost use Rattle.std.specs.List.{list_all};
ghost use Rattle.doc_rules.specs.Characters.{is_space_or_tab, strip};
ghost use Rattle.doc_rules.specs.LeafStarts.{fence_of, opening_fence, is_closing_text};
ghost use Rattle.doc_blocks_starts.specs.Fences.{fence_shown, fence_start_of};

use crate::end::is_blank;
use crate::run::run_of;
use crate::strip::strip_spaces;

/// The fewest characters of a fence.
const FEWEST: usize = 3;

/// How a fence began: its character, how many of it, and the columns before it.
#[derive(Clone, Copy)]
pub struct Fence {
    pub character: char,
    pub length: usize,
    pub indent: usize,
}

/// A fence that opens a code block, and its info string as it stands, without spaces and tabs at its ends.
#[derive(Clone, Copy)]
pub struct FenceStart<'a> {
    pub fence: Fence,
    pub info: &'a str,
}

/// The fence with which a line opens a code block (CommonMark 0.31.2, section 4.5), by what stands behind its indentation, which
/// has `indent` columns: three or more backticks with none in the info string, or three or more tildes.
#[tactic(auto, unfolding(doc_rules::specs::LeafStarts::opening_fence))]
pub fn opening_fence(indent: usize, text: &str) -> Option<FenceStart>
    ensures { fence_start_of result ≡ opening_fence indent (chars text.now) }
{
    backtick_fence(indent, text).or_else(|| tilde_fence(indent, text))
}

/// Of backticks, with none in the info string.
#[tactic(auto, unfolding(doc_rules::specs::LeafStarts::fence_of))]
fn backtick_fence(indent: usize, text: &str) -> Option<FenceStart>
    ensures { fence_start_of result ≡ fence_of 96 (list_all (λ c. not (c == 96))) indent
        (chars text.now) }
{
    let (length, info) = run_of(text, '`')?;
    if length < FEWEST || !has_no_backtick(info) {
        return None;
    }
    Some(fence_start('`', length, indent, info))
}

fn has_no_backtick(text: &str) -> bool
    ensures { result ≡ list_all (λ c. not (c == 96)) (chars text.now) }
{
    text.chars().all(|c| c != '`')
}

/// Of tildes.
#[tactic(auto, unfolding(doc_rules::specs::LeafStarts::fence_of))]
fn tilde_fence(indent: usize, text: &str) -> Option<FenceStart>
    ensures { fence_start_of result ≡ fence_of 126 (λ info. true) indent (chars text.now) }
{
    let (length, info) = run_of(text, '~')?;
    if length < FEWEST {
        return None;
    }
    Some(fence_start('~', length, indent, info))
}

fn fence_start(character: char, length: usize, indent: usize, info: &str) -> FenceStart
    ensures { fence_start_of (Some result)
        ≡ Some (
          record { char = character; length = length; indent = indent },
          strip
              is_space_or_tab (chars info.now),
        ) }
{
    FenceStart {
        fence: Fence {
            character,
            length,
            indent,
        },
        info: strip_spaces(info),
    }
}

impl Fence {
    /// Whether a line closes the fence, by what stands behind its indentation: the same character, at least as many of it, and
    /// behind them spaces and tabs alone (CommonMark 0.31.2, section 4.5).
    #[tactic(auto, unfolding(doc_rules::specs::LeafStarts::is_closing_text))]
    pub fn is_closed_by(self, text: &str) -> bool
        ensures { result ≡ is_closing_text (fence_shown self) (chars text.now) }
    {
        match run_of(text, self.character) {
            Some((length, rest)) => length >= self.length && is_blank(rest),
            None => false,
        }
    }
}
