//! What a step says of an answer.

ghost use Rattle.std.specs.Prelude.{◌≡◌};
ghost use Rattle.doc_hub.specs.Worlds.{step_said};

use doc_hub_events::event::Step;
use doc_hub_replies::answer::Answer;
use doc_hub_replies::edit::Edit;

/// What the step does that sends an answer, and the edit that it tells. The edit is moved, so that no path
/// is copied.
pub fn step_of(answer: Answer) -> (Step, Option<Edit>)
    ensures step { result.0 ≡ step_said answer.closes answer.bytes }
    ensures edit { result.1 ≡ answer.edit }
{
    let Answer {
        bytes,
        closes,
        edit,
    } = answer;
    if closes {
        (Step::Last(bytes), edit)
    } else {
        (Step::Sent(bytes), edit)
    }
}
