//! Where a path leads at which a reader sees no page.

ghost use Rattle.std.specs.Prelude.{◌≡◌, IfOk};
ghost use Rattle.doc_http_replies.specs.ReplyForms.{reply_of};
ghost use Rattle.doc_hub_answers.specs.AnswerSteps.{sent_in};
ghost use Rattle.doc_hub_answers.specs.Replies.{goal_reply, moved_reply, only_reply};

use crate::answer::Answer;
use crate::exchange::Exchange;
use doc_http::reply_form::ReplyForm;
use doc_http::status::Status;
use doc_page_parts::failure::Memory;
use doc_page_parts::heap::{Heap, String};
use doc_page_parts::path::Path;
use doc_page_parts::sight::Sight;
use doc_page_parts::text::Text;
use doc_resolve::encoding::push_encoded_path;

/// The answer at a path where the reader sees no page.
pub fn goal_answer<S: Sight>(
    exchange: &Exchange,
    front: &str,
    path: &Path,
    sight: &S,
) -> Result<Answer, Memory>
    ensures { IfOk result (λ a. a ≡ sent_in exchange.now
        (only_reply (goal_reply front.now (S.goals sight.now path.now)))) }
{
    exchange.reply(goal_reply(exchange.heap, front, path, sight)?)
}

/// The reply at a path where the reader sees no page: 301 where the path is an alias of a page that they see, and else 404. The
/// front is that of the route, as `/page/`.
fn goal_reply<S: Sight>(
    heap: Heap,
    front: &str,
    path: &Path,
    sight: &S,
) -> Result<ReplyForm, Memory>
    ensures { IfOk result
        (λ form. reply_of form ≡ goal_reply front.now (S.goals sight.now path.now)) }
{
    match sight.goal(path) {
        Some(goal) => moved_reply(heap, front, goal),
        None => Ok(ReplyForm::Status(Status::NotFound)),
    }
}

/// The page stands under this path now. Of most paths no byte has to be encoded.
fn moved_reply(heap: Heap, front: &str, goal: &Path) -> Result<ReplyForm, Memory>
    ensures { IfOk result (λ form. reply_of form ≡ moved_reply front.now goal.now) }
{
    let room = front.len().saturating_add(goal.text().len());
    let mut location = String::with_capacity(heap, room)?;
    location.push_str(front)?;
    push_encoded_path(&mut location, goal.text())?;
    Ok(ReplyForm::Moved(Text::new(location)))
}
