//! What one who is no owner is answered where they ask to edit.

ghost use Rattle.std.specs.Prelude.{◌≡◌, IfOk};
ghost use Rattle.doc_hub_editing_refusals.specs.AskedSteps.{edit_request_shown};
ghost use Rattle.doc_hub_editing_refusals.specs.EditRefusals.{forbidden, not_signed_in, refusal_to};

use crate::edit_request::EditRequest;
use doc_http_replies::reply_form::ReplyForm;
use doc_http_replies::status::Status;
use doc_page_parts::failure::Memory;
use doc_page_parts::text::Text;
use doc_people::viewed::Viewed;
use doc_people_shell::frame::Frame;
use doc_people_statuses::statuses::refused_body;

/// What one who is no owner is answered.
#[derive(Drop)]
pub enum Refusal {
    /// A reply that shows nothing of the site.
    Plain(ReplyForm),
    /// The page that says that who asks isn't signed in.
    SignIn,
    /// The page of 403 with this body.
    Page(Text),
}

/// What one who is no owner is answered, whatever stands where they ask. A method that the resource hasn't is refused first, then who
/// isn't signed in.
pub fn refusal_to<V: Viewed>(
    frame: Frame<'_>,
    view: &V,
    guest: bool,
    for_people: bool,
    asked: EditRequest<'_>,
) -> Result<Refusal, Memory>
    ensures { IfOk result (λ refusal. refusal ≡ refusal_to (V.render view.now)
        frame.entry.browse.now frame.entry.offers (V.view view.now) guest for_people
        (edit_request_shown asked.entry)) }
{
    if let EditRequest::NotAllowed(resource) = asked {
        return Ok(Refusal::Plain(ReplyForm::NotAllowed(resource)));
    }
    if guest {
        return Ok(not_signed_in(for_people));
    }
    forbidden(frame, view, for_people, asked)
}

/// That a guest hasn't signed in.
fn not_signed_in(for_people: bool) -> Refusal
    ensures { result ≡ not_signed_in for_people }
{
    if for_people {
        Refusal::SignIn
    } else {
        Refusal::Plain(ReplyForm::Status(Status::Unauthorized))
    }
}

/// That a reader is no owner.
fn forbidden<V: Viewed>(
    frame: Frame<'_>,
    view: &V,
    for_people: bool,
    asked: EditRequest<'_>,
) -> Result<Refusal, Memory>
    ensures { IfOk result (λ refusal. refusal ≡ forbidden (V.render view.now)
        frame.entry.browse.now frame.entry.offers (V.view view.now) for_people
        (edit_request_shown asked.entry)) }
{
    if !for_people || !matches!(asked, EditRequest::Open(_)) {
        return Ok(Refusal::Plain(ReplyForm::Status(Status::Forbidden)));
    }
    Ok(Refusal::Page(refused_body(frame, view, 403)?))
}
