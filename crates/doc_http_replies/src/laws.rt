//! Laws of heads. The functions do nothing: their contracts are the laws.

ghost use Rattle.doc_http_replies.specs.Laws.{AStatusIsToldAlike, NoHtmlWithoutAPolicy, NoPersonsPageWithoutAPolicy, NothingIsAdded};

/// Without settings each reply is what it is by itself.
#[tactic(auto, using(crate::proofs::HeadLaws::nothing_is_added))]
pub fn nothing_is_added()
    ensures { NothingIsAdded }
{}

/// Where HTML is guarded, each page of it has the policy in its head.
#[tactic(auto, using(crate::proofs::HeadLaws::no_html_without_a_policy))]
pub fn no_html_without_a_policy()
    ensures { NoHtmlWithoutAPolicy }
{}

/// Each reply to a person has the policy that it is given in its head.
#[tactic(auto, using(crate::proofs::HeadLaws::no_persons_page_without_a_policy))]
pub fn no_persons_page_without_a_policy()
    ensures { NoPersonsPageWithoutAPolicy }
{}

/// A reply to an owner that tells no more than its status is the reply that says no more.
#[tactic(auto, using(crate::proofs::EditLaws::a_status_is_told_alike))]
pub fn a_status_is_told_alike()
    ensures { AStatusIsToldAlike }
{}
