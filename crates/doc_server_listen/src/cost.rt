//! What a step costs of the share that a connection has in a turn.

ghost use Rattle.std.specs.Prelude.{◌≡◌};
ghost use Rattle.doc_server_listen.specs.Costs.{begins_with_any, edit_fronts, page_fronts, step_cost};

/// What a page costs, also a request whose first line isn't whole.
pub const PAGE_COST: u32 = 1;

/// What an edit costs.
pub const EDIT_COST: u32 = 8;

/// What a list, a search and whatever else costs: all that one connection has in a turn.
pub const LIST_COST: u32 = 64;

/// What the next step of a connection costs, by its unread bytes. Only its first line is looked at, so that a request that is cheap may
/// be taken for a dear one, where it is written in an unusual form, and no dear one for a page.
#[tactic(auto, unfolding(crate::specs::Costs::step_cost, crate::specs::Costs::most_cost))]
pub fn step_cost(unread: &[u8]) -> u32
    ensures { result ≡ step_cost unread.now }
{
    if asks_page(unread) || !unread.contains(&b'\n') {
        return PAGE_COST;
    }
    if asks_edit(unread) {
        return EDIT_COST;
    }
    LIST_COST
}

/// Whether a request begins for a page, the style sheet, or the site's front, which is a redirection.
fn asks_page(unread: &[u8]) -> bool
    ensures { result ≡ begins_with_any unread.now page_fronts }
{
    unread.starts_with(b"GET /page/")
        || unread.starts_with(b"HEAD /page/")
        || unread.starts_with(b"GET /style.css")
        || unread.starts_with(b"GET / ")
}

/// Whether a request begins that edits.
fn asks_edit(unread: &[u8]) -> bool
    ensures { result ≡ begins_with_any unread.now edit_fronts }
{
    unread.starts_with(b"PUT ") || unread.starts_with(b"DELETE ") || unread.starts_with(b"POST ")
}
