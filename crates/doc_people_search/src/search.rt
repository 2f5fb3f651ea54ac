//! The page that searches, and the code of its reply.

ghost use Rattle.std.specs.Prelude.{◌≡◌, IfOk};
ghost use Rattle.doc_people.specs.Search.{search_body, search_code};

use crate::asking::{code, read_query};
use crate::main_part::main_part;
use doc_page_parts::failure::Memory;
use doc_page_parts::text::Text;
use doc_people::viewed::Viewed;
use doc_people_shell::frame::Frame;
use doc_people_shell::shell::shell;

/// The reply to a query.
#[derive(Drop)]
pub struct Searched {
    /// 400 where no search answers the query, and else 200.
    pub code: u16,
    pub body: Text,
}

/// What a query finds, as a page.
pub fn search_body<V: Viewed>(frame: Frame<'_>, view: &V, query: &str) -> Result<Searched, Memory>
    ensures code { IfOk result (λ searched. searched.code ≡ search_code query.now) }
    ensures body { IfOk result (λ searched. searched.body ≡ search_body (V.render view.now)
        frame.entry.browse.now frame.entry.offers (V.view view.now) query.now) }
{
    let asked = read_query(frame.heap, query)?;
    let main = main_part(frame.heap, view, query, &asked)?;
    let body = shell(frame, view, "Search", None, main.as_str(), "")?;
    Ok(Searched {
        code: code(&asked),
        body,
    })
}
