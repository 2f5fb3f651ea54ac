//! The plain renderer: paragraphs of escaped lines, without headings, links and images.

ghost use Rattle.std.specs.Prelude.{◌≡◌, ◌<◌, ◌++◌, string_bytes, IfOk, OnOk};
ghost use Rattle.doc_page.specs.Plain.{plain_texts, plain_html, html_pieces, plain_page};

use crate::renderer::Renderer;
use doc_page_parts::count::Count;
use doc_page_parts::escaping::push_escaped;
use doc_page_parts::failure::Memory;
use doc_page_parts::heap::{Heap, String, Vec};
use doc_page_parts::list::List;
use doc_page_parts::rendered::{Piece, Rendered};
use doc_page_parts::text::Text;
use std::marker::Model;
use std::sync::ledger::{Blank, Ledger};

mod paragraphs;

/// Makes a page of a text that has no markup. Each longest run of lines that are not blank is a
/// paragraph: its lines are stripped of spaces and tabs, escaped, and joined by LF. There are no
/// headings, no links and no images. Contracts see how many calls were made. It is for callers from outside and for trials.
#[derive(Drop)]
pub struct PlainRenderer<L: Ledger> {
    count: Count<L>,
}

impl<L: Ledger> Model for PlainRenderer<L> {
    ghost use Rattle.std.specs.Prelude.{ℕ};

    ghost Value = { ℕ };

    ghost view = { λ r. r.count };
}

impl<L: Ledger> PlainRenderer<L> {
    /// A renderer that made no page yet, whose count is kept in a blank book of the ledger.
    pub fn new(blank: Blank) -> Self
        requires name { blank.name ≡ L.name }
        requires parts { blank.parts ≡ L.parts }
        requires some { 0 < L.parts }
        ensures { result ≡ 0 }
    {
        PlainRenderer {
            count: Count::new(blank),
        }
    }
}

impl<L: Ledger> Renderer for PlainRenderer<L> {
    ghost page = { λ _. plain_page };

    ghost count = { λ count. count };

    fn render(&mut self, heap: Heap, text: &str) -> Result<Rendered, Memory> {
        self.count.raise();
        plain_page(heap, text)
    }
}

/// The page of a plain text.
fn plain_page(heap: Heap, text: &str) -> Result<Rendered, Memory>
    ensures { IfOk result (λ page. page ≡ plain_page text.now) }
{
    let texts = paragraphs::plain_texts(heap, text)?;
    let html = plain_html(heap, &texts)?;
    Ok(Rendered {
        pieces: html_pieces(heap, html)?,
        headings: List::new(Vec::new(heap)),
        texts: List::new(texts),
        images: List::new(Vec::new(heap)),
    })
}

/// The HTML of paragraphs.
#[tactic(auto, unfolding(crate::specs::Plain::plain_html))]
fn plain_html(heap: Heap, texts: &[Text]) -> Result<Text, Memory>
    ensures { IfOk result (λ html. html ≡ plain_html texts.now) }
{
    let mut html = String::with_capacity(heap, room_of(texts))?;
    for text in texts {
        html.push_str("<p>")?;
        push_escaped(&mut html, text.get())?;
        html.push_str("</p>\n")?;
    }
    Ok(Text::new(html))
}

/// How many bytes paragraphs take whose texts need no escapes: a guess, on which nothing rests.
fn room_of(texts: &[Text]) -> usize {
    let mut room: usize = 0;
    for text in texts {
        room = room.saturating_add(text.get().len()).saturating_add(8);
    }
    room
}

/// The HTML as one piece, or none where it is empty.
fn html_pieces(heap: Heap, html: Text) -> Result<List<Piece>, Memory>
    ensures { IfOk result (λ pieces. pieces ≡ html_pieces html) }
{
    if html.get().is_empty() {
        return Ok(List::new(Vec::new(heap)));
    }
    let mut pieces = Vec::with_capacity(heap, 1)?;
    pieces.push(Piece::Html(html))?;
    Ok(List::new(pieces))
}
