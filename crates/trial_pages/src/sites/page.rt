//! Pages below any markup: a line `#2 one Two` is a heading of level 2 with the anchor `one`, a line `@a.md` a link, and any other a
//! block's text.

use crate::sites::given::word_of;
use crate::sites::stop::Stop;
use doc_page_parts::failure::Memory;
use doc_page_parts::heap::{Heap, Vec};
use doc_page_parts::list::List;
use doc_page_parts::rendered::{Heading, LinkSpot, Piece, Rendered};
use doc_page_parts::text::Text;

/// What a page is made from.
#[derive(Clone, Copy)]
pub enum Kind {
    /// Lines, as said above.
    Lines,
    /// The texts of blocks, with ` | ` between two.
    Texts,
    /// The destinations of links, with ` | ` between two.
    Links,
}

/// What is made of a page so far.
#[derive(Drop)]
struct Draft {
    heap: Heap,
    pieces: Vec<Piece>,
    headings: Vec<Heading>,
    texts: Vec<Text>,
}

impl Draft {
    fn new(heap: Heap) -> Draft {
        Draft {
            heap,
            pieces: Vec::new(heap),
            headings: Vec::new(heap),
            texts: Vec::new(heap),
        }
    }

    fn into_page(self) -> Rendered {
        let Draft {
            heap,
            pieces,
            headings,
            texts,
            ..
        } = self;
        Rendered {
            pieces: List::new(pieces),
            headings: List::new(headings),
            texts: List::new(texts),
            images: List::new(Vec::new(heap)),
        }
    }

    /// Adds the parts that a page of this kind is made of.
    fn add_parts(&mut self, kind: Kind, text: &str) -> Result<(), Stop> {
        let between = match kind {
            Kind::Lines => "\n",
            Kind::Texts | Kind::Links => " | ",
        };
        for part in text.split(between) {
            self.add_part(kind, part)?;
        }
        Ok(())
    }

    fn add_part(&mut self, kind: Kind, part: &str) -> Result<(), Stop> {
        match kind {
            Kind::Lines => self.add_line(part),
            Kind::Texts => Ok(self.add_text(part)?),
            Kind::Links => Ok(self.add_link(part)?),
        }
    }

    fn add_line(&mut self, line: &str) -> Result<(), Stop> {
        if let Some(dest) = line.strip_prefix("@") {
            return Ok(self.add_link(dest)?);
        }
        match line.strip_prefix("#") {
            Some(heading) => self.add_heading(heading),
            None => Ok(self.add_text(line)?),
        }
    }

    /// A link, and the HTML behind its opening tag.
    fn add_link(&mut self, dest: &str) -> Result<(), Memory> {
        let link = link(self.heap, dest)?;
        self.add_piece(link)?;
        let html = Text::copy_of(self.heap, "link</a>")?;
        self.add_piece(Piece::Html(html))
    }

    fn add_piece(&mut self, piece: Piece) -> Result<(), Memory> {
        Ok(self.pieces.push(piece)?)
    }

    fn add_heading(&mut self, given: &str) -> Result<(), Stop> {
        let (level, rest) = word_of(given)?;
        let (anchor, text) = word_of(rest)?;
        let level = level_of(level)?;
        let heading = heading(self.heap, level, anchor, text)?;
        self.headings.push(heading)?;
        Ok(self.add_text(text)?)
    }

    fn add_text(&mut self, text: &str) -> Result<(), Memory> {
        let text = Text::copy_of(self.heap, text)?;
        Ok(self.texts.push(text)?)
    }
}

fn level_of(text: &str) -> Result<u8, Stop> {
    match text {
        "1" => Ok(1),
        "2" => Ok(2),
        "3" => Ok(3),
        "4" => Ok(4),
        "5" => Ok(5),
        "6" => Ok(6),
        _ => Err(Stop::NoCall),
    }
}

fn link(heap: Heap, dest: &str) -> Result<Piece, Memory> {
    let dest = Text::copy_of(heap, dest)?;
    Ok(Piece::Link(LinkSpot { dest, title: None }))
}

fn heading(heap: Heap, level: u8, anchor: &str, text: &str) -> Result<Heading, Memory> {
    let anchor = Text::copy_of(heap, anchor)?;
    let text = Text::copy_of(heap, text)?;
    Ok(Heading {
        level,
        anchor,
        text,
    })
}

/// The page of a text of this kind.
pub fn page_of(heap: Heap, kind: Kind, text: &str) -> Result<Rendered, Stop> {
    let mut draft = Draft::new(heap);
    let added = draft.add_parts(kind, text);
    let page = draft.into_page();
    match added {
        Ok(()) => Ok(page),
        Err(stop) => Err(stop),
    }
}
