//! Texts with their escapes and references read, which are copied only where that changes them.
ghost use Rattle.std.specs.Prelude.{◌≡◌, chars, true, IfOk};
ghost use Rattle.doc_rules.specs.Rules.{Rules};
ghost use Rattle.doc_rules.specs.Escapes.{unescape};
ghost use Rattle.doc_inlines_marks.specs.EscapeSteps.{begins_escape};
ghost use Rattle.doc_inlines_marks.specs.Targets.{read_of};

use doc_lines::entities::Entities;
use doc_lines::scan::until::until;
use doc_lines::unescape;
use doc_page_parts::failure::Memory;
use doc_page_parts::heap::Heap;
use doc_page_parts::text::Text;

/// A text with its escapes and references read (CommonMark 0.31.2, sections 2.4 and 2.5).
#[derive(Drop)]
pub enum Unescaped<'t> {
    /// It has none.
    AsItStands(&'t str),
    Read(Text),
}

impl<'t> Unescaped<'t> {
    pub fn get(&self) -> &str
        ensures { chars result.now ≡ read_of self.now }
    {
        match self {
            Unescaped::AsItStands(text) => text,
            Unescaped::Read(text) => text.get(),
        }
    }

    /// The same as a text of its own.
    pub fn into_text(self, heap: Heap) -> Result<Text, Memory>
        ensures { IfOk result (λ text. chars text ≡ read_of self.entry) }
    {
        match self {
            Unescaped::AsItStands(text) => Text::copy_of(heap, text),
            Unescaped::Read(text) => Ok(text),
        }
    }
}

/// The text with its escapes and references read. Takes no memory where it has neither `\` nor `&`.
pub fn without_escapes<'t>(
    heap: Heap,
    text: &'t str,
    entities: &Entities,
) -> Result<Unescaped<'t>, Memory>
    ensures { IfOk result (λ read. read_of read ≡ unescape entities.now (chars text.now)) }
{
    if is_plain(text) {
        return Ok(Unescaped::AsItStands(text));
    }
    Ok(Unescaped::Read(unescape(heap, text, entities)?))
}

/// Whether a text has neither `\` nor `&`.
fn is_plain(text: &str) -> bool
    ensures { result ≡ true → (rules : Rules) → unescape rules (chars text.now) ≡ chars text.now }
{
    until(text, begins_escape).is_empty()
}

fn begins_escape(byte: u8) -> bool
    ensures { result ≡ begins_escape byte }
{
    byte == b'\\' || byte == b'&'
}
