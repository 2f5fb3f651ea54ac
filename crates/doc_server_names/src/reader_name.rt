//! Names of readers.

ghost use Rattle.std.specs.Prelude.{◌≡◌, IsTrue, SomeIff};
ghost use Rattle.std.specs.List.{list_all};
ghost use Rattle.doc_server_names.specs.Names.{is_name, is_name_byte};

use doc_page_parts::text::Text;
use std::marker::Model;

/// How many bytes a name has at most.
const NAME_LIMIT: usize = 32;

/// The name that the configuration gives a reader: 1 to 32 of a-z, 0-9, `-`, `_`, `.` and `@`. Contracts see its bytes.
#[derive(Debug, Drop)]
pub struct ReaderName {
    text: Text,
}

impl Model for ReaderName {
    ghost use Rattle.std.specs.Prelude.{ℕ, List as Seq, IsTrue};
    ghost use Rattle.doc_server_names.specs.Names.{is_name};

    ghost Value = { Seq ℕ };

    ghost view = { λ n. n.text };

    ghost invariant = { λ n. IsTrue (is_name n.text) };
}

impl ReaderName {
    /// The name that a text is, where it is one.
    pub fn new(text: Text) -> Option<ReaderName>
        ensures { SomeIff result (IsTrue (is_name text)) text }
    {
        if is_name(text.get().as_bytes()) {
            Some(ReaderName { text })
        } else {
            None
        }
    }

    pub fn get(&self) -> &str
        ensures text { result.now ≡ self.now }
        ensures name { IsTrue (is_name self.now) }
    {
        self.text.get()
    }
}

/// Whether these are 1 to 32 bytes of a name.
#[tactic(auto, unfolding(crate::specs::Names::is_name))]
pub fn is_name(text: &[u8]) -> bool
    ensures { result ≡ is_name text.now }
{
    !text.is_empty() && text.len() <= NAME_LIMIT && has_name_bytes(text)
}

fn has_name_bytes(text: &[u8]) -> bool
    ensures { result ≡ list_all is_name_byte text.now }
{
    text.iter().all(|byte| is_name_byte(*byte))
}

fn is_name_byte(byte: u8) -> bool
    ensures { result ≡ is_name_byte byte }
{
    byte.is_ascii_lowercase() || byte.is_ascii_digit() || b"-_.@".contains(&byte)
}
