//! A reader who is given a token.

ghost use Rattle.doc_page_parts.specs.Refusals.{IsAnswer};
ghost use Rattle.doc_server_token.specs.NewReaders.{reader_of};

use crate::fault::TokenFault;
use doc_page_parts::heap::Heap;
use doc_page_parts::text::Text;
use doc_server_names::reader_name::{ReaderName, is_name};
use doc_store_readers::groups::Groups;

/// A reader who is given a token.
#[derive(Drop)]
pub struct NewReader {
    pub name: ReaderName,
    pub is_owner: bool,
    pub groups: Groups,
}

impl NewReader {
    /// The reader of this name, and of groups whose names a text joins by commas; the empty text names none.
    pub fn new(
        heap: Heap,
        name: &str,
        is_owner: bool,
        groups: &str,
    ) -> Result<NewReader, TokenFault>
        ensures { IsAnswer TokenFault.Memory (reader_of name.now is_owner groups.now) result }
    {
        if !is_name(name.as_bytes()) {
            return Err(TokenFault::BadName);
        }
        let groups = Groups::new(heap, groups)?;
        match ReaderName::new(Text::copy_of(heap, name)?) {
            Some(name) => Ok(NewReader {
                name,
                is_owner,
                groups,
            }),
            None => Err(TokenFault::BadName),
        }
    }
}
