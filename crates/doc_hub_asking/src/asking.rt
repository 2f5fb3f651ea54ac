//! Who asks.

ghost use Rattle.std.specs.Prelude.{◌≡◌, IfOk, Some, option_and_then, option_copied};
ghost use Rattle.doc_http.specs.Passwords.{password_in, token_in};
ghost use Rattle.doc_hub_asking.specs.Asking.{guest_by, is_guest, known_by, owns, reader_asking, row_of};
ghost use Rattle.doc_hub_asking.specs.AskingSteps.{asking_shown};
ghost use Rattle.doc_store_readers.specs.Readers.{find_in};

use doc_http::bearer::bearer;
use doc_http::password::password;
use doc_http::request::Request;
use doc_page_parts::bytes::Bytes;
use doc_page_parts::failure::Memory;
use doc_page_parts::heap::Heap;
use doc_people::settings::Browse;
use doc_store_readers::reader::Reader;
use doc_store_readers::readers::Readers;

/// Who asks, by the Authorization field of a request (RFC 9110, section 11.6.2).
#[derive(Drop)]
pub enum Asking<'a> {
    /// The field names no reader, or there is none, and no guests are let in.
    Nobody,
    /// There is no field. The entry has the groups of guests.
    Guest(Reader),
    /// The reader whose token the field has.
    Known(&'a Reader),
}

impl Asking<'_> {
    /// The entry that the request is answered by.
    pub fn row(&self) -> Option<&Reader>
        ensures { option_copied result ≡ row_of (asking_shown self.now) }
    {
        match self {
            Asking::Nobody => None,
            Asking::Guest(row) => Some(row),
            Asking::Known(row) => Some(row),
        }
    }

    /// Whether a guest asks.
    pub fn is_guest(&self) -> bool
        ensures { result ≡ is_guest (asking_shown self.now) }
    {
        matches!(self, Asking::Guest(_))
    }

    /// Whether an owner asks.
    pub fn owns(&self) -> bool
        ensures { result ≡ owns (asking_shown self.now) }
    {
        match self {
            Asking::Nobody => false,
            Asking::Guest(row) => row.owner,
            Asking::Known(row) => row.owner,
        }
    }
}

/// Who asks, where there are pages for people. A field that names no reader is nobody's and never a guest's.
pub fn who_asks<'a>(
    heap: Heap,
    browse: &Browse,
    readers: &'a Readers,
    request: &Request,
) -> Result<Asking<'a>, Memory>
    ensures { IfOk result (λ asking. asking_shown asking
        ≡ reader_asking (Some browse.now) readers.now request.now) }
{
    match &request.authorization {
        None => guest(heap, browse),
        Some(value) => Ok(known(reader_by(heap, browse, readers, request, value)?)),
    }
}

/// Who asks without a field.
fn guest<'a>(heap: Heap, browse: &Browse) -> Result<Asking<'a>, Memory>
    ensures { IfOk result (λ asking. asking_shown asking ≡ guest_by browse.now.guest) }
{
    match &browse.guest {
        None => Ok(Asking::Nobody),
        Some(groups) => Ok(Asking::Guest(Reader {
            owner: false,
            groups: groups.copy(heap)?,
        })),
    }
}

/// Who asks with a field that names this reader, or none.
pub fn known(reader: Option<&Reader>) -> Asking<'_>
    ensures { asking_shown result ≡ known_by (option_copied reader.entry) }
{
    match reader {
        None => Asking::Nobody,
        Some(row) => Asking::Known(row),
    }
}

/// The reader whose token a field has: a bearer's, or else a password, where readers may sign in so.
fn reader_by<'a>(
    heap: Heap,
    browse: &Browse,
    readers: &'a Readers,
    request: &Request,
    value: &Bytes,
) -> Result<Option<&'a Reader>, Memory>
    requires { request.now.authorization ≡ Some value.now }
    ensures { IfOk result (λ reader. option_copied reader
        ≡ option_and_then (find_in readers.now) (token_in browse.now.login (Some value.now))) }
{
    if let Some(token) = bearer(request) {
        return Ok(readers.find(token));
    }
    if !browse.login {
        return Ok(None);
    }
    reader_by_password(heap, readers, value)
}

/// The reader whose token the password of a login is.
fn reader_by_password<'a>(
    heap: Heap,
    readers: &'a Readers,
    value: &Bytes,
) -> Result<Option<&'a Reader>, Memory>
    ensures { IfOk result (λ reader. option_copied reader
        ≡ option_and_then (find_in readers.now) (password_in value.now)) }
{
    match password(heap, value.get())? {
        Some(token) => Ok(readers.find(token.get())),
        None => Ok(None),
    }
}
