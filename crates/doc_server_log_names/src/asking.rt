//! Who asks by a request, as the log names them.

ghost use Rattle.std.specs.Prelude.{◌≡◌, IfOk, Some, option_and_then};
ghost use Rattle.doc_http.specs.Passwords.{password_in, token_in};
ghost use Rattle.doc_server_log.specs.Readers.{shown_reader};
ghost use Rattle.doc_server_log_names.specs.Names.{found_by, shown_found};

use crate::names::Names;
use doc_http::bearer::bearer;
use doc_http::password::password;
use doc_http::request::Request;
use doc_page_parts::bytes::Bytes;
use doc_page_parts::failure::Memory;
use doc_page_parts::heap::Heap;
use doc_server_log::reader::Reader;

impl Names {
    /// Who asks by a request, whose token is read as the server reads it: a bearer's, or else a password, where readers may sign in so.
    pub fn asking(&self, heap: Heap, login: bool, request: &Request) -> Result<Reader<'_>, Memory>
        ensures { IfOk result (λ reader. shown_reader reader
            ≡ shown_found (option_and_then (found_by self.now)
            (token_in login request.now.authorization))) }
    {
        match &request.authorization {
            None => Ok(Reader::Nobody),
            Some(value) => self.asking_by(heap, login, request, value),
        }
    }

    /// The same of a request that has an Authorization field.
    fn asking_by(
        &self,
        heap: Heap,
        login: bool,
        request: &Request,
        value: &Bytes,
    ) -> Result<Reader<'_>, Memory>
        requires { request.now.authorization ≡ Some value.now }
        ensures { IfOk result (λ reader. shown_reader reader
            ≡ shown_found (option_and_then (found_by self.now) (token_in login (Some value.now)))) }
    {
        if let Some(token) = bearer(request) {
            return Ok(self.reader_of(token));
        }
        if !login {
            return Ok(Reader::Nobody);
        }
        self.asking_by_password(heap, value)
    }

    /// Who asks by the password of a login.
    fn asking_by_password(&self, heap: Heap, value: &Bytes) -> Result<Reader<'_>, Memory>
        ensures { IfOk result (λ reader. shown_reader reader
            ≡ shown_found (option_and_then (found_by self.now) (password_in value.now))) }
    {
        match password(heap, value.get())? {
            Some(token) => Ok(self.reader_of(token.get())),
            None => Ok(Reader::Nobody),
        }
    }

    /// The reader of a token, as a line names it.
    fn reader_of(&self, token: &str) -> Reader<'_>
        ensures { shown_reader result ≡ shown_found (found_by self.now token.now) }
    {
        match self.find(token) {
            Some(listed) => listed.reader(),
            None => Reader::Nobody,
        }
    }
}
