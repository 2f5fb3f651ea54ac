//! Replies that show a page to a person.

ghost use Rattle.std.specs.Prelude.{◌≡◌, ◌++◌, IfOk, OnOk, string_bytes};
ghost use Rattle.doc_http_replies.specs.Manners.{people_with};
ghost use Rattle.doc_http_replies.specs.Heads.{head_of, referrer_line};
ghost use Rattle.doc_http_replies.specs.PeopleReplies.{people_bytes, people_guards, people_lines};

use crate::challenges::{challenge_room, push_people_challenge};
use crate::ending::with_content;
use crate::lines::{
    HEAD_ROOM, push_close, push_field, push_location, push_nosniff, push_privacy, push_status_line,
    push_typed_lines,
};
use doc_page_parts::bytes::Bytes;
use doc_page_parts::failure::Memory;
use doc_page_parts::heap::{Heap, String};

/// Room for the lines that guard a page for people, but for its policy.
const PEOPLE_GUARD_ROOM: usize = 160;

/// A reply to a person, its parts borrowed. Its body is a page of HTML, whatever the code.
#[derive(Clone, Copy)]
pub struct PeopleParts<'a> {
    pub code: u16,
    /// With 301, where the page is: a reference, whose bytes are written as they are.
    pub location: Option<&'a str>,
    /// With 401, the title of the site, where readers may sign in as browsers do.
    pub realm: Option<&'a str>,
    /// What the HTML of the page may do: the value of its Content-Security-Policy, whose bytes are written as they are.
    pub policy: &'a str,
    pub body: &'a [u8],
}

impl PeopleParts<'_> {
    /// The bytes of the reply: its status line, Content-Type, Content-Length, Location, WWW-Authenticate (401), what guards the page,
    /// `Connection: close` where `close`, an empty line and the body, which `head_only` leaves out. The body is copied once.
    #[tactic(auto, unfolding(crate::specs::PeopleReplies::people_bytes))]
    pub fn write(&self, heap: Heap, head_only: bool, close: bool) -> Result<Bytes, Memory>
        ensures { IfOk result
            (λ bytes. bytes ≡ people_bytes (people_with self.now) head_only close) }
    {
        let mut out = String::with_capacity(heap, self.room(head_only))?;
        self.push_head(&mut out, close)?;
        with_content(out, self.body, head_only)
    }

    /// Room for the reply, for which no growth is needed as it is written.
    fn room(&self, head_only: bool) -> usize {
        let content = if head_only { 0 } else { self.body.len() };
        let location = self.location.map_or(0, |location| location.len());
        (HEAD_ROOM + PEOPLE_GUARD_ROOM)
            .saturating_add(self.policy.len())
            .saturating_add(location)
            .saturating_add(challenge_room(self.code, self.realm))
            .saturating_add(content)
    }

    /// Adds the head, with the empty line that ends it.
    fn push_head(&self, out: &mut String, close: bool) -> Result<(), Memory>
        ensures { OnOk result (string_bytes out.new ≡ string_bytes out.old
            ++ head_of self.now.code (people_lines (people_with self.now) close)) }
    {
        push_status_line(out, self.code)?;
        self.push_lines(out, close)?;
        out.push_str("\r\n")?;
        Ok(())
    }

    /// Adds the field lines.
    fn push_lines(&self, out: &mut String, close: bool) -> Result<(), Memory>
        ensures { OnOk result (string_bytes out.new
            ≡ string_bytes out.old ++ people_lines (people_with self.now) close) }
    {
        push_typed_lines(out, "text/html; charset=utf-8", self.body)?;
        push_location(out, self.location)?;
        push_people_challenge(out, self.code, self.realm)?;
        push_people_guards(out, self.policy)?;
        push_close(out, close)
    }
}

/// Adds what keeps a page to its reader, its HTML from acting by itself, and its address in the site.
fn push_people_guards(out: &mut String, policy: &str) -> Result<(), Memory>
    ensures { OnOk result
        (string_bytes out.new ≡ string_bytes out.old ++ people_guards policy.now) }
{
    push_field(out, "Content-Security-Policy", policy)?;
    push_nosniff(out)?;
    push_referrer(out)?;
    push_privacy(out)
}

/// Adds that no other site is told the address of the page.
#[tactic(auto, unfolding(crate::specs::Heads::referrer_line))]
fn push_referrer(out: &mut String) -> Result<(), Memory>
    ensures { OnOk result (string_bytes out.new ≡ string_bytes out.old ++ referrer_line) }
{
    push_field(out, "Referrer-Policy", "same-origin")
}
