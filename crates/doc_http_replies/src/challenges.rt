//! What a client is asked for with 401.

ghost use Rattle.std.specs.Prelude.{◌≡◌, ◌++◌, OnOk, string_bytes, option_copied};
ghost use Rattle.doc_http_replies.specs.Challenges.{basic_challenge, bearer_challenge, quoted_char, quoted_realm};
ghost use Rattle.doc_http_replies.specs.Heads.{challenge_field, challenge_lines};
ghost use Rattle.doc_http_replies.specs.PeopleReplies.{people_challenge_line};

use crate::lines::push_field;
use doc_page_parts::failure::Memory;
use doc_page_parts::heap::String;

/// The bytes of the line that asks for a name and a password, but for the realm.
const BASIC_ROOM: usize = 64;

/// Room for the challenges of a reply with this code, for which no growth is needed as they are written.
pub fn challenge_room(code: u16, realm: Option<&str>) -> usize {
    match realm {
        Some(title) if code == 401 => title.len().saturating_mul(2).saturating_add(BASIC_ROOM),
        _ => 0,
    }
}

/// Adds how to ask again, with 401.
pub fn push_challenges(out: &mut String, code: u16, realm: Option<&str>) -> Result<(), Memory>
    ensures { OnOk result (string_bytes out.new
        ≡ string_bytes out.old ++ challenge_lines (option_copied realm.entry) code) }
{
    if code != 401 {
        return Ok(());
    }
    if let Some(title) = realm {
        push_basic(out, title)?;
    }
    push_bearer(out)
}

/// Adds how a person signs in, with 401.
pub fn push_people_challenge(out: &mut String, code: u16, realm: Option<&str>) -> Result<(), Memory>
    ensures { OnOk result (string_bytes out.new
        ≡ string_bytes out.old ++ people_challenge_line (option_copied realm.entry) code) }
{
    if code != 401 {
        return Ok(());
    }
    match realm {
        Some(title) => push_basic(out, title),
        None => push_bearer(out),
    }
}

/// Adds that a token is asked for.
fn push_bearer(out: &mut String) -> Result<(), Memory>
    ensures { OnOk result
        (string_bytes out.new ≡ string_bytes out.old ++ challenge_field bearer_challenge) }
{
    push_field(out, "WWW-Authenticate", "Bearer realm=\"docs\"")
}

/// Adds that a name and a password are asked for.
#[tactic(auto, unfolding(crate::specs::Replies::field_line))]
fn push_basic(out: &mut String, title: &str) -> Result<(), Memory>
    ensures { OnOk result (string_bytes out.new
        ≡ string_bytes out.old ++ challenge_field (basic_challenge title.now)) }
{
    out.push_str("WWW-Authenticate: Basic realm=\"")?;
    push_quoted(out, title)?;
    out.push_str("\", charset=\"UTF-8\"\r\n")?;
    Ok(())
}

/// Adds a title as it stands within a quoted string.
#[tactic(auto, unfolding(crate::specs::Challenges::quoted_realm))]
fn push_quoted(out: &mut String, title: &str) -> Result<(), Memory>
    ensures { OnOk result
        (string_bytes out.new ≡ string_bytes out.old ++ quoted_realm title.now) }
{
    'characters: for c in title.chars() {
        push_quoted_char(out, c)?;
    }
    Ok(())
}

/// Adds a character as it stands there.
fn push_quoted_char(out: &mut String, c: char) -> Result<(), Memory>
    ensures { OnOk result (string_bytes out.new ≡ string_bytes out.old ++ quoted_char c) }
{
    if c == '"' {
        return Ok(out.push_str("\\\"")?);
    }
    if c == '\\' {
        return Ok(out.push_str("\\\\")?);
    }
    if (' '..='~').contains(&c) {
        return Ok(out.push(c)?);
    }
    Ok(out.push_str("?")?)
}
