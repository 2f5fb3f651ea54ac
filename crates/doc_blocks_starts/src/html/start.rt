//! The kind of HTML block that a line begins (CommonMark 0.31.2, section 4.6).
ghost use Rattle.std.specs.Prelude.{◌≡◌, Bool, true, option_map, chars, codes};
ghost use Rattle.std.specs.Char.{is_ascii_alphabetic};
ghost use Rattle.doc_rules.specs.Characters.{Text};
ghost use Rattle.doc_rules.specs.Parsers.{begins, begins_before, is, one, word, ◌then◌, maybe};
ghost use Rattle.doc_rules.specs.Tags.{open_tag, closing_tag};
ghost use Rattle.doc_rules.specs.HtmlStarts.{is_named, raw_text_names, ends_raw_text_name, ends_element_name, is_raw_text_start, is_element_start, is_tag_line, html_start};
ghost use Rattle.doc_lines.specs.RestSteps.{rest_of};
ghost use Rattle.doc_blocks_starts.specs.HtmlKinds.{kind_of, names_of, IsRestTestOf};

use super::HtmlKind;
use super::names::{ELEMENT_NAMES, RAW_TEXT_NAMES, is_among};
use crate::end::{is_blank, is_end};
use doc_lines::scan::character::{is, one};
use doc_lines::scan::front::front;
use doc_lines::scan::tag::{closing_tag, open_tag, tag_name};
use doc_lines::scan::word::word;

/// The first kind of block that a line begins with this text behind its indentation. The caller sees to it that the indentation has at
/// most three columns, and that kind 7 interrupts no paragraph.
#[tactic(auto, unfolding(doc_rules::specs::HtmlStarts::html_start))]
pub fn html_start(text: &str) -> Option<HtmlKind>
    ensures { option_map kind_of result ≡ html_start (chars text.now) }
{
    is(text, '<')?;
    if is_raw_text_start(text) {
        return Some(HtmlKind::RawText);
    }
    if word(text, b"<!--").is_some() {
        return Some(HtmlKind::Comment);
    }
    if word(text, b"<?").is_some() {
        return Some(HtmlKind::Instruction);
    }
    if is_declaration_start(text) {
        return Some(HtmlKind::Declaration);
    }
    if word(text, b"<![CDATA[").is_some() {
        return Some(HtmlKind::Cdata);
    }
    if is_element_start(text) {
        return Some(HtmlKind::Element);
    }
    if is_tag_line(text) {
        return Some(HtmlKind::AnyTag);
    }
    None
}

/// Kind 4: `<!` and a letter.
fn is_declaration_start(text: &str) -> bool
    ensures { result ≡ begins (word (codes "<!") then one is_ascii_alphabetic) (chars text.now) }
{
    match word(text, b"<!") {
        Some(rest) => one(rest, |c| c.is_ascii_alphabetic()).is_some(),
        None => false,
    }
}

/// Kind 1: `<`, one of its names, and behind it what ends the name.
#[tactic(auto, unfolding(doc_rules::specs::HtmlStarts::is_raw_text_start))]
fn is_raw_text_start(text: &str) -> bool
    ensures { result ≡ is_raw_text_start (chars text.now) }
{
    match is(text, '<') {
        Some(rest) => is_named(rest, RAW_TEXT_NAMES, ends_raw_text_name),
        None => false,
    }
}

/// Kind 6: `<` or `</`, one of its names, and behind it what ends the name.
#[tactic(auto, unfolding(doc_rules::specs::HtmlStarts::is_element_start))]
fn is_element_start(text: &str) -> bool
    ensures { result ≡ is_element_start (chars text.now) }
{
    match tag_start(text) {
        Some(rest) => is_named(rest, ELEMENT_NAMES, ends_element_name),
        None => false,
    }
}

/// `<` or `</`.
fn tag_start(text: &str) -> Option<&str>
    ensures { rest_of result ≡ (is 60 then maybe (is 47)) (chars text.now) }
{
    let rest = is(text, '<')?;
    Some(is(rest, '/').unwrap_or(rest))
}

/// Kind 7: a closing tag, or an open tag with no name of kind 1, and behind it spaces and tabs alone.
#[tactic(auto, unfolding(doc_rules::specs::HtmlStarts::is_tag_line))]
fn is_tag_line(text: &str) -> bool
    ensures { result ≡ is_tag_line (chars text.now) }
{
    closing_tag(text).is_some_and(is_blank)
        || (open_tag(text).is_some_and(is_blank) && !has_raw_text_name(text))
}

/// Whether a name of kind 1 stands behind `<`.
fn has_raw_text_name(text: &str) -> bool
    ensures { result ≡ begins_before (is_named raw_text_names (λ rest. true)) (is 60)
        (chars text.now) }
{
    match is(text, '<') {
        Some(rest) => is_named(rest, RAW_TEXT_NAMES, |_| true),
        None => false,
    }
}

/// Whether a tag name stands at the front that is one of these in any case, and behind it a rest that passes the test.
#[tactic(auto, unfolding(doc_rules::specs::HtmlStarts::is_named), using(doc_lines::proofs::Rests::tag_name_rest))]
fn is_named<F: Fn(&str) -> bool>(text: &str, names: &[&str], test: F) -> bool
    requires { F.IsAlwaysCallable test }
    ensures { (fits : Text → Bool) → IsRestTestOf (F.post test) fits
        → result ≡ is_named (names_of names.now) fits (chars text.now) }
{
    match tag_name(text) {
        Some(rest) => is_among(names, front(text, rest)) && test(rest),
        None => false,
    }
}

/// Whether a space, a tab, `>` or the end of the line stands here: what ends a name of kind 1.
fn ends_raw_text_name(text: &str) -> bool
    ensures { result ≡ ends_raw_text_name (chars text.now) }
{
    is_end(text) || is(text, '>').is_some()
}

/// Whether the same or `/>` stands here: what ends a name of kind 6.
fn ends_element_name(text: &str) -> bool
    ensures { result ≡ ends_element_name (chars text.now) }
{
    ends_raw_text_name(text) || word(text, b"/>").is_some()
}
