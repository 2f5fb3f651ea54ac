//! Open and closing tags (CommonMark 0.31.2, section 6.6). White space in a tag is [`spacing`]: form feeds are none.
ghost use Rattle.std.specs.Prelude.{◌≡◌, ◌||◌, Some, chars, codes};
ghost use Rattle.std.specs.Char.{is_ascii_alphabetic, is_ascii_alphanumeric};
ghost use Rattle.doc_rules.specs.Characters.{one_of, none_of};
ghost use Rattle.doc_rules.specs.Parsers.{is, ◌then◌, repeated, spacing};
ghost use Rattle.doc_rules.specs.Tags.{tag_name, attribute_name, quoted_by, attribute_value, attribute, open_tag, closing_tag, html_tag};
ghost use Rattle.doc_lines.specs.RestSteps.{rest_of};

use super::character::{is, one};
use super::run::{many, some};
use super::white_space::{some_spacing, spacing};
use super::word::word;

/// A letter, then letters, digits and `-`.
#[tactic(auto, unfolding(doc_rules::specs::Tags::tag_name))]
pub fn tag_name(text: &str) -> Option<&str>
    ensures { rest_of result ≡ tag_name (chars text.now) }
{
    let rest = one(text, |c| c.is_ascii_alphabetic())?;
    Some(many(rest, |c| c.is_ascii_alphanumeric() || c == '-'))
}

/// A letter, `_` or `:`, then letters, digits, `_`, `.`, `:` and `-`.
#[tactic(auto, unfolding(doc_rules::specs::Tags::attribute_name))]
pub fn attribute_name(text: &str) -> Option<&str>
    ensures { rest_of result ≡ attribute_name (chars text.now) }
{
    let rest = one(text, begins_attribute_name)?;
    Some(many(rest, continues_attribute_name))
}

fn begins_attribute_name(c: char) -> bool
    ensures { result ≡ (is_ascii_alphabetic c || one_of (codes "_:") c) }
{
    c.is_ascii_alphabetic() || matches!(c, '_' | ':')
}

fn continues_attribute_name(c: char) -> bool
    ensures { result ≡ (is_ascii_alphanumeric c || one_of (codes "_.:-") c) }
{
    c.is_ascii_alphanumeric() || matches!(c, '_' | '.' | ':' | '-')
}

/// A value in single quotes, in double quotes, or without quotes.
#[tactic(auto, unfolding(doc_rules::specs::Tags::attribute_value))]
pub fn attribute_value(text: &str) -> Option<&str>
    ensures { rest_of result ≡ attribute_value (chars text.now) }
{
    quoted_by(text, '\'')
        .or_else(|| quoted_by(text, '"'))
        .or_else(|| some(text, is_unquoted))
}

/// All between two of this quotation mark, and these.
pub fn quoted_by(text: &str, quote: char) -> Option<&str>
    ensures { rest_of result ≡ quoted_by quote (chars text.now) }
{
    let inside = is(text, quote)?;
    is(many(inside, |c| c != quote), quote)
}

fn is_unquoted(c: char) -> bool
    ensures { result ≡ none_of (codes " \t\r\n\"'=<>`") c }
{
    !matches!(
        c,
        ' ' | '\t' | '\r' | '\n' | '"' | '\'' | '=' | '<' | '>' | '`'
    )
}

/// Spacing, a name, and where `=` stands behind it a value.
#[tactic(auto, unfolding(doc_rules::specs::Tags::attribute))]
pub fn attribute(text: &str) -> Option<&str>
    ensures { rest_of result ≡ attribute (chars text.now) }
{
    let rest = attribute_name(some_spacing(text)?)?;
    Some(assigned_value(rest).unwrap_or(rest))
}

/// `=` with spacing round it, and a value.
fn assigned_value(text: &str) -> Option<&str>
    ensures { rest_of result ≡ (spacing then is 61 then spacing then attribute_value)
        (chars text.now) }
{
    let rest = is(spacing(text), '=')?;
    attribute_value(spacing(rest))
}

/// As many attributes as stand there, or none.
pub fn attributes(text: &str) -> &str
    ensures { Some (chars result.now) ≡ repeated attribute (chars text.now) }
{
    let mut rest = text;
    'attributes: while let Some(behind) = attribute(rest) {
        rest = behind;
    }
    rest
}

/// An open tag.
#[tactic(auto, unfolding(doc_rules::specs::Tags::open_tag))]
pub fn open_tag(text: &str) -> Option<&str>
    ensures { rest_of result ≡ open_tag (chars text.now) }
{
    let rest = tag_name(is(text, '<')?)?;
    let rest = spacing(attributes(rest));
    is(is(rest, '/').unwrap_or(rest), '>')
}

/// A closing tag.
#[tactic(auto, unfolding(doc_rules::specs::Tags::closing_tag))]
pub fn closing_tag(text: &str) -> Option<&str>
    ensures { rest_of result ≡ closing_tag (chars text.now) }
{
    let rest = tag_name(word(text, b"</")?)?;
    is(spacing(rest), '>')
}

/// An open or a closing tag.
pub fn html_tag(text: &str) -> Option<&str>
    ensures { rest_of result ≡ html_tag (chars text.now) }
{
    open_tag(text).or_else(|| closing_tag(text))
}
