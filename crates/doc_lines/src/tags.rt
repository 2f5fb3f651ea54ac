//! How many bytes the tag at the front of a text has.
ghost use Rattle.std.specs.Prelude.{◌≡◌, chars, drop, option_map, IfSome};
ghost use Rattle.std.specs.Str.{IsCharBoundary};
ghost use Rattle.doc_rules.specs.Tags.{html_tag};

use crate::scan::tag;

/// The bytes of the open or closing tag at the front of a text (CommonMark 0.31.2, section 6.6), `None` where none stands there.
pub fn html_tag(text: &str) -> Option<usize>
    ensures behind { option_map (λ n. chars (drop n text.now)) result ≡ html_tag (chars text.now) }
    ensures boundary { IfSome result (λ n. IsCharBoundary text.now n) }
{
    let rest = tag::html_tag(text)?;
    Some(text.len() - rest.len())
}
