//! How many bytes the destination or the title at the front of a text has.
ghost use Rattle.std.specs.Prelude.{◌≡◌, chars, drop, option_map, IfSome};
ghost use Rattle.std.specs.Str.{IsCharBoundary};
ghost use Rattle.doc_rules.specs.Destinations.{destination, title};

use crate::scan;

/// The bytes of the longest link destination at the front of a text (CommonMark 0.31.2, section 6.3), `None` where none stands there:
/// `<..>`, or characters with parentheses balanced to 32 levels. Of `foo(bar` it is `foo`.
pub fn destination(text: &str) -> Option<usize>
    ensures behind { option_map (λ n. chars (drop n text.now)) result
        ≡ destination (chars text.now) }
    ensures boundary { IfSome result (λ n. IsCharBoundary text.now n) }
{
    let rest = scan::destination::destination(text)?;
    Some(text.len() - rest.len())
}

/// The bytes of the link title at the front of a text (CommonMark 0.31.2, section 6.3), with what it stands in; `None` where none stands
/// there.
pub fn title(text: &str) -> Option<usize>
    ensures behind { option_map (λ n. chars (drop n text.now)) result ≡ title (chars text.now) }
    ensures boundary { IfSome result (λ n. IsCharBoundary text.now n) }
{
    let rest = scan::title::title(text)?;
    Some(text.len() - rest.len())
}
