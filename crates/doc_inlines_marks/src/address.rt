//! Addresses between `<` and `>` (CommonMark 0.31.2, section 6.5).
ghost use Rattle.std.specs.Prelude.{chars};
ghost use Rattle.doc_rules.specs.Autolinks.{uri, mail};
ghost use Rattle.doc_inlines_marks.specs.AddressSteps.{IsAddress};

use doc_lines::scan::autolink::{mail, uri};
use doc_lines::scan::character::is;
use doc_lines::scan::front::front;

/// The URI in front of the first `>`, and the text behind that.
pub(crate) fn uri_address(inside: &str) -> Option<(&str, &str)>
    ensures { IsAddress uri (chars inside.now) result }
{
    let behind = uri(inside)?;
    let after = is(behind, '>')?;
    Some((front(inside, behind), after))
}

/// The address of mail in front of the first `>`, and the text behind that.
pub(crate) fn mail_address(inside: &str) -> Option<(&str, &str)>
    ensures { IsAddress mail (chars inside.now) result }
{
    let behind = mail(inside)?;
    let after = is(behind, '>')?;
    Some((front(inside, behind), after))
}
