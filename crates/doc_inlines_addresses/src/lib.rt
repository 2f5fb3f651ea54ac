//! Addresses that are links without `<` and `>` (GFM 0.29, section 6.9), but for those of mail.
//!
//! [`bare_address`] looks at the front of a text alone. Of a host 254 characters are looked at, so that a text of many `www.` isn't read to
//! its end for each of them, and the parentheses of an address are counted once.
#![tactic(auto)]

ghost use Rattle.std.specs.Prelude.{◌≡◌, true, None, chars, codes, MatchOption};
ghost use Rattle.doc_rules.specs.Characters.{one_of, first_or};
ghost use Rattle.doc_rules.specs.BareLinks as rules;
ghost use Rattle.doc_inlines_addresses.specs.Fronts.{IsFound};

mod ends;
mod hosts;

use ends::address_of;
use hosts::{is_web, is_www, is_www_place};

/// The address at the front of a text behind this character, and what is put before it in the destination of its link. The text begins
/// with a letter of those with which an address may begin.
pub fn bare_address<'t>(last: char, text: &'t str) -> Option<(&'static str, &'t str)>
    requires { one_of (codes "whHfF") (first_or 0 (chars text.now)) ≡ true }
    ensures { MatchOption result (rules.bare_address last (chars text.now) ≡ None)
        (λ found. IsFound last (chars text.now) (chars found.0.now) (chars found.1.now)) }
{
    if is_www_place(last) && is_www(text) {
        return Some(("http://", address_of(text)));
    }
    if !last.is_ascii_alphabetic() && is_web(text) {
        return Some(("", address_of(text)));
    }
    None
}
