//! What a scanner took.
ghost use Rattle.std.specs.Prelude.{◌≡◌, ◌++◌, chars};
ghost use Rattle.doc_rules.specs.Parsers.{before};
ghost use Rattle.doc_rules.specs.Rests.{IsRest};

/// What stands before the rest of a text, as a slice of that text. It takes no time over the text.
pub fn front<'a>(text: &'a str, rest: &str) -> &'a str
    requires { IsRest (chars rest.now) (chars text.now) }
    ensures joins { chars text.now ≡ chars result.now ++ chars rest.now }
    ensures value { chars result.now ≡ before (chars rest.now) (chars text.now) }
{
    &text[..text.len() - rest.len()]
}
