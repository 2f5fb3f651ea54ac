//! The options behind the name of `token`, in either order, each at most once.

ghost use Rattle.std.specs.Prelude.{◌≡◌, ◌∷◌, ◌≤◌, IfOk, length, option_copied};
ghost use Rattle.doc_server_arguments.specs.Texts.{texts};
ghost use Rattle.doc_server_arguments.specs.TokenWords.{given_by, given_in};
ghost use Rattle.doc_server_arguments.specs.TokenSteps.{given_so_far, names_behind, shown_given, shown_names, with_behind};

use crate::usage_fault::UsageFault;
use doc_page_parts::heap::String;

/// What the options say of the reader.
#[derive(Clone, Copy, Debug, PartialEq, Eq)]
pub(crate) struct Given<'a> {
    pub(crate) is_owner: bool,
    /// The names of its groups, as they are written.
    pub(crate) groups: Option<&'a str>,
}

/// The options that these words are.
pub(crate) fn given_of(words: &[String]) -> Result<Given<'_>, UsageFault<'_>>
    ensures { shown_given result ≡ given_in (texts words.now) }
{
    let mut given = Given {
        is_owner: false,
        groups: None,
    };
    let mut rest = words;
    'options: while let Some((option, behind)) = rest.split_first() {
        let (more, left) = with_option(given, option.as_str(), behind)?;
        given = more;
        rest = left;
    }
    Ok(given)
}

/// What is given with one option more, and the words behind that.
fn with_option<'a>(
    given: Given<'a>,
    option: &'a str,
    behind: &'a [String],
) -> Result<(Given<'a>, &'a [String]), UsageFault<'a>>
    ensures same { with_behind result
        ≡ given_by (given_so_far given.entry) (option.now ∷ texts behind.now) }
    ensures fewer { IfOk result (λ left. length left.1.now ≤ length behind.now) }
{
    match option {
        "--owner" if given.is_owner => Err(UsageFault::StandsTwice(option)),
        "--owner" => Ok((
            Given {
                is_owner: true,
                ..given
            },
            behind,
        )),
        "--groups" => {
            let (names, rest) = names_of(option, given.groups, behind)?;
            let groups = Some(names);
            Ok((Given { groups, ..given }, rest))
        }
        _ => Err(UsageFault::UnknownOption(option)),
    }
}

/// The names behind an option, which says what stood before, and the words behind them.
fn names_of<'a>(
    option: &'a str,
    before: Option<&'a str>,
    behind: &'a [String],
) -> Result<(&'a str, &'a [String]), UsageFault<'a>>
    ensures same { shown_names result
        ≡ names_behind option.now (option_copied before.entry) (texts behind.now) }
    ensures fewer { IfOk result (λ left. length left.1.now ≤ length behind.now) }
{
    if before.is_some() {
        return Err(UsageFault::StandsTwice(option));
    }
    let Some((names, rest)) = behind.split_first() else {
        return Err(UsageFault::NeedsGroups);
    };
    Ok((names.as_str(), rest))
}
