//! The components of a reference.

ghost use Rattle.std.specs.Prelude.{◌≡◌, ◌<◌, option_copied};
ghost use Rattle.doc_resolve.specs.References.{uri_of, reference, before, behind, scheme_by, behind_scheme, is_scheme};
ghost use Rattle.doc_resolve.specs.References.{behind_slash, behind_slashes, authority_by, path_by, authority_len};

/// A URI reference as its five components (RFC 3986, section 3), which are slices of its text. They are told apart by the expression
/// of appendix B and nothing is asked of the characters in them, so each text is a reference.
#[derive(Clone, Copy)]
pub struct Reference<'a> {
    /// Without the `:` behind it.
    pub scheme: Option<&'a str>,
    /// Without the `//` before it. It may be empty, as in `file:///a`.
    pub authority: Option<&'a str>,
    /// May be empty.
    pub path: &'a str,
    /// Without the `?` before it. It may be empty.
    pub query: Option<&'a str>,
    /// Without the `#` before it. It may be empty.
    pub fragment: Option<&'a str>,
}

impl<'a> Reference<'a> {
    /// The components of a text, by the expression of appendix B, whose `.` stands for any character here, line endings too.
    #[tactic(auto, unfolding(crate::specs::References::reference))]
    pub fn parse(text: &'a str) -> Self
        ensures { uri_of result ≡ reference text.now }
    {
        let (rest, fragment) = cut(text, '#');
        let (rest, query) = cut(rest, '?');
        let (scheme, rest) = split_scheme(rest);
        let (authority, path) = split_authority(rest);
        Reference {
            scheme,
            authority,
            path,
            query,
            fragment,
        }
    }
}

/// What stands before the first such character, and what follows it, where there is one.
fn cut(text: &str, mark: char) -> (&str, Option<&str>)
    requires { mark < 128 }
    ensures before { result.0.now ≡ before mark text.now }
    ensures behind { option_copied result.1 ≡ behind mark text.now }
{
    match text.split_once(mark) {
        Some((before, behind)) => (before, Some(behind)),
        None => (text, None),
    }
}

/// The scheme, and the text behind it and its `:`.
fn split_scheme(text: &str) -> (Option<&str>, &str)
    ensures scheme { option_copied result.0 ≡ scheme_by (before 58 text.now) (behind 58 text.now) }
    ensures rest { result.1.now ≡ behind_scheme text.now }
{
    let (scheme, behind) = cut(text, ':');
    let Some(rest) = behind else {
        return (None, text);
    };
    if !is_scheme(scheme) {
        return (None, text);
    }
    (Some(scheme), rest)
}

fn is_scheme(text: &str) -> bool
    ensures { result ≡ is_scheme text.now }
{
    !text.is_empty() && !text.as_bytes().contains(&b'/')
}

/// The authority, and the path.
fn split_authority(text: &str) -> (Option<&str>, &str)
    ensures authority { option_copied result.0 ≡ authority_by (behind_slashes text.now) }
    ensures path { result.1.now ≡ path_by text.now (behind_slashes text.now) }
{
    let Some(rest) = behind_slashes(text) else {
        return (None, text);
    };
    let end = authority_len(rest);
    (Some(&rest[..end]), &rest[end..])
}

fn behind_slashes(text: &str) -> Option<&str>
    ensures { option_copied result ≡ behind_slashes text.now }
{
    behind_slash(behind_slash(text)?)
}

fn behind_slash(text: &str) -> Option<&str>
    ensures { option_copied result ≡ behind_slash text.now }
{
    text.strip_prefix('/')
}

fn authority_len(text: &str) -> usize
    ensures { result ≡ authority_len text.now }
{
    text.bytes().position(|b| b == b'/').unwrap_or(text.len())
}
