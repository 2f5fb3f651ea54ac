//! The parts of a request's target.

ghost use Rattle.std.specs.Prelude.{◌≡◌, option_copied};
ghost use Rattle.doc_http_targets.specs.PeopleTargets.{path_behind, target_path};
ghost use Rattle.doc_http_targets.specs.Targets.{ends_authority, after, after_authority, after_http, if_rooted, path_part, rest_behind};
ghost use Rattle.doc_http_targets.specs.TargetSteps.{origin_part, after_slash};

const HTTP: &str = "http://";

/// The target's origin form, where that is a part of the target. `http://docs`, `http://docs?a` and
/// `http://docs#a` have origin forms that aren't, as `/?a`; no route is lost, since none stands at
/// a path that begins so.
#[tactic(auto, unfolding(crate::specs::TargetSteps::origin_part))]
pub fn origin_part(target: &str) -> Option<&str>
    ensures { option_copied result ≡ origin_part target.now }
{
    let text = match after_http(target) {
        Some(rest) => after_authority(rest),
        None => target,
    };
    if_rooted(text)
}

/// The path of a target.
#[tactic(auto, unfolding(crate::specs::PeopleTargets::target_path))]
pub fn target_path(target: &str) -> Option<&str>
    ensures { option_copied result ≡ target_path target.now }
{
    match after_http(target) {
        Some(rest) => path_behind(after_authority(rest)),
        None => Some(path_part(if_rooted(target)?)),
    }
}

/// The path of what stands behind an authority.
fn path_behind(text: &str) -> Option<&str>
    ensures { option_copied result ≡ path_behind text.now }
{
    match text.as_bytes().first() {
        None | Some(b'?') => Some("/"),
        Some(b'/') => Some(path_part(text)),
        Some(_) => None,
    }
}

/// The path, without the query.
pub fn path_part(target: &str) -> &str
    ensures { result.now ≡ path_part target.now }
{
    match target.split_once('?') {
        Some((path, _)) => path,
        None => target,
    }
}

/// What follows a front, where the path has it.
pub fn after<'a>(front: &str, path: &'a str) -> Option<&'a str>
    ensures { option_copied result ≡ after front.now path.now }
{
    path.strip_prefix(front)
}

/// The same, where it isn't empty.
pub fn rest_behind<'a>(front: &str, path: &'a str) -> Option<&'a str>
    ensures { option_copied result ≡ rest_behind front.now path.now }
{
    let rest = after(front, path)?;
    if rest.is_empty() {
        return None;
    }
    Some(rest)
}

/// What follows the first `/`.
pub fn after_slash(text: &str) -> Option<&str>
    ensures { option_copied result ≡ after_slash text.now }
{
    let (_, rest) = text.split_once('/')?;
    Some(rest)
}

pub fn if_rooted(text: &str) -> Option<&str>
    ensures { option_copied result ≡ if_rooted text.now }
{
    if text.starts_with('/') {
        Some(text)
    } else {
        None
    }
}

/// What follows `http://`, which is read without case.
pub fn after_http(target: &str) -> Option<&str>
    ensures { option_copied result ≡ after_http target.now }
{
    let scheme = target.get(..HTTP.len())?;
    if scheme.eq_ignore_ascii_case(HTTP) {
        Some(&target[HTTP.len()..])
    } else {
        None
    }
}

/// What follows the authority that the text begins with.
pub fn after_authority(text: &str) -> &str
    ensures { result.now ≡ after_authority text.now }
{
    let end = text
        .bytes()
        .position(|b| ends_authority(b))
        .unwrap_or(text.len());
    &text[end..]
}

fn ends_authority(b: u8) -> bool
    ensures { result ≡ ends_authority b }
{
    matches!(b, b'/' | b'?' | b'#')
}
