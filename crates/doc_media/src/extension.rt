//! The extension of a name.

ghost use Rattle.std.specs.Prelude.{◌≡◌, option_copied};
ghost use Rattle.doc_media.specs.Kinds.{extension_of, last_part};

/// What stands behind the last `.` of a path's last part, where something stands before that `.`.
pub fn extension_of(path: &str) -> Option<&str>
    ensures { option_copied result ≡ extension_of path.now }
{
    let (name, extension) = last_part(path).rsplit_once('.')?;
    if name.is_empty() {
        return None;
    }
    Some(extension)
}

/// The last part of a path: what stands behind its last `/`.
fn last_part(path: &str) -> &str
    ensures { result.now ≡ last_part path.now }
{
    match path.rsplit_once('/') {
        Some((_, part)) => part,
        None => path,
    }
}
