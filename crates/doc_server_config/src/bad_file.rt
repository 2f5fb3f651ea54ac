//! Bad files of folders.

ghost use Rattle.std.specs.Prelude.{◌≡◌, ◌++◌, IfOk, OnOk, string_bytes};
ghost use Rattle.doc_server_config.specs.BadFiles.{bad_file, shown_char, shown_name};

use crate::browsing_texts::is_control;
use crate::file_name::joined;
use crate::folder::Folder;
use crate::reason::Reason;
use doc_page_parts::failure::Memory;
use doc_page_parts::heap::{Heap, String};
use doc_page_parts::text::Text;
use percent_encoding::{CONTROLS, percent_encode};
use thiserror::Error;

/// A file of a folder that gives no page, and why. It is printed as `docs/a%b.md: a path has no \, %, ? or #`.
#[derive(Debug, Drop, Error)]
#[error("{}: {reason}", .name.get())]
pub struct BadFile {
    /// The name of the file, the folder's before its own: each byte of a control character stands as `%` and two digits.
    pub name: Text,
    pub reason: Reason,
}

impl BadFile {
    /// That of a file in a folder.
    pub(crate) fn new(
        heap: Heap,
        folder: &Folder,
        file: &str,
        reason: Reason,
    ) -> Result<BadFile, Memory>
        ensures { IfOk result (λ bad. bad ≡ bad_file folder.now file.now reason) }
    {
        let name = joined(heap, folder.file.get(), file)?;
        Ok(BadFile {
            name: shown_name(heap, name.as_str())?,
            reason,
        })
    }
}

/// A name of a file as it is told.
pub(crate) fn shown_name(heap: Heap, name: &str) -> Result<Text, Memory>
    ensures { IfOk result (λ shown. shown ≡ shown_name name.now) }
{
    let mut out = String::with_capacity(heap, name.len())?;
    push_shown(&mut out, name)?;
    Ok(Text::new(out))
}

/// Writes a name as it is told.
#[tactic(auto, unfolding(crate::specs::BadFiles::shown_name))]
pub fn push_shown(out: &mut String, name: &str) -> Result<(), Memory>
    ensures { OnOk result (string_bytes out.new ≡ string_bytes out.old ++ shown_name name.now) }
{
    'characters: for c in name.chars() {
        push_shown_char(out, c)?;
    }
    Ok(())
}

/// Writes a character of a name as it is told.
fn push_shown_char(out: &mut String, c: char) -> Result<(), Memory>
    ensures { OnOk result (string_bytes out.new ≡ string_bytes out.old ++ shown_char c) }
{
    if !is_control(c) {
        return Ok(out.push(c)?);
    }
    let mut room = [0u8; 4];
    let bytes = c.encode_utf8(&mut room).as_bytes();
    percent_encode(bytes, CONTROLS).append_to(out)?;
    Ok(())
}
