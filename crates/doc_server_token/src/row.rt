//! The row of a configuration by which a reader of a new token is known.

ghost use Rattle.std.specs.Prelude.{◌≡◌, ◌++◌, OnOk, codes, string_bytes};
ghost use Rattle.std.specs.List.{flat_map};
ghost use Rattle.doc_server_token.specs.Tokens.{groups_line, identity_lines, owner_line, row_head, row_of, some_groups, string_line};

use crate::digest::digest_of;
use crate::new_reader::NewReader;
use doc_page_parts::failure::Memory;
use doc_page_parts::heap::{Heap, String};
use doc_page_parts::text::Text;

/// Adds the row of a reader with this token, and above it, as a comment, the token itself. Neither name nor groups have anything that a
/// string of TOML escapes.
pub fn push_row(heap: Heap, out: &mut String, reader: &NewReader, token: &str) -> Result<(), Memory>
    ensures { OnOk result
        (string_bytes out.new ≡ string_bytes out.old ++ row_of reader.now token.now) }
{
    push_head(out, token)?;
    push_identity(heap, out, reader.name.get(), token)?;
    push_owner(out, reader.is_owner)?;
    push_groups(out, reader.groups.names())?;
    Ok(())
}

/// Adds the comment with the token, and the header of a row.
fn push_head(out: &mut String, token: &str) -> Result<(), Memory>
    ensures { OnOk result (string_bytes out.new ≡ string_bytes out.old ++ row_head token.now) }
{
    out.push_str("# token, shown once: ")?;
    out.push_str(token)?;
    out.push_str("\n[[reader]]\n")?;
    Ok(())
}

/// Adds a name, and the digest of a token.
fn push_identity(heap: Heap, out: &mut String, name: &str, token: &str) -> Result<(), Memory>
    ensures { OnOk result
        (string_bytes out.new ≡ string_bytes out.old ++ identity_lines name.now token.now) }
{
    let digest = digest_of(heap, token.as_bytes())?;
    push_line(out, "name", name)?;
    push_line(out, "token_sha256", digest.as_str())?;
    Ok(())
}

/// Adds a key with a string in which nothing is to be escaped.
fn push_line(out: &mut String, key: &str, text: &str) -> Result<(), Memory>
    ensures { OnOk result
        (string_bytes out.new ≡ string_bytes out.old ++ string_line key.now text.now) }
{
    out.push_str(key)?;
    out.push_str(" = \"")?;
    out.push_str(text)?;
    out.push_str("\"\n")?;
    Ok(())
}

/// Adds that the reader is an owner, where it is.
fn push_owner(out: &mut String, is_owner: bool) -> Result<(), Memory>
    ensures { OnOk result (string_bytes out.new ≡ string_bytes out.old ++ owner_line is_owner) }
{
    if is_owner {
        out.push_str("owner = true\n")?;
    }
    Ok(())
}

/// Adds its groups, where it has some.
fn push_groups(out: &mut String, names: &[Text]) -> Result<(), Memory>
    ensures { OnOk result (string_bytes out.new ≡ string_bytes out.old ++ groups_line names.now) }
{
    let Some((first, others)) = names.split_first() else {
        return Ok(());
    };
    push_some_groups(out, first.get(), others)?;
    Ok(())
}

/// Adds groups of which this one is the first.
fn push_some_groups(out: &mut String, first: &str, others: &[Text]) -> Result<(), Memory>
    ensures { OnOk result
        (string_bytes out.new ≡ string_bytes out.old ++ some_groups first.now others.now) }
{
    out.push_str("groups = [\"")?;
    out.push_str(first)?;
    out.push_str("\"")?;
    push_others(out, others)?;
    out.push_str("]\n")?;
    Ok(())
}

/// Adds names, each behind a comma.
fn push_others(out: &mut String, names: &[Text]) -> Result<(), Memory>
    ensures { OnOk result (string_bytes out.new
        ≡ string_bytes out.old ++ flat_map (λ name. codes ", \"" ++ name ++ codes "\"") names.now) }
{
    for name in names {
        out.push_str(", \"")?;
        out.push_str(name.get())?;
        out.push_str("\"")?;
    }
    Ok(())
}
