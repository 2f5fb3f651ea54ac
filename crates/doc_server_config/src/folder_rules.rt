//! How the files of a folder are taken.

ghost use Rattle.std.specs.Prelude.{◌≡◌, codes};
ghost use Rattle.toml.specs.Data.{get};
ghost use Rattle.toml.specs.View.{view};
ghost use Rattle.doc_server_config.specs.FolderRules.{is_nfc_at, nfc_of, readme_at, rules_of, skips_at, skips_of};

use crate::folder::FolderFault;
use toml::Value;

/// How the files of a folder are taken.
#[derive(Clone, Copy)]
pub struct FolderRules {
    /// Whether the names of files are normalised before they are paths (Unicode Standard Annex 15, normalization form C).
    pub is_nfc: bool,
    /// Whether a `README.md` is moved to `index.md`, where none is there.
    pub readme: bool,
    /// Whether bad files are passed over. Else the first one stops the server.
    pub skips: bool,
}

/// The rules of a table, or its first fault.
pub(crate) fn rules_of(table: &Value) -> Result<FolderRules, FolderFault>
    ensures { result ≡ rules_of (view table.now) }
{
    let Some(is_nfc) = is_nfc_in(table) else {
        return Err(FolderFault::BadNames);
    };
    let Some(readme) = readme_in(table) else {
        return Err(FolderFault::BadReadme);
    };
    let Some(skips) = skips_in(table) else {
        return Err(FolderFault::BadOnBad);
    };
    Ok(FolderRules {
        is_nfc,
        readme,
        skips,
    })
}

/// Whether names are normalised, or `None` where the key holds anything but `nfc`.
fn is_nfc_in(table: &Value) -> Option<bool>
    ensures { result ≡ is_nfc_at (get (codes "names") (view table.now)) }
{
    match table.get("names") {
        None => Some(false),
        Some(value) => nfc_of(value.as_str()?),
    }
}

/// Whether names are normalised, by the name of a form.
pub fn nfc_of(text: &str) -> Option<bool>
    ensures { result ≡ nfc_of text.now }
{
    if text == "nfc" {
        return Some(true);
    }
    None
}

/// Whether a `README.md` is moved, or `None` where the key holds no boolean.
fn readme_in(table: &Value) -> Option<bool>
    ensures { result ≡ readme_at (get (codes "readme") (view table.now)) }
{
    match table.get("readme") {
        None => Some(false),
        Some(value) => value.as_bool(),
    }
}

/// Whether bad files are passed over, or `None` where the key holds neither `stop` nor `skip`.
fn skips_in(table: &Value) -> Option<bool>
    ensures { result ≡ skips_at (get (codes "on_bad") (view table.now)) }
{
    match table.get("on_bad") {
        None => Some(false),
        Some(value) => skips_of(value.as_str()?),
    }
}

/// Whether bad files are passed over, by the name of it.
pub fn skips_of(text: &str) -> Option<bool>
    ensures { result ≡ skips_of text.now }
{
    if text == "skip" {
        return Some(true);
    }
    if text == "stop" {
        return Some(false);
    }
    None
}
