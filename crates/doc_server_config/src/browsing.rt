//! What `listen` reads of a configuration for the pages for people.

ghost use Rattle.std.specs.Prelude.{◌≡◌, ◌≢◌, Ok, Err, IfOk, IfErr};
ghost use Rattle.toml.specs.View.{table_view};
ghost use Rattle.doc_server_config.specs.Browsing.{browse_of, browse_of_document, browse_of_table};

use crate::browsing_keys::{editing_in, guest_in, home_in, language_in, login_in, title_in};
use crate::table::{has_only, value_at};
use doc_page_parts::failure::Memory;
use doc_page_parts::heap::Heap;
use doc_people::settings::Browse;
use doc_store::readers::ReadersError;
use doc_store_readers::tables::document_of;
use std::error::Error;
use std::fmt;
use toml::Table;

/// Why a text says nothing of the pages for people that `listen` could go by.
#[derive(Clone, Copy, Debug)]
pub enum BrowseError {
    /// The text is no TOML document.
    BadToml,
    /// `browse` is no table, or has a key other than `title`, `language`, `home`, `guest`, `login` and `editing`.
    BadBrowse,
    /// `title` is no string, or none that a site can have as its title.
    BadTitle,
    /// `language` is no string, or none of the form of a language.
    BadLanguage,
    /// `home` is no string, or none that is a path.
    BadHome,
    /// `guest` is no array of names of groups, or has too many.
    BadGuest,
    /// `login` is anything but the string `basic`.
    BadLogin,
    /// `editing` is no boolean.
    BadEditing,
    Memory,
}

impl fmt::Display for BrowseError {
    fn fmt<W: fmt::Write>(&self, f: &mut fmt::Formatter<W>) -> fmt::Result {
        let text = match self {
            BrowseError::BadToml => "no TOML",
            BrowseError::BadBrowse => "`browse` is bad",
            BrowseError::BadTitle => "`title` is bad",
            BrowseError::BadLanguage => "`language` is bad",
            BrowseError::BadHome => "`home` is bad",
            BrowseError::BadGuest => "`guest` is bad",
            BrowseError::BadLogin => "`login` is bad",
            BrowseError::BadEditing => "`editing` is bad",
            BrowseError::Memory => return fmt::Display::fmt(&Memory, f),
        };
        f.write_str(text)
    }
}

impl Error for BrowseError {}

impl From<Memory> for BrowseError {
    ghost use Rattle.std.specs.Prelude.{◌≡◌};
    ghost use Rattle.doc_server_config.specs.declared.browsing.BrowseError.TheVariants as refusals;

    ghost from_gives = { λ _ e. e ≡ refusals.Memory };

    fn from(_e: Memory) -> BrowseError {
        BrowseError::Memory
    }
}

/// What a TOML 1.1 document says of the pages for people: its table `browse` with `title` (else `Handbook`), `language` (else `en`),
/// `home` (a path, else `index.md`), `guest` (an array of names of groups, else nobody is a guest), `login` (`basic`, else readers
/// don't sign in as browsers do) and `editing` (a boolean, else `true`). The table has no other keys; those of the document are not its
/// concern. `None` says that there is no such table, and so no pages for people; an empty table is one. Refusals come in the order of
/// [`BrowseError`], but that `Memory` may be answered before another one is found.
pub fn browse_of(heap: Heap, text: &str) -> Result<Option<Browse>, BrowseError>
    ensures read { IfOk result (λ browse. browse_of text.now ≡ Ok browse) }
    ensures refused { IfErr result (λ e. e ≢ BrowseError.Memory → browse_of text.now ≡ Err e) }
{
    let document = match document_of(heap, text) {
        Ok(document) => document,
        Err(ReadersError::Memory) => return Err(BrowseError::Memory),
        Err(_) => return Err(BrowseError::BadToml),
    };
    browse_in(heap, &document)
}

/// The same of a document.
pub(crate) fn browse_in(heap: Heap, document: &Table) -> Result<Option<Browse>, BrowseError>
    ensures read { IfOk result (λ browse.
        browse_of_document (table_view document.now) ≡ Ok browse) }
    ensures refused { IfErr result (λ e. e ≢ BrowseError.Memory
        → browse_of_document (table_view document.now) ≡ Err e) }
{
    let Some(value) = value_at(document, "browse") else {
        return Ok(None);
    };
    match value.as_table() {
        Some(table) => Ok(Some(browse_of_table(heap, table)?)),
        None => Err(BrowseError::BadBrowse),
    }
}

/// What a table says, or its first refusal.
fn browse_of_table(heap: Heap, table: &Table) -> Result<Browse, BrowseError>
    ensures read { IfOk result (λ browse. browse_of_table (table_view table.now) ≡ Ok browse) }
    ensures refused { IfErr result (λ e. e ≢ BrowseError.Memory
        → browse_of_table (table_view table.now) ≡ Err e) }
{
    if !has_only(
        table,
        &["editing", "guest", "home", "language", "login", "title"],
    ) {
        return Err(BrowseError::BadBrowse);
    }
    let Some(title) = title_in(heap, table)? else {
        return Err(BrowseError::BadTitle);
    };
    let Some(language) = language_in(heap, table)? else {
        return Err(BrowseError::BadLanguage);
    };
    let Some(home) = home_in(heap, table)? else {
        return Err(BrowseError::BadHome);
    };
    let Some(guest) = guest_in(heap, table)? else {
        return Err(BrowseError::BadGuest);
    };
    let Some(login) = login_in(table) else {
        return Err(BrowseError::BadLogin);
    };
    let Some(editing) = editing_in(table) else {
        return Err(BrowseError::BadEditing);
    };
    Ok(Browse {
        title,
        language,
        home,
        guest,
        login,
        editing,
    })
}
