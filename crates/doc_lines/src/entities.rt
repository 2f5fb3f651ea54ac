//! Character references by name.

mod built_in;
mod names;
mod row;
mod table;

ghost use Rattle.std.specs.Prelude.{◌≡◌, chars, option_map};
ghost use Rattle.doc_page_parts.specs.Lines.{lines};
ghost use Rattle.doc_page_parts.specs.Refusals.{IsAnswer};
ghost use Rattle.doc_rules.specs.Entities.{built_in};
ghost use Rattle.doc_rules.specs.Escapes.{find_entity};
ghost use Rattle.doc_rules.specs.Rules.{built_in_rules};
ghost use Rattle.doc_lines.specs.Entities.{characters};
ghost use Rattle.doc_lines.specs.Rules.{with_options};
ghost use Rattle.doc_lines.specs.Tables.{entities_of, twice_line, twice_or};

use crate::options::Options;
use built_in::find_built_in;
use doc_page_parts::failure::Memory;
use doc_page_parts::heap::{BTreeMap, Heap, String};
use std::marker::Model;
use table::{added_of, bad_line, find_either, twice_line};
use thiserror::Error;

/// Why a text is no table of character references. Lines are counted from 1.
#[derive(Clone, Copy, Debug, PartialEq, Eq, Error)]
pub enum TableError {
    /// The first line that is neither blank nor of the form `name HEX` or `name HEX HEX`.
    #[error("line {0} is bad")]
    BadRow(usize),
    /// The first line whose name is built in or stands in an earlier line, with other characters.
    #[error("line {0} gives a name other characters")]
    Twice(usize),
    #[error("{}", Memory)]
    Memory,
}

impl From<Memory> for TableError {
    ghost use Rattle.std.specs.Prelude.{◌≡◌};
    ghost use Rattle.doc_lines.specs.declared.entities.TableError.TheVariants as refusals;

    ghost from_gives = { λ _ e. e ≡ refusals.Memory };

    fn from(_e: Memory) -> TableError {
        TableError::Memory
    }
}

/// What a renderer goes by: character references by name, those that are built in and those that are added (CommonMark 0.31.2,
/// section 2.5), and the extensions that are read. Contracts see the rules: a table of names with their characters, the built-in ones
/// and then the added ones in the order of their names, and the options.
#[derive(Drop)]
pub struct Entities {
    added: Option<BTreeMap<String, (char, Option<char>)>>,
    options: Options,
}

impl Model for Entities {
    ghost use Rattle.std.specs.Prelude.{◌++◌, ◌≡◌, true};
    ghost use Rattle.doc_rules.specs.Entities.{built_in};
    ghost use Rattle.doc_rules.specs.Rules.{Rules, plain_rules};

    ghost Value = { Rules };

    ghost use Rattle.doc_lines.specs.Entities.{added_entities, has_ascii_names};
    ghost use Rattle.doc_lines.specs.Rules.{with_options};

    ghost view = { λ e. with_options (plain_rules (built_in ++ added_entities e.added)) e.options };

    ghost invariant = { λ e. has_ascii_names (added_entities e.added) ≡ true };
}

impl Entities {
    /// The 252 names of HTML 4, and `apos`, `Dcaron`, `HilbertSpace`, `DifferentialD`, `ClockwiseContourIntegral` and `ngE`, with
    /// the characters that HTML 5 gives them, and no extension. Takes no memory.
    pub fn built_in() -> Entities
        ensures { result ≡ built_in_rules }
    {
        Entities {
            added: None,
            options: Options::default(),
        }
    }

    /// The built-in names and those of a table, a text with one line `name HEX` or `name HEX HEX` for each name, and no extension.
    ///
    /// A name is an ASCII letter and up to 31 letters or digits. HEX is the code point of a character, in 1 to 6 hexadecimal
    /// digits. One space stands between two fields. Lines end as those of CommonMark do. Blank lines, of spaces and tabs alone,
    /// don't count. A name that stands already with the same characters is no fault.
    ///
    /// Where memory runs out, later lines are still compared with all lines before them, since `Twice` comes before `Memory`:
    /// that takes no memory, and a time that is quadratic in the number of lines.
    pub fn from_table(heap: Heap, text: &str) -> Result<Entities, TableError>
        ensures { IsAnswer TableError.Memory (entities_of text.now) result }
    {
        if let Some(line) = bad_line(text) {
            return Err(TableError::BadRow(line));
        }
        match added_of(heap, text) {
            Ok(added) => Ok(Entities {
                added: Some(added),
                options: Options::default(),
            }),
            Err(TableError::Memory) => Err(twice_or_memory(text)),
            Err(error) => Err(error),
        }
    }

    /// The same names, with these extensions in the place of those that were read.
    pub fn with_options(self, options: Options) -> Entities
        ensures { result ≡ with_options self options }
    {
        Entities {
            added: self.added,
            options,
        }
    }

    /// Whether tables are read.
    pub fn tables(&self) -> bool
        ensures { result ≡ self.now.tables }
    {
        self.options.tables
    }

    /// Whether strikethrough is read.
    pub fn strikethrough(&self) -> bool
        ensures { result ≡ self.now.strikethrough }
    {
        self.options.strikethrough
    }

    /// Whether task list items are read.
    pub fn tasks(&self) -> bool
        ensures { result ≡ self.now.tasks }
    {
        self.options.tasks
    }

    /// Whether bare links are read.
    pub fn bare_links(&self) -> bool
        ensures { result ≡ self.now.bare_links }
    {
        self.options.bare_links
    }

    /// Whether a page tells its images.
    pub fn images(&self) -> bool
        ensures { result ≡ self.now.images }
    {
        self.options.images
    }

    /// The one or two characters of a name, which is given without `&` and `;`.
    pub fn find(&self, name: &str) -> Option<(char, Option<char>)>
        ensures { option_map characters result ≡ find_entity self.now.names (chars name.now) }
    {
        match &self.added {
            None => find_built_in(name),
            Some(added) => find_either(added, name),
        }
    }
}

/// What is answered without memory: the first line that contradicts, where there is one.
fn twice_or_memory(text: &str) -> TableError
    ensures { result ≡ twice_or TableError.Memory (twice_line built_in 1 (lines text.now)) }
{
    match twice_line(text) {
        Some(line) => TableError::Twice(line),
        None => TableError::Memory,
    }
}
