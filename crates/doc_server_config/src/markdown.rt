//! The table `markdown` of a configuration.

ghost use Rattle.std.specs.Prelude.{◌≡◌, codes};
ghost use Rattle.toml.specs.Data.{get_member};
ghost use Rattle.toml.specs.View.{table_view};
ghost use Rattle.doc_server_config.specs.Markdown.{flag_at, front_of_table, markdown_at, markdown_of_table, matter_at, matter_of};
ghost use Rattle.doc_server_config.specs.Markdown.{options_of_table, plain};

use crate::table::{has_only, value_at};
use doc_front::rules::{FrontMatter, FrontRules};
use doc_lines::options::Options;
use toml::Table;

/// How texts are read.
#[derive(Clone, Copy, Debug)]
pub struct Markdown {
    /// What is cut of their fronts.
    pub front: FrontRules,
    /// The extensions of CommonMark that are read, and whether images are told.
    pub options: Options,
}

impl Markdown {
    /// Texts are read as they stand, by CommonMark alone, and no image is told.
    pub fn plain() -> Self
        ensures { result ≡ plain }
    {
        Markdown {
            front: FrontRules::none(),
            options: Options::default(),
        }
    }
}

/// How texts are read: what the table `markdown` says by the booleans `bare_links`, `check_images`, `skip_bom`, `strikethrough`,
/// `tables` and `tasks` (else `false`) and by `front_matter` (`skip` or `title`, else front matter is text). `None` says that it is no
/// table, has another key, or holds what it may not.
pub(crate) fn markdown_in(document: &Table) -> Option<Markdown>
    ensures { result ≡ markdown_at (get_member (codes "markdown") (table_view document.now)) }
{
    let Some(value) = value_at(document, "markdown") else {
        return Some(Markdown::plain());
    };
    markdown_of_table(value.as_table()?)
}

fn markdown_of_table(table: &Table) -> Option<Markdown>
    ensures { result ≡ markdown_of_table (table_view table.now) }
{
    if !has_only(
        table,
        &[
            "bare_links",
            "check_images",
            "front_matter",
            "skip_bom",
            "strikethrough",
            "tables",
            "tasks",
        ],
    ) {
        return None;
    }
    let front = front_of_table(table)?;
    let options = options_of_table(table)?;
    Some(Markdown { front, options })
}

fn front_of_table(table: &Table) -> Option<FrontRules>
    ensures { result ≡ front_of_table (table_view table.now) }
{
    let skip_bom = flag_in(table, "skip_bom")?;
    let front_matter = matter_in(table)?;
    Some(FrontRules {
        skip_bom,
        front_matter,
    })
}

fn options_of_table(table: &Table) -> Option<Options>
    ensures { result ≡ options_of_table (table_view table.now) }
{
    let tables = flag_in(table, "tables")?;
    let strikethrough = flag_in(table, "strikethrough")?;
    let tasks = flag_in(table, "tasks")?;
    let bare_links = flag_in(table, "bare_links")?;
    let images = flag_in(table, "check_images")?;
    Some(Options {
        tables,
        strikethrough,
        tasks,
        bare_links,
        images,
    })
}

/// The boolean that a key holds, which is `false` without the key, or `None` where it holds anything else.
fn flag_in(table: &Table, key: &str) -> Option<bool>
    ensures { result ≡ flag_at (get_member key.now (table_view table.now)) }
{
    match value_at(table, key) {
        None => Some(false),
        Some(value) => value.as_bool(),
    }
}

fn matter_in(table: &Table) -> Option<FrontMatter>
    ensures { result ≡ matter_at (get_member (codes "front_matter") (table_view table.now)) }
{
    match value_at(table, "front_matter") {
        None => Some(FrontMatter::Keep),
        Some(value) => matter_of(value.as_str()?),
    }
}

/// What becomes of front matter, by the name of it.
pub fn matter_of(text: &str) -> Option<FrontMatter>
    ensures { result ≡ matter_of text.now }
{
    if text == "skip" {
        return Some(FrontMatter::Skip);
    }
    if text == "title" {
        return Some(FrontMatter::Title);
    }
    None
}
