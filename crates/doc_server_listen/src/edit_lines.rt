//! The edits of a turn as lines of a script.

ghost use Rattle.std.specs.Prelude.{◌≡◌, ◌≤◌, ◌++◌, [], None, Some, true, length, min, option_map, option_to_list, string_bytes};
ghost use Rattle.std.specs.Prelude.{IfSome, OnOk};
ghost use Rattle.std.specs.FinMap as map;
ghost use Rattle.doc_hub_events.specs.Events.{step_on, stepping};
ghost use Rattle.doc_hub.specs.Runs.{Happens};
ghost use Rattle.doc_server_journal_records.specs.Records.{IsPlain, text_limit};
ghost use Rattle.doc_server_script.specs.PageLines.{lines_of};
ghost use Rattle.doc_server_script.specs.PlainLines.{HasBytes};
ghost use Rattle.doc_server_listen.specs.Edits.{Adds, MakesIn, NamesGroups, TakesMore, edit_at, has_room, longest};
ghost use Rattle.doc_server_listen.specs.OnlyReads.{StepOnlyReads};
ghost use Rattle.doc_store.specs.Store.{set_page};

use doc_hub::edit::Edit;
use doc_hub::event::{ConnId, Step};
use doc_hub::hub::Hub;
use doc_hub::refusal::StepError;
use doc_page::renderer::Renderer;
use doc_page_parts::failure::Memory;
use doc_page_parts::heap::{Heap, String};
use doc_page_parts::path::Path;
use doc_server_journal_records::record::TEXT_LIMIT;
use doc_server_script::bytes::{page_bytes, path_bytes};
use doc_server_script::page_lines::{push_move_line, push_put_line, push_remove_line};
use std::marker::Model;

/// How many bytes a path may have.
const PATH_LIMIT: usize = 200;

/// How many groups a page may have.
const GROUP_LIMIT: usize = 32;

/// How many bytes the name of a group may have.
const NAME_LIMIT: usize = 32;

/// How many bytes the text of a page may have: 1 MiB.
const PAGE_LIMIT: usize = 1_048_576;

/// The longest line of an edit: `put `, a path, the names of groups and a text, with what stands behind each of them. Each byte of the path
/// and of the text is written with four.
const LONGEST_LINE: usize = 4
    + (4 * PATH_LIMIT + 1)
    + GROUP_LIMIT * (NAME_LIMIT + 1)
    + (4 * PAGE_LIMIT + 1);

/// The longest line of a removal: `remove `, a path and a line feed.
const LONGEST_REMOVAL: usize = 7 + (4 * PATH_LIMIT + 1);

/// The lines of the edits of a turn, where they are kept. Once memory ran out it isn't whole any more; until then the record of the turn
/// takes them.
#[derive(Drop)]
pub struct EditLines {
    lines: Option<String>,
    whole: bool,
    /// How many bytes of lines the record takes.
    most: usize,
}

impl Model for EditLines {
    ghost use Rattle.std.specs.Prelude.{option_map, string_bytes};
    ghost use Rattle.doc_server_listen.specs.Edits.{Kept, FitsRecord};

    ghost Value = { Kept };

    ghost view = { λ e. record {
      lines = option_map string_bytes e.lines;
      is_whole = e.whole;
      most = e.most;
    } };

    ghost invariant = { λ e. FitsRecord (record {
      lines = option_map string_bytes e.lines;
      is_whole = e.whole;
      most = e.most;
    }) };
}

impl EditLines {
    /// No lines yet. The record of the turn takes so many bytes of them, and no more than any record does.
    #[tactic(auto, unfolding(doc_server_journal_records::specs::Records::text_limit))]
    pub fn kept(heap: Heap, most: usize) -> EditLines
        ensures { result ≡ record {
          lines = Some [];
          is_whole = true;
          most = min most text_limit;
        } }
    {
        EditLines {
            lines: Some(String::new(heap)),
            whole: true,
            most: most.min(TEXT_LIMIT),
        }
    }

    /// Lines that are never kept.
    pub fn dropped() -> EditLines
        ensures { result ≡ record { lines = None; is_whole = true; most = 0 } }
    {
        EditLines {
            lines: None,
            whole: true,
            most: 0,
        }
    }

    /// The lines, where they are kept and none is missing.
    pub fn whole_lines(&self) -> Option<&str>
        ensures { IfSome result (λ lines.
            (self.now.is_whole ≡ true) × (self.now.lines ≡ Some lines.now)
            × (length lines.now ≤ text_limit) × (length lines.now ≤ self.now.most)
            × IsPlain lines.now) }
    {
        if !self.whole {
            return None;
        }
        match &self.lines {
            Some(lines) => Some(lines.as_str()),
            None => None,
        }
    }

    /// Whether one more edit may be made: none is missing, and its line has room in the record of the turn. Where no puts are taken, it
    /// is a removal.
    pub fn has_room(&self, takes_puts: bool) -> bool
        ensures { result ≡ has_room self.now takes_puts }
    {
        let longest = longest(takes_puts);
        match &self.lines {
            Some(lines) => {
                self.whole && longest <= self.most && lines.len() <= self.most - longest
            }
            None => true,
        }
    }

    /// Adds the line of an edit that a step of the hub made, where it stands now. Without an edit nothing is added.
    fn push<R: Renderer + Drop>(&mut self, hub: &Hub<R>, edit: &Option<Edit>)
        requires room { TakesMore self.old
            (lines_of (option_to_list (edit_at hub.now.1 edit.now))) }
        requires bytes { IfSome (edit_at hub.now.1 edit.now) HasBytes }
        ensures adds { Adds self.old self.new (option_to_list (edit_at hub.now.1 edit.now)) }
        ensures none { edit.now ≡ None → self.new ≡ self.old }
    {
        if edit.is_none() {
            return;
        }
        let Some(lines) = &mut self.lines else {
            return;
        };
        if push_edit(lines, hub, edit).is_err() {
            self.whole = false;
        }
    }
}

/// The longest line of one more edit, by whether puts are taken.
#[tactic(auto, unfolding(doc_server_script::specs::LineLengths::longest_line, doc_store::specs::Store::text_limit, crate::specs::Edits::longest_removal))]
fn longest(takes_puts: bool) -> usize
    ensures { result ≡ longest takes_puts }
{
    if takes_puts {
        LONGEST_LINE
    } else {
        LONGEST_REMOVAL
    }
}

/// One step of a connection, and the line of its edit right behind it. A step that only reads adds none.
pub fn step_and_keep<R: Renderer + Drop>(
    hub: &mut Hub<R>,
    id: ConnId,
    edits: &mut EditLines,
) -> Result<Step, StepError>
    requires { has_room edits.old hub.old.1.takes_puts ≡ true }
    ensures world { Happens (R.page hub.old.0) hub.old.1 (step_on id) hub.new.1 result }
    ensures edit { (edit : _) × MakesIn (R.page hub.old.0) hub.old.1 (step_on id)
        (stepping result) hub.new.1 edit × Adds edits.old edits.new (option_to_list edit) }
    ensures rests { StepOnlyReads hub.old.1 id.0 → edits.new ≡ edits.old }
    ensures same { R.page hub.new.0 ≡ R.page hub.old.0 }
{
    let (step, edit) = hub.step_edited(id)?;
    names_groups(&edit);
    has_bytes(hub, &edit);
    edits.push(hub, &edit);
    Ok(step)
}

/// The groups that an edit names are groups. Their type has it so, and this does nothing but say it.
fn names_groups(edit: &Option<Edit>)
    ensures { IfSome edit.now NamesGroups }
{
    match edit {
        Some(Edit::Put(_, groups)) => {
            let _ = groups.names();
        }
        Some(Edit::Regroup(_, groups)) => {
            let _ = groups.names();
        }
        _ => {}
    }
}

/// The paths and the texts of an edit are bytes, and this says it, too.
fn has_bytes<R: Renderer + Drop>(hub: &Hub<R>, edit: &Option<Edit>)
    ensures { IfSome (edit_at hub.now.1 edit.now) HasBytes }
{
    match edit {
        None => {}
        Some(Edit::Put(path, _)) => stored_bytes(hub, path),
        Some(Edit::Regroup(path, _)) => stored_bytes(hub, path),
        Some(Edit::Move(from, to)) => {
            path_bytes(from);
            path_bytes(to);
        }
        Some(Edit::Remove(path)) => path_bytes(path),
    }
}

/// The same of the put of the page that stands under a path.
fn stored_bytes<R: Renderer + Drop>(hub: &Hub<R>, path: &Path)
    ensures { IfSome (option_map (set_page path.now)
        (map.get hub.now.1.site.pages path.now)) HasBytes }
{
    match hub.page(path) {
        Some(page) => page_bytes(path, page),
        None => {}
    }
}

/// Writes the line of an edit, none where there is none.
fn push_edit<R: Renderer + Drop>(
    out: &mut String,
    hub: &Hub<R>,
    edit: &Option<Edit>,
) -> Result<(), Memory>
    ensures { OnOk result (string_bytes out.new ≡ string_bytes out.old
        ++ lines_of (option_to_list (edit_at hub.now.1 edit.now))) }
{
    match edit {
        None => Ok(()),
        Some(Edit::Put(path, _)) => push_page(out, hub, path),
        Some(Edit::Regroup(path, _)) => push_page(out, hub, path),
        Some(Edit::Move(from, to)) => push_move_line(out, from, to),
        Some(Edit::Remove(path)) => push_remove_line(out, path),
    }
}

/// Writes the line that puts the page of a path as it stands, none where none does.
fn push_page<R: Renderer + Drop>(out: &mut String, hub: &Hub<R>, path: &Path) -> Result<(), Memory>
    ensures { OnOk result (string_bytes out.new ≡ string_bytes out.old
        ++ lines_of (option_to_list
        (option_map (set_page path.now) (map.get hub.now.1.site.pages path.now)))) }
{
    match hub.page(path) {
        Some(page) => push_put_line(out, path, page),
        None => Ok(()),
    }
}
