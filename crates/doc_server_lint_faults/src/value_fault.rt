//! What is wrong with the value of a key.

ghost use Rattle.std.specs.Prelude.{◌≡◌, IfOk, is_some, option_and_then, option_copied, option_map};
ghost use Rattle.toml.specs.Data.{as_array, as_integer, as_str};
ghost use Rattle.toml.specs.View.{view};
ghost use Rattle.doc_page_parts.specs.Paths.{is_path};
ghost use Rattle.doc_store_readers.specs.Groups.{groups_of_names, texts_of};
ghost use Rattle.doc_store_readers.specs.Readers.{tables_of};
ghost use Rattle.doc_server_config.specs.Bounds.{within};
ghost use Rattle.doc_server_lint_faults.specs.Values.{except_fault, form_told, group_told, groups_fault, is_form, missing_fault, refused_groups};
ghost use Rattle.doc_server_lint_faults.specs.Values.{strings_of, text_fault, told, value_fault};

use crate::digest_text::digest_of_text;
use crate::group_name::first_bad_group;
use crate::rule::{Form, Rule};
use crate::tables::are_tables;
use crate::what::{Kind, What};
use doc_page_parts::failure::Memory;
use doc_page_parts::heap::{Heap, Vec};
use doc_page_parts::path::{Path, PathError};
use doc_page_parts::text::Text;
use doc_page_parts::token::is_token;
use doc_server_config::bounds::within;
use doc_server_config::browsing_keys::strings_in;
use doc_server_config::browsing_texts::{is_language, is_title};
use doc_server_config::except::are_folder_names;
use doc_server_config::file_name::is_prefix;
use doc_server_config::folder_rules::{nfc_of, skips_of};
use doc_server_config::markdown::matter_of;
use doc_server_config::media_names::listed_media;
use doc_server_names::reader_name::is_name;
use doc_store::groups::{Groups, GroupsError};
use toml::Value;

/// How many bytes the text of a page has at most.
const TEXT_LIMIT: usize = 1_048_576;

/// What is wrong where a key of this rule isn't there.
pub(crate) fn missing_fault(rule: Rule) -> Option<What>
    ensures { result ≡ missing_fault rule }
{
    match rule {
        Rule::Needed(_) => Some(What::Missing),
        _ => None,
    }
}

/// What is wrong with a value.
pub(crate) fn value_fault(heap: Heap, rule: Rule, value: &Value) -> Result<Option<What>, Memory>
    ensures { IfOk result (λ what. what ≡ value_fault rule (view value.now)) }
{
    match rule {
        Rule::Boolean => Ok(told(What::MustBe(Kind::Boolean), value.is_bool())),
        Rule::Integer(most) => Ok(integer_fault(value, most)),
        Rule::Text(form) => text_fault(heap, form, value),
        Rule::Needed(form) => text_fault(heap, form, value),
        Rule::Groups => groups_fault(heap, value),
        Rule::Except => except_fault(heap, value),
        Rule::Media => media_fault(heap, value),
        Rule::Table => Ok(told(What::MustBe(Kind::Table), value.is_table())),
        Rule::Tables => Ok(told(What::MustBe(Kind::Tables), is_tables(value))),
    }
}

/// What is told of what isn't good.
fn told(what: What, good: bool) -> Option<What>
    ensures { result ≡ told what good }
{
    if good {
        return None;
    }
    Some(what)
}

fn integer_fault(value: &Value, most: u32) -> Option<What>
    ensures { result ≡ value_fault (Rule.Integer most) (view value.now) }
{
    told(What::MustBe(Kind::Integer(most)), is_within(value, most))
}

fn is_within(value: &Value, most: u32) -> bool
    ensures { result ≡ is_some (option_and_then (within most) (as_integer (view value.now))) }
{
    match value.as_integer() {
        Some(number) => within(most, number).is_some(),
        None => false,
    }
}

/// Whether a value is an array of tables.
fn is_tables(value: &Value) -> bool
    ensures { result ≡ is_some (tables_of (as_array (view value.now))) }
{
    match value.as_array() {
        Some(values) => are_tables(values),
        None => false,
    }
}

fn text_fault(heap: Heap, form: Form, value: &Value) -> Result<Option<What>, Memory>
    ensures { IfOk result (λ what. what ≡ text_fault form (as_str (view value.now))) }
{
    match value.as_str() {
        Some(text) => Ok(told(form_told(form), is_form(heap, form, text)?)),
        None => Ok(Some(What::MustBe(Kind::Text))),
    }
}

/// Whether a string is of a form.
fn is_form(heap: Heap, form: Form, text: &str) -> Result<bool, Memory>
    ensures { IfOk result (λ good. good ≡ is_form form text.now) }
{
    match form {
        Form::Any => Ok(true),
        Form::Token => Ok(is_token(text.as_bytes())),
        Form::Digest => Ok(digest_of_text(text).is_some()),
        Form::Name => Ok(is_name(text.as_bytes())),
        Form::PagePath => is_path(heap, text),
        Form::PageText => Ok(text.len() <= TEXT_LIMIT),
        Form::Title => Ok(is_title(text)),
        Form::Language => Ok(is_language(text)),
        Form::Home => is_path(heap, text),
        Form::Login => Ok(text == "basic"),
        Form::Matter => Ok(matter_of(text).is_some()),
        Form::Prefix => is_prefix(heap, text),
        Form::Names => Ok(nfc_of(text).is_some()),
        Form::OnBad => Ok(skips_of(text).is_some()),
    }
}

/// Whether a text is the path of a page.
pub fn is_path(heap: Heap, text: &str) -> Result<bool, Memory>
    ensures { IfOk result (λ good. good ≡ is_path text.now) }
{
    match Path::new(heap, text) {
        Ok(_path) => Ok(true),
        Err(PathError::BadPath) => Ok(false),
        Err(PathError::Memory) => Err(Memory),
    }
}

/// What is told of a string that isn't of a form.
fn form_told(form: Form) -> What
    ensures { result ≡ form_told form }
{
    match form {
        Form::Token => What::NoToken,
        Form::Name => What::NoName,
        Form::PagePath => What::NoPath,
        Form::PageText => What::LongText,
        _ => What::Bad,
    }
}

fn groups_fault(heap: Heap, value: &Value) -> Result<Option<What>, Memory>
    ensures { IfOk result (λ what. what ≡ groups_fault (strings_of (view value.now))) }
{
    match strings_of(heap, value)? {
        Some(names) => names_fault(heap, &names),
        None => Ok(Some(What::MustBe(Kind::Texts))),
    }
}

/// What is wrong with names of groups.
fn names_fault(heap: Heap, names: &[&str]) -> Result<Option<What>, Memory>
    ensures { IfOk result (λ what. what
        ≡ refused_groups (texts_of names.now) (groups_of_names (texts_of names.now))) }
{
    match Groups::of_names(heap, names) {
        Ok(_groups) => Ok(None),
        Err(GroupsError::TooMany) => Ok(Some(What::ManyGroups)),
        Err(GroupsError::BadGroup) => Ok(Some(group_told(heap, first_bad_group(names))?)),
        Err(GroupsError::Memory) => Err(Memory),
    }
}

/// What is told of the first name that is none of a group.
fn group_told(heap: Heap, name: Option<&str>) -> Result<What, Memory>
    ensures { IfOk result (λ what. what ≡ group_told (option_copied name.entry)) }
{
    match name {
        Some(name) => Ok(What::NoGroup(Text::copy_of(heap, name)?)),
        None => Ok(What::Bad),
    }
}

fn except_fault(heap: Heap, value: &Value) -> Result<Option<What>, Memory>
    ensures { IfOk result (λ what. what ≡ except_fault (strings_of (view value.now))) }
{
    match strings_of(heap, value)? {
        Some(names) => Ok(told(What::Bad, are_folder_names(&names))),
        None => Ok(Some(What::MustBe(Kind::Texts))),
    }
}

fn media_fault(heap: Heap, value: &Value) -> Result<Option<What>, Memory>
    ensures { IfOk result (λ what. what ≡ value_fault Rule.Media (view value.now)) }
{
    match value.as_bool() {
        Some(all) => Ok(told(What::Bad, all)),
        None => Ok(told(What::Bad, listed_media(heap, value)?.is_some())),
    }
}

/// The strings of a value that is an array of such.
fn strings_of(heap: Heap, value: &Value) -> Result<Option<Vec<&str>>, Memory>
    ensures { IfOk result (λ texts.
        option_map (λ found. texts_of found.items) texts ≡ strings_of (view value.now)) }
{
    match value.as_array() {
        Some(array) => strings_in(heap, array),
        None => Ok(None),
    }
}
