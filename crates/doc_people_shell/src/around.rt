//! What stands around a place in its folder, as much of it as is shown, and one more at each end.

ghost use Rattle.std.specs.Prelude.{◌≡◌, [], option_copied, take, IfOk};
ghost use Rattle.doc_people.specs.Folders.{folder_of, keys};
ghost use Rattle.doc_people.specs.Limits.{after_limit, before_limit};
ghost use Rattle.doc_people.specs.Navigation.{folder_at, is_around, is_at, is_cut, last_ones, window};
ghost use Rattle.doc_people_shell.specs.Windows.{is_more, keys_before, keys_from, shown_of};

use doc_page_parts::failure::Memory;
use doc_page_parts::heap::{Heap, Vec};
use doc_page_parts::list::List;
use doc_page_parts::text::Text;
use doc_people::viewed::Viewed;
use doc_people_lines::texts::{folder_of, index_of, is_folder};

/// Entries that are shown before a page.
const BEFORE: usize = 30;

/// Entries that are shown from a page on.
const FROM: usize = 60;

/// What stands in a folder before a place and from it on.
#[derive(Drop)]
pub(crate) struct Around {
    before: List<Text>,
    from: List<Text>,
}

impl Around {
    /// What is shown before the place.
    pub(crate) fn shown_before(&self) -> &[Text]
        ensures { result.now ≡ last_ones before_limit self.now.before }
    {
        let before = self.before.get();
        &before[before.len().saturating_sub(BEFORE)..]
    }

    /// What is shown from the place on.
    pub(crate) fn shown_from(&self) -> &[Text]
        ensures { result.now ≡ take after_limit self.now.from }
    {
        let from = self.from.get();
        &from[..from.len().min(FROM)]
    }

    /// There is more at either end.
    pub(crate) fn is_cut(&self) -> bool
        ensures { result ≡ is_more self.now.before self.now.from }
    {
        self.before.get().len() > BEFORE || self.from.get().len() > FROM
    }
}

/// The folder that is shown.
pub(crate) fn folder_at(at: Option<&str>) -> &str
    ensures { result.now ≡ folder_at (option_copied at.entry) }
{
    match at {
        Some(place) => folder_of(place),
        None => "",
    }
}

/// The place is this one.
pub(crate) fn is_at(at: Option<&str>, other: &str) -> bool
    ensures { result ≡ is_at (option_copied at.entry) other.now }
{
    match at {
        Some(place) => place == other,
        None => false,
    }
}

/// What stands around a place, or else all that stands in the folder.
pub(crate) fn keys_around<V: Viewed>(
    heap: Heap,
    view: &V,
    at: Option<&str>,
) -> Result<Around, Memory>
    ensures shown { IfOk result (λ around. shown_of around.before around.from
        ≡ window (option_copied at.entry)
        (keys (V.view view.now) (folder_at (option_copied at.entry)))) }
    ensures cut { IfOk result (λ around. is_more around.before around.from
        ≡ is_cut (option_copied at.entry)
        (keys (V.view view.now) (folder_at (option_copied at.entry)))) }
{
    match at {
        Some(place) => around_place(heap, view, place),
        None => all_in(heap, view, ""),
    }
}

/// What stands around a place.
fn around_place<V: Viewed>(heap: Heap, view: &V, place: &str) -> Result<Around, Memory>
    ensures shown { IfOk result (λ around. shown_of around.before around.from
        ≡ window (Some place.now) (keys (V.view view.now) (folder_of place.now))) }
    ensures cut { IfOk result (λ around. is_more around.before around.from
        ≡ is_cut (Some place.now) (keys (V.view view.now) (folder_of place.now))) }
{
    let folder = folder_of(place);
    if !is_around(heap, place)? {
        return all_in(heap, view, folder);
    }
    at_place(view, place)
}

/// What stands in the folder of a page before the page, and from it on.
fn at_place<V: Viewed>(view: &V, place: &str) -> Result<Around, Memory>
    ensures shown { IfOk result (λ around. shown_of around.before around.from
        ≡ shown_of (keys_before place.now (keys (V.view view.now) (folder_of place.now)))
        (keys_from place.now (keys (V.view view.now) (folder_of place.now)))) }
    ensures cut { IfOk result (λ around. is_more around.before around.from
        ≡ is_more (keys_before place.now (keys (V.view view.now) (folder_of place.now)))
        (keys_from place.now (keys (V.view view.now) (folder_of place.now)))) }
{
    let folder = folder_of(place);
    Ok(Around {
        before: view.keys_before(folder, place, BEFORE + 1)?,
        from: view.keys_from(folder, place, FROM + 1)?,
    })
}

/// All that stands in a folder.
fn all_in<V: Viewed>(heap: Heap, view: &V, folder: &str) -> Result<Around, Memory>
    ensures shown { IfOk result (λ around. shown_of around.before around.from
        ≡ shown_of [] (keys (V.view view.now) folder.now)) }
    ensures cut { IfOk result (λ around. is_more around.before around.from
        ≡ is_more [] (keys (V.view view.now) folder.now)) }
{
    Ok(Around {
        before: List::new(Vec::new(heap)),
        from: view.keys_from(folder, "", FROM + 1)?,
    })
}

/// What is shown stands around the place: a page, and not that which stands for its folder.
fn is_around(heap: Heap, place: &str) -> Result<bool, Memory>
    ensures { IfOk result (λ around. around ≡ is_around place.now) }
{
    if is_folder(place) {
        return Ok(false);
    }
    let index = index_of(heap, folder_of(place))?;
    Ok(place != index.get())
}
