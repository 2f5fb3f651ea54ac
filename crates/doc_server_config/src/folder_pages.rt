//! The pages and the media of a folder.

ghost use Rattle.std.specs.Prelude.{◌≡◌, ◌≤◌, false, true, Ok, Some, IfErr, IfOk, IfSome, OnOk, length};
ghost use Rattle.std.specs.List.{All};
ghost use Rattle.doc_media.specs.Held.{medium_limit};
ghost use Rattle.doc_store.specs.Store.{text_limit};
ghost use Rattle.doc_server_config.specs.Excepted.{is_excepted};
ghost use Rattle.doc_server_config.specs.FolderPages.{IsFileOf, MaySay, path_in};
ghost use Rattle.doc_server_config.specs.FileNames.{is_page_name};
ghost use Rattle.doc_server_config.specs.Reasons.{is_of_path};

use crate::bad_file::BadFile;
use crate::except::is_excepted;
use crate::file_name::{is_page_name, path_in_folder};
use crate::folder::Folder;
use crate::folder_reading::FolderReading;
use crate::growth::push;
use crate::reason::{Reason, open_reason};
use crate::taken::Taken;
use crate::walk::joined;
use doc_media::kind::MediaKind;
use doc_page_parts::bytes::Bytes;
use doc_page_parts::failure::Memory;
use doc_page_parts::heap::{Heap, String, Vec};
use doc_page_parts::list::List;
use doc_page_parts::path::Path;
use doc_page_parts::text::Text;
use doc_server_streams::fault::Fault;
use doc_server_streams::read_from::ReadFrom;
use doc_server_streams::whole_input::read_whole;
use doc_store::groups::Groups;
use std::alloc::AllocGlobal;
use std::fs::{File, metadata};
use std::rt::Files;

/// How many bytes the text of a page may have.
const TEXT_LIMIT: usize = 1_048_576;

/// How many bytes a medium may have.
const MEDIUM_LIMIT: usize = 8_388_608;

/// A page of a folder.
#[derive(Drop)]
pub struct FolderPage {
    pub path: Path,
    pub groups: Groups,
    pub text: Text,
}

/// A medium of a folder.
#[derive(Drop)]
pub struct FolderMedium {
    pub path: Path,
    pub groups: Groups,
    pub kind: MediaKind,
    pub bytes: Bytes,
}

/// What a file of a folder is that isn't passed over by its name.
#[derive(Drop)]
pub enum FolderFile {
    Page(FolderPage),
    Medium(FolderMedium),
    Bad(BadFile),
}

/// The files of a folder, in the order of their names: each regular file in it and below whose name ends in `.md`, or has an extension
/// of its media. Names that begin
/// with `.`, links, and the folders that it excepts are passed over. `CannotRead` names a folder that can't be read, or an excepted one
/// that isn't there. Which files a folder has no clause says, and of a refusal nothing. What its pages take is noted.
pub fn read_folder<R: AllocGlobal + Files + Clone + Drop>(
    rt: &R,
    heap: Heap,
    folder: &Folder,
    taken: &mut Taken,
) -> Result<List<FolderFile>, Fault>
    ensures { IfOk result (λ files. All (IsFileOf folder.now) files) }
{
    let mut reading = FolderReading::begin(heap)?;
    reading.read_all(rt, heap, folder, taken)?;
    let (files, _seen) = reading.end();
    Ok(files)
}

/// Adds a file, where it isn't passed over.
pub(crate) fn add_file<R: AllocGlobal + Files + Clone + Drop>(
    rt: &R,
    heap: Heap,
    folder: &Folder,
    file: &str,
    taken: &mut Taken,
    files: &mut Vec<FolderFile>,
) -> Result<(), Memory>
    ensures { All (IsFileOf folder.now) files.old.items
        → OnOk result (All (IsFileOf folder.now) files.new.items) }
{
    if is_excepted(folder.except.get(), file) {
        return Ok(());
    }
    match file_of(rt, heap, folder, file, taken)? {
        Some(found) => push(files, found),
        None => Ok(()),
    }
}

/// What a file is; none where it is passed over.
fn file_of<R: AllocGlobal + Files + Clone + Drop>(
    rt: &R,
    heap: Heap,
    folder: &Folder,
    file: &str,
    taken: &mut Taken,
) -> Result<Option<FolderFile>, Memory>
    requires { is_excepted folder.now.except file.now ≡ false }
    ensures { IfOk result (λ found. IfSome found (IsFileOf folder.now)) }
{
    match taken_file(rt, heap, folder, file, taken)? {
        Ok(found) => Ok(found),
        Err(reason) => {
            let bad = BadFile::new(heap, folder, file, reason)?;
            Ok(Some(FolderFile::Bad(bad)))
        }
    }
}

/// The page or the medium in a file, or why it has none; nothing where the file is passed over.
fn taken_file<R: AllocGlobal + Files + Clone + Drop>(
    rt: &R,
    heap: Heap,
    folder: &Folder,
    file: &str,
    taken: &mut Taken,
) -> Result<Result<Option<FolderFile>, Reason>, Memory>
    requires { is_excepted folder.now.except file.now ≡ false }
    ensures file { IfOk result
        (λ found. IfOk found (λ file. IfSome file (IsFileOf folder.now))) }
    ensures reason { IfOk result
        (λ found. IfErr found (MaySay (path_in folder.now file.now))) }
{
    match path_in(heap, folder, file)? {
        Ok(Some(path)) => {
            if is_page_name(file) {
                page_at(rt, heap, folder, path, file, taken)
            } else {
                medium_at(rt, heap, folder, path, file, taken)
            }
        }
        Ok(None) => Ok(Ok(None)),
        Err(reason) => Ok(Err(reason)),
    }
}

/// The path of the page or the medium in a file, or why it makes none; nothing where the file is passed over.
fn path_in(heap: Heap, folder: &Folder, file: &str) -> Result<Result<Option<Path>, Reason>, Memory>
    ensures { IfOk result (λ path. path ≡ path_in folder.now file.now) }
{
    path_in_folder(
        heap,
        folder.rules.is_nfc,
        &folder.media,
        folder.prefix.get(),
        file,
    )
}

/// The page in a file, which stands under this path.
fn page_at<R: AllocGlobal + Files + Clone + Drop>(
    rt: &R,
    heap: Heap,
    folder: &Folder,
    path: Path,
    file: &str,
    taken: &mut Taken,
) -> Result<Result<Option<FolderFile>, Reason>, Memory>
    requires inside { is_excepted folder.now.except file.now ≡ false }
    requires path { path_in folder.now file.now ≡ Ok (Some path) }
    requires page { is_page_name file.now ≡ true }
    ensures file { IfOk result
        (λ found. IfOk found (λ file. IfSome file (IsFileOf folder.now))) }
    ensures reason { IfOk result
        (λ found. IfErr found (λ reason. is_of_path reason ≡ false)) }
{
    let text = match take_text(rt, heap, folder, &path, file, taken)? {
        Ok(text) => text,
        Err(reason) => return Ok(Err(reason)),
    };
    let groups = folder.groups.copy(heap)?;
    Ok(Ok(Some(FolderFile::Page(FolderPage { path, groups, text }))))
}

/// The text of a page under this path, once it is taken, or why it isn't.
fn take_text<R: AllocGlobal + Files>(
    rt: &R,
    heap: Heap,
    folder: &Folder,
    path: &Path,
    file: &str,
    taken: &mut Taken,
) -> Result<Result<Text, Reason>, Memory>
    ensures text { IfOk result (λ read. IfOk read (λ text. length text ≤ text_limit)) }
    ensures reason { IfOk result (λ read. IfErr read (λ reason. is_of_path reason ≡ false)) }
{
    let name = joined(heap, folder.file.get(), file)?;
    let text = match read_text(rt, heap, name.as_str())? {
        Ok(text) => text,
        Err(reason) => return Ok(Err(reason)),
    };
    if let Err(reason) = taken.take_page(folder.rules.is_nfc, path, name.as_str())? {
        return Ok(Err(reason));
    }
    Ok(Ok(text))
}

/// The medium in a file, which stands under this path. Its name has one of the folder's extensions, and so names a kind.
fn medium_at<R: AllocGlobal + Files + Clone + Drop>(
    rt: &R,
    heap: Heap,
    folder: &Folder,
    path: Path,
    file: &str,
    taken: &mut Taken,
) -> Result<Result<Option<FolderFile>, Reason>, Memory>
    requires inside { is_excepted folder.now.except file.now ≡ false }
    requires path { path_in folder.now file.now ≡ Ok (Some path) }
    ensures file { IfOk result
        (λ found. IfOk found (λ file. IfSome file (IsFileOf folder.now))) }
    ensures reason { IfOk result
        (λ found. IfErr found (λ reason. is_of_path reason ≡ false)) }
{
    let Some(kind) = MediaKind::of(&path) else {
        return Ok(Ok(None));
    };
    let bytes = match take_bytes(rt, heap, folder, &path, file, taken)? {
        Ok(bytes) => bytes,
        Err(reason) => return Ok(Err(reason)),
    };
    Ok(Ok(Some(FolderFile::Medium(FolderMedium {
        path,
        groups: folder.groups.copy(heap)?,
        kind,
        bytes,
    }))))
}

/// The bytes of a medium under this path, once it is taken, or why it isn't.
fn take_bytes<R: AllocGlobal + Files>(
    rt: &R,
    heap: Heap,
    folder: &Folder,
    path: &Path,
    file: &str,
    taken: &mut Taken,
) -> Result<Result<Bytes, Reason>, Memory>
    ensures bytes { IfOk result (λ read. IfOk read (λ bytes. length bytes ≤ medium_limit)) }
    ensures reason { IfOk result (λ read. IfErr read (λ reason. is_of_path reason ≡ false)) }
{
    let name = joined(heap, folder.file.get(), file)?;
    let bytes = match read_medium(rt, heap, name.as_str())? {
        Ok(bytes) => bytes,
        Err(reason) => return Ok(Err(reason)),
    };
    let count = bytes.get().len();
    if let Err(reason) = taken.take_medium(folder.rules.is_nfc, path, name.as_str(), count)? {
        return Ok(Err(reason));
    }
    Ok(Ok(bytes))
}

/// The bytes of a file, or why it has none that a medium may have.
#[tactic(auto, unfolding(doc_media::specs::Held::medium_limit))]
fn read_medium<R: AllocGlobal + Files>(
    rt: &R,
    heap: Heap,
    name: &str,
) -> Result<Result<Bytes, Reason>, Memory>
    ensures bytes { IfOk result (λ read. IfOk read (λ bytes. length bytes ≤ medium_limit)) }
    ensures reason { IfOk result (λ read. IfErr read (λ reason. is_of_path reason ≡ false)) }
{
    let file = match File::open(rt, name) {
        Ok(file) => file,
        Err(e) => return Ok(Err(open_reason(e.kind()))),
    };
    match read_whole(heap, name, &mut ReadFrom::new(file), MEDIUM_LIMIT) {
        Ok(bytes) => Ok(Ok(Bytes::new(bytes))),
        Err(Fault::Memory) => Err(Memory),
        Err(Fault::Refused) => Ok(Err(Reason::LongMedium)),
        Err(_) => Ok(Err(read_reason(rt, name))),
    }
}

/// The text of a file, or why it has none that a page may have.
#[tactic(auto, unfolding(doc_store::specs::Store::text_limit))]
pub fn read_text<R: AllocGlobal + Files>(
    rt: &R,
    heap: Heap,
    name: &str,
) -> Result<Result<Text, Reason>, Memory>
    ensures text { IfOk result (λ read. IfOk read (λ text. length text ≤ text_limit)) }
    ensures reason { IfOk result (λ read. IfErr read (λ reason. is_of_path reason ≡ false)) }
{
    let file = match File::open(rt, name) {
        Ok(file) => file,
        Err(e) => return Ok(Err(open_reason(e.kind()))),
    };
    match read_whole(heap, name, &mut ReadFrom::new(file), TEXT_LIMIT) {
        Ok(bytes) => Ok(text_of(bytes)),
        Err(Fault::Memory) => Err(Memory),
        Err(Fault::Refused) => Ok(Err(Reason::LongPage)),
        Err(_) => Ok(Err(read_reason(rt, name))),
    }
}

/// Why a file that is open isn't read.
pub fn read_reason<R: Files>(rt: &R, name: &str) -> Reason
    ensures { is_of_path result ≡ false }
{
    match metadata(rt, name) {
        Ok(found) if found.is_dir() => Reason::IsFolder,
        _ => Reason::Unread,
    }
}

/// The bytes as a text.
fn text_of(bytes: Vec<u8>) -> Result<Text, Reason>
    ensures text { IfOk result (λ text. text ≡ bytes.items) }
    ensures reason { IfErr result (λ reason. is_of_path reason ≡ false) }
{
    match String::from_utf8(bytes) {
        Ok(text) => Ok(Text::new(text)),
        Err(_) => Err(Reason::NoText),
    }
}
