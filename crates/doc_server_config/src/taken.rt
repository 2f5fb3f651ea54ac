//! The files of folders that were taken so far.

ghost use Rattle.std.specs.Prelude.{◌≡◌, false, IfErr, IfOk};
ghost use Rattle.doc_server_config.specs.Reasons.{is_of_path};

use crate::bad_file::shown_name;
use crate::overlap::path_count;
use crate::page_row::PageRow;
use crate::reason::Reason;
use doc_page_parts::failure::Memory;
use doc_page_parts::heap::{BTreeMap, Heap};
use doc_page_parts::path::Path;
use doc_page_parts::text::Text;

/// How many pages a site may have.
const PAGES: usize = 10_000;

/// How many media a site may have.
const MEDIA: usize = 10_000;

/// What was taken so far of a site's folders.
#[derive(Drop)]
pub struct Taken {
    heap: Heap,
    /// How many more pages the site takes.
    pages: usize,
    /// How many more media.
    media: usize,
    /// How many bytes all media may have together, and how many more those may have that come.
    bytes: usize,
    bytes_left: usize,
    /// The paths of the folder that is read, with the names of their files as they are told. Only where names are normalised can two
    /// files have one, so only then are they kept.
    names: BTreeMap<Path, Text>,
}

impl Taken {
    /// Nothing yet, beside the pages of a configuration's rows. Rows with one path give one page. The media may have
    /// so many bytes together.
    pub fn beside(heap: Heap, rows: &[PageRow], bytes: usize) -> Result<Taken, Memory> {
        let count = path_count(heap, rows)?;
        Ok(Taken {
            heap,
            pages: PAGES.saturating_sub(count),
            media: MEDIA,
            bytes,
            bytes_left: bytes,
            names: BTreeMap::new(heap),
        })
    }

    /// Forgets the folder before.
    pub(crate) fn begin_folder(&mut self) {
        self.names = BTreeMap::new(self.heap);
    }

    /// Takes a page from the file of this name, or tells why not.
    pub(crate) fn take_page(
        &mut self,
        is_nfc: bool,
        path: &Path,
        name: &str,
    ) -> Result<Result<(), Reason>, Memory>
        ensures { IfOk result (λ taken. IfErr taken (λ reason. is_of_path reason ≡ false)) }
    {
        if let Some(first) = self.names.get(path) {
            return Ok(Err(Reason::PathOf(first.copy(self.heap)?)));
        }
        let Some(pages) = self.pages.checked_sub(1) else {
            return Ok(Err(Reason::ManyPages));
        };
        if is_nfc {
            self.keep_name(path, name)?;
        }
        self.pages = pages;
        Ok(Ok(()))
    }

    /// Takes a medium of so many bytes from the file of this name, or tells why not.
    pub(crate) fn take_medium(
        &mut self,
        is_nfc: bool,
        path: &Path,
        name: &str,
        bytes: usize,
    ) -> Result<Result<(), Reason>, Memory>
        ensures { IfOk result (λ taken. IfErr taken (λ reason. is_of_path reason ≡ false)) }
    {
        if let Some(first) = self.names.get(path) {
            return Ok(Err(Reason::PathOf(first.copy(self.heap)?)));
        }
        let Some(media) = self.media.checked_sub(1) else {
            return Ok(Err(Reason::ManyMedia));
        };
        let Some(bytes_left) = self.bytes_left.checked_sub(bytes) else {
            return Ok(Err(Reason::MuchMedia(self.bytes)));
        };
        if is_nfc {
            self.keep_name(path, name)?;
        }
        self.media = media;
        self.bytes_left = bytes_left;
        Ok(Ok(()))
    }

    /// Keeps the name of a file by its path.
    fn keep_name(&mut self, path: &Path, name: &str) -> Result<(), Memory> {
        let name = shown_name(self.heap, name)?;
        self.names.insert(path.copy(self.heap)?, name)?;
        Ok(())
    }
}
