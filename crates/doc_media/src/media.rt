//! The media of a site.

ghost use Rattle.std.specs.Prelude.{◌≡◌, Some, IfOk, IfSome, OnOk, OnErr, option_map};
ghost use Rattle.std.specs.FinMap as map;
ghost use Rattle.doc_media.specs.Held.{added_to, fits, fits_in, page_of};
ghost use Rattle.doc_media.specs.Kinds.{kind_of};
ghost use Rattle.doc_media.specs.Media.{beside_of, medium_in};
ghost use Rattle.doc_page_parts.specs.Refusals.{Gives};

use crate::held::HeldMedia;
use crate::kind::MediaKind;
use crate::medium::Medium;
use doc_page_parts::bytes::Bytes;
use doc_page_parts::failure::Memory;
use doc_page_parts::heap::Heap;
use doc_page_parts::path::Path;
use doc_store_readers::groups::Groups;
use doc_store_readers::reader::Reader;
use std::collections::btree_map::Keys;
use std::fmt;
use std::fmt::Debug;
use std::marker::Model;
use thiserror::Error;

/// Why a medium was not added.
#[derive(Clone, Copy, Debug, PartialEq, Eq, Error)]
pub enum MediaError {
    /// A medium stands under the path.
    #[error("a medium has the path")]
    Taken,
    /// The medium has more than 8,388,608 bytes.
    #[error("the medium is too long")]
    TooLong,
    /// 10,000 media stand.
    #[error("there are too many media")]
    MediaFull,
    #[error("{}", Memory)]
    Memory,
}

impl From<Memory> for MediaError {
    ghost use Rattle.std.specs.Prelude.{◌≡◌};
    ghost use Rattle.doc_media.specs.declared.media.MediaError.TheVariants as refusals;

    ghost from_gives = { λ _ e. e ≡ refusals.Memory };

    fn from(_e: Memory) -> MediaError {
        MediaError::Memory
    }
}

/// How many bytes a medium may have.
const MEDIUM_LIMIT: usize = 8_388_608;

/// How many media may stand.
const MEDIA_LIMIT: usize = 10_000;

/// The media of a site by their paths, each of the kind that its path names. They keep the heap that they were made with.
/// Contracts see the map of their groups and bytes, as pages.
#[derive(Drop)]
pub struct Media {
    heap: Heap,
    held: HeldMedia,
}

impl Model for Media {
    ghost use Rattle.std.specs.Coded.{coded_ℕ, coded_list};
    ghost use Rattle.std.specs.FinMap as map;
    ghost use Rattle.doc_media.specs.Held.{AreOfTheirKinds, pages_of};
    ghost use Rattle.doc_store_readers.specs.Maps.{TextMap};
    ghost use Rattle.doc_store_readers.specs.Pages.{Page, page_code};

    ghost Value = { TextMap Page };

    ghost coded = { map.code (coded_list coded_ℕ) page_code };

    ghost view = { λ m. pages_of m.held };

    ghost invariant = { λ m. AreOfTheirKinds m.held };
}

/// No medium is shown.
impl Debug for Media {
    fn fmt<W: fmt::Write>(&self, f: &mut fmt::Formatter<W>) -> fmt::Result {
        f.write_str("Media")
    }
}

impl Media {
    /// No media.
    pub fn new(heap: Heap) -> Media
        ensures { result ≡ map.empty }
    {
        Media {
            heap,
            held: HeldMedia::new(heap),
        }
    }

    /// Adds a medium under a path that names its kind. Refused are, in this order, `Taken`, `TooLong`, `MediaFull` and
    /// `Memory`; then nothing changes. How many bytes the media may have together is for the caller to bound.
    pub fn add(
        &mut self,
        path: &Path,
        groups: &Groups,
        kind: MediaKind,
        bytes: Bytes,
    ) -> Result<(), MediaError>
        requires { kind_of path.now ≡ Some kind }
        ensures { Gives MediaError.Memory
            (added_to self.old path.now (record { groups = groups.now; text = bytes }))
            self.old self.new result }
    {
        self.fits(path, bytes.get())?;
        self.insert(path, groups, kind, bytes)?;
        Ok(())
    }

    /// Whether `add` refuses a medium, but for `Memory`.
    fn fits(&self, path: &Path, bytes: &[u8]) -> Result<(), MediaError>
        ensures { result ≡ fits_in self.now path.now bytes.now }
    {
        fits(self.held.contains(path), self.held.len(), bytes)
    }

    /// Sets the medium of a path.
    fn insert(
        &mut self,
        path: &Path,
        groups: &Groups,
        kind: MediaKind,
        bytes: Bytes,
    ) -> Result<(), Memory>
        requires { kind_of path.now ≡ Some kind }
        ensures ok { OnOk result (self.new
            ≡ map.insert self.old path.now (record { groups = groups.now; text = bytes })) }
        ensures err { OnErr result (self.new ≡ self.old) }
    {
        let medium = Medium {
            groups: groups.copy(self.heap)?,
            kind,
            bytes,
        };
        self.held.insert(path.copy(self.heap)?, medium)?;
        Ok(())
    }

    pub fn copy(&self, heap: Heap) -> Result<Media, Memory>
        ensures { IfOk result (λ copy. copy ≡ self.now) }
    {
        Ok(Media {
            heap,
            held: self.held.copy(heap)?,
        })
    }

    /// The paths of the media, in their order.
    pub fn paths(&self) -> Keys<'_, Path, Medium>
        ensures { result ≡ map.keys self.now }
    {
        self.held.paths()
    }

    /// Whether a medium stands under a path, seen or not.
    pub fn contains(&self, path: &Path) -> bool
        ensures { result ≡ map.contains_key self.now path.now }
    {
        self.held.contains(path)
    }

    /// The medium that stands under a path, seen or not.
    pub fn get(&self, path: &Path) -> Option<&Medium>
        ensures medium { option_map (λ medium. page_of medium.now) result
            ≡ map.get self.now path.now }
        ensures kind { IfSome result (λ medium. kind_of path.now ≡ Some medium.now.kind) }
    {
        self.held.get(path)
    }

    /// The medium that stands under a path, where the reader may see it.
    pub fn seen(&self, reader: &Reader, path: &Path) -> Option<&Medium>
        ensures medium { option_map (λ medium. page_of medium.now) result
            ≡ medium_in (beside_of (Some self.now) (Some reader.now)) path.now }
        ensures kind { IfSome result (λ medium. kind_of path.now ≡ Some medium.now.kind) }
    {
        let medium = self.get(path)?;
        if !medium.is_seen_by(reader) {
            return None;
        }
        Some(medium)
    }
}

/// Whether a medium is refused, where one stands under its path or not, and so many stand.
#[tactic(auto, unfolding(crate::specs::Held::medium_limit, crate::specs::Held::media_limit))]
fn fits(stands: bool, count: usize, bytes: &[u8]) -> Result<(), MediaError>
    ensures { result ≡ fits stands count bytes.now }
{
    if stands {
        return Err(MediaError::Taken);
    }
    if bytes.len() > MEDIUM_LIMIT {
        return Err(MediaError::TooLong);
    }
    if count >= MEDIA_LIMIT {
        return Err(MediaError::MediaFull);
    }
    Ok(())
}
