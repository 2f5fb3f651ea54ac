//! A configuration that is read anew, while the records of a journal are made on its pages, a part at a time.

ghost use Rattle.std.specs.Prelude.{IfSome};
ghost use Rattle.docs_server.specs.Following.{IsConfiguredBehind};

use crate::followed_journal::{FollowedJournal, begin_journal, refused_behind, unread};
use crate::gathered::{Made, Pending};
use crate::listen_fault::ListenFault;
use doc_media::media::Media;
use doc_page_parts::heap::Heap;
use doc_server_follow::looked::Looked;
use doc_server_journal::fault::OpenFault;
use doc_server_serving::given::Configuration;
use doc_server_serving::net::beside::restored_beside;
use doc_store::readers::Readers;
use doc_store::store::Store;
use std::fs::File;
use std::marker::Model;
use std::rt::Files;

/// How often more a journal is looked at that looks damaged: its server may be writing it.
const MORE_TRIES: u32 = 2;

/// A configuration that is read anew, while the records of the journal are made on its pages.
pub struct CatchingUp {
    pending: Pending,
    readers: Readers,
    media: Option<Media>,
    /// Its pages, behind the records that were taken; none where one of these was refused.
    pages: Option<Store>,
    journal: FollowedJournal,
    /// How often the journal may still look damaged.
    tries: u32,
}

/// Written out, so that it is proved here once: what a derived drop does is proved wherever a value is let go.
impl Drop for CatchingUp {
    fn drop(self) {
        let CatchingUp {
            pending: _,
            readers: _,
            media: _,
            pages: _,
            journal: _,
            tries: _,
        } = self;
    }
}

/// What is served, once the records of the journal are made.
#[derive(Drop)]
pub struct CaughtUp {
    pub pending: Pending,
    pub configuration: Configuration,
    pub journal: FollowedJournal,
}

impl Model for CatchingUp {
    ghost use Rattle.std.specs.Prelude.{⊤};
    ghost use Rattle.docs_server.specs.Following.{AreConfiguredTo};

    ghost Value = { ⊤ };

    ghost view = { λ _. tt };

    ghost invariant = { λ c. AreConfiguredTo c.journal.followed c.media c.pages };
}

impl CatchingUp {
    /// No record of the journal of this name is made yet.
    pub fn begin<R: Files<File = File>>(
        rt: &R,
        heap: Heap,
        name: &str,
        made: Made,
    ) -> Result<CatchingUp, ListenFault> {
        let (journal, texts) = begin_journal(rt, heap, name)?;
        let (pending, configuration) = made.end();
        let Configuration {
            readers,
            pages,
            media,
        } = configuration;
        let pages = restored_beside(heap, pages, &media, texts.get())?;
        Ok(CatchingUp {
            pending,
            readers,
            media,
            pages: Some(pages),
            journal,
            tries: MORE_TRIES,
        })
    }

    /// Makes more records of the journal, which has this name: those of about 64 KiB. True: no more stand there.
    pub fn part(&mut self, heap: Heap, name: &str) -> Result<bool, ListenFault> {
        let mut followed = self.journal.followed;
        match followed.look(heap, &mut self.journal.file) {
            Ok(Looked::More(texts)) => {
                let Some(pages) = self.pages.take() else {
                    return Ok(true);
                };
                match restored_beside(heap, pages, &self.media, texts.get()) {
                    Ok(pages) => self.pages = Some(pages),
                    Err(fault) => {
                        let before = self.journal.followed.records();
                        return Err(ListenFault::from(refused_behind(fault, before)));
                    }
                }
                self.journal.followed = followed;
                Ok(false)
            }
            Ok(Looked::Rests) => Ok(true),
            Ok(Looked::WentBack | Looked::Damaged) => self.try_again(),
            Err(fault) => Err(unread(heap, name, fault)),
        }
    }

    /// The journal looks damaged: it is looked at again, unless that was done so often.
    fn try_again(&mut self) -> Result<bool, ListenFault> {
        let Some(tries) = self.tries.checked_sub(1) else {
            let number = self.journal.followed.records().saturating_add(1);
            return Err(ListenFault::Journal(OpenFault::Damaged(number)));
        };
        self.tries = tries;
        Ok(false)
    }

    /// What is served; nothing where a record was refused.
    pub fn end(self) -> Option<CaughtUp>
        ensures { IfSome result
            (λ given. IsConfiguredBehind given.configuration.media given.configuration.pages) }
    {
        let CatchingUp {
            pending,
            readers,
            media,
            pages,
            journal,
            tries: _,
        } = self;
        let Some(pages) = pages else {
            return None;
        };
        let configuration = Configuration {
            readers,
            pages,
            media,
        };
        Some(CaughtUp {
            pending,
            configuration,
            journal,
        })
    }
}
