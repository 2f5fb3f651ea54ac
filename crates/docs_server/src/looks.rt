//! Looks at the files of a configuration from time to time.

use crate::pause::Pause;
use doc_page_parts::heap::Heap;
use doc_server_files::looking::{Look, Looking};
use doc_server_files::seen_files::SeenFiles;
use std::rt::{Clock, Files};
use std::time::Duration;

/// Looks at the files of a configuration from time to time: whether they are still as they were before they were read last.
pub struct Looks<R: Files> {
    /// The pause between two of them; none where nobody looks.
    pause: Option<Pause>,
    /// The files as they were. Where that isn't known a look finds them changed.
    seen: Option<SeenFiles>,
    /// The look at the folders that is under way.
    looking: Option<Looking<R>>,
}

/// Written out, so that it is proved here once: what a derived drop does is proved wherever a value is let go.
impl<R: Files + Drop> Drop for Looks<R> {
    fn drop(self) {
        let Looks {
            pause: _,
            seen: _,
            looking: _,
        } = self;
    }
}

impl<R: AllocGlobal + Clock + Clone + Drop + Files> Looks<R> {
    /// Looks after so many seconds each, where there are any. How the files are isn't known yet.
    pub fn new(rt: &R, seconds: Option<u32>) -> Looks<R> {
        let pause = match seconds {
            Some(seconds) => Some(Pause::begin(rt, Duration::from_secs(seconds as u64))),
            None => None,
        };
        Looks {
            pause,
            seen: None,
            looking: None,
        }
    }

    /// Whether it is time for one, or for more of it.
    pub fn is_due(&self, rt: &R) -> bool {
        match &self.pause {
            Some(pause) => self.looking.is_some() || pause.is_over(rt),
            None => false,
        }
    }

    /// The files are read: they were so before that, where this is known.
    pub fn note(&mut self, rt: &R, seen: Option<SeenFiles>) {
        self.seen = seen;
        self.rest(rt);
    }

    /// Begins a look, or goes on with one. True: one of the files isn't as it was, or that can't be told.
    pub fn look(&mut self, rt: &R, heap: Heap) -> bool {
        let Some(seen) = &self.seen else {
            return true;
        };
        let look = match &mut self.looking {
            Some(looking) => looking.part(rt, heap, seen.folders()),
            None => seen.look(rt, heap),
        };
        match look {
            Ok(Look::Goes) => {
                self.go_on();
                false
            }
            Ok(Look::Same) => {
                self.rest(rt);
                false
            }
            Ok(Look::Changed) | Err(_) => true,
        }
    }

    /// The folders are looked at next, or further on.
    fn go_on(&mut self) {
        if self.looking.is_none() {
            self.looking = Some(Looking::new());
        }
    }

    /// Nothing is under way, and the pause begins.
    pub fn rest(&mut self, rt: &R) {
        self.looking = None;
        if let Some(pause) = self.pause {
            self.pause = Some(pause.again(rt));
        }
    }
}
