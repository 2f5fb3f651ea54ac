//! Which refusals of a reload are told.

use doc_page_parts::heap::Heap;
use doc_page_parts::text::Text;
use std::fmt::Display;

/// Which refusals of a reload are told: all of those that somebody asked for, and each of the others once.
#[derive(Drop)]
pub struct Refusals {
    /// Whether nobody has asked for the reload: files have changed.
    is_quiet: bool,
    /// What was told last, since something was served.
    told: Option<Text>,
    /// The text of the configuration whose faults were told last, since something was served.
    bad: Option<Text>,
}

impl Refusals {
    /// None was told yet.
    pub fn none() -> Refusals {
        Refusals {
            is_quiet: false,
            told: None,
            bad: None,
        }
    }

    /// Whether somebody has asked for the reload.
    pub fn is_asked(&self) -> bool {
        !self.is_quiet
    }

    /// A reload begins.
    pub fn begin(&mut self, is_quiet: bool) {
        self.is_quiet = is_quiet;
    }

    /// Something is served.
    pub fn forget(&mut self) {
        self.told = None;
        self.bad = None;
    }

    /// Whether the faults of a configuration of this text are told.
    pub fn tells_faults(&mut self, heap: Heap, text: &str) -> bool {
        if self.is_quiet && is_text(&self.bad, text) {
            return false;
        }
        self.bad = Text::copy_of(heap, text).ok();
        self.told = None;
        true
    }

    /// Whether it is told that the reload is refused for this.
    pub fn tells<F: Display>(&mut self, heap: Heap, fault: &F) -> bool {
        let Ok(text) = format!(in heap; "{fault}") else {
            return true;
        };
        if self.is_quiet && is_text(&self.told, text.as_str()) {
            return false;
        }
        self.told = Some(Text::new(text));
        true
    }
}

/// Whether this is the text, where there is one.
fn is_text(found: &Option<Text>, text: &str) -> bool {
    match found {
        Some(found) => found.get() == text,
        None => false,
    }
}
