//! A configuration that is read anew some at a time, so that nobody waits for all of it.

ghost use Rattle.std.specs.Prelude.{◌≡◌, ◌≤◌, Some};
ghost use Rattle.docs_server.specs.Reloading.{HasAnswered};

use crate::gathered::{Gathered, Made};
use crate::reading::Reading;
use crate::reloading::Reloading;
use doc_media::media::Media;
use doc_server_serving::given::Given;
use doc_server_serving::net::follow_fault::FollowFault;
use doc_server_serving::net::reload_fault::Refusal;
use doc_server_serving::net::reloaded::Reloaded;
use doc_server_serving::source::Source;
use std::fmt::Display;
use std::rt::{Clock, Files};

/// A configuration that is served, and how far it is read anew, where it is.
pub struct ReloadingInSteps<'a, P: Files> {
    pub config: Reloading<'a, P>,
    stage: Option<Stage<P>>,
}

/// Written out, so that it is proved here once: what a derived drop does is proved wherever a value is let go.
impl<P: Files + Drop> Drop for ReloadingInSteps<'_, P> {
    fn drop(self) {
        let ReloadingInSteps {
            config: _,
            stage: _,
        } = self;
    }
}

/// How far a configuration is read anew.
#[derive(Drop)]
enum Stage<P: Files> {
    /// Its files are read.
    Reading(Reading<P>),
    /// They are, and its pages aren't in a store yet.
    Gathered(Gathered),
    /// They are, and it is given next.
    Made(Made),
}

impl<'a, P: Files> ReloadingInSteps<'a, P> {
    /// A configuration that isn't read anew.
    pub fn new(config: Reloading<'a, P>) -> ReloadingInSteps<'a, P> {
        ReloadingInSteps {
            config,
            stage: None,
        }
    }
}

impl<P: AllocGlobal + Clock + Clone + Drop + Eprint + Files + Input> Source
    for ReloadingInSteps<'_, P> {
    ghost use Rattle.std.specs.Prelude.{None, false};

    ghost follows = { λ _. false };

    ghost answered = { λ r answer. HasAnswered r.config.count answer };

    ghost told = { λ r _. r.config.given ≡ None };

    fn follows(&self) -> bool {
        false
    }

    fn is_busy(&self) -> bool {
        self.is_under_way()
    }

    fn hear(
        &mut self,
        media: &Option<Media>,
        has_input: bool,
    ) -> Result<Option<Given>, FollowFault> {
        let is_asked = has_input && self.config.is_asked();
        match self.step(media, is_asked) {
            Some(made) => Ok(Some(self.give(made))),
            None => Ok(None),
        }
    }

    fn tell(&mut self, outcome: Result<Reloaded, Refusal>) {
        match outcome {
            Ok(reloaded) => self.config.tell_served(reloaded),
            Err(refusal) => self.config.refuse(&refusal),
        }
    }

    fn note(&mut self, pages: usize, journal_bytes: Option<usize>) {
        self.config.note(pages, journal_bytes);
    }
}

impl<P: AllocGlobal + Clock + Clone + Drop + Eprint + Files + Input> ReloadingInSteps<'_, P> {
    /// Whether it is read anew, or it is time to look whether files have changed.
    pub fn is_under_way(&self) -> bool {
        self.is_reading() || self.config.is_looking()
    }

    /// Whether it is read anew.
    pub fn is_reading(&self) -> bool {
        self.stage.is_some()
    }

    /// Begins, where that is asked for or files have changed, and goes on: what was made, once it is.
    pub fn step(&mut self, media: &Option<Media>, is_asked: bool) -> Option<Made>
        ensures count { self.new.config.count ≡ self.old.config.count }
    {
        if is_asked {
            self.begin(false);
        } else if !self.is_reading() && self.config.is_looking() && self.config.has_changed() {
            self.begin(true);
        }
        self.go_on(media)
    }

    /// It isn't read anew any more.
    pub fn give_up(&mut self)
        ensures config { self.new.config ≡ self.old.config }
    {
        self.stand_at(None);
    }

    /// Begins to read the configuration anew. Where it is refused that is told. It is quiet where nobody has asked for it.
    fn begin(&mut self, is_quiet: bool)
        ensures count { self.new.config.count ≡ self.old.config.count }
    {
        self.config.begin_reload(is_quiet);
        match self.config.begin() {
            Ok(reading) => self.stand_at(Some(Stage::Reading(reading))),
            Err(fault) => self.refuse(&fault),
        }
    }

    /// It stands at this stage, or isn't read anew.
    fn stand_at(&mut self, stage: Option<Stage<P>>)
        ensures config { self.new.config ≡ self.old.config }
    {
        self.stage = stage;
    }

    /// It isn't read anew any more: that is told.
    fn refuse<F: Display>(&mut self, fault: &F)
        ensures count { self.new.config.count ≡ self.old.config.count }
    {
        self.stand_at(None);
        self.config.refuse(fault);
    }

    /// Goes on from a stage: what was made, once it is. Where anything is refused that is told.
    fn go_on(&mut self, media: &Option<Media>) -> Option<Made>
        ensures count { self.new.config.count ≡ self.old.config.count }
    {
        match self.stage.take() {
            None => None,
            Some(Stage::Reading(reading)) => {
                self.read_on(reading, media);
                None
            }
            Some(Stage::Gathered(gathered)) => {
                self.make(gathered);
                None
            }
            Some(Stage::Made(made)) => Some(made),
        }
    }

    /// Reads on, and gathers what was read once it is all.
    fn read_on(&mut self, reading: Reading<P>, media: &Option<Media>)
        ensures count { self.new.config.count ≡ self.old.config.count }
    {
        let mut reading = reading;
        match reading.part(self.config.rt, self.config.heap) {
            Ok(false) => self.stand_at(Some(Stage::Reading(reading))),
            Ok(true) => self.gather(reading, media),
            Err(fault) => {
                self.stand_at(Some(Stage::Reading(reading)));
                self.refuse(&fault);
            }
        }
    }

    /// Gathers what was read.
    fn gather(&mut self, reading: Reading<P>, media: &Option<Media>)
        ensures count { self.new.config.count ≡ self.old.config.count }
    {
        match self.config.end(media, reading) {
            Ok(gathered) => self.stand_at(Some(Stage::Gathered(gathered))),
            Err(fault) => self.refuse(&fault),
        }
    }

    /// Puts the pages that were gathered into a store.
    fn make(&mut self, gathered: Gathered)
        ensures count { self.new.config.count ≡ self.old.config.count }
    {
        match gathered.make(self.config.heap) {
            Ok(made) => self.stand_at(Some(Stage::Made(made))),
            Err(fault) => self.refuse(&fault),
        }
    }

    /// What is given.
    fn give(&mut self, made: Made) -> Given
        ensures answers { HasAnswered self.new.config.count (Some result) }
        ensures count { self.old.config.count ≤ self.new.config.count }
    {
        let configuration = self.config.give(made);
        self.config.count = self.config.count.saturating_add(1);
        Given::Configuration(configuration)
    }
}
