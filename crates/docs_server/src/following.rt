//! Another server's journal, followed as it grows, over a configuration that is read anew where that is asked for or needed: some at a time
//! beside what is followed, and at once where the journal itself is another one.

ghost use Rattle.std.specs.Prelude.{◌≡◌, ◌≤◌, IfOk, None};
ghost use Rattle.docs_server.specs.Following.{HasGiven, IsConfiguredBehind};

use crate::catching_up::{CatchingUp, CaughtUp};
use crate::followed_journal::{FollowedJournal, refused_behind, take_journal, unread};
use crate::listen_fault::ListenFault;
use crate::pause::has_passed;
use crate::reload_fault::ReloadFault;
use crate::reloading::{REFUSED, Reloading};
use crate::reloading_in_steps::ReloadingInSteps;
use crate::shared::Shared;
use doc_media::media::Media;
use doc_page_parts::heap::Heap;
use doc_server_follow::growing_fault::GrowingFault;
use doc_server_follow::looked::Looked;
use doc_server_journal::fault::OpenFault;
use doc_server_restore::fault::RestoreFault;
use doc_server_serving::given::{Configuration, Given};
use doc_server_serving::net::beside::restored_beside;
use doc_server_serving::net::follow_fault::FollowFault;
use doc_server_serving::net::reload_fault::Refusal;
use doc_server_serving::net::reloaded::Reloaded;
use doc_server_serving::source::Source;
use std::fmt::Display;
use std::fs::File;
use std::rt::{Clock, Files};
use std::time::{Duration, Instant};

/// What stands in front of what is told of another server's journal.
const FOLLOWING: &str = "following";

/// For how many seconds a journal may look damaged before the server ends.
const PATIENCE: u64 = 10;

/// How long it is at least from one try to start over to the next, in milliseconds.
const PAUSE: u64 = 1_000;

/// The same where another file has the journal's name, and isn't whole yet.
const SHORT_PAUSE: u64 = 200;

/// Another server's journal, whose records are served on the pages of a configuration.
pub struct Following<'a, P: Files> {
    rt: &'a P,
    heap: Heap,
    /// The name of the journal's file.
    name: &'a str,
    steps: ReloadingInSteps<'a, P>,
    /// What was read anew, while the journal's records are made on it.
    catching_up: Option<CatchingUp>,
    /// Whether a reload that was asked for begins anew, once what stands under the journal's name is served.
    is_waiting: bool,
    shared: &'a Shared,
    journal: FollowedJournal,
    /// How many of its records were served before those that were given last.
    before: usize,
    /// The journal that was read anew, until it is told what came of that.
    given: Option<FollowedJournal>,
    /// Whether it was a reload that gave it.
    is_reload: bool,
    /// How often something was given.
    count: u64,
    trouble: Option<Trouble>,
    anew: Option<Anew>,
}

/// Written out, so that it is proved here once: what a derived drop does is proved wherever a value is let go.
impl<P: Files + Drop> Drop for Following<'_, P> {
    fn drop(self) {
        let Following {
            rt: _,
            heap: _,
            name: _,
            steps: _,
            catching_up: _,
            is_waiting: _,
            shared: _,
            journal: _,
            before: _,
            given: _,
            is_reload: _,
            count: _,
            trouble: _,
            anew: _,
        } = self;
    }
}

/// A record looks damaged, or the journal isn't read.
#[derive(Clone, Copy, Drop)]
struct Trouble {
    /// Since when.
    since: Option<Instant>,
    /// Why it isn't read; none where it looks damaged.
    fault: Option<GrowingFault>,
}

/// What was followed no longer stands under the journal's name: what stands there is to be read anew.
#[derive(Clone, Copy, Drop)]
struct Anew {
    /// Whether another file stands there.
    is_other: bool,
    /// When it was tried last, and how long it is at least to the next try, in milliseconds.
    tried: Option<Instant>,
    pause: u64,
    /// Whether it was told why it fails.
    is_told: bool,
}

impl<'a, P: AllocGlobal + Clock + Clone + Drop + Eprint + Files<File = File> + Input> Following<
    'a,
    P,
> {
    /// The journal of this name, whose records are served on the pages of a configuration as far as it was taken.
    pub fn new(
        rt: &'a P,
        name: &'a str,
        config: Reloading<'a, P>,
        journal: FollowedJournal,
        shared: &'a Shared,
    ) -> Following<'a, P>
        ensures { result.count ≡ 0 }
    {
        Following {
            rt,
            heap: rt.alloc(),
            name,
            steps: ReloadingInSteps::new(config),
            catching_up: None,
            is_waiting: false,
            shared,
            journal,
            before: 0,
            given: None,
            is_reload: false,
            count: 0,
            trouble: None,
            anew: None,
        }
    }

    /// Tells why nothing is followed any more, and answers with which fault of a server's journal that ends it.
    pub fn ended(&self, fault: FollowFault) -> ListenFault {
        match fault {
            FollowFault::Keeps => ListenFault::Follow(fault),
            FollowFault::Record(fault) => self.refused(fault),
            FollowFault::Damaged => self.damaged(),
        }
    }

    /// The same where a record isn't made, by its number in the journal.
    fn refused(&self, fault: RestoreFault) -> ListenFault {
        let fault = refused_behind(fault, self.before);
        if let RestoreFault::BadRecord(number) | RestoreFault::Refused(number, _) = fault {
            let _ = eprintln!(self.rt; "{FOLLOWING}: record {number} refused");
        }
        ListenFault::Restore(fault)
    }

    /// The same where it is damaged, or isn't read.
    fn damaged(&self) -> ListenFault {
        if let Some(
            Trouble {
                fault: Some(fault),
                since: _,
            },
        ) = self.trouble
        {
            let fault = unread(self.heap, self.name, fault);
            let _ = eprintln!(self.rt; "{FOLLOWING}: {fault}");
            return fault;
        }
        let number = self.journal.followed.records().saturating_add(1);
        let _ = eprintln!(self.rt; "{FOLLOWING}: record {number} is damaged");
        ListenFault::Journal(OpenFault::Damaged(number))
    }

    /// What is new in the journal, or where another one was found to stand there, what that gives.
    fn follow(&mut self, media: &Option<Media>) -> Result<Option<Given>, FollowFault>
        ensures answers { IfOk result (HasGiven self.new.count) }
        ensures count { self.old.count ≤ self.new.count }
    {
        self.before = self.journal.followed.records();
        match self.journal.look(self.heap) {
            Ok(Looked::More(texts)) => {
                self.trouble = None;
                Ok(Some(self.give(Given::Records(texts))))
            }
            Ok(Looked::Rests) => {
                self.trouble = None;
                Ok(self.start_over_if_replaced(media))
            }
            Ok(Looked::WentBack) => {
                let name = self.name;
                let _ = eprintln!(self.rt; "{FOLLOWING}: {name} went back");
                Ok(self.begin_anew(false, media))
            }
            Ok(Looked::Damaged) => self.wait_out(None, media),
            Err(fault) => self.wait_out(Some(fault), media),
        }
    }

    /// Waits for a while where a record looks damaged, or the journal isn't read: as long as that its server may be writing it.
    fn wait_out(
        &mut self,
        fault: Option<GrowingFault>,
        media: &Option<Media>,
    ) -> Result<Option<Given>, FollowFault>
        ensures answers { IfOk result (HasGiven self.new.count) }
        ensures count { self.old.count ≤ self.new.count }
    {
        if self.journal.file.is_replaced(self.rt, self.name) {
            return Ok(self.begin_anew(true, media));
        }
        let now = Instant::now(self.rt).ok();
        let since = match self.trouble {
            Some(
                Trouble {
                    since: Some(since),
                    fault: _,
                },
            ) => Some(since),
            _ => now,
        };
        self.trouble = Some(Trouble { since, fault });
        if has_passed(since, now, Duration::from_secs(PATIENCE)) {
            return Err(FollowFault::Damaged);
        }
        Ok(None)
    }

    /// Where another file has the journal's name, what stands in that.
    fn start_over_if_replaced(&mut self, media: &Option<Media>) -> Option<Given>
        ensures answers { HasGiven self.new.count result }
        ensures count { self.old.count ≤ self.new.count }
    {
        if !self.journal.file.is_replaced(self.rt, self.name) {
            return None;
        }
        self.begin_anew(true, media)
    }

    /// Begins to try to start over.
    fn begin_anew(&mut self, is_other: bool, media: &Option<Media>) -> Option<Given>
        ensures answers { HasGiven self.new.count result }
        ensures count { self.old.count ≤ self.new.count }
    {
        self.give_up();
        self.anew = Some(Anew {
            is_other,
            tried: None,
            pause: 0,
            is_told: false,
        });
        self.start_over(media)
    }

    /// What is read anew is given up: of a journal that doesn't stand any more nothing is made. A reload that was asked for begins again
    /// once the next one is served.
    fn give_up(&mut self)
        ensures count { self.new.count ≡ self.old.count }
    {
        let is_reading = self.steps.is_reading() || self.catching_up.is_some();
        if is_reading && self.steps.config.was_asked() {
            self.is_waiting = true;
        }
        self.catching_up = None;
        self.steps.give_up();
    }

    /// What stands under the journal's name, on the pages of the configuration, both as they are now; nothing where that is refused, or it
    /// is too soon for another try.
    fn start_over(&mut self, media: &Option<Media>) -> Option<Given>
        ensures answers { HasGiven self.new.count result }
        ensures count { self.old.count ≤ self.new.count }
    {
        let anew = self.anew?;
        let now = Instant::now(self.rt).ok();
        if anew.tried.is_some() && !has_passed(anew.tried, now, Duration::from_millis(anew.pause)) {
            return None;
        }
        let word = if anew.is_told { None } else { Some(FOLLOWING) };
        self.steps.config.begin_reload(false);
        match self.read_anew(media, word) {
            Ok(configuration) => {
                self.is_reload = false;
                Some(self.give(Given::Configuration(configuration)))
            }
            Err(fault) => {
                let is_whole = !matches!(fault, ReloadFault::Config(ListenFault::Journal(_)));
                self.fail(&fault, anew.is_other && !is_whole);
                None
            }
        }
    }

    /// The same; at once, and told, where a line on standard input has asked for it.
    fn hear_anew(&mut self, media: &Option<Media>, is_asked: bool) -> Option<Given>
        ensures answers { HasGiven self.new.count result }
        ensures count { self.old.count ≤ self.new.count }
    {
        if is_asked {
            return self.reload(media);
        }
        self.start_over(media)
    }

    /// The same, as a line on standard input has asked for.
    fn reload(&mut self, media: &Option<Media>) -> Option<Given>
        ensures answers { HasGiven self.new.count result }
        ensures count { self.old.count ≤ self.new.count }
    {
        self.is_waiting = false;
        self.steps.config.begin_reload(false);
        match self.read_anew(media, Some(REFUSED)) {
            Ok(configuration) => {
                self.is_reload = true;
                Some(self.give(Given::Configuration(configuration)))
            }
            Err(fault) => {
                self.steps.config.refuse(&fault);
                None
            }
        }
    }

    /// It wasn't started over: that is told once, and tried again.
    fn fail<F: Display>(&mut self, fault: &F, is_soon: bool)
        ensures count { self.new.count ≡ self.old.count }
        ensures given { self.new.given ≡ self.old.given }
        ensures config { self.new.steps.config ≡ self.old.steps.config }
    {
        let Some(anew) = self.anew else {
            return;
        };
        if !anew.is_told {
            let _ = eprintln!(self.rt; "{FOLLOWING}: {fault}");
        }
        self.anew = Some(Anew {
            is_other: anew.is_other,
            tried: Instant::now(self.rt).ok(),
            pause: if is_soon { SHORT_PAUSE } else { PAUSE },
            is_told: true,
        });
    }

    /// Reads the configuration anew, some at a time, where that is asked for or files have changed, and makes the journal's records on its
    /// pages: what is given, once they are made.
    fn go_on(&mut self, media: &Option<Media>, is_asked: bool) -> Option<Given>
        ensures answers { HasGiven self.new.count result }
        ensures count { self.old.count ≤ self.new.count }
    {
        match self.catching_up.take() {
            Some(catching_up) if !is_asked => self.catch_up(catching_up),
            _ => {
                self.read_on(media, is_asked);
                None
            }
        }
    }

    /// Reads on, and opens the journal once all is read.
    fn read_on(&mut self, media: &Option<Media>, is_asked: bool)
        ensures count { self.new.count ≡ self.old.count }
    {
        let Some(made) = self.steps.step(media, is_asked) else {
            return;
        };
        match CatchingUp::begin(self.rt, self.heap, self.name, made) {
            Ok(catching_up) => self.catching_up = Some(catching_up),
            Err(fault) => self.refuse_reload(&fault),
        }
    }

    /// Makes more of the journal's records: what is given, once no more stand there.
    fn catch_up(&mut self, catching_up: CatchingUp) -> Option<Given>
        ensures answers { HasGiven self.new.count result }
        ensures count { self.old.count ≤ self.new.count }
    {
        let mut catching_up = catching_up;
        match catching_up.part(self.heap, self.name) {
            Ok(false) => {
                self.catching_up = Some(catching_up);
                None
            }
            Ok(true) => self.give_caught_up(catching_up),
            Err(fault) => {
                self.refuse_reload(&fault);
                None
            }
        }
    }

    /// A reload is refused for its journal's sake: the next look at the files reads them again.
    fn refuse_reload(&mut self, fault: &ListenFault)
        ensures count { self.new.count ≡ self.old.count }
    {
        self.steps.config.look_again();
        self.steps.config.refuse(fault);
    }

    /// What is given, since the journal's records are made on it.
    fn give_caught_up(&mut self, catching_up: CatchingUp) -> Option<Given>
        ensures answers { HasGiven self.new.count result }
        ensures count { self.old.count ≤ self.new.count }
    {
        let Some(
            CaughtUp {
                pending,
                configuration,
                journal,
            },
        ) = catching_up.end()
        else {
            return None;
        };
        self.steps.config.given = Some(pending);
        self.given = Some(journal);
        self.is_reload = true;
        Some(self.give(Given::Configuration(configuration)))
    }

    /// The configuration, read anew, with the edits of the journal that stands under its name now.
    fn read_anew(
        &mut self,
        served: &Option<Media>,
        word: Option<&str>,
    ) -> Result<Configuration, ReloadFault>
        ensures given { IfOk result
            (λ given. IsConfiguredBehind given.media given.pages) }
        ensures count { self.new.count ≡ self.old.count }
    {
        let (journal, texts) = take_journal(self.rt, self.heap, self.name)?;
        let given = self.steps.config.reload(served, word)?;
        let Configuration {
            readers,
            pages,
            media,
        } = given;
        match restored_beside(self.heap, pages, &media, texts.get()) {
            Ok(pages) => {
                self.given = Some(journal);
                Ok(Configuration {
                    readers,
                    pages,
                    media,
                })
            }
            Err(fault) => {
                self.steps.config.forget();
                Err(ReloadFault::Config(ListenFault::from(fault)))
            }
        }
    }

    /// Notes that something is given.
    fn give(&mut self, given: Given) -> Given
        ensures same { result ≡ given }
        ensures some { 1 ≤ self.new.count }
        ensures count { self.old.count ≤ self.new.count }
    {
        self.count = self.count.saturating_add(1);
        given
    }

    /// What was read anew is served from here on.
    fn serve(&mut self, reloaded: Reloaded)
        ensures count { self.new.count ≡ self.old.count }
        ensures given { self.new.given ≡ None }
        ensures config { self.new.steps.config.given ≡ None }
    {
        if let Some(journal) = self.given.take() {
            self.journal = journal;
        }
        self.anew = None;
        self.trouble = None;
        let reloaded = Reloaded {
            put: reloaded.put,
            removed: reloaded.removed,
            records: self.journal.followed.records(),
        };
        if self.is_reload {
            self.steps.config.tell_served(reloaded);
            return;
        }
        let changed = self.steps.config.serve_given();
        self.steps.config.tell_made(FOLLOWING, changed, reloaded);
    }

    /// It is refused.
    fn refuse(&mut self, refusal: Refusal)
        ensures count { self.new.count ≡ self.old.count }
        ensures given { self.new.given ≡ None }
        ensures config { self.new.steps.config.given ≡ None }
    {
        self.given = None;
        if self.is_reload {
            self.steps.config.refuse(&refusal);
            return;
        }
        self.steps.config.forget();
        self.fail(&refusal, false);
    }
}

impl<P: AllocGlobal + Clock + Clone + Drop + Eprint + Files<File = File> + Input> Source
    for Following<'_, P> {
    ghost use Rattle.std.specs.Prelude.{◌≡◌, None, true};
    ghost use Rattle.docs_server.specs.Following.{HasGiven};

    ghost follows = { λ _. true };

    ghost answered = { λ f answer. HasGiven f.count answer };

    ghost told = { λ f _. (f.given ≡ None) × (f.steps.config.given ≡ None) };

    fn follows(&self) -> bool {
        true
    }

    fn is_busy(&self) -> bool {
        let is_busy = self.is_waiting || self.catching_up.is_some() || self.steps.is_under_way();
        self.anew.is_none() && is_busy
    }

    fn hear(
        &mut self,
        media: &Option<Media>,
        has_input: bool,
    ) -> Result<Option<Given>, FollowFault> {
        let is_asked = has_input && self.steps.config.is_asked();
        if self.anew.is_some() {
            return Ok(self.hear_anew(media, is_asked));
        }
        let is_asked = is_asked || self.is_waiting;
        self.is_waiting = false;
        match self.go_on(media, is_asked) {
            Some(given) => Ok(Some(given)),
            None => self.follow(media),
        }
    }

    fn tell(&mut self, outcome: Result<Reloaded, Refusal>) {
        match outcome {
            Ok(reloaded) => self.serve(reloaded),
            Err(refusal) => self.refuse(refusal),
        }
    }

    fn note(&mut self, pages: usize, _journal_bytes: Option<usize>) {
        self.shared.tell_followed(pages, &self.journal.followed);
    }
}
