//! The loop over a network.

ghost use Rattle.std.specs.Prelude.{◌≡◌, ◌≤◌, ◌||◌, ℕ, false, true, IfErr, IfOk, OnOk, if◌then◌else◌};
ghost use Rattle.std.specs.FinMap as map;
ghost use Rattle.std.specs.List.{list_any};
ghost use Rattle.doc_hub.specs.Worlds.{World};
ghost use Rattle.doc_server_network.specs.Crashes.{CrashesLeave, Restores, RestoresEither};
ghost use Rattle.doc_server_network.specs.Networks.{Recalls, WasAsked, WasWaitedFor, end_of_input, input_came};
ghost use Rattle.doc_server_network.specs.Saved.{IsAllSaved, IsReady, IsSaved, IsSettled, IsUnedited, StaysSaved};
ghost use Rattle.doc_server_serving.specs.Crashing.{AreKnown, RestoresFront, RestoresFrontBy};
ghost use Rattle.doc_server_serving.specs.Doors.{is_open};
ghost use Rattle.doc_server_serving.specs.Forces.{AreAllOfCalls, IsInForce, IsSettledInForce, IsTaken};
ghost use Rattle.doc_server_turns.specs.Hearing.{HeardAt, IsMinded, WaitOn};
ghost use Rattle.doc_server_serving.specs.Invariants.{AreFree, GoesOn, GoesOnWith, HasServedNobody, IsServed};
ghost use Rattle.doc_server_serving.specs.Leading.{LeadsWith, StayAnswered};
ghost use Rattle.doc_server_turns.specs.QuietRuns.{LeadsQuietly};
ghost use Rattle.doc_server_turns.specs.Parts.{AreMinded, NoMore, takes_part_at, times_among, turn_of};
ghost use Rattle.doc_server_listen.specs.Sites.{IsSameSite};
ghost use Rattle.doc_server_turns.specs.Scopes.{only_reads};
ghost use Rattle.doc_server_turns.specs.Wirings.{AreWoken, IsFedAt, SweptAll};
ghost use Rattle.doc_server_serving.specs.declared.fault.ServeFault.TheVariants as faults;
ghost use Rattle.doc_store.specs.Store.{StoreState};

mod reloading;

use crate::door::Door;
use crate::fault::ServeFault;
use crate::named_file::NamedFile;
use crate::next_turn::NextTurn;
use crate::room::{growth, keep_room};
use crate::source::Source;
use doc_page::renderer::Renderer;
use doc_page_parts::heap::{Heap, Vec};
use doc_server_journal::clock::seconds_of;
use doc_server_journal::device::Device;
use doc_server_listen::share::Share;
use doc_server_network::network::Network;
use doc_server_network::saved_hub::SavedHub;
use doc_server_settling::reserve::{RESERVE, SPARE};
use doc_server_turns::letting_go::let_go;
use doc_server_turns::limits::Limits;
use doc_server_turns::peers::Peers;
use doc_server_turns::scope::Scope;
use doc_server_turns::telling::wake_told;
use doc_server_turns::turn::turn;
use std::alloc::AllocError;
use std::rt::Clock;
use std::time::{Duration, Instant};

/// How many bytes a read gives at most.
const PIECE: usize = 16_384;

/// How long the network is waited for at most, in milliseconds: a little longer than it is to the next sweep.
const WAIT: u64 = 260;

/// How long it is at least from one sweep to the next, in milliseconds.
const SWEEP: u64 = 250;

/// How long it is from one look for the journal and its room to the next, in seconds.
const LOOK: u64 = 10;

/// A server that accepts while it serves.
#[derive(Drop)]
pub struct Server {
    heap: Heap,
    peers: Peers,
    door: Door,
    limits: Limits,
    /// How long the network is waited for at most where another server is followed, in milliseconds.
    follow_millis: u64,
    /// The numbers of those that take part in the turn that runs.
    ready: Vec<u64>,
    /// The numbers of others, for a moment.
    numbers: Vec<u64>,
    piece: Vec<u8>,
    swept: Instant,
    /// When it was looked whether the journal can be found, and for its room.
    looked: Instant,
}

impl Server {
    /// A server without clients, which begins at this time and has so many of them at most at once. Where it follows another server it waits
    /// for the network so many milliseconds at most, and never longer than to its next sweep.
    pub fn new(
        now: Instant,
        heap: Heap,
        connections: usize,
        limits: Limits,
        follow_millis: u64,
    ) -> Result<Server, AllocError>
        ensures empty { IfOk result (λ server. server.peers ≡ map.empty) }
        ensures door { IfOk result (λ server. server.door
            ≡ record { most = connections; is_awaited = false; rests = false }) }
        ensures limits { IfOk result (λ server. server.limits ≡ limits) }
        ensures follows { IfOk result (λ server. server.follow_millis ≡ follow_millis) }
        ensures times { IfOk result (λ server. (server.swept ≡ now) × (server.looked ≡ now)) }
    {
        let mut server = Server {
            heap,
            peers: Peers::new(heap),
            door: Door::new(connections),
            limits,
            follow_millis,
            ready: Vec::new(heap),
            numbers: Vec::new(heap),
            piece: Vec::new(heap),
            swept: now,
            looked: now,
        };
        server.ready.reserve_exact(connections)?;
        server.numbers.reserve_exact(connections)?;
        server.piece.resize(PIECE, 0)?;
        Ok(server)
    }

    /// Serves until standard input ends, where the network tells of that, with the readers and the pages that the hub has, and behind each
    /// turn in which something has come there, or each where the source follows another server, with those that it gives. The journal gets
    /// its room first. Behind 2^64 - 1 turns it ends as where the network can't be waited for.
    pub fn serve<N: Network, D: Device + NamedFile, R: Renderer + Drop, C: Clock, S: Source>(
        &mut self,
        rt: &C,
        net: &mut N,
        saved: &mut SavedHub<D, R>,
        source: &mut S,
    ) -> Result<(), ServeFault>
        requires all { IsAllSaved saved.old }
        requires ready { IsReady D.seen D.may_leave D.failed D.stale saved.old }
        requires new { HasServedNobody saved.old.hub.1.given (N.came net.old) (N.gone net.old)
            (N.is_free net.old) self.old.peers }
        ensures served { (s : LeadsWith (S.answered source.new) (R.page saved.old.hub.0)
            saved.old.hub.1 saved.new.hub.1)
            × IsServed s.run (N.came net.new) (N.gone net.new) }
        ensures woken { AreWoken (N.wakes net.new) self.new.peers }
        ensures bound { map.len self.new.peers ≤ self.old.door.most }
        ensures ends { OnOk result (N.made net.new end_of_input) }
        ensures why { IfErr result (λ fault. fault ≡ faults.Socket → WasWaitedFor (N.made net.new)) }
        ensures all { OnOk result (IsAllSaved saved.new) }
        ensures ready { OnOk result (IsReady D.seen D.may_leave D.failed D.stale saved.new) }
        ensures settled { (config : StoreState)
            → IsSettled D.seen D.may_leave D.failed D.stale config saved.old
            → AreAllOfCalls (S.answered source.new)
            → OnOk result (IsSettledInForce D.seen D.may_leave D.failed D.stale
            (S.answered source.new) config saved.new) }
        ensures any_moment { (s : LeadsWith (S.answered source.new) (R.page saved.old.hub.0)
            saved.old.hub.1 saved.new.hub.1)
            × IsServed s.run (N.came net.new) (N.gone net.new)
            × ((config : StoreState) → AreKnown D.seen
            → IsSettled D.seen D.may_leave D.failed D.stale config saved.old
            → AreAllOfCalls (S.answered source.new)
            → CrashesLeave D.seen D.moment D.left_since
            (RestoresFrontBy (IsInForce (S.answered source.new) config)
            (R.page saved.old.hub.0) saved.old.hub.1 s.run)
            saved.old.journal saved.new.journal) }
    {
        keep_room(self.heap, saved, RESERVE + SPARE)?;
        let mut next = NextTurn::new();
        'turns: for _ in 0..u64::MAX {
            if self.go_on(rt, net, saved, source, &mut next)? {
                return Ok(());
            }
        }
        Err(ServeFault::Socket)
    }

    /// One turn, and behind it what the source gives, where something has come on standard input or it follows another server. True: it has
    /// ended.
    fn go_on<N: Network, D: Device + NamedFile, R: Renderer + Drop, C: Clock, S: Source>(
        &mut self,
        rt: &C,
        net: &mut N,
        saved: &mut SavedHub<D, R>,
        source: &mut S,
        next: &mut NextTurn,
    ) -> Result<bool, ServeFault>
        requires all { IsAllSaved saved.old }
        requires ready { IsReady D.seen D.may_leave D.failed D.stale saved.old }
        requires free { AreFree saved.old.hub.1.given (N.is_free net.old) }
        ensures keeps { StayAnswered (S.answered source.old) (S.answered source.new) }
        ensures follows { S.follows source.new ≡ S.follows source.old }
        ensures takes { IfOk result (λ has_ended. has_ended ≡ false
            → (next.new.hears_input || S.follows source.old) ≡ true → (before : World)
            × IsTaken D.seen D.may_leave D.failed D.stale (S.answered source.new)
            (S.told source.new) before saved.new.hub.1 saved.new.journal) }
        ensures bound { map.len self.old.peers ≤ self.old.door.most
            → map.len self.new.peers ≤ self.old.door.most }
        ensures most { self.new.door.most ≡ self.old.door.most }
        ensures waits { WasWaitedFor (N.made net.new) }
        ensures ends { IfOk result (λ has_ended. has_ended ≡ true → N.made net.new end_of_input) }
        ensures all { OnOk result (IsAllSaved saved.new) }
        ensures ready { OnOk result (IsReady D.seen D.may_leave D.failed D.stale saved.new) }
        ensures settled { (config : StoreState)
            → IsSettled D.seen D.may_leave D.failed D.stale config saved.old
            → AreAllOfCalls (S.answered source.new)
            → OnOk result (IsSettledInForce D.seen D.may_leave D.failed D.stale
            (S.answered source.new) config saved.new) }
        ensures any_moment { (s : GoesOnWith R.page N.came N.gone N.wakes N.is_free
            (S.answered source.new) saved.old.hub saved.new.hub net.old net.new
            self.old.peers self.new.peers)
            × ((config : StoreState) → AreKnown D.seen
            → IsSettled D.seen D.may_leave D.failed D.stale config saved.old
            → CrashesLeave D.seen D.moment D.left_since
            (RestoresFront config (R.page saved.old.hub.0) saved.old.hub.1 s.leads.run)
            saved.old.journal saved.new.journal) }
    {
        let follows = source.follows();
        let is_busy = source.is_busy();
        next.expect(is_busy);
        if self.turn(rt, net, saved, next, scope_of(follows))? {
            return Ok(true);
        }
        source.note(saved.pages(), saved.journal_bytes());
        let has_input = next.take_input();
        if !is_asked(has_input, follows, is_busy) {
            return Ok(false);
        }
        self.take_given(rt, net, saved, source, next, has_input)
    }

    /// One turn, which answers so much of what has come. True: standard input has ended, and nobody is accepted any more.
    pub fn turn<N: Network, D: Device + NamedFile, R: Renderer + Drop, C: Clock>(
        &mut self,
        rt: &C,
        net: &mut N,
        saved: &mut SavedHub<D, R>,
        next: &mut NextTurn,
        scope: Scope,
    ) -> Result<bool, ServeFault>
        requires all { IsAllSaved saved.old }
        requires ready { IsReady D.seen D.may_leave D.failed D.stale saved.old }
        requires free { AreFree saved.old.hub.1.given (N.is_free net.old) }
        ensures goes { GoesOn R.page N.came N.gone N.wakes N.is_free saved.old.hub saved.new.hub
            net.old net.new self.old.peers self.new.peers }
        ensures bound { map.len self.old.peers ≤ self.old.door.most
            → map.len self.new.peers ≤ self.old.door.most }
        ensures heard { OnOk result ((s : GoesOn R.page N.came N.gone N.wakes N.is_free
            saved.old.hub saved.new.hub net.old net.new self.old.peers self.new.peers)
            × ((k : ℕ) → IsMinded k s.leads.run
            (map.get self.old.peers k) (map.get self.new.peers k))) }
        ensures most { self.new.door.most ≡ self.old.door.most }
        ensures waits { WasWaitedFor (N.made net.new) }
        ensures calls { Recalls (N.made net.old) (N.made net.new) }
        ensures hears { IfOk result (λ has_ended. has_ended ≡ false
            → next.new.hears_input ≡ true → N.made net.new input_came) }
        ensures minds { IfOk result (λ has_ended. has_ended ≡ false
            → AreMinded self.new.peers next.new.goes_on) }
        ensures ends { IfOk result (λ has_ended. has_ended ≡ true → N.made net.new end_of_input) }
        ensures asked { IfOk result (λ has_ended. has_ended ≡ false
            → is_open self.new.door (map.len self.new.peers) ≡ true
            → WasAsked saved.old.hub.1.given (N.made net.new)) }
        ensures all { OnOk result (IsAllSaved saved.new) }
        ensures ready { OnOk result (IsReady D.seen D.may_leave D.failed D.stale saved.new) }
        ensures settled { (config : StoreState)
            → IsSettled D.seen D.may_leave D.failed D.stale config saved.old
            → OnOk result (IsSettled D.seen D.may_leave D.failed D.stale config saved.new) }
        ensures any_moment { (config : StoreState) → AreKnown D.seen
            → IsSettled D.seen D.may_leave D.failed D.stale config saved.old
            → CrashesLeave D.seen D.moment D.left_since
            (RestoresEither config saved.old.hub.1 saved.new.hub.1)
            saved.old.journal saved.new.journal }
        ensures unedited { only_reads scope ≡ true → IsUnedited saved.old saved.new }
    {
        net.wait(self.longest_wait(next.is_due(), scope))?;
        let now = time_of(rt, self.swept);
        look(self.heap, &mut self.looked, saved, now, scope)?;
        let news = wake_told(&mut self.peers, net);
        self.door.hear(&news);
        self.serve_ready(rt, net, saved, next, scope)?;
        let ends = news.input_has_ended;
        if ends {
            return Ok(true);
        }
        self.end_turn(net, saved, next, now, news.is_lost)?;
        next.hear(news.input_came);
        Ok(false)
    }

    /// How long the network is waited for: not at all where something is left to do.
    fn longest_wait(&self, is_due: bool, scope: Scope) -> Duration {
        if is_due || self.door.is_open(&self.peers) {
            return Duration::from_millis(0);
        }
        match scope {
            Scope::All => Duration::from_millis(WAIT),
            Scope::Earlier => Duration::from_millis(self.follow_millis.min(WAIT)),
            Scope::Reads => Duration::from_millis(0),
        }
    }

    /// The turn of those that take part, each of them once, and behind its edits the room of the journal.
    fn serve_ready<N: Network, D: Device + NamedFile, R: Renderer + Drop, C: Clock>(
        &mut self,
        rt: &C,
        net: &mut N,
        saved: &mut SavedHub<D, R>,
        next: &mut NextTurn,
        scope: Scope,
    ) -> Result<(), ServeFault>
        requires all { IsAllSaved saved.old }
        requires ready { IsReady D.seen D.may_leave D.failed D.stale saved.old }
        ensures list { OnOk result
            (self.new.ready.items ≡ turn_of next.old.first self.old.peers) }
        ensures each { OnOk result ((k : ℕ) → times_among self.new.ready.items k
            ≡ (if takes_part_at (map.get self.old.peers k) then 1 else 0)) }
        ensures goes { GoesOn R.page N.came N.gone N.wakes N.is_free saved.old.hub saved.new.hub
            net.old net.new self.old.peers self.new.peers }
        ensures next { OnOk result (next.new.goes_on
            ≡ list_any (λ k. takes_part_at (map.get self.new.peers k)) self.new.ready.items) }
        ensures minds { OnOk result (AreMinded self.new.peers next.new.goes_on) }
        ensures heard { OnOk result ((s : GoesOn R.page N.came N.gone N.wakes N.is_free
            saved.old.hub saved.new.hub net.old net.new self.old.peers self.new.peers)
            × ((k : ℕ) → HeardAt k s.leads.run
            (map.get self.old.peers k) (map.get self.new.peers k))) }
        ensures waits { WaitOn self.old.peers self.new.peers }
        ensures calls { Recalls (N.made net.old) (N.made net.new) }
        ensures fewer { map.len self.new.peers ≤ map.len self.old.peers }
        ensures most { self.new.door.most ≡ self.old.door.most }
        ensures all { OnOk result (IsAllSaved saved.new) }
        ensures ready { OnOk result (IsReady D.seen D.may_leave D.failed D.stale saved.new) }
        ensures settled { (config : StoreState)
            → IsSettled D.seen D.may_leave D.failed D.stale config saved.old
            → OnOk result (IsSettled D.seen D.may_leave D.failed D.stale config saved.new) }
        ensures any_moment { (config : StoreState) → AreKnown D.seen
            → IsSettled D.seen D.may_leave D.failed D.stale config saved.old
            → CrashesLeave D.seen D.moment D.left_since
            (RestoresEither config saved.old.hub.1 saved.new.hub.1)
            saved.old.journal saved.new.journal }
        ensures unedited { only_reads scope ≡ true → IsUnedited saved.old saved.new }
    {
        self.ready.clear();
        self.peers.collect(next.first(), &mut self.ready)?;
        let room = saved.room();
        let mut share = Share::new();
        turn(
            self.heap,
            &mut self.peers,
            self.ready.as_slice(),
            net,
            saved,
            &mut self.piece,
            &mut share,
            seconds_of(rt),
            scope,
        )?;
        let first = number_at(self.ready.as_slice(), share.behind());
        next.serve(first, self.peers.goes_on(self.ready.as_slice()));
        if keeps_room(saved, room, scope) {
            return Ok(());
        }
        keep_room(self.heap, saved, growth(saved.room()))?;
        Ok(())
    }

    /// Lets those go that are over, among them those whose time is, and accepts others. It is told whether a peer is gone.
    fn end_turn<N: Network, D: Device, R: Renderer + Drop>(
        &mut self,
        net: &mut N,
        saved: &mut SavedHub<D, R>,
        next: &mut NextTurn,
        now: Instant,
        is_lost: bool,
    ) -> Result<(), ServeFault>
        requires free { AreFree saved.old.hub.1.given (N.is_free net.old) }
        ensures goes { GoesOn R.page N.came N.gone N.wakes N.is_free saved.old.hub saved.new.hub
            net.old net.new self.old.peers self.new.peers }
        ensures waits { WaitOn self.old.peers self.new.peers }
        ensures calls { Recalls (N.made net.old) (N.made net.new) }
        ensures minds { AreMinded self.old.peers next.old.goes_on
            → OnOk result (AreMinded self.new.peers next.new.goes_on) }
        ensures asked { OnOk result (is_open self.new.door (map.len self.new.peers) ≡ true
            → WasAsked saved.old.hub.1.given (N.made net.new)) }
        ensures bound { map.len self.old.peers ≤ self.old.door.most
            → map.len self.new.peers ≤ self.old.door.most }
        ensures most { self.new.door.most ≡ self.old.door.most }
        ensures site { IsSameSite saved.old.hub.1 saved.new.hub.1 }
        ensures saved { StaysSaved D.seen D.may_leave D.failed D.stale saved.old saved.new }
        ensures ready { IsReady D.seen D.may_leave D.failed D.stale saved.old
            → IsReady D.seen D.may_leave D.failed D.stale saved.new }
        ensures journal { saved.new.journal ≡ saved.old.journal }
        ensures unsaved { saved.new.unsaved ≡ saved.old.unsaved }
    {
        let is_swept = self.sweep(next, now)?;
        self.let_over_go(net, saved, is_swept || is_lost)?;
        self.door.accept(self.heap, &mut self.peers, net, saved);
        Ok(())
    }

    /// Lets those go that are over. They are looked for among all where it is due, or where one of those that took part is over.
    fn let_over_go<N: Network, D: Device, R: Renderer + Drop>(
        &mut self,
        net: &mut N,
        saved: &mut SavedHub<D, R>,
        is_due: bool,
    ) -> Result<(), ServeFault>
        ensures goes { GoesOn R.page N.came N.gone N.wakes N.is_free saved.old.hub saved.new.hub
            net.old net.new self.old.peers self.new.peers }
        ensures no_more { NoMore self.old.peers self.new.peers }
        ensures waits { WaitOn self.old.peers self.new.peers }
        ensures calls { Recalls (N.made net.old) (N.made net.new) }
        ensures fewer { map.len self.new.peers ≤ map.len self.old.peers }
        ensures most { self.new.door.most ≡ self.old.door.most }
        ensures site { IsSameSite saved.old.hub.1 saved.new.hub.1 }
        ensures saved { StaysSaved D.seen D.may_leave D.failed D.stale saved.old saved.new }
        ensures ready { IsReady D.seen D.may_leave D.failed D.stale saved.old
            → IsReady D.seen D.may_leave D.failed D.stale saved.new }
        ensures journal { saved.new.journal ≡ saved.old.journal }
        ensures unsaved { saved.new.unsaved ≡ saved.old.unsaved }
    {
        let looks = is_due || self.peers.has_over(self.ready.as_slice());
        if !looks {
            return Ok(());
        }
        self.numbers.clear();
        self.peers.collect_over(&mut self.numbers)?;
        let_go(&mut self.peers, self.numbers.as_slice(), net, saved);
        Ok(())
    }

    /// Ends those whose time is over, from time to time, and tries again where memory was lacking. True: it is time.
    fn sweep(&mut self, next: &mut NextTurn, now: Instant) -> Result<bool, ServeFault>
        ensures swept { SweptAll self.old.peers self.new.peers }
        ensures minds { AreMinded self.old.peers next.old.goes_on
            → OnOk result (AreMinded self.new.peers next.new.goes_on) }
        ensures fed { IfOk result (λ is_made. is_made ≡ true
            → (k : ℕ) → IsFedAt (map.get self.new.peers k)) }
        ensures most { self.new.door.most ≡ self.old.door.most }
    {
        if now.duration_since(self.swept) < Duration::from_millis(SWEEP) {
            return Ok(false);
        }
        self.swept = now;
        self.door.wake();
        self.numbers.clear();
        self.peers.collect_all(&mut self.numbers)?;
        let is_crowded = self.peers.count() >= self.door.most;
        self.peers
            .sweep(self.numbers.as_slice(), &self.limits, is_crowded);
        next.sweep(self.peers.goes_on(self.numbers.as_slice()));
        Ok(true)
    }
}

/// What a turn answers, by whether another server is followed.
fn scope_of(follows: bool) -> Scope {
    if follows { Scope::Earlier } else { Scope::All }
}

/// Whether the source is asked behind a turn: where something has come on standard input, or it follows another server, or is about to
/// answer.
fn is_asked(has_input: bool, follows: bool, is_busy: bool) -> bool
    ensures { result ≡ (has_input || follows || is_busy) }
{
    has_input || follows || is_busy
}

/// The time; where the clock can't be asked, this one, so that no time has passed.
fn time_of<C: Clock>(rt: &C, last: Instant) -> Instant {
    match Instant::now(rt) {
        Ok(now) => now,
        Err(_) => last,
    }
}

/// Whether the journal can be found again, where there is one.
fn is_found<D: Device + NamedFile, R: Renderer + Drop>(saved: &SavedHub<D, R>) -> bool {
    match saved.device() {
        Some(device) => device.is_found(),
        None => true,
    }
}

/// Looks from time to time whether the journal can be found again, and for its room, but not while edits wait. Where it can't be found, what
/// is answered from now on would be lost.
fn look<D: Device + NamedFile, R: Renderer + Drop>(
    heap: Heap,
    looked: &mut Instant,
    saved: &mut SavedHub<D, R>,
    now: Instant,
    scope: Scope,
) -> Result<(), ServeFault>
    requires all { IsAllSaved saved.old }
    requires ready { IsReady D.seen D.may_leave D.failed D.stale saved.old }
    ensures quiet { LeadsQuietly (R.page saved.old.hub.0) saved.old.hub.1 saved.new.hub.1 }
    ensures same { R.page saved.new.hub.0 ≡ R.page saved.old.hub.0 }
    ensures all { OnOk result (IsAllSaved saved.new) }
    ensures ready { OnOk result (IsReady D.seen D.may_leave D.failed D.stale saved.new) }
    ensures settled { (config : StoreState)
        → IsSettled D.seen D.may_leave D.failed D.stale config saved.old
        → OnOk result (IsSettled D.seen D.may_leave D.failed D.stale config saved.new) }
    ensures any_moment { (config : StoreState) (begin : World)
        → IsSaved D.seen D.may_leave D.failed D.stale config begin saved.old
        → CrashesLeave D.seen D.moment D.left_since
        (Restores config begin) saved.old.journal saved.new.journal }
    ensures site { IsSameSite saved.old.hub.1 saved.new.hub.1 }
    ensures unedited { only_reads scope ≡ true → IsUnedited saved.old saved.new }
{
    if !is_time(*looked, now, scope) {
        return Ok(());
    }
    *looked = now;
    if !is_found(saved) {
        return Err(ServeFault::CannotWrite);
    }
    keep_room(heap, saved, RESERVE + SPARE)?;
    Ok(())
}

/// Whether it is time for a look behind the last one.
fn is_time(looked: Instant, now: Instant, scope: Scope) -> bool
    ensures { only_reads scope ≡ true → result ≡ false }
{
    if scope.only_reads() {
        return false;
    }
    now.duration_since(looked) >= Duration::from_secs(LOOK)
}

/// Whether the journal has as much room as before the turn, as where edits waited in it.
fn keeps_room<D: Device, R: Renderer + Drop>(
    saved: &SavedHub<D, R>,
    room: Option<usize>,
    scope: Scope,
) -> bool
    ensures { only_reads scope ≡ true → result ≡ true }
{
    if scope.only_reads() {
        return true;
    }
    saved.room() == room
}

/// The number at that place, or 0 where the list is shorter.
fn number_at(numbers: &[u64], place: usize) -> u64 {
    match numbers.get(place) {
        Some(number) => *number,
        None => 0,
    }
}
