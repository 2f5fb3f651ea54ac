//! Taking in what a client's peer sends, and having it answered.

ghost use Rattle.std.specs.Prelude.{◌≡◌, ◌≤◌, ◌<◌, ◌+◌, [], true, false, length, IfSome};
ghost use Rattle.doc_hub.specs.Runs.{Happens};
ghost use Rattle.doc_hub.specs.Worlds.{disconnected};
ghost use Rattle.doc_hub_events.specs.Events.{disconnect_on};
ghost use Rattle.doc_server_listen.specs.Costs.{CostsAtMost, IsWithin, next_cost};
ghost use Rattle.doc_server_listen.specs.Edits.{AreQuiet};
ghost use Rattle.doc_server_listen.specs.OnlyReads.{StepOnlyReads};
ghost use Rattle.doc_server_network.specs.Networks.{Recalls, Rests, RestsBut, Stays, StaysBut};
ghost use Rattle.doc_server_network.specs.Saved.{IsReady, IsUnedited, StaysSaved, may_step};
ghost use Rattle.doc_server_turns.specs.Hearing.{Hears, IsReader, WasHeard};
ghost use Rattle.doc_server_turns.specs.Replies.{most_pending};
ghost use Rattle.doc_server_turns.specs.Scopes.{is_earlier, only_reads};
ghost use Rattle.doc_server_turns.specs.Servings.{Answers, Serves};
ghost use Rattle.doc_server_turns.specs.Strangers.{has_unread};
ghost use Rattle.doc_server_turns.specs.Visits.{IsEither};

use crate::client::Client;
use crate::scope::Scope;
use crate::stage::Stage;
use doc_hub::event::{ConnId, Step};
use doc_hub::refusal::StepError;
use doc_page::renderer::Renderer;
use doc_page_parts::heap::Heap;
use doc_server_journal::device::Device;
use doc_server_listen::cost::{LIST_COST, PAGE_COST, step_cost};
use doc_server_listen::share::Share;
use doc_server_network::came::Came;
use doc_server_network::network::Network;
use doc_server_network::saved_hub::SavedHub;

/// How many steps a turn makes at most, where each costs what a page costs.
const MOST_STEPS: u32 = LIST_COST;

/// From how many pending bytes on a client takes no further step.
const MOST_PENDING: usize = 262_144;

impl Client {
    /// Where nothing is pending, reads once, pushes and steps, as far as the share of the turn and what it answers go. The edits of these
    /// steps wait to be settled, and so do the replies: nothing is handed over. Where another server is followed what was read is stepped
    /// in the next turn, behind a look at what that server has written meanwhile.
    pub fn take_in<N: Network, D: Device, R: Renderer + Drop>(
        &mut self,
        heap: Heap,
        id: u64,
        net: &mut N,
        saved: &mut SavedHub<D, R>,
        piece: &mut [u8],
        share: &mut Share,
        scope: Scope,
    )
        ensures serves { (s : Serves (R.page saved.old.hub.0) saved.old.hub.1 saved.new.hub.1 id
            (N.came net.old id) (N.came net.new id) (N.has_ended net.new id) self.old self.new)
            × IsWithin s.run share.old share.new × Hears id s.run self.old self.new
            × (IsReader self.old → WasHeard id s.run self.new)
            × (is_earlier scope ≡ true → IsEither id s.run) }
        ensures others { RestsBut id (N.came net.old) (N.came net.new) }
        ensures gone { Rests (N.gone net.old) (N.gone net.new) }
        ensures woken { (self.old.rests ≡ true → N.wakes net.old id)
            → self.new.rests ≡ true → N.wakes net.new id }
        ensures wakes { StaysBut id (N.wakes net.old) (N.wakes net.new) }
        ensures ended { Stays (N.has_ended net.old) (N.has_ended net.new) }
        ensures free { Stays (N.is_free net.old) (N.is_free net.new) }
        ensures calls { Recalls (N.made net.old) (N.made net.new) }
        ensures same { R.page saved.new.hub.0 ≡ R.page saved.old.hub.0 }
        ensures saved { StaysSaved D.seen D.may_leave D.failed D.stale saved.old saved.new }
        ensures ready { IsReady D.seen D.may_leave D.failed D.stale saved.old
            → IsReady D.seen D.may_leave D.failed D.stale saved.new }
        ensures journal { saved.new.journal ≡ saved.old.journal }
        ensures unedited { only_reads scope ≡ true → IsUnedited saved.old saved.new }
        ensures room { length piece.new ≡ length piece.old }
    {
        if self.is_idle() {
            return;
        }
        if !self.reads() {
            self.answer(heap, id, saved, share, scope);
            return;
        }
        self.read(id, net, saved, piece);
        if scope.is_earlier() {
            return;
        }
        if !self.is_open() {
            return;
        }
        self.answer(heap, id, saved, share, scope);
    }

    /// Whether it neither reads nor steps in this turn.
    fn is_idle(&self) -> bool
        ensures idle { result ≡ true → IsReader self.now → ⊥ }
        ensures awake { result ≡ false → self.now.rests ≡ false }
        ensures stands { result ≡ false → self.now.is_over ≡ false }
        ensures open { result ≡ false → self.now.is_open ≡ true }
        ensures none { result ≡ false → self.now.pending ≡ [] }
    {
        self.rests || !self.is_open() || self.has_pending()
    }

    /// Whether what was read holds no further request.
    fn reads(&self) -> bool
        ensures { self.now.reads ≡ true → result ≡ true }
    {
        self.stage == Stage::Reads
    }

    /// Reads once, and pushes what came. A step has said that what was read before holds no further request.
    fn read<N: Network, D: Device, R: Renderer + Drop>(
        &mut self,
        id: u64,
        net: &mut N,
        saved: &mut SavedHub<D, R>,
        piece: &mut [u8],
    )
        requires open { self.old.is_open ≡ true }
        requires awake { self.old.rests ≡ false }
        ensures serves { (s : Serves (R.page saved.old.hub.0) saved.old.hub.1 saved.new.hub.1 id
            (N.came net.old id) (N.came net.new id) (N.has_ended net.new id) self.old self.new)
            × AreQuiet s.run × (self.old.reads ≡ true → WasHeard id s.run self.new) }
        ensures pending { self.new.pending ≡ self.old.pending }
        ensures others { RestsBut id (N.came net.old) (N.came net.new) }
        ensures gone { Rests (N.gone net.old) (N.gone net.new) }
        ensures woken { self.new.rests ≡ true → N.wakes net.new id }
        ensures wakes { StaysBut id (N.wakes net.old) (N.wakes net.new) }
        ensures ended { Stays (N.has_ended net.old) (N.has_ended net.new) }
        ensures free { Stays (N.is_free net.old) (N.is_free net.new) }
        ensures calls { Recalls (N.made net.old) (N.made net.new) }
        ensures same { R.page saved.new.hub.0 ≡ R.page saved.old.hub.0 }
        ensures saved { StaysSaved D.seen D.may_leave D.failed D.stale saved.old saved.new }
        ensures ready { IsReady D.seen D.may_leave D.failed D.stale saved.old
            → IsReady D.seen D.may_leave D.failed D.stale saved.new }
        ensures journal { saved.new.journal ≡ saved.old.journal }
        ensures unedited { IsUnedited saved.old saved.new }
        ensures room { length piece.new ≡ length piece.old }
    {
        match net.read(id, piece) {
            Ok(Came::Bytes(count)) => {
                self.silence.hear();
                match saved.push(ConnId(id), &piece[..count]) {
                    Ok(()) => self.stage = Stage::Steps,
                    Err(_) => self.stage = dropped(saved, id, Stage::Ends),
                }
            }
            Ok(Came::Nothing) => self.rests = true,
            Ok(Came::End) => self.stage = dropped(saved, id, Stage::Ends),
            Err(_) => self.stage = dropped(saved, id, Stage::Over),
        }
    }

    /// Answers the requests that have come, as far as the share of the turn goes, and none once so many bytes are pending, or no edit
    /// has room, or it may be an edit that has to wait.
    fn answer<D: Device, R: Renderer + Drop>(
        &mut self,
        heap: Heap,
        id: u64,
        saved: &mut SavedHub<D, R>,
        share: &mut Share,
        scope: Scope,
    )
        requires open { self.old.is_open ≡ true }
        requires none { self.old.pending ≡ [] }
        ensures answers { (s : Answers (R.page saved.old.hub.0) saved.old.hub.1 saved.new.hub.1 id
            self.old self.new) × IsWithin s.run share.old share.new }
        ensures same { R.page saved.new.hub.0 ≡ R.page saved.old.hub.0 }
        ensures saved { StaysSaved D.seen D.may_leave D.failed D.stale saved.old saved.new }
        ensures ready { IsReady D.seen D.may_leave D.failed D.stale saved.old
            → IsReady D.seen D.may_leave D.failed D.stale saved.new }
        ensures journal { saved.new.journal ≡ saved.old.journal }
        ensures unedited { only_reads scope ≡ true → IsUnedited saved.old saved.new }
    {
        let mut held = 0;
        'steps: for _ in 0..MOST_STEPS {
            if held >= MOST_PENDING || self.stage == Stage::Reads {
                return;
            }
            if !saved.has_room() {
                return;
            }
            if edit_waits(heap, saved, id, scope) {
                return;
            }
            if !share.take(next_cost(saved, id)) {
                return;
            }
            let Some(count) = self.step(id, saved) else {
                return;
            };
            held = count.saturating_add(held);
        }
    }

    /// One step, and its reply waits. Where another step may follow, it answers how many bytes the reply has.
    fn step<D: Device, R: Renderer + Drop>(
        &mut self,
        id: u64,
        saved: &mut SavedHub<D, R>,
    ) -> Option<usize>
        requires open { self.old.is_open ≡ true }
        requires room { length self.old.pending < most_pending }
        requires further { may_step saved.old ≡ true }
        ensures answers { (s : Answers (R.page saved.old.hub.0) saved.old.hub.1 saved.new.hub.1 id
            self.old self.new) × CostsAtMost s.run (next_cost saved.old.hub.1 id) }
        ensures open { IfSome result (λ _. self.new.is_open ≡ true) }
        ensures more { IfSome result
            (λ n. length self.new.pending ≤ n + length self.old.pending) }
        ensures same { R.page saved.new.hub.0 ≡ R.page saved.old.hub.0 }
        ensures saved { StaysSaved D.seen D.may_leave D.failed D.stale saved.old saved.new }
        ensures ready { IsReady D.seen D.may_leave D.failed D.stale saved.old
            → IsReady D.seen D.may_leave D.failed D.stale saved.new }
        ensures journal { saved.new.journal ≡ saved.old.journal }
        ensures unedited { StepOnlyReads saved.old.hub.1 id → IsUnedited saved.old saved.new }
    {
        if self.replies.reserve(1).is_err() {
            self.is_starved = true;
            return None;
        }
        match saved.step(ConnId(id)) {
            Ok(Step::Sent(reply)) => {
                self.is_starved = false;
                self.unfinished.answer();
                let count = reply.get().len();
                self.replies.push_back_reserved(reply);
                Some(count)
            }
            Ok(Step::Last(reply)) => {
                self.replies.push_back_reserved(reply);
                self.stage = dropped(saved, id, Stage::Ends);
                None
            }
            Ok(Step::More) => {
                self.is_starved = false;
                self.unfinished.wait(has_unread(saved, id));
                self.stage = Stage::Reads;
                None
            }
            Ok(Step::Closed) => {
                self.stage = dropped(saved, id, Stage::Ends);
                None
            }
            Err(StepError::NoConnection) => {
                self.stage = dropped(saved, id, Stage::Ends);
                None
            }
            Err(StepError::Memory) => {
                self.is_starved = true;
                None
            }
        }
    }
}

/// Whether the next request of a connection waits, since it may be an edit.
fn edit_waits<D: Device, R: Renderer + Drop>(
    heap: Heap,
    saved: &SavedHub<D, R>,
    id: u64,
    scope: Scope,
) -> bool
    ensures { result ≡ false → only_reads scope ≡ true → StepOnlyReads saved.now.hub.1 id }
{
    if !scope.only_reads() {
        return false;
    }
    !saved.only_reads(heap, ConnId(id))
}

/// What the next step on a connection costs.
fn next_cost<D: Device, R: Renderer + Drop>(saved: &SavedHub<D, R>, id: u64) -> u32
    ensures { result ≡ next_cost saved.now.hub.1 id }
{
    match saved.unread(ConnId(id)) {
        Some(unread) => step_cost(unread),
        None => PAGE_COST,
    }
}

/// Whether bytes of a connection aren't answered yet.
fn has_unread<D: Device, R: Renderer + Drop>(saved: &SavedHub<D, R>, id: u64) -> bool
    ensures { result ≡ has_unread saved.now.hub.1 id }
{
    match saved.unread(ConnId(id)) {
        Some(unread) => !unread.is_empty(),
        None => false,
    }
}

/// Drops a connection, by which its client comes to this stage.
fn dropped<D: Device, R: Renderer + Drop>(
    saved: &mut SavedHub<D, R>,
    id: u64,
    stage: Stage,
) -> Stage
    ensures stage { result ≡ stage }
    ensures world { Happens (R.page saved.old.hub.0) saved.old.hub.1 (disconnect_on (record { 0 = id }))
        saved.new.hub.1 (disconnected saved.old.hub.1 id).1 }
    ensures same { R.page saved.new.hub.0 ≡ R.page saved.old.hub.0 }
    ensures saved { StaysSaved D.seen D.may_leave D.failed D.stale saved.old saved.new }
    ensures ready { IsReady D.seen D.may_leave D.failed D.stale saved.old
        → IsReady D.seen D.may_leave D.failed D.stale saved.new }
    ensures journal { saved.new.journal ≡ saved.old.journal }
    ensures unedited { IsUnedited saved.old saved.new }
{
    saved.disconnect(ConnId(id));
    stage
}
