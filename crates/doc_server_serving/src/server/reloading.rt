//! What the source gives between two turns. A reload's edits are made some at a time, with a turn of the peers between.

ghost use Rattle.std.specs.Prelude.{◌≡◌, ◌≤◌, ◌<◌, ◌++◌, [], IfOk, OnOk, length, true};
ghost use Rattle.std.specs.FinMap as map;
ghost use Rattle.doc_hub.specs.Worlds.{World};
ghost use Rattle.doc_server_network.specs.Crashes.{CrashesLeave, Restores};
ghost use Rattle.doc_server_network.specs.KeptTurns.{IsOfCalls};
ghost use Rattle.doc_server_network.specs.Networks.{Recalls, end_of_input};
ghost use Rattle.doc_server_network.specs.Reloads.{IsUnderWay};
ghost use Rattle.doc_server_network.specs.Saved.{IsAllSaved, IsReady, IsSaved, IsSettled, IsUnedited};
ghost use Rattle.doc_server_serving.specs.Forces.{AreAllOfCalls, IsOutcome, IsSettledInForce, IsTaken, config_behind};
ghost use Rattle.doc_server_serving.specs.Invariants.{AreFree, GoesOn, GoesOnBy, GoesOnWith};
ghost use Rattle.doc_server_serving.specs.Leading.{IsOfLead, IsOfReload, StayAnswered};
ghost use Rattle.doc_store.specs.Store.{StoreState};

use crate::fault::ServeFault;
use crate::given::{Configuration, Given};
use crate::named_file::NamedFile;
use crate::next_turn::NextTurn;
use crate::server::Server;
use crate::source::Source;
use doc_page::renderer::Renderer;
use doc_server_journal::device::Device;
use doc_server_network::laws::reloads_are_restored;
use doc_server_network::lead::Lead;
use doc_server_network::network::Network;
use doc_server_network::reload_fault::{Refusal, ReloadFault};
use doc_server_network::reloaded::Reloaded;
use doc_server_network::saved_hub::SavedHub;
use doc_server_turns::scope::Scope;
use doc_server_turns::setting::set_both;
use doc_store::site_edit::SiteEdit;
use std::rt::Clock;

/// So many edits of a reload are made between two turns, so that nobody sees a part of them.
const WHOLE: usize = 64;

/// How many are made at a time where they are more.
const PART: usize = 32;

impl Server {
    /// Has the hub go by what the source gives, where it gives anything, and tells it what came of a configuration. True: standard input has
    /// ended meanwhile.
    pub(crate) fn take_given<
        N: Network,
        D: Device + NamedFile,
        R: Renderer + Drop,
        C: Clock,
        S: Source,
    >(
        &mut self,
        rt: &C,
        net: &mut N,
        saved: &mut SavedHub<D, R>,
        source: &mut S,
        next: &mut NextTurn,
        has_input: bool,
    ) -> Result<bool, ServeFault>
        requires all { IsAllSaved saved.old }
        requires ready { IsReady D.seen D.may_leave D.failed D.stale saved.old }
        requires free { AreFree saved.old.hub.1.given (N.is_free net.old) }
        ensures goes { GoesOnWith R.page N.came N.gone N.wakes N.is_free (S.answered source.new)
            saved.old.hub saved.new.hub net.old net.new self.old.peers self.new.peers }
        ensures keeps { StayAnswered (S.answered source.old) (S.answered source.new) }
        ensures follows { S.follows source.new ≡ S.follows source.old }
        ensures takes { OnOk result (IsTaken D.seen D.may_leave D.failed D.stale
            (S.answered source.new) (S.told source.new) saved.old.hub.1 saved.new.hub.1
            saved.new.journal) }
        ensures bound { map.len self.old.peers ≤ self.old.door.most
            → map.len self.new.peers ≤ self.old.door.most }
        ensures most { self.new.door.most ≡ self.old.door.most }
        ensures calls { Recalls (N.made net.old) (N.made net.new) }
        ensures ends { IfOk result (λ has_ended. has_ended ≡ true → N.made net.new end_of_input) }
        ensures all { OnOk result (IsAllSaved saved.new) }
        ensures ready { OnOk result (IsReady D.seen D.may_leave D.failed D.stale saved.new) }
        ensures settled { (config : StoreState)
            → IsSettled D.seen D.may_leave D.failed D.stale config saved.old
            → AreAllOfCalls (S.answered source.new)
            → OnOk result (IsSettledInForce D.seen D.may_leave D.failed D.stale
            (S.answered source.new) config saved.new) }
        ensures any_moment { (config : StoreState) (begin : World)
            → IsSaved D.seen D.may_leave D.failed D.stale config begin saved.old
            → CrashesLeave D.seen D.moment D.left_since
            (Restores config begin) saved.old.journal saved.new.journal }
    {
        let given = source.hear(saved.media(), has_input)?;
        match given {
            Some(Given::Configuration(configuration)) => {
                let at_once = source.follows();
                let (outcome, has_ended) = self.reload(
                    rt,
                    net,
                    saved,
                    next,
                    configuration,
                    at_once,
                )?;
                source.tell(outcome);
                Ok(has_ended)
            }
            Some(Given::Records(texts)) => {
                saved.follow(self.heap, texts.get())?;
                Ok(false)
            }
            None => Ok(false),
        }
    }

    /// Has the hub go by these readers, beside these media, and leads it to these pages, at once or with turns between. It answers what
    /// came of that, where it is refused all is as before, and whether standard input has ended meanwhile.
    fn reload<N: Network, D: Device + NamedFile, R: Renderer + Drop, C: Clock>(
        &mut self,
        rt: &C,
        net: &mut N,
        saved: &mut SavedHub<D, R>,
        next: &mut NextTurn,
        configuration: Configuration,
        at_once: bool,
    ) -> Result<(Result<Reloaded, Refusal>, bool), ServeFault>
        requires all { IsAllSaved saved.old }
        requires ready { IsReady D.seen D.may_leave D.failed D.stale saved.old }
        requires free { AreFree saved.old.hub.1.given (N.is_free net.old) }
        ensures goes { GoesOnBy R.page N.came N.gone N.wakes N.is_free (IsOfReload configuration)
            saved.old.hub saved.new.hub net.old net.new self.old.peers self.new.peers }
        ensures outcome { IfOk result (λ led. IsOutcome D.seen D.may_leave D.failed D.stale
            saved.old.hub.1 saved.new.hub.1 saved.new.journal configuration led.0) }
        ensures bound { map.len self.old.peers ≤ self.old.door.most
            → map.len self.new.peers ≤ self.old.door.most }
        ensures most { self.new.door.most ≡ self.old.door.most }
        ensures calls { Recalls (N.made net.old) (N.made net.new) }
        ensures ends { IfOk result (λ led. led.1 ≡ true → N.made net.new end_of_input) }
        ensures all { OnOk result (IsAllSaved saved.new) }
        ensures ready { OnOk result (IsReady D.seen D.may_leave D.failed D.stale saved.new) }
        ensures settled { (config : StoreState)
            → IsSettled D.seen D.may_leave D.failed D.stale config saved.old
            → IsOfCalls configuration.pages.site → IfOk result (λ led.
            IsSettled D.seen D.may_leave D.failed D.stale
            (config_behind config configuration led.0) saved.new) }
        ensures any_moment { (config : StoreState) (begin : World)
            → IsSaved D.seen D.may_leave D.failed D.stale config begin saved.old
            → CrashesLeave D.seen D.moment D.left_since
            (Restores config begin) saved.old.journal saved.new.journal }
    {
        reloads_are_restored();
        let Configuration {
            readers,
            pages,
            media,
        } = configuration;
        match saved.begin_reload(self.heap, pages, &media) {
            Ok(lead) => {
                if let Err(refusal) = set_both(saved, readers, media) {
                    return Ok((Err(refusal), false));
                }
                let has_ended = self.lead(rt, net, saved, next, &lead, at_once)?;
                let reloaded = Reloaded::by(lead.edits.get(), lead.records);
                Ok((Ok(reloaded), has_ended))
            }
            Err(ReloadFault::Refused(refusal)) => Ok((Err(refusal), false)),
            Err(ReloadFault::Ends(fault)) => Err(ServeFault::from(fault)),
        }
    }

    /// Makes the edits of a reload, all at once or some at a time. Between these a turn of the peers passes in which edits wait, unless
    /// standard input has ended. True: it has.
    fn lead<N: Network, D: Device + NamedFile, R: Renderer + Drop, C: Clock>(
        &mut self,
        rt: &C,
        net: &mut N,
        saved: &mut SavedHub<D, R>,
        next: &mut NextTurn,
        lead: &Lead,
        at_once: bool,
    ) -> Result<bool, ServeFault>
        requires all { IsAllSaved saved.old }
        requires ready { IsReady D.seen D.may_leave D.failed D.stale saved.old }
        requires free { AreFree saved.old.hub.1.given (N.is_free net.old) }
        ensures goes { GoesOnBy R.page N.came N.gone N.wakes N.is_free (IsOfLead lead.now.edits)
            saved.old.hub saved.new.hub net.old net.new self.old.peers self.new.peers }
        ensures leads { (config : StoreState) (begin : World)
            → IsUnderWay D.seen D.may_leave D.failed D.stale config begin lead.now [] saved.old
            → OnOk result (IsUnderWay D.seen D.may_leave D.failed D.stale config begin lead.now
            lead.now.edits saved.new) }
        ensures readers { saved.new.hub.1.readers ≡ saved.old.hub.1.readers }
        ensures journal { saved.new.journal ≡ saved.old.journal }
        ensures bound { map.len self.old.peers ≤ self.old.door.most
            → map.len self.new.peers ≤ self.old.door.most }
        ensures most { self.new.door.most ≡ self.old.door.most }
        ensures calls { Recalls (N.made net.old) (N.made net.new) }
        ensures ends { IfOk result (λ has_ended. has_ended ≡ true → N.made net.new end_of_input) }
        ensures all { OnOk result (IsAllSaved saved.new) }
        ensures ready { OnOk result (IsReady D.seen D.may_leave D.failed D.stale saved.new) }
    {
        let mut left = lead.edits.get();
        let mut has_ended = false;
        'parts: while !left.is_empty() {
            let (part, rest) = part_of(left, at_once);
            saved.lead(part)?;
            has_ended = self.pass(rt, net, saved, next, has_ended, rest.is_empty())?;
            left = rest;
        }
        Ok(has_ended)
    }

    /// A turn of the peers in which edits wait, unless standard input has ended or the last edits are made. True: standard input has ended.
    fn pass<N: Network, D: Device + NamedFile, R: Renderer + Drop, C: Clock>(
        &mut self,
        rt: &C,
        net: &mut N,
        saved: &mut SavedHub<D, R>,
        next: &mut NextTurn,
        has_ended: bool,
        is_last: bool,
    ) -> Result<bool, ServeFault>
        requires all { IsAllSaved saved.old }
        requires ready { IsReady D.seen D.may_leave D.failed D.stale saved.old }
        requires free { AreFree saved.old.hub.1.given (N.is_free net.old) }
        requires ended { has_ended ≡ true → N.made net.old end_of_input }
        ensures goes { GoesOn R.page N.came N.gone N.wakes N.is_free saved.old.hub saved.new.hub
            net.old net.new self.old.peers self.new.peers }
        ensures unedited { IsUnedited saved.old saved.new }
        ensures bound { map.len self.old.peers ≤ self.old.door.most
            → map.len self.new.peers ≤ self.old.door.most }
        ensures most { self.new.door.most ≡ self.old.door.most }
        ensures calls { Recalls (N.made net.old) (N.made net.new) }
        ensures ends { IfOk result (λ has_ended. has_ended ≡ true → N.made net.new end_of_input) }
        ensures all { OnOk result (IsAllSaved saved.new) }
        ensures ready { OnOk result (IsReady D.seen D.may_leave D.failed D.stale saved.new) }
    {
        if has_ended || is_last {
            return Ok(has_ended);
        }
        let ends = self.turn(rt, net, saved, next, Scope::Reads)?;
        next.keep_input();
        Ok(ends)
    }
}

/// The edits that are made next, all or so many that nobody waits long, and those that are left then.
fn part_of(left: &[SiteEdit], at_once: bool) -> (&[SiteEdit], &[SiteEdit])
    ensures whole { result.0.now ++ result.1.now ≡ left.now }
    ensures shorter { 0 < length left.now → length result.1.now < length left.now }
{
    let count = if at_once || left.len() <= WHOLE {
        left.len()
    } else {
        PART
    };
    left.split_at(count)
}
