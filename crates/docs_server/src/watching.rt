//! Who is told what passes: the log and the monitors' door, where there are such.

use crate::access_log::AccessLog;
use crate::monitors::Monitors;
use doc_server_serving::net::handed::Handed;
use doc_server_serving::net::watch::Watch;
use std::rt::Clock;
use std::time::Instant;

/// The log of a server, and the door for its monitors.
#[derive(Drop)]
pub struct Watching<'a, P> {
    rt: &'a P,
    log: Option<AccessLog<'a, P>>,
    monitors: Option<Monitors<'a>>,
}

impl<'a, P: Clock + Eprint> Watching<'a, P> {
    /// Both, where there is one of them.
    pub fn of(
        rt: &'a P,
        log: Option<AccessLog<'a, P>>,
        monitors: Option<Monitors<'a>>,
    ) -> Option<Watching<'a, P>> {
        if log.is_none() && monitors.is_none() {
            return None;
        }
        Some(Watching { rt, log, monitors })
    }
}

impl<P: Clock + Eprint> Watch for Watching<'_, P> {
    fn begin_turn(&mut self) {
        if let Some(log) = &mut self.log {
            log.begin_turn();
        }
        if let Some(monitors) = &mut self.monitors {
            monitors.begin_turn(Instant::now(self.rt).ok());
        }
    }

    fn joined(&mut self, id: u64) {
        if let Some(log) = &mut self.log {
            log.joined(id);
        }
        if let Some(monitors) = &mut self.monitors {
            monitors.joined(id);
        }
    }

    fn came(&mut self, id: u64, bytes: &[u8]) {
        if let Some(log) = &mut self.log {
            log.came(id, bytes);
        }
    }

    fn answered(&mut self, id: u64, reply: Handed) {
        if let Some(log) = &mut self.log {
            log.answered(id, reply);
        }
        if let Some(monitors) = &mut self.monitors {
            monitors.answered(reply);
        }
    }

    fn left(&mut self, id: u64) {
        if let Some(log) = &mut self.log {
            log.left(id);
        }
        if let Some(monitors) = &mut self.monitors {
            monitors.left(id);
        }
    }

    fn end_turn(&mut self) {
        if let Some(log) = &mut self.log {
            log.end_turn();
        }
        if let Some(monitors) = &mut self.monitors {
            monitors.end_turn(Instant::now(self.rt).ok());
        }
    }
}
