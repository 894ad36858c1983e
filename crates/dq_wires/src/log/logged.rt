//! Wires whose connections are told of in a log.
ghost use Rattle.std.specs.Prelude.{◌≤◌, length, IfOk};
ghost use Rattle.dq_wires.specs.Logs.{IfGot};

use crate::calls::{Progress, ReadTurn, WireFault};
use crate::given_up::GivesUp;
use crate::log::association_log::AssociationLog;
use crate::wires::Wires;
use std::io::Write;
use std::time::Clock;

/// Wires around others. Each call is handed on, and its answer back: what is served is what the
/// others serve. The log, where there is one, is told which connections come, and which are given
/// up.
#[derive(Drop)]
pub struct LoggedWires<W, L> {
    pub wires: W,
    pub log: Option<AssociationLog<L>>,
}

impl<W, L: Write + Drop> LoggedWires<W, L> {
    /// The lines of the log have from now on the time of a clock.
    pub fn read_clock(&mut self, clock: &impl Clock) {
        if let Some(log) = &mut self.log {
            log.read_clock(clock);
        }
    }
}

impl<W: Wires + GivesUp, L: Write + Drop> Wires for LoggedWires<W, L> {
    ghost log = { λ logged. W.log logged.wires };

    ghost failed_accepts = { λ logged. W.failed_accepts logged.wires };

    fn accept(&mut self) -> Result<Option<usize>, WireFault> {
        let answer = self.wires.accept();
        if let Some(log) = &mut self.log {
            match (answer, self.wires.turned_away()) {
                (Ok(Some(place)), _) => log.begin(place, self.wires.peer(place)),
                (_, Some(given_up)) => log.turn_away(given_up),
                _ => {}
            }
        }
        answer
    }

    fn read(&mut self, place: usize, buffer: &mut [u8]) -> Result<ReadTurn, WireFault> {
        self.wires.read(place, buffer)
    }

    fn write(&mut self, place: usize, octets: &[u8]) -> Result<usize, WireFault> {
        self.wires.write(place, octets)
    }

    fn learn(&mut self, place: usize, progress: Progress) {
        self.wires.learn(place, progress);
    }

    fn shut(&mut self, place: usize) -> Result<(), WireFault> {
        if let Some(log) = &mut self.log {
            log.end(place, self.wires.given_up(place));
        }
        self.wires.shut(place)
    }
}
