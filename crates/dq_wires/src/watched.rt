//! A connection that is told of in a log.
ghost use Rattle.std.specs.Prelude.{◌≡◌};
ghost use Rattle.dq_wires.specs.Lines.{ended_by, open_after};
ghost use Rattle.dq_wires.specs.LogWords.{counted, counted_in, no_counts};
ghost use Rattle.dq_wires.specs.Watching.{newly_watched};

use dq_assoc::Service;
use dq_core::LogEvent;
use dq_dimse::status;
use jiff::Timestamp;
use std::fmt;
use std::net::SocketAddr;

/// Counts of what was served over an association: how many objects were stored, how many C-FINDs
/// were answered and by how many answers, how many messages of performed procedure steps were
/// taken, and how many messages were refused.
#[derive(Clone, Copy)]
pub(crate) struct ServedCounts {
    stores: u64,
    searches: u64,
    answers: u64,
    steps: u64,
    refused: u64,
}

/// An association that is open: since when, and what was served over it.
#[derive(Clone, Copy)]
pub(crate) struct Opened {
    pub since: Timestamp,
    pub counts: ServedCounts,
}

/// A connection: its place among the wires, its number, its peer's address if it is known, its
/// association if one is open, and whether it is given up.
#[derive(Clone, Copy)]
pub(crate) struct Watched {
    pub place: usize,
    pub number: u64,
    pub peer: Option<SocketAddr>,
    pub opened: Option<Opened>,
    pub is_shut: bool,
}

impl Watched {
    /// One that has just come.
    pub(crate) fn new(place: usize, number: u64, peer: Option<SocketAddr>) -> Self
        ensures { result ≡ newly_watched place number peer }
    {
        Watched {
            place,
            number,
            peer,
            opened: None,
            is_shut: false,
        }
    }

    /// Counts what is noted of it.
    pub(crate) fn count(&mut self, noted: &LogEvent, time: Timestamp)
        ensures { self.new ≡ record self.old { opened = counted_in noted.now time self.old.opened } }
    {
        match noted {
            LogEvent::Accepted { .. } => {
                self.opened = Some(Opened {
                    since: time,
                    counts: ServedCounts::none(),
                });
            }
            LogEvent::Served {
                service,
                status,
                answers,
                ..
            } => {
                if let Some(opened) = &mut self.opened {
                    opened.counts.add(*service, *status, *answers);
                }
            }
            _ => {}
        }
    }

    /// The association that is open, where what is noted ends it.
    pub(crate) fn close(&mut self, noted: &LogEvent) -> Option<Opened>
        ensures ended { result ≡ ended_by noted.now self.old.opened }
        ensures left { self.new ≡ record self.old { opened = open_after noted.now self.old.opened } }
    {
        match noted {
            LogEvent::Closed { .. } | LogEvent::Ended => self.opened.take(),
            _ => None,
        }
    }
}

impl ServedCounts {
    // Nothing was served yet.
    fn none() -> Self
        ensures { result ≡ no_counts }
    {
        ServedCounts {
            stores: 0,
            searches: 0,
            answers: 0,
            steps: 0,
            refused: 0,
        }
    }

    // Counts a message of a service that was answered.
    fn add(&mut self, service: Service, status: u16, answers: usize)
        ensures { self.new ≡ counted service status answers self.old }
    {
        if status != status::SUCCESS && status != status::ELEMENTS_DISCARDED {
            self.refused = self.refused.saturating_add(1);
            return;
        }
        match service {
            Service::Verification => {}
            Service::Storage => self.stores = self.stores.saturating_add(1),
            Service::StudyRootFind | Service::WorklistFind => {
                self.searches = self.searches.saturating_add(1);
                self.answers = self.answers.saturating_add(answers as u64);
            }
            Service::PerformedProcedureStep => self.steps = self.steps.saturating_add(1),
        }
    }
}

impl fmt::Display for ServedCounts {
    fn fmt<W: fmt::Write>(&self, f: &mut fmt::Formatter<W>) -> fmt::Result {
        write!(
            f,
            "stores {} searches {} answers {} steps {} refused {}",
            self.stores, self.searches, self.answers, self.steps, self.refused
        )
    }
}
