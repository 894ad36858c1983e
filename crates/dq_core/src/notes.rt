//! Notes of what is served, for a log. Of a data set they hold nothing but the tags of a query's keys,
//! and what it asks of the modality, the station and the day.
ghost use Rattle.std.specs.Prelude.{◌≡◌, ◌&&◌, [], true, take, option_map, IfOk, IfSome};
ghost use Rattle.std.specs.Str.{bytes_eq};
ghost use Rattle.std.specs.Option.{option_copied};
ghost use Rattle.dq_value.specs.Title.{without_spaces};
ghost use Rattle.dq_dataset.specs.Values.{element_octets};
ghost use Rattle.dq_core.specs.Notes.{noted_most, noted_octets, values_asked, asked_of_entries, asked_of_studies, asked_by};

use dq_assoc::{AssociationEnd, Service};
use dq_dataset::{DataSet, Element, Value};
use dq_list::Listed;
use dq_pdu::Request;
use dq_tables::sole_item_at;
use dq_value::stripped;
use dq_vr::{Tag, tags};
use std::alloc::{AllocError, Global};
use std::mem;

/// So many octets of a value are noted, and so many keys.
const NOTED_MOST: usize = 64;

/// The titles of a request, as they came (PS3.8 section 9.3.2).
#[derive(Clone, Copy, Debug, PartialEq, Eq)]
pub struct Titles {
    pub called: [u8; 16],
    pub calling: [u8; 16],
}

impl Titles {
    ghost use Rattle.dq_core.specs.Notes.{titles_of};

    /// Returns the titles of a request.
    pub(crate) fn of(request: &Request) -> Titles
        ensures { result ≡ titles_of request.now }
    {
        Titles {
            called: request.called,
            calling: request.calling,
        }
    }

    /// Whether others are the same, but for the spaces at their ends.
    pub fn are_alike(&self, others: &Titles) -> bool
        ensures { result ≡ (bytes_eq (without_spaces self.now.called) (without_spaces others.now.called)
            && bytes_eq (without_spaces self.now.calling) (without_spaces others.now.calling)) }
    {
        stripped(&self.called) == stripped(&others.called)
            && stripped(&self.calling) == stripped(&others.calling)
    }
}

/// The query of a C-FIND: the tags of its keys, those of a worklist's step after the others, and
/// the values of three of them. A value that is not asked for is empty.
#[derive(Drop)]
pub struct QuerySummary {
    pub keys: Listed<Tag>,
    pub modality: Listed<u8>,
    pub station: Listed<u8>,
    pub day: Listed<u8>,
}

/// An event to be logged: something that was served on a connection.
#[derive(Drop)]
pub enum LogEvent {
    /// An association was accepted at the institution of a name, with so many presentation contexts.
    Accepted {
        institution: Listed<u8>,
        titles: Titles,
        contexts: usize,
    },
    /// The connection was closed, as its association ended, or before there was one. The titles are
    /// those of its request, if that came.
    Closed {
        titles: Option<Titles>,
        end: AssociationEnd,
    },
    /// The connection ended.
    Ended,
    /// A message of a service was answered with a status, and a C-FIND with so many answers.
    Served {
        service: Service,
        status: u16,
        answers: usize,
        query: Option<QuerySummary>,
    },
}

/// A note, with the number of its connection.
#[derive(Drop)]
pub struct Note {
    pub number: u64,
    pub noted: LogEvent,
}

/// A note of a message while its responses are sent: the service, how many answers were sent, and
/// what a C-FIND asks for.
#[derive(Drop)]
pub(crate) struct ServedNote {
    pub service: Service,
    pub answers: usize,
    pub query: Option<QuerySummary>,
}

/// Notes in order, and how many there was no memory for.
#[derive(Drop)]
pub struct Notes {
    pub list: Vec<Note>,
    pub lost: u64,
    alloc: Global,
    is_kept: bool,
}

/// The notes of one event in order, before they have the number of its connection, and how many there
/// was no memory for.
#[derive(Drop)]
pub(crate) struct EventNotes {
    list: Vec<LogEvent>,
    lost: u64,
    alloc: Global,
    is_kept: bool,
}

impl Notes {
    ghost use Rattle.dq_core.specs.Notes.{AddsNotesOf};

    /// Nothing is noted.
    pub(crate) fn none(alloc: Global) -> Self
        ensures { (result.list.items ≡ []) × (result.lost ≡ 0) }
    {
        Notes {
            list: Vec::new(alloc),
            lost: 0,
            alloc,
            is_kept: false,
        }
    }

    /// Gives the notes away. From then on what is served is noted.
    pub(crate) fn give(&mut self) -> Notes
        ensures given { result ≡ self.old }
        ensures left { (self.new.list.items ≡ []) × (self.new.lost ≡ 0) × (self.new.is_kept ≡ true) }
    {
        let mut fresh = Notes::none(self.alloc);
        fresh.is_kept = true;
        mem::replace(self, fresh)
    }

    /// Returns the notes of an event, of which nothing is noted yet.
    pub(crate) fn of_event(&self) -> EventNotes {
        EventNotes {
            list: Vec::new(self.alloc),
            lost: 0,
            alloc: self.alloc,
            is_kept: self.is_kept,
        }
    }

    /// Adds the notes of an event on the connection with a number.
    pub(crate) fn add(&mut self, number: u64, event: EventNotes)
        ensures { AddsNotesOf number self.old.list.items self.new.list.items }
    {
        self.lost = self.lost.saturating_add(event.lost);
        for noted in event.list {
            if self.list.push(Note { number, noted }).is_err() {
                self.lost = self.lost.saturating_add(1);
            }
        }
    }

    /// The connection with a number ended.
    pub(crate) fn end(&mut self, number: u64)
        ensures { AddsNotesOf number self.old.list.items self.new.list.items }
    {
        let mut noted = self.of_event();
        noted.put(LogEvent::Ended);
        self.add(number, noted);
    }
}

impl EventNotes {
    fn put(&mut self, noted: LogEvent) {
        if self.is_kept && self.list.push(noted).is_err() {
            self.lose();
        }
    }

    fn lose(&mut self) {
        self.lost = self.lost.saturating_add(1);
    }

    /// An association of so many contexts is open at the institution of a name.
    pub(crate) fn accept(&mut self, name: &Listed<u8>, titles: Titles, contexts: usize) {
        match Listed::copy_of(self.alloc, name.as_slice()) {
            Ok(institution) => self.put(LogEvent::Accepted {
                institution,
                titles,
                contexts,
            }),
            Err(AllocError) => self.lose(),
        }
    }

    /// Notes the end by which a connection is closed, if it is.
    pub(crate) fn close(&mut self, titles: Option<Titles>, end: Option<AssociationEnd>) {
        if let Some(end) = end {
            self.put(LogEvent::Closed { titles, end });
        }
    }

    /// Returns what is to be noted of a message of a service, once its last response is sent: what
    /// the identifier of a C-FIND asks for, none of which is answered yet. Returns `None` if nothing
    /// is noted, or if there is no memory for it.
    pub(crate) fn begin(
        &mut self,
        service: Service,
        identifier: Option<DataSet>,
    ) -> Option<ServedNote>
        ensures { IfSome result (λ note. (note.service ≡ service) × (note.answers ≡ 0)
            × (option_map values_asked note.query ≡ option_map (asked_by service) identifier)) }
    {
        if !self.is_kept {
            return None;
        }
        let query = match identifier {
            Some(identifier) => match summary_of(self.alloc, service, &identifier) {
                Ok(query) => Some(query),
                Err(AllocError) => {
                    self.lose();
                    return None;
                }
            },
            None => None,
        };
        Some(ServedNote {
            service,
            answers: 0,
            query,
        })
    }

    /// The last response to a message was sent, with a status.
    pub(crate) fn serve(&mut self, note: Option<ServedNote>, status: u16) {
        let Some(
            ServedNote {
                service,
                answers,
                query,
            },
        ) = note
        else {
            return;
        };
        self.put(LogEvent::Served {
            service,
            status,
            answers,
            query,
        });
    }
}

/// The octets of an element, none where it is absent or a sequence.
fn octets_in(element: Option<&Element>) -> &[u8]
    ensures { result.now ≡ element_octets (option_copied element.entry) }
{
    match element {
        None => &[],
        Some(element) => match &element.value {
            Value::Octets(octets) => octets.as_slice(),
            Value::Items(_) => &[],
        },
    }
}

/// The first octets, as many as are noted.
fn front_of(octets: &[u8]) -> &[u8]
    ensures { result.now ≡ take noted_most octets.now }
{
    if octets.len() <= NOTED_MOST {
        octets
    } else {
        &octets[..NOTED_MOST]
    }
}

/// Returns the octets that are noted of an element of a data set.
fn noted_octets(
    alloc: Global,
    data_set: Option<&DataSet>,
    tag: Tag,
) -> Result<Listed<u8>, AllocError>
    ensures { IfOk result (λ octets. octets ≡ noted_octets tag (option_copied data_set.entry)) }
{
    match data_set {
        None => Ok(Listed::empty(alloc)),
        Some(data_set) => Listed::copy_of(alloc, front_of(octets_in(data_set.get(tag)))),
    }
}

/// Adds the tags of elements, as many as are noted.
fn add_tags(tags: &mut Listed<Tag>, elements: &[Element]) -> Result<(), AllocError> {
    for element in elements {
        if tags.len() < NOTED_MOST {
            tags.push(element.tag)?;
        }
    }
    Ok(())
}

/// Returns what the identifier of a study query asks for.
fn summary_of_studies(alloc: Global, identifier: &DataSet) -> Result<QuerySummary, AllocError>
    ensures { IfOk result (λ query. values_asked query ≡ asked_of_studies identifier.now) }
{
    let mut keys = Listed::empty(alloc);
    add_tags(&mut keys, identifier.elements())?;
    let mut modality = noted_octets(alloc, Some(identifier), tags::MODALITIES_IN_STUDY)?;
    if modality.is_empty() {
        modality = noted_octets(alloc, Some(identifier), tags::MODALITY)?;
    }
    Ok(QuerySummary {
        keys,
        modality,
        station: Listed::empty(alloc),
        day: noted_octets(alloc, Some(identifier), tags::STUDY_DATE)?,
    })
}

/// Returns what the identifier of a worklist query asks for.
fn summary_of_entries(alloc: Global, identifier: &DataSet) -> Result<QuerySummary, AllocError>
    ensures { IfOk result (λ query. values_asked query ≡ asked_of_entries identifier.now) }
{
    let step = sole_item_at(identifier, tags::SCHEDULED_PROCEDURE_STEP_SEQUENCE);
    let mut keys = Listed::empty(alloc);
    add_tags(&mut keys, identifier.elements())?;
    if let Some(step) = step {
        add_tags(&mut keys, step.elements())?;
    }
    Ok(QuerySummary {
        keys,
        modality: noted_octets(alloc, step, tags::MODALITY)?,
        station: noted_octets(alloc, step, tags::SCHEDULED_STATION_AE_TITLE)?,
        day: noted_octets(alloc, step, tags::SCHEDULED_PROCEDURE_STEP_START_DATE)?,
    })
}

/// Returns what the identifier of a service's C-FIND asks for.
fn summary_of(
    alloc: Global,
    service: Service,
    identifier: &DataSet,
) -> Result<QuerySummary, AllocError>
    ensures { IfOk result (λ query. values_asked query ≡ asked_by service identifier.now) }
{
    match service {
        Service::WorklistFind => summary_of_entries(alloc, identifier),
        _ => summary_of_studies(alloc, identifier),
    }
}
