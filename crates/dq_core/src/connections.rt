//! The connections that are held.

ghost use Rattle.std.specs.Prelude.{◌≡◌, ◌≢◌, ◌<◌, ◌^◌, ◌⊎◌, ℕ, List, [], Option, None, false, IfOk, IfErr, OnErr, IsOk, IsTrue, is_some, length, ◌&&◌, not};
ghost use Rattle.std.specs.Option.{option_copied};
ghost use Rattle.std.specs.Ordering.{nat_cmp};
ghost use Rattle.std.specs.Map.{remove_entry};
ghost use Rattle.std.specs.BTreeMap.{IsOrdered, is_at};
ghost use Rattle.std.specs.BTreeMap as map;
ghost use Rattle.std.specs.List.{list_any};
ghost use Rattle.slab.specs.Slab.{get, entries, Updates};
ghost use Rattle.dq_pdu.specs.Inboxes.{InboxAfter};
ghost use Rattle.dq_config.specs.declared.config.Institution.{Institution};
ghost use Rattle.dq_core.specs.declared.event.Event.{Event};
ghost use Rattle.dq_core.specs.declared.event.Reply.{Reply};
ghost use Rattle.dq_core.specs.Connections.{Connection, connection_in, is_pending};
ghost use Rattle.dq_core.specs.Histories.{is_above};
ghost use Rattle.dq_core.specs.Shared.{World, turn};
ghost use Rattle.dq_core.specs.Stepping.{HealthAfter, MayLeaveAfter, IsPartOf};
ghost use Rattle.dq_tables.specs.declared.row.Row.{Row};
ghost use Rattle.dq_core.specs.declared.slot.Slot.{Slot as TheSlot};
ghost use Rattle.dq_core.specs.Additions.{log_at, with_log, owner_place};
ghost use Rattle.dq_core.specs.Notes.{AddsNotesOf};
ghost use Rattle.dq_core.specs.OpenAssociations.{IsTallied, tally_of_name};
ghost use Rattle.dq_core.specs.Slots.{IsUnsearched, is_searching, has_slot, has_search, titles_at, AreHeld, IsHeld, StandsAt, Turned, Took, owner_at, verdict_for, without_association};

use crate::additions::Additions;
use crate::event::Reply;
use crate::fault::Fault;
use crate::notes::{EventNotes, Notes, Titles};
use crate::open_associations::{OpenAssociations, place_of};
use crate::slot::{Called, Slot, Taken};
use dq_archive::Addition;
use dq_assoc::Verdict;
use dq_assoc::laws::{a_longer_stream_adds_inputs, an_association_after_pdus};
use dq_config::laws::{a_name_is_of_one, a_pair_is_of_one};
use dq_config::{Config, Institution};
use dq_list::Listed;
use dq_pdu::Pdu;
use dq_tables::Tables;
use slab::Slab;
use std::alloc::{AllocError, Global};
use std::collections::BTreeMap;

/// How many slots of connections that ended are kept for those that are opened.
const MOST_SPARES: usize = 16;

/// The connections that are held, and the configuration that says whose they are. The slot of each
/// stands at a place that does not change, which is found by its number. A few slots of connections
/// that ended are used again. While a C-FIND is open at an institution, what is added there is kept.
#[derive(Drop)]
pub(crate) struct Connections {
    pub config: Config,
    pub slots: Slab<Slot>,
    pub places: BTreeMap<u64, usize>,
    pub spares: Vec<Slot>,
    pub tally: OpenAssociations,
    pub additions: Additions,
    pub newest: Option<u64>,
}

impl Connections {
    /// None is held.
    pub(crate) fn new(alloc: Global, config: Config) -> Result<Self, AllocError>
        ensures config { IfOk result (λ held. held.config ≡ config) }
        ensures none { IfOk result (λ held. (rows : List Row) → AreHeld config rows held []) }
        ensures newest { IfOk result (λ held. held.newest ≡ None) }
    {
        let tally = OpenAssociations::new(alloc, &config)?;
        let additions = Additions::new(alloc, &config)?;
        Ok(Connections {
            config,
            slots: Slab::new(alloc),
            places: BTreeMap::new(alloc),
            spares: Vec::with_capacity(alloc, MOST_SPARES)?,
            tally,
            additions,
            newest: None,
        })
    }

    /// Lets the connections go.
    pub(crate) fn clear(&mut self)
        ensures config { self.new.config ≡ self.old.config }
        ensures newest { self.new.newest ≡ self.old.newest }
        ensures additions { self.new.additions.logs.items ≡ [] }
    {
        self.places.clear();
        self.slots.clear();
        self.spares.clear();
        self.additions.logs.clear();
    }

    /// There are not too many connections to be counted.
    fn is_sound(&self)
        ensures { length self.now.places.entries < 2 ^ 63 }
    {
        let _count = self.places.len();
    }

    /// The place of the slot with a number.
    fn place_of(&self, number: u64) -> Option<usize>
        ensures { result ≡ map.get nat_cmp self.now.places number }
    {
        self.places.get(&number).copied()
    }

    /// Whether a connection is held under a number.
    pub(crate) fn is_held(&self, number: u64) -> bool
        ensures stands { (rows : List Row) (connections : List Connection) →
            AreHeld self.now.config rows self.now connections →
            result ≡ is_some (connection_in number connections) }
        ensures told { result ≡ has_slot number self.now }
    {
        self.place_of(number).is_some()
    }

    /// Whether a C-FIND is open on the connection that is held under a number.
    pub(crate) fn is_pending(&self, number: u64) -> bool
        ensures stands { (rows : List Row) (connections : List Connection) →
            AreHeld self.now.config rows self.now connections →
            result ≡ is_pending number connections }
        ensures told { result ≡ has_search number self.now }
    {
        let Some(place) = self.place_of(number) else {
            return false;
        };
        match self.slots.get(place) {
            Some(slot) => slot.query.is_some(),
            None => false,
        }
    }

    /// The titles of the request on the connection that is held under a number, once it is whole.
    pub(crate) fn titles(&self, number: u64) -> Option<Titles>
        ensures { result ≡ titles_at number self.now }
    {
        let place = self.place_of(number)?;
        match self.slots.get(place) {
            Some(slot) => slot.titles,
            None => None,
        }
    }

    /// Takes the slot with a number out of its place.
    fn remove(&mut self, number: u64, place: usize)
        ensures slots { Updates self.old.slots self.new.slots place None }
        ensures places { self.new.places.entries
            ≡ remove_entry (is_at (nat_cmp number)) self.old.places.entries }
        ensures ordered { IsOrdered nat_cmp self.new.places }
        ensures config { self.new.config ≡ self.old.config }
        ensures tally { self.new.tally ≡ self.old.tally }
        ensures additions { self.new.additions ≡ self.old.additions }
        ensures newest { self.new.newest ≡ self.old.newest }
    {
        self.places.remove(&number);
        if let Some(slot) = self.slots.try_remove(place) {
            keep_spare(&mut self.spares, slot);
        }
    }

    /// Opens a connection.
    pub(crate) fn open(&mut self, alloc: Global, number: u64) -> Result<Reply, AllocError>
        requires { IsTrue (is_above self.old.newest number) }
        ensures turned { (world : World) →
            AreHeld self.old.config world.rows self.old world.connections →
            IfOk result (λ reply.
            Turned self.old.config (turn self.old.config world (Event.Open number)) reply
            world.rows world.rows self.new) }
        ensures newest { IfOk result (λ _. self.new.newest ≡ Some number) }
        ensures config { self.new.config ≡ self.old.config }
    {
        let slot = slot_for(alloc, &mut self.spares, number);
        let place = self.slots.insert(slot)?;
        self.places.insert(number, place)?;
        self.newest = Some(number);
        Ok(Reply::Done)
    }

    /// Answers a piece, and ends the connection where the answer closes it.
    #[tactic(auto, using(crate::proofs::Noting::none_added))]
    pub(crate) fn answer_piece<T: Tables>(
        &mut self,
        tables: &mut T,
        number: u64,
        piece: &[u8],
        notes: &mut Notes,
    ) -> Result<Reply, Fault>
        ensures goes { HealthAfter (T.state tables.old) (T.state tables.new) result }
        ensures turned { (world : World) →
            AreHeld self.old.config world.rows self.old world.connections →
            (T.state tables.old).rows ≡ world.rows → (T.state tables.new).honest →
            IfOk result (λ reply. Turned self.old.config
            (turn self.old.config world (Event.Piece number piece.now)) reply
            world.rows (T.state tables.new).rows self.new) }
        ensures part { (world : World) →
            AreHeld self.old.config world.rows self.old world.connections →
            (T.state tables.old).rows ≡ world.rows → (T.state tables.new).honest →
            OnErr result (
            IsPartOf (turn self.old.config world (Event.Piece number piece.now)).operations
            world.rows (T.state tables.new).rows
            (MayLeaveAfter (T.state tables.old) (T.state tables.new))) }
        ensures fault { IfErr result (λ fault. fault ≢ Fault.Stopped) }
        ensures quiet { (rows : List Row) (connections : List Connection) →
            AreHeld self.old.config rows self.old connections →
            (piece.now ≡ []) ⊎ (connection_in number connections ≡ None) → IsOk result }
        ensures always { (piece.now ≡ []) ⊎ (has_slot number self.old ≡ false) → IsOk result }
        ensures config { self.new.config ≡ self.old.config }
        ensures newest { self.new.newest ≡ self.old.newest }
        ensures noted { AddsNotesOf number notes.old.list.items notes.new.list.items }
        // A fault adds no note, not even of an operation before it in the same piece.
        ensures unnoted { OnErr result (notes.new ≡ notes.old) }
    {
        an_association_after_pdus();
        a_name_is_of_one();
        self.config.is_sound();
        self.is_sound();
        let alloc = tables.alloc();
        let Some(place) = self.place_of(number) else {
            return Ok(Reply::Ignored);
        };
        if piece.is_empty() {
            return Ok(octets_reply(number, Vec::new(alloc), false));
        }
        let Some(slot) = self.slots.get_mut(place) else {
            return Ok(Reply::Ignored);
        };
        let was_open = slot.institution.is_some();
        let (owner, taken) = take_piece(alloc, &self.config, &self.tally, slot, piece)?;
        let (close, end) = (taken.step.close, taken.step.end);
        let is_open = stays_open(slot, close);
        let titles = slot.titles;
        let mut noted = notes.of_event();
        note_acceptance(&mut noted, slot, was_open);
        let at = owner_place(&self.config, owner);
        let mut log = take_log(alloc, &self.slots, &mut self.additions, at, owner);
        let Some(slot) = self.slots.get_mut(place) else {
            return Ok(Reply::Ignored);
        };
        let octets = slot.answer(owner, taken, tables, &mut log, &mut noted)?;
        self.additions.put(at, log);
        noted.close(titles, end);
        notes.add(number, noted);
        self.tally.retally(&self.config, owner, was_open, is_open);
        if close {
            self.remove(number, place);
        }
        Ok(octets_reply(number, octets, close))
    }

    /// Answers a pull with the next page of the C-FIND that is open. Where none is, it takes no
    /// memory.
    #[tactic(auto, using(crate::proofs::Noting::none_added))]
    pub(crate) fn answer_pull<T: Tables>(
        &mut self,
        tables: &mut T,
        number: u64,
        notes: &mut Notes,
    ) -> Result<Reply, Fault>
        ensures goes { HealthAfter (T.state tables.old) (T.state tables.new) result }
        ensures turned { (world : World) →
            AreHeld self.old.config world.rows self.old world.connections →
            (T.state tables.old).rows ≡ world.rows → (T.state tables.new).honest →
            IfOk result (λ reply.
            Turned self.old.config (turn self.old.config world (Event.Pull number)) reply
            world.rows (T.state tables.new).rows self.new) }
        ensures part { (world : World) → (T.state tables.old).rows ≡ world.rows →
            (T.state tables.new).honest → OnErr result (
            IsPartOf (turn self.old.config world (Event.Pull number)).operations
            world.rows (T.state tables.new).rows
            (MayLeaveAfter (T.state tables.old) (T.state tables.new))) }
        ensures fault { IfErr result (λ fault. fault ≢ Fault.Stopped) }
        ensures quiet { (rows : List Row) (connections : List Connection) →
            AreHeld self.old.config rows self.old connections →
            is_pending number connections ≡ false → IsOk result }
        ensures always { has_search number self.old ≡ false → IsOk result }
        ensures config { self.new.config ≡ self.old.config }
        ensures newest { self.new.newest ≡ self.old.newest }
        ensures noted { AddsNotesOf number notes.old.list.items notes.new.list.items }
        ensures unnoted { OnErr result (notes.new ≡ notes.old) }
    {
        let Some(place) = self.place_of(number) else {
            return Ok(Reply::Ignored);
        };
        let Some(slot) = self.slots.get_mut(place) else {
            return Ok(Reply::Ignored);
        };
        let mut noted = notes.of_event();
        let octets = slot.send_page(&self.config, &self.additions, tables, &mut noted)?;
        notes.add(number, noted);
        Ok(octets_reply(number, octets, false))
    }

    /// Ends a connection.
    pub(crate) fn end(&mut self, number: u64) -> Reply
        ensures turned { (world : World) →
            AreHeld self.old.config world.rows self.old world.connections →
            Turned self.old.config (turn self.old.config world (Event.End number)) result
            world.rows world.rows self.new }
        ensures config { self.new.config ≡ self.old.config }
        ensures newest { self.new.newest ≡ self.old.newest }
    {
        an_association_after_pdus();
        let Some(place) = self.place_of(number) else {
            return Reply::Ignored;
        };
        end_association(&self.config, &mut self.tally, self.slots.get(place));
        self.remove(number, place);
        Reply::Done
    }
}

/// A slot of a connection that is opened: a spare one, if there is one. It takes no memory.
fn slot_for(alloc: Global, spares: &mut Vec<Slot>, number: u64) -> Slot
    ensures number { result.number ≡ number }
    ensures inbox { InboxAfter [] result.inbox }
    ensures stands { (institution : Option Institution) → StandsAt institution result [] }
    ensures query { result.query ≡ None }
{
    match spares.pop() {
        Some(mut slot) => {
            slot.reset(number);
            slot
        }
        None => Slot::new(alloc, number),
    }
}

/// Keeps a slot for another connection, where there is room. It is reset before it waits, so that a
/// spare holds neither a message that was coming nor more room than an inbox keeps.
fn keep_spare(spares: &mut Vec<Slot>, mut slot: Slot) {
    if spares.len() < spares.capacity() {
        let number = slot.number;
        slot.reset(number);
        spares.push_reserved(slot);
    }
}

/// The institution of a slot after more PDUs: the slot's own, or before it has one, that of a
/// request.
fn owner_of<'a>(config: &'a Config, slot: &Slot, pdus: &[Pdu]) -> Option<&'a Institution>
    ensures { option_copied result ≡ owner_at config.now slot.now pdus.now }
{
    match &slot.institution {
        Some(name) => config.institution(name.as_slice()),
        None => match pdus.first() {
            Some(Pdu::Request(request)) => config.route(&request.called, &request.calling),
            _ => None,
        },
    }
}

/// Returns the verdict on the titles of a connection: either an institution has the connection, and
/// takes one more association or does not, or no institution has it.
fn verdict_for(
    config: &Config,
    tally: &OpenAssociations,
    institution: Option<&Institution>,
) -> Verdict
    ensures { result ≡ verdict_for (tally_of_name config.now tally.now.counts.items)
        (option_copied institution.entry) }
{
    let Some(institution) = institution else {
        return Verdict::Nowhere;
    };
    if tally.count(config, institution.name.as_slice()) < institution.associations as usize {
        Verdict::Accept
    } else {
        Verdict::Busy
    }
}

/// Where the institution that has a connection stands in the configuration.
fn owner_place(config: &Config, owner: Option<&Institution>) -> Option<usize>
    ensures { result ≡ owner_place config.now (option_copied owner.entry) }
{
    place_of(config, owner?.name.as_slice())
}

/// Whether a C-FIND is open on a connection of an institution.
fn is_searched(slots: &Slab<Slot>, name: &[u8]) -> bool
    ensures { result ≡ list_any (λ (e : ℕ × TheSlot). is_searching name.now e.1)
        (entries slots.now) }
{
    for entry in slots.iter() {
        let (_, slot) = entry;
        if slot.is_searching(name) {
            return true;
        }
    }
    false
}

/// Takes the log of an institution's additions, which is begun anew where no C-FIND is open there.
fn take_log(
    alloc: Global,
    slots: &Slab<Slot>,
    additions: &mut Additions,
    place: Option<usize>,
    owner: Option<&Institution>,
) -> Listed<Addition>
    ensures left { additions.new.logs.items ≡ with_log additions.old.logs.items place [] }
    ensures taken { (result ≡ log_at additions.old.logs.items place)
        ⊎ IsUnsearched slots.now (option_copied owner.entry) }
    ensures begun_anew { IsUnsearched slots.now (option_copied owner.entry) → result ≡ [] }
{
    let log = additions.take(alloc, place);
    let Some(institution) = owner else {
        return log;
    };
    if is_searched(slots, institution.name.as_slice()) {
        return log;
    }
    Listed::empty(alloc)
}

/// Whether a connection has an association after what was taken.
fn stays_open(slot: &Slot, close: bool) -> bool
    ensures { result ≡ (is_some slot.now.institution && not close) }
{
    slot.institution.is_some() && !close
}

/// Counts the association of a connection that ends, where it has one.
fn end_association(config: &Config, tally: &mut OpenAssociations, slot: Option<&Slot>)
    ensures { tally.new.counts.items
        ≡ without_association config.now tally.old.counts.items (option_copied slot.entry) }
{
    let Some(slot) = slot else {
        return;
    };
    if let Some(name) = &slot.institution {
        tally.ended(config, name.as_slice());
    }
}

/// Notes the association that a connection has, if it has one and had none before.
fn note_acceptance(notes: &mut EventNotes, slot: &Slot, was_open: bool) {
    if was_open {
        return;
    }
    let agreement = slot.association.agreement();
    if let (Some(name), Some(agreement), Some(titles)) = (
        &slot.institution,
        agreement,
        slot.titles,
    ) {
        notes.accept(name, titles, agreement.contexts.len());
    }
}

/// Takes a piece on the connection that has a slot: gives the institution that has the connection,
/// and what is to be answered.
fn take_piece<'a>(
    alloc: Global,
    config: &'a Config,
    tally: &OpenAssociations,
    slot: &mut Slot,
    piece: &[u8],
) -> Result<(Option<&'a Institution>, Taken), AllocError>
    ensures { (world : World) (c : Connection) → IsHeld config.now slot.old c →
        IsTallied config.now tally.now.counts.items world.connections → IfOk result (λ x.
        Took config.now world c piece.now (option_copied x.0) x.1 slot.old slot.new) }
{
    a_longer_stream_adds_inputs();
    an_association_after_pdus();
    a_name_is_of_one();
    a_pair_is_of_one();
    config.is_sound();
    let Ok(fed) = slot.inbox.feed(piece) else {
        return Err(AllocError);
    };
    let institution = owner_of(config, slot, fed.pdus.as_slice());
    let called = Called {
        institution,
        verdict: verdict_for(config, tally, institution),
    };
    let taken = slot.take(alloc, called, fed)?;
    Ok((institution, taken))
}

fn octets_reply(number: u64, octets: Vec<u8>, close: bool) -> Reply
    ensures { result ≡ Reply.Octets number octets.items close }
{
    Reply::Octets {
        conn: number,
        octets: Listed::from_inner(octets),
        close,
    }
}
