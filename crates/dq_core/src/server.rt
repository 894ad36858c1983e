ghost use Rattle.std.specs.Prelude.{◌≡◌, ◌≢◌, ◌<◌, ◌≤◌, ◌↔◌, ◌⊎◌, ℕ, vec_capacity, List, ◌∷◌, [], ◌++◌, length, take, filter, Contains, Some, None, true, false, IsTrue, is_some, IsOk, IfOk, OnOk, IfErr, OnErr, IsErrOf, MatchResult};
ghost use Rattle.dq_config.specs.declared.config.Institution.{Institution};
ghost use Rattle.dq_tables.specs.declared.row.Row.{Row};
ghost use Rattle.dq_tables.specs.TableStates.{IsSettled};
ghost use Rattle.dq_tables.specs.Rows.{of};
ghost use Rattle.dq_core.specs.Connections.{connection_in, is_pending};
ghost use Rattle.dq_core.specs.Shared.{World, turn, world_after, replies};
ghost use Rattle.dq_core.specs.Owners.{owner};
ghost use Rattle.dq_core.specs.Own.{is_own_event, own, is_on_connection, stream_of, replies_at};
ghost use Rattle.dq_core.specs.Isolation.{replies_alone, world_alone, stranger_replies};
ghost use Rattle.dq_core.specs.Runs.{IsRun, IsLeftOf, FaultsAfter, HasNoRoom, IsOwnRun, IsRunByRecords, IsWholeByRecords};
ghost use Rattle.dq_core.specs.Soundness.{HoldSound, BringOctets};
ghost use Rattle.dq_core.specs.Conversations.{IsAnsweredRun};
ghost use Rattle.dq_core.specs.Histories.{is_above, newest_after, rises_from, is_well_formed_history};
ghost use Rattle.dq_core.specs.Stepping.{Opens, TakesNoMemory, HealthAfter, MayLeaveAfter, IsPartOf};
ghost use Rattle.dq_core.specs.Slots.{has_slot, has_search, titles_at, AreHeld, Turned};
ghost use Rattle.dq_core.specs.ServerView.{IsQuiet, IsWorking, Refines};
ghost use Rattle.dq_core.specs.Looking.{Looked, FailsToLook};

use crate::brought_octets::bring_octets;
use crate::connections::Connections;
use crate::event::{Event, Reply};
use crate::fault::Fault;
use crate::laws::{
    associations_are_answered_in_full, institutions_are_answered_by_records,
    institutions_are_isolated, institutions_have_own_names, runs_are_isolated,
};
use crate::notes::{Notes, Titles};
use crate::orders::{schedule_entry, withdraw_entry};
use crate::table_inspection::TableInspection;
use dq_config::{Config, Institution};
use dq_list::Listed;
use dq_tables::Tables;
use std::alloc::{AllocError, Global};
use std::marker::Model;

/// The server between two events: the connections that it holds, and the keeper of its rows.
#[derive(Drop)]
pub struct Server<T> {
    alloc: Global,
    connections: Connections,
    tables: T,
    spent: bool,
    notes: Notes,
}

impl<T> Model for Server<T> {
    ghost use Rattle.std.specs.Coded.{codes};
    ghost use Rattle.dq_dataset.specs.contracts.data_set.DataSet as data_set;
    ghost use Rattle.slab.specs.Slab.{slab_code};
    ghost use Rattle.std_collections.specs.Layout.BTreeMap.{btree_map_code};
    ghost use Rattle.dq_core.specs.ServerView.{ServerView};

    ghost Value = { ServerView T };

    ghost coded = { Prim.hlevel (codes, data_set.the_row.coded, T.code, slab_code, btree_map_code) };

    ghost view = { λ a. record {
      institutions = a.connections.config;
      tables = a.tables;
      slots = a.connections;
      newest = a.connections.newest;
      spent = a.spent;
    } };
}

/// The outcome of a run: its replies, the fault that stopped it, if one did, and the tables, which
/// keep the rows.
#[derive(Drop)]
pub struct Outcome<T> {
    pub replies: Listed<Reply>,
    pub fault: Option<Fault>,
    pub tables: T,
}

impl<T: Tables> Server<T> {
    /// A server that holds no connection, over the rows that are there. The only fault is want of
    /// memory.
    pub fn new(alloc: Global, config: Config, tables: T) -> Result<Self, Fault>
    where
        T: Drop,
        requires { (T.state tables).failed ≡ false }
        ensures stands { IfOk result (λ server. Refines T.state (T.state tables).rows server []) }
        ensures institutions { IfOk result (λ server. server.institutions ≡ config) }
        ensures tables { IfOk result (λ server. server.tables ≡ tables) }
        ensures working { IfOk result (IsWorking T.state) }
        ensures fault { IfErr result (λ fault. fault ≡ Fault.NoMemory) }
    {
        let connections = Connections::new(alloc, config)?;
        Ok(Server::over(alloc, connections, tables))
    }

    /// A server over the rows that are there, with connections of which none is held yet.
    fn over(alloc: Global, connections: Connections, tables: T) -> Self
        requires none { (rows : List Row) → AreHeld connections.config rows connections [] }
        requires first { connections.newest ≡ None }
        requires working { (T.state tables).failed ≡ false }
        ensures stands { Refines T.state (T.state tables).rows result [] }
        ensures institutions { result.institutions ≡ connections.config }
        ensures tables { result.tables ≡ tables }
    {
        Server {
            alloc,
            connections,
            tables,
            spent: false,
            notes: Notes::none(alloc),
        }
    }

    /// Whether a number may be opened: it is above all that were opened before.
    pub fn can_open(&self, number: u64) -> bool
        ensures { result ≡ is_above self.now.newest number }
    {
        is_above(self.connections.newest, number)
    }

    /// Whether a connection is held under a number: it was opened, and neither ended nor closed.
    /// After a fault none is held.
    pub fn holds(&self, number: u64) -> bool
        ensures stands { (rows : List Row) (events : List Event) →
            Refines T.state rows self.now events →
            let world = world_after self.now.institutions rows events in
            result ≡ is_some (connection_in number world.connections) }
        ensures told { self.now.spent ≡ false → result ≡ has_slot number self.now.slots }
        ensures spent { self.now.spent ≡ true → result ≡ false }
    {
        !self.spent && self.connections.is_held(number)
    }

    /// Whether a C-FIND is open on the connection that is held under a number: there are answers
    /// that a pull brings. After a fault none is open.
    pub fn pending(&self, number: u64) -> bool
        ensures stands { (rows : List Row) (events : List Event) →
            Refines T.state rows self.now events →
            let world = world_after self.now.institutions rows events in
            result ≡ is_pending number world.connections }
        ensures told { self.now.spent ≡ false → result ≡ has_search number self.now.slots }
        ensures spent { self.now.spent ≡ true → result ≡ false }
    {
        !self.spent && self.connections.is_pending(number)
    }

    /// The titles of the request on the connection that is held under a number, once it is whole.
    pub fn titles(&self, number: u64) -> Option<Titles>
        ensures { result ≡ titles_at number self.now.slots }
    {
        self.connections.titles(number)
    }

    /// The institutions that share the server, in the order of the configuration.
    pub fn institutions(&self) -> &[Institution]
        ensures { result.now ≡ self.now.institutions }
    {
        self.connections.config.institutions()
    }

    /// Returns the tables, which keep the rows.
    pub fn tables(&self) -> &T
        ensures { result.now ≡ self.now.tables }
    {
        &self.tables
    }

    /// Returns the tables, which keep the rows, when the server is done.
    pub fn into_tables(self) -> T
        ensures { result ≡ self.tables }
    {
        let Server {
            alloc: _,
            connections: _,
            tables,
            spent: _,
            notes: _,
        } = self;
        tables
    }

    /// Answers the next event. After a fault every event is answered Stopped, and changes nothing.
    pub fn step(&mut self, event: Event) -> Result<Reply, Fault>
        requires { Opens self.old.newest event }
        // Whatever history the server stands for, the reply is that of the plain server.
        ensures reply { (rows : List Row) (events : List Event) →
            Refines T.state rows self.old events → (T.state self.new.tables).honest →
            IfOk result (λ reply. reply ≡ (turn self.old.institutions
            (world_after self.old.institutions rows events) event).reply) }
        ensures stands { (rows : List Row) (events : List Event) →
            Refines T.state rows self.old events → (T.state self.new.tables).honest →
            OnOk result (Refines T.state rows self.new (events ++ event ∷ [])) }
        // At a fault the first of the event's operations were made. A crash may leave no others,
        // but for the next one.
        ensures part { (rows : List Row) (events : List Event) →
            Refines T.state rows self.old events → (T.state self.new.tables).honest →
            OnErr result (let world = world_after self.old.institutions rows events in
            IsPartOf (turn self.old.institutions world event).operations world.rows
            (T.state self.new.tables).rows
            (MayLeaveAfter (T.state self.old.tables) (T.state self.new.tables))) }
        // An end, a piece or a pull for a number that is not held, an empty piece, and a pull where
        // no C-FIND is open take no memory, and leave the tables alone.
        ensures quiet { (rows : List Row) (events : List Event) →
            Refines T.state rows self.old events →
            TakesNoMemory (world_after self.old.institutions rows events).connections event →
            IsOk result }
        // So it is whatever the tables did before: of an end, an empty piece, a piece for a number
        // that is not held as `holds` tells, and a pull where none is open as `pending` tells.
        ensures always { IsQuiet self.old.slots event → self.old.spent ≡ false → IsOk result }
        ensures institutions { self.new.institutions ≡ self.old.institutions }
        ensures newest { OnOk result (self.new.newest ≡ newest_after self.old.newest (event ∷ [])) }
        ensures unspent { OnOk result (self.new.spent ≡ false) }
        ensures goes { HealthAfter (T.state self.old.tables) (T.state self.new.tables) result }
        // Tables that have failed spend the server. Store is answered only where they failed in
        // this step.
        ensures working { IsWorking T.state self.old → IsWorking T.state self.new }
        ensures store { IsWorking T.state self.old → IsErrOf result Fault.Store →
            ((T.state self.old.tables).failed ≡ false)
            × ((T.state self.new.tables).failed ≡ true) }
        ensures stopped { IsErrOf result Fault.Stopped ↔ (self.old.spent ≡ true) }
        ensures unchanged { self.old.spent ≡ true → self.new ≡ self.old }
        ensures fault { OnErr result (self.new.spent ≡ true) }
    {
        if self.spent {
            return Err(Fault::Stopped);
        }
        match self.turn(event) {
            Ok(reply) => Ok(reply),
            Err(fault) => {
                self.spend();
                Err(fault)
            }
        }
    }

    /// The notes of what was served since it was last asked, for a log. What was served before it
    /// was asked first is not noted.
    pub fn take_notes(&mut self) -> Notes
        ensures { self.new ≡ self.old }
    {
        self.notes.give()
    }

    /// Looks at what keeps the rows. It is not an event, and changes nothing. After a fault, of a step
    /// or of a look, every look returns `Stopped`.
    pub fn look<L: TableInspection<T>>(&mut self, look: &L) -> Result<L::Seen, Fault>
        ensures shows { (T.state self.new.tables).honest → IfOk result
            (L.shows look.now self.old.institutions (T.state self.old.tables).rows) }
        ensures looked { OnOk result (Looked T.state self.old self.new) }
        ensures fails { IfErr result (FailsToLook T.state self.old self.new) }
        // It fails after a fault, and otherwise only where the inspection may.
        ensures spent { OnOk result (self.old.spent ≡ false) }
        ensures may_fail { OnErr result (self.old.spent ≡ false → L.may_fail look.now) }
        ensures working { IsWorking T.state self.old → IsWorking T.state self.new }
    {
        if self.spent {
            Err(Fault::Stopped)
        } else {
            match look.look(&self.connections.config, &mut self.tables) {
                Ok(seen) => Ok(seen),
                Err(fault) => {
                    self.spend();
                    Err(Fault::from(fault))
                }
            }
        }
    }

    /// Lets the connections go. From then on nothing is answered.
    fn spend(&mut self)
        ensures spent { self.new.spent ≡ true }
        ensures keeps { (self.new.institutions ≡ self.old.institutions)
            × (self.new.tables ≡ self.old.tables) × (self.new.newest ≡ self.old.newest) }
    {
        self.connections.clear();
        self.spent = true;
    }

    /// Does what an event asks for.
    fn turn(&mut self, event: Event) -> Result<Reply, Fault>
        requires { Opens self.old.newest event }
        ensures goes { HealthAfter (T.state self.old.tables) (T.state self.new.tables) result }
        ensures turned { (world : World) →
            AreHeld self.old.institutions world.rows self.old.slots world.connections →
            (T.state self.old.tables).rows ≡ world.rows → (T.state self.new.tables).honest →
            IfOk result (λ reply. Turned self.old.institutions
            (turn self.old.institutions world event) reply world.rows (T.state self.new.tables).rows
            self.new.slots) }
        ensures part { (world : World) →
            AreHeld self.old.institutions world.rows self.old.slots world.connections →
            (T.state self.old.tables).rows ≡ world.rows → (T.state self.new.tables).honest →
            OnErr result (IsPartOf (turn self.old.institutions world event).operations world.rows
            (T.state self.new.tables).rows
            (MayLeaveAfter (T.state self.old.tables) (T.state self.new.tables))) }
        ensures newest { OnOk result (self.new.newest ≡ newest_after self.old.newest (event ∷ [])) }
        ensures quiet { (world : World) →
            AreHeld self.old.institutions world.rows self.old.slots world.connections →
            TakesNoMemory world.connections event → IsOk result }
        ensures always { IsQuiet self.old.slots event → IsOk result }
        ensures keeps { (self.new.institutions ≡ self.old.institutions)
            × (self.new.spent ≡ self.old.spent) }
        ensures fault { IfErr result (λ fault. fault ≢ Fault.Stopped) }
    {
        match event {
            Event::Open(number) => Ok(self.connections.open(self.alloc, number)?),
            Event::Piece(number, piece) => {
                let piece = piece.as_slice();
                self.connections
                    .answer_piece(&mut self.tables, number, piece, &mut self.notes)
            }
            Event::End(number) => {
                self.notes.end(number);
                Ok(self.connections.end(number))
            }
            Event::Pull(number) => {
                self.connections
                    .answer_pull(&mut self.tables, number, &mut self.notes)
            }
            Event::Schedule { inst, octets } => schedule_entry(
                &self.connections.config,
                inst.as_slice(),
                octets.as_slice(),
                &mut self.tables,
            ),
            Event::Withdraw { inst, id } => withdraw_entry(
                &self.connections.config,
                inst.as_slice(),
                id.as_slice(),
                &mut self.tables,
            ),
        }
    }
}

/// Whether opened numbers rise strictly.
pub fn well_formed(events: &[Event]) -> bool
    ensures { result ≡ is_well_formed_history events.now }
{
    let mut newest = None;
    for event in events {
        if let Event::Open(number) = event {
            if !is_above(newest, *number) {
                return false;
            }
            newest = Some(*number);
        }
    }
    true
}

fn is_above(newest: Option<u64>, number: u64) -> bool
    ensures { result ≡ is_above newest number }
{
    match newest {
        None => true,
        Some(newest) => newest < number,
    }
}

/// Answers events in order up to a fault, and adds the replies, for which there is room.
fn answer_all<T: Tables>(
    server: &mut Server<T>,
    events: Vec<Event>,
    given: &mut Vec<Reply>,
) -> Result<(), Fault>
    requires formed { IsTrue (rises_from server.old.newest events.items) }
    requires unspent { server.old.spent ≡ false }
    requires empty { given.old.items ≡ [] }
    requires room { length events.items ≤ vec_capacity given.old }
    ensures ran { (rows : List Row) → Refines T.state rows server.old [] →
        (T.state server.new.tables).honest →
        IsRun server.old.institutions rows events.items given.new.items
        (T.state server.new.tables).rows }
    ensures faulted { (rows : List Row) → Refines T.state rows server.old [] →
        (T.state server.new.tables).honest →
        OnErr result (FaultsAfter server.old.institutions rows events.items
        (length given.new.items)) }
    ensures crash { (rows : List Row) → Refines T.state rows server.old [] →
        (T.state server.new.tables).honest → OnErr result (IsSettled (T.state server.old.tables) →
        (r : List Row) → (T.state server.new.tables).may_leave r →
        IsLeftOf server.old.institutions rows events.items given.new.items
        (T.state server.new.tables).rows r) }
    ensures whole { (rows : List Row) → Refines T.state rows server.old [] →
        (T.state server.new.tables).honest →
        OnOk result (Refines T.state rows server.new events.items) }
    ensures count { MatchResult result
        (λ _. length given.new.items ≡ length events.items)
        (λ fault. (length given.new.items < length events.items) × (fault ≢ Fault.Stopped)) }
    ensures institutions { server.new.institutions ≡ server.old.institutions }
    ensures goes { HealthAfter (T.state server.old.tables) (T.state server.new.tables) result }
{
    for event in events {
        let reply = server.step(event)?;
        given.push(reply)?;
    }
    Ok(())
}

impl<T> Outcome<T> {
    /// A run that answers no event. It takes no memory.
    fn without_replies(alloc: Global, fault: Option<Fault>, tables: T) -> Self
        ensures replies { result.replies ≡ [] }
        ensures fault { result.fault ≡ fault }
        ensures tables { result.tables ≡ tables }
    {
        Outcome {
            replies: Listed::empty(alloc),
            fault,
            tables,
        }
    }
}

/// Returns what a run needs to begin: connections of which none is held, and room for so many
/// replies.
fn room_for(
    alloc: Global,
    config: Config,
    count: usize,
) -> Result<(Connections, Vec<Reply>), AllocError>
    ensures config { IfOk result (λ room. room.0.config ≡ config) }
    ensures none { IfOk result (λ room. (rows : List Row) → AreHeld config rows room.0 []) }
    ensures newest { IfOk result (λ room. room.0.newest ≡ None) }
    ensures empty { IfOk result (λ room. room.1.items ≡ []) }
    ensures room { IfOk result (λ room. count ≤ vec_capacity room.1) }
{
    let connections = Connections::new(alloc, config)?;
    let given = Vec::with_capacity(alloc, count)?;
    Ok((connections, given))
}

/// Answers a whole history. It makes room for all replies before the first event, so that none is
/// lost, and gives the tables back whatever happens.
fn answer_history<T: Tables>(
    alloc: Global,
    config: Config,
    tables: T,
    events: Vec<Event>,
) -> Outcome<T>
    requires formed { IsTrue (is_well_formed_history events.items) }
    requires sound { (T.state tables).failed ≡ false }
    ensures rows { (T.state result.tables).honest → result.fault ≡ None →
        (T.state result.tables).rows
        ≡ (world_after config (T.state tables).rows events.items).rows }
    ensures ran { (T.state result.tables).honest →
        IsRun config (T.state tables).rows events.items result.replies
        (T.state result.tables).rows }
    ensures faulted { (T.state result.tables).honest → result.fault ≢ None →
        FaultsAfter config (T.state tables).rows events.items (length result.replies)
        ⊎ HasNoRoom tables result.replies result.fault result.tables }
    ensures stopped { result.fault ≢ None → length result.replies < length events.items }
    ensures answered { result.fault ≡ None → length result.replies ≡ length events.items }
    ensures settled { (T.state result.tables).honest → result.fault ≡ None →
        IsSettled (T.state tables) → IsSettled (T.state result.tables) }
    ensures crash { (T.state result.tables).honest → result.fault ≢ None →
        IsSettled (T.state tables) → (r : List Row) → (T.state result.tables).may_leave r →
        IsLeftOf config (T.state tables).rows events.items result.replies
        (T.state result.tables).rows r }
    ensures faults { result.fault ≢ Some Fault.Stopped }
    ensures store { (result.fault ≡ Some Fault.Store) ↔ ((T.state result.tables).failed ≡ true) }
    ensures was_honest { (T.state result.tables).honest → (T.state tables).honest }
{
    if events.is_empty() {
        return Outcome::without_replies(alloc, None, tables);
    }
    let Ok((connections, mut given)) = room_for(alloc, config, events.len()) else {
        return Outcome::without_replies(alloc, Some(Fault::NoMemory), tables);
    };
    let mut server = Server::over(alloc, connections, tables);
    let fault = answer_all(&mut server, events, &mut given).err();
    Outcome {
        replies: Listed::from_inner(given),
        fault,
        tables: server.into_tables(),
    }
}

/// The replies to a whole history, and the rows after it. It is always an outcome. Where a fault
/// stopped the run, the replies are those to the events before it, and the rows are those after
/// these events and the first operations of the next. Where there is no room to begin, the fault is
/// want of memory, no event is answered, and the tables are given back as they were.
pub fn run<T: Tables + Drop>(
    alloc: Global,
    config: Config,
    tables: T,
    events: Vec<Event>,
) -> Result<Outcome<T>, Fault>
    requires formed { IsTrue (is_well_formed_history events.items) }
    requires sound { (T.state tables).failed ≡ false }
    ensures replies { IfOk result (λ outcome. (T.state outcome.tables).honest →
        outcome.fault ≡ None →
        outcome.replies ≡ replies config (T.state tables).rows events.items) }
    ensures rows { IfOk result (λ outcome. (T.state outcome.tables).honest →
        outcome.fault ≡ None → (T.state outcome.tables).rows
        ≡ (world_after config (T.state tables).rows events.items).rows) }
    ensures ran { IfOk result (λ outcome. (T.state outcome.tables).honest →
        IsRun config (T.state tables).rows events.items outcome.replies
        (T.state outcome.tables).rows) }
    // A fault came in the event after those that were answered, which is none that takes no memory;
    // or there was no room to begin.
    ensures faulted { IfOk result (λ outcome. (T.state outcome.tables).honest →
        outcome.fault ≢ None →
        FaultsAfter config (T.state tables).rows events.items (length outcome.replies)
        ⊎ HasNoRoom tables outcome.replies outcome.fault outcome.tables) }
    ensures stopped { IfOk result (λ outcome. outcome.fault ≢ None →
        length outcome.replies < length events.items) }
    ensures answered { IfOk result (λ outcome. outcome.fault ≡ None →
        length outcome.replies ≡ length events.items) }
    // Where a crash could leave the tables' rows alone as the run began, after it a crash leaves
    // its rows alone, but for the next operation where a fault came.
    ensures settled { IfOk result (λ outcome. (T.state outcome.tables).honest →
        outcome.fault ≡ None → IsSettled (T.state tables) → IsSettled (T.state outcome.tables)) }
    ensures crash { IfOk result (λ outcome. (T.state outcome.tables).honest →
        outcome.fault ≢ None → IsSettled (T.state tables) →
        (r : List Row) → (T.state outcome.tables).may_leave r →
        IsLeftOf config (T.state tables).rows events.items outcome.replies
        (T.state outcome.tables).rows r) }
    // Isolation: an institution's replies and records are those of a server that it has alone.
    ensures own { IfOk result (λ outcome. (T.state outcome.tables).honest →
        (i : Institution) → Contains config i →
        IsOwnRun config (T.state tables).rows events.items i outcome.replies
        (T.state outcome.tables).rows) }
    // Where no fault came, all of them.
    ensures own_replies { IfOk result (λ outcome. (T.state outcome.tables).honest →
        outcome.fault ≡ None →
        (i : Institution) → Contains config i →
        replies_at (is_own_event config i.name events.items) events.items outcome.replies
        ≡ replies_alone i (T.state tables).rows (own config i.name events.items)) }
    ensures own_records { IfOk result (λ outcome. (T.state outcome.tables).honest →
        outcome.fault ≡ None →
        (i : Institution) → Contains config i →
        of i.name (T.state outcome.tables).rows
        ≡ of i.name (world_alone i (T.state tables).rows (own config i.name events.items)).rows) }
    // That server needs neither names nor routes, only the institution's limits and records.
    ensures by_records { IfOk result (λ outcome. (T.state outcome.tables).honest →
        (i : Institution) → Contains config i →
        IsRunByRecords config (T.state tables).rows events.items i outcome.replies
        (T.state outcome.tables).rows) }
    ensures whole_by_records { IfOk result (λ outcome. (T.state outcome.tables).honest →
        outcome.fault ≡ None →
        (i : Institution) → Contains config i →
        IsWholeByRecords config (T.state tables).rows events.items i outcome.replies
        (T.state outcome.tables).rows) }
    // On a connection that nobody owns the replies are a stranger's.
    ensures strangers { IfOk result (λ outcome. (T.state outcome.tables).honest →
        (number : ℕ) → owner config (stream_of number events.items) ≡ None →
        replies_at (is_on_connection number) events.items outcome.replies
        ≡ stranger_replies (filter (is_on_connection number)
        (take (length outcome.replies) events.items))) }
    // On a connection of an institution the replies send its conversation. Over sound rows each
    // C-FIND in it that ends with 0000 is answered with exactly the records that match, in the order
    // of their keys.
    ensures exact { IfOk result (λ outcome. (T.state outcome.tables).honest →
        HoldSound (T.state tables).rows → (number : ℕ) (i : Institution) →
        owner config (stream_of number (take (length outcome.replies) events.items)) ≡ Some i →
        IsAnsweredRun config (T.state tables).rows events.items outcome.replies number i) }
    ensures faults { IfOk result (λ outcome. outcome.fault ≢ Some Fault.Stopped) }
    // The store failed in the run exactly where that is the fault.
    ensures store { IfOk result (λ outcome.
        (outcome.fault ≡ Some Fault.Store) ↔ ((T.state outcome.tables).failed ≡ true)) }
    ensures was_honest { IfOk result (λ outcome.
        (T.state outcome.tables).honest → (T.state tables).honest) }
    // No fault takes away the replies before it, nor the tables.
    ensures outcome { IsOk result }
{
    runs_are_isolated();
    institutions_are_isolated();
    institutions_are_answered_by_records();
    associations_are_answered_in_full();
    institutions_have_own_names();
    config.is_sound();
    bring_octets(&events);
    let outcome = answer_history(alloc, config, tables, events);
    Ok(outcome)
}
