//! Laws of turns and of servings. Each function's contract is a law; its body does nothing.
ghost use Rattle.std.specs.Prelude.{◌≡◌, ◌≤◌, ◌<◌, ◌+◌, ◌-◌, ◌^◌, ℕ, true, false, Any, IsTrue, List, [], ◌∷◌, ◌++◌, Option, Some, length, map};
ghost use Rattle.std.specs.List.{AllByRecursion, flat_map};
ghost use Rattle.dq_config.specs.declared.config.Institution.{Institution};
ghost use Rattle.dq_tables.specs.declared.row.Row.{Row};
ghost use Rattle.dq_tables.specs.TableStates.{IsSettled};
ghost use Rattle.dq_core.specs.declared.event.Event.{Event};
ghost use Rattle.dq_core.specs.declared.event.Reply.{Reply};
ghost use Rattle.dq_core.specs.Histories.{is_well_formed_history};
ghost use Rattle.dq_core.specs.declared.fault.Fault.{Fault};
ghost use Rattle.dq_core.specs.Shared.{replies, turn, world_after};
ghost use Rattle.dq_core.specs.Stepping.{IsPartOf};
ghost use Rattle.dq_core.specs.Own.{owns, stream_of};
ghost use Rattle.dq_core.specs.Owners.{owner};
ghost use Rattle.dq_core.specs.Conversations.{arrivals, conversation_on, IsExactAt};
ghost use Rattle.dq_core.specs.Soundness.{HoldSound, BringOctets};
ghost use Rattle.dq_core.specs.Isolation.{Begins};
ghost use Rattle.dq_core.specs.ServerView.{ServerView, Refines};
ghost use Rattle.dq_core.specs.Looking.{Looked};
ghost use Rattle.dq_wires.specs.declared.calls.Call.{Call};
ghost use Rattle.dq_wires.specs.declared.fault.TurnFault.{TurnFault};
ghost use Rattle.dq_wires.specs.declared.sockets.socket_connection.SocketConnection.{SocketConnection};
ghost use Rattle.dq_wires.specs.declared.sockets.SocketWires.{SocketWires};
ghost use Rattle.dq_wires.specs.SocketTurns.{goes_on, connection_at, slot_goes_on_before, put_off};
ghost use Rattle.dq_wires.specs.Sockets.{is_next, is_put_off};
ghost use Rattle.dq_wires.specs.Limits.{most_wires};
ghost use Rattle.dq_wires.specs.HeldConnections.{HeldConnection};
ghost use Rattle.dq_wires.specs.Steps.{Step, Runs, replies_of};
ghost use Rattle.dq_wires.specs.ConnectionActions.{ConnectionAction, IsDue};
ghost use Rattle.dq_wires.specs.ServerSteps.{Stepped, Moves, Fails};
ghost use Rattle.dq_wires.specs.Serving.{Serves};
ghost use Rattle.dq_wires.specs.Turns.{Done, connections_kept, Hold, Turn, IsTurn, AreTurns, after_turn, after_turns, Cut, TurnsWent, TurnsCut};
ghost use Rattle.dq_wires.specs.Turns.Cut.{NoRoom};
ghost use Rattle.dq_wires.specs.Turners.{IsOrder};
ghost use Rattle.dq_wires.specs.Octets.{answered_in, written_in, lost_in, unsent_of, held_on, done_on, turns_done, IsNumbered};
ghost use Rattle.dq_wires.specs.Servings.{Act, nothing_held, all_turned, Serving, Served, served_steps, served_events, written_on, answered_on, octets_among, IsFrontOf, OneBegins};
ghost use Rattle.dq_wires.specs.Servings.Act.{Ordered};
ghost use Rattle.dq_wires.specs.Cuts.{AgreeOnWires};

use dq_assoc::laws::a_longer_stream_adds_inputs;
use dq_core::laws::{
    associations_are_answered_in_full, institutions_are_answered_by_records, pieces_join,
    replies_do_not_depend_on_numbers, verdict_is_of_the_request,
};
use dq_tables::Tables;

/// The steps of turns are a history of the plain server: its events come after those that the
/// server stands for, and its replies are those of the plain server.
#[tactic(auto, using(crate::proofs::Histories::runs_serve))]
pub fn steps_are_a_history<T: Tables>()
    ensures { (old new : ServerView T) (steps : List Step) →
        Runs (Moves T.state) old new steps →
        Serves T.state old new steps }
{}

/// No octet is lost or made. In the turn of a connection what was unsent, and what is then
/// answered, is what is written, what is lost with a connection that is given up, and what is then
/// unsent; and so over whole turns, under the number of each connection.
#[tactic(auto, using(crate::proofs::Conserving::action_conserves, crate::proofs::Numbered::turns_conserve))]
pub fn octets_are_conserved()
    ensures turn { (wire : HeldConnection) (action : ConnectionAction) → IsDue wire action →
        let d : Done = record { wire = wire; action = action } in
        wire.unsent ++ answered_in d
        ≡ written_in d ++ (lost_in d ++ flat_map unsent_of (connections_kept d)) }
    ensures turns { (number : ℕ) (h : Hold) (turns : List Turn) →
        IsNumbered h → AreTurns h turns →
        let done = turns_done turns in
        held_on number h.held ++ done_on number answered_in done
        ≡ done_on number written_in done
        ++ (done_on number lost_in done ++ held_on number (after_turns h turns).held) }
{}

/// The numbers of the connections that are held rise, and none is above the newest.
#[tactic(auto, using(crate::proofs::Conserving::turns_number))]
pub fn numbers_rise()
    ensures { (h : Hold) (turns : List Turn) → IsNumbered h → AreTurns h turns →
        IsNumbered (after_turns h turns) }
{}

/// No more connections are held than there is room for.
#[tactic(auto, using(crate::proofs::Conserving::turns_fit))]
pub fn no_more_are_held_than_fit()
    ensures { (h : Hold) (turns : List Turn) → length h.held ≤ most_wires → AreTurns h turns →
        length (after_turns h turns).held ≤ most_wires }
{}

/// Steps after a look do not see what it leaves: a step after a look is just that step.
#[tactic(auto, using(crate::proofs::Looking::stepped_after))]
pub fn looks_leave_no_trace<T: Tables>()
    ensures { (old mid new : ServerView T) (event : Event) (reply : Reply) →
        Looked T.state old mid → Stepped T.state mid new event reply →
        Stepped T.state old new event reply }
{}

/// The calls to a turner from its beginning on, one after the other, are a serving: turns that went
/// to their end, orders that were answered, looks, and at last turns that a fault cut off.
pub fn calls_are_a_serving<T: Tables>()
    ensures begins { (rows : List Row) (log : Option (List Call)) (server : ServerView T) →
        Refines T.state rows server [] →
        Serving T.state rows log log server server nothing_held [] }
    ensures turns { (rows : List Row) (before now after : Option (List Call))
        (first mid next : ServerView T) (hold to : Hold) (acts : List Act) (count : ℕ) →
        Serving T.state rows before now first mid hold acts →
        (went : TurnsWent (Moves T.state) now after mid next hold to count) →
        Serving T.state rows before after first next to (acts ++ all_turned went.turns) }
    ensures order { (rows : List Row) (before now : Option (List Call))
        (first mid next : ServerView T) (hold : Hold) (acts : List Act) (event : Event)
        (reply : Reply) → Serving T.state rows before now first mid hold acts →
        IsOrder event → Stepped T.state mid next event reply →
        Serving T.state rows before now first next hold (acts ++ Ordered event reply ∷ []) }
    ensures look { (rows : List Row) (before now : Option (List Call))
        (first mid next : ServerView T) (hold : Hold) (acts : List Act) →
        Serving T.state rows before now first mid hold acts → Looked T.state mid next →
        Serving T.state rows before now first next hold acts }
    ensures whole { (rows : List Row) (before now : Option (List Call)) (first last : ServerView T)
        (hold : Hold) (acts : List Act) →
        Serving T.state rows before now first last hold acts →
        Served T.state rows first last acts NoRoom }
    ensures cut { (rows : List Row) (before now after : Option (List Call))
        (first mid new : ServerView T) (hold : Hold) (acts : List Act) (count : ℕ)
        (fault : TurnFault) → Serving T.state rows before now first mid hold acts →
        (off : TurnsCut (Moves T.state) (Fails T.state) now after mid new hold count fault) →
        Served T.state rows first off.mid (acts ++ all_turned off.turns) off.cut }
{}

/// The answers of a serving are those of the plain server to what came, in which opened numbers
/// rise, and the rows are then those of the plain server; and the octets written on a connection
/// are the first of those answered on it, each octet once and in order.
pub fn servings_are_answered<T: Tables>()
    ensures well_formed { (rows : List Row) (first last : ServerView T) (acts : List Act)
        (cut : Cut) → Served T.state rows first last acts cut →
        IsTrue (is_well_formed_history (served_events acts cut)) }
    ensures replies { (rows : List Row) (first last : ServerView T) (acts : List Act) (cut : Cut) →
        Served T.state rows first last acts cut → (T.state last.tables).honest →
        replies_of (served_steps acts cut)
        ≡ replies first.institutions rows (served_events acts cut) }
    ensures rows { (rows : List Row) (first last : ServerView T) (acts : List Act) (cut : Cut) →
        Served T.state rows first last acts cut → (T.state last.tables).honest →
        (T.state last.tables).rows
        ≡ (world_after first.institutions rows (served_events acts cut)).rows }
    ensures written { (rows : List Row) (first last : ServerView T) (acts : List Act) (cut : Cut) →
        Served T.state rows first last acts cut → (T.state last.tables).honest → (number : ℕ) →
        IsFrontOf (written_on number acts cut) (answered_on number acts cut) }
{}

/// Exact searches over wires. What is written on a connection that an institution owns is the first
/// of its conversation: the answer to its request, and then the responses to each message. If the
/// rows were sound as the serving began and octets came, each C-FIND in it is answered with exactly
/// the records that match (PS3.4 sections C.4.1 and K.4.1).
pub fn servings_are_exact<T: Tables>()
    ensures written { (rows : List Row) (first last : ServerView T) (acts : List Act) (cut : Cut) →
        Served T.state rows first last acts cut → (T.state last.tables).honest →
        (number : ℕ) (i : Institution) → let events = served_events acts cut in
        owner first.institutions (stream_of number events) ≡ Some i →
        IsFrontOf (written_on number acts cut)
        (octets_among (conversation_on first.institutions rows number i events)) }
    ensures exact { (rows : List Row) (first last : ServerView T) (acts : List Act) (cut : Cut) →
        Served T.state rows first last acts cut → (T.state last.tables).honest →
        (number : ℕ) (i : Institution) → let events = served_events acts cut in
        HoldSound rows → BringOctets events →
        owner first.institutions (stream_of number events) ≡ Some i →
        AllByRecursion (IsExactAt i) (arrivals first.institutions rows number [] events) }
{
    associations_are_answered_in_full();
}

/// Restart over wires. If a crash could leave only the rows as a serving began, then afterwards it
/// leaves the rows of the plain server after what was answered, and nothing else. If the server then
/// fails at an event, a crash leaves the rows after some first operations of the event, with or
/// without the next one.
pub fn servings_settle<T: Tables>()
    ensures answered { (rows : List Row) (first last : ServerView T) (acts : List Act) (cut : Cut) →
        Served T.state rows first last acts cut → (T.state last.tables).honest →
        IsSettled (T.state first.tables) → (r : List Row) → (T.state last.tables).may_leave r →
        r ≡ (world_after first.institutions rows (served_events acts cut)).rows }
    ensures failed { (rows : List Row) (first last new : ServerView T) (acts : List Act) (cut : Cut)
        (event : Event) (fault : Fault) →
        Served T.state rows first last acts cut → Fails T.state last new event fault →
        (T.state new.tables).honest → IsSettled (T.state first.tables) →
        let world = world_after first.institutions rows (served_events acts cut) in
        IsPartOf (turn first.institutions world event).operations world.rows
        (T.state new.tables).rows (T.state new.tables).may_leave }
{}

/// Isolation on the wires. Of two servings, over any wires and any two keepers, in which what came
/// on one institution's connections and from the console for it is the same, in the same order,
/// but for the numbers of these connections and the cuts of their octets into pieces, the octets
/// that are written to each of its connections are such that one list begins the other. More may be
/// still to come in each (`later`), and nothing is asked of what came on other connections or for
/// other institutions.
pub fn institutions_are_isolated_on_wires<T: Tables, O: Tables>()
    ensures { (rows other_rows : List Row) (first last : ServerView T)
        (other_first other_last : ServerView O) (acts other_acts : List Act) (cut other_cut : Cut) →
        Served T.state rows first last acts cut →
        Served O.state other_rows other_first other_last other_acts other_cut →
        (T.state last.tables).honest → (O.state other_last.tables).honest →
        (later other_later : List Event) (i j : Institution) (anew other_anew : ℕ → ℕ) →
        let events = served_events acts cut ++ later in
        let other_events = served_events other_acts other_cut ++ other_later in
        Begins first.institutions rows events i →
        Begins other_first.institutions other_rows other_events j →
        AgreeOnWires first.institutions other_first.institutions rows other_rows events
        other_events i j anew other_anew →
        (number other : ℕ) → anew number ≡ other_anew other →
        IsTrue (owns first.institutions i.name events number) →
        IsTrue (owns other_first.institutions j.name other_events other) →
        OneBegins (written_on number acts cut) (written_on other other_acts other_cut) }
{
    institutions_are_answered_by_records();
    replies_do_not_depend_on_numbers();
    pieces_join();
    verdict_is_of_the_request();
    a_longer_stream_adds_inputs();
}

/// Next pages over sockets take turns. At most one is written in a turn, beside the first pages of new
/// searches, and no page that waits was put off more often than that one. If a page is put off before
/// another was written, one waits that was put off more often. A page that is put off counts it.
pub fn pages_take_turns()
    ensures one { (place : ℕ) (wires : SocketWires) → wires.has_gone_on ≡ true →
        is_next place wires ≡ false }
    ensures longest { (place at : ℕ) (wires : SocketWires) (connection other : SocketConnection) →
        connection_at place wires.connections.items ≡ Some connection →
        connection_at at wires.connections.items ≡ Some other →
        is_next place wires ≡ true → goes_on other ≡ true → other.is_sending ≡ true →
        other.share.put_off ≤ connection.share.put_off }
    ensures waits { (place : ℕ) (wires : SocketWires) (connection : SocketConnection) →
        connection_at place wires.connections.items ≡ Some connection →
        wires.has_gone_on ≡ false → is_put_off place wires ≡ true →
        Any (λ slot. slot_goes_on_before connection slot ≡ true) wires.connections.items }
    ensures older { (connection : SocketConnection) → connection.share.put_off < 2 ^ 64 - 1 →
        (put_off connection).share.put_off ≡ connection.share.put_off + 1 }
{}
