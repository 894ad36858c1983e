//! Laws of the plain server. Each function's contract is a law; its body changes nothing.

ghost use Rattle.std.specs.Prelude.{◌≡◌, ◌≢◌, ◌≤◌, ◌+◌, ◌*◌, ◌⊎◌, ◌↔◌, ℕ, Bool, true, false, IsTrue, Ok, List, [], ◌∷◌, ◌++◌, length, take, filter, map, Contains, Some, None, codes, IsOk, IfOk};
ghost use Rattle.dq_pdu.specs.declared.pdu.Request.{Request};
ghost use Rattle.dq_assoc.specs.declared.association.Verdict.{Verdict};
ghost use Rattle.dq_assoc.specs.Inputs.{inputs};
ghost use Rattle.dq_tables.specs.declared.row.Row.{Row};
ghost use Rattle.dq_tables.specs.Rows.{Record, of, by, after, after_all};
ghost use Rattle.dq_config.specs.declared.config.Institution.{Institution};
ghost use Rattle.dq_config.specs.Conditions.{is_sound_configuration};
ghost use Rattle.dq_config.specs.Limits.{Limits, limits_of};
ghost use Rattle.dq_core.specs.Answers.{piece_answer, then_answer, request_in};
ghost use Rattle.dq_core.specs.Owners.{owner, live_of, HaveOwnNames};
ghost use Rattle.dq_core.specs.Shared.{turn, replies, world_after, rows_within};
ghost use Rattle.dq_core.specs.Alone.{alone_replies, alone_after, records_within};
ghost use Rattle.dq_core.specs.Own.{is_own_event, own, is_on_connection, stream_of, replies_at, outputs_on};
ghost use Rattle.dq_core.specs.Histories.{is_well_formed_history, opened_numbers};
ghost use Rattle.dq_core.specs.Runs.{IsRun, IsLeftOf, IsOwnRun};
ghost use Rattle.dq_core.specs.declared.event.Reply.{Reply};
ghost use Rattle.dq_core.specs.Accepted.{AreOpen};
ghost use Rattle.dq_core.specs.Connections.{Connection, connection_in, with_piece};
ghost use Rattle.std.specs.List.{AllByRecursion};
ghost use Rattle.std.specs.List.Sorted.{IsStrictlyIncreasing};
ghost use Rattle.dq_list.specs.Octets.{AreOctets};
ghost use Rattle.dq_assoc.specs.declared.association.State.TheVariants.{Waiting, Open};
ghost use Rattle.dq_assoc.specs.Table.{Requested, line};
ghost use Rattle.dq_core.specs.Isolation.{own_among, replies_alone, world_alone, own_replies, own_rows_within, stranger_replies, Begins, Agree, IsPrefix};
ghost use Rattle.dq_core.specs.Renumbering.{KeepsOrder, with_other_number, renumbered_reply, AgreeButForNumbers};
ghost use Rattle.dq_dataset.specs.Tree.{ElementList};
ghost use Rattle.dq_dimse.specs.CommandFields.{c_find};
ghost use Rattle.dq_dimse.specs.Received.{Message};
ghost use Rattle.dq_dimse.specs.Statuses.{success};
ghost use Rattle.dq_assoc.specs.declared.agreement.AcceptedContext.{AcceptedContext};
ghost use Rattle.dq_assoc.specs.declared.agreement.Agreement.{Agreement};
ghost use Rattle.dq_assoc.specs.declared.classes.Service.TheVariants.{StudyRootFind, WorklistFind};
ghost use Rattle.dq_assoc.specs.Classes.{service_of, uid_of};
ghost use Rattle.dq_find.specs.declared.query.Query.{Query};
ghost use Rattle.dq_find.specs.Queries as study;
ghost use Rattle.dq_worklist.specs.Queries as worklist;
ghost use Rattle.dq_core.specs.Services.{ConsoleOrder, message_outcome, service_of_message, console_outcome};
ghost use Rattle.dq_core.specs.Soundness.{HoldSound, AreMade, ServicesKeep, HoldsOctets, BringsOctets, BringOctets, CameAsOctets};
ghost use Rattle.dq_core.specs.Stores.{IsToldTruly, IsToldTrulyAt};
ghost use Rattle.dq_core.specs.Conversations.{Arrival, arrivals, IsAnswered, IsAnsweredRun, IsAnsweredAt, conversation_on, exchange, AreFinished, without_page_requests};
ghost use Rattle.dq_core.specs.declared.event.Reply.TheVariants.{Octets, Done, Ignored};
ghost use Rattle.dq_core.specs.Examples as example;
ghost use Rattle.dq_config.specs.Document.{built_in};
ghost use Rattle.dq_tables.specs.Sound.{IsSound};
ghost use Rattle.dq_tables.specs.TableStates.{IsSettled};
ghost use Rattle.dq_core.specs.Shared.{World};
ghost use Rattle.dq_core.specs.ServerView.{ServerView};
ghost use Rattle.dq_core.specs.Looking.{Looked};
ghost use Rattle.dq_match.specs.declared.shown_page.ShownPage.{ShownPage};
ghost use Rattle.dq_core.specs.Showing.{found_for, steps_for};
ghost use Rattle.dq_core.specs.declared.showing.SearchKind.{SearchKind};
ghost use Rattle.dq_core.specs.Restarts.{IsRestart};

use crate::event::Event;
use crate::fault::Fault;
use crate::server::{Outcome, run};
use dq_assoc::laws::{a_longer_stream_adds_inputs, the_last_input_closes};
use dq_config::Config;
use dq_config::laws::a_name_is_of_one;
use dq_dataset::laws::spelling_law;
use dq_find::laws::answers_are_the_matching_records_in_order as study_answers_in_order;
use dq_mpps::laws::{
    rows_hold_data_sets as steps_hold_data_sets,
    rows_of_other_kinds_stay as steps_leave_other_kinds, sound_rows_stay_sound as steps_stay_sound,
};
use dq_store::laws::{
    records_keep_to_their_levels, rows_hold_data_sets as stored_rows_hold_data_sets,
    sound_rows_stay_sound as stored_rows_stay_sound, the_status_says_what_stands,
};
use dq_tables::Tables;
use dq_tables::laws::{other_records_stay, own_records_are_edited, rows_stay_in_order};
use dq_worklist::laws::{
    answers_are_the_matching_records_in_order as worklist_answers_in_order,
    rows_hold_data_sets as entries_hold_data_sets,
    rows_of_other_kinds_stay as entries_leave_other_kinds,
    sound_rows_stay_sound as entries_stay_sound,
};
use std::alloc::Global;

/// The replies to a history are the replies to each event in turn: there is one for each event, and
/// what comes later does not change it.
#[tactic(auto, using(crate::proofs::Running::replies_follow, crate::proofs::Running::replies_count))]
pub fn replies_in_turn()
    ensures one_each { (institutions : List Institution) (rows : List Row) (events : List Event) →
        length (replies institutions rows events) ≡ length events }
    ensures next { (institutions : List Institution) (rows : List Row) (events : List Event)
        (event : Event) →
        replies institutions rows (events ++ event ∷ []) ≡ replies institutions rows events
        ++ (turn institutions (world_after institutions rows events) event).reply ∷ [] }
{}

/// However a stream is cut, it is answered alike: a piece that comes in two parts is answered as
/// the first part and then, unless that closed the connection, as the second, from the records that
/// are there and the C-FIND that is open by then.
#[tactic(auto, using(crate::proofs::isolation::Streams::piece_in_two))]
pub fn pieces_join()
    ensures { (limits : Limits) (verdict : Verdict) (records : List Record)
        (c : Connection) (first second : List ℕ) →
        let front = piece_answer limits verdict records c first in
        piece_answer limits verdict records c (first ++ second)
        ≡ then_answer front (piece_answer limits verdict front.next.records
        (with_piece c first front.next.query) second) }
{
    a_longer_stream_adds_inputs();
    the_last_input_closes();
}

/// Whether an institution is busy is asked for the request alone.
#[tactic(auto, using(crate::proofs::isolation::Streams::piece_verdict))]
pub fn verdict_is_of_the_request()
    ensures { (limits : Limits) (verdict other : Verdict) (records : List Record)
        (c : Connection) (piece : List ℕ) (request : Request) →
        request_in (inputs c.stream) ≡ Some request →
        piece_answer limits verdict records c piece
        ≡ piece_answer limits other records c piece }
{}

/// Once a stream has an owner, it stays.
#[tactic(auto, using(crate::proofs::isolation::Streams::owner_stays))]
pub fn owners_stay()
    ensures { (institutions : List Institution) (stream more : List ℕ) (i : Institution) →
        owner institutions stream ≡ Some i → owner institutions (stream ++ more) ≡ Some i }
{
    a_longer_stream_adds_inputs();
}

/// No two institutions of a configuration have one name.
pub fn institutions_have_own_names()
    ensures { (institutions : List Institution) → IsTrue (is_sound_configuration institutions) →
        HaveOwnNames institutions }
{
    a_name_is_of_one();
}

/// Opened numbers rise strictly in a well-formed history.
#[tactic(auto, using(crate::proofs::isolation::Rising::well_formed_increasing))]
pub fn opened_numbers_rise()
    ensures { (events : List Event) →
        IsTrue (is_well_formed_history events) ↔ IsStrictlyIncreasing (opened_numbers events) }
{}

/// A connection that is held has sent no request yet, or one that was accepted, which an
/// institution has; so one that has an owner was accepted.
#[tactic(auto, using(crate::proofs::isolation::Accepting::held_open, crate::proofs::isolation::Accepting::request_accepted))]
pub fn held_connections_were_accepted()
    ensures inputs { (institutions : List Institution) (rows : List Row) (events : List Event)
        (number : ℕ) (c : Connection) →
        connection_in number (world_after institutions rows events).connections ≡ Some c →
        AreOpen institutions (inputs c.stream) }
    // By the verdict at the piece that brought the request.
    ensures verdict { (limits : Limits) (verdict : Verdict) (records : List Record)
        (c : Connection) (piece : List ℕ) (request : Request) →
        request_in (inputs c.stream) ≡ None →
        request_in (inputs (c.stream ++ piece)) ≡ Some request →
        (piece_answer limits verdict records c piece).close ≡ false →
        (line Waiting verdict (Requested request)).next ≡ Open }
{
    a_longer_stream_adds_inputs();
}

/// No institution has more associations open than its limit.
#[tactic(auto, using(crate::proofs::isolation::Living::live_within))]
pub fn limits_of_associations_are_kept()
    ensures { (institutions : List Institution) (rows : List Row) (events : List Event)
        (i : Institution) → HaveOwnNames institutions → Contains institutions i →
        live_of institutions i.name (world_after institutions rows events).connections
        ≤ i.associations }
{
    a_longer_stream_adds_inputs();
}

/// Isolation. Whatever others store, ask, order or are refused, and however events interleave, the
/// replies at an institution's own events are those of a server that it has alone, and so are its
/// records: after the history, and within it, also after the first operations of an event. That
/// server is the same one, configured with the institution alone.
#[tactic(auto, using(crate::proofs::isolation::Isolating::lenses_from, crate::proofs::isolation::Single::single_replies, crate::proofs::isolation::Single::single_records, crate::proofs::isolation::Single::single_among, crate::proofs::isolation::Single::single_within))]
pub fn institutions_are_isolated()
    ensures replies { (institutions : List Institution) (rows : List Row) (events : List Event)
        (i : Institution) → Begins institutions rows events i →
        replies_at (is_own_event institutions i.name events) events (replies institutions rows events)
        ≡ replies_alone i rows (own institutions i.name events) }
    ensures records { (institutions : List Institution) (rows : List Row) (events : List Event)
        (i : Institution) → Begins institutions rows events i →
        of i.name (world_after institutions rows events).rows
        ≡ of i.name (world_alone i rows (own institutions i.name events)).rows }
    // The same of the first events of the history.
    ensures first_replies { (institutions : List Institution) (rows : List Row)
        (events : List Event) (i : Institution) (answered : ℕ) →
        Begins institutions rows events i →
        replies_at (is_own_event institutions i.name events) events
        (take answered (replies institutions rows events))
        ≡ own_replies institutions rows events i answered }
    ensures prefix { (institutions : List Institution) (rows : List Row) (events : List Event)
        (i : Institution) (answered : ℕ) →
        IsPrefix (own_replies institutions rows events i answered)
        (replies_alone i rows (own institutions i.name events)) }
    ensures records_within { (institutions : List Institution) (rows : List Row)
        (events : List Event) (i : Institution) (answered operations : ℕ) →
        Begins institutions rows events i →
        of i.name (rows_within institutions rows events answered operations)
        ≡ of i.name (own_rows_within institutions rows events i answered operations) }
{
    a_longer_stream_adds_inputs();
    own_records_are_edited();
    other_records_stay();
    rows_stay_in_order();
}

/// The server of one institution as a definition of its own, which has no names and no routes, and to
/// which each request is the institution's. It answers own events in the same way, and leaves the
/// same records: after the history, and within it. So it is whatever the numbers of connections are.
#[tactic(auto, using(crate::proofs::isolation::Isolating::lenses_from, crate::proofs::isolation::Promise::isolated_among, crate::proofs::isolation::Promise::isolated_records, crate::proofs::isolation::Promise::isolated_within))]
pub fn institutions_are_answered_by_records()
    ensures first_replies { (institutions : List Institution) (rows : List Row)
        (events : List Event) (i : Institution) (answered : ℕ) →
        Begins institutions rows events i →
        replies_at (is_own_event institutions i.name events) events
        (take answered (replies institutions rows events))
        ≡ alone_replies (limits_of i) (of i.name rows)
        (own_among institutions i.name events answered) }
    ensures records { (institutions : List Institution) (rows : List Row) (events : List Event)
        (i : Institution) → Begins institutions rows events i →
        of i.name (world_after institutions rows events).rows ≡
        (alone_after (limits_of i) (of i.name rows) (own institutions i.name events)).records }
    ensures records_within { (institutions : List Institution) (rows : List Row)
        (events : List Event) (i : Institution) (answered operations : ℕ) →
        Begins institutions rows events i →
        of i.name (rows_within institutions rows events answered operations)
        ≡ records_within (limits_of i) (of i.name rows) (is_own_event institutions i.name events)
        events answered operations }
    ensures prefix { (institutions : List Institution) (rows : List Row) (events : List Event)
        (i : Institution) (answered : ℕ) →
        IsPrefix (alone_replies (limits_of i) (of i.name rows)
        (own_among institutions i.name events answered))
        (alone_replies (limits_of i) (of i.name rows) (own institutions i.name events)) }
    ensures numbers { (limits : Limits) (records : List Record) (events : List Event)
        (another : ℕ → ℕ) → KeepsOrder another →
        alone_replies limits records (map (with_other_number another) events)
        ≡ map (renumbered_reply another) (alone_replies limits records events) }
{
    a_longer_stream_adds_inputs();
    own_records_are_edited();
    other_records_stay();
    rows_stay_in_order();
}

/// The replies on a connection that nobody owns are those of a server without institutions.
#[tactic(auto, using(crate::proofs::isolation::Strangers::strange_replies, crate::proofs::isolation::Strangers::strange_among))]
pub fn strangers_are_answered_alike()
    ensures replies { (institutions : List Institution) (rows : List Row) (events : List Event)
        (number : ℕ) → owner institutions (stream_of number events) ≡ None →
        IsTrue (is_well_formed_history events) →
        replies_at (is_on_connection number) events (replies institutions rows events)
        ≡ stranger_replies (filter (is_on_connection number) events) }
    ensures first_replies { (institutions : List Institution) (rows : List Row)
        (events : List Event) (number answered : ℕ) →
        owner institutions (stream_of number events) ≡ None → IsTrue (is_well_formed_history events) →
        replies_at (is_on_connection number) events
        (take answered (replies institutions rows events))
        ≡ stranger_replies (filter (is_on_connection number) (take answered events)) }
{
    a_longer_stream_adds_inputs();
}

/// Two histories that agree for an institution have the same replies at its own events, and leave
/// it the same records. Of the replies at its own events among the first of each history, one list
/// begins with the other.
#[tactic(auto, using(crate::proofs::isolation::Isolating::lenses_from, crate::proofs::isolation::Promise::agreeing_replies, crate::proofs::isolation::Promise::agreeing_records))]
pub fn agreeing_histories_are_answered_alike()
    ensures replies { (institutions others : List Institution) (rows other_rows : List Row)
        (events other_events : List Event) (i j : Institution) →
        Begins institutions rows events i → Begins others other_rows other_events j →
        Agree institutions others rows other_rows events other_events i j →
        replies_at (is_own_event institutions i.name events) events (replies institutions rows events)
        ≡ replies_at (is_own_event others j.name other_events) other_events
        (replies others other_rows other_events) }
    ensures records { (institutions others : List Institution) (rows other_rows : List Row)
        (events other_events : List Event) (i j : Institution) →
        Begins institutions rows events i → Begins others other_rows other_events j →
        Agree institutions others rows other_rows events other_events i j →
        of i.name (world_after institutions rows events).rows
        ≡ of j.name (world_after others other_rows other_events).rows }
    ensures prefix { (institutions others : List Institution) (rows other_rows : List Row)
        (events other_events : List Event) (i j : Institution) (answered other_answered : ℕ) →
        Begins institutions rows events i → Begins others other_rows other_events j →
        Agree institutions others rows other_rows events other_events i j →
        let some = replies_at (is_own_event institutions i.name events) events
        (take answered (replies institutions rows events)) in
        let more = replies_at (is_own_event others j.name other_events) other_events
        (take other_answered (replies others other_rows other_events)) in
        IsPrefix some more ⊎ IsPrefix more some }
{
    a_longer_stream_adds_inputs();
    own_records_are_edited();
    other_records_stay();
    rows_stay_in_order();
}

/// A Study Root C-FIND of the context's class is answered with the records of its level that are under
/// its unique keys and fit, in the order of their keys, each as it is shown (`dq_find::laws` says
/// which and in what order). It changes nothing.
#[tactic(auto, using(crate::proofs::isolation::Searching::study_search))]
pub fn searches_answer_what_matches()
    ensures { (agreement : Agreement) (context : AcceptedContext) (limits : Limits)
        (message : Message) (records : List Record) (query : Query) →
        service_of context.class ≡ StudyRootFind →
        message.command.code ≡ c_find → message.command.sop_class ≡ uid_of context.class →
        study.message_query message context.syntax ≡ Ok query →
        message_outcome agreement context limits message records
        ≡ (
          record {
            status = success;
            optional = query.optional;
            answers = study.answers_of_records records agreement.called query;
          },
          [],
        ) }
{}

/// A worklist query is answered with exactly the entries that match, in the order of their keys.
#[tactic(auto, using(crate::proofs::isolation::Searching::worklist_search))]
pub fn worklists_answer_what_matches()
    ensures { (agreement : Agreement) (context : AcceptedContext) (limits : Limits)
        (message : Message) (records : List Record) (keys : ElementList) (optional : Bool) →
        service_of context.class ≡ WorklistFind →
        message.command.code ≡ c_find → message.command.sop_class ≡ uid_of context.class →
        worklist.worklist_query message context.syntax
        ≡ Ok (record { keys = keys; optional = optional }) →
        message_outcome agreement context limits message records
        ≡ (
          record {
            status = success;
            optional = optional;
            answers = worklist.answers_of_entries records keys;
          },
          [],
        ) }
{}

/// Runs that a fault ends are isolated too. The replies at an institution's own events are those of
/// its server alone to those that were answered, and its records are those that this server then
/// has, with the first changes of an own event that was not answered; the replies on a connection
/// that nobody owns are a stranger's; and of the own replies of two runs that agree for an
/// institution, one list begins with the other.
pub fn runs_are_isolated()
    ensures own { (institutions : List Institution) (rows : List Row) (events : List Event)
        (given : List Reply) (kept : List Row) → IsRun institutions rows events given kept →
        (i : Institution) → Begins institutions rows events i →
        IsOwnRun institutions rows events i given kept }
    ensures strangers { (institutions : List Institution) (rows : List Row) (events : List Event)
        (given : List Reply) (kept : List Row) → IsRun institutions rows events given kept →
        (number : ℕ) → owner institutions (stream_of number events) ≡ None →
        IsTrue (is_well_formed_history events) →
        replies_at (is_on_connection number) events given
        ≡ stranger_replies (filter (is_on_connection number) (take (length given) events)) }
    ensures agree { (institutions others : List Institution) (rows other_rows : List Row)
        (events other_events : List Event) (i j : Institution) (given other_given : List Reply)
        (kept other_kept : List Row) → IsRun institutions rows events given kept →
        IsRun others other_rows other_events other_given other_kept →
        Begins institutions rows events i → Begins others other_rows other_events j →
        Agree institutions others rows other_rows events other_events i j →
        let some = replies_at (is_own_event institutions i.name events) events given in
        let more = replies_at (is_own_event others j.name other_events) other_events other_given in
        IsPrefix some more ⊎ IsPrefix more some }
{
    a_longer_stream_adds_inputs();
    own_records_are_edited();
    other_records_stay();
    rows_stay_in_order();
}

/// Nothing depends on how connections are numbered. Where each has another number, in the same
/// order, the replies are for the connections under these and are otherwise the same, the rows are
/// the same, and so is whose each event is.
pub fn replies_do_not_depend_on_numbers()
    ensures replies { (institutions : List Institution) (rows : List Row) (events : List Event)
        (another : ℕ → ℕ) → KeepsOrder another →
        replies institutions rows (map (with_other_number another) events)
        ≡ map (renumbered_reply another) (replies institutions rows events) }
    ensures rows { (institutions : List Institution) (rows : List Row) (events : List Event)
        (another : ℕ → ℕ) → KeepsOrder another →
        (world_after institutions rows (map (with_other_number another) events)).rows
        ≡ (world_after institutions rows events).rows }
    ensures well_formed { (events : List Event) (another : ℕ → ℕ) → KeepsOrder another →
        is_well_formed_history (map (with_other_number another) events) ≡ is_well_formed_history events }
    ensures own { (institutions : List Institution) (name : List ℕ) (events : List Event)
        (another : ℕ → ℕ) → KeepsOrder another →
        own institutions name (map (with_other_number another) events)
        ≡ map (with_other_number another) (own institutions name events) }
    ensures own_replies { (institutions : List Institution) (name : List ℕ) (events : List Event)
        (given : List Reply) (another : ℕ → ℕ) → KeepsOrder another →
        let anew = map (with_other_number another) events in
        replies_at (is_own_event institutions name anew) anew (map (renumbered_reply another) given)
        ≡ map (renumbered_reply another)
        (replies_at (is_own_event institutions name events) events given) }
{}

/// Isolation speaks of a server that numbers connections as they come, whoever opens them. Two
/// histories that agree for an institution but for the numbers of its connections have the same
/// replies at its own events, but for these numbers, and leave it the same records. Of the replies
/// at its own events in two runs that a fault may end, one list begins with the other, but for
/// these numbers.
pub fn isolation_by_any_number()
    ensures replies { (institutions others : List Institution) (rows other_rows : List Row)
        (events other_events : List Event) (i j : Institution) (anew other_anew : ℕ → ℕ) →
        Begins institutions rows events i → Begins others other_rows other_events j →
        AgreeButForNumbers institutions others rows other_rows events other_events i j
        anew other_anew →
        map (renumbered_reply anew) (replies_at (is_own_event institutions i.name events) events
        (replies institutions rows events))
        ≡ map (renumbered_reply other_anew) (replies_at (is_own_event others j.name other_events)
        other_events (replies others other_rows other_events)) }
    ensures records { (institutions others : List Institution) (rows other_rows : List Row)
        (events other_events : List Event) (i j : Institution) (anew other_anew : ℕ → ℕ) →
        Begins institutions rows events i → Begins others other_rows other_events j →
        AgreeButForNumbers institutions others rows other_rows events other_events i j
        anew other_anew →
        of i.name (world_after institutions rows events).rows
        ≡ of j.name (world_after others other_rows other_events).rows }
    ensures runs { (institutions others : List Institution) (rows other_rows : List Row)
        (events other_events : List Event) (i j : Institution) (anew other_anew : ℕ → ℕ)
        (given other_given : List Reply) (kept other_kept : List Row) →
        IsRun institutions rows events given kept →
        IsRun others other_rows other_events other_given other_kept →
        Begins institutions rows events i → Begins others other_rows other_events j →
        AgreeButForNumbers institutions others rows other_rows events other_events i j
        anew other_anew →
        let some = map (renumbered_reply anew)
        (replies_at (is_own_event institutions i.name events) events given) in
        let more = map (renumbered_reply other_anew)
        (replies_at (is_own_event others j.name other_events) other_events other_given) in
        IsPrefix some more ⊎ IsPrefix more some }
{
    a_longer_stream_adds_inputs();
    own_records_are_edited();
    other_records_stay();
    rows_stay_in_order();
}

/// Whatever a crash leaves after a run, the rows are those after all events that were answered and
/// the first operations of the next one, so that they are a run's rows themselves: each
/// institution's are those of its server alone. A further history may begin from them, with no
/// connection held, and is isolated again.
pub fn what_a_crash_leaves()
    ensures run { (institutions : List Institution) (rows : List Row) (events : List Event)
        (given : List Reply) (kept left : List Row) → IsRun institutions rows events given kept →
        IsLeftOf institutions rows events given kept left →
        IsRun institutions rows events given left }
    ensures own { (institutions : List Institution) (rows : List Row) (events : List Event)
        (given : List Reply) (kept left : List Row) → IsRun institutions rows events given kept →
        IsLeftOf institutions rows events given kept left →
        (i : Institution) → Begins institutions rows events i →
        IsOwnRun institutions rows events i given left }
    ensures again { (institutions : List Institution) (rows : List Row) (events : List Event)
        (given : List Reply) (kept left : List Row) →
        IsLeftOf institutions rows events given kept left →
        (i : Institution) → Begins institutions rows events i →
        (more : List Event) → IsTrue (is_well_formed_history more) → Begins institutions left more i }
{
    a_longer_stream_adds_inputs();
    own_records_are_edited();
    other_records_stay();
    rows_stay_in_order();
}

/// A run of a history, and what a restart finds after it. Let a crash be able to leave only the rows
/// that the run begins with. Whatever a crash leaves afterwards then has all that was answered, and
/// at most the operation in hand. Each institution is answered from there as by a server of its own.
pub fn a_restart_finds_what_was_answered<T: Tables + Drop>(
    alloc: Global,
    config: Config,
    tables: T,
    events: Vec<Event>,
) -> Result<Outcome<T>, Fault>
    requires formed { IsTrue (is_well_formed_history events.items) }
    requires working { (T.state tables).failed ≡ false }
    ensures outcome { IsOk result }
    ensures restart { IfOk result (λ outcome. (T.state outcome.tables).honest →
        IsSettled (T.state tables) →
        (found : List Row) → (T.state outcome.tables).may_leave found →
        IsRestart config (T.state tables).rows events.items outcome.replies
        (T.state outcome.tables).rows found) }
{
    what_a_crash_leaves();
    institutions_are_isolated();
    institutions_have_own_names();
    config.is_sound();
    let outcome = run(alloc, config, tables, events)?;
    Ok(outcome)
}

/// Each service keeps rows sound that are sound and hold data sets, whatever octets it is sent, and
/// they hold data sets then, too.
pub fn services_keep_rows_sound()
    ensures { ServicesKeep HoldSound }
{
    stored_rows_stay_sound();
    stored_rows_hold_data_sets();
    steps_stay_sound();
    steps_hold_data_sets();
    entries_stay_sound();
    entries_hold_data_sets();
}

/// The server keeps rows sound, whatever octets it is sent. They stay sound, and hold data sets,
/// after a message and after an order, after the first operations of an event, after a history and
/// within it, and so after a run that a fault ends. At first there are no rows, which are sound, as
/// are all sound rows of octets.
pub fn rows_stay_sound()
    ensures at_first { HoldSound [] }
    ensures of_octets { (rows : List Row) → IsSound rows →
        AllByRecursion (λ (row : Row). AreOctets row.octets) rows → HoldSound rows }
    ensures message { (name : List ℕ) (rows : List Row) (limits : Limits)
        (agreement : Agreement) (message : Message) → AreOctets message.octets → HoldSound rows →
        HoldSound (after (by name (service_of_message limits (of name rows) agreement message).edits) rows) }
    ensures order { (name : List ℕ) (rows : List Row) (limits : Limits) (order : ConsoleOrder) →
        HoldsOctets order → HoldSound rows →
        HoldSound (after (by name (console_outcome limits (of name rows) order).edits) rows) }
    ensures event { (institutions : List Institution) (world : World) (event : Event)
        (operations : ℕ) → CameAsOctets world.connections → BringsOctets event →
        HoldSound world.rows →
        HoldSound (after_all (take operations (turn institutions world event).operations)
        world.rows) }
    ensures history { (institutions : List Institution) (rows : List Row) (events : List Event) →
        BringOctets events → HoldSound rows →
        HoldSound (world_after institutions rows events).rows }
    // The values that came on the connections that are held afterwards were octets, too.
    ensures came { (institutions : List Institution) (rows : List Row) (events : List Event) →
        BringOctets events → CameAsOctets (world_after institutions rows events).connections }
    ensures within { (institutions : List Institution) (rows : List Row) (events : List Event)
        (answered operations : ℕ) → BringOctets events → HoldSound rows →
        HoldSound (rows_within institutions rows events answered operations) }
    ensures run { (institutions : List Institution) (rows : List Row) (events : List Event)
        (given : List Reply) (kept : List Row) → IsRun institutions rows events given kept →
        BringOctets events → HoldSound rows → HoldSound kept }
{
    own_records_are_edited();
    spelling_law();
    services_keep_rows_sound();
}

/// Each service leaves rows as the server makes them, whatever octets it is sent: sound ones that hold
/// data sets, and in each record of a study, of a series and of an image attributes of its own level
/// alone.
pub fn services_keep_rows_as_made()
    ensures { ServicesKeep AreMade }
{
    services_keep_rows_sound();
    records_keep_to_their_levels();
    steps_leave_other_kinds();
    entries_leave_other_kinds();
}

/// The server leaves rows as it makes them, after a history and within it, and after a run that a
/// fault ends. At first there are no rows, which are such rows.
pub fn rows_stay_as_made()
    ensures at_first { AreMade [] }
    ensures history { (institutions : List Institution) (rows : List Row) (events : List Event) →
        BringOctets events → AreMade rows →
        AreMade (world_after institutions rows events).rows }
    ensures within { (institutions : List Institution) (rows : List Row) (events : List Event)
        (answered operations : ℕ) → BringOctets events → AreMade rows →
        AreMade (rows_within institutions rows events answered operations) }
    ensures run { (institutions : List Institution) (rows : List Row) (events : List Event)
        (given : List Reply) (kept : List Row) → IsRun institutions rows events given kept →
        BringOctets events → AreMade rows → AreMade kept }
{
    own_records_are_edited();
    services_keep_rows_as_made();
}

/// The status of each C-STORE in a history says what stands, over rows that the server made. It is
/// 0000 only where each element that was sent stands, with equal octets, in the record of the study,
/// of the series or of the image after the call. It is B006 only where one does not.
pub fn each_status_says_what_stands()
    ensures message { (name : List ℕ) (rows : List Row) (limits : Limits)
        (agreement : Agreement) (message : Message) → AreOctets message.octets → AreMade rows →
        IsToldTruly limits name rows agreement message }
    ensures history { (institutions : List Institution) (rows : List Row) (events : List Event)
        (number : ℕ) (i : Institution) → BringOctets events → AreMade rows →
        AllByRecursion (IsToldTrulyAt i) (arrivals institutions rows number [] events) }
{
    own_records_are_edited();
    services_keep_rows_as_made();
    the_status_says_what_stands();
}

/// Associations over a whole history. On a connection that an institution owns the server sends
/// exactly its conversation, and closes the connection exactly where that says so. The conversation
/// is the answer to the request, the responses to each message over the rows that there are as it
/// arrives, and the answer to what ends the association.
///
/// The responses to a C-FIND are sent in pages: one at once, one at each pull. Another message first
/// brings all that are left. A C-CANCEL of the C-FIND brings FE00 in their place, and one of another
/// message brings nothing. The final response comes last, once. Where it has status 0000, the pending
/// responses are the records that match, in the order of their keys; else there are none.
pub fn associations_are_answered_in_full()
    ensures history { (institutions : List Institution) (rows : List Row) (events : List Event)
        (number : ℕ) (i : Institution) → IsTrue (is_well_formed_history events) →
        owner institutions (stream_of number events) ≡ Some i →
        IsAnswered institutions rows events number i }
    // The reply at an event sends, and closes, what the event adds to the conversation.
    ensures at_each_event { (institutions : List Institution) (rows : List Row)
        (events : List Event) (number : ℕ) (i : Institution) (event : Event) →
        IsTrue (is_well_formed_history (events ++ event ∷ [])) →
        owner institutions (stream_of number events) ≡ Some i →
        is_on_connection number event ≡ true →
        IsAnsweredAt institutions rows events number i event }
    // A run that a fault ends sends the conversation of the events that were answered.
    ensures run { (institutions : List Institution) (rows : List Row) (events : List Event)
        (given : List Reply) (kept : List Row) (number : ℕ) (i : Institution) →
        IsRun institutions rows events given kept → IsTrue (is_well_formed_history events) →
        owner institutions (stream_of number (take (length given) events)) ≡ Some i →
        outputs_on number events given
        ≡ conversation_on institutions rows number i (take (length given) events) }
    // It is exact where the rows were sound and octets were sent.
    ensures exact { (institutions : List Institution) (rows : List Row) (events : List Event)
        (given : List Reply) (kept : List Row) (number : ℕ) (i : Institution) →
        IsRun institutions rows events given kept → IsTrue (is_well_formed_history events) →
        HoldSound rows → BringOctets events →
        owner institutions (stream_of number (take (length given) events)) ≡ Some i →
        IsAnsweredRun institutions rows events given number i }
{
    a_longer_stream_adds_inputs();
    study_answers_in_order();
    worklist_answers_in_order();
    own_records_are_edited();
    services_keep_rows_sound();
}

/// Pulls only cut the responses to a C-FIND into pages. Take the arrivals on an association twice,
/// with other pulls and no other difference. Where each search is finished in both, by enough pulls
/// or by another message, the same is sent, octet for octet, and it closes in the same place.
#[tactic(auto, using(crate::proofs::isolation::Finishing::cut_alike))]
pub fn pulls_cut_answers_into_pages()
    ensures { (i : Institution) (agreement : Agreement) (arrivals others : List Arrival) →
        AreFinished i agreement arrivals → AreFinished i agreement others →
        without_page_requests arrivals ≡ without_page_requests others →
        exchange i agreement arrivals ≡ exchange i agreement others }
{}

/// Two looks at a server are as one, and no look is as one.
pub fn looks_are_one_look<T: Tables>()
    ensures no_look { (server : ServerView T) → Looked T.state server server }
    ensures another { (old mid new : ServerView T) → Looked T.state old mid →
        Looked T.state mid new → Looked T.state old new }
{}

/// The search results and the steps that an institution is shown are those that a server of its own
/// shows over its rows. Other institutions' records do not affect them.
pub fn what_is_shown_is_own()
    ensures found { (institutions : List Institution) (rows : List Row) (events : List Event)
        (i : Institution) (kind : SearchKind) (keys : ElementList) (page : ShownPage) →
        Begins institutions rows events i →
        found_for institutions i.name (world_after institutions rows events).rows kind keys page
        ≡ found_for (i ∷ []) i.name
        (world_alone i rows (own institutions i.name events)).rows kind keys page }
    ensures steps { (institutions : List Institution) (rows : List Row) (events : List Event)
        (i : Institution) (page : ShownPage) → Begins institutions rows events i →
        steps_for institutions i.name (world_after institutions rows events).rows page
        ≡ steps_for (i ∷ []) i.name
        (world_alone i rows (own institutions i.name events)).rows page }
    ensures own_rows { (institutions : List Institution) (name : List ℕ) (rows alike : List Row)
        (kind : SearchKind) (keys : ElementList) (page : ShownPage) →
        of name rows ≡ of name alike →
        found_for institutions name rows kind keys page
        ≡ found_for institutions name alike kind keys page }
    ensures own_steps { (institutions : List Institution) (name : List ℕ) (rows alike : List Row)
        (page : ShownPage) → of name rows ≡ of name alike →
        steps_for institutions name rows page ≡ steps_for institutions name alike page }
{
    institutions_are_isolated();
}

/// On worked examples, octet for octet: over no rows a query for all studies is answered with 0000
/// alone, and one at a level that there is not with A900; a C-STORE without a data set with A900, and
/// on Verification with 0211; and a study is found at the institution that keeps it, and not at
/// another.
pub fn examples_are_answered_octet_for_octet()
    ensures nothing_found { replies built_in [] (example.history
        (example.four_contexts ∷ example.find_studies ∷ []))
        ≡ Done ∷ example.reply_with example.four_results
        ∷ example.reply_with (example.find_status 0x0000) ∷ [] }
    ensures no_level { replies built_in [] (example.history
        (example.four_contexts ∷ example.find_level (codes "VISIT ") ∷ []))
        ≡ Done ∷ example.reply_with example.four_results
        ∷ example.reply_with (example.find_status 0xa900) ∷ [] }
    ensures no_data_set { replies built_in [] (example.history
        (example.four_contexts ∷ example.store_on 3 ∷ []))
        ≡ Done ∷ example.reply_with example.four_results
        ∷ example.reply_with (example.store_status 3 0xa900) ∷ [] }
    ensures no_operation { replies built_in [] (example.history
        (example.associate_request example.modality_title ∷ example.store_on 1 ∷ []))
        ≡ Done ∷ example.reply_with (example.acceptance_pdu example.modality_title)
        ∷ example.reply_with (example.example_response 0x8001 0x0211) ∷ [] }
    ensures found { replies (example.two 4) (example.kept_study ∷ []) (example.history
        (example.find_request example.ct1 ∷ example.find_uids ∷ []))
        ≡ Done ∷ example.reply_with (example.find_accepted example.ct1)
        ∷ example.reply_with (example.found_study ++ example.find_status 0x0000) ∷ [] }
    ensures another { replies (example.two 4) (example.kept_study ∷ []) (example.history
        (example.find_request example.ct2 ∷ example.find_uids ∷ []))
        ≡ Done ∷ example.reply_with (example.find_accepted example.ct2)
        ∷ example.reply_with (example.find_status 0x0000) ∷ [] }
{}

/// Searches on worked examples, octet for octet. Of 130 studies 64 are sent at once, 64 at a pull, 2
/// and the final response at another. A C-CANCEL of another message brings nothing, and one of the
/// search brings FE00. Another query, or a C-ECHO on a context of its own, first brings all that is
/// left; a release is answered, and closes.
pub fn searches_are_answered_in_pages()
    ensures paged { replies (example.two 4) (example.studies_from 100 130) (example.search_then
        (Event.Pull 1 ∷ Event.Pull 1 ∷ Event.Pull 1 ∷ []))
        ≡ Done ∷ example.reply_with (example.find_accepted example.ct1)
        ∷ example.reply_with (example.found_from 100 64)
        ∷ example.reply_with (example.found_from 164 64)
        ∷ example.reply_with (example.found_from 228 2 ++ example.find_status 0)
        ∷ example.reply_with [] ∷ [] }
    ensures cancelled { replies (example.two 4) (example.studies_from 100 65) (example.search_then
        (Event.Piece 1 (example.cancel_request 2) ∷ Event.Piece 1 (example.cancel_request 1) ∷ Event.Pull 1 ∷ []))
        ≡ Done ∷ example.reply_with (example.find_accepted example.ct1)
        ∷ example.reply_with (example.found_from 100 64) ∷ example.reply_with []
        ∷ example.reply_with (example.find_status 0xfe00) ∷ example.reply_with [] ∷ [] }
    ensures another { replies (example.two 4) (example.studies_from 100 65) (example.search_then
        (Event.Piece 1 (example.find_level (codes "VISIT ")) ∷ Event.Pull 1 ∷ []))
        ≡ Done ∷ example.reply_with (example.find_accepted example.ct1)
        ∷ example.reply_with (example.found_from 100 64)
        ∷ example.reply_with (example.found_from 164 1 ++ example.find_status 0
        ++ example.find_status 0xa900) ∷ example.reply_with [] ∷ [] }
    ensures echo { replies (example.two 4) (example.studies_from 100 130) (example.find_and_echo_then
        (Event.Piece 1 (example.echo_on 3 2) ∷ Event.Pull 1 ∷ Event.Piece 1 example.release
        ∷ Event.Pull 1 ∷ []))
        ≡ Done ∷ example.reply_with (example.find_and_echo_accepted example.ct1)
        ∷ example.reply_with (example.found_from 100 64)
        ∷ example.reply_with (example.found_from 164 66 ++ example.find_status 0
        ++ example.echoed_on 3 2) ∷ example.reply_with []
        ∷ Octets 1 example.release_response true ∷ Ignored ∷ [] }
{}
