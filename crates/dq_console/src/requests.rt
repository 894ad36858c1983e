//! Execution of the requests of the console and the web front.
ghost use Rattle.std.specs.Prelude.{◌≡◌, IfOk, IfErr, OnOk};
ghost use Rattle.dq_core.specs.Looking.{Looked};
ghost use Rattle.dq_core.specs.declared.event.Event.TheVariants as event;
ghost use Rattle.dq_wires.specs.Turners.{IsOrder};
ghost use Rattle.dq_console.specs.Requests.{is_among, counts_response, report_response, order_response, backup_response, Orders, OrdersInPart, Shows, BacksUp, Answered, GoesOn, LooksInPart, Unanswered};

use crate::answer_error::AnswerError;
use crate::backup::{Backups, Copying};
use crate::counting::{Counting, all_counted, counted};
use crate::if_memory::IfMemory;
use crate::searching::search;
use dq_core::laws::looks_are_one_look;
use dq_core::{Event, Reply, RowCount};
use dq_list::Listed;
use dq_request::{BackupError, Cause, Request, Response};
use dq_tables::{Kind, Tables};
use dq_wires::Turner;
use std::alloc::Global;

impl<T: Tables> Counting for Turner<T> {
    ghost use Rattle.std.proofs.Common.{refl, ◌∙◌};
    ghost use Rattle.dq_core.proofs.Looking.{looked-none, looked-then};
    ghost use Rattle.dq_console.specs.declared.answer_error.AnswerError.TheVariants.{NoMemory};

    ghost rows = { λ turner. (T.state turner.server.tables).rows };

    ghost is_honest = { λ turner. (T.state turner.server.tables).honest };

    ghost leads = { λ old new. Looked T.state old.server new.server
        × (new.hold ≡ old.hold) × (new.fault ≡ old.fault) };

    ghost fails = { λ old new error. LooksInPart T.state old.server new.server error
        × (new.hold ≡ old.hold) × (error ≡ NoMemory → new.fault ≡ old.fault) };

    fn count_rows(&mut self, kind: Kind, name: &[u8]) -> Result<u64, AnswerError> {
        Ok(self.look(&IfMemory(RowCount { kind, name }))??)
    }

    ghost leads_nowhere = { λ it. (looked-none it.server, refl, refl) };

    ghost leads_on = { λ old mid new one next.
        (looked-then one.0 next.0, next.1 ∙ one.1, next.2 ∙ one.2) };

    ghost fails_later = { λ old mid new error one next. (
      (next.0.0, looked-then one.0 next.0.1, next.0.2),
      next.1 ∙ one.1,
      λ goes_on. next.2 goes_on ∙ one.2,
    ) };

    ghost wants_memory = { λ old new one. ((new.server, one.0, refl), one.1, λ goes_on. one.2) };

    ghost keeps_rows = { λ old new one honest.
        (one.0.goes.was_honest honest, one.0.same honest) };
}

/// Returns the answer to an order. An order has no reply but that it is done, or its refusal.
fn order_response(reply: Reply) -> Response
    ensures { result ≡ order_response reply }
{
    match reply {
        Reply::Done => Response::Done,
        Reply::Refused(number) => Response::Refused(Cause::Order(number)),
        Reply::Octets { .. } | Reply::Ignored => Response::Refused(Cause::Order(0)),
    }
}

/// Returns the answer to a copy of all rows.
fn backup_response(made: Result<(), BackupError>) -> Response
    ensures { result ≡ backup_response made }
{
    match made {
        Ok(()) => Response::Done,
        Err(refusal) => Response::Refused(Cause::Copy(refusal)),
    }
}

/// Steps an order.
fn order<T: Tables>(turner: &mut Turner<T>, event: Event) -> Result<Response, AnswerError>
    requires { IsOrder event }
    ensures answered { IfOk result
        (Orders T.state turner.old.server turner.new.server event) }
    ensures hold { turner.new.hold ≡ turner.old.hold }
    ensures fault { GoesOn result (turner.new.fault ≡ turner.old.fault) }
    ensures cut { IfErr result
        (OrdersInPart T.state turner.old.server turner.new.server event) }
{
    let reply = turner.console(event)?;
    Ok(order_response(reply))
}

/// Copies all rows into a new file at a path, and says whether it is done, or why not.
fn back_up<T: Tables, B: Backups<T>>(
    alloc: Global,
    turner: &mut Turner<T>,
    backups: &B,
    path: &str,
) -> Result<Response, AnswerError>
    ensures answered { IfOk result (BacksUp T.state (B.copied backups.now)
        turner.old.server turner.new.server) }
    ensures hold { turner.new.hold ≡ turner.old.hold }
    ensures fault { turner.new.fault ≡ turner.old.fault }
    ensures cut { IfErr result (LooksInPart T.state turner.old.server turner.new.server) }
{
    looks_are_one_look::<T>();
    let copying = Copying {
        backups,
        alloc,
        path,
    };
    let made = turner.look(&copying)?;
    Ok(backup_response(made))
}

/// Whether a name is one of these.
fn is_among(names: &[Listed<u8>], name: &[u8]) -> bool
    ensures { result ≡ is_among names.now name.now }
{
    names.iter().any(|it| it.as_slice() == name)
}

/// How much the institution of a name keeps, if it is one of these.
fn count<T: Tables>(
    alloc: Global,
    turner: &mut Turner<T>,
    names: &[Listed<u8>],
    name: &[u8],
) -> Result<Response, AnswerError>
    ensures answered { IfOk result (Shows T.state turner.old.server turner.new.server
        (λ rows. counts_response names.now rows name.now)) }
    ensures hold { turner.new.hold ≡ turner.old.hold }
    ensures fault { GoesOn result (turner.new.fault ≡ turner.old.fault) }
    ensures cut { IfErr result (LooksInPart T.state turner.old.server turner.new.server) }
{
    looks_are_one_look::<T>();
    if !is_among(names, name) {
        return Ok(Response::Refused(Cause::Institution));
    }
    let mut all = Listed::empty(alloc);
    all.push(counted(alloc, turner, name)?)?;
    Ok(Response::Counted(all))
}

/// How much each institution keeps, in the order of these names.
fn report<T: Tables>(
    alloc: Global,
    turner: &mut Turner<T>,
    names: &[Listed<u8>],
) -> Result<Response, AnswerError>
    ensures answered { IfOk result (Shows T.state turner.old.server turner.new.server
        (report_response names.now)) }
    ensures hold { turner.new.hold ≡ turner.old.hold }
    ensures fault { GoesOn result (turner.new.fault ≡ turner.old.fault) }
    ensures cut { IfErr result (LooksInPart T.state turner.old.server turner.new.server) }
{
    let all = all_counted(alloc, turner, names)?;
    Ok(Response::Counted(all))
}

/// Has an entry kept in a worklist.
fn schedule<T: Tables>(
    alloc: Global,
    turner: &mut Turner<T>,
    institution: &[u8],
    octets: &[u8],
) -> Result<Response, AnswerError>
    ensures answered { IfOk result (Orders T.state turner.old.server turner.new.server
        (event.Schedule institution.now octets.now)) }
    ensures hold { turner.new.hold ≡ turner.old.hold }
    ensures fault { GoesOn result (turner.new.fault ≡ turner.old.fault) }
    ensures cut { IfErr result (OrdersInPart T.state turner.old.server turner.new.server
        (event.Schedule institution.now octets.now)) }
{
    let inst = Listed::copy_of(alloc, institution)?;
    let octets = Listed::copy_of(alloc, octets)?;
    order(turner, Event::Schedule { inst, octets })
}

/// Has an entry taken away.
fn withdraw<T: Tables>(
    alloc: Global,
    turner: &mut Turner<T>,
    institution: &[u8],
    id: &[u8],
) -> Result<Response, AnswerError>
    ensures answered { IfOk result (Orders T.state turner.old.server turner.new.server
        (event.Withdraw institution.now id.now)) }
    ensures hold { turner.new.hold ≡ turner.old.hold }
    ensures fault { GoesOn result (turner.new.fault ≡ turner.old.fault) }
    ensures cut { IfErr result (OrdersInPart T.state turner.old.server turner.new.server
        (event.Withdraw institution.now id.now)) }
{
    let inst = Listed::copy_of(alloc, institution)?;
    let id = Listed::copy_of(alloc, id)?;
    order(turner, Event::Withdraw { inst, id })
}

/// Does what is asked, and answers it.
pub fn serve<T: Tables, B: Backups<T>>(
    alloc: Global,
    turner: &mut Turner<T>,
    backups: &B,
    names: &[Listed<u8>],
    request: &Request,
) -> Result<Response, AnswerError>
    ensures answered { IfOk result (Answered T.state (B.copied backups.now) names.now
        turner.old.server turner.new.server request.now) }
    ensures hold { turner.new.hold ≡ turner.old.hold }
    ensures fault { GoesOn result (turner.new.fault ≡ turner.old.fault) }
    ensures cut { IfErr result
        (Unanswered T.state turner.old.server turner.new.server request.now) }
{
    looks_are_one_look::<T>();
    match request {
        Request::Search(it) => search(alloc, turner, it),
        Request::Counts(name) => count(alloc, turner, names, name.as_slice()),
        Request::Report => report(alloc, turner, names),
        Request::Schedule {
            institution,
            octets,
        } => schedule(alloc, turner, institution.as_slice(), octets.as_slice()),
        Request::Withdraw { institution, id } => {
            withdraw(alloc, turner, institution.as_slice(), id.as_slice())
        }
        Request::Backup(path) => back_up(alloc, turner, backups, path.as_str()),
    }
}
