//! Searches of what an institution keeps.
ghost use Rattle.std.specs.Prelude.{◌≡◌, IfOk, IfErr, OnOk};
ghost use Rattle.dq_core.specs.Looking.{Looked};
ghost use Rattle.dq_core.specs.Showing.{found_for};
ghost use Rattle.dq_request.specs.Searches.{identifier_of};
ghost use Rattle.dq_console.specs.Requests.{kind_of, is_steps, found_response, steps_response, search_response, GoesOn, LooksInPart};

use crate::answer_error::AnswerError;
use crate::if_memory::IfMemory;
use dq_core::laws::looks_are_one_look;
use dq_core::{FoundPage, SearchKind, StepsPage};
use dq_dataset::DataSet;
use dq_dimse::status::SUCCESS;
use dq_list::Listed;
use dq_match::Found;
use dq_request::{Cause, Response, Search, Subject};
use dq_tables::Tables;
use dq_wires::Turner;
use std::alloc::{AllocError, Global};

/// Among what is searched, and after which key.
fn kind_of(alloc: Global, search: &Search) -> Result<SearchKind, AllocError>
    ensures { IfOk result (λ kind. kind ≡ kind_of search.now.subject search.now.after) }
{
    match search.subject {
        Subject::Worklist => Ok(SearchKind::Worklist),
        Subject::StudyImages => Ok(SearchKind::StudyImages),
        Subject::Studies | Subject::Series | Subject::Images | Subject::Steps => {
            let after = copy_of(alloc, &search.after)?;
            Ok(SearchKind::StudyRoot { after })
        }
    }
}

fn copy_of(alloc: Global, key: &Option<Listed<u8>>) -> Result<Option<Listed<u8>>, AllocError>
    ensures { IfOk result (λ copy. copy ≡ key.now) }
{
    match key {
        Some(key) => Ok(Some(Listed::copy_of(alloc, key.as_slice())?)),
        None => Ok(None),
    }
}

fn is_steps(subject: Subject) -> bool
    ensures { result ≡ is_steps subject }
{
    matches!(subject, Subject::Steps)
}

/// Returns the answer to a search that found this, and to one of a name that no institution has.
fn found_response(found: Option<Found>) -> Response
    ensures { result ≡ found_response found }
{
    match found {
        None => Response::Refused(Cause::Institution),
        Some(found) if found.status == SUCCESS => Response::Found(found.answers),
        Some(found) => Response::Refused(Cause::Search(found.status)),
    }
}

fn steps_response(steps: Option<Listed<DataSet>>) -> Response
    ensures { result ≡ steps_response steps }
{
    match steps {
        None => Response::Refused(Cause::Institution),
        Some(steps) => Response::Found(steps),
    }
}

/// Searches by keys.
fn search_by_keys<T: Tables>(
    alloc: Global,
    turner: &mut Turner<T>,
    search: &Search,
) -> Result<Response, AnswerError>
    ensures told { (T.state turner.new.server.tables).honest → IfOk result (λ response. response
        ≡ found_response (found_for turner.old.server.institutions search.now.institution
        (T.state turner.old.server.tables).rows (kind_of search.now.subject search.now.after)
        (identifier_of search.now.subject search.now.keys) search.now.page)) }
    ensures looked { OnOk result (Looked T.state turner.old.server turner.new.server) }
    ensures hold { turner.new.hold ≡ turner.old.hold }
    ensures fault { GoesOn result (turner.new.fault ≡ turner.old.fault) }
    ensures cut { IfErr result (LooksInPart T.state turner.old.server turner.new.server) }
{
    looks_are_one_look::<T>();
    let keys = search.identifier(alloc)?;
    let kind = kind_of(alloc, search)?;
    let name = search.institution.as_slice();
    let found = turner.look(&IfMemory(FoundPage {
        name,
        kind: &kind,
        keys: &keys,
        page: search.page,
    }))??;
    Ok(found_response(found))
}

/// Searches what an institution keeps: by keys, or all its performed procedure steps.
pub fn search<T: Tables>(
    alloc: Global,
    turner: &mut Turner<T>,
    search: &Search,
) -> Result<Response, AnswerError>
    ensures told { (T.state turner.new.server.tables).honest → IfOk result (λ response. response
        ≡ search_response turner.old.server.institutions (T.state turner.old.server.tables).rows
        search.now) }
    ensures looked { OnOk result (Looked T.state turner.old.server turner.new.server) }
    ensures hold { turner.new.hold ≡ turner.old.hold }
    ensures fault { GoesOn result (turner.new.fault ≡ turner.old.fault) }
    ensures cut { IfErr result (LooksInPart T.state turner.old.server turner.new.server) }
{
    looks_are_one_look::<T>();
    if !is_steps(search.subject) {
        return search_by_keys(alloc, turner, search);
    }
    let steps = turner.look(&IfMemory(StepsPage {
        name: search.institution.as_slice(),
        page: search.page,
    }))??;
    Ok(steps_response(steps))
}
