//! The query of an identifier (PS3.4 section K.4.1.2).
ghost use Rattle.std.specs.Prelude.{◌≡◌, IfOk};
ghost use Rattle.dq_match.specs.Identifiers.{HasKnownTags};
ghost use Rattle.dq_worklist.specs.Queries.{keys_query, worklist_identifier_query};

use dq_dataset::DataSet;
use dq_dimse::status::DOES_NOT_MATCH_SOP_CLASS;
use dq_match::{KeyList, is_query, strike};
use std::alloc::{AllocError, Global};

/// A query: the keys that are supported, and whether there were others.
#[derive(Drop)]
pub(crate) struct Query {
    pub(crate) keys: DataSet,
    pub(crate) optional: bool,
}

/// The query of the identifier of a message, or the status that refuses it: the identifier is too
/// long, unreadable, or has a value that is not well formed.
pub(crate) fn query_of(
    alloc: Global,
    identifier: &Result<DataSet, u16>,
) -> Result<Result<Query, u16>, AllocError>
    ensures query { IfOk result (λ q. q ≡ worklist_identifier_query identifier.now) }
    ensures known { IfOk result (λ q. IfOk q (λ query. HasKnownTags query.keys)) }
{
    match identifier {
        Ok(identifier) => query_at(alloc, identifier),
        Err(status) => Ok(Err(*status)),
    }
}

/// The query of an identifier, or the status that refuses it.
pub(crate) fn query_at(
    alloc: Global,
    identifier: &DataSet,
) -> Result<Result<Query, u16>, AllocError>
    ensures query { IfOk result (λ q. q ≡ keys_query identifier.now) }
    ensures known { IfOk result (λ q. IfOk q (λ query. HasKnownTags query.keys)) }
{
    let (keys, optional) = strike(alloc, identifier, KeyList::Entry)?;
    if !is_query(&keys) {
        return Ok(Err(DOES_NOT_MATCH_SOP_CLASS));
    }
    Ok(Ok(Query { keys, optional }))
}
