//! The query of an identifier (PS3.4 section C.4.1.2).
ghost use Rattle.std.specs.Prelude.{◌≡◌, IfOk};
ghost use Rattle.dq_match.specs.Identifiers.{HasKnownTags};
ghost use Rattle.dq_find.specs.Levels.{level_of};
ghost use Rattle.dq_find.specs.Queries.{level_query, identifier_query};

use crate::level::Level;
use dq_dataset::DataSet;
use dq_dimse::status::DOES_NOT_MATCH_SOP_CLASS;
use dq_match::{is_query, strike};
use std::alloc::{AllocError, Global};

/// A query: its level, the keys that are supported there, and whether there were others.
#[derive(Drop)]
pub struct Query {
    pub level: Level,
    pub keys: DataSet,
    pub optional: bool,
}

/// The query of the identifier of a message, or the status that refuses it: the identifier is too
/// long, unreadable, names no level, lacks a unique key of a level above, or has a value that is not
/// well formed.
pub(crate) fn query_of(
    alloc: Global,
    identifier: &Result<DataSet, u16>,
) -> Result<Result<Query, u16>, AllocError>
    ensures query { IfOk result (λ q. q ≡ identifier_query identifier.now) }
    ensures known { IfOk result (λ q. IfOk q (λ query. HasKnownTags query.keys)) }
{
    match identifier {
        Ok(identifier) => query_at(alloc, identifier),
        Err(status) => Ok(Err(*status)),
    }
}

/// The query of an identifier, or the status that refuses it.
pub(crate) fn query_at(
    alloc: Global,
    identifier: &DataSet,
) -> Result<Result<Query, u16>, AllocError>
    ensures query { IfOk result (λ q. q ≡ level_query identifier.now (level_of identifier.now)) }
    ensures known { IfOk result (λ q. IfOk q (λ query. HasKnownTags query.keys)) }
{
    let Some(level) = Level::of(identifier) else {
        return Ok(Err(DOES_NOT_MATCH_SOP_CLASS));
    };
    let (keys, optional) = strike(alloc, identifier, level.keys())?;
    if !level.has_keys_above(&keys) || !is_query(&keys) {
        return Ok(Err(DOES_NOT_MATCH_SOP_CLASS));
    }
    Ok(Ok(Query {
        level,
        keys,
        optional,
    }))
}
