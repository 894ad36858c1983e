//! The rowids of a found table.
ghost use Rattle.std.specs.Prelude.{◌≡◌, [], ◌∷◌, ◌++◌, List, IfOk, MatchBool, MatchOption};
ghost use Rattle.std.specs.List.{IsAllAdjacentAnswer};
ghost use Rattle.std.specs.Ordering.{int_cmp, is_lt};
ghost use Rattle.sqlite_value.specs.Order.{Row as Values};
ghost use Rattle.dq_sql.specs.FoundStores.{AreApart, AreIds, HasWholeRowid, rowid_of};

use crate::row_check::value_at;
use sqlite::types::ValueRef;
use std::alloc::AllocError;

/// The rowid, where it is a whole number.
fn id_in(found: &sqlite::Row) -> Option<i64>
    ensures { MatchOption result (¬ HasWholeRowid found.now)
        (λ id. HasWholeRowid found.now × (rowid_of found.now ≡ id)) }
{
    match value_at(found, 0) {
        ValueRef::Int(id) => Some(id),
        _ => None,
    }
}

/// The rowids of found rows and of one more, while all are whole numbers.
#[tactic(auto, using(crate::proofs::Judgements::id_more, crate::proofs::Judgements::id_none, crate::proofs::Judgements::id_bad))]
pub(crate) fn ids_then(
    ids: Option<Vec<i64>>,
    found: &sqlite::Row,
) -> Result<Option<Vec<i64>>, AllocError>
    ensures { IfOk result (λ new. (seen : List Values) → AreIds seen ids
        → AreIds (seen ++ found.now ∷ []) new) }
{
    let Some(mut ids) = ids else {
        return Ok(None);
    };
    let Some(id) = id_in(found) else {
        return Ok(None);
    };
    ids.push(id)?;
    Ok(Some(ids))
}

/// Whether each is below the next.
fn all_rise(ids: &[i64]) -> bool
    ensures { IsAllAdjacentAnswer (λ a b rises. rises ≡ is_lt (int_cmp a b)) ids.now result }
{
    for at in 1..ids.len() {
        if ids[at - 1].cmp(&ids[at]).is_ge() {
            return false;
        }
    }
    true
}

/// Whether the rowids of found rows are whole numbers, no two alike.
pub(crate) fn are_apart(ids: Option<Vec<i64>>) -> Result<bool, AllocError>
    ensures { IfOk result (λ apart. (found : List Values) → AreIds found ids
        → MatchBool apart (AreApart found) (¬ AreApart found)) }
{
    let Some(mut ids) = ids else {
        return Ok(false);
    };
    ids.sort()?;
    Ok(all_rise(ids.as_slice()))
}
