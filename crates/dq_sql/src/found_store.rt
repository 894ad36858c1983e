//! The rows of a store that is found.
ghost use Rattle.std.specs.Prelude.{◌≡◌, ◌≢◌, ◌⊎◌, List, pos, Err, IfSome, IfOk, IfErr, IsErr, IsErrAnd, IsTrue, OnOk, MatchBool, true, false, []};
ghost use Rattle.sqlite_value.specs.declared.value.Value.TheVariants.{Int};
ghost use Rattle.sqlite_value.specs.Order.{Row as Values, column};
ghost use Rattle.sqlite.specs.State.{HasCleanDisk, IsLive};
ghost use Rattle.sqlite.specs.Held.{state};
ghost use Rattle.dq_tables.specs.Rows.{IsRising};
ghost use Rattle.dq_tables.specs.Sound.{IsSound};
ghost use Rattle.dq_sql.specs.declared.fault.StoreFault.TheVariants.{NoMemory, Store, WrongVersion, BadRows};
ghost use Rattle.dq_sql.specs.Schema.{version_number, schema_of};
ghost use Rattle.dq_sql.specs.Tie.{IsOfVersion, HasRowsOf, Stays};
ghost use Rattle.dq_sql.specs.FoundStores.{SaysNumber, number_query, ShowsAnother, NeverSays, FailsBy, IsTold, HasVersion, HoldOctets, IsOther, IsShaped, IsJudged, AreSound, IsFound};

use crate::fault::StoreFault;
use crate::ids::are_apart;
use crate::judgement::Judgement;
use crate::row_check::value_at;
use crate::row_order::are_held;
use crate::row_reader::{rows_judged, versions_read};
use crate::schema_test::{has_version, version_shaped};
use crate::version::Version;
use dq_tables::Row;
use sqlite::types::ValueRef;
use sqlite::{Alter, Connection};
use std::alloc::Global;

/// The version whose tables and indexes a store has alone, where no transaction is open.
fn version_found<S: Alter>(conn: &Connection<S>) -> Option<Version>
    ensures shaped { IfSome result (λ version. IsShaped version (state S.Store conn.now)) }
    ensures live { IsLive (state S.Store conn.now) }
{
    let schema = conn.schema();
    if conn.is_autocommit() {
        version_shaped(schema)
    } else {
        None
    }
}

/// Whether a store has the table that says its version, where no transaction is open.
fn tells_version<S: Alter>(conn: &Connection<S>) -> bool
    ensures has { IsTrue result → HasVersion (state S.Store conn.now).now.schema }
    ensures told { conn.now.in_transaction ≡ false → HasVersion (state S.Store conn.now).now.schema
        → IsTrue result }
{
    conn.is_autocommit() && has_version(conn.schema())
}

/// Whether the one number is the version's.
fn says_number(found: &[sqlite::Row], version: Version) -> bool
    ensures { MatchBool result (SaysNumber version found.now) (¬ SaysNumber version found.now) }
{
    match found {
        [number] => is_number(number, version),
        _ => false,
    }
}

/// Whether the first column is the version's number.
fn is_number(found: &sqlite::Row, version: Version) -> bool
    ensures { MatchBool result (column found.now 0 ≡ Int (pos (version_number version)))
        (column found.now 0 ≢ Int (pos (version_number version))) }
{
    match value_at(found, 0) {
        ValueRef::Int(number) => number == version.number(),
        _ => false,
    }
}

/// Whether a store that has the tables of the version says so.
#[tactic(auto, using(crate::proofs::SoundStores::version_told))]
fn is_of_version<S: Alter>(conn: &mut Connection<S>, version: Version) -> Result<bool, StoreFault>
    ensures told { HasCleanDisk (state S.Store conn.new)
        → (state S.Store conn.old).now.schema ≡ schema_of version
        → IfOk result (λ is_so. MatchBool is_so (IsOfVersion version (state S.Store conn.old).now)
        (¬ IsOfVersion version (state S.Store conn.old).now)) }
    ensures another { HasCleanDisk (state S.Store conn.new) → IfOk result (λ is_so.
        is_so ≡ false → ShowsAnother version (state S.Store conn.old) (state S.Store conn.new)) }
    ensures said { HasCleanDisk (state S.Store conn.new) → IfOk result (λ is_so.
        is_so ≡ true → NeverSays S.Store version conn.old → ⊥) }
    ensures fails { HasCleanDisk (state S.Store conn.new) → IfErr result
        (FailsBy number_query [] (state S.Store conn.old) (state S.Store conn.new)) }
    ensures fault { IfErr result (λ e. (e ≡ NoMemory) ⊎ (e ≡ Store)) }
    ensures stays { Stays (state S.Store conn.old) (state S.Store conn.new) }
{
    let found = versions_read(conn)?;
    Ok(says_number(found.as_slice(), version))
}

/// The rows of found ones, where they are those of a store with sound rows.
#[tactic(auto, using(crate::proofs::SoundStores::one_good))]
fn sound_rows(judgement: Judgement) -> Result<Vec<Row>, StoreFault>
    requires { IfSome judgement.rows (λ rows. IsRising rows.items) }
    ensures sound { IfOk result (λ rows. (found : List Values) → IsJudged found judgement
        → AreSound found rows.items × HoldOctets rows.items) }
    ensures bad { result ≡ Err BadRows → (found : List Values) → IsJudged found judgement
        → (rows : _) → ¬ AreSound found rows }
    ensures version { result ≢ Err WrongVersion }
{
    let Judgement { ids, rows } = judgement;
    let Some(rows) = rows else {
        return Err(StoreFault::BadRows);
    };
    if are_apart(ids)? && are_held(rows.as_slice()) {
        Ok(rows)
    } else {
        Err(StoreFault::BadRows)
    }
}

/// Returns all rows of a store of a version, in order. Nothing changes.
///
/// The version comes first. A store without the table `version` is refused by `Store`, and one where
/// this says another number by `WrongVersion`, whatever other tables it has. One of the version is
/// refused by `Store` where its tables and indexes are not those of the version, and by `BadRows`
/// where a row is not its record's own or the row above it is missing.
#[tactic(auto, using(crate::proofs::SoundStores::found_sound, crate::proofs::SoundStores::stays_then))]
pub fn kept_rows<S: Alter>(
    conn: &mut Connection<S>,
    alloc: Global,
    version: Version,
) -> Result<Vec<Row>, StoreFault>
    ensures found { HasCleanDisk (state S.Store conn.new)
        → IfOk result (λ rows. IsFound version (state S.Store conn.old) rows.items) }
    ensures sound { IfOk result (λ rows. IsSound rows.items) }
    ensures octets { IfOk result (λ rows. HoldOctets rows.items) }
    ensures live { IsLive (state S.Store conn.old) }
    ensures other { (¬ HasVersion (state S.Store conn.old).now.schema) → result ≡ Err Store }
    ensures foreign { IsOther (state S.Store conn.old).now.schema → IsErr result }
    ensures wrong { HasCleanDisk (state S.Store conn.new) → result ≡ Err WrongVersion
        → ShowsAnother version (state S.Store conn.old) (state S.Store conn.new) }
    // Any other number is told so, where no transaction is open.
    ensures told { HasCleanDisk (state S.Store conn.new) → conn.old.in_transaction ≡ false
        → HasVersion (state S.Store conn.old).now.schema → NeverSays S.Store version conn.old
        → IsErrAnd result (IsTold (state S.Store conn.old) (state S.Store conn.new)) }
    ensures said { HasCleanDisk (state S.Store conn.new) → result ≡ Err BadRows
        → IsOfVersion version (state S.Store conn.old).now }
    ensures bad { HasCleanDisk (state S.Store conn.new) → result ≡ Err BadRows
        → (rows : _) → HasRowsOf version (state S.Store conn.old).now rows → ¬ IsSound rows }
    ensures alone { OnOk result (conn.new.in_transaction ≡ false) }
    ensures stays { Stays (state S.Store conn.old) (state S.Store conn.new) }
{
    let shaped = version_found(conn);
    if !tells_version(conn) {
        return Err(StoreFault::Store);
    }
    if !is_of_version(conn, version)? {
        return Err(StoreFault::WrongVersion);
    }
    let Some(shaped) = shaped else {
        return Err(StoreFault::Store);
    };
    if shaped != version {
        return Err(StoreFault::Store);
    }
    let judgement = rows_judged(conn, alloc, version)?;
    sound_rows(judgement)
}
