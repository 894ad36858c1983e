//! The tables and indexes of a new store.
ghost use Rattle.std.specs.Prelude.{◌≡◌, ◌≢◌, [], ◌∷◌, OnOk, MatchBool};
ghost use Rattle.sqlite.specs.State.{HasCleanDisk, Survives, KeepsCommit};
ghost use Rattle.sqlite.specs.Held.{state};
ghost use Rattle.dq_sql.specs.SchemaCreation.{no_schema, MakesKept, MakesVersion, MakesIndex, MakesIndexes, SaysVersion, StoreGoesOn};
ghost use Rattle.dq_sql.specs.Schema.{above_index, patient_index, day_index, started_index};
ghost use Rattle.dq_sql.specs.Tie.{HasRows};

use sqlite::{Alter, Error, Transaction};
use sqlite_schema::schema::Schema;

/// Whether a schema has nothing.
pub(crate) fn is_empty(schema: &Schema) -> bool
    ensures { MatchBool result (schema.now ≡ no_schema) (schema.now ≢ no_schema) }
{
    schema.tables.as_slice().is_empty()
        && schema.indexes.as_slice().is_empty()
        && schema.views.as_slice().is_empty()
}

/// Makes the table `kept`, of a row for each row that is kept: `kind` is a `Kind`'s number, `inst`
/// the institution's name, `id` the key, `above` the key of the row above, and `octets` the record.
/// `patient` is the only value of a study's Patient ID, and `day` that of its Study Date as a number;
/// both are null where there is no such value, and in other rows. `started` is 1 for an entry that is
/// started, and else 0.
fn make_kept<S: Alter>(tx: &mut Transaction<'_, S>) -> Result<usize, Error>
    ensures same_reference { tx.new.conn.ghost_name ≡ tx.old.conn.ghost_name }
    ensures goes_on { HasCleanDisk (state S.Store tx.new.conn.now)
        → OnOk result (StoreGoesOn (state S.Store tx.old.conn.now) (state S.Store tx.new.conn.now)) }
    ensures makes { HasCleanDisk (state S.Store tx.new.conn.now)
        → OnOk result (MakesKept (state S.Store tx.old.conn.now).now
        (state S.Store tx.new.conn.now).now) }
    ensures kept { HasCleanDisk (state S.Store tx.new.conn.now)
        → KeepsCommit (state S.Store tx.old.conn.now) (state S.Store tx.new.conn.now) }
    ensures survives { Survives (state S.Store tx.old.conn.now) (state S.Store tx.new.conn.now)
        (λ _. ⊥) }
{
    tx.execute(
        "CREATE TABLE kept (kind INTEGER NOT NULL CHECK (kind BETWEEN 1 AND 5), inst TEXT NOT NULL, id BLOB NOT NULL, above BLOB NOT NULL, patient BLOB, day INTEGER, octets BLOB NOT NULL, started INTEGER NOT NULL, PRIMARY KEY (kind, inst, id)) STRICT",
        &[],
    )
}

/// Makes the table `version`, whose one row says of which version the store is.
fn make_version<S: Alter>(tx: &mut Transaction<'_, S>) -> Result<usize, Error>
    ensures same_reference { tx.new.conn.ghost_name ≡ tx.old.conn.ghost_name }
    ensures goes_on { HasCleanDisk (state S.Store tx.new.conn.now)
        → OnOk result (StoreGoesOn (state S.Store tx.old.conn.now) (state S.Store tx.new.conn.now)) }
    ensures makes { HasCleanDisk (state S.Store tx.new.conn.now)
        → OnOk result (MakesVersion (state S.Store tx.old.conn.now).now
        (state S.Store tx.new.conn.now).now) }
    ensures kept { HasCleanDisk (state S.Store tx.new.conn.now)
        → KeepsCommit (state S.Store tx.old.conn.now) (state S.Store tx.new.conn.now) }
    ensures survives { Survives (state S.Store tx.old.conn.now) (state S.Store tx.new.conn.now)
        (λ _. ⊥) }
{
    tx.execute("CREATE TABLE version (number INTEGER NOT NULL) STRICT", &[])
}

/// Makes the index by which the rows under another are found.
fn make_above_index<S: Alter>(tx: &mut Transaction<'_, S>) -> Result<usize, Error>
    ensures same_reference { tx.new.conn.ghost_name ≡ tx.old.conn.ghost_name }
    ensures goes_on { HasCleanDisk (state S.Store tx.new.conn.now)
        → OnOk result (StoreGoesOn (state S.Store tx.old.conn.now) (state S.Store tx.new.conn.now)) }
    ensures makes { HasCleanDisk (state S.Store tx.new.conn.now)
        → OnOk result (MakesIndex [] above_index (state S.Store tx.old.conn.now).now
        (state S.Store tx.new.conn.now).now) }
    ensures kept { HasCleanDisk (state S.Store tx.new.conn.now)
        → KeepsCommit (state S.Store tx.old.conn.now) (state S.Store tx.new.conn.now) }
    ensures survives { Survives (state S.Store tx.old.conn.now) (state S.Store tx.new.conn.now)
        (λ _. ⊥) }
{
    tx.execute(
        "CREATE INDEX kept_above ON kept (kind, inst, above, id)",
        &[],
    )
}

/// Makes the index by which the studies of a patient are found.
fn make_patient_index<S: Alter>(tx: &mut Transaction<'_, S>) -> Result<usize, Error>
    ensures same_reference { tx.new.conn.ghost_name ≡ tx.old.conn.ghost_name }
    ensures goes_on { HasCleanDisk (state S.Store tx.new.conn.now)
        → OnOk result (StoreGoesOn (state S.Store tx.old.conn.now) (state S.Store tx.new.conn.now)) }
    ensures makes { HasCleanDisk (state S.Store tx.new.conn.now)
        → OnOk result (MakesIndex (above_index ∷ []) patient_index (state S.Store tx.old.conn.now).now
        (state S.Store tx.new.conn.now).now) }
    ensures kept { HasCleanDisk (state S.Store tx.new.conn.now)
        → KeepsCommit (state S.Store tx.old.conn.now) (state S.Store tx.new.conn.now) }
    ensures survives { Survives (state S.Store tx.old.conn.now) (state S.Store tx.new.conn.now)
        (λ _. ⊥) }
{
    tx.execute(
        "CREATE INDEX kept_patient ON kept (kind, inst, patient, id)",
        &[],
    )
}

/// Makes the index by which the studies of a day are found.
fn make_day_index<S: Alter>(tx: &mut Transaction<'_, S>) -> Result<usize, Error>
    ensures same_reference { tx.new.conn.ghost_name ≡ tx.old.conn.ghost_name }
    ensures goes_on { HasCleanDisk (state S.Store tx.new.conn.now)
        → OnOk result (StoreGoesOn (state S.Store tx.old.conn.now) (state S.Store tx.new.conn.now)) }
    ensures makes { HasCleanDisk (state S.Store tx.new.conn.now)
        → OnOk result (MakesIndex (above_index ∷ patient_index ∷ []) day_index (state S.Store tx.old.conn.now).now
        (state S.Store tx.new.conn.now).now) }
    ensures kept { HasCleanDisk (state S.Store tx.new.conn.now)
        → KeepsCommit (state S.Store tx.old.conn.now) (state S.Store tx.new.conn.now) }
    ensures survives { Survives (state S.Store tx.old.conn.now) (state S.Store tx.new.conn.now)
        (λ _. ⊥) }
{
    tx.execute("CREATE INDEX kept_day ON kept (kind, inst, day, id)", &[])
}

/// Makes the index by which the entries are found that wait.
fn make_started_index<S: Alter>(tx: &mut Transaction<'_, S>) -> Result<usize, Error>
    ensures same_reference { tx.new.conn.ghost_name ≡ tx.old.conn.ghost_name }
    ensures goes_on { HasCleanDisk (state S.Store tx.new.conn.now)
        → OnOk result (StoreGoesOn (state S.Store tx.old.conn.now) (state S.Store tx.new.conn.now)) }
    ensures makes { HasCleanDisk (state S.Store tx.new.conn.now)
        → OnOk result (MakesIndex (above_index ∷ patient_index ∷ day_index ∷ []) started_index
        (state S.Store tx.old.conn.now).now (state S.Store tx.new.conn.now).now) }
    ensures kept { HasCleanDisk (state S.Store tx.new.conn.now)
        → KeepsCommit (state S.Store tx.old.conn.now) (state S.Store tx.new.conn.now) }
    ensures survives { Survives (state S.Store tx.old.conn.now) (state S.Store tx.new.conn.now)
        (λ _. ⊥) }
{
    tx.execute(
        "CREATE INDEX kept_started ON kept (kind, inst, started, id)",
        &[],
    )
}

/// Makes the indexes, in the order of their trees.
fn make_indexes<S: Alter>(tx: &mut Transaction<'_, S>) -> Result<(), Error>
    ensures same_reference { tx.new.conn.ghost_name ≡ tx.old.conn.ghost_name }
    ensures goes_on { HasCleanDisk (state S.Store tx.new.conn.now)
        → OnOk result (StoreGoesOn (state S.Store tx.old.conn.now) (state S.Store tx.new.conn.now)) }
    ensures makes { HasCleanDisk (state S.Store tx.new.conn.now)
        → OnOk result (MakesIndexes (state S.Store tx.old.conn.now).now
        (state S.Store tx.new.conn.now).now) }
    ensures kept { HasCleanDisk (state S.Store tx.new.conn.now)
        → KeepsCommit (state S.Store tx.old.conn.now) (state S.Store tx.new.conn.now) }
    ensures survives { Survives (state S.Store tx.old.conn.now) (state S.Store tx.new.conn.now)
        (λ _. ⊥) }
{
    make_above_index(tx)?;
    make_patient_index(tx)?;
    make_day_index(tx)?;
    make_started_index(tx)?;
    Ok(())
}

/// Says that the store is of version 2.
fn say_version<S: Alter>(tx: &mut Transaction<'_, S>) -> Result<usize, Error>
    ensures same_reference { tx.new.conn.ghost_name ≡ tx.old.conn.ghost_name }
    ensures goes_on { HasCleanDisk (state S.Store tx.new.conn.now)
        → OnOk result (StoreGoesOn (state S.Store tx.old.conn.now) (state S.Store tx.new.conn.now)) }
    ensures makes { HasCleanDisk (state S.Store tx.new.conn.now)
        → OnOk result (SaysVersion (state S.Store tx.old.conn.now).now
        (state S.Store tx.new.conn.now).now) }
    ensures kept { HasCleanDisk (state S.Store tx.new.conn.now)
        → KeepsCommit (state S.Store tx.old.conn.now) (state S.Store tx.new.conn.now) }
    ensures survives { Survives (state S.Store tx.old.conn.now) (state S.Store tx.new.conn.now)
        (λ _. ⊥) }
{
    tx.execute("INSERT INTO version (number) VALUES (2)", &[])
}

/// Makes the tables and the indexes, and says the version.
pub(crate) fn make_tables<S: Alter>(tx: &mut Transaction<'_, S>) -> Result<(), Error>
    ensures same_reference { tx.new.conn.ghost_name ≡ tx.old.conn.ghost_name }
    ensures goes_on { HasCleanDisk (state S.Store tx.new.conn.now)
        → OnOk result (StoreGoesOn (state S.Store tx.old.conn.now) (state S.Store tx.new.conn.now)) }
    ensures makes { HasCleanDisk (state S.Store tx.new.conn.now)
        → OnOk result ((state S.Store tx.old.conn.now).now.schema ≡ no_schema
        → HasRows (state S.Store tx.new.conn.now).now []) }
    ensures kept { HasCleanDisk (state S.Store tx.new.conn.now)
        → KeepsCommit (state S.Store tx.old.conn.now) (state S.Store tx.new.conn.now) }
    ensures survives { Survives (state S.Store tx.old.conn.now) (state S.Store tx.new.conn.now)
        (λ _. ⊥) }
{
    make_kept(tx)?;
    make_version(tx)?;
    make_indexes(tx)?;
    say_version(tx)?;
    Ok(())
}
