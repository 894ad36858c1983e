//! Entries that the kept steps of a store name, which are started where the store is migrated.
ghost use Rattle.std.specs.Prelude.{◌≡◌, map, IfOk, OnOk};
ghost use Rattle.dq_tables.specs.Rows.{IsRising, after};
ghost use Rattle.dq_tables.specs.Sound.{IsSound};
ghost use Rattle.dq_sql.specs.MigratedRows.{starts_of, steps_among, migrated_rows, starting_operation};

use dq_list::Listed;
use dq_tables::{Kind, Row, ids_named, start_row};
use std::alloc::{AllocError, Global};

/// The entries of an institution that a step names.
#[derive(Drop)]
struct NamedEntries {
    institution: Listed<u8>,
    ids: Listed<Listed<u8>>,
}

impl NamedEntries {
    /// Returns the entries that a step names.
    fn of(alloc: Global, step: &Row) -> Result<NamedEntries, AllocError>
        ensures { IfOk result (λ entries. starting_operation entries ≡ starts_of step.now) }
    {
        let data_set = step.data_set(alloc)?;
        Ok(NamedEntries {
            institution: Listed::copy_of(alloc, step.inst.as_slice())?,
            ids: ids_named(alloc, &data_set)?,
        })
    }

    /// Starts those entries that are among the rows.
    fn start(&self, rows: &mut Vec<Row>)
        requires { IsRising rows.old.items }
        ensures done { rows.new.items ≡ after (starting_operation self.now) rows.old.items }
        ensures rising { IsRising rows.new.items }
    {
        for id in self.ids.as_slice() {
            start_row(rows, self.institution.as_slice(), id.as_slice());
        }
    }
}

/// Returns the entries that each step among the rows names.
fn named_by_steps(alloc: Global, rows: &[Row]) -> Result<Vec<NamedEntries>, AllocError>
    ensures { IfOk result (λ all. map starting_operation all.items ≡ map starts_of (steps_among rows.now)) }
{
    let mut all = Vec::new(alloc);
    for row in rows {
        if row.kind == Kind::Step {
            all.push(NamedEntries::of(alloc, row)?)?;
        }
    }
    Ok(all)
}

/// Starts the entries that the steps among the rows name.
pub(crate) fn start_named(alloc: Global, rows: &mut Vec<Row>) -> Result<(), AllocError>
    requires { IsSound rows.old.items }
    ensures done { OnOk result (rows.new.items ≡ migrated_rows rows.old.items) }
    ensures sound { OnOk result (IsSound rows.new.items) }
{
    let all = named_by_steps(alloc, rows.as_slice())?;
    for entries in &all {
        entries.start(rows);
    }
    Ok(())
}
