//! The worklist entries that a performed procedure step names (PS3.4 table F.7.2-1).
ghost use Rattle.std.specs.Prelude.{◌≡◌, IfOk};
ghost use Rattle.dq_list.specs.Octets.{octets_of_vectors};
ghost use Rattle.dq_tables.specs.StartedEntries.{entries_named};
ghost use Rattle.dq_archive.specs.Archives.{QueriesOnly};
ghost use Rattle.dq_mpps.specs.Views.{AreNamed, ids_kept};

use dq_archive::Archive;
use dq_dataset::DataSet;
use dq_list::Listed;
use dq_tables::laws::honest_rows_are_sound;
use dq_tables::{Kind, TableFault, Tables, ids_named};
use std::alloc::{AllocError, Global};
use std::collections::BTreeSet;

/// The keys of the entries that a step names, in their order.
pub(crate) fn entries_named<T: Tables>(
    archive: &mut Archive<'_, T>,
    step: &DataSet,
) -> Result<Listed<Listed<u8>>, TableFault>
    ensures { QueriesOnly T.state archive.old archive.new
        (λ records. entries_named records step.now) result }
{
    honest_rows_are_sound::<T>();
    let ids = ids_in_order(archive.alloc, step)?;
    kept_of(archive, ids)
}

/// The ids that a step names, in the order of their octets, each once.
fn ids_in_order(alloc: Global, step: &DataSet) -> Result<BTreeSet<Vec<u8>>, AllocError>
    ensures { IfOk result (λ ids. AreNamed step.now (octets_of_vectors ids.keys)) }
{
    let named = ids_named(alloc, step)?;
    let mut ids = BTreeSet::new(alloc);
    for id in named.as_slice() {
        ids.insert(Vec::from_slice(alloc, id.as_slice())?)?;
    }
    Ok(ids)
}

/// Those of some ids under which an entry is kept.
fn kept_of<T: Tables>(
    archive: &mut Archive<'_, T>,
    mut ids: BTreeSet<Vec<u8>>,
) -> Result<Listed<Listed<u8>>, TableFault>
    ensures { QueriesOnly T.state archive.old archive.new
        (λ records. ids_kept records (octets_of_vectors ids.keys)) result }
{
    let mut keys = Listed::empty(archive.alloc);
    while let Some(id) = ids.pop_first() {
        let is_kept = archive.has(Kind::Entry, id.as_slice())?;
        if is_kept {
            keys.push(Listed::from_inner(id))?;
        }
    }
    Ok(keys)
}
