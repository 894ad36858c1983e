//! Data sets that are held as octets.
ghost use Rattle.std.specs.Prelude.{◌≡◌, IfOk};
ghost use Rattle.dq_dataset.specs.Canonical.{canonical};
ghost use Rattle.dq_dataset.specs.declared.header.Syntax.TheVariants.{Explicit};

use crate::data_set::DataSet;
use crate::data_set_reader::read;
use crate::fault::ReadFault;
use crate::header::Syntax;
use crate::laws::written_law;
use crate::measuring::can_be_written;
use crate::writing::write;
use dq_list::Listed;
use std::alloc::{AllocError, Global};
use std::marker::Model;

/// A data set, held as the octets by which `write` spells it in Explicit. They take a quarter of the
/// memory. Contracts see the data set.
#[derive(Drop)]
pub struct PackedDataSet {
    octets: Listed<u8>,
}

impl Model for PackedDataSet {
    ghost use Rattle.std.specs.Prelude.{◌≡◌};
    ghost use Rattle.dq_dataset.specs.Tree.{ElementList, elements_code};
    ghost use Rattle.dq_dataset.specs.Canonical.{canonical};
    ghost use Rattle.dq_dataset.specs.declared.header.Syntax.TheVariants.{Explicit};
    ghost use Rattle.dq_dataset.specs.Packed.{data_set_packed};

    ghost Value = { ElementList };

    ghost coded = { elements_code };

    ghost view = { λ packed. data_set_packed packed.octets };

    ghost invariant = { λ packed. canonical Explicit (data_set_packed packed.octets) ≡ packed.octets };
}

impl PackedDataSet {
    /// The data set, packed. One with a length that cannot be written wants memory.
    pub fn new(alloc: Global, data_set: &DataSet) -> Result<PackedDataSet, AllocError>
        ensures { IfOk result (λ packed. packed ≡ data_set.now) }
    {
        data_set.has_facts();
        written_law();
        if !can_be_written(data_set, Syntax::Explicit) {
            return Err(AllocError);
        }
        let octets = write(alloc, data_set, Syntax::Explicit)?;
        Ok(PackedDataSet {
            octets: Listed::from_inner(octets),
        })
    }

    /// The octets that spell it in Explicit.
    pub fn into_octets(self) -> Listed<u8>
        ensures { result ≡ canonical Explicit self }
    {
        self.octets
    }

    /// The data set, read again.
    pub fn data_set(&self, alloc: Global) -> Result<DataSet, AllocError>
        ensures { IfOk result (λ data_set. data_set ≡ self.now) }
    {
        match read(alloc, self.octets.as_slice(), Syntax::Explicit) {
            Ok(data_set) => Ok(data_set),
            Err(ReadFault::NoMemory) => Err(AllocError),
            Err(_) => Ok(DataSet::new(alloc)),
        }
    }
}
