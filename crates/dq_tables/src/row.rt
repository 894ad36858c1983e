//! Rows.
ghost use Rattle.std.specs.Prelude.{◌≡◌, ◌<◌, ◌^◌, false, IfOk, length};
ghost use Rattle.dq_dataset.specs.declared.header.Syntax.TheVariants.{Explicit};
ghost use Rattle.dq_dataset.specs.Canonical.{HasLengths};
ghost use Rattle.dq_tables.specs.Records.{data_set_of};
ghost use Rattle.dq_tables.specs.Rows.{row_of};

use dq_dataset::laws::spelling_law;
use dq_dataset::{DataSet, ReadFault, Syntax, read};
use dq_list::Listed;
use std::alloc::{AllocError, Global};

/// The kind of record that a row holds.
#[derive(Debug, Clone, Copy, PartialEq, Eq, PartialOrd, Ord)]
pub enum Kind {
    /// A study (PS3.4 section C.6.2.1.2).
    Study = 1,
    /// A series of a study (PS3.4 section C.6.2.1.3).
    Series = 2,
    /// An instance of a series (PS3.4 section C.6.2.1.4).
    Image = 3,
    /// A worklist entry (PS3.4 section K.6.1).
    Entry = 4,
    /// A performed procedure step (PS3.4 section F.7).
    Step = 5,
}

impl Kind {
    ghost use Rattle.std.specs.Prelude.{◌↔◌};
    ghost use Rattle.dq_tables.specs.declared.row.Kind.{Kind};
    ghost use Rattle.dq_tables.specs.Rows.{number_of_kind};

    /// Returns the number of the kind, 1 to 5, in the order in which the kinds are declared.
    pub fn number(self) -> u8
        ensures { result ≡ number_of_kind self }
    {
        self as u8
    }

    /// The kind of a number.
    pub fn from_number(number: u8) -> Option<Kind>
        ensures { (kind : Kind) → (result ≡ Some kind) ↔ (number_of_kind kind ≡ number) }
    {
        match number {
            1 => Some(Kind::Study),
            2 => Some(Kind::Series),
            3 => Some(Kind::Image),
            4 => Some(Kind::Entry),
            5 => Some(Kind::Step),
            _ => None,
        }
    }
}

/// A record that is kept under an institution's name.
#[derive(Drop)]
pub struct Row {
    pub kind: Kind,
    /// The institution's name.
    pub inst: Listed<u8>,
    /// The key of the record among those of its kind: the trimmed UID of a study, a series, an
    /// image or a step, or the trimmed id of the scheduled step of an entry.
    pub key: Listed<u8>,
    /// The key of a series' study or of an image's series; else empty.
    pub above: Listed<u8>,
    /// The data set as `dq_dataset::write` spells it in Explicit.
    pub octets: Listed<u8>,
    /// Whether a performed procedure step has started the entry; false of another kind.
    pub started: bool,
}

/// The keys of a record: its kind, its key, and the key of the record above it, empty if there is
/// none.
#[derive(Clone, Copy)]
pub struct RecordKeys<'a> {
    pub kind: Kind,
    pub key: &'a [u8],
    pub above: &'a [u8],
}

impl Row {
    /// The row of an institution's record whose data set these octets spell in Explicit. It is not
    /// started.
    pub fn new(
        alloc: Global,
        institution: &[u8],
        keys: &RecordKeys<'_>,
        octets: Vec<u8>,
    ) -> Result<Row, AllocError>
        ensures { IfOk result (λ row. row ≡ row_of institution.now (record {
          kind = keys.now.kind;
          key = keys.now.key.now;
          above = keys.now.above.now;
          octets = octets.items;
          started = false;
        })) }
    {
        Ok(Row {
            kind: keys.kind,
            inst: Listed::copy_of(alloc, institution)?,
            key: Listed::copy_of(alloc, keys.key)?,
            above: Listed::copy_of(alloc, keys.above)?,
            octets: Listed::from_inner(octets),
            started: false,
        })
    }

    /// A copy of the row.
    pub fn copied(&self, alloc: Global) -> Result<Row, AllocError>
        ensures { IfOk result (λ copy. copy ≡ self.now) }
    {
        Ok(Row {
            kind: self.kind,
            inst: Listed::copy_of(alloc, self.inst.as_slice())?,
            key: Listed::copy_of(alloc, self.key.as_slice())?,
            above: Listed::copy_of(alloc, self.above.as_slice())?,
            octets: Listed::copy_of(alloc, self.octets.as_slice())?,
            started: self.started,
        })
    }

    /// The data set that the octets spell, and one without elements where they spell none. One of
    /// fewer than 2^31 octets can be written.
    #[tactic(auto, unfolding(crate::specs::Records::data_set_of))]
    pub fn data_set(&self, alloc: Global) -> Result<DataSet, AllocError>
        ensures data_set { IfOk result (λ d. d ≡ data_set_of self.now.octets) }
        ensures lengths { length self.now.octets < 2 ^ 31
            → IfOk result (λ d. HasLengths Explicit d) }
    {
        spelling_law();
        match read(alloc, self.octets.as_slice(), Syntax::Explicit) {
            Ok(data_set) => Ok(data_set),
            Err(ReadFault::NoMemory) => Err(AllocError),
            Err(_) => Ok(DataSet::new(alloc)),
        }
    }

    /// A copy of the row, if there is one.
    pub(crate) fn copied_if(alloc: Global, row: &Option<Row>) -> Result<Option<Row>, AllocError>
        ensures { IfOk result (λ copy. copy ≡ row.now) }
    {
        match row {
            Some(row) => Ok(Some(row.copied(alloc)?)),
            None => Ok(None),
        }
    }
}
