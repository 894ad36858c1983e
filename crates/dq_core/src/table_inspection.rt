//! Inspections of what keeps the rows. They change nothing.
ghost use Rattle.std.specs.Prelude.{List, IfOk, OnErr};
ghost use Rattle.dq_config.specs.declared.config.Institution.{Institution};
ghost use Rattle.dq_tables.specs.declared.row.Row.{Row};
ghost use Rattle.dq_tables.specs.TableStates.{Reads};

use crate::showing::{SearchKind, search_page, steps_page};
use dq_config::Config;
use dq_dataset::DataSet;
use dq_list::Listed;
use dq_match::{Found, ShownPage};
use dq_tables::{Kind, TableFault, Tables};

/// An inspection of what keeps the rows of institutions. A copy of all rows is one.
pub trait TableInspection<T: Tables> {
    /// The type of what is seen.
    type Seen;

    /// States what is seen of these institutions, if the rows are these.
    ghost shows: { Self → List Institution → List Row → Self.Seen → Type 0 };

    /// States when a look may fail. An inspection that does not say may always fail.
    ghost may_fail: { Self → Type 0 } = { λ _. Unit {0} };

    /// Looks at it.
    fn look(&self, config: &Config, tables: &mut T) -> Result<Self::Seen, TableFault>
        ensures reads { Reads (T.state tables.old) (T.state tables.new) result }
        ensures shows { (T.state tables.new).honest →
            IfOk result (shows self.now config.now (T.state tables.old).rows) }
        ensures fails { OnErr result (may_fail self.now) };
}

/// The number of rows of a kind that the institution of a name has.
#[derive(Clone, Copy)]
pub struct RowCount<'a> {
    pub kind: Kind,
    pub name: &'a [u8],
}

impl<T: Tables> TableInspection<T> for RowCount<'_> {
    ghost use Rattle.std.specs.Prelude.{◌≡◌, length};
    ghost use Rattle.dq_tables.specs.Lookups.{rows_of};

    type Seen = u64;

    ghost shows = { λ it _ rows number. number ≡ length (rows_of it.kind it.name.now rows) };

    fn look(&self, _config: &Config, tables: &mut T) -> Result<u64, TableFault> {
        tables.count(self.kind, self.name)
    }
}

/// A page of what keys find among the records of the institution of a name, if there is one: the
/// answers to a C-FIND with these keys. No title is called, so the answers of Study Root show an
/// empty one.
#[derive(Clone, Copy)]
pub struct FoundPage<'a> {
    pub name: &'a [u8],
    pub kind: &'a SearchKind,
    pub keys: &'a DataSet,
    pub page: ShownPage,
}

impl<T: Tables> TableInspection<T> for FoundPage<'_> {
    ghost use Rattle.std.specs.Prelude.{◌≡◌};
    ghost use Rattle.dq_core.specs.Showing.{found_for};

    type Seen = Option<Found>;

    ghost shows = { λ it institutions rows found.
        found ≡ found_for institutions it.name.now rows it.kind.now it.keys.now it.page };

    fn look(&self, config: &Config, tables: &mut T) -> Result<Option<Found>, TableFault> {
        let Some(institution) = config.institution(self.name) else {
            return Ok(None);
        };
        let found = search_page(tables, institution, self.kind, self.keys, self.page)?;
        Ok(Some(found))
    }
}

/// A page of the performed procedure steps of the institution of a name, if there is one, in the
/// order of their keys.
#[derive(Clone, Copy)]
pub struct StepsPage<'a> {
    pub name: &'a [u8],
    pub page: ShownPage,
}

impl<T: Tables> TableInspection<T> for StepsPage<'_> {
    ghost use Rattle.std.specs.Prelude.{◌≡◌};
    ghost use Rattle.dq_core.specs.Showing.{steps_for};

    type Seen = Option<Listed<DataSet>>;

    ghost shows = { λ it institutions rows steps.
        steps ≡ steps_for institutions it.name.now rows it.page };

    fn look(&self, config: &Config, tables: &mut T) -> Result<Option<Listed<DataSet>>, TableFault> {
        let Some(institution) = config.institution(self.name) else {
            return Ok(None);
        };
        let steps = steps_page(tables, institution, self.page)?;
        Ok(Some(steps))
    }
}
