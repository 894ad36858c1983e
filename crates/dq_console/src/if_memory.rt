//! Looks for which there may be no memory.
ghost use Rattle.std.specs.Prelude.{IfOk};
ghost use Rattle.dq_console.specs.Requests.{IsIfMemory};

use dq_config::Config;
use dq_core::TableInspection;
use dq_tables::{TableFault, Tables};
use std::alloc::AllocError;

/// A look at rows. That there is no memory for it is what it sees, and no fault: the server goes on.
#[derive(Clone, Copy)]
pub struct IfMemory<L>(pub L);

/// Returns what a look saw, or that there is no memory for it. The store's fault stays a fault.
fn if_memory<S>(seen: Result<S, TableFault>) -> Result<Result<S, AllocError>, TableFault>
    ensures { IsIfMemory seen result }
{
    match seen {
        Ok(seen) => Ok(Ok(seen)),
        Err(TableFault::NoMemory) => Ok(Err(AllocError)),
        Err(TableFault::Store) => Err(TableFault::Store),
    }
}

impl<T: Tables, L: TableInspection<T>> TableInspection<T> for IfMemory<L> {
    type Seen = Result<L::Seen, AllocError>;

    ghost shows = { λ it institutions rows seen. IfOk seen (L.shows it.0 institutions rows) };

    ghost may_fail = { λ it. L.may_fail it.0 };

    fn look(&self, config: &Config, tables: &mut T) -> Result<Self::Seen, TableFault> {
        if_memory(self.0.look(config, tables))
    }
}
