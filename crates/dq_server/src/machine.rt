//! The parts of the machine that the program needs.
use crate::file_stores::FileStores;
use dq_app::{Host, OpenError, Stores, Unclosed};
use dq_keepers::RowsInMemory;
use dq_request::BackupError;
use std::alloc::{AllocError, Global};
use std::marker::PhantomData;

/// The machine that the program runs on, with its stores.
#[derive(Drop)]
pub struct Machine<'a, F> {
    rt: &'a HostRuntime,
    stores: PhantomData<F>,
}

impl<F> Machine<'_, F> {
    pub fn new(rt: &HostRuntime) -> Machine<'_, F> {
        Machine {
            rt,
            stores: PhantomData,
        }
    }
}

impl<F> Alloc for Machine<'_, F> {
    type A = Global;

    fn alloc(&self) -> Global {
        self.rt.alloc()
    }
}

impl<F> Host for Machine<'_, F> {
    fn runtime(&self) -> &HostRuntime {
        self.rt
    }
}

impl<F: FileStores> Stores for Machine<'_, F> {
    ghost use Rattle.dq_keepers.proofs.Honest.{rows_in_memory_are_honest};

    type Memory = RowsInMemory;

    type File = F::Kept;

    ghost stored = { λ _ path rows. F.stored path rows };

    ghost migrated = { λ _ from kept. F.migrated from kept };

    ghost copied = { λ _ from names kept. F.copied from names kept };

    ghost closed = { λ _ rows. F.closed rows };

    fn memory(&self, alloc: Global) -> Result<Self::Memory, OpenError> {
        match RowsInMemory::new(alloc) {
            Ok(tables) => Ok(tables),
            Err(AllocError) => Err(OpenError::NoMemory),
        }
    }

    fn new_store(&self, alloc: Global, path: &str) -> Result<Self::File, OpenError> {
        F::create(self.rt, alloc, path)
    }

    fn store(&self, alloc: Global, path: &str) -> Result<Self::File, OpenError> {
        F::open(self.rt, alloc, path)
    }

    fn migrate(&self, alloc: Global, from: &str, to: &str) -> Result<Self::File, OpenError> {
        F::migrate(self.rt, alloc, from, to)
    }

    fn copy(
        &self,
        alloc: Global,
        from: &str,
        to: &str,
        only: &[&str],
    ) -> Result<Result<u64, Unclosed>, OpenError> {
        F::copy(self.rt, alloc, from, to, only)
    }

    fn backup(
        &self,
        alloc: Global,
        tables: &mut Self::File,
        path: &str,
    ) -> Result<(), BackupError> {
        F::back_up(self.rt, alloc, tables, path)
    }

    fn close(&self, tables: Self::File) -> Result<(), Unclosed> {
        F::close(tables)
    }

    ghost memory_is_honest = { λ t. rows_in_memory_are_honest t };
}
