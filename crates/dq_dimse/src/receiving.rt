//! The parts of a message that a service takes.
ghost use Rattle.std.specs.Prelude.{◌≡◌, ◌<◌, ◌^◌, IfOk, IfSome, length};
ghost use Rattle.std.specs.Result.{result_ok};
ghost use Rattle.dq_dataset.specs.declared.header.Syntax.TheVariants.{Explicit};
ghost use Rattle.dq_dataset.specs.DataSetReader.{data_set_read};
ghost use Rattle.dq_dataset.specs.Canonical.{HasLengths};
ghost use Rattle.dq_dimse.specs.Holding.{plain_message};
ghost use Rattle.dq_dimse.specs.Receiving.{is_over, identifier_in};

use crate::assembler::OTHER_LIMIT;
use crate::command::Message;
use crate::status::{CANNOT_UNDERSTAND, OUT_OF_RESOURCES};
use dq_dataset::laws::spelling_law;
use dq_dataset::{DataSet, ReadFault, Syntax, read};
use std::alloc::{AllocError, Global};

impl Message {
    /// Whether the data set has more octets than the limit, or was discarded because it had too
    /// many.
    pub fn is_over(&self, limit: usize) -> bool
        ensures { result ≡ is_over limit (plain_message self.now) }
    {
        self.over || self.body.octets().len() > limit
    }

    /// The data set, where its octets spell one in that transfer syntax (PS3.5 section 7). One of
    /// fewer than 2^31 octets can be written in Explicit.
    pub fn data_set(&self, alloc: Global, syntax: Syntax) -> Result<Option<DataSet>, AllocError>
        ensures read { IfOk result (λ data_set.
            data_set ≡ result_ok (data_set_read syntax (plain_message self.now).octets)) }
        ensures lengths { length (plain_message self.now).octets < 2 ^ 31
            → IfOk result (λ data_set. IfSome data_set (λ d. HasLengths Explicit d)) }
    {
        spelling_law();
        match read(alloc, self.body.octets(), syntax) {
            Ok(data_set) => Ok(Some(data_set)),
            Err(ReadFault::NoMemory) => Err(AllocError),
            Err(_) => Ok(None),
        }
    }

    /// The Identifier of a C-FIND request, or the status that refuses it: A700 where its octets are
    /// more than 1,048,576, and C000 where they spell no data set in that transfer syntax (PS3.4
    /// sections C.4.1.1.4 and K.4.1.1.4).
    #[tactic(auto, unfolding(crate::specs::Receiving::identifier_in))]
    pub fn identifier(
        &self,
        alloc: Global,
        syntax: Syntax,
    ) -> Result<Result<DataSet, u16>, AllocError>
        ensures { IfOk result (λ identifier. identifier ≡ identifier_in (plain_message self.now) syntax) }
    {
        if self.is_over(OTHER_LIMIT) {
            return Ok(Err(OUT_OF_RESOURCES));
        }
        match self.data_set(alloc, syntax)? {
            Some(identifier) => Ok(Ok(identifier)),
            None => Ok(Err(CANNOT_UNDERSTAND)),
        }
    }
}
