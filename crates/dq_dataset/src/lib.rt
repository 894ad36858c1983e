//! Data sets of DICOM, read and written (PS3.5 section 7).
#![tactic(auto)]

mod checking;
mod comparing;
mod copying;
mod data_set;
mod data_set_reader;
mod editing;
mod fault;
mod header;
pub mod laws;
mod lending;
mod measuring;
mod packed;
mod sieve;
mod values;
mod writing;

pub use data_set::{DataSet, Element, Value};
pub use data_set_reader::read;
pub use fault::ReadFault;
pub use header::Syntax;
pub use lending::{Elements, Lent};
pub use measuring::{can_be_written, elements_length};
pub use packed::PackedDataSet;
pub use sieve::{KEPT_LIMIT, Sieve, Sifted};
pub use writing::write;
