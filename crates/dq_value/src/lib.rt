//! The values of DICOM's data elements: padding, multiplicity, dates, times, ranges and UIDs
//! (PS3.5 sections 6.2 and 6.4). No call takes memory: what is answered is lent from the octets.
#![tactic(auto)]

mod dates;
mod digits;
mod multiplicity;
mod padding;
mod ranges;
mod times;
mod titles;
mod uids;

pub use dates::{date_law, date_of};
pub use digits::number_law;
pub use multiplicity::{Parts, parting_law, sole_value, values};
pub use padding::{trimmed, trimming_law};
pub use ranges::{range_law, range_of};
pub use times::{time_law, time_of};
pub use titles::{stripped, stripping_law};
pub use uids::is_uid;
