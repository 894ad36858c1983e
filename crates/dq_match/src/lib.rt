//! Attribute matching of queries: which records meet the keys of an identifier, and what a response
//! shows of them (PS3.4 sections C.2.2.2, C.4.1 and K.4.1).
#![tactic(auto)]

mod answers;
mod identifiers;
mod keys;
pub mod laws;
mod lent_matching;
mod matching;
mod open_keys;
mod page_collector;
mod pieces;
mod prepared;
mod prepared_matching;
mod ranges;
mod responses;
mod several_values;
mod shown_page;
mod supported;
mod value_keys;
mod values;
mod wildcards;
mod words;

pub use identifiers::is_query;
pub use keys::octets_in;
pub use matching::{fits, meets};
pub use open_keys::asks_nothing;
pub use page_collector::PageCollector;
pub use prepared::PreparedKeys;
pub use responses::{Found, shown};
pub use several_values::{in_order, is_plain};
pub use shown_page::ShownPage;
pub use supported::{KeyList, strike};
pub use wildcards::wild;
