//! Study Root C-FIND: which records of an institution answer a query, and with what (PS3.4 sections
//! C.4.1 and C.6.2).
#![tactic(auto)]

mod computed_keys;
mod key_pages;
pub mod laws;
mod lazy_answers;
mod level;
mod open_search;
mod pages;
mod query;
mod search;
mod study_choice;
mod study_images;
mod texts;

pub use key_pages::find_by_keys;
pub use lazy_answers::{LazyAnswers, begin_find, find};
pub use level::Level;
pub use open_search::OpenSearch;
pub use pages::Pages;
pub use query::Query;
pub use study_images::find_in_study;
