//! The console of a server, whose clients ask by lines, and those who ask by requests, as a web front does.
//! Both are served over the same rows as the associations, between their turns.
#![tactic(auto)]

mod answer_error;
mod asks;
mod backup;
mod console;
mod console_client;
mod console_line;
mod counting;
mod if_memory;
mod requests;
mod searching;

pub use answer_error::AnswerError;
pub use asks::{Asks, KeysError};
pub use backup::{Backups, OfMemory};
pub use console::{Console, ConsoleHandler};
pub use console_client::ConsoleClient;
pub use console_line::{counted_text, put_counted_line};
pub use counting::{Counting, KINDS, all_counted, counted};
