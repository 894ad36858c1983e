//! The questions that HTTP requests ask of the server, and how its answers are sent back: no
//! sockets, no rows.
#![tactic(auto)]

mod aim;
mod counters;
mod cutting;
mod forwarding;
mod guard;
mod keys;
pub mod laws;
mod metrics;
mod page;
mod parsed_request;
mod refusal;
mod replies;
mod resource;
mod responses;
mod status;

pub use aim::{Aim, Method, kind_at};
pub use counters::{Class, Counters, Operations, RequestCounts, Service, Turns};
pub use cutting::{BODY_MOST, BodyForm, Cut, Fields, HEAD_MOST, Head, HttpRequest, cut_off};
pub use guard::{Guard, Openness};
pub use keys::{KeyEntry, Keys, KeysFault, OPERATOR, Right};
pub use parsed_request::{Document, Judgement, ParsedRequest, Question, Wish, ask, judge};
pub use refusal::{Allowed, Refusal};
pub use replies::{Framing, Written};
pub use resource::{Resource, ResourceKind, resource_of};
pub use responses::{answered, document, healthy, misspelled, permitted, refused, unreadable};
pub use status::Status;
