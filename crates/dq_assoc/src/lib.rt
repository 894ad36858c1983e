//! Associations: negotiation, and the table of states (PS3.8 sections 7 and 9).
#![tactic(auto)]

mod agreement;
mod association;
mod association_end;
mod classes;
pub mod laws;
mod negotiation;

pub use agreement::{AcceptedContext, Agreement, PeerLimit};
pub use association::{Association, State, Step, Verdict};
pub use association_end::{AssociationEnd, Party};
pub use classes::{Service, SopClass};
pub use negotiation::{ContextRefusal, Rejection, context_result, is_accepted};
