//! Connections of the web front: what they ask, and their responses.
#![tactic(auto)]

mod http_connection;
mod http_server;
mod http_state;
mod request_log;

pub use http_server::HttpServer;
pub use http_state::HttpState;
