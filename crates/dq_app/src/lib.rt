//! The program of a DICOM server without its surroundings: what is asked for with a configuration
//! and a capture, reports, and connections that are served; over whatever has files, stores and
//! sockets.
#![tactic(auto)]

mod backup;
mod checking;
mod copying;
mod exporting;
mod key_files;
pub mod laws;
mod looping;
mod migrating;
mod network;
mod placing;
mod program;
mod replay_input;
mod replay_output;
mod reporting;
mod server_sockets;
mod serving;
mod stop;
mod stores;

pub use dq_captures::{
    CaptureFault, Folder, Host, PrintFault, Sink, Source, Unread, print_replies, read_capture,
};
pub use network::{Entrance, ListenError, Listening, Logging, Network};
pub use program::{perform, unworded};
pub use stores::{OpenError, Stores, Unclosed};
