//! The command line of a DICOM server: what its words ask for, and the text of its help.
#![tactic(auto)]

mod command_line;
mod commands;
mod help;
mod options;
mod parsed_command;

pub use command_line::{line_of, parse};
pub use commands::VERSION;
pub use parsed_command::{
    CaptureCommand, Copying, Export, Inspection, Keeper, Migration, ParsedCommand, RowKind,
    Service, Task, Web,
};
