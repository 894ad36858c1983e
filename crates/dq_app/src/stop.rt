//! Why the program stops, what is told of it, and its exit status.
ghost use Rattle.std.specs.Prelude.{◌≡◌, ◌∷◌, ◌++◌, codes, OnOk, OnErr};
ghost use Rattle.std.specs.Io.KnownBytes.{Appends};
ghost use Rattle.dq_captures.specs.Captures.{line_feed};
ghost use Rattle.dq_captures.specs.Surroundings.{BreaksOff};
ghost use Rattle.dq_app.specs.Program.{stop_of_file, stop_of_input, config_words, place_text, misfit_text, stop_text, status_of};

use crate::network::ListenError;
use crate::stores::{OpenError, Unclosed};
use dq_captures::{CaptureFault, Sink, Unread, put_numbered, put_text};
use dq_config::ConfigFault;
use dq_core::Fault;
use dq_wires::TurnFault;
use std::alloc::AllocError;
use std::io;

/// The error of a configuration that is checked: the number of its fault, 0 for a file that cannot
/// be read or is not text; and the line where the refused institution begins, 0 if that is not
/// known.
#[derive(Clone, Copy, Debug, PartialEq, Eq)]
pub struct Misfit {
    pub number: u8,
    pub line: u64,
}

/// The reason why the program stops before its end.
#[derive(Clone, Copy, Debug, PartialEq, Eq)]
pub enum Stop {
    /// The words are not understood.
    Usage,
    /// A refused configuration, with the number of its fault. 0 stands for a file that cannot be
    /// read, or is no text.
    Config(u8),
    /// A refused configuration that is checked, which is told in words too.
    Unfit(Misfit),
    /// A bad line of the keys of the web front. 0 stands for a file that cannot be read, is no text, or
    /// has no key.
    Keys(u64),
    /// A bad line of the capture. 0 stands for one that cannot be read, is too long, or is no text.
    Capture(u64),
    /// A refused store, with the number of what is wrong with it. 5 stands for one that all was done
    /// with, and whose log could not be copied into the database file.
    Store(u8),
    /// The number of a fault.
    Fault(u8),
    /// The output cannot be written.
    Output,
    /// No connections can come in.
    Network,
}

impl From<AllocError> for Stop {
    ghost use Rattle.std.specs.Prelude.{◌≡◌};
    ghost use Rattle.dq_app.specs.Program.{no_memory};
    ghost use Rattle.dq_app.specs.declared.stop.Stop.TheVariants.{Fault};

    ghost from_gives = { λ _ stop. stop ≡ Fault no_memory };

    fn from(_error: AllocError) -> Stop {
        Stop::Fault(Fault::NoMemory.number())
    }
}

impl From<ConfigFault> for Stop {
    ghost use Rattle.std.specs.Prelude.{◌≡◌};
    ghost use Rattle.dq_app.specs.Program.{stop_of_config};

    ghost from_gives = { λ fault stop. stop ≡ stop_of_config fault };

    fn from(fault: ConfigFault) -> Stop {
        match fault {
            ConfigFault::NoMemory => Stop::from(AllocError),
            other => Stop::Config(other.number()),
        }
    }
}

impl From<CaptureFault> for Stop {
    ghost use Rattle.std.specs.Prelude.{◌≡◌};
    ghost use Rattle.dq_app.specs.Program.{stop_of_capture};

    ghost from_gives = { λ fault stop. stop ≡ stop_of_capture fault };

    fn from(fault: CaptureFault) -> Stop {
        match fault {
            CaptureFault::Line(number) => Stop::Capture(number),
            CaptureFault::NoMemory => Stop::from(AllocError),
        }
    }
}

impl From<OpenError> for Stop {
    ghost use Rattle.std.specs.Prelude.{◌≡◌};
    ghost use Rattle.dq_app.specs.Program.{stop_of_store};

    ghost from_gives = { λ open_error stop. stop ≡ stop_of_store open_error };

    fn from(open_error: OpenError) -> Stop {
        match open_error {
            OpenError::Store(number) => Stop::Store(number),
            OpenError::NoMemory => Stop::from(AllocError),
        }
    }
}

impl From<Unclosed> for Stop {
    ghost use Rattle.std.specs.Prelude.{◌≡◌};
    ghost use Rattle.dq_app.specs.Program.{unclosed_store};

    ghost from_gives = { λ _ stop. stop ≡ unclosed_store };

    fn from(_unclosed: Unclosed) -> Stop {
        Stop::Store(5)
    }
}

impl From<Fault> for Stop {
    ghost use Rattle.std.specs.Prelude.{◌≡◌};
    ghost use Rattle.dq_core.specs.Faults.{server_fault_number};
    ghost use Rattle.dq_app.specs.declared.stop.Stop.TheVariants.{Fault};

    ghost from_gives = { λ fault stop. stop ≡ Fault (server_fault_number fault) };

    fn from(fault: Fault) -> Stop {
        Stop::Fault(fault.number())
    }
}

impl From<TurnFault> for Stop {
    ghost use Rattle.std.specs.Prelude.{◌≡◌};
    ghost use Rattle.dq_app.specs.Program.{stop_of_turning};

    ghost from_gives = { λ fault stop. stop ≡ stop_of_turning fault };

    fn from(fault: TurnFault) -> Stop {
        match fault {
            TurnFault::NoMemory => Stop::from(AllocError),
            TurnFault::Server(fault) => Stop::from(fault),
            TurnFault::Network => Stop::Network,
        }
    }
}

impl From<ListenError> for Stop {
    ghost use Rattle.std.specs.Prelude.{◌≡◌};
    ghost use Rattle.dq_app.specs.Program.{stop_of_listening};

    ghost from_gives = { λ listen_error stop. stop ≡ stop_of_listening listen_error };

    fn from(listen_error: ListenError) -> Stop {
        match listen_error {
            ListenError::Failed => Stop::Network,
            ListenError::Keys(line) => Stop::Keys(line),
            ListenError::NoMemory => Stop::from(AllocError),
        }
    }
}

/// Returns the error of a configuration in words, by the number of its fault, and the text before
/// that number.
fn config_words(number: u8) -> &'static str
    ensures { result.now ≡ config_words number ++ line_feed ∷ codes "config " }
{
    match number {
        0 => "the file cannot be read, or is not UTF-8\nconfig ",
        1 => "it is not TOML, or a key is missing, unknown or not of its type\nconfig ",
        2 => "a name is not 1 to 16 of A to Z, 0 to 9 and the underscore\nconfig ",
        3 => "a title is not 1 to 16 printable characters of ASCII, or has a backslash\nconfig ",
        4 => "two institutions have one name\nconfig ",
        5 => "two routes have the same pair of titles\nconfig ",
        _ => "a limit is not 1 to 1000000, or of associations not 1 to 64\nconfig ",
    }
}

/// Tells where a configuration is wrong, if that is known.
fn put_place<E: Sink>(line: u64, errors: &mut E) -> io::Result<()>
    ensures written { OnOk result
        (Appends (E.written errors.old) (E.written errors.new) (place_text line)) }
    ensures part { OnErr result (BreaksOff (E.may_fail errors.old) (E.written errors.old)
        (E.written errors.new) (place_text line)) }
    ensures fails { E.may_fail errors.new → E.may_fail errors.old }
{
    if line == 0 {
        return Ok(());
    }
    put_numbered("in the institution of line ", line, errors)
}

/// Tells what is wrong with a configuration: where, in words, and by its number.
fn put_misfit<E: Sink>(misfit: Misfit, errors: &mut E) -> io::Result<()>
    ensures written { OnOk result
        (Appends (E.written errors.old) (E.written errors.new) (misfit_text misfit)) }
    ensures part { OnErr result (BreaksOff (E.may_fail errors.old) (E.written errors.old)
        (E.written errors.new) (misfit_text misfit)) }
{
    put_place(misfit.line, errors)?;
    put_numbered(
        config_words(misfit.number),
        u64::from(misfit.number),
        errors,
    )?;
    Ok(())
}

impl Stop {
    /// The stop where a configuration's file is not read.
    pub fn of_file(unread: Unread) -> Stop
        ensures { result ≡ stop_of_file unread }
    {
        match unread {
            Unread::Failed => Stop::Config(0),
            Unread::NoMemory => Stop::from(AllocError),
        }
    }

    /// The stop where the capture is not read.
    pub fn of_input(unread: Unread) -> Stop
        ensures { result ≡ stop_of_input unread }
    {
        match unread {
            Unread::Failed => Stop::Capture(0),
            Unread::NoMemory => Stop::from(AllocError),
        }
    }

    /// The exit status.
    pub fn status(self) -> u8
        ensures { result ≡ status_of self }
    {
        match self {
            Stop::Usage => 1,
            Stop::Config(_) | Stop::Unfit(_) | Stop::Keys(_) => 2,
            Stop::Capture(_) => 3,
            Stop::Store(_) | Stop::Fault(_) | Stop::Output => 4,
            Stop::Network => 5,
        }
    }

    /// Tells of the stop by its line, if it has one.
    pub fn tell<E: Sink>(self, errors: &mut E) -> io::Result<()>
        ensures written { OnOk result
            (Appends (E.written errors.old) (E.written errors.new) (stop_text self)) }
        ensures part { OnErr result (BreaksOff (E.may_fail errors.old) (E.written errors.old)
            (E.written errors.new) (stop_text self)) }
    {
        match self {
            Stop::Config(number) => put_numbered("config ", u64::from(number), errors),
            Stop::Unfit(misfit) => put_misfit(misfit, errors),
            Stop::Keys(line) => put_numbered("keys line ", line, errors),
            Stop::Capture(number) => put_numbered("capture line ", number, errors),
            Stop::Store(number) => put_numbered("store ", u64::from(number), errors),
            Stop::Fault(number) => put_numbered("fault ", u64::from(number), errors),
            Stop::Network => put_text("network\n", errors),
            Stop::Usage | Stop::Output => Ok(()),
        }
    }
}
