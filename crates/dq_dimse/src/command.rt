//! Messages, and the command sets that they begin with (PS3.7 section 6.3).
ghost use Rattle.std.specs.Prelude.{◌≡◌};

use dq_dataset::Sifted;
use dq_list::Listed;

/// The content of a command set (PS3.7 annex E).
#[derive(Drop)]
pub struct Command {
    /// Command Field (0000,0100).
    pub code: u16,
    /// Message ID (0000,0110); of a response and a C-CANCEL, the Message ID Being Responded To
    /// (0000,0120).
    pub id: u16,
    /// Affected or Requested SOP Class UID without padding, empty where absent.
    pub sop_class: Listed<u8>,
    /// Affected or Requested SOP Instance UID without padding, empty where absent.
    pub sop_instance: Listed<u8>,
    /// Whether a data set follows (0000,0800).
    pub with_data: bool,
    /// Status (0000,0900) of a response; 0 in what was read.
    pub status: u16,
}

/// A command whose identifiers are lent.
#[derive(Clone, Copy)]
pub struct CommandRef<'a> {
    pub code: u16,
    pub id: u16,
    pub sop_class: &'a [u8],
    pub sop_instance: &'a [u8],
    pub with_data: bool,
    pub status: u16,
}

impl Command {
    ghost use Rattle.dq_dimse.specs.CommandRefs.{command_of_ref};

    /// It, without copies.
    pub(crate) fn lent(&self) -> CommandRef<'_>
        ensures { command_of_ref result ≡ self.now }
    {
        CommandRef {
            code: self.code,
            id: self.id,
            sop_class: self.sop_class.as_slice(),
            sop_instance: self.sop_instance.as_slice(),
            with_data: self.with_data,
            status: self.status,
        }
    }
}

/// The data set of a message.
#[derive(Drop)]
pub enum Body {
    Octets(Listed<u8>),
    /// The part of it that the kept attributes leave. Its octets were sifted as they came.
    Sifted(Sifted),
}

impl Body {
    ghost use Rattle.dq_dimse.specs.Holding.{octets_held};

    /// Its octets. One that is sifted has none.
    pub(crate) fn octets(&self) -> &[u8]
        ensures { result.now ≡ octets_held self.now }
    {
        match self {
            Body::Octets(octets) => octets.as_slice(),
            Body::Sifted(_) => &[],
        }
    }
}

/// A message: its presentation context, its command, and its data set.
#[derive(Drop)]
pub struct Message {
    pub context: u8,
    pub command: Command,
    /// Sifted for a C-STORE that is not `over`, and octets for any other. A message without a data
    /// set has an empty one.
    pub body: Body,
    /// Whether the data set passed its limit: 4,294,967,295 octets of a C-STORE, 1,048,576 of any
    /// other command. It was then discarded.
    pub over: bool,
}
