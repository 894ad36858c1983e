//! Messages, read from fragments in P-DATA and written.
ghost use Rattle.std.specs.Prelude.{◌≡◌, false, IfOk};

use dq_dimse::{Command, status, write_message};
use dq_list::Listed;
use dq_pdu::Pdv;
use std::alloc::{AllocError, Global};
use std::test::*;

/// A C-ECHO request of Message ID 1, as a command set.
pub(super) const ECHO_REQUEST: [u8; 68] = *b"\0\0\0\0\x04\0\0\0\x38\0\0\0\
\0\0\x02\0\x12\0\0\01.2.840.10008.1.1\0\0\0\0\x01\x02\0\0\0\x30\0\
\0\0\x10\x01\x02\0\0\0\x01\0\0\0\0\x08\x02\0\0\0\x01\x01";

/// A command fragment of context 1.
pub(super) fn command(alloc: Global, octets: &[u8]) -> Result<Pdv, AllocError> {
    Ok(Pdv {
        context: 1,
        command: true,
        last: true,
        octets: Listed::copy_of(alloc, octets)?,
    })
}

/// The response to it in one PDU (PS3.7 table 9.3-13, PS3.8 section 9.3.5).
const ECHO_RESPONSE: &[u8] = b"\x04\0\0\0\0\x54\0\0\0\x50\x01\x03\
\0\0\0\0\x04\0\0\0\x42\0\0\0\
\0\0\x02\0\x12\0\0\x001.2.840.10008.1.1\0\
\0\0\0\x01\x02\0\0\0\x30\x80\
\0\0\x20\x01\x02\0\0\0\x01\0\
\0\0\0\x08\x02\0\0\0\x01\x01\
\0\0\0\x09\x02\0\0\0\0\0";

/// A C-ECHO response to the message 1, which has no data set.
fn echo_response(alloc: Global) -> Result<Command, AllocError>
    ensures { IfOk result (λ command. command.with_data ≡ false) }
{
    Ok(Command {
        code: 0x8030,
        id: 1,
        sop_class: Listed::copy_of(alloc, b"1.2.840.10008.1.1")?,
        sop_instance: Listed::empty(alloc),
        with_data: false,
        status: status::SUCCESS,
    })
}

#[test]
fn a_response_is_written(rt: HostRuntime) -> Result<(), Fail> {
    let response = echo_response(rt.alloc())?;
    let written = write_message(rt.alloc(), 1, &response, None, 0)?;
    assert!(rt; written.as_slice() == ECHO_RESPONSE);
    Ok(())
}
