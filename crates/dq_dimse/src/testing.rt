//! A message written whole, for tests.
ghost use Rattle.std.specs.Prelude.{◌≡◌, ◌++◌, ◌↔◌, IsTrue, IsSome, IfOk, OnOk, option_map};
ghost use Rattle.dq_dimse.specs.Sending.{IsPduLimit, data_cut, message_pdus};

use crate::command::Command;
use crate::sending::{append_command, append_data_set};
use std::alloc::{AllocError, Global};

/// Writes a data set, where there is one.
fn put_data(
    out: &mut Vec<u8>,
    context: u8,
    limit: u32,
    octets: Option<&[u8]>,
) -> Result<(), AllocError>
    requires { IsPduLimit limit }
    ensures { OnOk result (out.new.items
        ≡ out.old.items ++ data_cut context limit (option_map (λ o. o.now) octets.entry)) }
{
    match octets {
        None => Ok(()),
        Some(octets) => append_data_set(out, context, octets, limit),
    }
}

/// The octets that send a response on a context: its command set and then its data set, cut into
/// PDUs of at most the peer's limit, where 0 is no limit (PS3.8 annex E).
pub fn write_message(
    alloc: Global,
    context: u8,
    command: &Command,
    octets: Option<&[u8]>,
    limit: u32,
) -> Result<Vec<u8>, AllocError>
    requires with_data { IsTrue command.now.with_data ↔ IsSome octets }
    requires limit { IsPduLimit limit }
    ensures { IfOk result (λ written. written.items
        ≡ message_pdus context command.now (option_map (λ o. o.now) octets.entry) limit) }
{
    let mut written = Vec::new(alloc);
    append_command(alloc, &mut written, context, command.lent(), limit)?;
    put_data(&mut written, context, limit, octets)?;
    Ok(written)
}
