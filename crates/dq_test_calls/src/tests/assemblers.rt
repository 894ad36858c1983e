//! Data sets of messages, as long as their limits.
use super::messages::{ECHO_REQUEST, command};
use dq_dataset::{ReadFault, Sifted, Syntax};
use dq_dimse::{Accepted, Assembler, Body, Message, command_field};
use dq_list::Listed;
use dq_pdu::Pdv;
use std::alloc::{AllocError, Global};
use std::test::*;

/// A data fragment of context 1.
fn data(octets: Listed<u8>, last: bool) -> Pdv {
    Pdv {
        context: 1,
        command: false,
        last,
        octets,
    }
}

/// A request of a Command Field, with a data set to follow.
fn request(alloc: Global, code: u16) -> Result<Pdv, AllocError> {
    let mut request = ECHO_REQUEST;
    request[46..48].copy_from_slice(&code.to_le_bytes());
    request[66] = 0;
    command(alloc, &request)
}

fn fresh(alloc: Global) -> Result<Assembler, AllocError> {
    let accepted = [1, 3].map(|id| Accepted {
        id,
        syntax: Syntax::Explicit,
    });
    Ok(Assembler::new(alloc, Listed::copy_of(alloc, &accepted)?))
}

/// Gives an assembler a fragment behind which its message goes on.
fn take(assembler: &mut Assembler, fragment: &Pdv) -> Result<(), Fail> {
    if assembler.take(fragment)?.is_some() {
        return Err("the data set is still to come".into());
    }
    Ok(())
}

/// An assembler that was given a request of a Command Field, with a data set to follow.
fn begun(alloc: Global, code: u16) -> Result<Assembler, Fail> {
    let request = request(alloc, code)?;
    let mut assembler = fresh(alloc)?;
    take(&mut assembler, &request)?;
    Ok(assembler)
}

fn zeros(alloc: Global, length: usize) -> Result<Listed<u8>, AllocError> {
    Ok(Listed::from_inner(vec![in alloc; 0; length]?))
}

fn take_zeros(alloc: Global, assembler: &mut Assembler, fragments: usize) -> Result<(), Fail> {
    let fragment = data(zeros(alloc, 0x1_0000)?, false);
    for _ in 0..fragments {
        take(assembler, &fragment)?;
    }
    Ok(())
}

/// Returns the message that an assembler makes of its last fragment, of so many octets of zero.
fn whole(alloc: Global, assembler: &mut Assembler, length: usize) -> Result<Message, Fail> {
    let last = data(zeros(alloc, length)?, true);
    Ok(assembler.take(&last)?.ok_or("the message is whole")?)
}

/// A message whose data set has so many octets of zero, in fragments.
fn with_zeros(alloc: Global, code: u16, length: usize) -> Result<Message, Fail> {
    let mut assembler = begun(alloc, code)?;
    take_zeros(alloc, &mut assembler, length / 0x1_0000)?;
    whole(alloc, &mut assembler, length % 0x1_0000)
}

/// Returns whether a data set of zero octets is held as expected: so many of them, or nothing,
/// since they spell no data set.
fn is_held(message: &Message, length: usize) -> bool {
    match &message.body {
        Body::Octets(octets) => !message.over && octets.len() == length,
        Body::Sifted(sifted) => {
            !message.over && matches!(sifted, Sifted::Fault(ReadFault::BadVr))
        }
    }
}

fn is_discarded(message: &Message) -> bool {
    message.over && matches!(&message.body, Body::Octets(octets) if octets.is_empty())
}

fn is_over(alloc: Global, code: u16, length: usize) -> Result<bool, Fail> {
    Ok(with_zeros(alloc, code, length)?.over)
}

fn is_held_whole(alloc: Global, code: u16, length: usize) -> Result<bool, Fail> {
    Ok(is_held(&with_zeros(alloc, code, length)?, length))
}

fn is_none_held(alloc: Global, code: u16, length: usize) -> Result<bool, Fail> {
    Ok(is_discarded(&with_zeros(alloc, code, length)?))
}

/// A C-FIND's data set may have 1,048,576 octets, and a C-STORE's 4,294,967,295.
#[test]
fn data_sets_at_their_limits(rt: HostRuntime) -> Result<(), Fail> {
    let alloc = rt.alloc();
    for (code, limit) in [
        (command_field::C_FIND, 0x10_0000),
        (command_field::C_STORE, 0xFFFF_FFFF),
    ] {
        assert!(rt; !is_over(alloc, code, limit - 2)?);
        assert!(rt; is_held_whole(alloc, code, limit)?);
        assert!(rt; is_none_held(alloc, code, limit + 2)?);
    }
    Ok(())
}
