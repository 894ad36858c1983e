//! C-STORE over rows in memory, of what no capture is long enough for.
ghost use Rattle.std.specs.Prelude.{◌≡◌, IfOk};

use super::sieves::sifted_name;
use dq_config::{Config, Institution};
use dq_dataset::{KEPT_LIMIT, Sifted, Syntax};
use dq_dimse::{Body, Command, Message, command_field, status};
use dq_list::Listed;
use dq_store::store;
use dq_tables::{Kind, PlainTables, TableFault, Tables};
use std::alloc::{AllocError, Global};
use std::test::*;

const CT: &[u8] = b"1.2.840.10008.5.1.4.1.1.2";

/// A request to store the instance 1.2.9, of whose data set this is left.
fn request(alloc: Global, body: Body, over: bool) -> Result<Message, AllocError>
    ensures { IfOk result (λ message. message.command.code ≡ 1) }
{
    Ok(Message {
        context: 1,
        command: Command {
            code: command_field::C_STORE,
            id: 1,
            sop_class: Listed::copy_of(alloc, CT)?,
            sop_instance: Listed::copy_of(alloc, b"1.2.9")?,
            with_data: true,
            status: 0,
        },
        body,
        over,
    })
}

/// The status of it, and how many images are kept then.
fn stored(
    alloc: Global,
    institution: &Institution,
    message: &Message,
) -> Result<(u16, u64), TableFault>
    requires { message.now.command.code ≡ 1 }
{
    let mut tables = PlainTables::new(alloc);
    let status = store(&mut tables, institution, message, Syntax::Explicit)?;
    Ok((status, tables.count(Kind::Image, b"DEMO")?))
}

/// More is to be kept than there may be, or the data set is over its limit.
#[test]
fn what_is_sent_has_a_limit(rt: HostRuntime) -> Result<(), Fail> {
    let config = Config::built_in(rt.alloc())?;
    let demo = config.institution(b"DEMO").ok_or("DEMO")?;
    let nothing = Body::Octets(Listed::empty(rt.alloc()));
    for (body, over) in [(Body::Sifted(Sifted::Large), false), (nothing, true)] {
        let message = request(rt.alloc(), body, over)?;
        let stored = stored(rt.alloc(), demo, &message)?;
        assert!(rt; stored == (status::OUT_OF_RESOURCES, 0));
    }
    Ok(())
}

/// A name alone is as long as all that may be kept, so that the data set is too large. Where its last
/// octet is missing, it cannot be read.
#[test]
fn a_large_data_set_that_is_cut_off_is_unreadable(rt: HostRuntime) -> Result<(), Fail> {
    let config = Config::built_in(rt.alloc())?;
    let demo = config.institution(b"DEMO").ok_or("DEMO")?;
    for (missing, status) in [
        (0, status::OUT_OF_RESOURCES),
        (1, status::CANNOT_UNDERSTAND),
    ] {
        let left = sifted_name(rt.alloc(), KEPT_LIMIT, missing)?;
        let message = request(rt.alloc(), Body::Sifted(left), false)?;
        let stored = stored(rt.alloc(), demo, &message)?;
        assert!(rt; stored == (status, 0), "{missing} octets are missing");
    }
    Ok(())
}
