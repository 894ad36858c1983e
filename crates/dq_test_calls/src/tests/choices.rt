//! Studies that a choice takes, over rows in memory.
ghost use Rattle.std.specs.Prelude.{◌≡◌, IfOk};

use dq_config::{Config, Institution};
use dq_dataset::{Sieve, Syntax};
use dq_dimse::{Body, Command, KEPT_ATTRIBUTES, Message, command_field, status};
use dq_list::Listed;
use dq_store::store;
use dq_tables::{Choice, PlainTables, TableFault, Tables};
use std::alloc::{AllocError, Global};
use std::test::*;

const TWO_INSTITUTIONS: &str = "[[institution]]
name = \"NORTH\"
routes = [{ called = \"ARCHIVE\", calling = \"CT1\" }]
studies = 100
images = 1000
entries = 100
steps = 100
associations = 4

[[institution]]
name = \"SOUTH\"
routes = [{ called = \"ARCHIVE\", calling = \"CT2\" }]
studies = 100
images = 1000
entries = 100
steps = 100
associations = 4
";

const CT: &[u8] = b"1.2.840.10008.5.1.4.1.1.2";

/// An instance of the study 1.2.1 of the patient P1, of 2024-01-01, in Explicit. NORTH stores it.
const FIRST: &[u8] = b"\x08\0\x16\0UI\x1a\x001.2.840.10008.5.1.4.1.1.2\0\
\x08\0\x18\0UI\x08\x001.2.1.9\0\
\x08\0\x20\0DA\x08\x0020240101\
\x10\0\x20\0LO\x02\0P1\
\x20\0\x0d\0UI\x06\x001.2.1\0\
\x20\0\x0e\0UI\x08\x001.2.1.5\0";

/// One of the study 1.2.2, which has two patient IDs and no date.
const SECOND: &[u8] = b"\x08\0\x16\0UI\x1a\x001.2.840.10008.5.1.4.1.1.2\0\
\x08\0\x18\0UI\x08\x001.2.2.9\0\
\x10\0\x20\0LO\x06\0P1\\P2 \
\x20\0\x0d\0UI\x06\x001.2.2\0\
\x20\0\x0e\0UI\x08\x001.2.2.5\0";

/// One of the study 1.2.3 of the patient P3, whose date names no day.
const THIRD: &[u8] = b"\x08\0\x16\0UI\x1a\x001.2.840.10008.5.1.4.1.1.2\0\
\x08\0\x18\0UI\x08\x001.2.3.9\0\
\x08\0\x20\0DA\x08\x0020240230\
\x10\0\x20\0LO\x02\0P3\
\x20\0\x0d\0UI\x06\x001.2.3\0\
\x20\0\x0e\0UI\x08\x001.2.3.5\0";

/// One of the study 1.2.4, which SOUTH stores.
const OTHER: &[u8] = b"\x08\0\x16\0UI\x1a\x001.2.840.10008.5.1.4.1.1.2\0\
\x08\0\x18\0UI\x08\x001.2.4.9\0\
\x20\0\x0d\0UI\x06\x001.2.4\0\
\x20\0\x0e\0UI\x08\x001.2.4.5\0";

/// A request to store the instance of a data set.
fn request(alloc: Global, instance: &[u8], octets: &[u8]) -> Result<Message, AllocError>
    ensures { IfOk result (λ message. message.command.code ≡ 1) }
{
    let mut sieve = Sieve::new(alloc, Syntax::Explicit, &KEPT_ATTRIBUTES);
    sieve.feed(octets)?;
    Ok(Message {
        context: 1,
        command: Command {
            code: command_field::C_STORE,
            id: 1,
            sop_class: Listed::copy_of(alloc, CT)?,
            sop_instance: Listed::copy_of(alloc, instance)?,
            with_data: true,
            status: 0,
        },
        body: Body::Sifted(sieve.finish()),
        over: false,
    })
}

/// Whether an institution stores an instance, with all that is sent of it.
fn is_stored(
    alloc: Global,
    tables: &mut PlainTables,
    institution: &Institution,
    instance: &[u8],
    octets: &[u8],
) -> Result<bool, TableFault> {
    let message = request(alloc, instance, octets)?;
    Ok(store(tables, institution, &message, Syntax::Explicit)? == status::SUCCESS)
}

/// The studies of both institutions.
fn filled(alloc: Global) -> Result<PlainTables, Fail> {
    let config = Config::read(alloc, TWO_INSTITUTIONS)?;
    let north = config.institution(b"NORTH").ok_or("NORTH")?;
    let south = config.institution(b"SOUTH").ok_or("SOUTH")?;
    let mut tables = PlainTables::new(alloc);
    for (institution, instance, octets) in [
        (north, b"1.2.1.9", FIRST),
        (north, b"1.2.2.9", SECOND),
        (north, b"1.2.3.9", THIRD),
        (south, b"1.2.4.9", OTHER),
    ] {
        if !is_stored(alloc, &mut tables, institution, instance, octets)? {
            return Err("an instance is not stored".into());
        }
    }
    Ok(tables)
}

/// The choice that asks nothing.
fn anything() -> Choice {
    Choice {
        uid: None,
        patient: None,
        first_day: None,
        last_day: None,
    }
}

/// Whether of NORTH's studies a choice takes exactly those with the keys, in this order.
fn takes(tables: &mut PlainTables, choice: &Choice, keys: &[&[u8]]) -> Result<bool, TableFault> {
    let Some(rows) = tables.few_studies_in(b"NORTH", choice, usize::MAX)? else {
        return Ok(false);
    };
    let rows = rows.as_slice();
    let are_same = rows
        .iter()
        .zip(keys)
        .all(|(row, key)| row.key.as_slice() == *key);
    Ok(rows.len() == keys.len() && are_same)
}

/// A study that does not say its patient, or its day, by one value meets what is asked of it.
#[test]
fn a_choice_takes_studies_that_do_not_say(rt: HostRuntime) -> Result<(), Fail> {
    let mut tables = filled(rt.alloc())?;
    let of_patient = Choice {
        patient: Some(Listed::copy_of(rt.alloc(), b"P1")?),
        ..anything()
    };
    assert!(rt; takes(&mut tables, &of_patient, &[b"1.2.1", b"1.2.2"])?);
    let from_day = Choice {
        first_day: Some(20240101),
        ..anything()
    };
    assert!(rt; takes(&mut tables, &from_day, &[b"1.2.1", b"1.2.2", b"1.2.3"])?);
    let until_day = Choice {
        last_day: Some(20231231),
        ..anything()
    };
    assert!(rt; takes(&mut tables, &until_day, &[b"1.2.2", b"1.2.3"])?);
    Ok(())
}

/// A key of another institution's study takes none.
#[test]
fn a_choice_takes_only_own_studies(rt: HostRuntime) -> Result<(), Fail> {
    let mut tables = filled(rt.alloc())?;
    for (uid, keys) in [
        (b"1.2.3", [b"1.2.3".as_slice()].as_slice()),
        (b"1.2.4", &[]),
    ] {
        let of_key = Choice {
            uid: Some(Listed::copy_of(rt.alloc(), uid)?),
            ..anything()
        };
        assert!(rt; takes(&mut tables, &of_key, keys)?);
    }
    Ok(())
}
