//! Elements that are lent. What is read, written, merged and cut of data sets is for the suites.
use dq_dataset::{Elements, Lent, Syntax};
use dq_vr::{Vr, tags};
use std::test::*;

/// A Patient ID of three octets, in Explicit.
const ODD: &[u8] = b"\x10\0\x20\0LO\x03\0ABC";

fn is_id(lent: &Lent<'_>) -> bool {
    lent.tag == tags::PATIENT_ID && lent.vr == Vr::LO && lent.octets == b"ABC".as_slice()
}

#[test]
fn elements_are_lent(rt: HostRuntime) -> Result<(), Fail> {
    let mut elements = Elements::new(ODD, Syntax::Explicit);
    let first = elements.next().ok_or("no element")?;
    assert!(rt; is_id(&first.ok().ok_or("a fault")?));
    assert!(rt; elements.next().is_none());
    Ok(())
}
