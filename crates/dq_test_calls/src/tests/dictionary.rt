use dq_vr::{LengthForm, Vr, length_form};
use std::test::Fail;

// PS3.5 section 7.1.2: the VRs with two reserved octets and a length of four.
#[test]
fn the_long_lengths_are_the_standards(rt: HostRuntime) -> Result<(), Fail> {
    let mut long = 0usize;
    let mut named = 0usize;
    for first in b'A'..=b'Z' {
        for second in b'A'..=b'Z' {
            if let Some(vr) = Vr::from_letters(first, second) {
                named = named.saturating_add(1);
                if length_form(vr) == LengthForm::Four {
                    long = long.saturating_add(1);
                    let letters = vr.letters();
                    let text = std::str::from_utf8(&letters).ok().ok_or("no text")?;
                    assert!(rt; "OB OD OF OL OV OW SQ SV UC UN UR UT UV".contains(text));
                }
            }
        }
    }
    assert_eq!(rt; named, 34);
    assert_eq!(rt; long, 13);
    Ok(())
}
