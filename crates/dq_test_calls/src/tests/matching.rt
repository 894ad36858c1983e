use dq_dataset::{DataSet, ReadFault, Syntax, read};
use dq_match::{PreparedKeys, fits, is_query, wild};
use dq_vr::{Tag, tags};
use std::alloc::Global;
use std::test::Fail;

/// The data set of one element.
fn alone(alloc: Global, tag: Tag, value: &[u8]) -> Result<DataSet, ReadFault> {
    let mut octets = Vec::new(alloc);
    octets.extend_from_slice(&tag.group.to_le_bytes())?;
    octets.extend_from_slice(&tag.element.to_le_bytes())?;
    let length = u32::try_from(value.len()).unwrap_or(0);
    octets.extend_from_slice(&length.to_le_bytes())?;
    octets.extend_from_slice(value)?;
    read(alloc, octets.as_slice(), Syntax::Implicit)
}

/// Whether a record of one element meets a key, and whether it meets the key read once.
fn meets_alone(alloc: Global, tag: Tag, key: &[u8], held: &[u8]) -> Result<[bool; 2], ReadFault> {
    let key = alone(alloc, tag, key)?;
    let held = alone(alloc, tag, held)?;
    let prepared = PreparedKeys::of(alloc, &key)?;
    Ok([fits(&key, &held), prepared.fits(&held)])
}

// PS3.4 section C.2.2.2.4.
#[test]
fn wild_cards(rt: HostRuntime) {
    let rows: [(&[u8], &[u8], bool); 16] = [
        (b"S*H", b"SMITH", true),
        (b"??", b"AB", true),
        (b"??", b"ABC", false),
        (b"", b"", true),
        (b"*", b"", true),
        (b"?", b"", false),
        (b"*A*B", b"AABAB", true),
        (b"*A*B", b"AABA", false),
        (b"A*", b"A", true),
        (b"*?*", b"", false),
        (b"a", b"A", false),
        (b"**?", b"x", true),
        // Words that repeat themselves.
        (b"*AAB*", b"AAAAB", true),
        (b"*ABAB*", b"ABAABAB", true),
        (b"*BAAB*C", b"ABABAABAC", true),
        (b"*?BA*", b"BABBC", false),
    ];
    for (pattern, text, expected) in rows {
        assert_eq!(rt; wild(pattern, text), expected, "{pattern:?} {text:?}");
    }
}

// A piece of 101 octets stands behind so many others, or would but for its last octet.
#[test]
fn long_pieces_are_found(rt: HostRuntime) -> Result<(), Fail> {
    let mut pattern = Vec::from_slice(rt.alloc(), b"*")?;
    for _ in 0..50 {
        pattern.extend_from_slice(b"A?")?;
    }
    pattern.extend_from_slice(b"B*")?;
    for (before, last, expected) in [
        (0, b'B', true),
        (63, b'B', true),
        (64, b'B', true),
        (65, b'B', true),
        (130, b'B', true),
        (130, b'C', false),
    ] {
        let mut text = Vec::new(rt.alloc());
        for _ in 0..before {
            text.push(b'A')?;
        }
        text.extend_from_slice(&[b'A'; 100])?;
        text.push(last)?;
        assert_eq!(rt; wild(&pattern, &text), expected, "{before}");
        text.extend_from_slice(&[b'C'; 200])?;
        assert_eq!(rt; wild(&pattern, &text), expected, "{before}");
    }
    Ok(())
}

#[test]
fn keys_of_each_kind(rt: HostRuntime) -> Result<(), Fail> {
    let rows: [(Tag, &[u8], &[u8], bool); 32] = [
        (tags::PATIENT_NAME, b"s*h ", b"Smith^", true),
        (tags::PATIENT_NAME, b"smith^=", b"SMITH ", true),
        (tags::PATIENT_NAME, b"smith", b" SMITH", false),
        (tags::PATIENT_ID, b"s*", b"S1", false),
        (tags::PATIENT_ID, b"*", b"", true),
        (tags::PATIENT_ID, b"S*H", b"", true),
        (tags::PATIENT_ID, b"A\\B*", b"X\\BC", true),
        (tags::PATIENT_ID, b" A ", b"A", true),
        (tags::PATIENT_ID, b"A\\B", b"C\\ B", true),
        (tags::PATIENT_ID, b"A\\B", b"C\\AB", false),
        (tags::STUDY_INSTANCE_UID, b"1.2.3\\1.2.4", b"1.2.3\0", true),
        (tags::STUDY_INSTANCE_UID, b"1.2.*", b"1.2.3", false),
        (tags::STUDY_INSTANCE_UID, b"*", b"1.2.3", true),
        (tags::STUDY_INSTANCE_UID, b"*\\1.2", b"1.2.3", false),
        (tags::NUMBER_OF_STUDY_RELATED_SERIES, b"2 ", b"2", true),
        (tags::NUMBER_OF_STUDY_RELATED_SERIES, b"?", b"2", false),
        (tags::ROWS, b"\x00\x02", b"\x00\x02", true),
        (tags::ROWS, b"*\x00", b"\x00\x02", false),
        (tags::STUDY_DATE, b"20240229-20240229", b"20240229", true),
        (tags::STUDY_DATE, b"20240229-", b"20240229", true),
        (tags::STUDY_DATE, b"-20240229", b"20240229", true),
        (tags::STUDY_DATE, b"-20240228", b"20240229", false),
        (tags::STUDY_DATE, b"-20240301", b"20240230", false),
        (tags::STUDY_DATE, b"*", b"20240230", true),
        (tags::STUDY_DATE, b"", b"20240230", true),
        (tags::STUDY_DATE, b"20240229", b"20240228\\20240229", true),
        (tags::STUDY_TIME, b"0900-09", b"095959.999999", true),
        (tags::STUDY_TIME, b"0900-09", b"100000", false),
        (tags::STUDY_TIME, b"09", b"0930", true),
        (tags::STUDY_TIME, b"0930", b"09", false),
        (tags::STUDY_TIME, b"*", b"noon", true),
        (tags::MODALITIES_IN_STUDY, b"MR", b"", true),
    ];
    for (tag, key, held, expected) in rows {
        let met = meets_alone(rt.alloc(), tag, key, held)?;
        assert_eq!(rt; met, [expected, expected], "{tag:?} {key:?} {held:?}");
    }
    Ok(())
}

// An element that is absent or left for later excludes no record, nor do octets that are cut off.
#[test]
fn elements_are_met_as_they_are_lent(rt: HostRuntime) -> Result<(), Fail> {
    let held = b"\x10\0\x10\0PN\x06\0DOE^A \x10\0\x20\0LO\x02\0P1";
    let rows: [(Tag, &[u8], &[u8], bool); 5] = [
        (tags::PATIENT_NAME, b"d*", held, true),
        (tags::PATIENT_NAME, b"ROE*", held, false),
        (tags::PATIENT_NAME, b"ROE*", &held[..20], true),
        (tags::PATIENT_ID, b"P1", held, true),
        (tags::ACCESSION_NUMBER, b"7", held, true),
    ];
    for (tag, key, octets, expected) in rows {
        let keys = alone(rt.alloc(), tag, key)?;
        let keys = PreparedKeys::of(rt.alloc(), &keys)?;
        assert_eq!(rt; keys.lent_meets(&[], octets), expected, "{tag:?} {key:?}");
        assert!(rt; keys.lent_meets(&[tag], octets));
    }
    Ok(())
}

#[test]
fn queries(rt: HostRuntime) -> Result<(), Fail> {
    let rows: [(&[u8], bool); 8] = [
        (b"20240229", true),
        (b"20240101-20241231", true),
        (b"", true),
        (b"*", true),
        (b"20241301", false),
        (b"-", false),
        (b"2024*", false),
        (b"20240229\\*", false),
    ];
    for (date, expected) in rows {
        let identifier = alone(rt.alloc(), tags::STUDY_DATE, date)?;
        assert_eq!(rt; is_query(&identifier), expected, "{date:?}");
    }
    Ok(())
}
