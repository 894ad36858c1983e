use dq_value::{date_of, is_uid, range_of, sole_value, stripped, time_of, trimmed, values};
use dq_vr::Vr;
use std::test::Fail;

// Padding is significant or not by PS3.5 table 6.2-1.
#[test]
fn padding_is_taken_by_the_vr(rt: HostRuntime) {
    let rows: [(Vr, &[u8], &[u8]); 14] = [
        (Vr::AE, b"  ARCHIVE   ", b"ARCHIVE"),
        (Vr::CS, b" AXIAL\0", b"AXIAL"),
        (Vr::LO, b"    ", b""),
        (Vr::SH, b"\0 \0", b""),
        (Vr::PN, b" DOE^JANE ", b" DOE^JANE"),
        (Vr::LT, b" two lines\r\n ", b" two lines\r\n"),
        (Vr::UT, b"  a ", b"  a"),
        (Vr::DA, b" 20240229 ", b" 20240229"),
        (Vr::TM, b"0900\0\0", b"0900"),
        (Vr::UI, b"1.2.840.10008.1.1\0", b"1.2.840.10008.1.1"),
        (Vr::UI, b" 1.2 ", b" 1.2"),
        (Vr::LO, b"\0A", b"\0A"),
        (Vr::OB, b" \0", b" \0"),
        (Vr::UN, b" A ", b" A "),
    ];
    for (vr, octets, kept) in rows {
        assert_eq!(rt; trimmed(vr, octets), kept, "{vr:?} {octets:?}");
    }
}

// Leading and trailing spaces of an AE have no meaning (PS3.5 table 6.2-1).
#[test]
fn titles_are_stripped_of_spaces(rt: HostRuntime) {
    assert_eq!(rt; stripped(b"  CT 1\t  "), b"CT 1\t".as_slice());
    assert_eq!(rt; stripped(b"    "), b"".as_slice());
}

// A backslash parts values, but for LT, ST, UT, UR and binary VRs (PS3.5 section 6.4). The parts
// stand here with a bar behind each.
#[test]
fn values_are_parted_by_the_vr(rt: HostRuntime) -> Result<(), Fail> {
    let rows: [(Vr, &[u8], &[u8]); 14] = [
        (
            Vr::CS,
            b"ORIGINAL\\PRIMARY\\ AXIAL ",
            b"ORIGINAL|PRIMARY|AXIAL|",
        ),
        (Vr::UI, b"1.2\\1.3\0", b"1.2|1.3|"),
        (Vr::PN, b" DOE^A \\ROE^B", b" DOE^A|ROE^B|"),
        (Vr::UC, b"a\\b", b"a|b|"),
        (Vr::LO, b"", b""),
        (Vr::LO, b"  ", b""),
        (Vr::UI, b"\0", b""),
        (Vr::LO, b"\\", b"||"),
        (Vr::LO, b" \\ A", b"|A|"),
        (Vr::LT, b"a\\b ", b"a\\b|"),
        (Vr::ST, b"  ", b""),
        (Vr::UR, b"http://a\\b", b"http://a\\b|"),
        (Vr::US, b"\x5c\x00", b"\\\0|"),
        (Vr::OW, b"", b""),
    ];
    for (vr, octets, expected) in rows {
        let mut shown = Vec::new(rt.alloc());
        for part in values(vr, octets) {
            shown.extend_from_slice(part)?;
            shown.push(b'|')?;
        }
        assert_eq!(rt; shown.as_slice(), expected, "{vr:?} {octets:?}");
    }
    Ok(())
}

#[test]
fn a_sole_value_stands_alone(rt: HostRuntime) {
    assert_eq!(rt; sole_value(Vr::UI, b"1.2.3\0"), Some(b"1.2.3".as_slice()));
    assert_eq!(rt; sole_value(Vr::UI, b"1.2\\1.3"), None);
    assert_eq!(rt; sole_value(Vr::UI, b"\0"), None);
    assert_eq!(rt; sole_value(Vr::LT, b"a\\b"), Some(b"a\\b".as_slice()));
}

// Day numbers from 1970-01-01: -40,587 is the first modified Julian day, 17 November 1858.
#[test]
fn dates_are_days_of_the_calendar(rt: HostRuntime) {
    let rows: [(&[u8], Option<i32>); 16] = [
        (b"20240229", Some(19_782)),
        (b"19700101", Some(0)),
        (b"18581117", Some(-40_587)),
        (b"20000229", Some(11_016)),
        (b"00000101", Some(-719_528)),
        (b"00000229", Some(-719_469)),
        (b"99991231", Some(2_932_896)),
        (b"20240230", None),
        (b"20230229", None),
        (b"19000229", None),
        (b"20241301", None),
        (b"20240100", None),
        (b"2024029", None),
        (b"2024022 ", None),
        (b"2024.2.9", None),
        (b"", None),
    ];
    for (octets, day) in rows {
        let found = date_of(octets).map(|date| date.to_plain().to_unix_epoch_day());
        assert_eq!(rt; found, day, "{octets:?}");
    }
}

#[test]
fn times_are_spans_of_microseconds(rt: HostRuntime) {
    let rows: [(&[u8], Option<(u64, u64)>); 22] = [
        (b"0900", Some((32_400_000_000, 32_459_999_999))),
        (b"09", Some((32_400_000_000, 35_999_999_999))),
        (b"095959.999999", Some((35_999_999_999, 35_999_999_999))),
        (b"100000", Some((36_000_000_000, 36_000_999_999))),
        (b"00", Some((0, 3_599_999_999))),
        (b"235960", Some((86_400_000_000, 86_400_999_999))),
        (b"000000.1", Some((100_000, 199_999))),
        (b"000000.000001", Some((1, 1))),
        (b"120000.05", Some((43_200_050_000, 43_200_059_999))),
        (b"24", None),
        (b"0960", None),
        (b"090061", None),
        (b"9", None),
        (b"090", None),
        (b"09000", None),
        (b"09:00:00", None),
        (b"0900.5", None),
        (b"090000.", None),
        (b"090000.1234567", None),
        (b"090000.12a", None),
        (b"0900 ", None),
        (b"", None),
    ];
    for (octets, span) in rows {
        assert_eq!(rt; time_of(octets), span, "{octets:?}");
    }
}

#[test]
fn ranges_have_one_hyphen_and_an_end(rt: HostRuntime) {
    let from = b"20240229".as_slice();
    let to = b"20240301".as_slice();
    let rows: [(&[u8], Option<(Option<&[u8]>, Option<&[u8]>)>); 9] = [
        (b"20240229-20240301", Some((Some(from), Some(to)))),
        (b"20240229-", Some((Some(from), None))),
        (b"-20240301", Some((None, Some(to)))),
        (b"0900-09", Some((Some(b"0900"), Some(b"09")))),
        (b"-", None),
        (b"--", None),
        (b"2024-02-29", None),
        (b"20240229", None),
        (b"", None),
    ];
    for (octets, ends) in rows {
        assert_eq!(rt; range_of(octets), ends, "{octets:?}");
    }
}

#[test]
fn uids_are_digits_and_points(rt: HostRuntime) {
    let longest = [b'1'; 64];
    let longer = [b'1'; 65];
    assert!(rt; is_uid(b"1.2.840.10008.1.2.1"));
    assert!(rt; is_uid(&longest));
    assert!(rt; !is_uid(&longer));
    assert!(rt; !is_uid(b""));
    assert!(rt; !is_uid(b"1.2\0"));
    assert!(rt; !is_uid(b"1.2 "));
    assert!(rt; !is_uid(b"1.2-3"));
}
