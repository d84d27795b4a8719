// Worked examples of lines, fields, numbers and names.
use lc_scan::{
    Fields, Lines, NumFault, count, decimal, has_fields, name_of, next_spoken, rest, whole,
};
use std::test::*;

#[test]
fn lines_are_joined(rt: HostRuntime) {
    let text = b"\xEF\xBB\xBFa\\\nb c\n\n# d\\\r\ne\r\n\\\nf\\ \ng\\\\\n\n\\\n";
    let mut lines = Lines::new(text);
    for (number, bytes) in [
        (1, b"a\\\nb c".as_slice()),
        (3, b""),
        (4, b"# d\\\r\ne\r"),
        (6, b"\\\nf\\ "),
        (8, b"g\\\\\n"),
        (10, b"\\\n"),
    ] {
        assert_eq!(rt; lines.next_line(), Some((number, bytes)));
    }
    assert_eq!(rt; lines.next_line(), None);
    assert_eq!(rt; lines.next_line(), None);
}

#[test]
fn texts_end_with_or_without_a_line_feed(rt: HostRuntime) {
    for (text, bytes) in [
        (b"a".as_slice(), Some(b"a".as_slice())),
        (b"a\n", Some(b"a")),
        (b"a\\", Some(b"a\\")),
        (b"a\\\r", Some(b"a\\\r")),
        (b"a\\\n", Some(b"a\\\n")),
        (b"\n", Some(b"")),
        (b"\\", Some(b"\\")),
        (b"\xEF\xBB\xBF\n", Some(b"")),
        (b"\xEF\xBB", Some(b"\xEF\xBB")),
        (b"\xEF\xBB\xBF\xEF\xBB\xBF", Some(b"\xEF\xBB\xBF")),
        (b"", None),
        (b"\xEF\xBB\xBF", None),
    ] {
        assert!(rt; text.len() <= 10);
        let mut lines = Lines::new(text);
        assert_eq!(rt; lines.next_line().map(|line| line.1), bytes, "at {text:?}");
        assert_eq!(rt; lines.next_line(), None, "at {text:?}");
    }
}

#[test]
fn fields_stand_between_blanks(rt: HostRuntime) {
    let mut fields = Fields::new(b"\t a\\\nb\r c\\\r\nd\\e \\\r f\ng\\ h#i #j k");
    for field in [
        b"a".as_slice(),
        b"b",
        b"c",
        b"d\\e",
        b"\\",
        b"f\ng\\",
        b"h#i",
    ] {
        assert_eq!(rt; fields.next_field(), Some(field));
    }
    assert_eq!(rt; fields.next_field(), None);
    assert_eq!(rt; fields.next_field(), None);
    for line in [
        b"".as_slice(),
        b" \t\r",
        b"\\\n",
        b" \\\r\n\\\n ",
        b"#",
        b" \\\n#a b",
        b"# a\\\nb",
    ] {
        let mut fields = Fields::new(line);
        assert_eq!(rt; fields.next_field(), None, "at {line:?}");
    }
}

#[test]
fn the_rest_keeps_what_is_inside(rt: HostRuntime) {
    for (line, wanted) in [
        (
            b" \\\nusemtl \t a # \\\nb \t\r".as_slice(),
            b"a # \\\nb".as_slice(),
        ),
        (b"usemtl\\\na", b"\\\na"),
        (b"usemtl # b", b"# b"),
        (b"usemtl a\\\r\n", b"a\\\r\n"),
        (b"usemtl \n a", b"\n a"),
        (b"usemtl", b""),
        (b"usemtl \t", b""),
        (b"", b""),
        (b"  ", b""),
        (b"# a b", b""),
    ] {
        assert_eq!(rt; rest(line), wanted, "at {line:?}");
    }
}

#[test]
fn lines_without_fields_are_passed_over(rt: HostRuntime) {
    let text = b"\n# a\n \\\n\t\nb c#d # e\n\n\\\n f\n#\n";
    let mut lines = Lines::new(text);
    assert_eq!(rt; next_spoken(&mut lines), Some((5, b"b c#d # e".as_slice())));
    assert_eq!(rt; next_spoken(&mut lines), Some((7, b"\\\n f".as_slice())));
    assert_eq!(rt; next_spoken(&mut lines), None);
    assert_eq!(rt;
        (count(b"b c#d # e"), count(b"\\\n f"), count(b" # a")),
        (2, 1, 0)
    );
    assert_eq!(rt; (has_fields(b"\\\n f"), has_fields(b" \t#")), (true, false));
}

#[test]
fn decimals_are_nearest_units(rt: HostRuntime) {
    for (field, units) in [
        (b"1.00005".as_slice(), 10_001),
        (b"-1.00005", -10_001),
        (b"1.00004999999999999999999999999", 10_000),
        (b"1e-05", 0),
        (b"1e-04", 1),
        (b"5E-5", 1),
        (b"-5e-5", -1),
        (b"4.9999e-5", 0),
        (b".5", 5_000),
        (b"1.", 10_000),
        (b"+1e2", 1_000_000),
        (b"+.5e+1", 50_000),
        (b"-0", 0),
        (b"0e40", 0),
        (b"00000000000000000000000000000.1", 1_000),
        (b"1e-40", 0),
        (b"123456789012345678901234567890e-25", 123_456_789),
        (b"1e0000000000000000000000000000000000000002", 1_000_000),
        (b"10000000000", 100_000_000_000_000),
        (b"-1e10", -100_000_000_000_000),
        (b"10000000000.00004", 100_000_000_000_000),
    ] {
        assert_eq!(rt; decimal(field), Ok(units), "at {field:?}");
    }
}

#[test]
fn decimals_are_refused(rt: HostRuntime) {
    for (field, fault) in [
        (b"".as_slice(), NumFault::Form),
        (b"nan", NumFault::Form),
        (b"inf", NumFault::Form),
        (b".", NumFault::Form),
        (b"+", NumFault::Form),
        (b"-.e1", NumFault::Form),
        (b"e1", NumFault::Form),
        (b"1e", NumFault::Form),
        (b"1e+", NumFault::Form),
        (b"1e1.", NumFault::Form),
        (b"1e1e1", NumFault::Form),
        (b"1.2.3", NumFault::Form),
        (b"+-1", NumFault::Form),
        (b"1,5", NumFault::Form),
        (b" 1", NumFault::Form),
        (b"1\0", NumFault::Form),
        (b"\xB2", NumFault::Form),
        (b"1111111111111111111111111111111x", NumFault::Form),
        (b"0000000000000000000000000000000", NumFault::TooLong),
        (b"0.000000000000000000000000000000", NumFault::TooLong),
        (b"1e41", NumFault::TooLong),
        (b"1e-41", NumFault::TooLong),
        (
            b"0e99999999999999999999999999999999999999999999",
            NumFault::TooLong,
        ),
        (b"1e11", NumFault::Range),
        (b"1e40", NumFault::Range),
        (b"-10000000000.00005", NumFault::Range),
        (b"999999999999999999999999999999", NumFault::Range),
    ] {
        assert_eq!(rt; decimal(field), Err(fault), "at {field:?}");
    }
}

#[test]
fn whole_numbers(rt: HostRuntime) {
    for (field, wanted) in [
        (b"0".as_slice(), Ok(0)),
        (b"007", Ok(7)),
        (b"000000000018446744073709551615", Ok(u64::MAX)),
        (b"18446744073709551616", Err(NumFault::Range)),
        (b"999999999999999999999999999999", Err(NumFault::Range)),
        (b"0000000000000000000000000000001", Err(NumFault::TooLong)),
        (b"", Err(NumFault::Form)),
        (b"+1", Err(NumFault::Form)),
        (b"-1", Err(NumFault::Form)),
        (b"1.", Err(NumFault::Form)),
        (b"1e0", Err(NumFault::Form)),
        (b"0000000000000000000000000000000x", Err(NumFault::Form)),
    ] {
        assert_eq!(rt; whole(field), wanted, "at {field:?}");
    }
}

#[test]
fn names(rt: HostRuntime) {
    for (bytes, wanted) in [
        (b"a b # c\\\n".as_slice(), Some("a b # c\\\n")),
        (b"\xC3\xA4", Some("\u{E4}")),
        (b"", Some("")),
        (b"\xC3", None),
        (b"a\xFF", None),
        (b"\xED\xA0\x80", None),
    ] {
        let name = name_of(rt.alloc(), bytes).expect(&rt, "memory");
        assert_eq!(rt;
            name.as_ref().map(|name| name.as_str()),
            wanted,
            "at {bytes:?}"
        );
    }
}
