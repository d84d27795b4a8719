// Bytes and headers worked out by hand.
use lc_num::Text;
use lc_tone::{byte, header};
use std::test::*;

#[test]
fn bytes(rt: HostRuntime) {
    // The white point 1.0000, and the radiance that it stands for.
    let one = 6_553_600_000_000_000_000_000;
    for (v, white, wanted) in [
        (0, 10_000, 0),
        (one - 1, 10_000, 254),
        (one, 10_000, 255),
        (1 << 116, 10_000, 255),
        (5_242_880_000_000_000_000_000, 10_000, 228),
        (one / 4, 10_000, 127),
        // The least radiance that is not black.
        (one / 65_025, 10_000, 0),
        (one / 65_025 + 1, 10_000, 1),
        // The ends of the white point's range.
        (655_359_999_999_999_999, 1, 254),
        (655_360_000_000_000_000, 1, 255),
        (one * 10_000 - 1, 100_000_000, 254),
        (one * 10_000, 100_000_000, 255),
        (one, 100_000_000, 2),
    ] {
        assert!(rt; white <= 100_000_000);
        assert_eq!(rt; byte(v, white), wanted, "of {v} under {white}");
    }
}

#[test]
fn headers(rt: HostRuntime) -> Result<(), Fail> {
    let mut text = Text::new(rt.alloc());
    assert_eq!(rt; header(1, 25, &mut text), Ok(()));
    assert_eq!(rt; text.as_slice(), b"P6\n1 25\n255\n".as_slice());
    assert_eq!(rt; header(4096, 1, &mut text), Ok(()));
    assert_eq!(rt;
        text.as_slice(),
        b"P6\n1 25\n255\nP6\n4096 1\n255\n".as_slice()
    );
    assert_eq!(rt; header(u32::MAX, 0, &mut text), Ok(()));
    assert_eq!(rt;
        text.as_slice(),
        b"P6\n1 25\n255\nP6\n4096 1\n255\nP6\n4294967295 0\n255\n".as_slice()
    );
    Ok(())
}
