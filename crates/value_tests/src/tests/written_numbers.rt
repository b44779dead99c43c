//! Numbers written in place.

use octet_text::{DECIMAL_ROOM, put_decimal, write_decimal};
use std::process::Abort;
use std::test::Fail;

/// What stands in front of a text.
const FRONT: &[u8] = b"front|";

/// Numbers of each size.
const NUMBERS: &[(u32, &str)] = &[
    (0, "0"),
    (9, "9"),
    (10, "10"),
    (99, "99"),
    (100, "100"),
    (999, "999"),
    (1000, "1000"),
    (1001, "1001"),
    (64_496, "64496"),
    (999_999, "999999"),
    (1_000_000, "1000000"),
    (1_001_001, "1001001"),
    (16_777_216, "16777216"),
    (1_000_000_000, "1000000000"),
    (1_780_315_200, "1780315200"),
    (4_294_967_295, "4294967295"),
];

/// A buffer that begins with what stands in front.
fn buffer_with_front() -> [u8; 64] {
    let mut buffer = [b'#'; 64];
    buffer[..FRONT.len()].copy_from_slice(FRONT);
    buffer
}

/// The text stands behind what stood in front of it, up to the end.
fn assert_written(rt: &impl Abort, buffer: &[u8], end: usize, text: &str) {
    assert_eq!(rt; end, FRONT.len() + text.len(), "{text}");
    assert!(rt; buffer.starts_with(FRONT), "{text}");
    assert!(rt;
        buffer.get(FRONT.len()..end) == Some(text.as_bytes()),
        "{text}"
    );
}

#[test]
fn writes_numbers_in_place(rt: HostRuntime) -> Result<(), Fail> {
    for &(number, text) in NUMBERS {
        let mut buffer = buffer_with_front();
        assert!(rt; FRONT.len() + DECIMAL_ROOM <= buffer.len());
        let end = write_decimal(number, &mut buffer, FRONT.len());
        assert_written(&rt, &buffer, end, text);
    }
    Ok(())
}

#[test]
fn appends_numbers(rt: HostRuntime) -> Result<(), Fail> {
    for (number, want) in [
        (0, "AS0"),
        (9, "AS9"),
        (10, "AS10"),
        (65535, "AS65535"),
        (4294967295, "AS4294967295"),
        (18446744073709551615, "AS18446744073709551615"),
    ] {
        let mut text = Vec::from_slice(rt.alloc(), b"AS")?;
        put_decimal(number, &mut text)?;
        assert_eq!(rt; text.as_slice(), want.as_bytes());
    }
    Ok(())
}
