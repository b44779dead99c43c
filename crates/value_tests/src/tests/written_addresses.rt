//! Texts of addresses and prefixes, written in place.

use ip_prefix::{ADDRESS_ROOM, Addr, PREFIX_ROOM, Prefix, Text};
use std::alloc::{AllocError, Global};
use std::process::Abort;
use std::test::Fail;

/// What stands in front of a text.
const FRONT: &[u8] = b"front|";

/// Addresses, each as its text.
const ADDRESSES: &[&str] = &[
    "0.0.0.0",
    "1.20.255.9",
    "255.255.255.255",
    "::",
    "::1",
    "2001:db8::",
    "2001:db8:0:1:1:1:1:1",
    "2001:0:0:1::1",
    "fe80::1:0:0:1",
    "ffff:ffff:ffff:ffff:ffff:ffff:ffff:ffff",
];

/// Prefixes, each as its text.
const PREFIXES: &[&str] = &[
    "0.0.0.0/0",
    "10.0.0.0/8",
    "192.0.2.1/32",
    "::/0",
    "2001:db8::/32",
    "ffff:ffff:ffff:ffff:ffff:ffff:ffff:ffff/128",
];

/// A buffer that begins with what stands in front.
fn buffer_with_front() -> [u8; 64] {
    let mut buffer = [b'#'; 64];
    buffer[..FRONT.len()].copy_from_slice(FRONT);
    buffer
}

/// The text stands behind what stood in front of it, up to the end.
fn assert_written(rt: &impl Abort, buffer: &[u8], end: usize, text: &str) {
    assert_eq!(rt; end, FRONT.len() + text.len(), "{text}");
    assert!(rt; buffer.starts_with(FRONT), "{text}");
    assert!(rt;
        buffer.get(FRONT.len()..end) == Some(text.as_bytes()),
        "{text}"
    );
}

#[test]
fn writes_addresses_in_place(rt: HostRuntime) -> Result<(), Fail> {
    for &text in ADDRESSES {
        let address = Addr::parse(text.as_bytes()).ok_or("an address")?;
        let mut buffer = buffer_with_front();
        assert!(rt; FRONT.len() + ADDRESS_ROOM <= buffer.len());
        let end = address.write_text(&mut buffer, FRONT.len());
        assert_written(&rt, &buffer, end, text);
    }
    Ok(())
}

/// The first longest run of ones among the eight lowest bits, where it has two and more: its first
/// bit and its length, else 8 and 1. A plain search.
fn longest_run(zeros: u32) -> (u32, u32) {
    let (mut first, mut len) = (8, 1);
    for i in (0u32..8).rev() {
        let run = (zeros >> i).trailing_ones();
        if run > 1 && run >= len {
            (first, len) = (i, run);
        }
    }
    (first, len)
}

/// The octets of groups that are 0 where the bit is set, and 1 elsewhere.
fn octets_of_groups(zeros: u32) -> [u8; 16] {
    let mut octets = [0; 16];
    for i in 0u32..8 {
        octets[2 * i as usize + 1] = (!zeros >> i & 1) as u8;
    }
    octets
}

/// The text of these groups.
fn shortened(alloc: Global, zeros: u32) -> Result<Text, AllocError> {
    let (first, len) = longest_run(zeros);
    let mut text = Text::new(alloc);
    for i in 0u32..8 {
        let behind = i.wrapping_sub(first);
        if behind == 0 {
            text.extend_from_slice(b"::")?;
        }
        if behind >= len {
            if i > 0 && behind != len {
                text.push(b':')?;
            }
            text.push(if zeros >> i & 1 == 1 { b'0' } else { b'1' })?;
        }
    }
    Ok(text)
}

/// Each choice of groups that are 0, the others 1.
#[test]
fn shortens_the_first_longest_run(rt: HostRuntime) -> Result<(), Fail> {
    for zeros in 0u32..256 {
        let wanted = shortened(rt.alloc(), zeros)?;
        let mut text = Text::new(rt.alloc());
        text.put(&Addr::v6(octets_of_groups(zeros)))?;
        assert_eq!(rt; text.as_slice(), wanted.as_slice(), "{zeros:#b}");
    }
    Ok(())
}

#[test]
fn writes_prefixes_in_place(rt: HostRuntime) -> Result<(), Fail> {
    for &text in PREFIXES {
        let prefix = Prefix::parse(text.as_bytes()).ok_or("a prefix")?;
        let mut buffer = buffer_with_front();
        assert!(rt; FRONT.len() + PREFIX_ROOM <= buffer.len());
        let end = prefix.write_text(&mut buffer, FRONT.len());
        assert_written(&rt, &buffer, end, text);
    }
    Ok(())
}

/// Appends a word, a number, an address and a prefix, with bars between them.
fn put_fields(text: &mut Text, address: &Addr, prefix: &Prefix) -> Result<(), AllocError> {
    text.extend_from_slice(b"A|")?;
    text.put_decimal(64_496)?;
    text.push(b'|')?;
    text.put(address)?;
    text.push(b'|')?;
    text.put(prefix)
}

#[test]
fn texts_grow_at_their_end(rt: HostRuntime) -> Result<(), Fail> {
    let address = Addr::parse(b"2001:db8::1").ok_or("an address")?;
    let prefix = Prefix::parse(b"192.0.2.0/24").ok_or("a prefix")?;
    let mut text = Text::new(rt.alloc());
    assert_eq!(rt; text.as_slice(), b"".as_slice());
    put_fields(&mut text, &address, &prefix)?;
    assert_eq!(rt;
        text.as_slice(),
        b"A|64496|2001:db8::1|192.0.2.0/24".as_slice()
    );
    assert_eq!(rt; text.len(), 32);
    for (len, want) in [(40, 32), (7, 7)] {
        text.truncate(len);
        assert_eq!(rt; text.len(), want);
    }
    assert_eq!(rt; text.as_slice(), b"A|64496".as_slice());
    text.truncate(0);
    assert_eq!(rt; text.as_slice(), b"".as_slice());
    Ok(())
}
