//! What no clause says: that the calls succeed if there is memory, on streams that zlib wrote, and on known check values.
//!
//! That a failed allocation is reported as `Memory` is tried by hand, by `rt try --test --fail-alloc N`.

use std::alloc::Global;
use zlib::{InflateFault, Inflater, adler32, inflate, put_stored};

/// "hello, hello, hello" by zlib 1.2.13 at level 6: a block with the fixed codes and a copy.
const HELLO: [u8; 17] = [
    0x78, 0x9c, 0xcb, 0x48, 0xcd, 0xc9, 0xc9, 0xd7, 0x51, 0xc8, 0x40, 0xa2, 0x00, 0x44, 0x28, 0x06,
    0xd5,
];

/// Six times "aaaaaaaabbbbccd" by zlib 1.2.13 without copies: a block with codes of its own.
const LETTERS: [u8; 41] = [
    0x78, 0x01, 0x05, 0xc1, 0x01, 0x01, 0x00, 0x00, 0x08, 0xc3, 0xa0, 0xac, 0xec, 0xf6, 0xcf, 0x20,
    0x00, 0x54, 0x6d, 0x07, 0x50, 0xb5, 0x1d, 0x40, 0xd5, 0x76, 0x00, 0x55, 0xdb, 0x01, 0x54, 0x6d,
    0x07, 0x50, 0xb5, 0xdd, 0x03, 0x1a, 0xd0, 0x22, 0x5d,
];

/// "ab", stored.
const STORED: [u8; 13] = [
    0x78, 0x01, 0x01, 0x02, 0x00, 0xfd, 0xff, 0x61, 0x62, 0x01, 0x26, 0x00, 0xc4,
];

/// Whether the stream means these bytes, by the call that appends them to others.
fn means(alloc: Global, packed: &[u8], expected: &[u8]) -> Result<bool, InflateFault> {
    let mut out = Vec::new(alloc);
    let Ok(()) = out.push(b'>') else {
        return Err(InflateFault::Memory);
    };
    inflate(alloc, packed, expected.len(), &mut out)?;
    Ok(out.first() == Some(&b'>') && &out[1..] == expected)
}

/// Whether each stream of three has its length, by one `Inflater` that is used again after a fault.
fn goes_on_after_a_fault(alloc: Global) -> bool {
    let Ok(mut inflater) = Inflater::new(alloc) else {
        return false;
    };
    let mut out = [0; 90];
    inflater.inflate_into(&LETTERS, &mut out) == Ok(90)
        && inflater.inflate_into(&HELLO[..16], &mut out) == Err(InflateFault::Cut)
        && inflater.inflate_into(&HELLO, &mut out) == Ok(19)
        && inflater.inflate_into(&STORED, &mut out) == Ok(2)
}

#[test]
fn a_block_with_the_fixed_codes(rt: HostRuntime) {
    assert!(rt; means(rt.alloc(), &HELLO, b"hello, hello, hello") == Ok(true));
}

#[test]
fn a_block_with_codes_of_its_own(rt: HostRuntime) {
    let letters =
        b"aaaaaaaabbbbccdaaaaaaaabbbbccdaaaaaaaabbbbccdaaaaaaaabbbbccdaaaaaaaabbbbccdaaaaaaaabbbbccd";
    assert!(rt; means(rt.alloc(), &LETTERS, letters) == Ok(true));
}

#[test]
fn a_stored_block(rt: HostRuntime) {
    assert!(rt; means(rt.alloc(), &STORED, b"ab") == Ok(true));
}

/// Whether the stored stream of "ab" is the one above.
fn stores(alloc: Global) -> bool {
    let mut out = Vec::new(alloc);
    put_stored(b"ab", &mut out).is_ok() && out.as_slice() == STORED.as_slice()
}

#[test]
fn a_stream_that_is_written(rt: HostRuntime) {
    assert!(rt; stores(rt.alloc()));
}

#[test]
fn one_inflater_for_several_streams(rt: HostRuntime) {
    assert!(rt; goes_on_after_a_fault(rt.alloc()));
}

#[test]
fn known_check_values(rt: HostRuntime) {
    assert_eq!(rt; adler32(b""), 1);
    assert_eq!(rt; adler32(b"Wikipedia"), 0x11e6_0398);
}
