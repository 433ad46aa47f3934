//! That packed bytes fit where those of zlib at level 1 would, that there is no stream in too little room, and that what a `Deflater` was
//! used for before makes no difference.

use deflate::{Deflater, deflate, most_packed};
use std::alloc::{AllocError, Global};
use std::test::Fail;
use zlib::inflate;

/// How many bytes the codes at the head of a block may take more than zlib's, which has blocks with the fixed codes too, for few bytes.
const HEAD: usize = 100;

/// How many bytes more than a stream takes are always enough for it.
const SPARE: usize = 8;

/// So many bytes of which hardly four in a row come again; with a mask, small numbers.
fn noise(alloc: Global, length: usize, mask: u32) -> Result<Vec<u8>, AllocError> {
    let mut bytes = Vec::new(alloc);
    let mut state: u32 = 1;
    for _ in 0..length {
        state = state.wrapping_mul(1_664_525).wrapping_add(1_013_904_223);
        bytes.push((state >> 24 & (state >> 16 | mask) & 0xff) as u8)?;
    }
    Ok(bytes)
}

/// So many words of a few, as in a text.
fn text(alloc: Global, count: usize) -> Result<Vec<u8>, AllocError> {
    let words: [&[u8]; 8] = [
        b"node ",
        b"way ",
        b"highway ",
        b"of ",
        b"the ",
        b"residential ",
        b"area, ",
        b"and ",
    ];
    let mut bytes = Vec::new(alloc);
    let order = noise(alloc, count, 0xff)?;
    for number in &order {
        bytes.extend_from_slice(words[*number as usize % 8])?;
    }
    Ok(bytes)
}

/// These bytes, so often.
fn repeated(alloc: Global, part: &[u8], count: usize) -> Result<Vec<u8>, AllocError> {
    let mut bytes = Vec::new(alloc);
    for _ in 0..count {
        bytes.extend_from_slice(part)?;
    }
    Ok(bytes)
}

/// Packs into `out`, of this length, and returns how long the stream is.
fn size_in(deflater: &mut Deflater, input: &[u8], out: &mut Vec<u8>, room: usize) -> Option<usize> {
    out.clear();
    if out.resize(room, 0).is_err() {
        return None;
    }
    deflater.deflate_into(input, out)
}

/// Whether a stream means these bytes.
fn means(alloc: Global, packed: &[u8], input: &[u8]) -> bool {
    let mut read = Vec::new(alloc);
    inflate(alloc, packed, input.len(), &mut read).is_ok() && read.as_slice() == input
}

/// How long the stream of these bytes is, if it is read back.
fn size(alloc: Global, input: &[u8]) -> Option<usize> {
    let packed = deflate(alloc, input).ok()?;
    if !means(alloc, &packed, input) {
        return None;
    }
    Some(packed.len())
}

/// Whether there is a stream of these bytes in so much room.
fn fits(alloc: Global, input: &[u8], room: usize) -> bool {
    let Ok(mut deflater) = Deflater::new(alloc) else {
        return false;
    };
    let mut out = Vec::new(alloc);
    size_in(&mut deflater, input, &mut out, room).is_some()
}

/// Whether there is none in less room than it takes, and one in a little more.
fn needs_its_room(alloc: Global, deflater: &mut Deflater, input: &[u8]) -> bool {
    let Some(size) = size(alloc, input) else {
        return false;
    };
    let mut out = Vec::new(alloc);
    for room in 0..size {
        if size_in(deflater, input, &mut out, room).is_some() {
            return false;
        }
    }
    size_in(deflater, input, &mut out, size.saturating_add(SPARE)) == Some(size)
}

/// Whether the stream of these bytes is the same after others were packed, and after there was no room for them.
fn is_the_same_after(alloc: Global, deflater: &mut Deflater, input: &[u8], others: &[u8]) -> bool {
    let mut first = Vec::new(alloc);
    let mut second = Vec::new(alloc);
    let room = most_packed(input.len());
    let expected = size_in(deflater, input, &mut first, room);
    let none = size_in(deflater, others, &mut second, 2_000);
    let some = size_in(deflater, others, &mut second, most_packed(others.len()));
    let found = size_in(deflater, input, &mut second, room);
    let count = expected.unwrap_or(0);
    first.truncate(count);
    second.truncate(count);
    none.is_none() && some.is_some() && found == expected && count > 0 && first == second
}

#[test]
fn no_bytes_and_one(rt: HostRuntime) {
    assert_eq!(rt; size(rt.alloc(), b""), Some(11));
    assert_eq!(rt; size(rt.alloc(), b"a"), Some(12));
}

#[test]
fn bytes_that_are_stored(rt: HostRuntime) -> Result<(), Fail> {
    let bytes = noise(rt.alloc(), 131_071, 0xff)?;
    for length in [65_534, 65_535, 65_536, 65_537, 131_070, 131_071] {
        let input = bytes.get(..length).unwrap_or(&[]);
        assert!(rt; size(rt.alloc(), input) <= Some(most_packed(length)));
        assert!(rt; size(rt.alloc(), input) >= Some(length));
    }
    Ok(())
}

#[test]
fn fits_where_level_1_does(rt: HostRuntime) -> Result<(), Fail> {
    // The sizes are those of zlib 1.2.13.
    assert!(rt; fits(rt.alloc(), b"", 8 + HEAD));
    assert!(rt; fits(rt.alloc(), b"a", 9 + HEAD));
    assert!(rt; fits(rt.alloc(), &[0; 300], 14 + HEAD));
    assert!(rt; fits(rt.alloc(), &repeated(rt.alloc(), b"\0", 65_536)?, 307));
    assert!(rt; fits(rt.alloc(), &repeated(rt.alloc(), b"ab", 40_000)?, 375));
    assert!(rt; fits(rt.alloc(), &text(rt.alloc(), 20_000)?, 21_552));
    assert!(rt; fits(rt.alloc(), &noise(rt.alloc(), 100_000, 0)?, 84_505));
    assert!(rt; fits(rt.alloc(), &noise(rt.alloc(), 70_000, 0xff)?, 70_031 + HEAD));
    Ok(())
}

#[test]
fn copies_of_258_bytes(rt: HostRuntime) -> Result<(), Fail> {
    let part = noise(rt.alloc(), 258, 0xff)?;
    assert!(rt; fits(rt.alloc(), &repeated(rt.alloc(), &part, 200)?, 579 + HEAD));
    let zeros = repeated(rt.alloc(), b"\0", 1 + 4 * 258)?;
    assert!(rt; size(rt.alloc(), &zeros) < Some(30));
    Ok(())
}

#[test]
fn copies_from_32768_bytes_back(rt: HostRuntime) -> Result<(), Fail> {
    let near = repeated(rt.alloc(), &noise(rt.alloc(), 0x8000, 0xff)?, 2)?;
    assert!(rt; size(rt.alloc(), &near) < Some(34_000));
    let far = repeated(rt.alloc(), &noise(rt.alloc(), 0x8001, 0xff)?, 2)?;
    assert!(rt; size(rt.alloc(), &far) > Some(65_000));
    Ok(())
}

/// Whether each of these needs its room, by one `Deflater`.
fn each_needs_its_room(alloc: Global) -> bool {
    let Ok(mut deflater) = Deflater::new(alloc) else {
        return false;
    };
    needs_its_room(alloc, &mut deflater, b"")
        && needs_its_room(alloc, &mut deflater, b"a")
        && needs_its_room(alloc, &mut deflater, b"hello, hello, hello")
        && needs_its_room(alloc, &mut deflater, &[0; 1_000])
}

#[test]
fn none_in_too_little_room(rt: HostRuntime) -> Result<(), Fail> {
    assert!(rt; each_needs_its_room(rt.alloc()));
    assert!(rt; !fits(rt.alloc(), &noise(rt.alloc(), 70_000, 0xff)?, 70_000));
    Ok(())
}

/// Whether the stream of each is the same after the other.
fn are_the_same_after(alloc: Global, one: &[u8], other: &[u8]) -> bool {
    let Ok(mut deflater) = Deflater::new(alloc) else {
        return false;
    };
    is_the_same_after(alloc, &mut deflater, one, other)
        && is_the_same_after(alloc, &mut deflater, other, one)
}

#[test]
fn earlier_use_makes_no_difference(rt: HostRuntime) -> Result<(), Fail> {
    let words = text(rt.alloc(), 5_000)?;
    let more = text(rt.alloc(), 4_000)?;
    let numbers = noise(rt.alloc(), 70_000, 0)?;
    assert!(rt; are_the_same_after(rt.alloc(), &words, &numbers));
    assert!(rt; are_the_same_after(rt.alloc(), &words, &more));
    Ok(())
}
