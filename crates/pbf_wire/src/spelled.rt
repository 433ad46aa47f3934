//! Numbers that are spelled as they are written, without a needless byte.

ghost use Rattle.std.specs.Prelude.{IsTrue};
ghost use Rattle.pbf_wire.specs.Varint.{AreNeeded};

use std::simd::prelude::*;

/// Whether no byte of a block is 0 after one that goes on, 32 at once.
fn are_needed_here(block: &[u8; 33]) -> bool
    ensures { IsTrue result → AreNeeded 0 block.now }
{
    let (Some(front), Some(back)) = (block.first_chunk::<32>(), block.last_chunk::<32>()) else {
        return false;
    };
    // 1 of a byte that goes on, and 0 of one that ends.
    let least = u8x32::from_array(*front) >> u8x32::splat(7);
    u8x32::from_array(*back).simd_lt(least).to_bitmask() == 0
}

/// Whether no byte is 0 after one that goes on: then each number is spelled as it is written.
pub(crate) fn are_needed(bytes: &[u8]) -> bool
    ensures { IsTrue result → AreNeeded 0 bytes.now }
{
    let mut rest = bytes;
    'blocks: while let Some(block) = rest.first_chunk::<33>() {
        if !are_needed_here(block) {
            return false;
        }
        rest = &rest[32..];
    }
    let mut before = 0;
    'bytes: for &byte in rest {
        if before >= 128 && byte == 0 {
            return false;
        }
        before = byte;
    }
    true
}
