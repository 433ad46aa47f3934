//! Numbers of one byte, sixteen at once.

ghost use Rattle.std.specs.Prelude.{◌≡◌, ◌<◌, ◌≤◌, ⊤, IsTrue, MatchOption, length, replicate, take};
ghost use Rattle.std.specs.List.{AllByRecursion, sum};
ghost use Rattle.pbf_wire.specs.Rising.{AreRising, AreSingle, IsHalved};

use std::simd::prelude::*;

/// Whether all lanes are below a number.
fn are_below(lanes: u8x16, bound: u8) -> bool
    requires { length lanes ≡ 16 }
    ensures { IsTrue result → AllByRecursion (λ lane. lane < bound) lanes }
{
    lanes.simd_ge(u8x16::splat(bound)).to_bitmask() == 0
}

/// Whether all bytes are below 128 and even.
fn are_halved(block: &[u8; 16]) -> bool
    ensures { IsTrue result → AllByRecursion IsHalved block.now }
{
    let lanes = u8x16::from_array(*block);
    are_below(lanes, 128) && are_below(lanes & u8x16::splat(1), 1)
}

/// Half the sum of the bytes, if each is below 128 and even: so each is a number of one byte, which means an entry that isn't negative.
pub(crate) fn rise_of(block: &[u8; 16]) -> Option<u16>
    ensures { MatchOption result ⊤ (λ rise. AreRising block.now rise) }
{
    if !are_halved(block) {
        return None;
    }
    let sum = u8x16::from_array(*block).cast::<u16>().strict_reduce_sum();
    Some(sum / 2)
}

/// How many of some bytes are 0 before the first that isn't.
#[inline(always)]
#[tactic(auto, using(crate::proofs::RisingRuns::zeros_are, crate::proofs::RisingRuns::zeros_few))]
pub(crate) fn zeros_of(block: &[u8; 16]) -> usize
    ensures zeros { take result block.now ≡ replicate result 0 }
    ensures few { result ≤ 16 }
{
    let others = u8x16::from_array(*block)
        .simd_ge(u8x16::splat(1))
        .to_bitmask();
    if others == 0 {
        return 16;
    }
    others.trailing_zeros() as usize
}

/// What is left of some bytes after blocks of bytes below 128.
fn after_single_blocks(bytes: &[u8]) -> &[u8]
    ensures { AreSingle bytes.now result.now }
{
    let mut rest = bytes;
    'many: while let Some((block, after)) = rest.split_first_chunk::<16>() {
        if !are_below(u8x16::from_array(*block), 128) {
            break;
        }
        rest = after;
    }
    rest
}

/// What is left of some bytes after the first bytes below 128.
pub(crate) fn after_singles(bytes: &[u8]) -> &[u8]
    ensures { AreSingle bytes.now result.now }
{
    let mut rest = after_single_blocks(bytes);
    'singles: while let [first, after @ ..] = rest {
        if *first >= 128 {
            break;
        }
        rest = after;
    }
    rest
}
