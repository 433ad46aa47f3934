//! How many varints a packed column has, without decoding it: as many as it has bytes below 128.

ghost use Rattle.std.specs.Prelude.{◌≡◌, ◌<◌, ◌↔◌, ◌^◌, ℕ, nat_lt, count_by, count_ones, length, map, slice_index, IsBitSet};
ghost use Rattle.std.specs.Simd.Lanes.{mask_l};

use std::simd::prelude::*;

/// The lanes below 128 as a mask, lane 0 in the lowest bit.
fn ends(lanes: u8x32) -> u64
    requires { length lanes ≡ 32 }
    ensures mask { result ≡ mask_l (map (λ b. nat_lt b 128) lanes) }
    ensures small { result < 2 ^ 32 }
{
    lanes.simd_lt(u8x32::splat(128)).to_bitmask()
}

/// Which bytes of a block are below 128: bit i of the mask is set exactly if byte i is. Takes 32 lanes at once.
pub fn end_mask(block: &[u8; 32]) -> u32
    ensures bits { (i : ℕ) → i < 32 → (IsBitSet result i ↔ (slice_index block.now i < 128)) }
    ensures ones { count_ones result ≡ count_by (λ b. nat_lt b 128) block.now }
{
    ends(u8x32::from_array(*block)) as u32
}

/// How many bytes are below 128. Of a packed column without a wire fault this is how many numbers it has.
pub fn count_ends(bytes: &[u8]) -> usize
    ensures { result ≡ count_by (λ b. nat_lt b 128) bytes.now }
{
    let mut count = 0;
    let mut rest = bytes;
    while let Some((block, after)) = rest.split_first_chunk::<32>() {
        count += end_mask(block).count_ones() as usize;
        rest = after;
    }
    count + rest.iter().filter(|byte| **byte < 128).count()
}
