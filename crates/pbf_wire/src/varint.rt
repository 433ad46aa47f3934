//! Varints: numbers of 64 bits, seven bits a byte, the lowest first. The top bit is set on every byte but the last.
//!
//! Short numbers, which most are, are read and written without a call, longer ones by calls.

ghost use Rattle.std.specs.Prelude.{◌≡◌, ◌≤◌, ◌<◌, ◌^◌, ℕ, IfOk, MatchOption, ⊤, Result, Ok, Err, ◌↔◌, length, take, drop, slice_range};
ghost use Rattle.pbf_wire.specs.Signed.{IsNear};
ghost use Rattle.pbf_wire.specs.Varint.{AppendsVarint, IsVarint, IsCut, IsLong, number_or_reason, varint_at, moved_by, shortest};

use crate::fault::Reason;
use std::alloc::AllocError;

/// The number that the bytes begin with, and how many bytes it takes, byte by byte. A length of 0 says that there is none: so two plain
/// numbers are returned, for which no room in memory is cleared if it is called.
#[tactic(auto, using(crate::proofs::Varints::long_at, crate::proofs::Varints::cut_at), unfolding(crate::specs::Varint::value_of))]
fn any_varint(bytes: &[u8]) -> (u64, usize)
    ensures exact { number_or_reason bytes.now result ≡ varint_at bytes.now }
    ensures taken { result.1 ≤ length bytes.now }
{
    let mut value = 0;
    for (i, &byte) in bytes.iter().enumerate() {
        if i == 9 && byte > 1 {
            return (0, 0);
        }
        value |= u64::from(byte & 127) << (7 * i);
        if byte < 128 {
            return (value, i + 1);
        }
    }
    (0, 0)
}

/// The number that the bytes begin with, and how many bytes it takes, if they are four or five: most numbers that take more than three
/// take so many.
#[tactic(auto, using(crate::proofs::Varints::four_bytes, crate::proofs::Varints::five_bytes))]
fn far_varint(bytes: &[u8]) -> Option<(u64, usize)>
    ensures { MatchOption result ⊤ (λ found. (varint_at bytes.now ≡ Ok found) × (0 < found.1)
        × (found.1 ≤ length bytes.now) × (found.0 < 2 ^ 35)) }
{
    let [first, second, third, fourth, ..] = bytes else {
        return None;
    };
    if *first < 128 || *second < 128 || *third < 128 {
        return None;
    }
    // Each step subtracts the top bit of the byte before, which only says that the number continues.
    let two = u64::from(*first) - 128 + u64::from(*second) * 128;
    let three = two - 128 * 128 + u64::from(*third) * (128 * 128);
    let four = three - 128 * 128 * 128 + u64::from(*fourth) * (128 * 128 * 128);
    if *fourth < 128 {
        return Some((four, 4));
    }
    let [_, _, _, _, fifth, ..] = bytes else {
        return None;
    };
    if *fifth < 128 {
        let five = four - 128 * 128 * 128 * 128 + u64::from(*fifth) * (128 * 128 * 128 * 128);
        return Some((five, 5));
    }
    None
}

/// Like [`any_varint`], for numbers that take four bytes or more: most of them take four or five.
#[inline(never)]
fn longer_varint(bytes: &[u8]) -> (u64, usize)
    ensures exact { number_or_reason bytes.now result ≡ varint_at bytes.now }
    ensures taken { result.1 ≤ length bytes.now }
{
    match far_varint(bytes) {
        Some(found) => found,
        None => any_varint(bytes),
    }
}

/// The number that the bytes begin with, and how many bytes it takes, if they are at most three: nearly all numbers of a file
/// are so short. It is inlined.
#[inline(always)]
#[tactic(auto, using(crate::proofs::Varints::one_byte, crate::proofs::Varints::two_bytes, crate::proofs::Varints::three_bytes))]
fn short_varint(bytes: &[u8]) -> Option<(u64, usize)>
    ensures { MatchOption result ⊤ (λ found. (varint_at bytes.now ≡ Ok found) × (0 < found.1)
        × (found.1 ≤ length bytes.now) × (found.0 < 2 ^ 21)) }
{
    let [first, ..] = bytes else {
        return None;
    };
    let one = u64::from(*first);
    if one < 128 {
        return Some((one, 1));
    }
    // Each step subtracts the top bit of the byte before, which only says that the number continues.
    let [_, second, ..] = bytes else {
        return None;
    };
    let two = one - 128 + u64::from(*second) * 128;
    if *second < 128 {
        return Some((two, 2));
    }
    let [_, _, third, ..] = bytes else {
        return None;
    };
    if *third < 128 {
        let three = two - 128 * 128 + u64::from(*third) * (128 * 128);
        return Some((three, 3));
    }
    None
}

/// The number that the bytes begin with, and how many bytes it takes, if they are at most five, or three if it is narrow.
#[tactic(auto, using(crate::proofs::NextLemmas::short_near, crate::proofs::NextLemmas::far_near))]
pub(crate) fn near_varint(bytes: &[u8], narrow: bool) -> Option<(u64, usize)>
    ensures { MatchOption result ⊤ (λ found. (varint_at bytes.now ≡ Ok found) × (0 < found.1)
        × (found.1 ≤ length bytes.now) × IsNear narrow found.0) }
{
    match short_varint(bytes) {
        Some(found) => Some(found),
        None if narrow => None,
        None => far_varint(bytes),
    }
}

/// The number that the bytes begin with, and how many bytes it takes.
#[inline(always)]
#[tactic(auto, using(crate::proofs::Varints::cut_at))]
pub(crate) fn first_varint(bytes: &[u8]) -> Result<(u64, usize), Reason>
    ensures exact { result ≡ varint_at bytes.now }
    ensures taken { IfOk result (λ found. (0 < found.1) × (found.1 ≤ length bytes.now)) }
{
    if bytes.is_empty() {
        return Err(Reason::VarintCut);
    }
    if let Some(found) = short_varint(bytes) {
        return Ok(found);
    }
    let found = longer_varint(bytes);
    if found.1 > 0 {
        return Ok(found);
    }
    // Of ten bytes one ends the number, or it is too long.
    if bytes.len() < 10 {
        Err(Reason::VarintCut)
    } else {
        Err(Reason::VarintLong)
    }
}

/// The number that is spelled from the index `at` on, and the index after it.
///
/// Spellings that are longer than needed are read. The errors are `VarintCut`, if the bytes end inside the varint, and
/// `VarintLong`, if ten bytes have the top bit set or the tenth is above 1, so that the number would not fit 64 bits.
///
/// It is inlined, so that a number of one to three bytes takes no call.
#[inline(always)]
#[tactic(auto, using(std::proofs::lemmas::List::take_rest, crate::proofs::Spellings::only_is, crate::proofs::Spellings::cut_iff, crate::proofs::Spellings::long_iff, crate::proofs::Spellings::found_is))]
pub fn get_varint(bytes: &[u8], at: usize) -> Result<(u64, usize), Reason>
    requires { at ≤ length bytes.now }

    // A number is returned exactly if the bytes are a spelling of it.
    ensures found { IfOk result (λ found. (at < found.1) × (found.1 ≤ length bytes.now)
        × IsVarint found.0 (slice_range bytes.now at found.1)) }
    ensures only { (v k : ℕ) → at ≤ k → k ≤ length bytes.now
        → IsVarint v (slice_range bytes.now at k) → result ≡ Ok (v, k) }

    // Each error comes exactly if its definition holds.
    ensures cut { result ≡ Err Reason.VarintCut ↔ IsCut (drop at bytes.now) }
    ensures long { result ≡ Err Reason.VarintLong ↔ IsLong (drop at bytes.now) }

    // The same as a computation.
    ensures exact { result ≡ moved_by at (varint_at (drop at bytes.now)) }
{
    let (value, length) = first_varint(&bytes[at..])?;
    Ok((value, at + length))
}

/// The shortest spelling, at the start of the array, and its length. It does not allocate.
pub fn shortest_spelling(value: u64) -> ([u8; 10], usize)
    ensures within { result.1 ≤ 10 }
    ensures spelling { take result.1 result.0 ≡ shortest value }
{
    let mut spelling = [0; 10];
    let mut length = 0;
    let mut rest = value;
    while rest >= 128 {
        spelling[length] = (rest % 128) as u8 + 128;
        rest >>= 7;
        length += 1;
    }
    spelling[length] = rest as u8;
    (spelling, length + 1)
}

// The functions that append a number do so by one rule, `shortest`, which the contract of each cites. Of `put_varint`, which many call,
// only the case of one byte is part of its callers.

/// Like [`put_longer`], of a number that takes four bytes or more: most of them take four or five.
#[inline(never)]
#[tactic(auto, using(crate::proofs::Shortest::four_bytes, crate::proofs::Shortest::five_bytes))]
fn put_longest(out: &mut Vec<u8>, value: u64) -> Result<(), AllocError>
    requires { 2 ^ 21 ≤ value }
    ensures { AppendsVarint value out.old.items out.new.items result }
{
    if value < 1 << 28 {
        out.extend_from_slice(&[
            (value % 128 + 128) as u8,
            (value / 128 % 128 + 128) as u8,
            (value / 128 / 128 % 128 + 128) as u8,
            (value / 128 / 128 / 128) as u8,
        ])?;
    } else if value < 1 << 35 {
        out.extend_from_slice(&[
            (value % 128 + 128) as u8,
            (value / 128 % 128 + 128) as u8,
            (value / 128 / 128 % 128 + 128) as u8,
            (value / 128 / 128 / 128 % 128 + 128) as u8,
            (value / 128 / 128 / 128 / 128) as u8,
        ])?;
    } else {
        let (spelling, length) = shortest_spelling(value);
        out.extend_from_slice(&spelling[..length])?;
    }
    Ok(())
}

/// Like [`put_varint`], of a number that takes two bytes or more: most of them take two or three, which are spelled at once.
#[inline(never)]
#[tactic(auto, using(crate::proofs::Shortest::two_bytes, crate::proofs::Shortest::three_bytes))]
fn put_longer(out: &mut Vec<u8>, value: u64) -> Result<(), AllocError>
    requires { 128 ≤ value }
    ensures { AppendsVarint value out.old.items out.new.items result }
{
    if value < 1 << 14 {
        out.extend_from_slice(&[(value % 128 + 128) as u8, (value / 128) as u8])?;
    } else if value < 1 << 21 {
        out.extend_from_slice(&[
            (value % 128 + 128) as u8,
            (value / 128 % 128 + 128) as u8,
            (value / 128 / 128) as u8,
        ])?;
    } else {
        put_longest(out, value)?;
    }
    Ok(())
}

/// Appends the shortest spelling, of one to ten bytes. An `Err` leaves the output as it was.
///
/// Most numbers of a file take one byte, which is written inline, without a call.
#[inline(always)]
#[tactic(auto, using(crate::proofs::Shortest::one_byte))]
pub fn put_varint(out: &mut Vec<u8>, value: u64) -> Result<(), AllocError>
    ensures { AppendsVarint value out.old.items out.new.items result }
{
    if value < 128 {
        out.push(value as u8)?;
    } else {
        put_longer(out, value)?;
    }
    Ok(())
}

/// How many bytes the shortest spelling takes, from one to ten.
pub fn varint_len(value: u64) -> usize
    ensures { result ≡ length (shortest value) }
{
    shortest_spelling(value).1
}
