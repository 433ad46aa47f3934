//! Quick tests for columns whose numbers are short, which most columns are: many bytes at once, and no number decoded.

ghost use Rattle.std.specs.Prelude.{◌≡◌, ◌+◌, ◌-◌, ◌<◌, ◌^◌, ⊤, ℕ, IsBitSet, IsTrue, MatchOption, count_by, length, nat_lt, slice_index, take};
ghost use Rattle.std.specs.List.{AllByRecursion};
ghost use Rattle.pbf_wire.specs.Payload.{content};
ghost use Rattle.pbf_wire.specs.Columns.{content_numbers, joined};
ghost use Rattle.pbf_wire.specs.Cursors.{fields_left};
ghost use Rattle.pbf_wire.specs.Occurrence.{found};
ghost use Rattle.pbf_wire.specs.Short.{EndsWithin, IsShort};

use crate::count::{count_ends, end_mask};
use crate::field::Payload;
use crate::fields::Fields;

/// How many bytes are tested at once. A varint that begins in the last four of them may end after them, so only the others are judged.
const WINDOW: usize = 64;

/// Twice as many bytes have no more than 2^26 numbers in a column. If no entry is further than 2^34 from 0, their sums are no
/// further than 2^60.
pub(crate) const MOST_BYTES: usize = 1 << 25;

/// The first 60 bits of a mask.
const FIRST_SIXTY: u64 = (1 << 60) - 1;

/// Which bytes end a varint, as a mask.
fn ends_in(window: &[u8; WINDOW]) -> u64
    ensures { (i : ℕ) → i < 64 → IsBitSet result i → slice_index window.now i < 128 }
{
    let (Some(front), Some(back)) = (window.first_chunk::<32>(), window.last_chunk::<32>()) else {
        return 0;
    };
    (u64::from(end_mask(back)) << 32) + u64::from(end_mask(front))
}

/// Whether a varint ends within five bytes from each of the first 60 bytes on.
fn end_soon(window: &[u8; WINDOW]) -> bool
    ensures { IsTrue result → (i : ℕ) → i < 60 → EndsWithin 5 window.now i }
{
    // A bit of `two` says this of two bytes, one of `four` of four.
    let one = ends_in(window);
    let two = one | one >> 1;
    let four = two | two >> 2;
    let five = four | one >> 4;
    five & FIRST_SIXTY == FIRST_SIXTY
}

/// A window that begins with these bytes, and is filled up with bytes that end.
#[tactic(auto, using(crate::proofs::CountLemmas::filled_up))]
fn window_of(bytes: &[u8]) -> [u8; WINDOW]
    requires { length bytes.now < 64 }
    ensures front { take (length bytes.now) result ≡ bytes.now }
    ensures filled { count_by (λ b. nat_lt b 128) result
        ≡ count_by (λ b. nat_lt b 128) bytes.now + (64 - length bytes.now) }
{
    let mut window = [0; WINDOW];
    window[..bytes.len()].copy_from_slice(bytes);
    window
}

/// Like [`count_short`], for bytes that one window has room for. It is part of its callers, of which one needs no count.
#[inline(always)]
fn count_short_few(bytes: &[u8]) -> Option<usize>
    requires { length bytes.now < 64 }
    ensures short { MatchOption result ⊤ (λ _. IsShort bytes.now) }
    ensures counted { MatchOption result ⊤
        (λ count. count ≡ count_by (λ b. nat_lt b 128) bytes.now) }
{
    let Some(last) = bytes.last() else {
        return Some(0);
    };
    let window = window_of(bytes);
    if *last >= 128 || !end_soon(&window) {
        return None;
    }
    Some(count_ends(&window) - (WINDOW - bytes.len()))
}

/// Whether each number is seen to take at most five bytes, and the last one to end; `false` says nothing.
pub fn is_short(bytes: &[u8]) -> bool
    ensures { IsTrue result → IsShort bytes.now }
{
    if bytes.len() < WINDOW {
        return count_short_few(bytes).is_some();
    }
    let Some(last) = bytes.last_chunk::<WINDOW>() else {
        return false;
    };
    let mut rest = bytes;
    while let Some(window) = rest.first_chunk::<WINDOW>() {
        if !end_soon(window) {
            return false;
        }
        rest = &rest[60..];
    }
    end_soon(last) && last[63] < 128
}

/// How many bytes end a varint, if [`is_short`] holds of the bytes.
pub(crate) fn count_short(bytes: &[u8]) -> Option<usize>
    ensures short { MatchOption result ⊤ (λ _. IsShort bytes.now) }
    ensures counted { MatchOption result ⊤
        (λ count. count ≡ count_by (λ b. nat_lt b 128) bytes.now) }
{
    if bytes.len() < WINDOW {
        return count_short_few(bytes);
    }
    if !is_short(bytes) {
        return None;
    }
    Some(count_ends(bytes))
}

/// How many numbers an occurrence of a column has, if a quick test shows that they are below 2^35.
fn count_if_small(payload: Payload<'_>) -> Option<usize>
    ensures counted { MatchOption result ⊤
        (λ count. count ≡ length (content_numbers (content payload.entry))) }
    ensures small { MatchOption result ⊤
        (λ _. AllByRecursion (λ v. v < 2 ^ 35) (content_numbers (content payload.entry))) }
{
    match payload {
        Payload::Number(value) if value >= 1 << 35 => None,
        Payload::Number(_) => Some(1),
        Payload::Bytes(bytes, _) => count_short(bytes),
        _ => Some(0),
    }
}

/// How many numbers a column has in the fields that are still to come, if a quick test shows that they are below 2^35. No number of a
/// packed occurrence is decoded.
#[tactic(auto, using(crate::proofs::ShortLemmas::left_short))]
pub(crate) fn count_left_if_small(fields: Fields<'_>, number: u64) -> Option<usize>
    ensures counted { MatchOption result ⊤
        (λ count. count ≡ length (joined number (found (fields_left fields.entry)))) }
    ensures small { MatchOption result ⊤ (λ _. AllByRecursion (λ x. x.0 < 2 ^ 35)
        (joined number (found (fields_left fields.entry)))) }
{
    let mut count = 0;
    for field in fields.found() {
        if field.number == number {
            count += count_if_small(field.payload)?;
        }
    }
    Some(count)
}
