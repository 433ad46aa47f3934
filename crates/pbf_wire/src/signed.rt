//! Signed numbers as varints hold them.
//!
//! A varint is a number of 64 bits without a sign. Each protobuf type says how it is read: `sint32` and `sint64` by zigzag,
//! `int32`, `int64`, `uint32`, enums and `bool` by two's complement, of which the types of 32 bits take the low half.

ghost use Rattle.std.specs.Prelude.{◌≡◌, ◌%◌, ◌^◌};
ghost use Rattle.pbf_wire.specs.Signed.{zigzag, unzigzag, low_i32, low_i64, sign_extended, delta_in};

/// What is written for a `sint64`: the numbers in order of their size, 0, -1, 1, -2, and so on.
pub fn zigzag(number: i64) -> u64
    ensures { result ≡ zigzag number }
{
    if number < 0 {
        2 * (number + 1).unsigned_abs() + 1
    } else {
        2 * number as u64
    }
}

/// A `sint64`: what [`zigzag`] undoes.
pub fn unzigzag(value: u64) -> i64
    ensures { result ≡ unzigzag value }
{
    let half = (value / 2) as i64;
    if value % 2 == 0 { half } else { -half - 1 }
}

/// A `uint32`: the low 32 bits.
pub fn low_u32(value: u64) -> u32
    ensures { result ≡ value % 2 ^ 32 }
{
    (value % (1 << 32)) as u32
}

/// An `int32` or an enum: the low 32 bits in two's complement.
pub fn low_i32(value: u64) -> i32
    ensures { result ≡ low_i32 value }
{
    low_u32(value).cast_signed()
}

/// A `sint32`: the zigzag of the low 32 bits.
pub fn low_sint32(value: u64) -> i32
    ensures { result ≡ unzigzag (value % 2 ^ 32) }
{
    let low = low_u32(value);
    let half = (low / 2) as i32;
    if low % 2 == 0 { half } else { -half - 1 }
}

/// An `int64`: all 64 bits in two's complement.
pub fn low_i64(value: u64) -> i64
    ensures { result ≡ low_i64 value }
{
    value.cast_signed()
}

/// What is written for an `int32` or an `int64`: two's complement in 64 bits, so that a negative number takes ten bytes.
pub fn sign_extended(number: i64) -> u64
    ensures { result ≡ sign_extended number }
{
    number.cast_unsigned()
}

/// The entry that a number of a delta column means.
pub(crate) fn delta_in(narrow: bool, number: u64) -> i64
    ensures { result ≡ delta_in narrow number }
{
    if narrow {
        i64::from(low_sint32(number))
    } else {
        unzigzag(number)
    }
}
