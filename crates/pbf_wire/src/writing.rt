//! Fields, written: each call appends one field in its shortest form.
//!
//! A message in written form is the list of its slots in ascending order of their numbers. After an `Err` the output is
//! unspecified.

ghost use Rattle.std.specs.Prelude.{◌≡◌, ◌^◌, ◌<◌, ◌++◌, [], ◌∷◌, ℕ, List, Some, OnOk};
ghost use Rattle.std.specs.Option.{option_map};
ghost use Rattle.pbf_wire.specs.Columns.{packed};
ghost use Rattle.pbf_wire.specs.Signed.{sign_extended};
ghost use Rattle.pbf_wire.specs.Message.{Scalar, Column, Each, slot_bytes, unless_empty};

use crate::signed::sign_extended;
use crate::varint::put_varint;
use std::alloc::AllocError;

/// Appends a field that holds a number (wire type 0).
#[tactic(auto, using(crate::proofs::WritingLemmas::number_put))]
pub fn put_number(out: &mut Vec<u8>, number: u64, value: u64) -> Result<(), AllocError>
    requires { number < 2 ^ 29 }
    ensures { OnOk result (out.new.items
        ≡ out.old.items ++ slot_bytes (Scalar number (Some value))) }
{
    put_varint(out, number * 8)?;
    put_varint(out, value)?;
    Ok(())
}

/// Appends a field that holds a number (wire type 0), if there is one.
#[tactic(auto, using(crate::proofs::WritingLemmas::nothing_put, crate::proofs::WritingLemmas::scalar_none))]
pub fn put_if_some(out: &mut Vec<u8>, number: u64, value: Option<u64>) -> Result<(), AllocError>
    requires { number < 2 ^ 29 }
    ensures { OnOk result (out.new.items ≡ out.old.items ++ slot_bytes (Scalar number value)) }
{
    if let Some(value) = value {
        put_number(out, number, value)?;
    }
    Ok(())
}

/// Appends a field that holds a number in two's complement (wire type 0), if there is one.
pub fn put_int64(out: &mut Vec<u8>, number: u64, value: Option<i64>) -> Result<(), AllocError>
    requires { number < 2 ^ 29 }
    ensures { OnOk result (out.new.items
        ≡ out.old.items ++ slot_bytes (Scalar number (option_map sign_extended value))) }
{
    put_if_some(out, number, value.map(|value| sign_extended(value)))
}

/// Appends a field that holds a text or an embedded message (wire type 2).
#[tactic(auto, using(crate::proofs::WritingLemmas::bytes_put))]
pub fn put_bytes(out: &mut Vec<u8>, number: u64, bytes: &[u8]) -> Result<(), AllocError>
    requires { number < 2 ^ 29 }
    ensures { OnOk result (out.new.items
        ≡ out.old.items ++ slot_bytes (Each number (bytes.now ∷ []))) }
{
    put_varint(out, number * 8 + 2)?;
    put_varint(out, bytes.len() as u64)?;
    out.extend_from_slice(bytes)?;
    Ok(())
}

/// Appends a field that holds an embedded message, unless that has no field.
#[tactic(auto, using(crate::proofs::WritingLemmas::empty_left))]
pub fn put_unless_empty(out: &mut Vec<u8>, number: u64, message: &[u8]) -> Result<(), AllocError>
    requires { number < 2 ^ 29 }
    ensures { OnOk result (out.new.items
        ≡ out.old.items ++ slot_bytes (Each number (unless_empty message.now))) }
{
    if !message.is_empty() {
        put_bytes(out, number, message)?;
    }
    Ok(())
}

/// Appends a packed column, as `ColumnOut::bytes` and `DeltaOut::bytes` give it; nothing if it is empty.
#[tactic(auto, using(crate::proofs::WritingLemmas::column_put))]
pub fn put_column(out: &mut Vec<u8>, number: u64, column: &[u8]) -> Result<(), AllocError>
    requires { number < 2 ^ 29 }
    ensures { (values : List ℕ) → column.now ≡ packed values
        → OnOk result (out.new.items ≡ out.old.items ++ slot_bytes (Column number values)) }
{
    put_unless_empty(out, number, column)
}
