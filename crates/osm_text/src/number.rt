//! Numbers as they are printed.

ghost use Rattle.std.specs.Prelude.{◌≡◌, ◌++◌, decimal, OnOk, OnErr};
ghost use Rattle.std.specs.Fmt.{signed_decimal};
ghost use Rattle.osm_text.specs.EntityText.{spaced, spaced_pair};

use itoa::Buffer;
use std::alloc::AllocError;

/// Appends a number in decimal, without leading zeros. An `Err`, if memory is refused, leaves the output as it was.
pub fn put_number(out: &mut Vec<u8>, number: u64) -> Result<(), AllocError>
    ensures ok { OnOk result (out.new.items ≡ out.old.items ++ decimal number) }
    ensures err { OnErr result (out.new.items ≡ out.old.items) }
{
    let mut buffer = Buffer::new();
    out.extend_from_slice(buffer.format(number).as_bytes())?;
    Ok(())
}

/// Appends a signed number in decimal, `-` before one below 0.
pub(crate) fn put_signed(out: &mut Vec<u8>, number: i128) -> Result<(), AllocError>
    ensures { OnOk result (out.new.items ≡ out.old.items ++ signed_decimal number) }
{
    let mut digits = Buffer::new();
    out.extend_from_slice(digits.format(number).as_bytes())?;
    Ok(())
}

/// Appends a space and a signed number.
pub(crate) fn put_spaced(out: &mut Vec<u8>, number: i128) -> Result<(), AllocError>
    ensures { OnOk result (out.new.items ≡ out.old.items ++ spaced number) }
{
    out.push(b' ')?;
    put_signed(out, number)
}

/// Appends two signed numbers, each after a space.
pub(crate) fn put_spaced_pair(
    out: &mut Vec<u8>,
    first: i128,
    second: i128,
) -> Result<(), AllocError>
    ensures { OnOk result (out.new.items ≡ out.old.items ++ spaced_pair first second) }
{
    put_spaced(out, first)?;
    put_spaced(out, second)
}
