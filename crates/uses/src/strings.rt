//! A caller of `pbf_strings`.

ghost use Rattle.std.specs.Prelude.{◌≡◌, ◌%◌, ◌^◌};
ghost use Rattle.pbf_strings.specs.Texts.{text};

use pbf_strings::Table;
use pbf_wire::low_u32;

/// The text that a stored number names, of which the low 32 bits count.
pub fn named<'a>(table: &'a Table<'a>, number: u64) -> &'a [u8]
    ensures { result.now ≡ text table.now (number % 2 ^ 32) }
{
    table.text(low_u32(number) as usize)
}
