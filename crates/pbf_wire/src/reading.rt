//! Singular fields: of several occurrences the last counts.

ghost use Rattle.std.specs.Prelude.{◌≡◌};
ghost use Rattle.std.specs.Option.{option_map};
ghost use Rattle.pbf_wire.specs.Occurrence.{found};
ghost use Rattle.pbf_wire.specs.Cursors.{fields_left};
ghost use Rattle.pbf_wire.specs.Faults.{found_in};
ghost use Rattle.pbf_wire.specs.Fields.{occurrence};
ghost use Rattle.pbf_wire.specs.Reading.{last_of, last_value, last_number, occurrence_text};

use crate::field::{Field, Payload};
use crate::fields::Fields;
use crate::message::Message;

/// The last occurrence of a field, of any wire type. If the message has a fault, its fields before the fault count. Reads all
/// fields once and does not allocate.
pub fn last_field(message: Message<'_>, number: u64) -> Option<Field<'_>>
    ensures { option_map occurrence result ≡ last_of number (found_in message.entry) }
{
    let mut last = None;
    for field in message.found() {
        if field.number == number {
            last = Some(field);
        }
    }
    last
}

/// The text of a field, and no bytes if it is absent.
pub fn occurrence_text(field: Option<Field<'_>>) -> &[u8]
    ensures { result.now ≡ occurrence_text (option_map occurrence field.entry) }
{
    match field {
        Some(field) => field.payload.bytes(),
        None => &[],
    }
}

/// The place of the last occurrence of a field that holds a number, and the number, among the fields that are still to come. The
/// rest is as for [`last_field`].
pub fn last_value_left(fields: Fields<'_>, number: u64) -> Option<(u64, u64)>
    ensures { result ≡ last_value number (found (fields_left fields.entry)) }
{
    let mut last = None;
    for field in fields.found() {
        if let Payload::Number(value) = field.payload {
            if field.number == number {
                last = Some((field.offset, value));
            }
        }
    }
    last
}

/// The number of the last occurrence of a field that holds one. The rest is as for [`last_field`].
pub fn last_number(message: Message<'_>, number: u64) -> Option<u64>
    ensures { result ≡ last_number number (found_in message.entry) }
{
    last_value_left(message.fields(), number).map(|(_, value)| value)
}
