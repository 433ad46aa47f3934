//! A message, and where it is.

ghost use Rattle.std.specs.Prelude.{◌+◌, ◌≤◌, length};
ghost use Rattle.pbf_wire.specs.declared.limits.TheConstants.{OFFSET_LIMIT};

use crate::column::Column;
use crate::field::{Field, Payload};
use crate::fields::{Fields, FoundFields};

/// The bytes of a message, and where in the file the first of them is. Code that makes one must prove that they end at 2^63 at the
/// latest.
#[derive(Clone, Copy)]
pub struct Message<'a> {
    pub bytes: &'a [u8],
    pub at: u64,
    ghost fits: { at + length bytes.now ≤ OFFSET_LIMIT },
}

impl<'a> Message<'a> {
    ghost use Rattle.std.specs.Prelude.{◌≡◌};
    ghost use Rattle.pbf_wire.specs.Columns.{joined};
    ghost use Rattle.pbf_wire.specs.Cursors.{column_left, fields_left, found_left, place_of_number};
    ghost use Rattle.pbf_wire.specs.Faults.{found_in};
    ghost use Rattle.pbf_wire.specs.Occurrence.{items};

    /// Its fields, and the fault that ends them.
    pub fn fields(self) -> Fields<'a>
        ensures { fields_left result ≡ items self.entry.at self.entry.bytes.now }
    {
        Fields::new(self.bytes, self.at)
    }

    /// Its fields before the first fault.
    pub fn found(self) -> FoundFields<'a>
        ensures { found_left result ≡ found_in self.entry }
    {
        self.fields().found()
    }

    /// The column that its field of this number is.
    pub fn column(self, number: u64) -> Column<'a>
        ensures left { column_left result ≡ joined number (found_in self.entry) }
        ensures place { place_of_number result ≡ self.entry.at }
    {
        Column::new(self.bytes, self.at, number)
    }
}

impl<'a> Field<'a> {
    ghost use Rattle.std.specs.Prelude.{◌≡◌, ℕ, List, [], MatchOption};
    ghost use Rattle.pbf_wire.specs.declared.fault.Fault.{Fault};
    ghost use Rattle.pbf_wire.specs.Faults.{inside};
    ghost use Rattle.pbf_wire.specs.Occurrence.{Bytes};
    ghost use Rattle.pbf_wire.specs.Payload.{content};

    /// The message that it holds, if it holds bytes.
    pub fn message(self) -> Option<Message<'a>>
        ensures { MatchOption result
            ((f : ℕ → List ℕ → List Fault) → inside f (content self.entry.payload) ≡ [])
            (λ message. content self.entry.payload ≡ Bytes message.bytes.now message.at) }
    {
        match self.payload {
            Payload::Bytes(bytes, at) => Some(Message { bytes, at }),
            _ => None,
        }
    }
}
