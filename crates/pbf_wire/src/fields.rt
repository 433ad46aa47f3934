//! The fields of a message, one after the other. To read one is inlined into the loops over fields.

ghost use Rattle.std.specs.Prelude.{◌≡◌, ◌==◌, ◌+◌, ◌≤◌, ◌<◌, Ok, IfOk, if◌then◌else◌, length};
ghost use Rattle.pbf_wire.specs.Occurrence.{body_at, occurrence_at};
ghost use Rattle.pbf_wire.specs.Payload.{content, end_of};
ghost use Rattle.pbf_wire.specs.Fields.{occurrence, seen};
ghost use Rattle.pbf_wire.specs.declared.limits.TheConstants.{OFFSET_LIMIT};

use crate::fault::{Fault, Reason};
use crate::field::{Field, Payload};
use crate::varint::first_varint;

/// How many bytes follow a tag of a wire type that no known field has; 0 if such a field cannot be read. It is a call, so that
/// a loop over fields goes by two comparisons, and not by a table of wire types.
#[inline(never)]
fn fixed_size(kind: u64) -> usize
    ensures { result ≡ (if kind == 1 then 8 else (if kind == 5 then 4 else 0)) }
{
    match kind {
        1 => 8,
        5 => 4,
        _ => 0,
    }
}

/// What follows a tag of this wire type, and its length.
#[inline(always)]
#[tactic(auto, unfolding(crate::specs::Occurrence::body_at))]
fn payload_at(bytes: &[u8], kind: u64, at: u64) -> Result<(Payload<'_>, usize), Reason>
    requires { at + length bytes.now ≤ OFFSET_LIMIT }
    ensures exact { seen content result ≡ body_at kind at bytes.now }
    ensures taken { IfOk result (λ found. (found.1 ≤ length bytes.now)
        × (end_of found.0 ≤ OFFSET_LIMIT)) }
{
    match kind {
        0 => {
            let (value, length) = first_varint(bytes)?;
            Ok((Payload::Number(value), length))
        }
        2 => {
            let (size, length) = first_varint(bytes)?;
            let rest = &bytes[length..];
            if (rest.len() as u64) < size {
                return Err(Reason::LengthPast);
            }
            let size = size as usize;
            Ok((
                Payload::Bytes(&rest[..size], at + length as u64),
                length + size,
            ))
        }
        _ => match fixed_size(kind) {
            0 if kind < 5 => Err(Reason::Group),
            0 => Err(Reason::WireType),
            size if bytes.len() < size => Err(Reason::FixedCut),
            8 => Ok((Payload::Eight(&bytes[..8]), 8)),
            size => Ok((Payload::Four(&bytes[..size]), size)),
        },
    }
}

/// The field at the start of the bytes, and its length.
#[inline(always)]
#[tactic(auto, unfolding(crate::specs::Occurrence::occurrence_at))]
fn field_at(bytes: &[u8], place: u64) -> Result<(Field<'_>, usize), Reason>
    requires { place + length bytes.now ≤ OFFSET_LIMIT }
    ensures exact { seen occurrence result ≡ occurrence_at place bytes.now }
    ensures taken { IfOk result (λ found. (0 < found.1) × (found.1 ≤ length bytes.now)) }
{
    let (tag, length) = first_varint(bytes)?;
    if tag > u64::from(u32::MAX) {
        return Err(Reason::TagLarge);
    }
    let number = tag / 8;
    if number == 0 {
        return Err(Reason::NumberZero);
    }
    let (payload, size) = payload_at(&bytes[length..], tag % 8, place + length as u64)?;
    Ok((
        Field {
            offset: place,
            number,
            payload,
        },
        length + size,
    ))
}

/// The fields of a message, in order: an iterator over the bytes, which does not allocate. A fault ends it: after an `Err`
/// there are no more items.
#[derive(Clone, Copy)]
pub struct Fields<'a> {
    rest: &'a [u8],
    at: u64,
    ghost fits: { at + length rest.now ≤ OFFSET_LIMIT },
}

impl<'a> Fields<'a> {
    ghost use Rattle.std.specs.Prelude.{[], IsTrue};
    ghost use Rattle.std.specs.Iterator.{YieldsFirstBy};
    ghost use Rattle.pbf_wire.specs.Occurrence.{items, found};
    ghost use Rattle.pbf_wire.specs.Cursors.{fields_left, found_left};
    ghost use Rattle.pbf_wire.specs.Fields.{item};

    /// The fields of a message whose first byte is at `at` in the file.
    #[tactic(auto, unfolding(crate::specs::Cursors::fields_left))]
    pub fn new(message: &'a [u8], at: u64) -> Self
        requires { at + length message.now ≤ OFFSET_LIMIT }
        ensures { fields_left result ≡ items at message.now }
    {
        Fields { rest: message, at }
    }

    /// The fields before the first fault.
    pub fn found(self) -> FoundFields<'a>
        ensures { found_left result ≡ found (fields_left self.entry) }
    {
        FoundFields(self)
    }

    /// Whether no byte is left.
    #[tactic(auto, using(crate::proofs::Items::items_none), unfolding(crate::specs::Cursors::fields_left))]
    pub(crate) fn is_done(&self) -> bool
        ensures { IsTrue result → fields_left self.now ≡ [] }
    {
        self.rest.is_empty()
    }

    /// How many bytes are left.
    pub(crate) fn len(&self) -> usize
        ensures { result ≡ length self.now.rest.now }
    {
        self.rest.len()
    }
}

impl<'a> Iterator for Fields<'a> {
    ghost use Rattle.std.specs.Iterator.{YieldsFirstBy, item_count};
    ghost use Rattle.pbf_wire.specs.Fields.{item};
    ghost use Rattle.pbf_wire.specs.Cursors.{fields_left};

    type Item = Result<Field<'a>, Fault>;

    ghost next_gives = { YieldsFirstBy item fields_left };

    ghost remaining = { item_count fields_left };

    /// Inlined, so that the cursor of a loop stays in registers.
    #[inline(always)]
    #[tactic(auto, using(crate::proofs::Items::items_none, crate::proofs::Items::items_ok, std::proofs::lemmas::List::take_rest, crate::proofs::Items::items_err, crate::proofs::Items::fewer), unfolding(crate::specs::Cursors::fields_left))]
    fn next(&mut self) -> Option<Result<Field<'a>, Fault>> {
        if self.rest.is_empty() {
            return None;
        }
        let place = self.at;
        match field_at(self.rest, place) {
            Ok((field, length)) => {
                self.rest = &self.rest[length..];
                self.at += length as u64;
                Some(Ok(field))
            }
            Err(reason) => {
                self.rest = &[];
                Some(Err(Fault {
                    offset: place,
                    reason,
                }))
            }
        }
    }
}

/// The fields of a message that come before its first fault, in order. It does not allocate.
#[derive(Clone, Copy)]
pub struct FoundFields<'a>(pub(crate) Fields<'a>);

impl<'a> Iterator for FoundFields<'a> {
    ghost use Rattle.std.specs.Iterator.{YieldsFirstBy, item_count};
    ghost use Rattle.pbf_wire.specs.Cursors.{found_left};

    type Item = Field<'a>;

    ghost next_gives = { YieldsFirstBy occurrence found_left };

    ghost remaining = { item_count found_left };

    #[inline(always)]
    #[tactic(auto, unfolding(crate::specs::Occurrence::items_past))]
    fn next(&mut self) -> Option<Field<'a>> {
        match self.0.next() {
            Some(Ok(field)) => Some(field),
            // After a fault there are no more, which the contract of `Fields` does not say.
            _ => {
                self.0 = Fields::new(&[], 0);
                None
            }
        }
    }
}
