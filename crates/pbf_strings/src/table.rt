//! A table that is read: where each text is in the message.

ghost use Rattle.std.specs.Prelude.{◌≡◌, ◌+◌, ◌*◌, ◌≤◌, ◌<◌, ◌↔◌, [], Some, None, Err, IsTrue, IfOk, OnOk, length, map, slice_get, ℕ, MatchOption, ⊤, nat_lt};
ghost use Rattle.std.specs.Option.{option_map};
ghost use Rattle.pbf_wire.specs.declared.fault.Fault.{Fault};
ghost use Rattle.pbf_wire.specs.declared.fault.ReadFault.TheVariants.{Refused};
ghost use Rattle.pbf_wire.specs.Occurrence.{items};
ghost use Rattle.pbf_strings.specs.Texts.{text, texts, longest, first_text, text_at, count_fault, table_fault};
ghost use Rattle.pbf_wire.specs.Wire.{ok_unless};
ghost use Rattle.pbf_strings.specs.declared.table.TheConstants.{MOST_TEXTS};
ghost use Rattle.pbf_wire.specs.declared.limits.TheConstants.{OFFSET_LIMIT, RAW_LIMIT};

use pbf_wire::{Fault, Fields, Kind, Payload, ReadFault, Reason, judge_wire};
use std::alloc::{AllocError, Global};
use std::marker::Model;

/// The field of a StringTable that holds a text: `s`, repeated bytes.
pub const TEXT: u64 = 1;

/// The known fields of a StringTable.
pub const TABLE_KINDS: [(u64, Kind); 1] = [(TEXT, Kind::Bytes)];

/// The most texts of a table.
pub const MOST_TEXTS: usize = 1_048_576;

/// The most texts that a table is written of: the empty one comes before them.
pub const MOST_USED_TEXTS: usize = 1_048_575;

/// The text that the first field holds. It is a call, which short texts need not take.
#[inline(never)]
fn first_text(fields: &[u8], at: u64) -> &[u8]
    requires { at + length fields.now ≤ OFFSET_LIMIT }
    ensures { result.now ≡ first_text (items at fields.now) }
{
    match Fields::new(fields, at).next() {
        Some(Ok(field)) => field.payload.bytes(),
        _ => &[],
    }
}

/// The text that the first field holds, if its tag is the one of a text (10, for number 1 and bytes) and its length takes one byte:
/// nearly all are so.
fn short_text(fields: &[u8]) -> Option<&[u8]>
    ensures { MatchOption result ⊤ (λ text. (at : ℕ)
        → first_text (items at fields.now) ≡ text.now) }
{
    let [tag, size, rest @ ..] = fields else {
        return None;
    };
    let length = usize::from(*size);
    let is_one_byte = length < 128;
    if *tag != 10 || !is_one_byte || rest.len() < length {
        return None;
    }
    Some(&rest[..length])
}

/// The text that the first field holds, whatever it is.
fn text_of(fields: &[u8], at: u64) -> &[u8]
    requires { at + length fields.now ≤ OFFSET_LIMIT }
    ensures { result.now ≡ first_text (items at fields.now) }
{
    match short_text(fields) {
        Some(text) => text,
        None => first_text(fields, at),
    }
}

/// The text of the field that begins at `place`.
#[tactic(auto, using(crate::proofs::TextsLemmas::no_text), unfolding(crate::specs::Texts::text_at))]
fn text_at(message: &[u8], place: usize) -> &[u8]
    requires { place + length message.now ≤ OFFSET_LIMIT }
    ensures { result.now ≡ text_at message.now place }
{
    match message.get(place..) {
        Some(rest) => text_of(rest, place as u64),
        None => &[],
    }
}

/// How many texts a StringTable has; if it has a wire fault, how many come before that.
pub fn text_count(message: &[u8]) -> usize
    requires { length message.now ≤ OFFSET_LIMIT }
    ensures { result ≡ length (texts message.now) }
{
    let mut count = 0;
    for field in Fields::new(message, 0).found() {
        if field.number == TEXT {
            if let Payload::Bytes(..) = field.payload {
                count += 1;
            }
        }
    }
    count
}

/// Whether there are more than [`MOST_TEXTS`]. A message of no more bytes is not gone through: each text takes some.
#[tactic(auto, using(crate::proofs::TextsLemmas::texts_few))]
fn are_too_many(message: &[u8]) -> bool
    requires { length message.now ≤ OFFSET_LIMIT }
    ensures { result ≡ nat_lt MOST_TEXTS (length (texts message.now)) }
{
    message.len() > MOST_TEXTS && text_count(message) > MOST_TEXTS
}

/// Where each text of a StringTable is in the message, and the length of the longest.
fn places(alloc: Global, message: &[u8]) -> Result<(Vec<u32>, usize), AllocError>
    requires { length message.now < RAW_LIMIT }
    ensures exact { IfOk result (λ found. map (text_at message.now) found.0.items
        ≡ texts message.now) }
    ensures longest { IfOk result (λ found. found.1 ≡ longest (texts message.now)) }
{
    let mut places = Vec::new(alloc);
    let mut longest = 0;
    for field in Fields::new(message, 0).found() {
        if field.number == TEXT {
            if let Payload::Bytes(text, _) = field.payload {
                places.push(field.offset as u32)?;
                longest = longest.max(text.len());
            }
        }
    }
    Ok((places, longest))
}

/// The texts of a StringTable. It borrows the message and holds the place of each text in it, four bytes a text, and the length of
/// the longest. Contracts see it as the list of its texts.
#[derive(Drop)]
pub struct Table<'a> {
    message: &'a [u8],
    places: Vec<u32>,
    longest: usize,
}

impl<'a> Model for Table<'a> {
    ghost use Rattle.std.specs.Prelude.{◌≡◌, ℕ, List, map};
    ghost use Rattle.pbf_strings.specs.Texts.{text_at, longest as longest_of, IsSmall};

    ghost Value = { List (List ℕ) };

    ghost view = { λ t. map (text_at t.message.now) t.places.items };

    ghost invariant = { λ t. IsSmall t.message.now t.places
        × (t.longest ≡ longest_of (map (text_at t.message.now) t.places.items)) };
}

impl<'a> Table<'a> {
    /// Judges only the count of the texts: `TooManyStrings` at `place`, that of the table's field in the file, if there
    /// are more than [`MOST_TEXTS`]. Does not allocate.
    pub fn judge_count(message: &[u8], place: u64) -> Result<(), Fault>
        requires { length message.now ≤ OFFSET_LIMIT }
        ensures { result ≡ ok_unless (count_fault place message.now) }
    {
        if are_too_many(message) {
            return Err(Fault {
                offset: place,
                reason: Reason::TooManyStrings,
            });
        }
        Ok(())
    }

    /// Reads a StringTable whose first byte is at `at` in the file, and its field at `place`.
    ///
    /// Refuses the message's first wire fault, otherwise more than [`MOST_TEXTS`] texts. A refusal comes before memory is
    /// requested.
    pub fn read(
        alloc: Global,
        message: &'a [u8],
        at: u64,
        place: u64,
    ) -> Result<Table<'a>, ReadFault>
        requires placed { at + length message.now ≤ OFFSET_LIMIT }
        requires tagged { place ≤ at }
        requires short { length message.now < RAW_LIMIT }
        ensures texts { IfOk result (λ table. table ≡ texts message.now) }
        ensures sound { OnOk result (table_fault at place message.now ≡ None) }
        ensures refused { (fault : Fault)
            → result ≡ Err (Refused fault) ↔ table_fault at place message.now ≡ Some fault }
    {
        judge_wire(message, at, &TABLE_KINDS)?;
        Table::judge_count(message, place)?;
        Ok(Table::open(alloc, message)?)
    }

    /// The texts of a StringTable that was judged to have no more than [`MOST_TEXTS`]. Judges nothing: if the message has a
    /// wire fault, its texts before that count.
    pub fn open(alloc: Global, message: &'a [u8]) -> Result<Table<'a>, AllocError>
        requires short { length message.now < RAW_LIMIT }
        requires few { length (texts message.now) ≤ MOST_TEXTS }
        ensures { IfOk result (λ table. table ≡ texts message.now) }
    {
        let (places, longest) = places(alloc, message)?;
        Ok(Table {
            message,
            places,
            longest,
        })
    }

    /// How many texts there are: at most 1,048,576.
    pub fn len(&self) -> usize
        ensures exact { result ≡ length self.now }
        ensures few { result ≤ MOST_TEXTS }
    {
        self.places.len()
    }

    /// Whether there is no text.
    pub fn is_empty(&self) -> bool
        ensures { IsTrue result ↔ (self.now ≡ []) }
    {
        self.places.is_empty()
    }

    /// The text of an index, counted from 0. Does not allocate.
    pub fn get(&self, index: usize) -> Option<&'a [u8]>
        ensures { option_map (λ text. text.now) result ≡ slice_get self.now index }
    {
        let place = *self.places.get(index)?;
        Some(text_at(self.message, place as usize))
    }

    /// The text of an index, counted from 0, or the empty text if there is none. Does not allocate.
    pub fn text(&self, index: usize) -> &'a [u8]
        ensures { result.now ≡ text self.now index }
    {
        self.get(index).unwrap_or(&[])
    }

    /// The length of the longest text, and 0 if there is none.
    pub fn longest(&self) -> usize
        ensures { result ≡ longest self.now }
    {
        self.longest
    }

    /// How many bytes the table holds beside the message: four for each text, at most 4,194,304.
    pub fn held(&self) -> u64
        ensures value { result ≡ 4 * length self.now }
        ensures bound { result ≤ 4 * MOST_TEXTS }
    {
        4 * self.places.len() as u64
    }
}
