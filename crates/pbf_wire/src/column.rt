//! A column: the numbers of all occurrences of one field, packed or single, joined.
//!
//! `next` is inlined, so that the cursor of a loop stays in registers.

ghost use Rattle.std.specs.Prelude.{◌≡◌, ◌<◌, ◌≤◌, ◌^◌, ◌∷◌, ◌++◌, [], MatchOption, ⊤, IsTrue, false, length, take};
ghost use Rattle.pbf_wire.specs.Signed.{IsNear};
ghost use Rattle.pbf_wire.specs.Varint.{Spells};
ghost use Rattle.pbf_wire.specs.Columns.{entries, read_entries};
ghost use Rattle.pbf_wire.specs.declared.limits.TheConstants.{OFFSET_LIMIT};

use crate::field::Payload;
use crate::fields::{Fields, FoundFields};
use crate::runs::{after_singles, rise_of, zeros_of};
use crate::short::{MOST_BYTES, count_left_if_small, count_short};
use crate::varint::{first_varint, near_varint};

/// The first number of a packed column, and the bytes after it; `None` if the bytes don't begin with a varint.
#[tactic(auto, using(std::proofs::lemmas::List::take_rest, crate::proofs::Columns::entries_ok, crate::proofs::Columns::none_read))]
pub fn first_number(packed: &[u8]) -> Option<(u64, &[u8])>
    ensures { MatchOption result (read_entries (entries packed.now) ≡ [])
        (λ found. read_entries (entries packed.now)
        ≡ found.0 ∷ read_entries (entries found.1.now)) }
{
    match first_varint(packed) {
        Ok((value, length)) => Some((value, &packed[length..])),
        Err(_) => None,
    }
}

/// Like [`first_number`], if it takes at most five bytes, or three if it is narrow.
#[tactic(auto, using(std::proofs::lemmas::List::take_rest, crate::proofs::Columns::entries_ok, crate::proofs::ShortestRead::read_spells))]
fn first_near(packed: &[u8], narrow: bool) -> Option<(u64, &[u8])>
    ensures number { MatchOption result ⊤ (λ found. (read_entries (entries packed.now)
        ≡ found.0 ∷ read_entries (entries found.1.now)) × IsNear narrow found.0) }
    ensures spelled { MatchOption result ⊤ (λ found. Spells found.0 packed.now found.1.now) }
{
    let (value, length) = near_varint(packed, narrow)?;
    Some((value, &packed[length..]))
}

/// A cursor over a column: it returns the numbers of all occurrences of one field in order, and says where the occurrence
/// of the last one is. It does not allocate, and a copy of it continues by itself.
#[derive(Clone, Copy)]
pub struct Column<'a> {
    fields: FoundFields<'a>,
    number: u64,
    /// What is left of the packed occurrence that was begun, and its place.
    packed: &'a [u8],
    packed_place: u64,
    place: u64,
}

impl<'a> Column<'a> {
    ghost use Rattle.std.specs.Prelude.{◌+◌, ◌-◌, drop, replicate};
    ghost use Rattle.std.specs.List.{AllByRecursion};
    ghost use Rattle.pbf_wire.specs.Rising.{AreRising};
    ghost use Rattle.pbf_wire.specs.Occurrence.{items, found};
    ghost use Rattle.pbf_wire.specs.Columns.{joined};
    ghost use Rattle.pbf_wire.specs.Cursors.{fields_left, column_left, numbers_left, place_of_number};

    /// The column that the field of this number is, in a message whose first byte is at `at` in the file.
    #[tactic(auto, unfolding(crate::specs::Cursors::column_left))]
    pub fn new(message: &'a [u8], at: u64, number: u64) -> Self
        requires { at + length message.now ≤ OFFSET_LIMIT }
        ensures left { column_left result ≡ joined number (found (items at message.now)) }
        ensures place { place_of_number result ≡ at }
    {
        Column {
            fields: Fields::new(message, at).found(),
            number,
            packed: &[],
            packed_place: at,
            place: at,
        }
    }

    /// The column that the field of this number is, in the fields that are still to come. A pass over a message that finds the
    /// first field of a column can so have the column begin there.
    #[tactic(auto, using(crate::proofs::Columns::entries_none), unfolding(crate::specs::Cursors::column_left, crate::specs::Columns::entries_past))]
    pub fn over(fields: Fields<'a>, number: u64) -> Self
        ensures left { column_left result ≡ joined number (found (fields_left fields.entry)) }
        ensures place { place_of_number result ≡ 0 }
    {
        let column = Column {
            fields: fields.found(),
            number,
            packed: &[],
            packed_place: 0,
            place: 0,
        };
        column.begun()
    }

    /// The column whose only occurrence is packed and has these bytes.
    #[tactic(auto, using(crate::proofs::Columns::placed_numbers), unfolding(crate::specs::Cursors::column_left, crate::specs::Occurrence::items_past))]
    pub fn packed(bytes: &'a [u8]) -> Self
        ensures { numbers_left result ≡ read_entries (entries bytes.now) }
    {
        Column {
            fields: Fields::new(&[], 0).found(),
            number: 0,
            packed: bytes,
            packed_place: 0,
            place: 0,
        }
    }

    /// The same column, of which no occurrence was begun: its first one is, if that is the next field and packed. Each copy of the
    /// column goes on from there.
    #[tactic(auto, unfolding(crate::specs::Cursors::column_left))]
    fn begun(self) -> Self
        requires { read_entries (entries self.packed.now) ≡ [] }
        ensures left { column_left result ≡ column_left self.entry }
        ensures place { place_of_number result ≡ place_of_number self.entry }
    {
        let mut fields = self.fields;
        let Some(field) = fields.next() else {
            return self;
        };
        if field.number != self.number {
            return self;
        }
        let Payload::Bytes(packed, _) = field.payload else {
            return self;
        };
        Column {
            fields,
            packed,
            packed_place: field.offset,
            ..self
        }
    }

    /// Where the occurrence of the last number given is in the file. Before the first it is where the message is, or 0 for
    /// a column over fields.
    pub fn place(&self) -> u64
        ensures { result ≡ place_of_number self.now }
    {
        self.place
    }

    /// There are so few numbers that they can be counted, since each takes a byte at least. This does nothing: it is a law, called where
    /// a proof needs it.
    #[tactic(auto, using(crate::proofs::ShortLemmas::numbers_fit))]
    pub(crate) fn numbers_are_few(&self)
        ensures { length (column_left self.now) < 2 ^ 64 }
    {
        let _bytes = self.packed.len() + self.fields.0.len();
    }

    /// Whether no byte is left: then no number is.
    #[tactic(auto, using(crate::proofs::Columns::entries_none), unfolding(crate::specs::Cursors::column_left))]
    pub(crate) fn is_done(&self) -> bool
        ensures { IsTrue result → column_left self.now ≡ [] }
    {
        self.packed.is_empty() && self.fields.0.is_done()
    }

    /// How many numbers are still to come, if a quick test shows that they are few and small: at most 2^26, each below 2^35. `None` says
    /// nothing. No number of a packed occurrence is decoded.
    #[inline(always)]
    pub fn count_if_small(&self) -> Option<usize>
        ensures counted { MatchOption result ⊤
            (λ count. (count ≡ length (column_left self.now)) × (count ≤ 2 ^ 26)) }
        ensures small { MatchOption result ⊤
            (λ _. AllByRecursion (λ x. x.0 < 2 ^ 35) (column_left self.now)) }
    {
        if self.packed.len() > MOST_BYTES || self.fields.0.len() > MOST_BYTES {
            return None;
        }
        let begun = count_short(self.packed)?;
        let left = count_left_if_small(self.fields.0, self.number)?;
        Some(begun + left)
    }

    /// The next number of the packed occurrence that was begun. If it has none nothing changes.
    #[tactic(auto, unfolding(crate::specs::Cursors::column_left))]
    fn advance_packed(&mut self) -> Option<u64>
        ensures { MatchOption result
            ((read_entries (entries self.old.packed.now) ≡ []) × (self.new ≡ self.old))
            (λ value. column_left self.old ≡ (value, place_of_number self.new) ∷ column_left self.new) }
    {
        let (value, rest) = first_number(self.packed)?;
        self.packed = rest;
        self.place = self.packed_place;
        Some(value)
    }

    /// The next number, if it takes at most five bytes of the packed occurrence that was begun, or three if it is narrow. The place is left
    /// as it is.
    #[tactic(auto, unfolding(crate::specs::Cursors::column_left))]
    pub(crate) fn next_near(&mut self, narrow: bool) -> Option<u64>
        ensures number { MatchOption result (self.new ≡ self.old)
            (λ value. (numbers_left self.old ≡ value ∷ numbers_left self.new)
            × IsNear narrow value) }
        ensures spelled { MatchOption result ⊤
            (λ value. Spells value self.old.packed.now self.new.packed.now) }
    {
        let (value, rest) = first_near(self.packed, narrow)?;
        self.packed = rest;
        Some(value)
    }

    /// The bytes of the packed occurrence that was begun, up to where a copy of the cursor is.
    pub(crate) fn bytes_until(&self, copy: &Column<'_>) -> &'a [u8]
        requires { length copy.now.packed.now ≤ length self.now.packed.now }
        ensures { result.now
            ≡ take (length self.now.packed.now - length copy.now.packed.now) self.now.packed.now }
    {
        &self.packed[..self.packed.len() - copy.packed.len()]
    }

    /// Like [`Column::pass_zero`]. The place is left as it is.
    #[tactic(auto, unfolding(crate::specs::Cursors::column_left))]
    pub(crate) fn pass_short_zero(&mut self) -> bool
        ensures passed { IsTrue result
            → (column_left self.old ≡ (0, self.new.packed_place) ∷ column_left self.new) }
        ensures kept { result ≡ false → self.new ≡ self.old }
        ensures spelled { IsTrue result → self.old.packed.now ≡ 0 ∷ self.new.packed.now }
    {
        let [first, rest @ ..] = self.packed else {
            return false;
        };
        if *first != 0 {
            return false;
        }
        self.packed = rest;
        true
    }

    /// Skips the next number, if it is a 0 of one byte in the packed occurrence that was begun, as most of many columns are. Otherwise
    /// nothing changes, and `false` says nothing of the number.
    #[tactic(auto, unfolding(crate::specs::Cursors::column_left))]
    pub fn pass_zero(&mut self) -> bool
        ensures passed { IsTrue result
            → column_left self.old ≡ (0, place_of_number self.new) ∷ column_left self.new }
        ensures kept { result ≡ false → self.new ≡ self.old }
    {
        if !self.pass_short_zero() {
            return false;
        }
        self.place = self.packed_place;
        true
    }

    /// Skips the next numbers, at most so many, as long as each is a 0 of one byte of the packed occurrence that was begun, and returns how
    /// many. It reads sixteen bytes; if there are fewer, it skips none. The place is left as it is.
    #[tactic(auto, using(std::proofs::lemmas::List::take_rest, crate::proofs::RisingRuns::zeros_front), unfolding(crate::specs::Cursors::column_left))]
    pub fn pass_zeros(&mut self, most: usize) -> usize
        ensures passed { numbers_left self.old ≡ replicate result 0 ++ numbers_left self.new }
        ensures spelled { self.old.packed.now ≡ replicate result 0 ++ self.new.packed.now }
        ensures few { result ≤ most }
    {
        let Some(front) = self.packed.first_chunk::<16>() else {
            return 0;
        };
        let zeros = zeros_of(front).min(most);
        self.packed = &self.packed[zeros..];
        zeros
    }

    /// Skips the next sixteen numbers, if each takes one byte of the packed occurrence that was begun and is even, and returns half their
    /// sum. Otherwise nothing changes. The place is left as it is.
    #[tactic(auto, unfolding(crate::specs::Cursors::column_left))]
    pub(crate) fn pass_rising(&mut self) -> Option<u16>
        ensures rising { MatchOption result ⊤
            (λ rise. AreRising (take 16 self.old.packed.now) rise) }
        ensures passed { MatchOption result (self.new ≡ self.old)
            (λ _. numbers_left self.old ≡ take 16 self.old.packed.now ++ numbers_left self.new) }
        ensures spelled { MatchOption result ⊤
            (λ _. self.new.packed.now ≡ drop 16 self.old.packed.now) }
    {
        let rise = rise_of(self.packed.first_chunk::<16>()?)?;
        self.packed = &self.packed[16..];
        Some(rise)
    }

    /// Skips the next numbers, at most so many, as long as each takes one byte of the packed occurrence that was begun, and returns those
    /// bytes, which are the numbers. The place is left as it is.
    pub fn pass_singles(&mut self, most: usize) -> &'a [u8]
        ensures few { length result.now ≤ most }
        ensures single { AllByRecursion (λ b. b < 128) result.now }
        ensures passed { numbers_left self.old ≡ result.now ++ numbers_left self.new }
    {
        let within = &self.packed[..most.min(self.packed.len())];
        let count = within.len() - after_singles(within).len();
        let singles = &self.packed[..count];
        self.packed = &self.packed[count..];
        singles
    }

    /// The next number, by what is left of the packed occurrence that was begun, and then by the fields after it.
    #[tactic(auto, unfolding(crate::specs::Cursors::column_left))]
    fn advance(&mut self) -> Option<u64>
        ensures { MatchOption result ((column_left self.old ≡ []) × (column_left self.new ≡ [])
            × (place_of_number self.new ≡ place_of_number self.old))
            (λ value. column_left self.old ≡ (value, place_of_number self.new) ∷ column_left self.new) }
    {
        loop {
            if let Some(value) = self.advance_packed() {
                return Some(value);
            }
            let field = self.fields.next()?;
            if field.number == self.number {
                match field.payload {
                    Payload::Number(value) => {
                        self.place = field.offset;
                        return Some(value);
                    }
                    Payload::Bytes(bytes, _) => {
                        self.packed = bytes;
                        self.packed_place = field.offset;
                    }
                    _ => {}
                }
            }
        }
    }
}

impl<'a> Iterator for Column<'a> {
    ghost use Rattle.std.specs.Iterator.{YieldsFirst, item_count, MakesProgress};
    ghost use Rattle.pbf_wire.specs.Cursors.{column_left, numbers_left, place_of_number};

    type Item = u64;

    ghost next_gives = { YieldsFirst numbers_left };

    ghost remaining = { item_count numbers_left };

    /// The next number. After a wire fault of the message, or of a packed occurrence, no more of it is read.
    #[inline(always)]
    #[tactic(auto, unfolding(crate::specs::Cursors::column_left))]
    fn next(&mut self) -> Option<u64>
        ensures steps { YieldsFirst numbers_left self.old result self.new }
        ensures goes { MakesProgress (λ _. ⊤) (item_count numbers_left) self.old result self.new }
        ensures placed { MatchOption result
            ((column_left self.old ≡ []) × (column_left self.new ≡ [])
            × (place_of_number self.new ≡ place_of_number self.old))
            (λ value. column_left self.old ≡ (value, place_of_number self.new) ∷ column_left self.new) }
    {
        // Most numbers are in the packed occurrence that was begun, and mostly nothing follows it.
        if let Some(value) = self.advance_packed() {
            return Some(value);
        }
        if self.fields.0.is_done() {
            return None;
        }
        self.advance()
    }
}
