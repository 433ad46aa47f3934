//! A column of plain numbers that is being written.

ghost use Rattle.std.specs.Prelude.{◌≡◌, ◌<◌, ◌≤◌, ◌∷◌, ◌++◌, [], length, take, drop, IfOk, OnOk, OnErr};
ghost use Rattle.std.specs.List.{AllByRecursion};
ghost use Rattle.pbf_wire.specs.Columns.{packed};
ghost use Rattle.pbf_wire.specs.Cursors.{numbers_left};

use crate::column::Column;
use crate::varint::put_varint;
use std::alloc::{AllocError, Global};
use std::marker::Model;

/// A packed column that encodes each number as it is pushed, and holds only the bytes. Contracts see it as the list of its numbers.
#[derive(Drop)]
pub struct ColumnOut {
    bytes: Vec<u8>,
}

impl Model for ColumnOut {
    ghost use Rattle.std.specs.Prelude.{ℕ, List};
    ghost use Rattle.pbf_wire.specs.Packed.{numbers_of, IsPacked};

    ghost Value = { List ℕ };

    ghost view = { λ c. numbers_of c.bytes.items };

    ghost invariant = { λ c. IsPacked c.bytes.items (numbers_of c.bytes.items) };
}

impl ColumnOut {
    /// A column without numbers, which allocates nothing yet.
    #[tactic(auto, unfolding(crate::specs::Columns::entries_past))]
    pub fn new(alloc: Global) -> Self
        ensures { result ≡ [] }
    {
        ColumnOut {
            bytes: Vec::new(alloc),
        }
    }

    /// Removes all numbers and keeps the room.
    #[tactic(auto, unfolding(crate::specs::Columns::entries_past))]
    pub fn clear(&mut self)
        ensures { self.new ≡ [] }
    {
        self.bytes.clear();
    }

    /// Adds a number at the end. An `Err` leaves the column as it was.
    #[tactic(auto, using(crate::proofs::PackedLemmas::pushed_packed, crate::proofs::PackedLemmas::pushed_numbers))]
    pub fn push(&mut self, number: u64) -> Result<(), AllocError>
        ensures ok { OnOk result (self.new ≡ self.old ++ number ∷ []) }
        ensures err { OnErr result (self.new ≡ self.old) }
    {
        put_varint(&mut self.bytes, number)?;
        Ok(())
    }

    /// Adds the next numbers of another column, at most so many, as long as each takes one byte of the packed occurrence that was begun. They
    /// are taken from it, and it is said how many they are. After an `Err` both are unspecified.
    #[tactic(auto, using(crate::proofs::SingleLemmas::taken_packed, std::proofs::lemmas::List::take_at, crate::proofs::SingleLemmas::taken_numbers))]
    pub fn take_short(&mut self, numbers: &mut Column<'_>, most: usize) -> Result<usize, AllocError>
        ensures few { IfOk result (λ count. count ≤ most) }
        ensures taken { IfOk result
            (λ count. self.new ≡ self.old ++ take count (numbers_left numbers.old)) }
        ensures rest { IfOk result
            (λ count. numbers_left numbers.new ≡ drop count (numbers_left numbers.old)) }
        ensures short { IfOk result (λ count. AllByRecursion (λ n. n < 128)
            (take count (numbers_left numbers.old))) }
    {
        let singles = numbers.pass_singles(most);
        self.bytes.extend_from_slice(singles)?;
        Ok(singles.len())
    }

    /// The packed column, each number in its shortest spelling.
    pub fn bytes(&self) -> &[u8]
        ensures { result.now ≡ packed self.now }
    {
        &self.bytes
    }

    /// The length of those bytes.
    pub fn held(&self) -> u64
        ensures { result ≡ length (packed self.now) }
    {
        self.bytes.len() as u64
    }
}
