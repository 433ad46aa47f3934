//! Strips of ids, each with the numbers of the sets that have an id in it: they name the sets that may have an id.

ghost use Rattle.std.specs.Prelude.{◌≡◌, ◌<◌, ◌≤◌, ◌*◌, ◌/◌, ◌^◌, ℤ, length, true, OnOk};
ghost use Rattle.osm_ids.specs.Strips.{AlsoLists, HasNumber, IsNamed, Marks, MarksNamed, NamesAll, StillNames, id_run, id_strip, listed_at, named_at};
ghost use Rattle.pbf_wire.specs.Spans.{is_in};

use crate::id_runs::IdRuns;
use crate::pages::SealedIds;
use crate::set::IdSet;
use crate::walk::Walk;
use pbf_wire::{EMPTY_SPAN, Span};
use std::alloc::{AllocError, Global};

/// There are at least 2^10 strips.
const LEAST_BITS: u32 = 10;

/// There are at most 2^20 strips.
const MOST_BITS: u32 = 20;

/// A run has at least 2^6 ids.
const LEAST_SHIFT: u32 = 6;

/// No run has more than 2^63 ids.
const MOST_SHIFT: u32 = 63;

/// How many bits a number takes; 0 takes none.
fn bits_of(number: u64) -> u32 {
    64 - number.leading_zeros()
}

/// How so many ids lie in strips: there are two to four strips for each id, as far as there may be so many.
fn runs_for(ids: u64) -> IdRuns
    ensures few { result.mask < 2 ^ 20 }
    ensures wide { 6 ≤ result.shift }
{
    let bits = bits_of(ids.saturating_mul(2)).clamp(LEAST_BITS, MOST_BITS);
    let needed = bits_of((ids >> bits).saturating_add(1));
    IdRuns {
        shift: needed.clamp(LEAST_SHIFT, MOST_SHIFT),
        mask: (1 << bits) - 1,
    }
}

/// The strip that an id is in.
#[inline(always)]
fn strip_for_id(runs: IdRuns, id: i64) -> usize
    ensures { result ≡ id_strip runs id }
{
    ((id.unsigned_abs() >> runs.shift) & runs.mask) as usize
}

/// How many ids a run has.
fn width_of(runs: IdRuns) -> u64
    ensures value { result ≡ 2 ^ runs.shift }
    ensures most { 2 * result ≤ 2 ^ 64 }
{
    1 << runs.shift
}

/// The least number of the run that a number is in.
fn start_of(runs: IdRuns, number: u64) -> u64
    ensures value { result ≡ number / 2 ^ runs.shift * 2 ^ runs.shift }
    ensures most { result ≤ number }
{
    number >> runs.shift << runs.shift
}

/// The ids of the run that an id is in; none if the id is below 0, or if the greatest one there is lies in the run.
fn whole_run(runs: IdRuns, id: i64) -> Span
    ensures { (other : ℤ) → is_in result other ≡ true → id_run runs other ≡ id_run runs id }
{
    if id < 0 {
        return EMPTY_SPAN;
    }
    let start = start_of(runs, id.unsigned_abs());
    let end = start + width_of(runs);
    if end > i64::MAX as u64 {
        return EMPTY_SPAN;
    }
    Span {
        above: start as i64 - 1,
        below: end as i64,
    }
}

/// Adds empty strips until there is one with this index.
fn grow(strips: &mut Vec<Vec<usize>>, index: usize, alloc: Global) -> Result<(), AllocError>
    ensures there { OnOk result (index < length strips.new.items) }
    ensures still { OnOk result (AlsoLists strips.old.items strips.new.items) }
{
    'strips: while strips.len() <= index {
        strips.push(Vec::new(alloc))?;
    }
    Ok(())
}

/// Whether this number is the last one.
fn is_listed_last(numbers: &[usize], number: usize) -> bool
    ensures { result ≡ true → HasNumber numbers.now number }
{
    match numbers.last() {
        Some(last) => *last == number,
        None => false,
    }
}

/// Adds a number to the strip with this index, if there is one.
fn list_at(strips: &mut Vec<Vec<usize>>, index: usize, number: usize) -> Result<(), AllocError>
    ensures listed { OnOk result (index < length strips.old.items
        → HasNumber (listed_at strips.new.items index) number) }
    ensures still { OnOk result (AlsoLists strips.old.items strips.new.items) }
{
    let Some(strip) = strips.get_mut(index) else {
        return Ok(());
    };
    // Ids of a set come in order, so that those of a strip mostly come together.
    if is_listed_last(strip, number) {
        return Ok(());
    }
    strip.push(number)?;
    Ok(())
}

/// Sets the mark with this number, if there is one.
fn set_mark(marks: &mut [bool], number: usize)
    ensures { Marks (λ other. other ≡ number) marks.old marks.new }
{
    if number < marks.len() {
        marks[number] = true;
    }
}

/// Sets the marks with these numbers. It is a call, since most ids lie in a strip without any.
#[inline(never)]
fn set_marks(numbers: &[usize], marks: &mut [bool])
    ensures { Marks (HasNumber numbers.now) marks.old marks.new }
{
    let mut rest = numbers;
    'numbers: while let Some((number, later)) = rest.split_first() {
        set_mark(marks, *number);
        rest = later;
    }
}

/// Which of several sets, by their numbers, have an id in each strip of ids. Strips past the last that has a number aren't kept.
#[derive(Drop)]
pub struct IdStrips {
    runs: IdRuns,
    strips: Vec<Vec<usize>>,
    alloc: Global,
}

impl IdStrips {
    /// The strips of no sets, for about so many ids of all sets together: others fit too, and only speed and space depend on the number.
    /// It allocates nothing.
    pub fn new(alloc: Global, ids: u64) -> IdStrips {
        IdStrips {
            runs: runs_for(ids),
            strips: Vec::new(alloc),
            alloc,
        }
    }

    /// Names the set of this number for an id.
    fn name(&mut self, number: usize, id: i64) -> Result<(), AllocError>
        ensures named { OnOk result (IsNamed self.new id number) }
        ensures still { OnOk result (StillNames self.old self.new) }
    {
        let index = strip_for_id(self.runs, id);
        grow(&mut self.strips, index, self.alloc)?;
        list_at(&mut self.strips, index, number)?;
        Ok(())
    }

    /// Names the set of this number for each of its ids.
    ///
    /// # Errors
    ///
    /// If memory is refused, the set may be named for some of them.
    pub fn add(&mut self, number: usize, ids: &IdSet) -> Result<(), AllocError>
        ensures named { OnOk result (NamesAll self.new number ids.now) }
        ensures still { OnOk result (StillNames self.old self.new) }
    {
        self.add_sealed(number, &ids.pages)?;
        for id in ids.late.iter() {
            self.name(number, *id)?;
        }
        Ok(())
    }

    /// The same of a sealed set.
    ///
    /// # Errors
    ///
    /// If memory is refused, the set may be named for some of them.
    pub fn add_sealed(&mut self, number: usize, ids: &SealedIds) -> Result<(), AllocError>
        ensures named { OnOk result (NamesAll self.new number ids.now) }
        ensures still { OnOk result (StillNames self.old self.new) }
    {
        let mut walk = Walk::new(ids);
        'ids: while let Some(id) = walk.next() {
            self.name(number, id)?;
        }
        Ok(())
    }

    /// Marks the sets that may have the id; `false` means that there are none. `true` says nothing, and others may be marked too. It does
    /// not allocate, and is inlined where each node is looked up.
    #[inline(always)]
    pub fn mark(&self, id: i64, marks: &mut [bool]) -> bool
        ensures { MarksNamed (IsNamed self.now id) marks.old marks.new result }
    {
        let Some(strip) = self.strips.get(strip_for_id(self.runs, id)) else {
            return false;
        };
        if strip.is_empty() {
            return false;
        }
        set_marks(strip, marks);
        true
    }

    /// Ids round this one for which the same sets are named; none if it is below 0, or near the greatest id that there is.
    pub fn alike(&self, id: i64) -> Span
        ensures { (other : ℤ) → is_in result other ≡ true
            → named_at self.now other ≡ named_at self.now id }
    {
        whole_run(self.runs, id)
    }
}
