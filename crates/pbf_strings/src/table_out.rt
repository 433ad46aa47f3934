//! A table that is written: its texts in order of first use. One that is in its slot, as most are, is found without a call.

ghost use Rattle.std.specs.Prelude.{◌≡◌, ◌<◌, ◌≤◌, ◌+◌, ◌-◌, ℕ, List, ◌^◌, ◌↔◌, min, ◌++◌, [], length, map, take, true, IsTrue, IfOk, IfSome, OnOk, OnErr};
ghost use Rattle.std.specs.List.{sum_by};
ghost use Rattle.std.specs.Option.{option_map, option_to_list};
ghost use Rattle.pbf_wire.specs.Message.{Each, slot_bytes};
ghost use Rattle.pbf_strings.specs.TableOut.{GivesIndex, has_text, texts_after, index_in, text_held, table_message};
ghost use Rattle.pbf_strings.specs.declared.table.TheConstants.{MOST_USED_TEXTS};

use crate::table::TEXT;
use indexmap::IndexSet;
use pbf_wire::put_bytes;
use std::alloc::{AllocError, Global};
use std::hash::BuildHasher;
use std::marker::Model;

/// How many texts are remembered without their hash.
const SLOTS: usize = 4096;

/// An odd number near 2^32 over the golden ratio: the upper bits of a product by it depend on each bit of the other number.
const SPREAD: u32 = 0x9e37_79b1;

/// The slot of a text of less than four bytes.
fn short_slot(text: &[u8]) -> usize
    ensures { result < SLOTS }
{
    let mut sum: u32 = 0;
    for byte in text {
        sum = sum.wrapping_mul(31).wrapping_add(u32::from(*byte));
    }
    sum as usize % SLOTS
}

/// The slot of a text: by its length and its first and last four bytes, as it has to cost less than a hash.
fn slot_of(text: &[u8]) -> usize
    ensures { result < SLOTS }
{
    let (Some(first), Some(last)) = (text.first_chunk::<4>(), text.last_chunk::<4>()) else {
        return short_slot(text);
    };
    let ends = u32::from_le_bytes(*last)
        .wrapping_mul(31)
        .wrapping_add(u32::from_le_bytes(*first));
    let length = (text.len() % SLOTS) as u32;
    let mixed = ends.wrapping_add(length).wrapping_mul(SPREAD);
    (mixed >> 20) as usize % SLOTS
}

/// Whether two texts begin with the same eight bytes.
fn same_eight(one: &[u8], other: &[u8]) -> bool
    requires { (8 ≤ length one.now) × (8 ≤ length other.now) }
    ensures { IsTrue result ↔ (take 8 one.now ≡ take 8 other.now) }
{
    let (Some(one), Some(other)) = (one.first_chunk::<8>(), other.first_chunk::<8>()) else {
        return false;
    };
    u64::from_le_bytes(*one) == u64::from_le_bytes(*other)
}

/// Whether two texts begin with the same four bytes.
fn same_four(one: &[u8], other: &[u8]) -> bool
    requires { (4 ≤ length one.now) × (4 ≤ length other.now) }
    ensures { IsTrue result ↔ (take 4 one.now ≡ take 4 other.now) }
{
    let (Some(one), Some(other)) = (one.first_chunk::<4>(), other.first_chunk::<4>()) else {
        return false;
    };
    u32::from_le_bytes(*one) == u32::from_le_bytes(*other)
}

/// Whether two texts of any length are the same.
fn is_same_any(one: &[u8], other: &[u8]) -> bool
    ensures { IsTrue result ↔ (one.now ≡ other.now) }
{
    one == other
}

/// Whether two texts are the same. Of 4 to 16 bytes, which most have, the first and the last four or eight are compared: they meet.
fn is_same_text(one: &[u8], other: &[u8]) -> bool
    ensures { IsTrue result ↔ (one.now ≡ other.now) }
{
    let length = one.len();
    if length != other.len() {
        return false;
    }
    if length >= 8 && length <= 16 {
        let last = length - 8;
        return same_eight(one, other) && same_eight(&one[last..], &other[last..]);
    }
    if length >= 4 && length < 8 {
        let last = length - 4;
        return same_four(one, other) && same_four(&one[last..], &other[last..]);
    }
    is_same_any(one, other)
}

/// The texts of a block that is being written, in order of first use. The caller passes the hasher, since the input is untrusted.
/// Contracts see it as the list of the texts. The empty text that every table begins with isn't among them.
#[derive(Drop)]
pub struct TableOut<S: BuildHasher> {
    texts: IndexSet<Vec<u8>, S>,
    /// The indexes of texts that were looked up recently, each in its slot, and 0 in a slot that no text was looked up in; a text
    /// that isn't there is looked up by its hash. There are no slots before the first text. They are not an array, since that would
    /// be copied over the stack wherever the table is moved.
    recent: Vec<u32>,
    alloc: Global,
}

impl<S: BuildHasher> Model for TableOut<S> {
    ghost use Rattle.std.specs.Prelude.{ℕ, List, map};

    ghost Value = { List (List ℕ) };

    ghost view = { λ t. map (λ text. text.items) t.texts.keys };
}

impl<S: BuildHasher> TableOut<S> {
    /// A table without texts, which allocates nothing yet.
    pub fn new(alloc: Global, hasher: S) -> TableOut<S>
        ensures { result ≡ [] }
    {
        TableOut {
            texts: IndexSet::with_hasher(alloc, hasher),
            recent: Vec::new(alloc),
            alloc,
        }
    }

    /// How many texts there are.
    pub fn len(&self) -> usize
        ensures { result ≡ length self.now }
    {
        self.texts.len()
    }

    /// Whether there is no text.
    pub fn is_empty(&self) -> bool
        ensures { IsTrue result ↔ (self.now ≡ []) }
    {
        self.texts.is_empty()
    }

    /// Removes all texts, and keeps the hasher and the room.
    pub fn clear(&mut self)
        ensures { self.new ≡ [] }
    {
        self.texts.truncate(0);
        self.recent.clear();
    }

    /// The index in a slot, and 0 if no text was looked up in it.
    fn in_slot(&self, slot: usize) -> u32 {
        match self.recent.get(slot) {
            Some(index) => *index,
            None => 0,
        }
    }

    /// Keeps an index in its slot.
    fn keep(&mut self, slot: usize, index: u32)
        ensures { self.new ≡ self.old }
    {
        if let Some(place) = self.recent.get_mut(slot) {
            *place = index;
        }
    }

    /// The index of a text by its slot, `None` if another text is there.
    fn recent_index(&self, slot: usize, text: &[u8]) -> Option<u32>
        requires room { length self.now < MOST_USED_TEXTS }
        ensures { IfSome result
            (λ index. (has_text self.now text.now ≡ true) × (index ≡ index_in self.now text.now)) }
    {
        let index = self.in_slot(slot);
        let place = index.checked_sub(1)?;
        let known = self.texts.as_slice().get(place as usize)?;
        if is_same_text(known.as_slice(), text) {
            Some(index)
        } else {
            None
        }
    }

    /// Like [`TableOut::index_of`], of a text that is most likely new: a copy is made first, so that it is hashed once.
    fn index_of_new(&mut self, text: &[u8]) -> Result<u32, AllocError>
        requires { length self.old < MOST_USED_TEXTS }
        ensures { GivesIndex text.now self.old self.new result }
    {
        let Ok(copy) = copy_with_slots(&mut self.recent, self.alloc, text) else {
            return match self.texts.get_index_of(text) {
                Some(place) => Ok(place as u32 + 1),
                None => Err(AllocError),
            };
        };
        let (place, _) = self.texts.insert_full(copy)?;
        Ok(1 + place as u32)
    }

    /// Like [`TableOut::index_of`], by the hash of the text.
    fn index_by_hash(&mut self, text: &[u8]) -> Result<u32, AllocError>
        requires { length self.old < MOST_USED_TEXTS }
        ensures { GivesIndex text.now self.old self.new result }
    {
        let index = match self.texts.get_index_of(text) {
            Some(index) => index,
            None => {
                let text = Vec::from_slice(self.alloc, text)?;
                self.texts.insert_full(text)?.0
            }
        };
        Ok(index as u32 + 1)
    }

    /// Like [`TableOut::index_of`], of a text that isn't in its slot. A slot that no text was looked up in shows that the text is new.
    fn index_elsewhere(&mut self, slot: usize, text: &[u8]) -> Result<u32, AllocError>
        requires { length self.old < MOST_USED_TEXTS }
        ensures { GivesIndex text.now self.old self.new result }
    {
        if self.in_slot(slot) == 0 {
            return self.index_of_new(text);
        }
        self.index_by_hash(text)
    }

    /// The index of a text in the written table, from 1 in order of first use; a new text is added after the others. For a text that
    /// is there it does not allocate. An `Err` leaves the texts as they were.
    #[inline(always)]
    pub fn index_of(&mut self, text: &[u8]) -> Result<u32, AllocError>
        requires { length self.old < MOST_USED_TEXTS }
        ensures { GivesIndex text.now self.old self.new result }
    {
        let slot = slot_of(text);
        if let Some(index) = self.recent_index(slot, text) {
            return Ok(index);
        }
        let index = self.index_elsewhere(slot, text)?;
        self.keep(slot, index);
        Ok(index)
    }

    /// The index of a text, if there is one, as [`TableOut::index_of`] gives it. It stays, whatever texts are used later.
    #[inline(always)]
    pub fn index_if_some(&mut self, text: Option<&[u8]>) -> Result<Option<u32>, AllocError>
        requires { length self.old + length (option_to_list (option_map (λ text. text.now) text))
            ≤ MOST_USED_TEXTS }
        ensures texts { OnOk result (self.new
            ≡ texts_after self.old (option_to_list (option_map (λ text. text.now) text.entry))) }
        ensures index { (used : List (List ℕ))
            → IfOk result (λ index. index ≡ option_map (index_in (texts_after self.new used))
            (option_map (λ text. text.now) text.entry)) }
        ensures err { OnErr result (self.new ≡ self.old) }
    {
        match text {
            Some(text) => Ok(Some(self.index_of(text)?)),
            None => Ok(None),
        }
    }

    /// How many bytes the table holds: the lengths of the texts and four for each, or the greatest number if they are
    /// more.
    pub fn held(&self) -> u64
        ensures { result ≡ min (2 ^ 64 - 1) (sum_by text_held self.now) }
    {
        texts_held(self.texts.as_slice())
    }

    /// Appends the StringTable: the empty text, and then the texts. After an `Err` the output is unspecified.
    pub fn write(&self, out: &mut Vec<u8>) -> Result<(), AllocError>
        ensures { OnOk result (out.new.items ≡ out.old.items ++ table_message self.now) }
    {
        put_bytes(out, TEXT, &[])?;
        put_texts(out, self.texts.as_slice())?;
        Ok(())
    }
}

/// A copy of a text that is new. The first one makes the slots.
fn copy_with_slots(slots: &mut Vec<u32>, alloc: Global, text: &[u8]) -> Result<Vec<u8>, AllocError>
    ensures items { IfOk result (λ copy. copy.items ≡ text.now) }
{
    if slots.is_empty() {
        slots.resize(SLOTS, 0)?;
    }
    Vec::from_slice(alloc, text)
}

/// Appends each text as a field of a StringTable.
fn put_texts(out: &mut Vec<u8>, texts: &[Vec<u8>]) -> Result<(), AllocError>
    ensures { OnOk result (out.new.items
        ≡ out.old.items ++ slot_bytes (Each 1 (map (λ text. text.items) texts.now))) }
{
    for text in texts {
        put_bytes(out, TEXT, text)?;
    }
    Ok(())
}

/// The lengths of the texts and four for each.
fn texts_held(texts: &[Vec<u8>]) -> u64
    ensures { result ≡ min (2 ^ 64 - 1) (sum_by text_held (map (λ text. text.items) texts.now)) }
{
    let mut held = 0u64;
    for text in texts {
        held = held.saturating_add(text.len() as u64 + 4);
    }
    held
}
