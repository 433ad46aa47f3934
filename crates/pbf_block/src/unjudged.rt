//! A PrimitiveBlock that is read again, without being judged.

ghost use Rattle.std.specs.Prelude.{◌≡◌, ◌+◌, ◌*◌, ◌≤◌, ◌<◌, None, Ok, IfOk, IfSome, length, filter};
ghost use Rattle.std.specs.List.{AllByRecursion};
ghost use Rattle.pbf_wire.specs.Faults.{fields_in};
ghost use Rattle.osm_entity.specs.Ranges.{EntityFits};
ghost use Rattle.pbf_block.specs.PrimitiveBlock.{block_fault, entities};
ghost use Rattle.pbf_block.specs.Kinds.{is_among};
ghost use Rattle.pbf_block.specs.Numbers.{counts_of};
ghost use Rattle.pbf_block.specs.Runs.{joined_runs, runs_left};
ghost use Rattle.pbf_block.specs.Scale.{scale_of, stored_texts};
ghost use Rattle.pbf_strings.specs.declared.table.TheConstants.{MOST_TEXTS};
ghost use Rattle.pbf_wire.specs.declared.limits.TheConstants.{OFFSET_LIMIT, RAW_LIMIT};

use crate::counts::{Counts, count_entities};
use crate::kinds::Kinds;
use crate::primitive_block::STRINGTABLE;
use crate::runs::Runs;
use crate::scale::scale_in;
use osm_entity::Scale;
use pbf_strings::Table;
use pbf_wire::{Message, last_field, occurrence_text};
use std::alloc::{AllocError, Global};

/// A PrimitiveBlock that is opened and not judged, for a pass over bytes that another pass has judged. It borrows the payload, and
/// holds the place of each text of its string table.
#[derive(Drop)]
pub struct UnjudgedBlock<'a> {
    payload: &'a [u8],
    at: u64,
    table: Table<'a>,
    scale: Scale,
    ghost room: { at + length payload.now ≤ OFFSET_LIMIT },
    ghost texts: { table ≡ stored_texts (fields_in at payload.now) },
    ghost scaled: { scale ≡ scale_of (fields_in at payload.now) },
}

impl<'a> UnjudgedBlock<'a> {
    /// What is opened already.
    pub(crate) fn new(
        payload: &'a [u8],
        at: u64,
        table: Table<'a>,
        scale: Scale,
    ) -> UnjudgedBlock<'a>
        requires room { at + length payload.now ≤ OFFSET_LIMIT }
        requires texts { table ≡ stored_texts (fields_in at payload.now) }
        requires scaled { scale ≡ scale_of (fields_in at payload.now) }
        ensures payload { result.payload.now ≡ payload.now }
        ensures at { result.at ≡ at }
    {
        UnjudgedBlock {
            payload,
            at,
            table,
            scale,
        }
    }

    /// Opens a PrimitiveBlock whose first byte is at `at` in the file. Nothing is judged but what memory depends on: `None` if
    /// the string table has more texts than it may have, which is a fault.
    ///
    /// Memory is requested only for the places of the table's texts.
    pub fn open(
        alloc: Global,
        payload: &'a [u8],
        at: u64,
    ) -> Result<Option<UnjudgedBlock<'a>>, AllocError>
        requires placed { at + length payload.now ≤ OFFSET_LIMIT }
        requires short { length payload.now < RAW_LIMIT }
        ensures payload { IfOk result (λ opened. IfSome opened
            (λ block. (block.payload.now ≡ payload.now) × (block.at ≡ at))) }
        ensures faulty { result ≡ Ok None → block_fault at payload.now ≡ None → ⊥ }
    {
        let message = Message { bytes: payload, at };
        let texts = occurrence_text(last_field(message, STRINGTABLE));
        if Table::judge_count(texts, at).is_err() {
            return Ok(None);
        }
        let table = Table::open(alloc, texts)?;
        let scale = scale_in(message);
        Ok(Some(UnjudgedBlock::new(payload, at, table, scale)))
    }

    /// The entities of these kinds, in order, those of a dense message together, if the block has no fault; otherwise some entities,
    /// which may not be writable. Messages of other kinds aren't read. Does not allocate.
    #[tactic(auto, using(crate::proofs::ByIndexLemmas::among_same, crate::proofs::ByIndexLemmas::among_fit))]
    pub fn runs_among(&self, kinds: Kinds) -> Runs<'_>
        ensures exact { block_fault self.now.at self.now.payload.now ≡ None
            → joined_runs (runs_left result)
            ≡ filter (is_among kinds) (entities self.now.at self.now.payload.now) }
        ensures fits { block_fault self.now.at self.now.payload.now ≡ None
            → AllByRecursion EntityFits (joined_runs (runs_left result)) }
    {
        let message = Message {
            bytes: self.payload,
            at: self.at,
        };
        Runs::over(message, &self.table, self.scale, kinds)
    }

    /// How many entities there are, if the block has no fault.
    pub(crate) fn counts(&self) -> Counts
        ensures { block_fault self.now.at self.now.payload.now ≡ None → result
            ≡ counts_of (entities self.now.at self.now.payload.now) }
    {
        count_entities(Message {
            bytes: self.payload,
            at: self.at,
        })
    }

    /// How many bytes the table holds: four for each of its texts.
    pub(crate) fn held(&self) -> u64
        ensures value { result
            ≡ 4 * length (stored_texts (fields_in self.now.at self.now.payload.now)) }
        ensures bound { result ≤ 4 * MOST_TEXTS }
    {
        self.table.held()
    }
}
