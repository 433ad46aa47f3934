//! A PrimitiveBlock that is judged and read.

ghost use Rattle.std.specs.Prelude.{◌≡◌, ◌+◌, ◌*◌, ◌≤◌, ◌<◌, [], None, Some, Err, IfOk, IsTrue, OnOk, length};
ghost use Rattle.std.specs.List.{AllByRecursion, filter};
ghost use Rattle.std.specs.Option.{option_or};
ghost use Rattle.pbf_wire.specs.declared.fault.Fault.{Fault};
ghost use Rattle.pbf_wire.specs.declared.fault.ReadFault.TheVariants.{Refused};
ghost use Rattle.pbf_wire.specs.Faults.{fields_in, found_in};
ghost use Rattle.pbf_wire.specs.Least.{least};
ghost use Rattle.osm_entity.specs.Ranges.{EntityFits};
ghost use Rattle.pbf_block.specs.PrimitiveBlock.{wire_faults, structure_faults, value_faults, payload_weights, block_fault, entities};
ghost use Rattle.pbf_block.specs.Clean.{IsCleanBlock};
ghost use Rattle.pbf_block.specs.Kinds.{is_among};
ghost use Rattle.pbf_block.specs.Numbers.{counts_of};
ghost use Rattle.pbf_block.specs.Runs.{entities_left, joined_runs, runs_left};
ghost use Rattle.pbf_block.specs.Scale.{scale_of, stored_texts};
ghost use Rattle.pbf_strings.specs.declared.table.TheConstants.{MOST_TEXTS};
ghost use Rattle.pbf_wire.specs.declared.limits.TheConstants.{OFFSET_LIMIT, RAW_LIMIT, SUM_LIMIT};

use crate::counts::Counts;
use crate::entities::Entities;
use crate::kinds::Kinds;
use crate::primitive_block::{
    self, STRINGTABLE, judge_block_structure, judge_block_values, judge_block_wire, judge_weights,
};
use crate::runs::Runs;
use crate::scale::scale_in;
use crate::unjudged::UnjudgedBlock;
use osm_entity::Scale;
use pbf_strings::{MOST_TEXTS, Table, text_count};
use pbf_wire::{Fault, Message, ReadFault, last_field, occurrence_text};
use std::alloc::{AllocError, Global};
use std::marker::Model;

/// Whether the phases before the weights find no fault in a payload. It allocates nothing: the texts are only counted. `false` says
/// nothing.
fn has_no_early_fault(payload: Message<'_>) -> bool
    ensures { IsTrue result → IsCleanBlock (length (stored_texts (found_in payload.entry)))
        payload.entry.at payload.entry.bytes.now }
{
    let texts = text_count(occurrence_text(last_field(payload, STRINGTABLE)));
    texts <= MOST_TEXTS && primitive_block::is_clean_block(payload, texts as u64)
}

/// The first fault of the phases that need no table: of the wire form, otherwise of structure. A payload that is known to be clean has
/// none, and isn't read.
fn early_fault(payload: Message<'_>, clean: bool) -> Option<Fault>
    requires clean { IsTrue clean → IsCleanBlock (length (stored_texts (found_in payload)))
        payload.at payload.bytes.now }
    ensures { result
        ≡ option_or (least (wire_faults payload.entry.at payload.entry.bytes.now))
        (least (structure_faults payload.entry.at payload.entry.bytes.now)) }
{
    if clean {
        return None;
    }
    if let Some(fault) = judge_block_wire(payload) {
        return Some(fault);
    }
    judge_block_structure(payload)
}

/// The texts of a payload that has no fault of structure: its table is judged already.
fn read_table<'a>(alloc: Global, payload: Message<'a>) -> Result<Table<'a>, AllocError>
    requires short { length payload.bytes.now < RAW_LIMIT }
    requires structure { structure_faults payload.at payload.bytes.now ≡ [] }
    ensures { IfOk result (λ table. table ≡ stored_texts (found_in payload.entry)) }
{
    Table::open(alloc, occurrence_text(last_field(payload, STRINGTABLE)))
}

/// The least fault of values. A payload that is known to be clean has none, and isn't read.
fn value_fault(payload: Message<'_>, clean: bool, limit: u64) -> Option<Fault>
    requires few { limit ≤ SUM_LIMIT }
    requires clean { IsTrue clean → IsCleanBlock limit payload.at payload.bytes.now }
    ensures { result ≡ least (value_faults limit payload.entry.at payload.entry.bytes.now) }
{
    if clean {
        return None;
    }
    judge_block_values(payload, limit)
}

/// The first fault of the phases that read texts: of values, otherwise of weights.
fn late_fault<'a>(
    payload: Message<'a>,
    clean: bool,
    table: &'a Table<'a>,
    scale: Scale,
) -> Option<Fault>
    requires clean { IsTrue clean → IsCleanBlock (length (stored_texts (found_in payload)))
        payload.at payload.bytes.now }
    requires texts { table.now ≡ stored_texts (found_in payload) }
    requires scale { scale ≡ scale_of (found_in payload) }
    requires wire { wire_faults payload.at payload.bytes.now ≡ [] }
    requires structure { structure_faults payload.at payload.bytes.now ≡ [] }
    ensures { result ≡ option_or
        (least (value_faults (length (stored_texts (found_in payload.entry)))
        payload.entry.at payload.entry.bytes.now))
        (least (payload_weights payload.entry.at payload.entry.bytes.now)) }
{
    if let Some(fault) = value_fault(payload, clean, table.len() as u64) {
        return Some(fault);
    }
    judge_weights(payload, table, scale)
}

/// A PrimitiveBlock without a fault. It borrows the payload, and holds the place of each text of its string table. Contracts see it as
/// what was opened, of which is known that it has no fault.
#[derive(Drop)]
pub struct Block<'a> {
    opened: UnjudgedBlock<'a>,
}

impl<'a> Model for Block<'a> {
    ghost use Rattle.std.specs.Prelude.{◌≡◌, None};
    ghost use Rattle.pbf_block.specs.PrimitiveBlock.{block_fault};
    ghost use Rattle.pbf_block.specs.declared.unjudged.UnjudgedBlock.{UnjudgedBlock};

    ghost Value = { UnjudgedBlock };

    ghost view = { λ b. b.opened };

    ghost invariant = { λ b. block_fault b.opened.at b.opened.payload.now ≡ None };
}

impl<'a> Block<'a> {
    /// Judges and reads a PrimitiveBlock whose first byte is at `at` in the file.
    ///
    /// Refuses its first fault: the least of the first phase that has one. The phases are the wire form, the structure, the
    /// values and the weights, each over the whole payload and all messages in it. Whether the first three have any fault is found in one
    /// walk; they are gone through one by one only if there may be one. Memory is requested only for the places of the
    /// table's texts, once the first two phases are passed; if it is refused, `Memory` is returned, and no later fault.
    pub fn read(alloc: Global, payload: &'a [u8], at: u64) -> Result<Block<'a>, ReadFault>
        requires placed { at + length payload.now ≤ OFFSET_LIMIT }
        requires short { length payload.now < RAW_LIMIT }
        ensures payload { IfOk result
            (λ block. (block.payload.now ≡ payload.now) × (block.at ≡ at)) }
        ensures sound { OnOk result (block_fault at payload.now ≡ None) }
        ensures refused { (fault : Fault) → result ≡ Err (Refused fault)
            → block_fault at payload.now ≡ Some fault }
    {
        let message = Message { bytes: payload, at };
        let clean = has_no_early_fault(message);
        if let Some(fault) = early_fault(message, clean) {
            return Err(ReadFault::Refused(fault));
        }
        let table = read_table(alloc, message)?;
        let scale = scale_in(message);
        if let Some(fault) = late_fault(message, clean, &table, scale) {
            return Err(ReadFault::Refused(fault));
        }
        Ok(Block {
            opened: UnjudgedBlock::new(payload, at, table, scale),
        })
    }

    /// The entities in order. Each can be written again. Does not allocate.
    pub fn entities(&self) -> Entities<'_>
        ensures exact { entities_left result ≡ entities self.now.at self.now.payload.now }
        ensures fits { AllByRecursion EntityFits (entities_left result) }
    {
        Entities::of(self.runs_among(Kinds::all()))
    }

    /// The entities of these kinds, in order, those of a dense message together. Messages of other kinds aren't read. Doesn't
    /// allocate.
    pub fn runs_among(&self, kinds: Kinds) -> Runs<'_>
        ensures exact { joined_runs (runs_left result)
            ≡ filter (is_among kinds) (entities self.now.at self.now.payload.now) }
        ensures fits { AllByRecursion EntityFits (joined_runs (runs_left result)) }
    {
        self.opened.runs_among(kinds)
    }

    /// How many entities there are. None is made, and of dense nodes the ids are counted by the bytes that end them. Does not
    /// allocate.
    pub fn counts(&self) -> Counts
        ensures { result ≡ counts_of (entities self.now.at self.now.payload.now) }
    {
        self.opened.counts()
    }

    /// How many bytes the block holds beside the payload: four for each text of its table, at most 4,194,304.
    pub fn held(&self) -> u64
        ensures value { result
            ≡ 4 * length (stored_texts (fields_in self.now.at self.now.payload.now)) }
        ensures bound { result ≤ 4 * MOST_TEXTS }
    {
        self.opened.held()
    }
}
