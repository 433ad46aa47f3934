//! A Way: its fields, its rules phase by phase, and how it is read. Its rule of wire form is [`WAY_KINDS`].
//!
//! To read the id and the refs is inlined into the loop over runs: nothing else is read of most ways.

ghost use Rattle.std.specs.Prelude.{◌≡◌, IfSome, IsTrue};
ghost use Rattle.pbf_wire.specs.Faults.{found_in, nested_faults};
ghost use Rattle.pbf_block.specs.declared.info.TheConstants.{INFO_KINDS};
ghost use Rattle.pbf_block.specs.declared.entity.TheConstants.{INFO};
ghost use Rattle.pbf_block.specs.declared.way.TheConstants.{WAY_KINDS};
ghost use Rattle.pbf_wire.specs.Least.{least};
ghost use Rattle.osm_entity.specs.Sources.{refs_left};
ghost use Rattle.osm_entity.specs.Views.{way_of};
ghost use Rattle.pbf_block.specs.PrimitiveBlock.{streaming};
ghost use Rattle.pbf_block.specs.Runs.{way_from};
ghost use Rattle.pbf_block.specs.Clean.{IsCleanWay};
ghost use Rattle.pbf_block.specs.Way.{are_located, way_structure, way_values, way_in};

use crate::entity::{self, ID, INFO, KEYS, VALS, entity_meta, last_wide, tags_in, values};
use crate::info::INFO_KINDS;
use crate::plain::{self, plain_way};
use crate::ranges::judge_wide;
use crate::unmade::Unmade;
use osm_entity::{Locations, Refs, Scale, SummedLocations, WayRef};
use pbf_dense::dense_info::judge_stored_sums;
use pbf_strings::Table;
use pbf_wire::{
    Fault, Kind, Message, Reason, column_count, fault_where, judge_nested, last_value_left, lesser,
    low_i64,
};

// The fields of a Way beside those that all entities have: its refs, and their locations.
pub(crate) const REFS: u64 = 8;

pub(crate) const WAY_LAT: u64 = 9;

pub(crate) const WAY_LON: u64 = 10;

/// How the fields of a Way are stored.
pub(crate) const WAY_KINDS: [(u64, Kind); 7] = [
    (ID, Kind::Number),
    (KEYS, Kind::Column),
    (VALS, Kind::Column),
    (INFO, Kind::Bytes),
    (REFS, Kind::Column),
    (WAY_LAT, Kind::Column),
    (WAY_LON, Kind::Column),
];

/// Whether a way has no locations, or as many as refs: these are counted only if there are locations.
fn are_located(message: Message<'_>) -> bool
    ensures { result ≡ are_located (found_in message.entry) }
{
    let lats = column_count(message, WAY_LAT);
    let lons = column_count(message, WAY_LON);
    lats == lons && (lats == 0 || lats == column_count(message, REFS))
}

/// The least wire fault of a way and of its Infos.
pub(crate) fn judge_way_wire(message: Message<'_>) -> Option<Fault>
    ensures { result ≡ least (nested_faults WAY_KINDS INFO INFO_KINDS 0
        message.entry.at message.entry.bytes.now) }
{
    judge_nested(message, &WAY_KINDS, INFO, &INFO_KINDS)
}

/// The least fault of structure: what all entities have, and locations.
#[tactic(auto, using(crate::proofs::Parts::lesser_parts))]
pub(crate) fn judge_way_structure(message: Message<'_>, place: u64) -> Option<Fault>
    ensures { result ≡ least (way_structure place message.entry.at message.entry.bytes.now) }
{
    let alike = entity::judge_common_structure(message, place);
    let is_located = are_located(message);
    lesser(
        alike,
        fault_where(!is_located, place, Reason::LocationColumns),
    )
}

/// The least fault of values, if the table has `limit` texts.
#[tactic(auto, using(crate::proofs::Parts::lesser_parts))]
pub(crate) fn judge_way_values(message: Message<'_>, limit: u64) -> Option<Fault>
    ensures { result ≡ least (way_values limit 0 message.entry.at message.entry.bytes.now) }
{
    let id = judge_wide(last_value_left(message.fields(), ID));
    let alike = lesser(id, entity::judge_common_values(message, limit));
    let refs = lesser(alike, judge_stored_sums(message, REFS));
    let lats = lesser(refs, judge_stored_sums(message, WAY_LAT));
    lesser(lats, judge_stored_sums(message, WAY_LON))
}

/// Whether no phase before the weights finds a fault, if the table has `limit` texts. Most ways are plain, and read once.
pub(crate) fn is_sound_way(message: Message<'_>, place: u64, limit: u64) -> bool
    ensures { IsTrue result → IsCleanWay limit place message.entry.at message.entry.bytes.now }
{
    if plain::is_plain_way(message, limit) {
        return true;
    }
    if judge_way_wire(message).is_some() || judge_way_structure(message, place).is_some() {
        return false;
    }
    judge_way_values(message, limit).is_none()
}

/// The way of a message. It does not allocate.
#[tactic(auto, unfolding(crate::specs::Way::way_in))]
pub(crate) fn way_in<'a>(message: Message<'a>, table: &'a Table<'a>, scale: Scale) -> WayRef<'a>
    ensures { way_of result ≡ way_in streaming table.now scale (found_in message.entry) }
{
    let locations = SummedLocations::new(values(message, WAY_LAT), values(message, WAY_LON));
    WayRef::new(
        last_wide(message, ID),
        entity_meta(message, table),
        tags_in(message, table),
        Refs::Summed(values(message, REFS)),
        Locations::Summed(locations),
        scale,
    )
}

/// A way: what counts of it to a selection is read by itself.
impl<'a> Unmade<'a> {
    /// The way's refs. Nothing else of the message is read.
    #[tactic(auto, unfolding(crate::specs::Way::way_in))]
    pub fn refs(&self) -> Refs<'a>
        ensures { refs_left result ≡ (way_from self.now).refs }
    {
        match plain_way(self.message.bytes) {
            Some(way) => way.refs(),
            None => Refs::Summed(values(self.message, REFS)),
        }
    }

    /// The way's id and its refs, both from one reading if it is plain, as most are. Nothing else of the message is read.
    #[inline(always)]
    #[tactic(auto, unfolding(crate::specs::Way::way_in))]
    pub fn id_and_refs(&self) -> (i64, Refs<'a>)
        ensures id { result.0 ≡ (way_from self.now).id }
        ensures refs { refs_left result.1 ≡ (way_from self.now).refs }
    {
        match plain_way(self.message.bytes) {
            Some(way) => (low_i64(way.id), way.refs()),
            None => {
                let refs = Refs::Summed(values(self.message, REFS));
                (last_wide(self.message, ID), refs)
            }
        }
    }

    /// The way, if it is plain and so is its Info.
    #[tactic(auto, unfolding(crate::specs::Way::way_in))]
    fn make_plain(&self) -> Option<WayRef<'a>>
        ensures { IfSome result (λ way. way_of way ≡ way_from self.now) }
    {
        let way = plain_way(self.message.bytes)?;
        let meta = way.meta(self.table)?;
        Some(WayRef::new(
            low_i64(way.id),
            meta,
            way.tags(self.table),
            way.refs(),
            Locations::Owned(&[]),
            self.scale,
        ))
    }

    /// The way. Most are plain.
    pub fn way(&self) -> WayRef<'a>
        ensures { way_of result ≡ way_from self.now }
    {
        match self.make_plain() {
            Some(way) => way,
            None => way_in(self.message, self.table, self.scale),
        }
    }
}
