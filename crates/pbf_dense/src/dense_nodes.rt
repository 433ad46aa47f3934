//! The rules of a DenseNodes, phase by phase. Each phase applies those of the DenseInfos in it too.

ghost use Rattle.std.specs.Prelude.{◌≡◌, ◌≤◌, ℕ, false, map};
ghost use Rattle.pbf_wire.specs.Columns.{joined};
ghost use Rattle.pbf_wire.specs.Cursors.{numbers_left};
ghost use Rattle.pbf_wire.specs.Least.{least};
ghost use Rattle.pbf_wire.specs.Faults.{index_faults, found_in};
ghost use Rattle.osm_entity.specs.Sources.{low_32};
ghost use Rattle.osm_entity.specs.Views.{node_of};
ghost use Rattle.pbf_dense.specs.Cursors.{dense_left};
ghost use Rattle.pbf_dense.specs.Nodes.{nodes_along};
ghost use Rattle.pbf_dense.specs.Judged.{coordinate_counts, are_runs, are_tag_runs, texts_named, node_weight_fault, dense_wire, dense_structure, dense_values, dense_weights, as_stored};
ghost use Rattle.pbf_wire.specs.declared.limits.TheConstants.{SUM_LIMIT};

use crate::dense::Dense;
use crate::dense_info::{DENSEINFO_KINDS, InfoStructure, InfoValues, judge_stored_sums};
use crate::entries::{next_number, next_placed};
use osm_entity::{HIGHEST_WEIGHT, NodeRef, Scale};
use pbf_strings::Table;
use pbf_wire::{
    Column, Fault, InField, Kind, Message, Reason, column_count, fault_where, judge_fields,
    judge_index, judge_nested, judge_twice, lesser, low_u32,
};

// The fields of a DenseNodes.
pub(crate) const ID: u64 = 1;

pub(crate) const DENSEINFO: u64 = 5;

pub(crate) const LAT: u64 = 8;

pub(crate) const LON: u64 = 9;

/// The column of numbers that name the keys and values of dense nodes.
pub const KEYS_VALS: u64 = 10;

/// How the fields of a DenseNodes are stored.
pub(crate) const DENSE_KINDS: [(u64, Kind); 5] = [
    (ID, Kind::Column),
    (DENSEINFO, Kind::Bytes),
    (LAT, Kind::Column),
    (LON, Kind::Column),
    (KEYS_VALS, Kind::Column),
];

// Its wire form.

impl Dense<'_> {
    /// The least wire fault of a dense message, and of the DenseInfos in it.
    #[tactic(auto, unfolding(crate::specs::Judged::dense_wire))]
    pub fn judge_wire(message: Message<'_>) -> Option<Fault>
        ensures { (place : ℕ) → result
            ≡ least (dense_wire place message.entry.at message.entry.bytes.now) }
    {
        judge_nested(message, &DENSE_KINDS, DENSEINFO, &DENSEINFO_KINDS)
    }
}

// Its structure.

/// `ColumnLengths` at `place`, if there aren't as many latitudes and as many longitudes as ids.
fn judge_coordinates(message: Message<'_>, place: u64) -> Option<Fault>
    ensures { result ≡ least (coordinate_counts place (found_in message.entry)) }
{
    let nodes = column_count(message, ID);
    let fits = column_count(message, LAT) == nodes && column_count(message, LON) == nodes;
    fault_where(!fits, place, Reason::ColumnLengths)
}

/// Whether the numbers are so many runs, each with a 0 in key place after it, and nothing more.
#[tactic(auto, using(crate::proofs::MovingLemmas::runs_steps))]
fn are_runs(keys_vals: Column<'_>, nodes: usize) -> bool
    ensures { result ≡ are_runs nodes (map low_32 (numbers_left keys_vals.entry)) }
{
    let mut numbers = keys_vals;
    let mut left = nodes;
    'runs: while left > 0 {
        if numbers.pass_zero() {
            left -= 1;
            continue 'runs;
        }
        let Some(key) = next_number(&mut numbers) else {
            return false;
        };
        if low_u32(key) == 0 {
            left -= 1;
        } else if next_number(&mut numbers).is_none() {
            return false;
        }
    }
    next_number(&mut numbers).is_none()
}

/// Whether there are no tags, or a run of them for each node.
fn are_tag_runs(keys_vals: Column<'_>, nodes: usize) -> bool
    ensures { result ≡ are_tag_runs nodes (map low_32 (numbers_left keys_vals.entry)) }
{
    let mut numbers = keys_vals;
    next_number(&mut numbers).is_none() || are_runs(keys_vals, nodes)
}

impl Dense<'_> {
    /// The least fault of structure of a dense message, whose field is at `place`: columns of different counts, tags that are
    /// not of their form, a second DenseInfo. If the message has a wire fault, its fields before that count. Decodes no
    /// column but that of the tags.
    #[tactic(auto, using(crate::proofs::Parts::lesser_parts), unfolding(crate::specs::Judged::dense_structure))]
    pub fn judge_structure(message: Message<'_>, place: u64) -> Option<Fault>
        ensures { result ≡ least (dense_structure place message.entry.at message.entry.bytes.now) }
    {
        let counts = judge_coordinates(message, place);
        let nodes = column_count(message, ID);
        let formed = are_tag_runs(message.column(KEYS_VALS), nodes);
        let tags = fault_where(!formed, place, Reason::KeysVals);
        let twice = judge_twice(message, DENSEINFO);
        let infos = judge_fields(message, &InField(DENSEINFO, InfoStructure { nodes }));
        lesser(counts, lesser(tags, lesser(twice, infos)))
    }
}

// Its values.

/// The first number of the tags that a table of this length has no text for. A 0 in key place names none.
#[tactic(auto, using(crate::proofs::Parts::least_more, crate::proofs::Parts::lesser_nothing))]
fn judge_texts(message: Message<'_>, limit: u64) -> Option<Fault>
    ensures { result ≡ least (index_faults limit
        (texts_named false (joined KEYS_VALS (found_in message.entry)))) }
{
    let mut keys_vals = message.column(KEYS_VALS);
    let mut least = None;
    let mut in_value = false;
    'numbers: while let Some((number, place)) = next_placed(&mut keys_vals) {
        if in_value || low_u32(number) != 0 {
            least = lesser(least, judge_index(place, number, limit));
            in_value = !in_value;
        }
        if !in_value {
            'zeros: while keys_vals.pass_zero() {}
        }
    }
    least
}

impl Dense<'_> {
    /// The least fault of the values of a dense message, for a table of `limit` texts: a value out of its range, a number that
    /// the table has no text for.
    #[tactic(auto, using(crate::proofs::Parts::lesser_parts), unfolding(crate::specs::Judged::dense_values))]
    pub fn judge_values(message: Message<'_>, limit: u64) -> Option<Fault>
        requires { limit ≤ SUM_LIMIT }
        ensures { (place : ℕ) → result
            ≡ least (dense_values limit place message.entry.at message.entry.bytes.now) }
    {
        let ids = judge_stored_sums(message, ID);
        let lats = judge_stored_sums(message, LAT);
        let lons = judge_stored_sums(message, LON);
        let texts = judge_texts(message, limit);
        let infos = judge_fields(message, &InField(DENSEINFO, InfoValues { limit }));
        lesser(ids, lesser(lats, lesser(lons, lesser(texts, infos))))
    }
}

// The weights of its nodes.

/// The scale of the stored numbers themselves.
const AS_STORED: Scale = Scale {
    granularity: 1,
    date_granularity: 1,
    lat_offset: 0,
    lon_offset: 0,
};

/// `EntityLarge` at `place`, if the node is too heavy.
fn judge_node(node: NodeRef<'_>, place: u64) -> Option<Fault>
    ensures { result ≡ least (node_weight_fault place (node_of node.entry)) }
{
    fault_where(node.weight() > HIGHEST_WEIGHT, place, Reason::EntityLarge)
}

impl Dense<'_> {
    /// `EntityLarge` at `place`, if one of the nodes that are still to come is too heavy.
    #[tactic(auto, using(crate::proofs::Parts::least_more, crate::proofs::Parts::lesser_nothing), unfolding(crate::specs::Judged::dense_weights))]
    pub fn judge_nodes(self, place: u64) -> Option<Fault>
        ensures { result ≡ least (dense_weights place (dense_left self.entry)) }
    {
        let mut least = None;
        for node in self {
            least = lesser(least, judge_node(node, place));
        }
        least
    }

    /// `EntityLarge` at `place`, if a node is too heavy of those that [`Dense::over`] gives.
    pub fn judge_weights(message: Message<'_>, place: u64, table: &Table<'_>) -> Option<Fault>
        ensures { result ≡ least (dense_weights place
            (nodes_along table.now as_stored (found_in message.entry))) }
    {
        Dense::over(message, table, AS_STORED).judge_nodes(place)
    }
}
