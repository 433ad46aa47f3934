//! The rules of a DenseInfo, phase by phase. It has none of weight: the weight of a node counts the text of its user.

ghost use Rattle.std.specs.Prelude.{◌≡◌, ◌≤◌};
ghost use Rattle.pbf_wire.specs.Least.{least};
ghost use Rattle.pbf_wire.specs.Faults.{found_in};
ghost use Rattle.pbf_dense.specs.Judged.{goes_with, info_counts, range_faults, dense_info_values};
ghost use Rattle.pbf_wire.specs.declared.limits.TheConstants.{SUM_LIMIT};

use osm_entity::{STORED_LIMIT, UID_LIMIT};
use pbf_wire::{
    Fault, JudgeMessage, Kind, Message, Reason, column_count, fault_where, judge_index_sums,
    judge_sums, lesser,
};

// The fields of a DenseInfo, and of an Info, which numbers them alike.
pub const VERSION: u64 = 1;

pub const TIMESTAMP: u64 = 2;

pub const CHANGESET: u64 = 3;

pub const UID: u64 = 4;

pub const USER_SID: u64 = 5;

pub const VISIBLE: u64 = 6;

/// How the fields of a DenseInfo are stored. By them its wire form is judged, with that of the DenseNodes that holds it.
pub(crate) const DENSEINFO_KINDS: [(u64, Kind); 6] = [
    (VERSION, Kind::Column),
    (TIMESTAMP, Kind::Column),
    (CHANGESET, Kind::Column),
    (UID, Kind::Column),
    (USER_SID, Kind::Column),
    (VISIBLE, Kind::Column),
];

// Its structure.

/// Whether a column is empty or has an entry for each node.
fn goes_with(message: Message<'_>, number: u64, nodes: usize) -> bool
    ensures { result ≡ goes_with nodes number (found_in message.entry) }
{
    let count = column_count(message, number);
    count == 0 || count == nodes
}

/// The structure of a DenseInfo of so many nodes: `ColumnLengths`, if a column doesn't go with them.
#[derive(Clone, Copy)]
pub(crate) struct InfoStructure {
    pub(crate) nodes: usize,
}

impl JudgeMessage for InfoStructure {
    ghost faults = { λ infos. info_counts infos.nodes };

    fn judge_message(&self, info: Message<'_>, place: u64) -> Option<Fault> {
        let fits = goes_with(info, VERSION, self.nodes)
            && goes_with(info, TIMESTAMP, self.nodes)
            && goes_with(info, CHANGESET, self.nodes)
            && goes_with(info, UID, self.nodes)
            && goes_with(info, USER_SID, self.nodes)
            && goes_with(info, VISIBLE, self.nodes);
        fault_where(!fits, place, Reason::ColumnLengths)
    }
}

// Its values.

/// The first value of a column of differences that is out of range.
pub fn judge_stored_sums(message: Message<'_>, number: u64) -> Option<Fault>
    ensures { result ≡ least (range_faults number (found_in message.entry)) }
{
    judge_sums(message, number, STORED_LIMIT.unsigned_abs(), false)
}

/// The values of a DenseInfo whose users are named in a table of `limit` texts.
#[derive(Clone, Copy)]
pub(crate) struct InfoValues {
    pub(crate) limit: u64,
    ghost limited: { limit ≤ SUM_LIMIT },
}

impl JudgeMessage for InfoValues {
    ghost faults = { λ infos. dense_info_values infos.limit };

    #[tactic(auto, using(crate::proofs::Parts::lesser_parts))]
    fn judge_message(&self, info: Message<'_>, _place: u64) -> Option<Fault> {
        let timestamps = judge_stored_sums(info, TIMESTAMP);
        let changesets = judge_stored_sums(info, CHANGESET);
        let uids = judge_sums(info, UID, UID_LIMIT.unsigned_abs(), true);
        let users = judge_index_sums(info, USER_SID, self.limit);
        lesser(timestamps, lesser(changesets, lesser(uids, users)))
    }
}
