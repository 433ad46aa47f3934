//! The columns of a DenseInfo.

ghost use Rattle.std.specs.Prelude.{◌≡◌, ◌^◌, pos, true, drop, slice_get, IsTrue};
ghost use Rattle.std.specs.Option.{option_map};
ghost use Rattle.std.specs.List.{list_all};
ghost use Rattle.pbf_wire.specs.Signed.{is_within};
ghost use Rattle.pbf_wire.specs.Cursors.{sums_left};
ghost use Rattle.pbf_wire.specs.declared.limits.TheConstants.{SUM_LIMIT};

use crate::dense_info::{CHANGESET, TIMESTAMP, UID, USER_SID, VERSION, VISIBLE};
use crate::dense_nodes::DENSEINFO;
use crate::entries::{next_number, next_sum, pass_numbers};
use crate::user_texts::text_if_some;
use crate::weigh::{numbers_go_with, sums_go_with};
use osm_entity::{MetaRef, STORED_LIMIT, UID_LIMIT};
use pbf_strings::Table;
use pbf_wire::{Column, Field, Message, Payload, Sums, last_field, low_i32};

/// The next value of a column of uids.
#[tactic(auto, using(crate::proofs::InfoLemmas::later_within))]
fn next_uid(uids: &mut Sums<'_>) -> Option<i32>
    requires { list_all (is_within (pos (2 ^ 30))) (sums_left uids.old) ≡ true }
    ensures first { result ≡ slice_get (sums_left uids.old) 0 }
    ensures rest { sums_left uids.new ≡ drop 1 (sums_left uids.old) }
    ensures narrow { list_all (is_within (pos (2 ^ 30))) (sums_left uids.new) ≡ true }
{
    let uid = uids.next_steady()?;
    Some(uid as i32)
}

/// What is left of the columns of metadata, each of which is empty or goes with the nodes.
#[derive(Clone, Copy)]
pub(crate) struct InfoColumns<'a> {
    pub(crate) versions: Column<'a>,
    pub(crate) timestamps: Sums<'a>,
    pub(crate) changesets: Sums<'a>,
    pub(crate) uids: Sums<'a>,
    pub(crate) users: Sums<'a>,
    pub(crate) visible: Column<'a>,
    ghost timestamps_stored: { list_all (is_within (pos SUM_LIMIT)) (sums_left timestamps) ≡ true },
    ghost changesets_stored: { list_all (is_within (pos SUM_LIMIT)) (sums_left changesets) ≡ true },
    ghost narrow: { list_all (is_within (pos (2 ^ 30))) (sums_left uids) ≡ true },
}

impl<'a> InfoColumns<'a> {
    ghost use Rattle.pbf_wire.specs.Faults.{embedded, fields_of, found_in};
    ghost use Rattle.pbf_wire.specs.Fields.{occurrence};
    ghost use Rattle.osm_entity.specs.Views.{meta_of};
    ghost use Rattle.pbf_dense.specs.Info.{meta_at, info_rest, info_past, info_along};
    ghost use Rattle.pbf_dense.specs.Cursors.{info_left};
    ghost use Rattle.pbf_dense.specs.Steady.{IsInfoSteady};

    /// The columns of a DenseInfo.
    #[tactic(auto, using(crate::proofs::InfoLemmas::sums_are_within), unfolding(crate::specs::Info::info_along))]
    pub(crate) fn new(message: Message<'a>) -> Self
        ensures { info_left result ≡ info_along (found_in message.entry) }
    {
        InfoColumns {
            versions: message.column(VERSION),
            timestamps: Sums::new(message.column(TIMESTAMP), STORED_LIMIT),
            changesets: Sums::new(message.column(CHANGESET), STORED_LIMIT),
            uids: Sums::narrow(message.column(UID), UID_LIMIT),
            users: Sums::narrow(message.column(USER_SID), STORED_LIMIT),
            visible: message.column(VISIBLE),
        }
    }

    /// The columns of the message in a field; without one they are empty.
    #[tactic(auto, using(crate::proofs::InfoLemmas::no_fields))]
    fn in_field(field: Option<Field<'a>>) -> Self
        ensures { info_left result ≡ info_along (fields_of (option_map occurrence field.entry)) }
    {
        let Some(field) = field else {
            return InfoColumns::new(Message { bytes: &[], at: 0 });
        };
        match field.payload {
            Payload::Bytes(bytes, at) => InfoColumns::new(Message { bytes, at }),
            _ => InfoColumns::new(Message { bytes: &[], at: 0 }),
        }
    }

    /// The columns of the last DenseInfo in a DenseNodes; without one they are empty.
    pub(crate) fn last_in(dense: Message<'a>) -> Self
        ensures { info_left result ≡ info_along (embedded DENSEINFO (found_in dense.entry)) }
    {
        InfoColumns::in_field(last_field(dense, DENSEINFO))
    }

    /// Puts the metadata of the next node in this place.
    #[tactic(auto, using(crate::proofs::InfoLemmas::still_within))]
    pub(crate) fn take_in(&mut self, table: &'a Table<'a>, meta: &mut MetaRef<'a>)
        ensures meta { meta_of meta.new ≡ meta_at table.now (info_left self.old) 0 }
        ensures rest { info_left self.new ≡ info_rest (info_left self.old) }
    {
        meta.version = next_number(&mut self.versions).map(|number| low_i32(number));
        meta.timestamp = next_sum(&mut self.timestamps);
        meta.changeset = next_sum(&mut self.changesets);
        meta.uid = next_uid(&mut self.uids);
        meta.user = text_if_some(table, next_sum(&mut self.users));
        meta.visible = next_number(&mut self.visible).map(|number| number != 0);
    }

    /// Skips the metadata of as many nodes.
    #[tactic(auto, using(crate::proofs::InfoLemmas::still_within))]
    pub(crate) fn pass(&mut self, count: usize)
        ensures { info_left self.new ≡ info_past count (info_left self.old) }
    {
        pass_numbers(&mut self.versions, count);
        self.timestamps.pass(count);
        self.changesets.pass(count);
        self.uids.pass(count);
        self.users.pass(count);
        pass_numbers(&mut self.visible, count);
    }

    /// Whether each column has an entry for each of so many nodes, or none; `false` says nothing.
    pub(crate) fn is_steady(&self, count: usize) -> bool
        ensures { IsTrue result → IsInfoSteady count (info_left self.now) }
    {
        numbers_go_with(&self.versions, count)
            && sums_go_with(&self.timestamps, count)
            && sums_go_with(&self.changesets, count)
            && sums_go_with(&self.uids, count)
            && sums_go_with(&self.users, count)
            && numbers_go_with(&self.visible, count)
    }
}
