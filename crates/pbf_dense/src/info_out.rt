//! The columns of a DenseInfo, written.

ghost use Rattle.std.specs.Prelude.{◌≡◌, ◌++◌, [], ◌-◌, ◌^◌, min, pos, ℕ, List, OnOk};
ghost use Rattle.std.specs.Option.{option_map, option_to_list};
ghost use Rattle.pbf_wire.specs.Signed.{sign_extended};
ghost use Rattle.osm_entity.specs.Ranges.{IsStored, IfPresent, MetaFits};
ghost use Rattle.osm_entity.specs.Views.{meta_of};
ghost use Rattle.pbf_dense.specs.Cursors.{info_left};
ghost use Rattle.pbf_dense.specs.InfoTaken.{TakesInfo};
ghost use Rattle.pbf_dense.specs.WrittenDense.{bit_of, info_columns, dense_info_message, info_held, info_length};

use crate::dense_info::{CHANGESET, TIMESTAMP, UID, USER_SID, VERSION, VISIBLE};
use crate::info::InfoColumns;
use crate::take_numbers::{take_flags, take_versions};
use osm_entity::MetaRef;
use pbf_wire::{ColumnOut, DeltaOut, put_column, sign_extended};
use std::alloc::{AllocError, Global};

/// The columns of a DenseInfo that is being written: each has the values of the nodes that have the field.
#[derive(Drop)]
pub(crate) struct InfoOut {
    versions: ColumnOut,
    timestamps: DeltaOut,
    changesets: DeltaOut,
    uids: DeltaOut,
    pub(crate) users: DeltaOut,
    visible: ColumnOut,
}

/// Adds a number, if there is one.
fn push_number(column: &mut ColumnOut, number: Option<u64>) -> Result<(), AllocError>
    ensures { OnOk result (column.new ≡ column.old ++ option_to_list number) }
{
    if let Some(number) = number {
        column.push(number)?;
    }
    Ok(())
}

/// Adds a value, if there is one.
fn push_value(column: &mut DeltaOut, value: Option<i64>) -> Result<(), AllocError>
    requires { IfPresent IsStored value }
    ensures { OnOk result (column.new ≡ column.old ++ option_to_list value) }
{
    if let Some(value) = value {
        column.push(value)?;
    }
    Ok(())
}

impl InfoOut {
    /// Columns without values, which allocate nothing yet.
    pub(crate) fn new(alloc: Global) -> InfoOut
        ensures { (texts : List (List ℕ)) → info_held result ≡ info_columns texts [] }
    {
        InfoOut {
            versions: ColumnOut::new(alloc),
            timestamps: DeltaOut::new(alloc),
            changesets: DeltaOut::new(alloc),
            uids: DeltaOut::new(alloc),
            users: DeltaOut::new(alloc),
            visible: ColumnOut::new(alloc),
        }
    }

    /// Adds the fields that a node has, of which `user` is the index of the user's text.
    pub(crate) fn push(&mut self, meta: &MetaRef<'_>, user: Option<u32>) -> Result<(), AllocError>
        requires { MetaFits (meta_of meta.now) }
        ensures versions { OnOk result (self.new.versions
            ≡ self.old.versions ++ option_to_list (option_map sign_extended meta.now.version)) }
        ensures timestamps { OnOk result (self.new.timestamps
            ≡ self.old.timestamps ++ option_to_list meta.now.timestamp) }
        ensures changesets { OnOk result (self.new.changesets
            ≡ self.old.changesets ++ option_to_list meta.now.changeset) }
        ensures uids { OnOk result (self.new.uids ≡ self.old.uids ++ option_to_list meta.now.uid) }
        ensures users { OnOk result
            (self.new.users ≡ self.old.users ++ option_to_list (option_map pos user)) }
        ensures visible { OnOk result (self.new.visible
            ≡ self.old.visible ++ option_to_list (option_map bit_of meta.now.visible)) }
    {
        let version = meta.version.map(|number| sign_extended(i64::from(number)));
        push_number(&mut self.versions, version)?;
        push_value(&mut self.timestamps, meta.timestamp)?;
        push_value(&mut self.changesets, meta.changeset)?;
        push_value(&mut self.uids, meta.uid.map(i64::from))?;
        push_value(&mut self.users, user.map(i64::from))?;
        push_number(&mut self.visible, meta.visible.map(u64::from))?;
        Ok(())
    }

    /// Takes the metadata of as many nodes over, but for their users.
    #[tactic(auto, using(crate::proofs::InfoLemmas::still_within, crate::proofs::InfoLemmas::stored_all, crate::proofs::InfoLemmas::uids_stored))]
    pub(crate) fn take(
        &mut self,
        info: &mut InfoColumns<'_>,
        count: usize,
    ) -> Result<(), AllocError>
        ensures { OnOk result (TakesInfo count (info_left info.old) (info_left info.new)
            (info_held self.old) (info_held self.new)) }
    {
        let mut versions = info.versions;
        let mut timestamps = info.timestamps;
        let mut changesets = info.changesets;
        let mut uids = info.uids;
        let mut visible = info.visible;
        take_versions(&mut self.versions, &mut versions, count)?;
        self.timestamps.take(&mut timestamps, count)?;
        self.changesets.take(&mut changesets, count)?;
        self.uids.take(&mut uids, count)?;
        take_flags(&mut self.visible, &mut visible, count)?;
        *info = InfoColumns {
            versions,
            timestamps,
            changesets,
            uids,
            users: info.users,
            visible,
        };
        Ok(())
    }

    /// Appends the fields of the DenseInfo.
    #[tactic(auto, using(crate::proofs::Parts::one_more, crate::proofs::Parts::last_slot), unfolding(crate::specs::WrittenDense::dense_info_message))]
    pub(crate) fn write(&self, out: &mut Vec<u8>) -> Result<(), AllocError>
        ensures { OnOk result (out.new.items ≡ out.old.items ++ dense_info_message (info_held self.now)) }
    {
        put_column(out, VERSION, self.versions.bytes())?;
        put_column(out, TIMESTAMP, self.timestamps.bytes())?;
        put_column(out, CHANGESET, self.changesets.bytes())?;
        put_column(out, UID, self.uids.bytes())?;
        put_column(out, USER_SID, self.users.bytes())?;
        put_column(out, VISIBLE, self.visible.bytes())?;
        Ok(())
    }

    /// The lengths of the columns, or the greatest number if they are more.
    pub(crate) fn held(&self) -> u64
        ensures { result ≡ min (info_length (info_held self.now)) (2 ^ 64 - 1) }
    {
        self.versions
            .held()
            .saturating_add(self.timestamps.held())
            .saturating_add(self.changesets.held())
            .saturating_add(self.uids.held())
            .saturating_add(self.users.held())
            .saturating_add(self.visible.held())
    }
}
