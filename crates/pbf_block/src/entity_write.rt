//! The parts that ways and relations are written of.

ghost use Rattle.std.specs.Prelude.{◌≡◌, ◌++◌, ◌+◌, ◌≤◌, ℕ, List, OnOk, length, map};
ghost use Rattle.std.specs.List.{AllByRecursion};
ghost use Rattle.std.specs.Option.{option_map};
ghost use Rattle.pbf_strings.specs.TableOut.{texts_after, index_in};
ghost use Rattle.osm_entity.specs.EntityTexts.{tag_texts};
ghost use Rattle.osm_entity.specs.Ranges.{IsStored, LocationFits, MemberFits};
ghost use Rattle.osm_entity.specs.Sources.{tags_left, refs_left, locations_left, members_left};
ghost use Rattle.osm_entity.specs.Views.{meta_of};
ghost use Rattle.pbf_block.specs.WrittenEntity.{key_index, value_index, role_index, kind_number, info_message};
ghost use Rattle.pbf_strings.specs.declared.table.TheConstants.{MOST_USED_TEXTS};

use osm_entity::{Locations, Members, MetaRef, Refs, Tags};
use pbf_dense::dense_info::{CHANGESET, TIMESTAMP, UID, USER_SID, VERSION, VISIBLE};
use pbf_strings::TableOut;
use pbf_wire::{ColumnOut, DeltaOut, put_if_some, put_int64};
use std::alloc::AllocError;
use std::hash::BuildHasher;

/// Puts the indexes of the keys and of the values into two columns.
pub(crate) fn put_tag_fields<S: BuildHasher>(
    keys: &mut ColumnOut,
    values: &mut ColumnOut,
    tags: Tags<'_>,
    table: &mut TableOut<S>,
) -> Result<(), AllocError>
    requires { length table.old + length (tag_texts (tags_left tags)) ≤ MOST_USED_TEXTS }
    ensures texts { OnOk result
        (table.new ≡ texts_after table.old (tag_texts (tags_left tags.entry))) }
    ensures keys { (used : List (List ℕ))
        → OnOk result (keys.new
        ≡ map (key_index (texts_after table.new used)) (tags_left tags.entry)) }
    ensures values { (used : List (List ℕ))
        → OnOk result (values.new
        ≡ map (value_index (texts_after table.new used)) (tags_left tags.entry)) }
{
    keys.clear();
    values.clear();
    for (key, value) in tags {
        keys.push(u64::from(table.index_of(key)?))?;
        values.push(u64::from(table.index_of(value)?))?;
    }
    Ok(())
}

/// Puts the refs into a column of differences.
pub(crate) fn put_ref_fields(column: &mut DeltaOut, refs: Refs<'_>) -> Result<(), AllocError>
    requires { AllByRecursion IsStored (refs_left refs) }
    ensures { OnOk result (column.new ≡ refs_left refs.entry) }
{
    column.clear();
    for reference in refs {
        column.push(reference)?;
    }
    Ok(())
}

/// Puts the latitudes and the longitudes into two columns of differences.
pub(crate) fn put_locations(
    lats: &mut DeltaOut,
    lons: &mut DeltaOut,
    locations: Locations<'_>,
) -> Result<(), AllocError>
    requires { AllByRecursion LocationFits (locations_left locations) }
    ensures lats { OnOk result (lats.new ≡ map (λ l. l.0) (locations_left locations.entry)) }
    ensures lons { OnOk result (lons.new ≡ map (λ l. l.1) (locations_left locations.entry)) }
{
    lats.clear();
    lons.clear();
    for (lat, lon) in locations {
        lats.push(lat)?;
        lons.push(lon)?;
    }
    Ok(())
}

/// Puts the indexes of the roles, the ids and the kinds of members into three columns.
pub(crate) fn put_member_fields<S: BuildHasher>(
    roles: &mut ColumnOut,
    ids: &mut DeltaOut,
    kinds: &mut ColumnOut,
    members: Members<'_>,
    table: &mut TableOut<S>,
) -> Result<(), AllocError>
    requires fits { AllByRecursion MemberFits (members_left members) }
    requires room { length table.old + length (members_left members) ≤ MOST_USED_TEXTS }
    ensures texts { OnOk result
        (table.new ≡ texts_after table.old (map (λ m. m.role) (members_left members.entry))) }
    ensures roles { (used : List (List ℕ))
        → OnOk result (roles.new
        ≡ map (role_index (texts_after table.new used)) (members_left members.entry)) }
    ensures ids { OnOk result (ids.new ≡ map (λ m. m.id) (members_left members.entry)) }
    ensures kinds { OnOk result
        (kinds.new ≡ map (λ m. kind_number m.kind) (members_left members.entry)) }
{
    roles.clear();
    ids.clear();
    kinds.clear();
    for member in members {
        roles.push(u64::from(table.index_of(member.role)?))?;
        ids.push(member.id)?;
        // The format numbers the kinds in their order.
        kinds.push(member.kind as u64)?;
    }
    Ok(())
}

/// Appends the fields of an Info, of which `user` is the index of the user's text.
pub(crate) fn put_info(
    out: &mut Vec<u8>,
    meta: &MetaRef<'_>,
    user: Option<u32>,
) -> Result<(), AllocError>
    ensures { (texts : List (List ℕ)) → user ≡ option_map (index_in texts) (meta_of meta.now).user
        → OnOk result (out.new.items ≡ out.old.items ++ info_message texts (meta_of meta.now)) }
{
    put_int64(out, VERSION, meta.version.map(|version| i64::from(version)))?;
    put_int64(out, TIMESTAMP, meta.timestamp)?;
    put_int64(out, CHANGESET, meta.changeset)?;
    put_int64(out, UID, meta.uid.map(|uid| i64::from(uid)))?;
    put_if_some(out, USER_SID, user.map(|user| u64::from(user)))?;
    put_if_some(out, VISIBLE, meta.visible.map(|visible| u64::from(visible)))?;
    Ok(())
}
