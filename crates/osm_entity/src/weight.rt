//! What the parts of an entity weigh, and whether they are in their ranges.

ghost use Rattle.std.specs.Prelude.{◌≡◌, ◌↔◌, ◌+◌, ◌-◌, ◌*◌, ◌^◌, ◌≤◌, min, length, IsTrue, SomeIff};
ghost use Rattle.std.specs.List.{AllByRecursion};
ghost use Rattle.osm_entity.specs.Sources.{tags_left, refs_left, locations_left, members_left};
ghost use Rattle.osm_entity.specs.Weight.{tags_weight, members_weight};
ghost use Rattle.osm_entity.specs.Ranges.{IsStored, LocationFits, MemberFits};
ghost use Rattle.osm_entity.specs.declared.weight.TheConstants.{HIGHEST_WEIGHT, PART_WEIGHT};

use crate::locations::Locations;
use crate::member::Members;
use crate::refs::Refs;
use crate::tags::Tags;
use pbf_wire::STORED_LIMIT;

/// What each entity weighs beside its parts and its texts.
pub const ENTITY_WEIGHT: u64 = 160;

/// What each tag, ref, location and member weighs beside its texts.
pub const PART_WEIGHT: u64 = 32;

/// The greatest weight that an entity may have.
pub const HIGHEST_WEIGHT: u64 = 12_000_000;

/// The limit of uids: they are strictly between it and its negative.
pub const UID_LIMIT: i64 = 1 << 30;

/// A weight that is within its limit.
pub(crate) fn within_weight_limit(weight: u64) -> Option<u64>
    ensures { SomeIff result (weight ≤ HIGHEST_WEIGHT) weight }
{
    if weight > HIGHEST_WEIGHT {
        return None;
    }
    Some(weight)
}

/// What the tags weigh: [`PART_WEIGHT`] for each, and the lengths of its texts. If it is more than a `u64` holds, the greatest.
pub(crate) fn tags_weight(tags: Tags<'_>) -> u64
    ensures { result ≡ min (tags_weight (tags_left tags.entry)) (2 ^ 64 - 1) }
{
    let mut weight: u64 = 0;
    for (key, value) in tags {
        weight = weight
            .saturating_add(PART_WEIGHT)
            .saturating_add(key.len() as u64)
            .saturating_add(value.len() as u64);
    }
    weight
}

/// What the refs weigh: [`PART_WEIGHT`] for each.
pub(crate) fn refs_weight(refs: Refs<'_>) -> u64
    ensures { result ≡ min (PART_WEIGHT * length (refs_left refs.entry)) (2 ^ 64 - 1) }
{
    if let Some(count) = refs.count_stored() {
        return (count as u64).saturating_mul(PART_WEIGHT);
    }
    let mut weight: u64 = 0;
    for _reference in refs {
        weight = weight.saturating_add(PART_WEIGHT);
    }
    weight
}

/// What the locations weigh: [`PART_WEIGHT`] for each.
pub(crate) fn locations_weight(locations: Locations<'_>) -> u64
    ensures { result ≡ min (PART_WEIGHT * length (locations_left locations.entry)) (2 ^ 64 - 1) }
{
    let mut weight: u64 = 0;
    for _location in locations {
        weight = weight.saturating_add(PART_WEIGHT);
    }
    weight
}

/// A weight with that of one more member: [`PART_WEIGHT`], and the length of its role.
fn with_role(weight: u64, role: &[u8]) -> u64
    ensures { result ≡ min (weight + PART_WEIGHT + length role.now) (2 ^ 64 - 1) }
{
    weight
        .saturating_add(PART_WEIGHT)
        .saturating_add(role.len() as u64)
}

/// What the members weigh: [`PART_WEIGHT`] for each, and the length of its role.
pub(crate) fn members_weight(members: Members<'_>) -> u64
    ensures { result ≡ min (members_weight (members_left members.entry)) (2 ^ 64 - 1) }
{
    let mut weight: u64 = 0;
    for member in members {
        weight = with_role(weight, member.role);
    }
    weight
}

/// Whether an id or another stored number is in its range.
pub(crate) fn id_fits(number: i64) -> bool
    ensures { IsTrue result ↔ IsStored number }
{
    -STORED_LIMIT < number && number < STORED_LIMIT
}

/// What the refs weigh by [`refs_weight`], if each is in its range.
pub(crate) fn stored_refs_weight(refs: Refs<'_>) -> Option<u64>
    ensures { SomeIff result (AllByRecursion IsStored (refs_left refs.entry))
        (min (PART_WEIGHT * length (refs_left refs.entry)) (2 ^ 64 - 1)) }
{
    // The refs of most ways need not be decoded.
    if let Some(count) = refs.count_stored() {
        return Some((count as u64).saturating_mul(PART_WEIGHT));
    }
    let mut weight: u64 = 0;
    for reference in refs {
        if !id_fits(reference) {
            return None;
        }
        weight = weight.saturating_add(PART_WEIGHT);
    }
    Some(weight)
}

/// Whether both numbers of each location are in their range.
pub(crate) fn locations_fit(locations: Locations<'_>) -> bool
    ensures { IsTrue result ↔ AllByRecursion LocationFits (locations_left locations.entry) }
{
    for (lat, lon) in locations {
        if !id_fits(lat) || !id_fits(lon) {
            return false;
        }
    }
    true
}

/// What the members weigh by [`members_weight`], if the id of each is in its range.
pub(crate) fn stored_members_weight(members: Members<'_>) -> Option<u64>
    ensures { SomeIff result (AllByRecursion MemberFits (members_left members.entry))
        (min (members_weight (members_left members.entry)) (2 ^ 64 - 1)) }
{
    let mut weight: u64 = 0;
    for member in members {
        if !id_fits(member.id) {
            return None;
        }
        weight = with_role(weight, member.role);
    }
    Some(weight)
}
