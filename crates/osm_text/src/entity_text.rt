//! The line of an entity.

ghost use Rattle.std.specs.Prelude.{◌≡◌, ◌++◌, OnOk};
ghost use Rattle.std.specs.List.{flat_map};
ghost use Rattle.std.specs.Option.{option_map};
ghost use Rattle.osm_entity.specs.Entity.{node, way, relation, meta_in_millis};
ghost use Rattle.osm_entity.specs.Sources.{tags_left, refs_left, nano_locations_left, members_left, lent_member};
ghost use Rattle.osm_entity.specs.Views.{meta_of, node_of, way_of, relation_of, entity_of};
ghost use Rattle.osm_text.specs.EntityText.{number_part, time_part, user_part, visible_part, meta_text, tag_text, ref_text, location_text, refs_text, kind_mark, member_text, start_text, entity_line};

use crate::dates::put_time;
use crate::number::{put_signed, put_spaced, put_spaced_pair};
use crate::quoted::put_quoted;
use osm_entity::{
    EntityRef, MemberKind, MemberRef, Members, MetaRef, NanoLocations, NodeRef, Refs, RelationRef,
    Scale, Tags, WayRef,
};
use std::alloc::AllocError;

/// Appends a space, a mark and a number, if there is one.
fn put_number_part(out: &mut Vec<u8>, mark: u8, number: Option<i64>) -> Result<(), AllocError>
    ensures { OnOk result (out.new.items ≡ out.old.items ++ number_part mark number) }
{
    if let Some(number) = number {
        out.extend_from_slice(&[b' ', mark])?;
        put_signed(out, i128::from(number))?;
    }
    Ok(())
}

/// Appends a space, `t` and a time, if there is one.
fn put_time_part(out: &mut Vec<u8>, millis: Option<i128>, dates: bool) -> Result<(), AllocError>
    ensures { OnOk result (out.new.items ≡ out.old.items ++ time_part dates millis) }
{
    if let Some(millis) = millis {
        out.extend_from_slice(b" t")?;
        put_time(out, millis, dates)?;
    }
    Ok(())
}

/// Appends a space, `s` and a user, if there is one.
fn put_user_part(out: &mut Vec<u8>, user: Option<&[u8]>) -> Result<(), AllocError>
    ensures { OnOk result
        (out.new.items ≡ out.old.items ++ user_part (option_map (λ text. text.now) user.entry)) }
{
    if let Some(user) = user {
        out.extend_from_slice(b" s")?;
        put_quoted(out, user)?;
    }
    Ok(())
}

/// Appends a space and whether an entity is visible, if that is known.
fn put_visible_part(out: &mut Vec<u8>, visible: Option<bool>) -> Result<(), AllocError>
    ensures { OnOk result (out.new.items ≡ out.old.items ++ visible_part visible) }
{
    match visible {
        Some(true) => out.extend_from_slice(b" d1")?,
        Some(false) => out.extend_from_slice(b" d0")?,
        None => {}
    }
    Ok(())
}

/// Appends the metadata.
#[tactic(auto, unfolding(crate::specs::EntityText::meta_text))]
fn put_meta(
    out: &mut Vec<u8>,
    meta: &MetaRef<'_>,
    scale: Scale,
    dates: bool,
) -> Result<(), AllocError>
    ensures { OnOk result (out.new.items
        ≡ out.old.items ++ meta_text dates (meta_in_millis scale (meta_of meta.now))) }
{
    put_number_part(out, b'v', meta.version.map(i64::from))?;
    put_time_part(out, meta.millis(scale), dates)?;
    put_number_part(out, b'c', meta.changeset)?;
    put_number_part(out, b'u', meta.uid.map(i64::from))?;
    put_user_part(out, meta.user)?;
    put_visible_part(out, meta.visible)?;
    Ok(())
}

/// Appends a tag.
fn put_tag(out: &mut Vec<u8>, key: &[u8], value: &[u8]) -> Result<(), AllocError>
    ensures { OnOk result (out.new.items ≡ out.old.items ++ tag_text (key.now, value.now)) }
{
    out.push(b' ')?;
    put_quoted(out, key)?;
    out.push(b'=')?;
    put_quoted(out, value)?;
    Ok(())
}

/// Appends the tags in order.
fn put_tags(out: &mut Vec<u8>, tags: Tags<'_>) -> Result<(), AllocError>
    ensures { OnOk result
        (out.new.items ≡ out.old.items ++ flat_map tag_text (tags_left tags.entry)) }
{
    for (key, value) in tags {
        put_tag(out, key, value)?;
    }
    Ok(())
}

/// Appends a ref.
fn put_ref(out: &mut Vec<u8>, id: i64) -> Result<(), AllocError>
    ensures { OnOk result (out.new.items ≡ out.old.items ++ ref_text id) }
{
    out.extend_from_slice(b" n")?;
    put_signed(out, i128::from(id))?;
    Ok(())
}

/// Appends a location.
fn put_location(out: &mut Vec<u8>, lat: i128, lon: i128) -> Result<(), AllocError>
    ensures { OnOk result (out.new.items ≡ out.old.items ++ location_text (lat, lon)) }
{
    out.push(b'@')?;
    put_signed(out, lat)?;
    out.push(b',')?;
    put_signed(out, lon)?;
    Ok(())
}

/// Appends the refs in order, each with its location, as long as there are locations.
fn put_refs(
    out: &mut Vec<u8>,
    refs: Refs<'_>,
    locations: NanoLocations<'_>,
) -> Result<(), AllocError>
    ensures { OnOk result (out.new.items
        ≡ out.old.items ++ refs_text (refs_left refs.entry) (nano_locations_left locations.entry)) }
{
    let mut rest = locations;
    for id in refs {
        put_ref(out, id)?;
        if let Some((lat, lon)) = rest.next() {
            put_location(out, lat, lon)?;
        }
    }
    Ok(())
}

/// The letter of a member.
fn kind_mark(kind: MemberKind) -> u8
    ensures { result ≡ kind_mark kind }
{
    match kind {
        MemberKind::Node => b'n',
        MemberKind::Way => b'w',
        MemberKind::Relation => b'r',
    }
}

/// Appends a member.
fn put_member(out: &mut Vec<u8>, member: &MemberRef<'_>) -> Result<(), AllocError>
    ensures { OnOk result (out.new.items ≡ out.old.items ++ member_text (lent_member member.now)) }
{
    out.extend_from_slice(&[b' ', kind_mark(member.kind)])?;
    put_signed(out, i128::from(member.id))?;
    out.push(b'@')?;
    put_quoted(out, member.role)?;
    Ok(())
}

/// Appends the members in order.
fn put_members(out: &mut Vec<u8>, members: Members<'_>) -> Result<(), AllocError>
    ensures { OnOk result
        (out.new.items ≡ out.old.items ++ flat_map member_text (members_left members.entry)) }
{
    for member in members {
        put_member(out, &member)?;
    }
    Ok(())
}

/// Appends the letter of an entity, and its id.
fn put_start(out: &mut Vec<u8>, letter: u8, id: i64) -> Result<(), AllocError>
    ensures { OnOk result (out.new.items ≡ out.old.items ++ start_text letter id) }
{
    out.push(letter)?;
    put_spaced(out, i128::from(id))
}

/// Appends the line of a node.
fn put_node(out: &mut Vec<u8>, view: &NodeRef<'_>, dates: bool) -> Result<(), AllocError>
    ensures { OnOk result
        (out.new.items ≡ out.old.items ++ entity_line dates (node (node_of view.now))) }
{
    put_start(out, b'N', view.id())?;
    put_spaced_pair(out, view.nano_lat(), view.nano_lon())?;
    put_meta(out, &view.meta(), view.scale(), dates)?;
    put_tags(out, view.tags())?;
    out.push(b'\n')?;
    Ok(())
}

/// Appends the line of a way.
fn put_way(out: &mut Vec<u8>, view: &WayRef<'_>, dates: bool) -> Result<(), AllocError>
    ensures { OnOk result
        (out.new.items ≡ out.old.items ++ entity_line dates (way (way_of view.now))) }
{
    put_start(out, b'W', view.id())?;
    put_meta(out, &view.meta(), view.scale(), dates)?;
    put_tags(out, view.tags())?;
    put_refs(out, view.refs(), view.nano_locations())?;
    out.push(b'\n')?;
    Ok(())
}

/// Appends the line of a relation.
fn put_relation(out: &mut Vec<u8>, view: &RelationRef<'_>, dates: bool) -> Result<(), AllocError>
    ensures { OnOk result
        (out.new.items ≡ out.old.items ++ entity_line dates (relation (relation_of view.now))) }
{
    put_start(out, b'R', view.id())?;
    put_meta(out, &view.meta(), view.scale(), dates)?;
    put_tags(out, view.tags())?;
    put_members(out, view.members())?;
    out.push(b'\n')?;
    Ok(())
}

/// Appends the line of an entity, with single spaces between its parts: `N`, `W` or `R`, the id, and of a node latitude and
/// longitude in nanodegrees; then what there is of the metadata, each after its mark, `v` version, `t` time, `c` changeset,
/// `u` uid, `s` user and `d` whether it is visible, 1 or 0; then each tag, as key`=`value; then of a way each ref, as `n` and
/// id, with `@`, latitude, `,` and longitude as long as there are locations, and of a relation each member, as `n`, `w` or `r`,
/// id, `@` and role. Texts are in quotation marks.
///
/// Times are milliseconds since 1970; with `dates`, those of the years from 1970 to 2099 are dates and times of
/// day in UTC, as `2009-02-13T23:31:30.000Z`.
///
/// An `Err` says that memory is refused; the output then is unspecified.
pub fn put_entity(out: &mut Vec<u8>, entity: &EntityRef<'_>, dates: bool) -> Result<(), AllocError>
    ensures { OnOk result
        (out.new.items ≡ out.old.items ++ entity_line dates (entity_of entity.now)) }
{
    match entity {
        EntityRef::Node(view) => put_node(out, view, dates)?,
        EntityRef::Way(view) => put_way(out, view, dates)?,
        EntityRef::Relation(view) => put_relation(out, view, dates)?,
    }
    Ok(())
}
