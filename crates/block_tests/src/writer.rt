//! A way and a relation, each appended to a group by one call.

use osm_entity::{Member, MemberKind, Meta, Relation, Scale, Way};
use pbf_block::EntityOut;
use pbf_strings::TableOut;
use std::alloc::{AllocError, Global};
use std::hash::{BuildHasherDefault, FoldHasher};
use std::test::Fail;

const SCALE: Scale = Scale {
    granularity: 100,
    date_granularity: 1000,
    lat_offset: 0,
    lon_offset: 0,
};

const NO_META: Meta = Meta {
    version: None,
    timestamp: None,
    changeset: None,
    uid: None,
    user: None,
    visible: None,
};

/// The group of way 7 through the nodes 1, 2 and 3.
fn way_group(alloc: Global) -> Result<Option<Vec<u8>>, AllocError> {
    let way = Way {
        id: 7,
        meta: NO_META,
        tags: Vec::new(alloc),
        refs: Vec::from_slice(alloc, &[1, 2, 3])?,
        locations: Vec::new(alloc),
        scale: SCALE,
    };
    let view = way.view();
    let mut table = TableOut::new(alloc, BuildHasherDefault::<FoldHasher>::default());
    let mut group = Vec::new(alloc);
    if !view.fits() {
        return Ok(None);
    }
    EntityOut::new(alloc).put_way(&mut group, &view, &mut table)?;
    Ok(Some(group))
}

/// The group of relation 8, whose member is node 1 without a role.
fn relation_group(alloc: Global) -> Result<Option<Vec<u8>>, AllocError> {
    let mut members = Vec::new(alloc);
    members.push(Member {
        kind: MemberKind::Node,
        id: 1,
        role: Vec::new(alloc),
    })?;
    let relation = Relation {
        id: 8,
        meta: NO_META,
        tags: Vec::new(alloc),
        members,
        scale: SCALE,
    };
    let view = relation.view();
    let mut table = TableOut::new(alloc, BuildHasherDefault::<FoldHasher>::default());
    let mut group = Vec::new(alloc);
    if !view.fits() {
        return Ok(None);
    }
    EntityOut::new(alloc).put_relation(&mut group, &view, &mut table)?;
    Ok(Some(group))
}

fn is(group: Result<Option<Vec<u8>>, AllocError>, bytes: &[u8]) -> Result<bool, AllocError> {
    match group? {
        Some(group) => Ok(group.as_slice() == bytes),
        None => Ok(false),
    }
}

#[test]
fn one_call_an_entity(rt: HostRuntime) -> Result<(), Fail> {
    let way = is(
        way_group(rt.alloc()),
        b"\x1a\x07\x08\x07\x42\x03\x02\x02\x02",
    )?;
    let relation = is(
        relation_group(rt.alloc()),
        b"\x22\x0b\x08\x08\x42\x01\x01\x4a\x01\x02\x52\x01\x00",
    )?;
    assert!(rt; way && relation);
    Ok(())
}
