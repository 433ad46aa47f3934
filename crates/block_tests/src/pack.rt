//! What no clause says: that the calls succeed, and the bytes of files that are known from the format's examples.

use osm_entity::{EntityRef, Member, MemberKind, Meta, Node, Relation, Scale, Way};
use osm_pack::Packer;
use pbf_block::Block;
use pbf_frame::{FrameKind, FrameReader, Pieces, Sink, Stop};
use pbf_header::Header;
use std::alloc::{AllocError, Global};
use std::hash::{BuildHasherDefault, FoldHasher};
use std::process::Abort;
use std::test::Fail;

const SCALE: Scale = Scale {
    granularity: 100,
    date_granularity: 1000,
    lat_offset: 0,
    lon_offset: 0,
};

/// The frame of a header that says nothing.
const HEADER: [u8; 56] =
    *b"\x00\x00\x00\x0d\x0a\x09OSMHeader\x18\x27\x0a\x25\x22\x0eOsmSchema-V0.6\x22\x0aDenseNodes\x82\x01\x06pbfcut";

/// The same, and the frame of way 7 through the nodes 1, 2 and 3.
const WAY_OF_THREE_REFS: [u8; 88] =
    *b"\x00\x00\x00\x0d\x0a\x09OSMHeader\x18\x27\x0a\x25\x22\x0eOsmSchema-V0.6\x22\x0aDenseNodes\x82\x01\x06pbfcut\x00\x00\x00\x0b\x0a\x07OSMData\x18\x11\x0a\x0f\x0a\x02\x0a\x00\x12\x09\x1a\x07\x08\x07\x42\x03\x02\x02\x02";

/// The frame of node 1, and of node 2 that is south of it.
const NODES_1_AND_2: [u8; 37] =
    *b"\x00\x00\x00\x0b\x0a\x07OSMData\x18\x16\x0a\x14\x0a\x02\x0a\x00\x12\x0e\x12\x0c\x0a\x02\x02\x02\x42\x02\x02\x03\x4a\x02\x02\x00";

/// An entity that a test packs, by plain numbers and texts.
#[derive(Clone, Copy)]
struct Sketch<'a> {
    kind: MemberKind,
    id: i64,
    /// Of a node; its longitude is 1.
    lat: i64,
    /// Of a way. A relation has one member, a node of no role.
    refs: &'a [i64],
    tag: Option<(&'a [u8], &'a [u8])>,
    version: Option<i32>,
    scale: Scale,
}

fn node(id: i64, lat: i64) -> Sketch<'static> {
    Sketch {
        kind: MemberKind::Node,
        id,
        lat,
        refs: &[],
        tag: None,
        version: None,
        scale: SCALE,
    }
}

fn tagged_node<'a>(id: i64, key: &'a [u8], value: &'a [u8]) -> Sketch<'a> {
    Sketch {
        tag: Some((key, value)),
        ..node(id, 1)
    }
}

/// Way 7 with these refs.
fn way(refs: &[i64]) -> Sketch<'_> {
    Sketch {
        kind: MemberKind::Way,
        refs,
        ..node(7, 1)
    }
}

/// A relation with a tag of this value.
fn relation(id: i64, value: &[u8]) -> Sketch<'_> {
    Sketch {
        kind: MemberKind::Relation,
        tag: Some((b"k", value)),
        ..node(id, 1)
    }
}

fn meta(sketch: &Sketch<'_>) -> Meta {
    Meta {
        version: sketch.version,
        timestamp: None,
        changeset: None,
        uid: None,
        user: None,
        visible: None,
    }
}

fn tags(alloc: Global, sketch: &Sketch<'_>) -> Result<Vec<(Vec<u8>, Vec<u8>)>, AllocError> {
    let mut tags = Vec::new(alloc);
    if let Some((key, value)) = sketch.tag {
        tags.push((Vec::from_slice(alloc, key)?, Vec::from_slice(alloc, value)?))?;
    }
    Ok(tags)
}

/// What packs in these tests.
type Packing = Packer<Sink, BuildHasherDefault<FoldHasher>>;

/// Packs an entity that can be packed.
fn push(rt: &impl Abort, packer: &mut Packing, entity: &EntityRef<'_>) -> Result<(), Stop> {
    if !packer.has_header() || !entity.fits() {
        panic!(rt; "the entity can't be packed");
    }
    packer.push(entity)
}

fn push_node(
    rt: &(impl Abort + AllocGlobal),
    packer: &mut Packing,
    sketch: &Sketch<'_>,
) -> Result<Result<(), Stop>, AllocError> {
    let alloc = rt.alloc();
    let node = Node {
        id: sketch.id,
        lat: sketch.lat,
        lon: 1,
        meta: meta(sketch),
        tags: tags(alloc, sketch)?,
        scale: sketch.scale,
    };
    Ok(push(rt, packer, &EntityRef::Node(node.view())))
}

fn push_way(
    rt: &(impl Abort + AllocGlobal),
    packer: &mut Packing,
    sketch: &Sketch<'_>,
) -> Result<Result<(), Stop>, AllocError> {
    let alloc = rt.alloc();
    let way = Way {
        id: sketch.id,
        meta: meta(sketch),
        tags: tags(alloc, sketch)?,
        refs: Vec::from_slice(alloc, sketch.refs)?,
        locations: Vec::new(alloc),
        scale: sketch.scale,
    };
    Ok(push(rt, packer, &EntityRef::Way(way.view())))
}

fn made_relation(alloc: Global, sketch: &Sketch<'_>) -> Result<Relation, AllocError> {
    let mut members = Vec::new(alloc);
    members.push(Member {
        kind: MemberKind::Node,
        id: 1,
        role: Vec::new(alloc),
    })?;
    Ok(Relation {
        id: sketch.id,
        meta: meta(sketch),
        tags: tags(alloc, sketch)?,
        members,
        scale: sketch.scale,
    })
}

fn push_relation(
    rt: &(impl Abort + AllocGlobal),
    packer: &mut Packing,
    sketch: &Sketch<'_>,
) -> Result<Result<(), Stop>, AllocError> {
    let relation = made_relation(rt.alloc(), sketch)?;
    Ok(push(rt, packer, &EntityRef::Relation(relation.view())))
}

fn weighs(alloc: Global, sketch: &Sketch<'_>, weight: u64) -> Result<bool, AllocError> {
    Ok(made_relation(alloc, sketch)?.view().weight() == weight)
}

/// Makes an entity and packs it; an error if it can't be made for want of memory.
fn push_sketch(
    rt: &(impl Abort + AllocGlobal),
    packer: &mut Packing,
    sketch: &Sketch<'_>,
) -> Result<Result<(), Stop>, AllocError> {
    match sketch.kind {
        MemberKind::Node => push_node(rt, packer, sketch),
        MemberKind::Way => push_way(rt, packer, sketch),
        MemberKind::Relation => push_relation(rt, packer, sketch),
    }
}

/// A packer that put a header which says nothing.
fn begun(alloc: Global, sink: Sink) -> (Result<(), Stop>, Packing) {
    let header = Header {
        bbox: None,
        required: Vec::new(alloc),
        optional: Vec::new(alloc),
        program: None,
        source: None,
        url: None,
        timestamp: None,
        sequence: None,
    };
    let mut packer = Packer::new(alloc, sink, BuildHasherDefault::new());
    (packer.put_header(&header), packer)
}

/// After a stop each later call returns the same.
fn stays(rt: &impl Abort, before: Result<(), Stop>, next: Result<(), Stop>) {
    if before.is_err() {
        assert_eq!(rt; next, before);
    }
}

/// Packs these entities.
fn push_all(
    rt: &(impl Abort + AllocGlobal),
    packer: &mut Packing,
    first: Result<(), Stop>,
    sketches: &[Sketch<'_>],
) -> Result<(), Stop> {
    let mut outcome = first;
    for sketch in sketches {
        let next = push_sketch(rt, packer, sketch)?;
        stays(rt, outcome, next);
        outcome = next;
    }
    outcome
}

fn finish(rt: &impl Abort, packer: &mut Packing) -> Result<(), Stop> {
    if !packer.has_header() {
        panic!(rt; "there is no header");
    }
    packer.finish()
}

/// Packs a header that says nothing and these entities.
fn packed(
    rt: &(impl Abort + AllocGlobal),
    sink: Sink,
    sketches: &[Sketch<'_>],
) -> (Result<(), Stop>, Sink) {
    let (first, mut packer) = begun(rt.alloc(), sink);
    let outcome = push_all(rt, &mut packer, first, sketches);
    let next = finish(rt, &mut packer);
    stays(rt, outcome, next);
    (next, packer.into_drain())
}

/// Whether these entities come to these frames after the header.
fn come_to(
    rt: &(impl Abort + AllocGlobal),
    sketches: &[Sketch<'_>],
    frames: &[u8],
) -> Result<bool, Stop> {
    let (outcome, sink) = packed(rt, Sink::new(rt.alloc(), 1_024, 0)?, sketches);
    outcome?;
    Ok(sink.bytes().starts_with(&HEADER) && sink.bytes().get(HEADER.len()..) == Some(frames))
}

/// Packs these entities, which come to these frames after the header.
fn packs(
    rt: &(impl Abort + AllocGlobal),
    sketches: &[Sketch<'_>],
    frames: &[u8],
) -> Result<(), Fail> {
    assert!(rt; come_to(rt, sketches, frames)?);
    Ok(())
}

/// The ids of the entities in a file, with a 0 after those of each block.
fn ids(alloc: Global, file: &[u8]) -> Result<Vec<i64>, Stop> {
    let mut reader = FrameReader::new(alloc, Pieces::new(file, &[], None));
    let mut ids = Vec::new(alloc);
    for _ in 0..8 {
        let Some(frame) = reader.next()? else {
            break;
        };
        if frame.kind == FrameKind::Data {
            let block = Block::read(alloc, frame.payload, frame.payload_at)?;
            for entity in block.entities() {
                ids.push(entity.id())?;
            }
            ids.push(0)?;
        }
    }
    Ok(ids)
}

/// Whether these entities, packed into so much room, come to blocks of these ids.
fn have_ids(
    rt: &(impl Abort + AllocGlobal),
    room: usize,
    sketches: &[Sketch<'_>],
    wanted: &[i64],
) -> Result<bool, Stop> {
    let (outcome, sink) = packed(rt, Sink::new(rt.alloc(), room, 0)?, sketches);
    outcome?;
    Ok(ids(rt.alloc(), sink.bytes())?.as_slice() == wanted)
}

/// Two nodes of one block have one table, which has a text of both only once.
#[test]
fn two_nodes_with_a_text_in_common(rt: HostRuntime) -> Result<(), Fail> {
    packs(
        &rt,
        &[tagged_node(1, b"a", b"b"), tagged_node(2, b"b", b"c")],
        b"\x00\x00\x00\x0b\x0a\x07OSMData\x18\x27\x0a\x25\x0a\x0b\x0a\x00\x0a\x01a\x0a\x01b\x0a\x01c\x12\x16\x12\x14\x0a\x02\x02\x02\x42\x02\x02\x00\x4a\x02\x02\x00\x52\x06\x01\x02\x00\x02\x03\x00",
    )
}

/// The text `b` is the second of the node's block and the first of the way's.
#[test]
fn node_and_way_with_a_text_in_common(rt: HostRuntime) -> Result<(), Fail> {
    let way = Sketch {
        tag: Some((b"b", b"b")),
        ..way(&[])
    };
    packs(
        &rt,
        &[tagged_node(1, b"a", b"b"), way],
        b"\x00\x00\x00\x0b\x0a\x07OSMData\x18\x1e\x0a\x1c\x0a\x08\x0a\x00\x0a\x01a\x0a\x01b\x12\x10\x12\x0e\x0a\x01\x02\x42\x01\x02\x4a\x01\x02\x52\x03\x01\x02\x00\x00\x00\x00\x0b\x0a\x07OSMData\x18\x15\x0a\x13\x0a\x05\x0a\x00\x0a\x01b\x12\x0a\x1a\x08\x08\x07\x12\x01\x01\x1a\x01\x01",
    )
}

/// The second has a version, so that no two of them share a block.
#[test]
fn three_nodes_of_which_the_second_has_a_version(rt: HostRuntime) -> Result<(), Fail> {
    let second = Sketch {
        version: Some(1),
        ..node(2, 1)
    };
    packs(
        &rt,
        &[node(1, 1), second, node(3, 1)],
        b"\x00\x00\x00\x0b\x0a\x07OSMData\x18\x13\x0a\x11\x0a\x02\x0a\x00\x12\x0b\x12\x09\x0a\x01\x02\x42\x01\x02\x4a\x01\x02\x00\x00\x00\x0b\x0a\x07OSMData\x18\x18\x0a\x16\x0a\x02\x0a\x00\x12\x10\x12\x0e\x0a\x01\x04\x2a\x03\x0a\x01\x01\x42\x01\x02\x4a\x01\x02\x00\x00\x00\x0b\x0a\x07OSMData\x18\x13\x0a\x11\x0a\x02\x0a\x00\x12\x0b\x12\x09\x0a\x01\x06\x42\x01\x02\x4a\x01\x02",
    )
}

/// Way 7 through the nodes 1, 2 and 3, and two of these.
fn way_and_nodes() -> [Sketch<'static>; 3] {
    [way(&[1, 2, 3]), node(1, 1), node(2, -1)]
}

#[test]
fn other_kinds_and_scales_between_nodes(rt: HostRuntime) -> Result<(), Fail> {
    let scale = Scale {
        date_granularity: 1,
        ..SCALE
    };
    let second = Sketch {
        scale,
        ..node(2, 1)
    };
    let sketches = [
        node(1, 1),
        way(&[1]),
        node(3, 1),
        second,
        node(3, 1),
        node(1, 1),
    ];
    let wanted = [1, 0, 7, 0, 3, 0, 2, 0, 3, 1, 0];
    assert!(rt; have_ids(&rt, 1_024, &sketches, &wanted)?);
    Ok(())
}

#[test]
fn nodes_8000_and_8001(rt: HostRuntime) -> Result<(), Fail> {
    let mut sketches = Vec::new(rt.alloc());
    sketches.resize(8_000, node(1, 1))?;
    let mut wanted = Vec::new(rt.alloc());
    wanted.resize(8_000, 1)?;
    wanted.push(0)?;
    assert!(rt; have_ids(&rt, 40_000, &sketches, &wanted)?);
    sketches.push(node(1, 1))?;
    wanted.extend_from_slice(&[1, 0])?;
    assert!(rt; have_ids(&rt, 40_000, &sketches, &wanted)?);
    Ok(())
}

/// The second relation weighs 12,000,000, as much as a block may.
#[test]
fn relation_of_the_greatest_weight(rt: HostRuntime) -> Result<(), Fail> {
    let mut value = Vec::new(rt.alloc());
    value.resize(11_999_775, b'v')?;
    let heavy = relation(2, &value);
    assert!(rt; weighs(rt.alloc(), &heavy, 12_000_000)?);
    let sketches = [relation(1, b""), heavy, relation(1, b""), relation(1, b"")];
    assert!(rt; have_ids(&rt, 12_001_000, &sketches, &[1, 0, 2, 0, 1, 1, 0])?);
    Ok(())
}

/// Whether a sink of so much room takes the first bytes that fit, and then no more.
fn takes_prefix(rt: &(impl Abort + AllocGlobal), room: usize, whole: &[u8]) -> Result<bool, Stop> {
    let (outcome, sink) = packed(rt, Sink::new(rt.alloc(), room, 0)?, &way_and_nodes());
    Ok(outcome == Err(Stop::Write) && Some(sink.bytes()) == whole.get(..room))
}

/// Whether a sink that takes a byte a write takes all.
fn takes_all(rt: &(impl Abort + AllocGlobal), whole: &[u8]) -> Result<bool, Stop> {
    let (outcome, sink) = packed(rt, Sink::new(rt.alloc(), 200, 1)?, &way_and_nodes());
    Ok(outcome == Ok(()) && sink.bytes() == whole)
}

#[test]
fn write_fails_after_each_byte(rt: HostRuntime) -> Result<(), Fail> {
    let mut whole = Vec::from_slice(rt.alloc(), &WAY_OF_THREE_REFS)?;
    whole.extend_from_slice(&NODES_1_AND_2)?;
    for room in 0..whole.len() {
        assert!(rt; takes_prefix(&rt, room, &whole)?);
    }
    assert!(rt; takes_all(&rt, &whole)?);
    Ok(())
}
