//! What no clause says: values from the format's examples, texts, and that each call can succeed.

use osm_entity::{
    BoundingBox, BoxFault, ColumnMembers, EntityRef, HIGHEST_WEIGHT, Locations, Member, MemberKind,
    Members, Meta, MetaRef, NodeRef, PairedTags, Refs, Relation, RelationRef, RunTags, Scale,
    SummedLocations, Tags, WayRef,
};
use pbf_strings::Table;
use pbf_wire::{Column, Span, Sums};
use std::alloc::{AllocError, Global};
use std::process::Abort;
use std::test::Fail;

const SCALE: Scale = Scale {
    granularity: 100,
    date_granularity: 1000,
    lat_offset: 0,
    lon_offset: 0,
};

/// The texts ``, `highway`, `stop` and `ann`.
const FOUR_TEXTS: [u8; 22] = [
    0x0a, 0x00, 0x0a, 0x07, 0x68, 0x69, 0x67, 0x68, 0x77, 0x61, 0x79, 0x0a, 0x04, 0x73, 0x74, 0x6f,
    0x70, 0x0a, 0x03, 0x61, 0x6e, 0x6e,
];

const NO_META: MetaRef = MetaRef {
    version: None,
    timestamp: None,
    changeset: None,
    uid: None,
    user: None,
    visible: None,
};

fn four_texts<'a>(rt: &impl Abort, alloc: Global) -> Table<'a> {
    match Table::read(alloc, &FOUR_TEXTS, 0, 0) {
        Ok(table) => table,
        Err(_) => panic!(rt; "the table is refused"),
    }
}

/// Whether the text gives this box, or this fault.
fn gives(text: &str, outcome: Result<BoundingBox, BoxFault>) -> bool {
    BoundingBox::parse(text) == outcome
}

fn is_box(text: &str) -> bool {
    BoundingBox::parse(text).is_ok()
}

#[test]
fn boxes_as_texts(rt: HostRuntime) {
    let area = BoundingBox {
        left: -500_000_000,
        bottom: 51_250_000_000,
        right: 300_000_000,
        top: 51_700_000_000,
    };
    assert!(rt; gives("-0.5,51.25,0.3,51.7", Ok(area)));
    assert!(rt; is_box("-180,-90,180,90") && is_box("0.000000999,0.000000999,001,1.000000000"));
}

#[test]
fn faulty_boxes(rt: HostRuntime) {
    for (text, fault) in [
        ("0,0,1", BoxFault::Shape),
        ("0,0,1,1,1", BoxFault::Shape),
        ("", BoxFault::Shape),
        ("0,0,1.,1", BoxFault::Digit),
        ("+0,0,1,1", BoxFault::Digit),
        ("--0,0,1,1", BoxFault::Digit),
        (".5,0,1,1", BoxFault::Digit),
        ("0,0,1,", BoxFault::Digit),
        ("0,0,0001,1", BoxFault::Digit),
        ("0,0,1.0000000001,1", BoxFault::Digit),
        ("0,0,1.0.0,1", BoxFault::Digit),
        ("0,0,181,1", BoxFault::Range),
        ("0,0,180.000000001,1", BoxFault::Range),
        ("-180.000000001,0,1,1", BoxFault::Range),
        ("0,-90.000000001,1,1", BoxFault::Range),
        ("0,0,1,90.000000001", BoxFault::Range),
        ("2,0,1,1", BoxFault::LeftOverRight),
        ("2,2,1,1", BoxFault::LeftOverRight),
        ("0,2,1,1", BoxFault::BottomOverTop),
    ] {
        assert!(rt; gives(text, Err(fault)), "at {text}");
    }
}

#[test]
fn places_at_each_edge(rt: HostRuntime) {
    let Ok(area) = BoundingBox::new(1, 2, 3, 4) else {
        panic!(rt; "the box is refused");
    };
    for (lat, lon) in [(2, 1), (2, 3), (4, 1), (4, 3), (3, 2)] {
        assert!(rt; area.contains(lat, lon), "at {lat} {lon}");
    }
    for (lat, lon) in [(1, 2), (5, 2), (3, 0), (3, 4)] {
        assert!(rt; !area.contains(lat, lon), "at {lat} {lon}");
    }
}

#[test]
fn boxes_within_boxes(rt: HostRuntime) {
    let area = BoundingBox {
        left: 1,
        bottom: 2,
        right: 3,
        top: 4,
    };
    assert!(rt; area.is_within(&area));
    let wider = [
        BoundingBox { left: 0, ..area },
        BoundingBox { bottom: 1, ..area },
        BoundingBox { right: 4, ..area },
        BoundingBox { top: 5, ..area },
    ];
    for other in &wider {
        assert!(rt; area.is_within(other) && !other.is_within(&area));
    }
    assert!(rt; !wider[0].is_within(&wider[1]) && !wider[1].is_within(&wider[0]));
}

#[test]
fn faults_by_their_names(rt: HostRuntime) -> Result<(), Fail> {
    for (fault, name) in [
        (BoxFault::Shape, "Shape"),
        (BoxFault::Digit, "Digit"),
        (BoxFault::Range, "Range"),
        (BoxFault::LeftOverRight, "LeftOverRight"),
        (BoxFault::BottomOverTop, "BottomOverTop"),
    ] {
        let text = fault.to_string(rt.alloc())?;
        assert_eq!(rt; text.as_str(), name);
    }
    Ok(())
}

/// A node without tags and metadata.
fn bare_node<'a>(lat: i64, lon: i64, scale: Scale) -> NodeRef<'a> {
    let tags = Tags::Owned(&[]);
    NodeRef::new(1, lat, lon, NO_META, tags, scale)
}

/// One node, stored 1 and 1, in units of 1000 nanodegrees, each counted from one below 0.
#[test]
fn a_node_at_the_corner(rt: HostRuntime) {
    let Ok(area) = BoundingBox::parse("0.000000999,0.000000999,1,1") else {
        panic!(rt; "the box is refused");
    };
    let scale = Scale {
        granularity: 1000,
        date_granularity: 1000,
        lat_offset: -1,
        lon_offset: -1,
    };
    let kept = bare_node(1, 1, scale);
    assert_eq!(rt; kept.nano_lat(), 999);
    assert_eq!(rt; kept.nano_lon(), 999);
    assert!(rt; area.contains(kept.nano_lat(), kept.nano_lon()));
    let scale = Scale {
        lat_offset: -2,
        ..scale
    };
    let dropped = bare_node(1, 1, scale);
    assert_eq!(rt; dropped.nano_lat(), 998);
    assert!(rt; !area.contains(dropped.nano_lat(), dropped.nano_lon()));
}

#[test]
fn the_greatest_stored_numbers(rt: HostRuntime) {
    let scale = Scale {
        granularity: i32::MAX,
        date_granularity: i32::MAX,
        lat_offset: i64::MAX,
        lon_offset: 0,
    };
    let most = (1 << 62) - 1;
    let node = bare_node(most, most, scale);
    assert_eq!(rt; node.nano_lat(), 9_903_520_318_894_728_215_472_898_048);
    assert_eq!(rt; node.nano_lon(), 9_903_520_309_671_356_178_618_122_241);
    assert!(rt; node.fits());
    assert!(rt; !bare_node(most + 1, 0, scale).fits());
    assert!(rt; !bare_node(0, -most - 1, scale).fits());
}

/// Whether `highway=stop` is the one tag.
fn is_stop(tags: Tags<'_>) -> bool {
    let mut tags = tags;
    tags.next() == Some((b"highway".as_slice(), b"stop".as_slice())) && tags.next().is_none()
}

/// Whether an entity weighs this, and can be written.
fn is_light(entity: EntityRef<'_>, weight: u64) -> bool {
    entity.weight() == weight && entity.fits()
}

/// Whether the metadata are those of [`a_dense_node`].
fn is_second_of_ann(meta: MetaRef<'_>) -> bool {
    meta.version == Some(2) && meta.user == Some(b"ann".as_slice()) && meta.visible.is_none()
}

/// Whether the node has the place of [`a_dense_node`].
fn is_placed(node: NodeRef<'_>) -> bool {
    node.id() == 1
        && node.lat() == 1
        && node.lon() == 1
        && node.nano_lat() == 100
        && node.nano_lon() == 100
        && node.scale() == SCALE
}

/// Whether the node is that of [`a_dense_node`].
fn is_dense_node(node: NodeRef<'_>) -> bool {
    is_placed(node)
        && is_second_of_ann(node.meta())
        && node.millis() == Some(1_234_567_890_000)
        && is_stop(EntityRef::Node(node).tags())
        && node.weight() == 206
        && node.fits()
        && is_light(EntityRef::Node(node), 206)
}

/// Whether a copy of the node with texts of its own is that of [`a_dense_node`].
fn copies_dense_node(alloc: Global, node: NodeRef<'_>) -> Result<bool, AllocError> {
    let owned = node.to_owned(alloc)?;
    Ok(is_dense_node(owned.view()))
}

/// The node of [`a_dense_node`].
fn dense_node<'a>(table: &'a Table<'a>) -> NodeRef<'a> {
    let run = Column::new(&[0x52, 0x03, 0x01, 0x02, 0x00], 0, 10);
    let meta = MetaRef {
        version: Some(2),
        timestamp: Some(1_234_567_890),
        user: table.get(3),
        ..NO_META
    };
    NodeRef::new(1, 1, 1, meta, Tags::Run(RunTags::new(run, table)), SCALE)
}

/// A node of version 2, of `ann`, at a time, with one tag, as a row of a dense message.
#[test]
fn a_dense_node(rt: HostRuntime) -> Result<(), Fail> {
    let table = four_texts(&rt, rt.alloc());
    let node = dense_node(&table);
    assert!(rt; is_dense_node(node) && copies_dense_node(rt.alloc(), node)?);
    Ok(())
}

/// The refs, latitudes and longitudes of a way, by their fields 8, 9 and 10.
const WAY: [u8; 15] = [
    0x42, 0x03, 0x02, 0x02, 0x02, 0x4a, 0x03, 0x02, 0x03, 0x04, 0x52, 0x03, 0x02, 0x00, 0x00,
];

fn way_column<'a>(number: u64) -> Column<'a> {
    Column::new(&WAY, 0, number)
}

fn way_sums<'a>(number: u64) -> Sums<'a> {
    Sums::new(way_column(number), 1 << 62)
}

/// How many refs of [`WAY`], which are 1, 2 and 3, come after the first and are below a number.
fn passed_below(below: i64) -> usize {
    let mut refs = Refs::Summed(way_sums(8));
    let _first = refs.next();
    refs.pass_inside(Span { above: 0, below })
}

#[test]
fn refs_below_a_number(rt: HostRuntime) {
    assert_eq!(rt; passed_below(2), 0);
    assert_eq!(rt; passed_below(3), 1);
    assert_eq!(rt; passed_below(9), 2);
}

/// Whether there are numbers, and they are those above one number and below another.
fn is_span(numbers: Option<Span>, above: i64, below: i64) -> bool {
    match numbers {
        Some(span) => span.above == above && span.below == below,
        None => false,
    }
}

#[test]
fn edges_in_stored_units(rt: HostRuntime) {
    let lats = SCALE.lat_span(47_050_000_050, 47_270_000_000);
    assert!(rt; is_span(lats, 470_500_000, 472_700_001));
    let lons = SCALE.lon_span(-180_000_000_000, 180_000_000_000);
    assert!(rt; is_span(lons, -1_800_000_001, 1_800_000_001));
}

#[test]
fn edges_in_units_of_no_usual_size(rt: HostRuntime) {
    let farthest = Scale {
        granularity: i32::MAX,
        lat_offset: 1 << 60,
        ..SCALE
    };
    assert!(rt; is_span(farthest.lat_span(1 << 60, 1 << 60), -1, 1));
    let beyond = Scale {
        lat_offset: (1 << 60) + 1,
        ..SCALE
    };
    assert!(rt; beyond.lat_span(0, 0).is_none());
}

/// A way whose refs, latitudes and longitudes are in these fields of [`WAY`].
fn way_in<'a>(table: &'a Table<'a>, refs: u64, lats: u64, lons: u64) -> WayRef<'a> {
    let tags = Tags::Paired(PairedTags::new(way_column(2), way_column(3), table));
    let places = Locations::Summed(SummedLocations::new(way_sums(lats), way_sums(lons)));
    WayRef::new(
        7,
        NO_META,
        tags,
        Refs::Summed(way_sums(refs)),
        places,
        SCALE,
    )
}

/// Whether the way's nodes are where those of [`WAY`] are, in nanodegrees.
fn is_located(way: WayRef<'_>) -> bool {
    let mut nanos = way.nano_locations();
    nanos.next() == Some((100, 100))
        && nanos.next() == Some((-100, 100))
        && nanos.next() == Some((100, 100))
        && nanos.next().is_none()
}

/// Whether the way is that of [`a_way_with_locations`].
fn is_way(way: WayRef<'_>) -> bool {
    let entity = EntityRef::Way(way);
    is_located(way)
        && way.id() == 7
        && entity.id() == 7
        && way.millis().is_none()
        && way.tags().next().is_none()
        && way.scale() == SCALE
        && entity.scale() == SCALE
        && way.weight() == 352
        && way.fits()
        && is_light(entity, 352)
}

/// Whether a copy of the way with lists of its own is that of [`a_way_with_locations`].
fn copies_way(alloc: Global, way: WayRef<'_>) -> Result<bool, AllocError> {
    let owned = way.to_owned(alloc)?;
    Ok(
        owned.refs.as_slice() == [1, 2, 3].as_slice()
            && owned.locations.as_slice() == [(1, 1), (-1, 1), (1, 1)].as_slice()
            && is_way(owned.view()),
    )
}

/// The nodes of a way at stored places 1 and 1, -1 and 1, 1 and 1.
#[test]
fn a_way_with_locations(rt: HostRuntime) -> Result<(), Fail> {
    let table = four_texts(&rt, rt.alloc());
    let way = way_in(&table, 8, 9, 10);
    assert!(rt; is_way(way) && copies_way(rt.alloc(), way)?);
    Ok(())
}

/// A way without locations fits, and one with only locations does not.
#[test]
fn a_way_without_locations(rt: HostRuntime) {
    let table = four_texts(&rt, rt.alloc());
    assert!(rt; way_in(&table, 8, 11, 11).fits() && !way_in(&table, 11, 9, 10).fits());
}

/// The tags, roles, ids and kinds of a relation, by their fields 2 and 3, 8, 9 and 10.
const RELATION: [u8; 18] = [
    0x12, 0x01, 0x01, 0x1a, 0x01, 0x02, 0x42, 0x02, 0x03, 0x00, 0x4a, 0x02, 0x0a, 0x04, 0x52, 0x02,
    0x01, 0x02,
];

fn relation_column<'a>(number: u64) -> Column<'a> {
    Column::new(&RELATION, 0, number)
}

fn relation_in<'a>(table: &'a Table<'a>) -> RelationRef<'a> {
    let ids = Sums::new(relation_column(9), 1 << 62);
    let (kinds, roles) = (relation_column(10), relation_column(8));
    let tags = PairedTags::new(relation_column(2), relation_column(3), table);
    let members = ColumnMembers::new(kinds, ids, roles, table);
    let (tags, members) = (Tags::Paired(tags), Members::Columns(members));
    RelationRef::new(8, NO_META, tags, members, SCALE)
}

/// Whether the next member is this one.
fn is_next(members: &mut Members<'_>, kind: MemberKind, id: i64, role: &[u8]) -> bool {
    match members.next() {
        Some(member) => member.kind == kind && member.id == id && member.role == role,
        None => false,
    }
}

/// Whether the members are those of [`RELATION`].
fn has_two_members(relation: RelationRef<'_>) -> bool {
    let mut members = relation.members();
    is_next(&mut members, MemberKind::Way, 5, b"ann")
        && is_next(&mut members, MemberKind::Relation, 7, b"")
        && members.next().is_none()
}

/// Whether the relation is that of [`RELATION`].
fn is_relation(relation: RelationRef<'_>) -> bool {
    let entity = EntityRef::Relation(relation);
    is_stop(entity.tags())
        && has_two_members(relation)
        && relation.id() == 8
        && entity.id() == 8
        && relation.millis().is_none()
        && relation.scale() == SCALE
        && entity.meta().version.is_none()
        && relation.weight() == 270
        && relation.fits()
        && is_light(entity, 270)
}

/// Whether a copy of the relation with lists of its own is that of [`RELATION`].
fn copies_relation(alloc: Global, relation: RelationRef<'_>) -> Result<bool, AllocError> {
    let owned = relation.to_owned(alloc)?;
    Ok(is_relation(owned.view()))
}

/// A way and a relation as members, the one with the role `ann`, and one tag.
#[test]
fn a_relation_of_two_members(rt: HostRuntime) -> Result<(), Fail> {
    let table = four_texts(&rt, rt.alloc());
    let relation = relation_in(&table);
    assert!(rt; is_relation(relation) && copies_relation(rt.alloc(), relation)?);
    Ok(())
}

/// A relation with a member of empty role, and a tag with a key of one byte and a value of this length.
fn heavy_relation(alloc: Global, length: usize) -> Result<Relation, AllocError> {
    let mut value = Vec::new(alloc);
    value.resize(length, b'v')?;
    let mut tags = Vec::new(alloc);
    tags.push((Vec::from_slice(alloc, b"k")?, value))?;
    let mut members = Vec::new(alloc);
    members.push(Member {
        kind: MemberKind::Node,
        id: 1,
        role: Vec::new(alloc),
    })?;
    Ok(Relation {
        id: 8,
        meta: Meta {
            version: None,
            timestamp: None,
            changeset: None,
            uid: None,
            user: None,
            visible: None,
        },
        tags,
        members,
        scale: SCALE,
    })
}

/// Whether a relation with a value of this length weighs this, and whether it can be written.
fn weighs(alloc: Global, length: usize, weight: u64, fits: bool) -> Result<bool, AllocError> {
    let relation = heavy_relation(alloc, length)?;
    let view = relation.view();
    Ok(view.weight() == weight && view.fits() == fits)
}

#[test]
fn the_greatest_weight(rt: HostRuntime) -> Result<(), Fail> {
    assert!(rt; weighs(rt.alloc(), 11_999_775, HIGHEST_WEIGHT, true)?);
    assert!(rt; weighs(rt.alloc(), 11_999_776, 12_000_001, false)?);
    Ok(())
}
