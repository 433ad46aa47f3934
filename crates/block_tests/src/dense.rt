//! What no clause says: values from the format's examples, places in a file, and that each call can succeed.

use osm_entity::{BoundingBox, MetaRef, NodeRef, Scale};
use pbf_dense::{Dense, Phase};
use pbf_strings::Table;
use pbf_wire::{Fault, Message, Reason};
use std::alloc::{AllocError, Global};
use std::process::Abort;
use std::test::Fail;

const SCALE: Scale = Scale {
    granularity: 100,
    date_granularity: 1000,
    lat_offset: 0,
    lon_offset: 0,
};

/// The texts ``, `highway`, `stop` and `ann`.
const FOUR_TEXTS: [u8; 22] = *b"\x0a\x00\x0a\x07highway\x0a\x04stop\x0a\x03ann";

/// Three nodes, in three columns.
const THREE_NODES: [u8; 15] = *b"\x0a\x03\x14\x02\x08\x42\x03\x02\x03\x04\x4a\x03\x02\x00\x00";

const THREE_PLACES: [(i64, i64, i64); 3] = [(10, 1, 1), (11, -1, 1), (15, 1, 1)];

/// The offsets, in the file of these tests, of the field of a dense message and of the first byte of the message.
const TAG: u64 = 62;

const AT: u64 = 64;

fn table_of<'a>(rt: &impl Abort, alloc: Global, message: &'a [u8]) -> Table<'a> {
    if message.len() >= 1 << 20 {
        panic!(rt; "the table is too long");
    }
    match Table::read(alloc, message, 38, 36) {
        Ok(table) => table,
        Err(_) => panic!(rt; "the table is refused"),
    }
}

fn read<'a>(rt: &impl Abort, dense: &'a [u8], table: &'a Table<'a>) -> Dense<'a> {
    if dense.len() >= 1 << 20 {
        panic!(rt; "the message is too long");
    }
    match Dense::read(dense, AT, TAG, table, SCALE) {
        Ok(dense) => dense,
        Err(_) => panic!(rt; "the message is refused"),
    }
}

/// The fault that the message is refused with.
fn refusal(rt: &impl Abort, dense: &[u8], table: &Table<'_>) -> Option<Fault> {
    if dense.len() >= 1 << 20 {
        panic!(rt; "the message is too long");
    }
    Dense::read(dense, AT, TAG, table, SCALE).err()
}

const fn at(offset: u64, reason: Reason) -> Option<Fault> {
    Some(Fault { offset, reason })
}

/// Whether the node has this id and these stored coordinates.
fn stands_at(node: NodeRef<'_>, place: (i64, i64, i64)) -> bool {
    node.id() == place.0 && node.lat() == place.1 && node.lon() == place.2
}

/// Whether the nodes have these ids and stored coordinates, and there are no others.
fn stand_at(nodes: Dense<'_>, places: &[(i64, i64, i64)]) -> bool {
    let mut nodes = nodes;
    for place in places {
        let Some(node) = nodes.next() else {
            return false;
        };
        if !stands_at(node, *place) {
            return false;
        }
    }
    nodes.next().is_none()
}

/// The keys and values of all nodes, and after each node's a line.
fn tags(alloc: Global, nodes: Dense<'_>) -> Result<Vec<u8>, AllocError> {
    let mut text = Vec::new(alloc);
    for node in nodes {
        for (key, value) in node.tags() {
            text.extend_from_slice(key)?;
            text.push(b'=')?;
            text.extend_from_slice(value)?;
            text.push(b' ')?;
        }
        text.push(b'/')?;
    }
    Ok(text)
}

/// Whether these are the tags of all nodes, as [`tags`] puts them.
fn are_tagged(alloc: Global, nodes: Dense<'_>, text: &[u8]) -> Result<bool, AllocError> {
    Ok(tags(alloc, nodes)?.as_slice() == text)
}

fn meta<'a>(rt: &impl Abort, nodes: Dense<'a>) -> MetaRef<'a> {
    let mut nodes = nodes;
    match nodes.next() {
        Some(node) => node.meta(),
        None => panic!(rt; "there is no node"),
    }
}

#[test]
fn three_nodes(rt: HostRuntime) -> Result<(), Fail> {
    let table = table_of(&rt, rt.alloc(), &FOUR_TEXTS);
    let nodes = read(&rt, &THREE_NODES, &table);
    assert!(rt; stand_at(nodes, &THREE_PLACES) && are_tagged(rt.alloc(), nodes, b"///")?);
    Ok(())
}

#[test]
fn three_nodes_without_metadata(rt: HostRuntime) {
    let table = table_of(&rt, rt.alloc(), &FOUR_TEXTS);
    assert_eq!(rt; meta(&rt, read(&rt, &THREE_NODES, &table)).version, None);
}

#[test]
fn ids_in_a_box(rt: HostRuntime) {
    let table = table_of(&rt, rt.alloc(), &FOUR_TEXTS);
    let area = BoundingBox {
        left: 100,
        bottom: 0,
        right: 100,
        top: 100,
    };
    let Some(mut ids) = read(&rt, &THREE_NODES, &table).ids_within(&area) else {
        panic!(rt; "the box has no stored edges");
    };
    assert_eq!(rt; ids.next(), Some(10));
    assert_eq!(rt; ids.next(), Some(15));
    assert_eq!(rt; ids.next(), None);
}

#[test]
fn an_id_column_in_three_occurrences(rt: HostRuntime) {
    let table = table_of(&rt, rt.alloc(), &FOUR_TEXTS);
    let message = b"\x0a\x01\x14\x0a\x01\x02\x08\x08\x42\x03\x02\x03\x04\x4a\x03\x02\x00\x00";
    assert!(rt; stand_at(read(&rt, message, &table), &THREE_PLACES));
}

#[test]
fn ids_at_both_limits(rt: HostRuntime) {
    let table = table_of(&rt, rt.alloc(), &FOUR_TEXTS);
    let message =
        b"\x0a\x1b\xfd\xff\xff\xff\xff\xff\xff\xff\x7f\xfe\xff\xff\xff\xff\xff\xff\xff\x7f\xfe\xff\xff\xff\xff\xff\xff\xff\x7f\x42\x03\x02\x03\x04\x4a\x03\x02\x00\x00";
    let most = (1 << 62) - 1;
    let wanted = [(-most, 1, 1), (0, -1, 1), (most, 1, 1)];
    assert!(rt; stand_at(read(&rt, message, &table), &wanted));
}

/// The table has the empty text twice.
#[test]
fn a_key_that_is_empty(rt: HostRuntime) -> Result<(), Fail> {
    let table = table_of(
        &rt,
        rt.alloc(),
        b"\x0a\x00\x0a\x01a\x0a\x01b\x0a\x01c\x0a\x01d\x0a\x00",
    );
    let message = b"\x0a\x01\x02\x42\x01\x02\x4a\x01\x02\x52\x03\x05\x01\x00";
    let nodes = read(&rt, message, &table);
    assert!(rt; are_tagged(rt.alloc(), nodes, b"=a /")?);
    Ok(())
}

#[test]
fn a_time_before_1970(rt: HostRuntime) {
    let table = table_of(&rt, rt.alloc(), &FOUR_TEXTS);
    let message = b"\x0a\x01\x02\x42\x01\x02\x4a\x01\x02\x2a\x03\x12\x01\x01";
    let meta = meta(&rt, read(&rt, message, &table));
    assert!(rt; meta.timestamp == Some(-1) && meta.version.is_none());
}

/// Whether the metadata are those of [`metadata_at_its_limits`].
fn is_at_its_limits(meta: MetaRef<'_>) -> bool {
    meta.version == Some(-1)
        && meta.changeset == Some((1 << 62) - 1)
        && meta.uid == Some(-1_073_741_823)
        && meta.visible == Some(false)
}

/// A version of which the low 32 bits are -1, the greatest changeset, the least uid, and an entity that isn't visible.
#[test]
fn metadata_at_its_limits(rt: HostRuntime) {
    let table = table_of(&rt, rt.alloc(), &FOUR_TEXTS);
    let message =
        b"\x0a\x01\x02\x2a\x1b\x0a\x05\xff\xff\xff\xff\x0f\x1a\x09\xfe\xff\xff\xff\xff\xff\xff\xff\x7f\x22\x05\xfd\xff\xff\xff\x07\x30\x00\x42\x01\x04\x4a\x01\x06";
    assert!(rt; is_at_its_limits(meta(&rt, read(&rt, message, &table))));
}

#[test]
fn tags_in_runs(rt: HostRuntime) -> Result<(), Fail> {
    let table = table_of(&rt, rt.alloc(), &FOUR_TEXTS);
    for (message, wanted) in [
        // no tags, and two nodes without a tag
        (
            b"\x0a\x02\x02\x02\x42\x02\x02\x00\x4a\x02\x02\x00".as_slice(),
            b"//".as_slice(),
        ),
        (
            b"\x0a\x02\x02\x02\x42\x02\x02\x00\x4a\x02\x02\x00\x52\x02\x00\x00",
            b"//",
        ),
        // a 0 in value place, a tag that comes again, the last text
        (
            b"\x0a\x01\x02\x42\x01\x04\x4a\x01\x06\x52\x03\x01\x00\x00",
            b"highway= /",
        ),
        (
            b"\x0a\x01\x02\x42\x01\x02\x4a\x01\x02\x52\x07\x01\x02\x01\x02\x01\x01\x00",
            b"highway=stop highway=stop highway=highway /",
        ),
        (
            b"\x0a\x01\x02\x42\x01\x04\x4a\x01\x06\x52\x03\x01\x03\x00",
            b"highway=ann /",
        ),
        // 2^32 in key place, and 2^32 + 1
        (
            b"\x0a\x01\x02\x42\x01\x02\x4a\x01\x02\x52\x07\x01\x02\x80\x80\x80\x80\x10",
            b"highway=stop /",
        ),
        (
            b"\x0a\x01\x02\x42\x01\x04\x4a\x01\x06\x52\x07\x81\x80\x80\x80\x10\x02\x00",
            b"highway=stop /",
        ),
        // single numbers, and a run over two occurrences; the second node has the tag
        (
            b"\x0a\x02\x02\x02\x42\x02\x02\x00\x4a\x02\x02\x00\x50\x00\x52\x01\x01\x50\x02\x50\x00",
            b"/highway=stop /",
        ),
    ] {
        let nodes = read(&rt, message, &table);
        assert!(rt; are_tagged(rt.alloc(), nodes, wanted)?);
    }
    Ok(())
}

#[test]
fn wire_faults(rt: HostRuntime) {
    let table = table_of(&rt, rt.alloc(), &FOUR_TEXTS);
    for (message, fault) in [
        (
            b"\x0d\x00\x00\x00\x00\x42\x01\x04\x4a\x01\x06".as_slice(),
            at(64, Reason::WrongType),
        ),
        (
            b"\x0a\x01\x02\x42\x01\x84\x4a\x01\x06",
            at(67, Reason::VarintCut),
        ),
        // in the DenseInfo
        (
            b"\x0a\x01\x02\x42\x01\x04\x4a\x01\x06\x2a\x02\x0d\x00",
            at(75, Reason::FixedCut),
        ),
        (
            b"\x0a\x01\x02\x42\x01\x04\x4a\x01\x06\x2a\x03\x12\x01\x80",
            at(75, Reason::VarintCut),
        ),
        (
            b"\x0a\x01\x02\x42\x01\x04\x4a\x01\x06\x28\x01",
            at(73, Reason::WrongType),
        ),
        // before tags that aren't of their form
        (
            b"\x0a\x01\x02\x42\x01\x04\x52\x01\x01\x4d\x00\x00\x00\x00",
            at(73, Reason::WrongType),
        ),
        (
            b"\x0a\x03\x14\x02\x08\x42\x03\x02\x03\x04\x4a\x03\x02\x00\x80",
            at(74, Reason::VarintCut),
        ),
    ] {
        assert_eq!(rt; refusal(&rt, message, &table), fault);
    }
}

#[test]
fn faults_of_structure(rt: HostRuntime) {
    let table = table_of(&rt, rt.alloc(), &FOUR_TEXTS);
    for (message, fault) in [
        // a column of another count
        (
            b"\x0a\x03\x94\x02\x08\x42\x03\x02\x03\x04\x4a\x03\x02\x00\x00".as_slice(),
            at(62, Reason::ColumnLengths),
        ),
        (
            b"\x0a\x01\x02\x42\x02\x04\x00\x4a\x01\x06",
            at(62, Reason::ColumnLengths),
        ),
        (b"\x0a\x01\x02\x42\x01\x04", at(62, Reason::ColumnLengths)),
        // two nodes with one 0, and one with two
        (
            b"\x0a\x02\x02\x02\x42\x02\x02\x00\x4a\x02\x02\x00\x52\x01\x00",
            at(62, Reason::KeysVals),
        ),
        (
            b"\x0a\x01\x02\x42\x01\x04\x4a\x01\x06\x52\x02\x00\x00",
            at(62, Reason::KeysVals),
        ),
        // no 0, a key without a value, tags after the last 0, and tags of no nodes
        (
            b"\x0a\x01\x02\x42\x01\x04\x4a\x01\x06\x52\x02\x01\x02",
            at(62, Reason::KeysVals),
        ),
        (
            b"\x0a\x01\x02\x42\x01\x04\x4a\x01\x06\x52\x01\x01",
            at(62, Reason::KeysVals),
        ),
        (
            b"\x0a\x01\x02\x42\x01\x04\x4a\x01\x06\x52\x03\x00\x01\x02",
            at(62, Reason::KeysVals),
        ),
        (b"\x52\x01\x00", at(62, Reason::KeysVals)),
        // more than one DenseInfo, the first of two with a version too many
        (
            b"\x0a\x01\x02\x42\x01\x04\x4a\x01\x06\x2a\x03\x0a\x01\x02\x2a\x03\x0a\x01\x03",
            at(78, Reason::TwiceMessage),
        ),
        (
            b"\x0a\x01\x02\x42\x01\x04\x4a\x01\x06\x2a\x00\x2a\x00\x2a\x00",
            at(75, Reason::TwiceMessage),
        ),
        (
            b"\x0a\x01\x02\x42\x01\x04\x4a\x01\x06\x2a\x04\x0a\x02\x02\x02\x2a\x03\x0a\x01\x02",
            at(73, Reason::ColumnLengths),
        ),
        // before a longitude out of range
        (
            b"\x0a\x01\x02\x42\x01\x04\x4a\x0a\x80\x80\x80\x80\x80\x80\x80\x80\x80\x01\x52\x01\x01",
            at(62, Reason::KeysVals),
        ),
    ] {
        assert_eq!(rt; refusal(&rt, message, &table), fault);
    }
}

#[test]
fn faults_of_values(rt: HostRuntime) {
    let table = table_of(&rt, rt.alloc(), &FOUR_TEXTS);
    for (message, fault) in [
        // an id of 2^62, by itself and as a sum, a latitude in the second occurrence, a longitude
        (
            b"\x0a\x0a\x80\x80\x80\x80\x80\x80\x80\x80\x80\x01\x42\x01\x02\x4a\x01\x02".as_slice(),
            at(64, Reason::OutOfRange),
        ),
        (
            b"\x0a\x09\xfe\xff\xff\xff\xff\xff\xff\xff\x7f\x08\x02\x42\x02\x04\x00\x4a\x02\x06\x00",
            at(75, Reason::OutOfRange),
        ),
        (
            b"\x0a\x02\x02\x02\x42\x09\xfe\xff\xff\xff\xff\xff\xff\xff\x7f\x40\x02\x4a\x02\x06\x00",
            at(79, Reason::OutOfRange),
        ),
        (
            b"\x0a\x01\x02\x42\x01\x04\x4a\x0a\x80\x80\x80\x80\x80\x80\x80\x80\x80\x01\x52\x03\x05\x05\x00\x2a\x03\x0a\x01\x02",
            at(70, Reason::OutOfRange),
        ),
        // a key, a value and a user that the table of four has no text for
        (
            b"\x0a\x01\x02\x42\x01\x04\x4a\x01\x06\x52\x03\x04\x01\x00",
            at(73, Reason::StringIndex),
        ),
        (
            b"\x0a\x01\x02\x42\x01\x04\x4a\x01\x06\x50\x01\x50\x04\x50\x00",
            at(75, Reason::StringIndex),
        ),
        (
            b"\x0a\x01\x02\x42\x01\x04\x4a\x01\x06\x2a\x03\x2a\x01\x08",
            at(75, Reason::StringIndex),
        ),
        // a value and a user below 0
        (
            b"\x0a\x01\x02\x42\x01\x04\x4a\x01\x06\x52\x0c\x01\xff\xff\xff\xff\xff\xff\xff\xff\xff\x01\x00",
            at(73, Reason::StringIndex),
        ),
        (
            b"\x0a\x01\x02\x42\x01\x04\x4a\x01\x06\x2a\x03\x2a\x01\x01",
            at(75, Reason::StringIndex),
        ),
        // uids of 2^30 and its negative, a time of 2^62, a changeset of -2^62
        (
            b"\x0a\x01\x02\x42\x01\x04\x4a\x01\x06\x2a\x07\x22\x05\x80\x80\x80\x80\x08",
            at(75, Reason::OutOfRange),
        ),
        (
            b"\x0a\x01\x02\x42\x01\x04\x4a\x01\x06\x2a\x07\x22\x05\xff\xff\xff\xff\x07",
            at(75, Reason::OutOfRange),
        ),
        (
            b"\x0a\x01\x02\x42\x01\x04\x4a\x01\x06\x2a\x0c\x12\x0a\x80\x80\x80\x80\x80\x80\x80\x80\x80\x01",
            at(75, Reason::OutOfRange),
        ),
        (
            b"\x0a\x01\x02\x42\x01\x04\x4a\x01\x06\x2a\x0c\x1a\x0a\xff\xff\xff\xff\xff\xff\xff\xff\xff\x00",
            at(75, Reason::OutOfRange),
        ),
        // a user before a key, by their places
        (
            b"\x0a\x01\x02\x42\x01\x04\x4a\x01\x06\x2a\x03\x2a\x01\x08\x52\x03\x05\x01\x00",
            at(75, Reason::StringIndex),
        ),
    ] {
        assert_eq!(rt; refusal(&rt, message, &table), fault);
    }
}

/// Whether this is the first fault of this one phase.
fn finds(message: &[u8], phase: Phase, table: &Table<'_>, fault: Option<Fault>) -> bool {
    message.len() < 1 << 20 && Dense::judge(message, AT, TAG, phase, table).err() == fault
}

/// Whether no node is read, if nothing is judged.
fn gives_nothing(message: &[u8], table: &Table<'_>) -> bool {
    if message.len() >= 1 << 20 {
        return false;
    }
    let message = Message {
        bytes: message,
        at: AT,
    };
    let mut nodes = Dense::over(message, table, SCALE);
    nodes.next().is_none()
}

/// A latitude too many, a key that names no text and an id out of range.
#[test]
fn each_phase_by_itself(rt: HostRuntime) {
    let table = table_of(&rt, rt.alloc(), &FOUR_TEXTS);
    let message =
        b"\x0a\x0a\x80\x80\x80\x80\x80\x80\x80\x80\x80\x01\x42\x02\x04\x00\x4a\x01\x06\x52\x03\x04\x01\x00";
    let (counts, range) = (at(TAG, Reason::ColumnLengths), at(AT, Reason::OutOfRange));
    assert!(rt;
        finds(message, Phase::Wire, &table, None)
            && finds(message, Phase::Structure, &table, counts)
            && finds(message, Phase::Values, &table, range)
            && finds(message, Phase::Weights, &table, None)
            && gives_nothing(message, &table)
    );
}

/// A table of the empty text, one of 59,983 bytes, one of 40 and one of 41.
fn long_texts(alloc: Global) -> Result<Vec<u8>, AllocError> {
    let mut message = Vec::from_slice(alloc, b"\x0a\x00\x0a\xcf\xd4\x03")?;
    message.resize(6 + 59_983, b'x')?;
    message.extend_from_slice(b"\x0a\x28forty bytes are enough for the last node")?;
    message.extend_from_slice(b"\x0a\x29forty-one bytes are too many for the node")?;
    Ok(message)
}

/// A node with a hundred tags, each of the text 1 twice, and a user.
fn heavy_node(alloc: Global, user: u8) -> Result<Vec<u8>, AllocError> {
    let mut message = Vec::from_slice(alloc, b"\x0a\x01\x02\x2a\x03\x2a\x01")?;
    message.push(user)?;
    message.extend_from_slice(b"\x42\x01\x02\x4a\x01\x02\x52\xc9\x01")?;
    message.extend_from_slice(&[1; 200])?;
    message.push(0)?;
    Ok(message)
}

/// The fault that a heavy node by this user is refused with.
fn refusal_of_heavy(
    rt: &(impl Abort + AllocGlobal),
    user: u8,
    table: &Table<'_>,
) -> Result<Option<Fault>, AllocError> {
    let message = heavy_node(rt.alloc(), user)?;
    Ok(refusal(rt, &message, table))
}

#[test]
fn the_greatest_weight(rt: HostRuntime) -> Result<(), Fail> {
    let texts = long_texts(rt.alloc())?;
    let table = table_of(&rt, rt.alloc(), &texts);
    let too_heavy = at(TAG, Reason::EntityLarge);
    assert!(rt;
        refusal_of_heavy(&rt, 4, &table)?.is_none()
            && refusal_of_heavy(&rt, 6, &table)? == too_heavy
    );
    Ok(())
}
