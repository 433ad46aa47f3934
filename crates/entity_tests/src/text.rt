//! What no clause says: that the calls succeed, and lines of the format's own examples.

use osm_entity::{EntityRef, Member, MemberKind, Meta, Node, Relation, Scale, Way};
use osm_text::{put_entity, put_header, put_header_members, put_number, put_quoted};
use pbf_header::{Header, HeaderBox};
use std::alloc::{AllocError, Global};
use std::process::Abort;
use std::test::Fail;

const SCALE: Scale = Scale {
    granularity: 100,
    date_granularity: 1_000,
    lat_offset: 0,
    lon_offset: 0,
};

fn nothing_known() -> Meta {
    Meta {
        version: None,
        timestamp: None,
        changeset: None,
        uid: None,
        user: None,
        visible: None,
    }
}

/// Compares the line of an entity.
fn is_line(
    rt: &(impl Abort + AllocGlobal),
    entity: &EntityRef<'_>,
    dates: bool,
    expected: &str,
) -> Result<(), Fail> {
    let mut line = Vec::new(rt.alloc());
    put_entity(&mut line, entity, dates)?;
    assert_eq!(rt; line.as_slice(), expected.as_bytes());
    Ok(())
}

#[test]
fn numbers(rt: HostRuntime) -> Result<(), Fail> {
    let mut text = Vec::from_slice(rt.alloc(), b"n")?;
    put_number(&mut text, 0)?;
    put_number(&mut text, u64::MAX)?;
    assert_eq!(rt; text.as_slice(), b"n018446744073709551615".as_slice());
    Ok(())
}

#[test]
fn texts(rt: HostRuntime) -> Result<(), Fail> {
    let mut text = Vec::new(rt.alloc());
    put_quoted(&mut text, b"")?;
    // A quotation mark, a backslash and a line end.
    put_quoted(&mut text, b"a\"\\\n")?;
    // UTF-8 with the byte 7f, and then bytes that are no UTF-8.
    put_quoted(&mut text, b"\xc3\xa9\x7f")?;
    put_quoted(&mut text, b"\xc3\xa9\xff")?;
    let expected = "\"\"\"a\\\"\\\\\\x0a\"\"é\\x7f\"\"\\xc3\\xa9\\xff\"";
    assert_eq!(rt; text.as_slice(), expected.as_bytes());
    Ok(())
}

/// A header that has nothing but these optional features.
fn featured(alloc: Global, optional: &[&[u8]]) -> Result<Header, AllocError> {
    let mut texts = Vec::new(alloc);
    for text in optional {
        texts.push(Vec::from_slice(alloc, text)?)?;
    }
    Ok(Header {
        bbox: None,
        required: Vec::new(alloc),
        optional: texts,
        program: None,
        source: None,
        url: None,
        timestamp: None,
        sequence: None,
    })
}

#[test]
fn texts_of_json(rt: HostRuntime) -> Result<(), Fail> {
    let features: [&[u8]; 4] = [b"", b"a\"\\\n", b"\xc3\xa9\x7f", b"\xc3\xa9\xff"];
    let header = featured(rt.alloc(), &features)?;
    let mut text = Vec::new(rt.alloc());
    put_header_members(&mut text, &header)?;
    let expected =
        "\"required\":[],\"optional\":[\"\",\"a\\\"\\\\\\u000a\",\"é\\u007f\",\"\\u00c3\\u00a9\\u00ff\"],";
    assert_eq!(rt; text.as_slice(), expected.as_bytes());
    Ok(())
}

#[test]
fn a_node_with_metadata(rt: HostRuntime) -> Result<(), Fail> {
    let mut tags = Vec::new(rt.alloc());
    tags.push((
        Vec::from_slice(rt.alloc(), b"highway")?,
        Vec::from_slice(rt.alloc(), b"stop")?,
    ))?;
    let meta = Meta {
        version: Some(2),
        timestamp: Some(1_234_567_890),
        changeset: None,
        uid: None,
        user: Some(Vec::from_slice(rt.alloc(), b"ann")?),
        visible: None,
    };
    let node = Node {
        id: 1,
        lat: 1,
        lon: 1,
        meta,
        tags,
        scale: SCALE,
    };
    let entity = EntityRef::Node(node.view());
    let plain = "N 1 100 100 v2 t1234567890000 s\"ann\" \"highway\"=\"stop\"\n";
    let dated = "N 1 100 100 v2 t2009-02-13T23:31:30.000Z s\"ann\" \"highway\"=\"stop\"\n";
    is_line(&rt, &entity, false, plain)?;
    is_line(&rt, &entity, true, dated)
}

#[test]
fn a_way_with_a_location(rt: HostRuntime) -> Result<(), Fail> {
    let mut locations = Vec::new(rt.alloc());
    locations.push((1, -1))?;
    let way = Way {
        id: 7,
        meta: nothing_known(),
        tags: Vec::new(rt.alloc()),
        refs: Vec::from_slice(rt.alloc(), &[1, 2])?,
        locations,
        scale: SCALE,
    };
    is_line(
        &rt,
        &EntityRef::Way(way.view()),
        false,
        "W 7 n1@100,-100 n2\n",
    )
}

#[test]
fn a_relation_with_a_member(rt: HostRuntime) -> Result<(), Fail> {
    let mut members = Vec::new(rt.alloc());
    members.push(Member {
        kind: MemberKind::Relation,
        id: -3,
        role: Vec::from_slice(rt.alloc(), b"outer")?,
    })?;
    let relation = Relation {
        id: 8,
        meta: nothing_known(),
        tags: Vec::new(rt.alloc()),
        members,
        scale: SCALE,
    };
    is_line(
        &rt,
        &EntityRef::Relation(relation.view()),
        false,
        "R 8 r-3@\"outer\"\n",
    )
}

/// One text.
fn one(alloc: Global, text: &[u8]) -> Result<Vec<Vec<u8>>, AllocError> {
    let mut texts = Vec::new(alloc);
    texts.push(Vec::from_slice(alloc, text)?)?;
    Ok(texts)
}

#[test]
fn a_header_with_every_field(rt: HostRuntime) -> Result<(), Fail> {
    let header = Header {
        bbox: Some(HeaderBox {
            left: 1,
            right: 3,
            top: 4,
            bottom: -2,
        }),
        required: one(rt.alloc(), b"DenseNodes")?,
        optional: one(rt.alloc(), b"Has_Metadata")?,
        program: Some(Vec::from_slice(rt.alloc(), b"p")?),
        source: Some(Vec::from_slice(rt.alloc(), b"s\"t")?),
        url: Some(Vec::from_slice(rt.alloc(), b"u")?),
        timestamp: Some(5),
        sequence: Some(7),
    };
    let expected =
        "H bbox 1 -2 3 4\nH required \"DenseNodes\"\nH optional \"Has_Metadata\"\nH program \"p\"\nH source \"s\\\"t\"\nH timestamp 5\nH sequence 7\nH url \"u\"\n";
    let mut text = Vec::new(rt.alloc());
    put_header(&mut text, &header)?;
    assert_eq!(rt; text.as_slice(), expected.as_bytes());
    let expected =
        "\"bbox\":[1,-2,3,4],\"required\":[\"DenseNodes\"],\"optional\":[\"Has_Metadata\"],\"program\":\"p\",\"source\":\"s\\\"t\",\"timestamp\":5,\"sequence\":7,\"url\":\"u\",";
    text.clear();
    put_header_members(&mut text, &header)?;
    assert_eq!(rt; text.as_slice(), expected.as_bytes());
    Ok(())
}
