//! What no clause says: values and bytes from the format's examples, and that each call can succeed.

use osm_entity::BoundingBox;
use pbf_header::{Header, HeaderBox, laws};
use pbf_wire::{Fault, ReadFault, Reason};
use std::alloc::{AllocError, Global};
use std::test::Fail;

/// The offset of the payload of a file's first frame, if that is short.
const AT: u64 = 19;

/// A header with every field; of some that count once there are two, and one is unknown.
const EVERY_FIELD: &[u8] = b"\
    \x22\x0eOsmSchema-V0.6\
    *\x0fLocationsOnWays\
    \x8a\x01\x05first\
    \x22\x0aDenseNodes\
    \x0a\x1a\x08\xff\x93\xeb\xdc\x03\x10\x80\x8c\x8d\x9e\x02\x18\x80\x94\xfb\x98\x81\x03\x20\x80\xc2\xe7\xeb\xfd\x02\
    *\x0cHas_Metadata\
    \x9a\x06\x07unknown\
    *\x03Foo\
    \x82\x01\x03one\
    *\x0cHas_Metadata\
    \x80\x02\x80\x80\x80\x80\x80\x80\x80\x80@\
    \x22\x0eOsmSchema-V0.6\
    \x8a\x01\x06second\
    \x88\x02\x87\x80\x80\x80\x10\
    \x92\x02\x08http://a\
    \x82\x01\x03two\
    \x80\x02\xfb\xff\xff\xff\xff\xff\xff\xff\xff\x01\
    *\x11Sort.Type_then_ID";

/// The box of [`EVERY_FIELD`].
const EVERY_BOX: HeaderBox = HeaderBox {
    left: -500_000_000,
    right: 300_000_000,
    top: 51_700_000_000,
    bottom: 51_250_000_000,
};

/// The required features of a written header.
const WRITTEN_REQUIRED: [&[u8]; 2] = [b"OsmSchema-V0.6", b"DenseNodes"];

/// Whether the texts are these.
fn are(texts: &[Vec<u8>], expected: &[&[u8]]) -> bool {
    texts.len() == expected.len()
        && texts
            .iter()
            .zip(expected.iter())
            .all(|(text, other)| text.as_slice() == *other)
}

/// Whether the text is this, or whether both are absent.
fn is(text: &Option<Vec<u8>>, expected: Option<&[u8]>) -> bool {
    match (text, expected) {
        (Some(text), Some(expected)) => text.as_slice() == expected,
        (None, None) => true,
        _ => false,
    }
}

/// Whether a header says nothing.
fn says_nothing(header: &Header) -> bool {
    header.bbox.is_none()
        && header.required.is_empty()
        && header.optional.is_empty()
        && header.program.is_none()
        && header.source.is_none()
        && header.url.is_none()
        && header.timestamp.is_none()
        && header.sequence.is_none()
}

/// Whether a header's texts that are kept, its time and its sequence are those of [`EVERY_FIELD`].
fn says_what_is_kept(header: &Header) -> bool {
    is(&header.source, Some(b"second"))
        && is(&header.url, Some(b"http://a"))
        && header.timestamp == Some(-5)
        && header.sequence == Some(4_294_967_303)
}

/// Whether a header is one that pbfcut writes, with this box and these optional features.
fn is_written(header: &Header, bbox: Option<HeaderBox>, optional: &[&[u8]]) -> bool {
    header.bbox == bbox
        && are(&header.required, &WRITTEN_REQUIRED)
        && are(&header.optional, optional)
        && is(&header.program, Some(b"pbfcut"))
}

/// Whether the payload is refused, for this reason at this place.
fn is_refused(rt: HostRuntime, payload: &[u8], offset: u64, reason: Reason) -> bool {
    let refused = Fault { offset, reason };
    if payload.len() > 1_000 {
        return false;
    }
    matches!(Header::read(rt.alloc(), payload, AT), Err(ReadFault::Refused(fault)) if fault == refused)
}

/// Whether the features of a header are those of [`EVERY_FIELD`].
fn has_every_feature(header: &Header) -> bool {
    let required: [&[u8]; 3] = [b"OsmSchema-V0.6", b"DenseNodes", b"OsmSchema-V0.6"];
    let optional: [&[u8]; 5] = [
        b"LocationsOnWays",
        b"Has_Metadata",
        b"Foo",
        b"Has_Metadata",
        b"Sort.Type_then_ID",
    ];
    are(&header.required, &required) && are(&header.optional, &optional)
}

#[test]
fn a_header_with_every_field(rt: HostRuntime) -> Result<(), Fail> {
    let Ok(header) = Header::read(rt.alloc(), EVERY_FIELD, AT) else {
        panic!(rt; "the header is refused");
    };
    assert_eq!(rt; header.bbox, Some(EVERY_BOX));
    assert!(rt; has_every_feature(&header));
    assert!(rt; is(&header.program, Some(b"two")) && says_what_is_kept(&header));
    Ok(())
}

#[test]
fn headers_without_fields(rt: HostRuntime) {
    for payload in [b"".as_slice(), b"\x9a\x06\x07unknown"] {
        assert!(rt; payload.len() < 100);
        let Ok(header) = Header::read(rt.alloc(), payload, AT) else {
            panic!(rt; "the header is refused");
        };
        assert!(rt; says_nothing(&header));
    }
}

/// Fields of a box that aren't known are skipped, and of two left edges the last counts.
#[test]
fn a_box_with_more_fields(rt: HostRuntime) {
    let payload = b"\x0a\x12H\x07\x08\x00\x10\x00\x18\x00\x20\x00\xc2>\x03abc\x08\x01";
    let Ok(header) = Header::read(rt.alloc(), payload, AT) else {
        panic!(rt; "the header is refused");
    };
    let expected = HeaderBox {
        left: -1,
        right: 0,
        top: 0,
        bottom: 0,
    };
    assert_eq!(rt; header.bbox, Some(expected));
}

/// The bytes, and then so many zeros.
fn followed_by_zeros(alloc: Global, front: &[u8], count: usize) -> Result<Vec<u8>, AllocError> {
    let mut bytes = Vec::from_slice(alloc, front)?;
    bytes.resize(front.len().saturating_add(count), 0)?;
    Ok(bytes)
}

/// The largest payload that a file can have: all of it one unknown field.
#[test]
fn the_largest_payload(rt: HostRuntime) -> Result<(), Fail> {
    let payload = followed_by_zeros(rt.alloc(), b"\x7a\xfa\xff\xff\x0f", 33_554_426)?;
    assert_eq!(rt; payload.len(), 33_554_431);
    let Ok(header) = Header::read(rt.alloc(), &payload, 25) else {
        panic!(rt; "the header is refused");
    };
    assert!(rt; says_nothing(&header));
    Ok(())
}

/// A source of any length is read.
#[test]
fn a_long_source(rt: HostRuntime) -> Result<(), Fail> {
    for (front, count) in [
        (b"\x8a\x01\x80\xb6\xdc\x05".as_slice(), 12_000_000),
        (b"\x8a\x01\x81\xb6\xdc\x05", 12_000_001),
    ] {
        let payload = followed_by_zeros(rt.alloc(), front, count)?;
        assert_eq!(rt; payload.len(), count + 6);
        let Ok(header) = Header::read(rt.alloc(), &payload, 25) else {
            panic!(rt; "the header is refused");
        };
        match &header.source {
            Some(source) => assert_eq!(rt; source.len(), count),
            None => panic!(rt; "the source is absent"),
        }
    }
    Ok(())
}

#[test]
fn unknown_features(rt: HostRuntime) {
    assert!(rt; is_refused(rt, b"\x22\x15HistoricalInformation", 19, Reason::Feature));
    assert!(rt; is_refused(rt, b"\x22\x00", 19, Reason::Feature));
    assert!(rt; is_refused(rt, b"\x22\x0fOsmSchema-V0.60", 19, Reason::Feature));
    let second = b"\x22\x0aDenseNodes\x22\x0fLocationsOnWays\x22\x03Foo";
    assert!(rt; is_refused(rt, second, 31, Reason::Feature));
}

#[test]
fn boxes_that_lack_an_edge(rt: HostRuntime) {
    for (payload, field) in [
        (b"\x0a\x06\x10\x00\x18\x00\x20\x00".as_slice(), 1),
        (b"\x0a\x06\x08\x00\x18\x00\x20\x00", 2),
        (b"\x0a\x06\x08\x00\x10\x00\x20\x00", 3),
        (b"\x0a\x06\x08\x00\x10\x00\x18\x00", 4),
        (b"\x0a\x00", 1),
    ] {
        assert!(rt; is_refused(rt, payload, 19, Reason::Missing(field)));
    }
}

#[test]
fn a_box_twice(rt: HostRuntime) {
    let twice = b"\x0a\x08\x08\x00\x10\x00\x18\x00\x20\x00\x0a\x08\x08\x00\x10\x00\x18\x00\x20\x00";
    assert!(rt; is_refused(rt, twice, 29, Reason::TwiceMessage));
    let second_lacks = b"\x0a\x08\x08\x00\x10\x00\x18\x00\x20\x00\x0a\x06\x08\x00\x10\x00\x20\x00";
    assert!(rt; is_refused(rt, second_lacks, 29, Reason::Missing(3)));
}

#[test]
fn fields_of_another_type(rt: HostRuntime) {
    assert!(rt; is_refused(rt, b"\x08\x05", 19, Reason::WrongType));
    assert!(rt; is_refused(rt, b"\x90\x02\x05", 19, Reason::WrongType));
    assert!(rt; is_refused(rt, b"\x82\x02\x00", 19, Reason::WrongType));
    assert!(rt; is_refused(rt, b"\x0a\x02\x12\x00\x20\x01", 21, Reason::WrongType));
    assert!(rt; is_refused(rt, b"\x88\x01\x01\x0a\x02\x12\x00", 19, Reason::WrongType));
    let cut = b"\x0a\x08\x08\x00\x10\x00\x18\x00\x20\x00\x8a";
    assert!(rt; is_refused(rt, cut, 29, Reason::VarintCut));
}

/// A fault of an earlier phase is reported first, wherever it is.
#[test]
fn phases_come_before_offsets(rt: HostRuntime) {
    let structure = b"\x22\x03Foo\x0a\x06\x08\x00\x10\x00\x18\x00";
    assert!(rt; is_refused(rt, structure, 24, Reason::Missing(4)));
    let wire = b"\x22\x03Foo\x0a\x06\x08\x00\x10\x00\x18\x00\x0a\x02\x0a\x00";
    assert!(rt; is_refused(rt, wire, 34, Reason::WrongType));
}

#[test]
fn the_header_of_an_extract(rt: HostRuntime) -> Result<(), Fail> {
    let Ok(area) = BoundingBox::new(0, -1, 1_000_000_000, 2_000_000_000) else {
        panic!(rt; "the box is refused");
    };
    let Ok(read) = Header::read(rt.alloc(), EVERY_FIELD, AT) else {
        panic!(rt; "the header is refused");
    };
    let header = read.for_box(rt.alloc(), area)?;
    let edges = HeaderBox {
        left: 0,
        right: 1_000_000_000,
        top: 2_000_000_000,
        bottom: -1,
    };
    let optional: [&[u8]; 3] = [b"Has_Metadata", b"Sort.Type_then_ID", b"LocationsOnWays"];
    assert!(rt; is_written(&header, Some(edges), &optional) && says_what_is_kept(&header));
    Ok(())
}

#[test]
fn the_header_of_a_converted_file(rt: HostRuntime) -> Result<(), Fail> {
    let Ok(read) = Header::read(rt.alloc(), EVERY_FIELD, AT) else {
        panic!(rt; "the header is refused");
    };
    assert_eq!(rt; read.for_convert(rt.alloc())?.bbox, Some(EVERY_BOX));
    Ok(())
}

fn texts(alloc: Global, texts: &[&[u8]]) -> Result<Vec<Vec<u8>>, AllocError> {
    let mut owned = Vec::new(alloc);
    for text in texts {
        owned.push(Vec::from_slice(alloc, text)?)?;
    }
    Ok(owned)
}

/// All fields, of which the numbers are negative: they take ten bytes.
#[test]
fn a_header_with_all_fields(rt: HostRuntime) -> Result<(), Fail> {
    let header = Header {
        bbox: None,
        required: texts(rt.alloc(), &[b"Else"])?,
        optional: texts(
            rt.alloc(),
            &[
                b"Sort.Type_then_ID",
                b"Foo",
                b"Has_Metadata",
                b"Has_Metadata",
            ],
        )?,
        program: None,
        source: Some(Vec::from_slice(rt.alloc(), b"src")?),
        url: Some(Vec::from_slice(rt.alloc(), b"http://a")?),
        timestamp: Some(-5),
        sequence: Some(7),
    };
    let mut written = Vec::new(rt.alloc());
    header.write(&mut written)?;
    assert_eq!(rt;
        written.as_slice(),
        b"\x22\x0eOsmSchema-V0.6\x22\x0aDenseNodes*\x0cHas_Metadata*\x11Sort.Type_then_ID\x82\x01\x06pbfcut\x8a\x01\x03src\x80\x02\xfb\xff\xff\xff\xff\xff\xff\xff\xff\x01\x88\x02\x07\x92\x02\x08http://a".as_slice()
    );
    Ok(())
}

#[test]
fn the_laws_return() {
    laws::header_phases_are_one_order();
    laws::header_out_twice_is_once();
}
