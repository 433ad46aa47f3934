//! What no clause says: that a payload is read if there is memory, and the heaviest entities. Which fault a payload has is said of
//! many by the laws of `pbf_examples`, and shown by the cases of `pbf_vectors`.

use osm_entity::{EntityRef, WayRef};
use pbf_block::Block;
use pbf_wire::{Fault, ReadFault, Reason, put_bytes};
use std::alloc::{AllocError, Global};
use std::test::Fail;

/// The offset of the payload of these tests in its file: after a header's frame of 19 bytes, and 17 bytes of its own frame.
const PLACE: u64 = 36;

/// Whether this is way 7 over the nodes 1 and 3, with one tag.
fn is_way_seven(way: WayRef<'_>) -> bool {
    let (mut refs, mut tags) = (way.refs(), way.tags());
    way.id() == 7
        && refs.next() == Some(1)
        && refs.next() == Some(3)
        && refs.next().is_none()
        && tags.next() == Some((b"k".as_slice(), b"".as_slice()))
        && tags.next().is_none()
}

/// A group before the table, of which the last counts for nothing but its texts: places and texts are those of the file.
#[test]
fn entities_of_a_block(rt: HostRuntime) {
    let payload =
        b"\x12\x0e\x1a\x0c\x08\x07\x12\x01\x01\x1a\x01\x02\x42\x02\x02\x04\x0a\x07\x0a\x00\x0a\x01k\x0a\x00";
    let Ok(block) = Block::read(rt.alloc(), payload, PLACE) else {
        panic!(rt; "the block is refused");
    };
    let mut entities = block.entities();
    let Some(EntityRef::Way(way)) = entities.next() else {
        panic!(rt; "the way is none");
    };
    assert!(rt; is_way_seven(way) && entities.next().is_none() && block.held() == 12);
}

/// Two groups: the second node has a tag of text 1 and text 1, and so has the first node of the dense message.
const TAGGED: [u8; 46] =
    *b"\x12\x16\x0a\x06\x08\x02\x40\x00\x48\x00\x0a\x0c\x08\x04\x40\x00\x48\x00\x12\x01\x01\x1a\x01\x01\x12\x14\x12\x12\x0a\x02\x02\x02\x42\x02\x00\x00\x4a\x02\x00\x00\x52\x04\x00\x01\x01\x00";

/// How far after the table the payload's fault is, and its reason: of these groups after a table whose text 1 has this length.
fn fault_behind(
    alloc: Global,
    length: usize,
    groups: &[u8],
) -> Result<Option<(u64, Reason)>, AllocError> {
    let mut text = Vec::new(alloc);
    text.resize(length, b'v')?;
    let mut texts = Vec::new(alloc);
    put_bytes(&mut texts, 1, b"")?;
    put_bytes(&mut texts, 1, &text)?;
    let mut payload = Vec::new(alloc);
    put_bytes(&mut payload, 1, &texts)?;
    let begin = payload.len() as u64;
    payload.extend_from_slice(groups)?;
    if payload.len() >= 33_554_432 {
        return Err(AllocError);
    }
    match Block::read(alloc, &payload, 0) {
        Ok(_) => Ok(None),
        Err(ReadFault::Refused(Fault { offset, reason })) => {
            Ok(Some((offset.abs_diff(begin), reason)))
        }
        Err(ReadFault::Memory) => Err(AllocError),
    }
}

#[test]
fn the_heaviest_entities(rt: HostRuntime) -> Result<(), Fail> {
    assert_eq!(rt; fault_behind(rt.alloc(), 5_999_904, &TAGGED)?, None);
    for (groups, place) in [(TAGGED.as_slice(), 10), (&TAGGED[24..], 2)] {
        let fault = fault_behind(rt.alloc(), 5_999_905, groups)?;
        assert_eq!(rt; fault, Some((place, Reason::EntityLarge)));
    }
    Ok(())
}
