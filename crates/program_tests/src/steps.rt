//! What no clause says of the steps that read, and of a later pass: that they go through a file. One that always gives up for want of
//! memory meets its contract.

use crate::check::counts;
use osm_entity::BoundingBox;
use osm_ways::{NodePhase, RelationPhase, WayPhase};
use pbf_frame::{FrameReader, Pieces, Stop};
use pbf_pass::{PassCheck, Passes};
use pbfcut::{
    Counts, Nothing, Pass, gather_unjudged, step_count, step_nodes, step_relations, step_unjudged,
    step_ways,
};
use std::alloc::Global;
use std::test::Fail;

/// A header that says nothing, the plain node 10 near the place 0, 0, way 7 through it, and relation 9 with that way in the role `a`.
pub(crate) const SMALL: [u8; 119] =
    *b"\x00\x00\x00\x0d\x0a\x09OSMHeader\x18\x02\x0a\x00\x00\x00\x00\x0b\x0a\x07OSMData\x18\x10\x0a\x0e\x0a\x02\x0a\x00\x12\x08\x0a\x06\x08\x14\x40\x02\x48\x02\x00\x00\x00\x0b\x0a\x07OSMData\x18\x0f\x0a\x0d\x0a\x02\x0a\x00\x12\x07\x1a\x05\x08\x07\x42\x01\x14\x00\x00\x00\x0b\x0a\x07OSMData\x18\x18\x0a\x16\x0a\x05\x0a\x00\x0a\x01\x61\x12\x0d\x22\x0b\x08\x09\x42\x01\x01\x4a\x01\x0e\x52\x01\x01";

/// How many frames it has.
pub(crate) const FRAMES: usize = 4;

/// Its SHA-256 digest, by sha256sum.
const DIGEST: [u8; 32] = [
    0x39, 0xc5, 0x36, 0x75, 0x0b, 0x52, 0xaa, 0xd0, 0x67, 0xb0, 0xde, 0x1b, 0x26, 0x12, 0x56, 0x51,
    0xe7, 0x7e, 0x7f, 0x18, 0x2c, 0xd6, 0x5f, 0xa1, 0x4a, 0xba, 0xfa, 0x1f, 0x91, 0xa0, 0x99, 0x59,
];

/// A box near the place 0, 0: it has the node.
pub(crate) const AREA: BoundingBox = BoundingBox {
    left: 0,
    bottom: 0,
    right: 1_000,
    top: 1_000,
};

type Reader = FrameReader<Pieces<'static>>;

fn small() -> Pieces<'static> {
    Pieces::new(&SMALL, &[], None)
}

/// What a step takes what it reads in.
#[derive(Drop)]
enum Taking<'a> {
    Counts,
    Nodes(&'a mut NodePhase),
    Ways(&'a mut WayPhase),
    Relations(&'a mut RelationPhase),
    /// The nodes in a later pass, which counts nothing.
    NodesUnjudged(&'a mut NodePhase),
}

fn take_frame(
    alloc: Global,
    reader: &mut Reader,
    pass: &mut Pass,
    taking: &mut Taking<'_>,
) -> Result<bool, Stop> {
    match taking {
        Taking::Counts => step_count(alloc, reader, pass),
        Taking::Nodes(phase) => step_nodes(alloc, reader, pass, phase),
        Taking::Ways(phase) => step_ways(alloc, reader, pass, phase),
        Taking::Relations(phase) => step_relations(alloc, reader, pass, phase),
        Taking::NodesUnjudged(phase) => step_unjudged(alloc, reader, *phase, 2),
    }
}

/// What is counted by a step for each frame, if the one after them is at the end.
fn taken(alloc: Global, taking: &mut Taking<'_>) -> Result<Option<Counts>, Stop> {
    let mut reader = FrameReader::new(alloc, small());
    let mut pass = Pass::new();
    for _frame in 0..FRAMES {
        if !take_frame(alloc, &mut reader, &mut pass, taking)? {
            return Ok(None);
        }
    }
    if take_frame(alloc, &mut reader, &mut pass, taking)? {
        return Ok(None);
    }
    Ok(Some(pass.counts))
}

/// Whether the steps count what is in the file.
fn counts_all(alloc: Global, taking: &mut Taking<'_>) -> Result<bool, Stop> {
    let Some(counted) = taken(alloc, taking)? else {
        return Ok(false);
    };
    Ok(Ok(counted) == counts(1, 1, 1))
}

fn nodes_counted(alloc: Global) -> Result<bool, Stop> {
    counts_all(alloc, &mut Taking::Nodes(&mut NodePhase::new(alloc, AREA)))
}

fn ways_counted(alloc: Global) -> Result<bool, Stop> {
    let mut ways = NodePhase::new(alloc, AREA).end_nodes()?;
    counts_all(alloc, &mut Taking::Ways(&mut ways))
}

fn relations_counted(alloc: Global) -> Result<bool, Stop> {
    let ways = NodePhase::new(alloc, AREA).end_nodes()?;
    let mut relations = ways.end_ways()?.with_parents();
    counts_all(alloc, &mut Taking::Relations(&mut relations))
}

/// A later pass counts nothing.
fn again_counted(alloc: Global) -> Result<bool, Stop> {
    let mut nodes = NodePhase::new(alloc, AREA);
    Ok(taken(alloc, &mut Taking::NodesUnjudged(&mut nodes))? == Some(Counts::none()))
}

#[test]
fn steps_that_read(rt: HostRuntime) -> Result<(), Fail> {
    let alloc = rt.alloc();
    let first = counts_all(alloc, &mut Taking::Counts)? && nodes_counted(alloc)?;
    let later = ways_counted(alloc)? && relations_counted(alloc)?;
    let again = again_counted(alloc)?;
    assert!(rt; first && later && again);
    Ok(())
}

#[test]
fn digest_of_a_later_pass(rt: HostRuntime) -> Result<(), Fail> {
    let passes = Passes {
        alloc: rt.alloc(),
        check: PassCheck::Sha256,
    };
    let digest = gather_unjudged(passes, &mut small(), &mut Nothing, 2)?;
    assert!(rt; digest == DIGEST);
    Ok(())
}
