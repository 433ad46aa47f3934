//! What no clause says of the steps that write: that they go through a file. One that always gives up for want of memory meets its
//! contract.

use crate::steps::AREA;
use osm_pack::Packer;
use osm_ways::{ChosenParents, NodePhase};
use pbf_frame::{FrameReader, Pieces, Sink};
use pbf_pass::{Halt, Judged, PassCheck, Passes, judge, writable_header};
use pbfcut::{Nothing, Pass, step_pack, step_write, step_write_parents};
use std::alloc::{AllocError, Global};
use std::hash::{BuildHasherDefault, FoldHasher};
use std::test::Fail;

/// A header that says nothing, and way 7 through node 10.
const SMALL: [u8; 49] =
    *b"\x00\x00\x00\x0d\x0a\x09OSMHeader\x18\x02\x0a\x00\x00\x00\x00\x0b\x0a\x07OSMData\x18\x0f\x0a\x0d\x0a\x02\x0a\x00\x12\x07\x1a\x05\x08\x07\x42\x01\x14";

type Reader = FrameReader<Pieces<'static>>;

type Writer = Packer<Sink, BuildHasherDefault<FoldHasher>>;

fn small() -> Pieces<'static> {
    Pieces::new(&SMALL, &[], None)
}

fn judged(alloc: Global) -> Result<Judged, Halt> {
    let passes = Passes {
        alloc,
        check: PassCheck::None,
    };
    judge(passes, &mut small(), &mut Nothing)
}

fn fresh(alloc: Global) -> Result<Writer, AllocError> {
    let sink = Sink::new(alloc, 4_096, 0)?;
    Ok(Packer::new(alloc, sink, BuildHasherDefault::new()))
}

/// Whether the packer puts the header of the file.
fn puts_header(told: &Judged, packer: &mut Writer) -> bool {
    match writable_header(told) {
        Ok(header) => !packer.has_header() && packer.put_header(header).is_ok(),
        Err(_) => false,
    }
}

/// What was chosen of nothing.
fn nothing(alloc: Global) -> Result<ChosenParents, AllocError> {
    let ways = NodePhase::new(alloc, AREA).end_nodes()?;
    ways.end_ways()?.with_parents().end_relations()
}

fn packs(alloc: Global, reader: &mut Reader, pass: &mut Pass, packer: &mut Writer) -> bool {
    packer.has_header() && matches!(step_pack(alloc, reader, pass, None, packer), Ok(true))
}

fn step_writes(alloc: Global, reader: &mut Reader, pass: &mut Pass, packer: &mut Writer) -> bool {
    packer.has_header() && matches!(step_write(alloc, reader, pass, None, packer), Ok(true))
}

/// Whether both steps that write all go through a frame each, into this packer.
fn both_write(alloc: Global, packer: &mut Writer) -> bool {
    let mut reader = FrameReader::new(alloc, small());
    let mut pass = Pass::new();
    let header = packs(alloc, &mut reader, &mut pass, packer);
    let way = step_writes(alloc, &mut reader, &mut pass, packer);
    header && way && pass.counts.ways == 1
}

fn writes_chosen(
    alloc: Global,
    reader: &mut Reader,
    chosen: &ChosenParents,
    packer: &mut Writer,
) -> bool {
    let mut pass = Pass::new();
    packer.has_header()
        && matches!(
            step_write_parents(alloc, reader, &mut pass, chosen, packer),
            Ok(true)
        )
}

/// Whether the step that writes what was chosen goes through both frames, into this packer.
fn both_write_chosen(alloc: Global, chosen: &ChosenParents, packer: &mut Writer) -> bool {
    let mut reader = FrameReader::new(alloc, small());
    let header = writes_chosen(alloc, &mut reader, chosen, packer);
    let way = writes_chosen(alloc, &mut reader, chosen, packer);
    header && way
}

/// Whether the packer puts the header, and then all steps that write go through frames.
fn goes_through(alloc: Global, told: &Judged, chosen: &ChosenParents, packer: &mut Writer) -> bool {
    let begun = puts_header(told, packer);
    let all = both_write(alloc, packer);
    let picked = both_write_chosen(alloc, chosen, packer);
    begun && all && picked
}

/// The same of a packer of its own. Each of these functions holds one owned value, and leaves by `?` only before it has that.
fn all_write(alloc: Global, told: &Judged, chosen: &ChosenParents) -> Result<bool, AllocError> {
    let mut packer = fresh(alloc)?;
    Ok(goes_through(alloc, told, chosen, &mut packer))
}

fn all_write_judged(alloc: Global, told: &Judged) -> Result<bool, AllocError> {
    let chosen = nothing(alloc)?;
    all_write(alloc, told, &chosen)
}

fn writes(alloc: Global) -> Result<bool, Halt> {
    let told = judged(alloc)?;
    match all_write_judged(alloc, &told) {
        Ok(all) => Ok(all),
        Err(error) => Err(Halt::from(error)),
    }
}

#[test]
fn steps_that_write(rt: HostRuntime) -> Result<(), Fail> {
    assert!(rt; matches!(writes(rt.alloc()), Ok(true)));
    Ok(())
}
