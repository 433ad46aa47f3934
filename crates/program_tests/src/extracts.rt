//! What no clause says of a call for several areas: that it goes through, and that its bytes are those of calls for one area each.

use crate::blobs::THREE_DENSE_NODES;
use crate::several::{EAST, SOUTH};
use crate::steps::{AREA, SMALL};
use osm_entity::BoundingBox;
use pbf_frame::{Pieces, Sink};
use pbf_pass::{Halt, InputReceipt, PassCheck, Passes};
use pbf_published::{open_all, run_published_each};
use pbfcut::{
    AreaOutput, EachStrategy, extract_each, extract_parents_sorted_with_receipt,
    extract_sorted_with_receipt,
};
use std::alloc::{AllocError, Global};
use std::hash::{BuildHasherDefault, FoldHasher};
use std::process::Abort;
use std::test::Fail;

/// The areas, of which a test takes the first few.
const AREAS: [BoundingBox; 3] = [AREA, SOUTH, EAST];

pub(crate) fn passes(alloc: Global) -> Passes {
    Passes {
        alloc,
        check: PassCheck::Sha256,
    }
}

pub(crate) fn hasher() -> BuildHasherDefault<FoldHasher> {
    BuildHasherDefault::new()
}

/// Whether a drain has the bytes that a call for only its area writes, all of them if that call succeeds.
fn is_as_alone(
    alloc: Global,
    bytes: &[u8],
    output: &AreaOutput<BoundingBox, Sink>,
) -> Result<bool, AllocError> {
    let mut first = Pieces::new(bytes, &[], None);
    let mut second = Pieces::new(bytes, &[], None);
    let mut third = Pieces::new(bytes, &[], None);
    let mut sink = Sink::new(alloc, 4_096, 0)?;
    let ended = extract_sorted_with_receipt(
        passes(alloc),
        &mut first,
        &mut second,
        &mut third,
        output.area,
        &mut sink,
        hasher(),
    );
    Ok(is_same(output, ended, &sink))
}

/// The same with all parents.
fn is_as_alone_with_parents(
    alloc: Global,
    bytes: &[u8],
    output: &AreaOutput<BoundingBox, Sink>,
) -> Result<bool, AllocError> {
    let mut first = Pieces::new(bytes, &[], None);
    let mut second = Pieces::new(bytes, &[], None);
    let mut third = Pieces::new(bytes, &[], None);
    let mut fourth = Pieces::new(bytes, &[], None);
    let mut sink = Sink::new(alloc, 4_096, 0)?;
    let ended = extract_parents_sorted_with_receipt(
        passes(alloc),
        &mut first,
        &mut second,
        &mut third,
        &mut fourth,
        output.area,
        &mut sink,
        hasher(),
    );
    Ok(is_same(output, ended, &sink))
}

/// Whether an output has the counts of a call that succeeded, and its bytes.
fn is_same(
    output: &AreaOutput<BoundingBox, Sink>,
    ended: Result<InputReceipt, Halt>,
    sink: &Sink,
) -> bool {
    match ended {
        Ok(receipt) => receipt.counts == output.counts && sink.bytes() == output.drain.bytes(),
        Err(_) => false,
    }
}

/// The outputs of the first few areas, with so much room in each drain.
fn outputs(
    alloc: Global,
    count: usize,
    rooms: [usize; 3],
) -> Result<Vec<AreaOutput<BoundingBox, Sink>>, AllocError> {
    let mut outputs = Vec::new(alloc);
    for at in 0..3 {
        if at < count {
            outputs.push(AreaOutput::new(AREAS[at], Sink::new(alloc, rooms[at], 7)?))?;
        }
    }
    Ok(outputs)
}

/// Whether the areas of these outputs are the first few.
fn are_in_order(outputs: &[AreaOutput<BoundingBox, Sink>]) -> bool {
    let mut alike = true;
    for (output, area) in outputs.iter().zip(&AREAS) {
        alike = alike && output.area == *area;
    }
    alike
}

/// These bytes, for each pass of a strategy.
fn feeds_of<'a>(
    alloc: Global,
    strategy: EachStrategy,
    bytes: &'a [u8],
) -> Result<Vec<Pieces<'a>>, AllocError> {
    let mut feeds = Vec::new(alloc);
    for _ in 0..strategy.pass_count() {
        feeds.push(Pieces::new(bytes, &[], None))?;
    }
    Ok(feeds)
}

/// Whether each of these drains has what a call for only its area writes.
fn has_each_as_alone(
    alloc: Global,
    strategy: EachStrategy,
    bytes: &[u8],
    outputs: &[AreaOutput<BoundingBox, Sink>],
) -> Result<bool, AllocError> {
    let mut alike = true;
    for output in outputs {
        let is_alike = match strategy {
            EachStrategy::CompleteWays => is_as_alone(alloc, bytes, output)?,
            EachStrategy::AllParents => is_as_alone_with_parents(alloc, bytes, output)?,
        };
        alike = alike && is_alike;
    }
    Ok(alike)
}

/// Whether a call for so many areas succeeds, and each drain has what a call for only its area writes.
fn are_as_alone(
    alloc: Global,
    strategy: EachStrategy,
    bytes: &[u8],
    count: usize,
) -> Result<bool, AllocError> {
    let mut feeds = feeds_of(alloc, strategy, bytes)?;
    if feeds.len() != strategy.pass_count() {
        return Ok(false);
    }
    let outputs = outputs(alloc, count, [4_096; 3])?;
    let (ended, outcome) = strategy.extract(passes(alloc), &mut feeds, outputs, hasher());
    let ends_well = outcome.is_ok() && ended.len() == count && are_in_order(&ended);
    Ok(ends_well && has_each_as_alone(alloc, strategy, bytes, &ended)?)
}

/// The same of three areas and a published file: these have no zlib blobs, so they are the raw files that they mean.
fn are_as_alone_published(
    alloc: Global,
    strategy: EachStrategy,
    bytes: &[u8],
) -> Result<bool, AllocError> {
    let feeds = feeds_of(alloc, strategy, bytes)?;
    let how = passes(alloc);
    let mut feeds = open_all(alloc, feeds, how.check)?;
    if feeds.len() != strategy.pass_count() {
        return Ok(false);
    }
    let outputs = outputs(alloc, 3, [4_096; 3])?;
    let (ended, outcome) = run_published_each(how, strategy, &mut feeds, outputs, hasher());
    let ends_well = outcome.is_ok() && ended.len() == 3 && are_in_order(&ended);
    Ok(ends_well && has_each_as_alone(alloc, strategy, bytes, &ended)?)
}

#[test]
fn several_extracts_of_a_published_file_are_those_of_calls_alone(
    rt: HostRuntime,
) -> Result<(), Fail> {
    for strategy in [EachStrategy::CompleteWays, EachStrategy::AllParents] {
        assert!(rt; are_as_alone_published(rt.alloc(), strategy, &THREE_DENSE_NODES)?);
        assert!(rt; are_as_alone_published(rt.alloc(), strategy, &SMALL)?);
    }
    Ok(())
}

fn are_all_as_alone(rt: &(impl Abort + AllocGlobal), strategy: EachStrategy) -> Result<(), Fail> {
    for count in 0..4 {
        assert!(rt;
            are_as_alone(rt.alloc(), strategy, &THREE_DENSE_NODES, count)?,
            "{count}"
        );
        assert!(rt;
            are_as_alone(rt.alloc(), strategy, &SMALL, count)?,
            "{count}"
        );
    }
    Ok(())
}

#[test]
fn several_extracts_with_parents_are_those_of_calls_alone(rt: HostRuntime) -> Result<(), Fail> {
    are_all_as_alone(&rt, EachStrategy::AllParents)
}

#[test]
fn several_extracts_are_those_of_calls_alone(rt: HostRuntime) -> Result<(), Fail> {
    are_all_as_alone(&rt, EachStrategy::CompleteWays)
}

/// Whether, if this drain is full, the call fails, the outputs come back in order, and that drain has no more than its room.
fn halts_in_order(alloc: Global, bytes: &[u8], full: usize) -> Result<bool, AllocError> {
    let mut rooms = [4_096; 3];
    if let Some(room) = rooms.get_mut(full) {
        *room = 60;
    }
    let mut first = Pieces::new(bytes, &[], None);
    let mut second = Pieces::new(bytes, &[], None);
    let mut third = Pieces::new(bytes, &[], None);
    let (ended, outcome) = extract_each(
        passes(alloc),
        &mut first,
        &mut second,
        &mut third,
        outputs(alloc, 3, rooms)?,
        hasher(),
    );
    let mut alike = outcome.is_err() && ended.len() == 3 && are_in_order(&ended);
    if let Some(output) = ended.get(full) {
        alike = alike && output.drain.bytes().len() <= 60;
    }
    Ok(alike)
}

#[test]
fn one_full_drain_halts_all_in_order(rt: HostRuntime) -> Result<(), Fail> {
    for full in 0..3 {
        assert!(rt;
            halts_in_order(rt.alloc(), &THREE_DENSE_NODES, full)?,
            "{full}"
        );
    }
    Ok(())
}
