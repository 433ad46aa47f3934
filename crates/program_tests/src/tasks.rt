//! What no clause says of a task over a list of feeds: that it goes through, and ends so over feeds that are short or fail.

use crate::blobs::THREE_DENSE_NODES;
use crate::check::counts;
use crate::extracts::{hasher, passes};
use crate::later_pass::{PLAIN_NODE, file};
use crate::show::THREE_LINES;
use crate::steps::AREA;
use osm_ways::WholeTypes;
use pbf_frame::{Pieces, Sink, Stop};
use pbfcut::{AllParents, CompleteWays, Counts, FileTask, PlainTask, Smart};
use std::alloc::{AllocError, Global};
use std::test::Fail;

/// How a task ends over these feeds; `None` if it takes another number of them.
fn outcome_of<T: FileTask + Drop>(
    alloc: Global,
    task: T,
    feeds: &mut [Pieces<'_>],
    sink: &mut Sink,
) -> Option<Result<Counts, Stop>> {
    if feeds.len() != task.pass_count() {
        return None;
    }
    match task.run(passes(alloc), feeds, sink, hasher()) {
        Ok(receipt) => Some(Ok(receipt.counts)),
        Err(halt) => Some(Err(Stop::from(halt))),
    }
}

/// A feed that fails at once.
fn failing() -> Pieces<'static> {
    Pieces::new(&[], &[], Some(0))
}

fn three_nodes() -> Pieces<'static> {
    Pieces::new(&THREE_DENSE_NODES, &[7], None)
}

#[test]
fn a_check_takes_one_feed(rt: HostRuntime) -> Result<(), Fail> {
    let mut sink = Sink::new(rt.alloc(), 4_096, 0)?;
    let ended = outcome_of(
        rt.alloc(),
        PlainTask::Check,
        &mut [three_nodes()],
        &mut sink,
    );
    assert!(rt; ended == Some(counts(3, 0, 0)));
    assert!(rt; sink.bytes().is_empty());
    Ok(())
}

#[test]
fn another_number_of_feeds(rt: HostRuntime) -> Result<(), Fail> {
    let mut sink = Sink::new(rt.alloc(), 4_096, 0)?;
    assert!(rt; outcome_of(rt.alloc(), PlainTask::Copy, &mut [three_nodes()], &mut sink) == None);
    Ok(())
}

/// How a task over two feeds of the three nodes ends, and what it writes.
fn over_two(alloc: Global, task: PlainTask, written: &[u8]) -> Result<bool, AllocError> {
    let mut sink = Sink::new(alloc, 4_096, 0)?;
    let ended = outcome_of(alloc, task, &mut [three_nodes(), three_nodes()], &mut sink);
    Ok(ended == Some(counts(3, 0, 0)) && sink.bytes() == written)
}

#[test]
fn three_nodes_shown_and_copied(rt: HostRuntime) -> Result<(), Fail> {
    let lines = THREE_LINES.as_bytes();
    assert!(rt; over_two(rt.alloc(), PlainTask::Show { dates: false }, lines)?);
    assert!(rt; over_two(rt.alloc(), PlainTask::Copy, &THREE_DENSE_NODES)?);
    Ok(())
}

/// How the copying of the three nodes ends whose second feed is this one.
fn copied(alloc: Global, second: Pieces<'_>) -> Result<Option<Result<Counts, Stop>>, AllocError> {
    let mut sink = Sink::new(alloc, 4_096, 0)?;
    Ok(outcome_of(
        alloc,
        PlainTask::Copy,
        &mut [three_nodes(), second],
        &mut sink,
    ))
}

#[test]
fn a_second_feed_that_is_short_or_fails(rt: HostRuntime) -> Result<(), Fail> {
    let short = Pieces::new(&THREE_DENSE_NODES[1..], &[], None);
    assert!(rt; copied(rt.alloc(), short)? == Some(Err(Stop::Changed(2))));
    assert!(rt; copied(rt.alloc(), failing())? == Some(Err(Stop::Read)));
    Ok(())
}

/// Whether one node is written of a sorted file of it, while no read of the feeds between the first and the last succeeds.
fn cuts<T: FileTask + Drop>(alloc: Global, task: T, bytes: &[u8]) -> Result<bool, AllocError> {
    let mut feeds = Vec::new(alloc);
    feeds.push(Pieces::new(bytes, &[], None))?;
    for _ in 2..task.pass_count() {
        feeds.push(failing())?;
    }
    feeds.push(Pieces::new(bytes, &[], None))?;
    let mut sink = Sink::new(alloc, 4_096, 0)?;
    Ok(outcome_of(alloc, task, &mut feeds, &mut sink) == Some(counts(1, 0, 0)))
}

#[test]
fn spared_feeds_are_not_read(rt: HostRuntime) -> Result<(), Fail> {
    let bytes = file(rt.alloc(), &PLAIN_NODE, 0x02)?;
    let types = WholeTypes::parse(rt.alloc(), "multipolygon")?;
    assert!(rt; cuts(rt.alloc(), CompleteWays { area: AREA }, &bytes)?);
    assert!(rt; cuts(rt.alloc(), AllParents { area: AREA }, &bytes)?);
    assert!(rt; cuts(rt.alloc(), Smart { area: AREA, types }, &bytes)?);
    Ok(())
}
