//! What no clause says of several visitors and gatherers in one pass: that they go through a file, and what a stop leaves of them.

use crate::blobs::THREE_DENSE_NODES;
use crate::later_pass::{PLAIN_NODE, file};
use crate::steps::{AREA, FRAMES, SMALL};
use osm_entity::BoundingBox;
use osm_ways::{Chosen, FirstPhase, InArea};
use pbf_frame::{Frame, Pieces, Stop};
use pbf_pass::{Each, PassCheck, Passes, Visit, gather_unjudged, judge, pass_over};
use std::alloc::{AllocError, Global};
use std::test::Fail;

/// A box south of [`AREA`]: of the dense nodes it has the node 11.
pub(crate) const SOUTH: BoundingBox = BoundingBox {
    left: 0,
    bottom: -1_000,
    right: 1_000,
    top: -1,
};

/// A box in the east, which has none of the nodes.
pub(crate) const EAST: BoundingBox = BoundingBox {
    left: 5_000,
    bottom: -1_000,
    right: 6_000,
    top: 1_000,
};

/// Counts frames, and stops at the one that so many come before.
#[derive(Drop)]
struct FrameCounter {
    frames: usize,
    stops_after: Option<usize>,
}

impl Visit for FrameCounter {
    ghost took = { λ _ _ _. Unit {0} };

    ghost failed = { λ _ _ _ _. Unit {0} };

    fn visit(&mut self, _alloc: Global, _frame: &Frame<'_>) -> Result<(), Stop> {
        if self.stops_after == Some(self.frames) {
            return Err(Stop::Write);
        }
        self.frames = self.frames.saturating_add(1);
        Ok(())
    }
}

/// Three counters, of which the one at `place` stops after so many frames.
fn counters(
    alloc: Global,
    place: usize,
    stops_after: Option<usize>,
) -> Result<Each<FrameCounter>, AllocError> {
    let mut counters = Vec::new(alloc);
    for at in 0..3 {
        counters.push(FrameCounter {
            frames: 0,
            stops_after: if at == place { stops_after } else { None },
        })?;
    }
    Ok(Each::new(counters))
}

fn passes(alloc: Global) -> Passes {
    Passes {
        alloc,
        check: PassCheck::None,
    }
}

/// Whether a pass of the counters ends so, and they count so many frames.
fn counts_as(
    alloc: Global,
    mut feed: Pieces<'_>,
    mut each: Each<FrameCounter>,
    outcome: Result<u64, Stop>,
    frames: [usize; 3],
) -> Result<bool, AllocError> {
    let ended = match pass_over(passes(alloc), &mut feed, &mut each) {
        Ok(read) => Ok(read.frames),
        Err(halt) => Err(Stop::from(halt)),
    };
    let mut counted = Vec::new(alloc);
    for counter in each.into_members() {
        counted.push(counter.frames)?;
    }
    Ok(ended == outcome && counted.as_slice() == frames.as_slice())
}

#[test]
fn each_visits_all_frames(rt: HostRuntime) -> Result<(), Fail> {
    let alloc = rt.alloc();
    let each = counters(alloc, 0, None)?;
    let feed = Pieces::new(&SMALL, &[], None);
    assert!(rt; counts_as(alloc, feed, each, Ok(4), [FRAMES; 3])?);
    Ok(())
}

/// Those before the one that stops have one frame more.
#[test]
fn one_stops_at_each_frame_in_turn(rt: HostRuntime) -> Result<(), Fail> {
    let alloc = rt.alloc();
    for at in 0..FRAMES {
        let rows = [[at, at, at], [at + 1, at, at], [at + 1, at + 1, at]];
        for place in 0..3 {
            let each = counters(alloc, place, Some(at))?;
            let feed = Pieces::new(&SMALL, &[7], None);
            assert!(rt; counts_as(alloc, feed, each, Err(Stop::Write), rows[place])?);
        }
    }
    Ok(())
}

/// How many frames three counters count each, or `None` if they differ.
fn counted_alike(alloc: Global, input: &[u8], failing: Option<u64>) -> Result<Option<usize>, Stop> {
    let mut each = counters(alloc, 0, None)?;
    let mut feed = Pieces::new(input, &[7], failing);
    let ended = pass_over(passes(alloc), &mut feed, &mut each);
    let counters = each.into_members();
    let [one, two, three] = counters.as_slice() else {
        return Ok(None);
    };
    let alike = one.frames == two.frames && two.frames == three.frames;
    let is_whole = ended.is_err() || one.frames == FRAMES;
    Ok((alike && is_whole).then_some(one.frames))
}

/// Whichever read fails, each has visited the frames before it.
#[test]
fn each_read_failing_in_turn(rt: HostRuntime) -> Result<(), Fail> {
    let mut most = 0;
    for call in 0..60 {
        let counted = counted_alike(rt.alloc(), &SMALL, Some(call))?;
        assert!(rt;
            counted.is_some_and(|frames| most <= frames && frames <= FRAMES),
            "{call}"
        );
        most = counted.unwrap_or(0);
    }
    assert!(rt; most == FRAMES);
    Ok(())
}

/// A file that is cut within its last frame is refused, and each has visited the others.
#[test]
fn a_cut_file(rt: HostRuntime) -> Result<(), Fail> {
    let counted = counted_alike(rt.alloc(), &SMALL[..SMALL.len() - 1], None)?;
    assert_eq!(rt; counted, Some(FRAMES - 1));
    Ok(())
}

/// A frame of the way 7 through the nodes 10 and 20.
const WAY: [u8; 31] = [
    0x00, 0x00, 0x00, 0x0b, 0x0a, 0x07, 0x4f, 0x53, 0x4d, 0x44, 0x61, 0x74, 0x61, 0x18, 0x10, 0x0a,
    0x0e, 0x0a, 0x02, 0x0a, 0x00, 0x12, 0x08, 0x1a, 0x06, 0x08, 0x07, 0x42, 0x02, 0x14, 0x14,
];

type Phase = InArea<BoundingBox, FirstPhase>;

/// The phases of three boxes.
fn phases(alloc: Global) -> Result<Each<Phase>, AllocError> {
    let mut phases = Vec::new(alloc);
    for area in [AREA, SOUTH, EAST] {
        phases.push(Phase::new(alloc, area))?;
    }
    Ok(Each::new(phases))
}

/// What the phases choose.
fn chosen(alloc: Global, each: Each<Phase>) -> Result<Vec<Chosen>, AllocError> {
    let mut chosen = Vec::new(alloc);
    for phase in each.into_members() {
        chosen.push(phase.end_nodes()?.end_ways()?)?;
    }
    Ok(chosen)
}

/// Which of the three boxes keep a node of this id.
fn keep(chosen: &[Chosen], id: i64) -> [bool; 3] {
    let mut keep = [false; 3];
    for (kept, one) in keep.iter_mut().zip(chosen) {
        *kept = one.keeps_node(id);
    }
    keep
}

/// What three boxes choose of a file in the pass that judges it.
fn judged(alloc: Global, input: &[u8]) -> Result<Vec<Chosen>, Stop> {
    let mut each = phases(alloc)?;
    let _judged = judge(passes(alloc), &mut Pieces::new(input, &[], None), &mut each)?;
    Ok(chosen(alloc, each)?)
}

/// The same in a later pass.
fn gathered(alloc: Global, input: &[u8]) -> Result<Vec<Chosen>, Stop> {
    let mut each = phases(alloc)?;
    let _digest = gather_unjudged(
        passes(alloc),
        &mut Pieces::new(input, &[], None),
        &mut each,
        2,
    )?;
    Ok(chosen(alloc, each)?)
}

/// Only the first box has the node 10, and so it keeps the other node of the way too.
#[test]
fn a_node_and_a_way(rt: HostRuntime) -> Result<(), Fail> {
    let mut input = file(rt.alloc(), &PLAIN_NODE, 0x02)?;
    input.extend_from_slice(&WAY)?;
    let first = judged(rt.alloc(), &input)?;
    assert_eq!(rt; keep(&first, 10), [true, false, false]);
    assert_eq!(rt; keep(&first, 20), [true, false, false]);
    let later = gathered(rt.alloc(), &input)?;
    assert_eq!(rt; keep(&later, 10), [true, false, false]);
    assert_eq!(rt; keep(&later, 20), [true, false, false]);
    Ok(())
}

#[test]
fn dense_nodes(rt: HostRuntime) -> Result<(), Fail> {
    let first = judged(rt.alloc(), &THREE_DENSE_NODES)?;
    assert_eq!(rt; keep(&first, 10), [true, false, false]);
    assert_eq!(rt; keep(&first, 11), [false, true, false]);
    assert_eq!(rt; keep(&first, 15), [true, false, false]);
    Ok(())
}
