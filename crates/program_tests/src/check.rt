//! What no clause of `check` says: how it ends if a read fails, and the counts of a file of every kind. `pbf_vectors` makes it of
//! each case of the suite.

use crate::blobs::{HEADER_ALONE, THREE_DENSE_NODES};
use pbf_frame::{Pieces, Stop};
use pbfcut::{Counts, check};
use std::alloc::Global;
use std::process::Abort;
use std::test::Fail;

pub(crate) fn counts(nodes: u64, ways: u64, relations: u64) -> Result<Counts, Stop> {
    Ok(Counts {
        nodes,
        ways,
        relations,
    })
}

/// How `check` ends over the input in pieces of these lengths, if this read fails.
fn ends(
    alloc: Global,
    input: &[u8],
    lengths: &[usize],
    failing: Option<u64>,
) -> Result<Counts, Stop> {
    check(alloc, &mut Pieces::new(input, lengths, failing))
}

/// Checks the input whole, one byte a read and in pieces of seven.
fn checks(
    rt: &(impl Abort + AllocGlobal),
    input: &[u8],
    outcome: Result<Counts, Stop>,
) -> Result<(), Fail> {
    assert_eq!(rt; ends(rt.alloc(), input, &[], None), outcome);
    assert_eq!(rt; ends(rt.alloc(), input, &[1], None), outcome);
    assert_eq!(rt; ends(rt.alloc(), input, &[7], None), outcome);
    Ok(())
}

#[test]
fn each_read_failing_in_turn(rt: HostRuntime) -> Result<(), Fail> {
    let mut failed = 0;
    for call in 0..60 {
        let ended = ends(rt.alloc(), &THREE_DENSE_NODES, &[7], Some(call));
        assert!(rt;
            ended == counts(3, 0, 0) || ended == Err(Stop::Read),
            "{call}"
        );
        if ended.is_err() {
            failed = call;
        }
    }
    // It takes nine reads of seven bytes at the least, and one that finds the end.
    assert!(rt; failed >= 9);
    Ok(())
}

/// A node, a way and a relation, each in a block of its own, and a frame of another type between.
#[test]
fn entities_of_each_kind(rt: HostRuntime) -> Result<(), Fail> {
    let rest = [
        0x00, 0x00, 0x00, 0x0b, 0x0a, 0x07, 0x4f, 0x53, 0x4d, 0x44, 0x61, 0x74, 0x61, 0x18, 0x10,
        0x0a, 0x0e, 0x0a, 0x02, 0x0a, 0x00, 0x12, 0x08, 0x0a, 0x06, 0x08, 0x14, 0x40, 0x02, 0x48,
        0x02, 0x00, 0x00, 0x00, 0x07, 0x0a, 0x03, 0x46, 0x6f, 0x6f, 0x18, 0x04, 0x0a, 0x02, 0x01,
        0x02, 0x00, 0x00, 0x00, 0x0b, 0x0a, 0x07, 0x4f, 0x53, 0x4d, 0x44, 0x61, 0x74, 0x61, 0x18,
        0x10, 0x0a, 0x0e, 0x0a, 0x02, 0x0a, 0x00, 0x12, 0x08, 0x1a, 0x02, 0x08, 0x07, 0x1a, 0x02,
        0x08, 0x08, 0x00, 0x00, 0x00, 0x0b, 0x0a, 0x07, 0x4f, 0x53, 0x4d, 0x44, 0x61, 0x74, 0x61,
        0x18, 0x0c, 0x0a, 0x0a, 0x0a, 0x02, 0x0a, 0x00, 0x12, 0x04, 0x22, 0x02, 0x08, 0x09,
    ];
    let mut input = Vec::from_slice(rt.alloc(), &HEADER_ALONE)?;
    input.extend_from_slice(&rest)?;
    checks(&rt, &input, counts(1, 2, 1))
}
