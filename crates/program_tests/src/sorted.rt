//! What no clause says of `extract_sorted`: that it goes through. One that always gives up for want of memory meets its contract.

use crate::check::counts;
use crate::later_pass::{PLAIN_NODE, file};
use crate::steps::AREA;
use pbf_frame::{Pieces, Sink};
use pbfcut::extract_sorted;
use std::alloc::{AllocError, Global};
use std::hash::{BuildHasherDefault, FoldHasher};
use std::test::Fail;

/// Whether one node is written of these bytes, while no read of the second feed succeeds.
fn cuts(alloc: Global, bytes: &[u8]) -> Result<bool, AllocError> {
    let mut first = Pieces::new(bytes, &[], None);
    let mut second = Pieces::new(&[], &[], Some(0));
    let mut third = Pieces::new(bytes, &[], None);
    let mut sink = Sink::new(alloc, 4_096, 0)?;
    let hasher: BuildHasherDefault<FoldHasher> = BuildHasherDefault::new();
    let ended = extract_sorted(
        alloc,
        &mut first,
        &mut second,
        &mut third,
        AREA,
        &mut sink,
        hasher,
    );
    Ok(ended == counts(1, 0, 0))
}

#[test]
fn a_sorted_file_is_read_twice(rt: HostRuntime) -> Result<(), Fail> {
    let bytes = file(rt.alloc(), &PLAIN_NODE, 0x02)?;
    assert!(rt; cuts(rt.alloc(), &bytes)?);
    Ok(())
}
