//! What no clause of `convert` says: how it ends if the second pass finds a fault in a payload, which isn't judged again.

use crate::blobs::HEADER_ALONE;
use crate::check::counts;
use pbf_frame::{Pieces, Sink, Stop};
use pbfcut::{Counts, convert};
use std::alloc::{AllocError, Global};
use std::hash::{BuildHasherDefault, FoldHasher};
use std::test::Fail;

/// A frame of one plain node, without its last byte, of the longitude.
pub(crate) const PLAIN_NODE: [u8; 30] = [
    0x00, 0x00, 0x00, 0x0b, 0x0a, 0x07, 0x4f, 0x53, 0x4d, 0x44, 0x61, 0x74, 0x61, 0x18, 0x10, 0x0a,
    0x0e, 0x0a, 0x02, 0x0a, 0x00, 0x12, 0x08, 0x0a, 0x06, 0x08, 0x14, 0x40, 0x02, 0x48,
];

/// A frame of one dense node, without its last byte, of the granularity.
const GRANULARITY: [u8; 45] = [
    0x00, 0x00, 0x00, 0x0b, 0x0a, 0x07, 0x4f, 0x53, 0x4d, 0x44, 0x61, 0x74, 0x61, 0x18, 0x1f, 0x0a,
    0x1d, 0x0a, 0x08, 0x0a, 0x00, 0x0a, 0x01, 0x61, 0x0a, 0x01, 0x62, 0x12, 0x0b, 0x12, 0x09, 0x0a,
    0x01, 0x02, 0x42, 0x01, 0x02, 0x4a, 0x01, 0x02, 0x88, 0x01, 0x07, 0x88, 0x01,
];

/// A file of a header and this frame, whose last byte comes apart.
pub(crate) fn file(alloc: Global, frame: &[u8], last: u8) -> Result<Vec<u8>, AllocError> {
    let mut bytes = Vec::from_slice(alloc, &HEADER_ALONE)?;
    bytes.extend_from_slice(frame)?;
    bytes.push(last)?;
    Ok(bytes)
}

/// Whether a conversion ends so, if the passes read these bytes.
fn converts(
    alloc: Global,
    one: &[u8],
    other: &[u8],
    outcome: Result<Counts, Stop>,
) -> Result<bool, AllocError> {
    let mut first = Pieces::new(one, &[], None);
    let mut second = Pieces::new(other, &[], None);
    let mut sink = Sink::new(alloc, 4_096, 0)?;
    let hasher: BuildHasherDefault<FoldHasher> = BuildHasherDefault::new();
    let ended = convert(alloc, &mut first, &mut second, &mut sink, hasher);
    Ok(ended == outcome)
}

/// Whether a conversion ends so, if the file's last byte is the first of these in pass 1 and the second in pass 2.
fn ends_so(
    alloc: Global,
    frame: &[u8],
    lasts: (u8, u8),
    outcome: Result<Counts, Stop>,
) -> Result<bool, AllocError> {
    let one = file(alloc, frame, lasts.0)?;
    let other = file(alloc, frame, lasts.1)?;
    converts(alloc, &one, &other, outcome)
}

#[test]
fn a_cut_number_in_pass_2(rt: HostRuntime) -> Result<(), Fail> {
    assert!(rt; ends_so(rt.alloc(), &PLAIN_NODE, (0x02, 0x02), counts(1, 0, 0))?);
    assert!(rt; ends_so(rt.alloc(), &PLAIN_NODE, (0x02, 0x82), Err(Stop::Changed(2)))?);
    Ok(())
}

/// A node of this granularity can't be written.
#[test]
fn a_granularity_of_nothing_in_pass_2(rt: HostRuntime) -> Result<(), Fail> {
    assert!(rt; ends_so(rt.alloc(), &GRANULARITY, (0x07, 0x07), counts(1, 0, 0))?);
    assert!(rt;
        ends_so(
            rt.alloc(),
            &GRANULARITY,
            (0x07, 0x00),
            Err(Stop::Changed(2))
        )?
    );
    Ok(())
}
