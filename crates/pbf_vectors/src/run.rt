//! One run of a call over devices in memory.

use osm_entity::BoundingBox;
use pbf_frame::{Pieces, Sink, Stop};
use pbfcut::{Counts, check, convert, extract, extract_parents};
use std::alloc::Global;
use std::hash::{BuildHasherDefault, FoldHasher};

/// A call over a file. All but `check` write one.
#[derive(Clone, Copy)]
pub(crate) enum Call {
    Check,
    Convert,
    Extract,
    ExtractParents,
}

/// All of them.
pub(crate) const CALLS: [Call; 4] = [
    Call::Check,
    Call::Convert,
    Call::Extract,
    Call::ExtractParents,
];

impl Call {
    /// How many passes it makes. It writes in the last, if it writes.
    pub(crate) fn passes(self) -> u8 {
        match self {
            Call::Check => 1,
            Call::Convert => 2,
            Call::Extract => 3,
            Call::ExtractParents => 4,
        }
    }
}

/// What a pass is supplied with: bytes, in pieces of these lengths; the read of this number fails.
#[derive(Clone, Copy)]
pub(crate) struct Pass<'a> {
    pub(crate) bytes: &'a [u8],
    pub(crate) lengths: &'a [usize],
    pub(crate) failing_call: Option<u64>,
}

impl<'a> Pass<'a> {
    /// All of the bytes at once.
    pub(crate) fn whole(bytes: &'a [u8]) -> Pass<'a> {
        Pass {
            bytes,
            lengths: &[],
            failing_call: None,
        }
    }

    fn feed(&self) -> Pieces<'a> {
        Pieces::new(self.bytes, self.lengths, self.failing_call)
    }
}

/// Makes the call over these passes, as many as it has.
pub(crate) fn run(
    alloc: Global,
    call: Call,
    area: BoundingBox,
    passes: &[Pass<'_>; 4],
    sink: &mut Sink,
) -> Result<Counts, Stop> {
    let mut first = passes[0].feed();
    let mut second = passes[1].feed();
    let mut third = passes[2].feed();
    let mut fourth = passes[3].feed();
    let hasher: BuildHasherDefault<FoldHasher> = BuildHasherDefault::new();
    match call {
        Call::Check => check(alloc, &mut first),
        Call::Convert => convert(alloc, &mut first, &mut second, sink, hasher),
        Call::Extract => extract(
            alloc,
            &mut first,
            &mut second,
            &mut third,
            area,
            sink,
            hasher,
        ),
        Call::ExtractParents => extract_parents(
            alloc,
            &mut first,
            &mut second,
            &mut third,
            &mut fourth,
            area,
            sink,
            hasher,
        ),
    }
}
