//! How ids lie in strips.

ghost use Rattle.std.specs.Prelude.{◌<◌};

/// How ids lie in strips: 2^shift in a row, a run, share one, and after strip `mask`, one less than a power of two, comes the first again.
#[derive(Clone, Copy, Debug)]
pub(crate) struct IdRuns {
    pub(crate) shift: u32,
    pub(crate) mask: u64,
    ghost width: { shift < 64 },
}
