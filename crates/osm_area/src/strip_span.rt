//! Where strips of longitude lie.

ghost use Rattle.std.specs.Prelude.{◌<◌};

/// Where strips lie: from `west` to `east`, each 2^shift nanodegrees wide.
#[derive(Clone, Copy, Debug)]
pub(crate) struct StripSpan {
    pub(crate) west: i64,
    pub(crate) east: i64,
    pub(crate) shift: u32,
    ghost width: { shift < 64 },
}
