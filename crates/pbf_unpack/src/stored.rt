//! How the blobs of a file are stored.

ghost use Rattle.std.specs.Prelude.{◌≡◌};
ghost use Rattle.pbf_unpack.specs.Stored.{none_stored, stored_after, stored_by_kind, together};

use crate::unpack::Outcome;
use pbf_frame::FrameKind;

/// How blobs of headers and of entities are stored.
#[derive(Clone, Copy, Debug, PartialEq, Eq)]
pub struct Stored {
    /// Some are zlib data.
    pub packed: bool,
    /// Some are raw.
    pub raw: bool,
}

impl Stored {
    /// Those of nothing.
    pub(crate) fn none() -> Stored
        ensures { result ≡ none_stored }
    {
        Stored {
            packed: false,
            raw: false,
        }
    }

    /// That of a frame of which this became.
    fn after(outcome: Outcome) -> Stored
        ensures { result ≡ stored_after outcome }
    {
        let packed = outcome != Outcome::Kept;
        Stored {
            packed,
            raw: !packed,
        }
    }

    /// These and one frame more. A blob of another type than `OSMHeader` and `OSMData` doesn't count.
    pub(crate) fn with(self, kind: FrameKind, outcome: Outcome) -> Stored
        ensures { result ≡ together self (stored_by_kind kind outcome) }
    {
        if kind == FrameKind::Other {
            return self;
        }
        let one = Stored::after(outcome);
        Stored {
            packed: self.packed || one.packed,
            raw: self.raw || one.raw,
        }
    }
}
