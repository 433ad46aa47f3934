//! What is cut out of a file by one call: several areas, each with its drain.

ghost use Rattle.std.specs.Prelude.{◌≡◌, []};
ghost use Rattle.pbf_block.specs.Numbers.{counts_of};

use osm_ways::Chosen;
use pbf_block::Counts;
use pbf_header::Header;

/// One of several extracts of a file: what is cut out, and where it goes.
#[derive(Drop)]
pub struct AreaOutput<A, D> {
    /// The area.
    pub area: A,
    /// The drain that takes its extract.
    pub drain: D,
    /// The numbers of the entities that the drain took, once a call has written all of them.
    pub counts: Counts,
}

impl<A, D> AreaOutput<A, D> {
    /// An area whose extract was not written yet.
    pub fn new(area: A, drain: D) -> AreaOutput<A, D>
        ensures area { result.area ≡ area }
        ensures drain { result.drain ≡ drain }
        ensures counts { result.counts ≡ counts_of [] }
    {
        AreaOutput {
            area,
            drain,
            counts: Counts::none(),
        }
    }
}

/// What a call that writes several extracts reports. The counts are in the outputs.
#[derive(Clone, Copy, Debug)]
pub struct EachReceipt {
    /// The digest of the bytes that each feed gave that was read. It says nothing if the check is [`PassCheck::None`](pbf_pass::PassCheck::None).
    pub input: [u8; 32],
    /// Whether nothing was read of the feeds between the first and the last, since the first pass was enough for all areas.
    pub spared: bool,
}

/// What the passes before the one that writes report of one area.
#[derive(Drop)]
pub(crate) struct AreaChoice {
    /// What is kept.
    pub(crate) chosen: Chosen,
    /// The header that is written.
    pub(crate) header: Header,
}
