//! Several areas, which are cut out of IN in one run.

ghost use Rattle.std.specs.Prelude.{◌≡◌, ◌+◌, length};
ghost use Rattle.pbfcut.specs.EachReceipts.{each_strategy};
ghost use Rattle.pbfcut.specs.Tasks.{spares_by};
ghost use Rattle.pbfcut_program.specs.Inputs.{AreReady, feeds_in};
ghost use Rattle.pbfcut_program.specs.Jobs.{area_of};
ghost use Rattle.pbfcut_program.specs.Manner.{check_in, manner_of};
ghost use Rattle.pbfcut_program.specs.Several.{ReportsPublishedEach, ReportsRawEach, RunsEach};
ghost use Rattle.pbfcut_program.specs.SeveralOuts.{cut_into};

use crate::engine::{Engine, Halted};
use crate::host::Seed;
use crate::jobs::Cut;
use crate::opening::Inputs;
use osm_area::Area;
use osm_box::BoundingBox;
use pbf_frame::{Drain, Feed};
use pbf_pass::Halt;
use pbf_published::{PublishedDigests, PublishedFeed, PublishedHalt};
use pbfcut::{AreaOutput, EachReceipt, EachStrategy};
use std::hash::BuildHasher;

/// A box or polygons, so that both can be cut out in one run.
impl Area for Cut {
    ghost area = { area_of };

    fn bounds(&self) -> BoundingBox {
        match self {
            Cut::Box(area) => area.bounds(),
            Cut::Polygon(area) => area.bounds(),
        }
    }

    fn contains(&self, lat: i128, lon: i128) -> bool {
        match self {
            Cut::Box(area) => area.contains(lat, lon),
            Cut::Polygon(area) => area.contains(lat, lon),
        }
    }

    fn as_box(&self) -> Option<BoundingBox> {
        match self {
            Cut::Box(area) => area.as_box(),
            Cut::Polygon(area) => area.as_box(),
        }
    }
}

/// An area that is cut out of IN, and the digests of what its OUT took: none before the run, and none if digests are not printed.
#[derive(Clone, Copy)]
pub(crate) struct OutputArea<'a> {
    pub(crate) cut: &'a Cut,
    /// The digest of what OUT took.
    pub(crate) output: Option<[u8; 32]>,
    /// The digest of the raw file that this means, if it isn't that.
    pub(crate) meaning: Option<[u8; 32]>,
}

impl Area for OutputArea<'_> {
    ghost area = { cut_into };

    fn bounds(&self) -> BoundingBox {
        self.cut.bounds()
    }

    fn contains(&self, lat: i128, lon: i128) -> bool {
        self.cut.contains(lat, lon)
    }

    fn as_box(&self) -> Option<BoundingBox> {
        self.cut.as_box()
    }
}

/// What a run reports of IN that cuts out several areas: the numbers of the entities are in the outputs.
#[derive(Clone, Copy)]
pub(crate) struct InputDigests {
    /// The digest of IN.
    pub(crate) input: [u8; 32],
    /// The digest of IN unpacked, if it is.
    pub(crate) raw: Option<[u8; 32]>,
}

/// What a call over raw files came to.
fn reported_each(outcome: Result<EachReceipt, Halt>) -> Result<InputDigests, Halted>
    ensures { ReportsRawEach outcome result }
{
    match outcome {
        Ok(receipt) => {
            let input = receipt.input;
            Ok(InputDigests { input, raw: None })
        }
        Err(halt) => Err(Halted::from(halt)),
    }
}

/// What a call over published files came to.
fn published_each(outcome: Result<PublishedDigests, PublishedHalt>) -> Result<InputDigests, Halted>
    ensures { ReportsPublishedEach outcome result }
{
    match outcome {
        Ok(receipt) => {
            let (input, raw) = (receipt.input, receipt.raw);
            Ok(InputDigests {
                input,
                raw: Some(raw),
            })
        }
        Err(halt) => Err(Halted::from(halt)),
    }
}

/// Writes the extract of each of these areas of IN, which was opened for each pass, into its drain. The outputs come back in the same order.
pub(crate) fn run_task_each<A: Area + Copy, F: Feed, D: Drain + Drop, S: BuildHasher + Copy + Drop>(
    engine: Engine,
    strategy: EachStrategy,
    inputs: &mut Inputs<F>,
    outputs: Vec<AreaOutput<A, D>>,
    seed: Seed<S>,
) -> (Vec<AreaOutput<A, D>>, Result<InputDigests, Halted>)
    requires count { length (feeds_in inputs.old) ≡ spares_by (each_strategy strategy) + 2 }
    requires ready { AreReady F.Feed ⟦<PublishedFeed<F> as Feed>⟧ engine.program
        (check_in engine seed.key) inputs.old }
    ensures { RunsEach (manner_of engine) (check_in engine seed.key) (each_strategy strategy)
        A.area F.Feed D.Drain (feeds_in inputs.old) (feeds_in inputs.new)
        outputs.items result.0.items result.1 }
{
    let Seed { hasher, key } = seed;
    let how = engine.many_passes(key);
    match inputs {
        Inputs::Raw(feeds) => {
            let (outputs, outcome) = strategy.extract(how, feeds, outputs, hasher);
            (outputs, reported_each(outcome))
        }
        Inputs::Published(feeds) => {
            let (outputs, outcome) = pbf_published::run_published_each(
                how, strategy, feeds, outputs, hasher,
            );
            (outputs, published_each(outcome))
        }
    }
}
