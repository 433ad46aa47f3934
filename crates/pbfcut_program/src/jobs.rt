//! What is done with IN, opened for each pass that it takes.

ghost use Rattle.std.specs.Prelude.{◌≡◌, ◌∷◌, ℕ, [], List, length, map, IfOk, IfErr, Ok};
ghost use Rattle.osm_polygon.specs.Groups.{clusters_area};
ghost use Rattle.osm_polygon.specs.Polygon.{Rings};
ghost use Rattle.osm_polygon.specs.Polygons.{polygons_area, polygons_of};
ghost use Rattle.osm_polygon.specs.Texts.{polygons_of_text};
ghost use Rattle.osm_ways.specs.Selection.{all_parents, complete_ways};
ghost use Rattle.pbfcut.specs.Tasks.{extracting, passes_of};
ghost use Rattle.pbfcut_program.specs.Devices.{AreFresh, CloseAll, RunsTask};
ghost use Rattle.pbfcut_program.specs.Events.{Logs, text_read, then_all, openings};
ghost use Rattle.pbfcut_program.specs.Fails.{StopsOpening};
ghost use Rattle.pbfcut_program.specs.Inputs.{AreReady, feeds_in};
ghost use Rattle.pbfcut_program.specs.Jobs.{IsReadyFor, area_of, feeds_of, plan_of, task_of};
ghost use Rattle.pbfcut_program.specs.Manner.{check_in, manner_of};
ghost use Rattle.pbfcut_program.specs.Program.{MeansArea};

use crate::engine::{Engine, Halted, Report, run_task};
use crate::host::{Host, Seed, TextFault};
use crate::opening::{Input, Inputs, close_inputs, open_passes};
use osm_box::BoundingBox;
use osm_polygon::{MultiPolygon, read_polygons};
use osm_ways::WholeTypes;
use pbf_frame::{Drain, Feed, Stop};
use pbf_published::PublishedFeed;
use pbfcut::{AllParents, CompleteWays, PlainTask, Smart};
use pbfcut_cli::{Ending, Region};
use std::alloc::Global;
use std::hash::BuildHasher;
use std::mem;

/// What is cut out.
#[derive(Drop)]
pub(crate) enum Cut {
    Box(BoundingBox),
    Polygon(MultiPolygon),
}

/// The polygons of a file: GeoJSON or a `.poly` file.
pub(crate) fn read_area<H: Host>(
    alloc: Global,
    host: &mut H,
    path: &str,
) -> Result<MultiPolygon, Ending>
    ensures ok { IfOk result (λ area. (text : List ℕ) × (polygons : List Rings)
        × (H.log host.new ≡ then_all (H.log host.old) (text_read path.now text ∷ []))
        × (polygons_of_text text ≡ Ok polygons)
        × (clusters_area area ≡ polygons_area (polygons_of polygons))) }
    ensures err { IfErr result (StopsOpening (H.log host.old) (H.log host.new)) }
{
    let text = match host.read_text(path) {
        Ok(text) => text,
        Err(TextFault::Memory) => return Err(Ending::Stopped(Stop::Memory)),
        Err(TextFault::Failed) => return Err(Ending::CannotOpen),
    };
    let polygons = read_polygons(alloc, text.as_str())?;
    match MultiPolygon::new(alloc, polygons.as_slice()) {
        Ok(area) => Ok(area),
        Err(_) => Err(Ending::Stopped(Stop::Memory)),
    }
}

/// Reads what is cut out, if it is in a file.
pub(crate) fn read_region<H: Host>(
    alloc: Global,
    host: &mut H,
    region: &Region<'_>,
) -> Result<Cut, Ending>
    ensures ok { IfOk result (λ cut. Logs (H.log host.old) (H.log host.new) (λ events.
        MeansArea region.now events (area_of cut))) }
    ensures err { IfErr result (StopsOpening (H.log host.old) (H.log host.new)) }
{
    match region {
        Region::Box(area) => Ok(Cut::Box(*area)),
        Region::Polygon(path) => Ok(Cut::Polygon(read_area(alloc, host, path)?)),
    }
}

/// What is to be done with IN.
#[derive(Drop)]
pub(crate) enum Plan {
    Convert,
    Copy,
    Extract(Cut),
    ExtractParents(Cut),
    ExtractSmart(Cut, WholeTypes),
}

impl Plan {
    /// How often IN is read.
    fn passes(&self) -> u8
        ensures { result ≡ passes_of (plan_of self.now) }
    {
        match self {
            Plan::Convert | Plan::Copy => 2,
            Plan::Extract(_) | Plan::ExtractSmart(_, _) => 3,
            Plan::ExtractParents(_) => 4,
        }
    }
}

/// What is done with IN, opened for each pass.
#[derive(Drop)]
pub(crate) struct Job<F> {
    pub(crate) plan: Plan,
    pub(crate) inputs: Inputs<F>,
}

/// Opens IN for each pass of what is to be done.
pub(crate) fn open_plan<H: Host>(
    alloc: Global,
    host: &mut H,
    path: &str,
    progress: bool,
    plan: &Plan,
) -> Result<Vec<H::In>, Ending>
    ensures opened { IfOk result (λ feeds. H.log host.new ≡ then_all (H.log host.old)
        (openings path.now 1 (map H.In.remaining feeds.items))) }
    ensures fresh { IfOk result (λ feeds. AreFresh H.In.Feed feeds.items) }
    ensures count { IfOk result (λ feeds. length feeds.items ≡ passes_of (plan_of plan.now)) }
    ensures failed { IfErr result (StopsOpening (H.log host.old) (H.log host.new)) }
{
    let input = Input {
        path,
        passes: plan.passes(),
        progress,
    };
    open_passes(alloc, host, &input)
}

/// Writes the complete-ways extract.
fn cut_out<F: Feed, D: Drain, S: BuildHasher + Drop>(
    engine: Engine,
    cut: &Cut,
    inputs: &mut Inputs<F>,
    drain: &mut D,
    seed: Seed<S>,
) -> Result<Report, Halted>
    requires count { length (feeds_in inputs.old) ≡ 3 }
    requires ready { AreReady F.Feed ⟦<PublishedFeed<F> as Feed>⟧ engine.program
        (check_in engine seed.key) inputs.old }
    ensures { RunsTask (manner_of engine) (check_in engine seed.key) F.Feed D.Drain
        (extracting complete_ways (area_of cut.now))
        (feeds_in inputs.old) (feeds_in inputs.new) drain.old drain.new result }
{
    match cut {
        Cut::Box(area) => run_task(engine, CompleteWays { area }, inputs, drain, seed),
        Cut::Polygon(area) => run_task(engine, CompleteWays { area }, inputs, drain, seed),
    }
}

/// Writes the extract with all parents.
fn cut_out_parents<F: Feed, D: Drain, S: BuildHasher + Drop>(
    engine: Engine,
    cut: &Cut,
    inputs: &mut Inputs<F>,
    drain: &mut D,
    seed: Seed<S>,
) -> Result<Report, Halted>
    requires count { length (feeds_in inputs.old) ≡ 4 }
    requires ready { AreReady F.Feed ⟦<PublishedFeed<F> as Feed>⟧ engine.program
        (check_in engine seed.key) inputs.old }
    ensures { RunsTask (manner_of engine) (check_in engine seed.key) F.Feed D.Drain
        (extracting all_parents (area_of cut.now))
        (feeds_in inputs.old) (feeds_in inputs.new) drain.old drain.new result }
{
    match cut {
        Cut::Box(area) => run_task(engine, AllParents { area }, inputs, drain, seed),
        Cut::Polygon(area) => run_task(engine, AllParents { area }, inputs, drain, seed),
    }
}

/// Does it, into a drain.
pub(crate) fn do_job<F: Feed, D: Drain, S: BuildHasher + Drop>(
    engine: Engine,
    job: &mut Job<F>,
    drain: &mut D,
    seed: Seed<S>,
) -> Result<Report, Halted>
    requires { IsReadyFor F.Feed ⟦<PublishedFeed<F> as Feed>⟧ engine seed.key job.old }
    ensures { RunsTask (manner_of engine) (check_in engine seed.key) F.Feed D.Drain (task_of job.old)
        (feeds_of job.old) (feeds_of job.new) drain.old drain.new result }
{
    let Job { plan, inputs } = job;
    match plan {
        Plan::Convert => run_task(engine, PlainTask::Convert, inputs, drain, seed),
        Plan::Copy => run_task(engine, PlainTask::Copy, inputs, drain, seed),
        Plan::Extract(cut) => cut_out(engine, cut, inputs, drain, seed),
        Plan::ExtractParents(cut) => cut_out_parents(engine, cut, inputs, drain, seed),
        Plan::ExtractSmart(cut, types) => {
            let types = mem::replace(types, WholeTypes::none(engine.alloc));
            match &*cut {
                Cut::Box(area) => run_task(engine, Smart { area, types }, inputs, drain, seed),
                Cut::Polygon(area) => run_task(engine, Smart { area, types }, inputs, drain, seed),
            }
        }
    }
}

/// Hands all feeds of a job back.
pub(crate) fn close_job<H: Host>(host: &mut H, job: Job<H::In>)
    ensures { CloseAll H.In.Feed (feeds_of job) (H.log host.old) (H.log host.new) }
{
    close_inputs(host, job.inputs);
}
