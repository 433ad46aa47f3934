//! The commands that write a file. Before anything is written it is settled that OUT is new, IN is opened once for each pass, and there is
//! a seed.

ghost use Rattle.std.specs.Prelude.{◌≡◌, ◌⊎◌, ◌∷◌, ◌++◌, ◌<◌, [], List, length, map, IfErr, IfOk, IfSome, None, OnOk, string_bytes, true};
ghost use Rattle.std.specs.Option.{option_map};
ghost use Rattle.std.specs.Result.{result_err};
ghost use Rattle.pbf_frame.specs.declared.stop.Stop.TheVariants as stop;
ghost use Rattle.pbfcut_cli.specs.declared.endings.Ending.TheVariants as ending;
ghost use Rattle.pbf_pass.specs.Stops.{WriteFailed};
ghost use Rattle.pbf_unpack.specs.Packing.{taken_raw};
ghost use Rattle.pbfcut_cli.specs.declared.programs.Program.TheVariants.{Pbfcutz};
ghost use Rattle.pbfcut_program.specs.Devices.{AreFresh, DrainFailed, FinishesPacked, Fronts, IsAsked, IsFreshOut, IsShownAs, Leads, MeansBy, TakenBy, Wholes, Works, WorksOn};
ghost use Rattle.pbfcut_program.specs.Events.{Event, Reading, Writing, read, wrote, then_all};
ghost use Rattle.pbfcut_program.specs.Files.{IsKept, IsMade};
ghost use Rattle.pbfcut_program.specs.Fails.{Each, Fails, FailsFor, FailsOpening, Quiet, judging_for};
ghost use Rattle.pbfcut_program.specs.Jobs.{IsReadyFor, area_of, feeds_of, plan_of, task_of};
ghost use Rattle.pbfcut_program.specs.Leaving.{Leaves, LeavesFor};
ghost use Rattle.pbfcut_program.specs.Outcomes.{ending_of_file};
ghost use Rattle.pbfcut_program.specs.Program.{LeavesCut, RunsExtract, Writes, WritesCounts, advice, begun, is_empty, is_screen, judging_cut, looks, screen_of, strategy_of};
ghost use Rattle.pbfcut_program.specs.Manner.{check_in, hashes_meaning, input_form, manner_of, output_form, packed_file, to_raw};
ghost use Rattle.pbfcut_program.specs.Settling.{Returns, Settles};
ghost use Rattle.pbfcut_program.specs.Worked.{Worked};
ghost use Rattle.pbfcut.specs.Tasks.{extracting, passes_of};
ghost use Rattle.pbfcut_program.specs.Telling.{IsSaid, SaysLittle};

use crate::engine::{Engine, Halted, Report};
use crate::host::{FinishFault, Host, Screen, Seed};
use crate::jobs::{Cut, Job, Plan, close_job, do_job, open_plan, read_region};
use crate::linked::LinkedDrain;
use crate::opening::{draw_seed, open_inputs};
use crate::output::{Output, Place, drop_out, keep_out, make_out};
use crate::printing::{Done, print_done, tell_refusal};
use osm_ways::WholeTypes;
use pbf_frame::{Drain, Feed, Stop};
use pbf_pass::{Counts, HashedDrain};
use pbf_published::PublishedFeed;
use pbf_unpack::{Deflater, PackedDrain};
use pbfcut_cli::{Ending, Files, Program, Region, Strategy};
use std::alloc::{AllocError, Global};
use std::hash::BuildHasher;

/// Whether OUT is standard output, which only pbfcutz writes to.
fn is_screen(program: Program, output: &str) -> bool
    ensures { result ≡ is_screen program output.now }
{
    program == Program::Pbfcutz && (output == "-" || output == "/dev/stdout")
}

/// Where counts and digests go.
fn screen_of(is_screen: bool) -> Screen
    ensures { result ≡ screen_of is_screen }
{
    if is_screen {
        Screen::Error
    } else {
        Screen::Output
    }
}

/// Refuses an OUT that is there, unless it is standard output.
fn refuse_existing<H: Host>(host: &mut H, is_screen: bool, files: &Files<'_>) -> Result<(), Ending>
    ensures ok { OnOk result (H.log host.new
        ≡ then_all (H.log host.old) (looks is_screen files.now)) }
    ensures err { IfErr result (λ how. (events : List Event)
        × (H.log host.new ≡ then_all (H.log host.old) events) × FailsOpening how events) }
{
    if is_screen {
        return Ok(());
    }
    if host.exists(files.output, files.overwrite) {
        return Err(Ending::OutExists);
    }
    Ok(())
}

/// The place of OUT.
fn place_of<'a>(program: Program, files: &Files<'a>) -> Place<'a>
    ensures { (result.program ≡ program) × (result.path ≡ files.now.output)
        × (result.overwrite ≡ files.now.overwrite) }
{
    Place {
        program,
        path: files.output,
        overwrite: files.overwrite,
    }
}

/// All that is needed before a command writes.
#[derive(Drop)]
struct Ready<F, D, S> {
    job: Job<F>,
    out: Output<D>,
    seed: Seed<S>,
}

/// Settles that OUT is new, opens IN for each pass, draws a seed, and makes OUT.
fn prepare<H: Host>(
    engine: Engine,
    host: &mut H,
    files: &Files<'_>,
    plan: Plan,
    progress: bool,
) -> Result<Ready<H::In, H::Out, H::Hasher>, Ending>
    ensures ok { IfOk result (λ r. (makes : List Event) × (H.log host.new ≡ then_all (H.log host.old)
        (begun (is_screen engine.program files.now.output.now) files.now
        (map H.In.remaining (feeds_of r.job)) r.seed.key makes))
        × IsMade engine.program (is_screen engine.program files.now.output.now) files.now.output.now
        (option_map string_bytes r.out.name) makes) }
    ensures fresh { IfOk result (λ r. AreFresh H.In.Feed (feeds_of r.job)
        × IsFreshOut H.Out.Drain r.out.drain) }
    ensures planned { IfOk result (λ r. (task_of r.job ≡ plan_of plan)
        × (length (feeds_of r.job) ≡ passes_of (plan_of plan))) }
    ensures ready { IfOk result (λ r. IsReadyFor H.In.Feed ⟦<PublishedFeed<H::In> as Feed>⟧
        engine r.seed.key r.job) }
    ensures err { IfErr result (λ how. (events : List Event)
        × (H.log host.new ≡ then_all (H.log host.old) events) × FailsOpening how events) }
{
    let to_screen = is_screen(engine.program, files.output);
    refuse_existing(host, to_screen, files)?;
    let feeds = open_plan(engine.alloc, host, files.input, progress, &plan)?;
    let seed = draw_seed(host)?;
    let inputs = open_inputs(engine, feeds, seed.key)?;
    let out = make_out(
        engine.alloc,
        host,
        to_screen,
        place_of(engine.program, files),
    )?;
    let job = Job { plan, inputs };
    Ok(Ready { job, out, seed })
}

/// What a job came to, and the drain that took what it wrote. If these are hashed, the digest of what was taken, and that of the raw file
/// which this means, if it isn't that.
#[derive(Drop)]
struct Ran<D> {
    result: Result<Report, Halted>,
    out: D,
    output: Option<[u8; 32]>,
    meaning: Option<[u8; 32]>,
}

/// Does a job, into a drain that takes raw blobs as they are.
fn run_raw<F: Feed, D: Drain + Drop, S: BuildHasher + Drop>(
    engine: Engine,
    job: &mut Job<F>,
    out: D,
    seed: Seed<S>,
) -> Ran<D>
    requires { IsReadyFor F.Feed ⟦<PublishedFeed<F> as Feed>⟧ engine seed.key job.old }
    ensures works { WorksOn (to_raw (manner_of engine)) (check_in engine seed.key)
        F.Feed D.Drain (task_of job.old)
        (feeds_of job.old) (feeds_of job.new) out result.out result.result }
    ensures front { Fronts (input_form engine.program) (task_of job.old)
        (map F.remaining (feeds_of job.old)) (D.taken out) (D.taken result.out) result.result }
    ensures whole { Wholes (input_form engine.program) (task_of job.old)
        (map F.remaining (feeds_of job.old)) (D.taken out) (D.taken result.out) result.result }
    ensures unhashed { (result.output ≡ None) × (result.meaning ≡ None) }
{
    let mut out = out;
    let result = do_job(engine, job, &mut out, seed);
    Ran {
        result,
        out,
        output: None,
        meaning: None,
    }
}

/// The same, and what the drain takes is hashed.
fn run_raw_hashed<F: Feed, D: Drain + Drop, S: BuildHasher + Drop>(
    engine: Engine,
    job: &mut Job<F>,
    out: D,
    seed: Seed<S>,
) -> Ran<D>
    requires { IsReadyFor F.Feed ⟦<PublishedFeed<F> as Feed>⟧ engine seed.key job.old }
    ensures works { AreFresh F.Feed (feeds_of job.old) → D.has_taken out 0 []
        → Works (to_raw (manner_of engine)) (check_in engine seed.key) F.Feed (task_of job.old)
        (feeds_of job.old) (feeds_of job.new) (TakenBy D.Drain result.out result.output)
        (WriteFailed D.Drain out result.out) result.result }
    ensures front { Fronts (input_form engine.program) (task_of job.old)
        (map F.remaining (feeds_of job.old)) (D.taken out) (D.taken result.out) result.result }
    ensures whole { Wholes (input_form engine.program) (task_of job.old)
        (map F.remaining (feeds_of job.old)) (D.taken out) (D.taken result.out) result.result }
    ensures hashed { IsAsked true result.output }
{
    let linked = LinkedDrain::new(HashedDrain::new(out));
    let ran = run_raw(engine, job, linked, seed);
    let mut hashed = ran.out.into_inner();
    let digest = hashed.digest();
    Ran {
        result: ran.result,
        out: hashed.into_inner(),
        output: Some(digest),
        meaning: None,
    }
}

/// The same, and what the drain takes is hashed if digests are printed.
fn run_raw_into<F: Feed, D: Drain + Drop, S: BuildHasher + Drop>(
    engine: Engine,
    job: &mut Job<F>,
    out: D,
    seed: Seed<S>,
) -> Ran<D>
    requires { IsReadyFor F.Feed ⟦<PublishedFeed<F> as Feed>⟧ engine seed.key job.old }
    ensures works { AreFresh F.Feed (feeds_of job.old) → D.has_taken out 0 []
        → Works (to_raw (manner_of engine)) (check_in engine seed.key) F.Feed (task_of job.old)
        (feeds_of job.old) (feeds_of job.new) (TakenBy D.Drain result.out result.output)
        (WriteFailed D.Drain out result.out) result.result }
    ensures front { Fronts (input_form engine.program) (task_of job.old)
        (map F.remaining (feeds_of job.old)) (D.taken out) (D.taken result.out) result.result }
    ensures whole { Wholes (input_form engine.program) (task_of job.old)
        (map F.remaining (feeds_of job.old)) (D.taken out) (D.taken result.out) result.result }
    ensures hashed { IsAsked engine.digests result.output }
{
    if engine.digests {
        run_raw_hashed(engine, job, out, seed)
    } else {
        run_raw(engine, job, out, seed)
    }
}

/// The halt of a call whose drain packs. If that drain stopped because memory was refused, a failed write is reported as that.
fn named(halted: Halted, of_drain: Option<Stop>) -> Halted
    ensures { IsShownAs of_drain halted.ending result.ending }
{
    let is_write = matches!(&halted.ending, Ending::Stopped(Stop::Write));
    if is_write && of_drain == Some(Stop::Memory) {
        return Halted::from(Stop::Memory);
    }
    halted
}

/// Gives OUT the rest of what a drain packs, once a call has ended.
pub(crate) fn finish<T: Drop, D: Drain>(
    returned: Result<T, Halted>,
    drain: &mut PackedDrain<D>,
) -> Result<T, Halted>
    ensures ends { FinishesPacked drain.old drain.new returned result }
    ensures taken { taken_raw drain.new ≡ taken_raw drain.old }
{
    let report = match returned {
        Ok(report) => report,
        Err(halted) => return Err(named(halted, drain.stop())),
    };
    if drain.finish().is_err() {
        return Err(named(Halted::from(Stop::Write), drain.stop()));
    }
    Ok(report)
}

/// Does a job, into a drain that gets zlib blobs.
fn run_packed<F: Feed, D: Drain + Drop, S: BuildHasher + Drop>(
    engine: Engine,
    job: &mut Job<F>,
    out: D,
    seed: Seed<S>,
) -> Ran<D>
    requires fresh { IfSome (D.taken out) (λ taken. taken ≡ []) }
    requires packs { (engine.program ≡ Pbfcutz) × (engine.packs ≡ true) }
    requires ready { IsReadyFor F.Feed ⟦<PublishedFeed<F> as Feed>⟧ engine seed.key job.old }
    ensures works { AreFresh F.Feed (feeds_of job.old) → D.has_taken out 0 []
        → Works (manner_of engine) (check_in engine seed.key) F.Feed (task_of job.old)
        (feeds_of job.old) (feeds_of job.new)
        (λ w. D.has_taken result.out 0 w × MeansBy packed_file result.meaning w)
        (DrainFailed D.Drain packed_file (task_of job.old)
        (map F.remaining (feeds_of job.old)) result.out) result.result }
    ensures front { Leads packed_file (input_form engine.program) (task_of job.old)
        (map F.remaining (feeds_of job.old)) (D.taken result.out) result.result }
    ensures hashed { IfOk result.result (λ _. IsAsked engine.digests result.meaning) }
    ensures unhashed { result.output ≡ None }
{
    let Ok(deflater) = Deflater::new(engine.alloc) else {
        return Ran {
            result: Err(Halted::from(Stop::Memory)),
            out,
            output: None,
            meaning: None,
        };
    };
    let packed = PackedDrain::new(engine.alloc, deflater, out);
    let ran = run_raw_into(engine, job, packed, seed);
    let mut packed = ran.out;
    let result = finish(ran.result, &mut packed);
    Ran {
        result,
        out: packed.into_inner(),
        output: None,
        meaning: ran.output,
    }
}

/// Does a job, into a drain that gets raw blobs or zlib blobs.
fn run_unhashed<F: Feed, D: Drain + Drop, S: BuildHasher + Drop>(
    engine: Engine,
    job: &mut Job<F>,
    out: D,
    seed: Seed<S>,
) -> Ran<D>
    requires fresh { IfSome (D.taken out) (λ taken. taken ≡ []) }
    requires ready { IsReadyFor F.Feed ⟦<PublishedFeed<F> as Feed>⟧ engine seed.key job.old }
    ensures works { AreFresh F.Feed (feeds_of job.old) → D.has_taken out 0 []
        → Works (manner_of engine) (check_in engine seed.key) F.Feed (task_of job.old)
        (feeds_of job.old) (feeds_of job.new)
        (λ w. D.has_taken result.out 0 w
        × MeansBy (output_form engine.packs engine.program) result.meaning w)
        (DrainFailed D.Drain (output_form engine.packs engine.program) (task_of job.old)
        (map F.remaining (feeds_of job.old)) result.out) result.result }
    ensures front { Leads (output_form engine.packs engine.program) (input_form engine.program)
        (task_of job.old) (map F.remaining (feeds_of job.old)) (D.taken result.out) result.result }
    ensures hashed { IfOk result.result (λ _. IsAsked
        (hashes_meaning (output_form engine.packs engine.program) engine.digests) result.meaning) }
    ensures unhashed { result.output ≡ None }
{
    if engine.gives_packed() {
        run_packed(engine, job, out, seed)
    } else {
        run_raw(engine, job, out, seed)
    }
}

/// Does a job, and hashes what OUT takes.
fn run_hashed<F: Feed, D: Drain + Drop, S: BuildHasher + Drop>(
    engine: Engine,
    job: &mut Job<F>,
    out: D,
    seed: Seed<S>,
) -> Ran<D>
    requires fresh { IsFreshOut D.Drain out }
    requires ready { IsReadyFor F.Feed ⟦<PublishedFeed<F> as Feed>⟧ engine seed.key job.old }
    ensures works { AreFresh F.Feed (feeds_of job.old)
        → Works (manner_of engine) (check_in engine seed.key) F.Feed (task_of job.old) (feeds_of job.old) (feeds_of job.new)
        (λ w. TakenBy D.Drain result.out result.output w
        × MeansBy (output_form engine.packs engine.program) result.meaning w)
        (DrainFailed D.Drain (output_form engine.packs engine.program) (task_of job.old)
        (map F.remaining (feeds_of job.old)) result.out) result.result }
    ensures front { Leads (output_form engine.packs engine.program) (input_form engine.program)
        (task_of job.old) (map F.remaining (feeds_of job.old)) (D.taken result.out) result.result }
    ensures hashed { IsAsked true result.output }
    ensures meaning { IfOk result.result (λ _. IsAsked
        (hashes_meaning (output_form engine.packs engine.program) engine.digests) result.meaning) }
{
    let linked = LinkedDrain::new(HashedDrain::new(out));
    let ran = run_unhashed(engine, job, linked, seed);
    let mut hashed = ran.out.into_inner();
    let digest = hashed.digest();
    Ran {
        result: ran.result,
        out: hashed.into_inner(),
        output: Some(digest),
        meaning: ran.meaning,
    }
}

/// Does a job, and hashes what OUT takes if its digest is printed.
fn run_into<F: Feed, D: Drain + Drop, S: BuildHasher + Drop>(
    engine: Engine,
    job: &mut Job<F>,
    out: D,
    seed: Seed<S>,
) -> Ran<D>
    requires fresh { IsFreshOut D.Drain out }
    requires ready { IsReadyFor F.Feed ⟦<PublishedFeed<F> as Feed>⟧ engine seed.key job.old }
    ensures works { AreFresh F.Feed (feeds_of job.old)
        → Works (manner_of engine) (check_in engine seed.key) F.Feed (task_of job.old) (feeds_of job.old) (feeds_of job.new)
        (λ w. TakenBy D.Drain result.out result.output w
        × MeansBy (output_form engine.packs engine.program) result.meaning w)
        (DrainFailed D.Drain (output_form engine.packs engine.program) (task_of job.old)
        (map F.remaining (feeds_of job.old)) result.out) result.result }
    ensures front { Leads (output_form engine.packs engine.program) (input_form engine.program)
        (task_of job.old) (map F.remaining (feeds_of job.old)) (D.taken result.out) result.result }
    ensures hashed { IsAsked engine.digests result.output }
    ensures meaning { IfOk result.result (λ _. IsAsked
        (hashes_meaning (output_form engine.packs engine.program) engine.digests) result.meaning) }
{
    if engine.digests {
        run_hashed(engine, job, out, seed)
    } else {
        run_unhashed(engine, job, out, seed)
    }
}

/// How a command ends of whose OUT not all went out, or which can't be named.
pub(crate) fn ending_of_file(fault: FinishFault) -> Ending
    ensures { result ≡ ending_of_file fault }
{
    match fault {
        FinishFault::Failed | FinishFault::Closed => Ending::Stopped(Stop::Write),
        FinishFault::Exists => Ending::OutExists,
    }
}

/// What is reported once OUT was returned.
fn kept(finished: Result<(), FinishFault>, done: Done) -> Result<Done, Ending>
    ensures ok { IfOk result (λ d. (d ≡ done) × (result_err finished ≡ None)) }
    ensures err { IfErr result (λ how. (fault : FinishFault)
        × (result_err finished ≡ Some fault) × (how ≡ ending_of_file fault)) }
{
    match finished {
        Ok(()) => Ok(done),
        Err(fault) => Err(ending_of_file(fault)),
    }
}

/// Does a job, hands all files back, and returns what it reports: then all that OUT took went out, and it is kept.
fn run_job<H: Host>(
    engine: Engine,
    host: &mut H,
    ready: Ready<H::In, H::Out, H::Hasher>,
    files: &Files<'_>,
) -> Result<Done, Ending>
    requires fresh { AreFresh H.In.Feed (feeds_of ready.job) × IsFreshOut H.Out.Drain ready.out.drain }
    requires ready { IsReadyFor H.In.Feed ⟦<PublishedFeed<H::In> as Feed>⟧ engine ready.seed.key
        ready.job }
    ensures ok { IfOk result (λ done. (rs : List Reading) × (out : Writing) × (keeps : List Event)
        × (H.log host.new ≡ then_all (H.log host.old) (map read rs ++ wrote out ∷ keeps))
        × Worked engine ready.seed.key (task_of ready.job)
        (map H.In.remaining (feeds_of ready.job)) rs out done
        × (out.name ≡ option_map string_bytes ready.out.name)
        × IsKept engine.program files.now.overwrite files.now.output.now out.name keeps) }
    ensures err { IfErr result (λ how. (events : List Event)
        × (H.log host.new ≡ then_all (H.log host.old) events)
        × Fails (manner_of engine) (judging_for (task_of ready.job))
        (map H.In.remaining (feeds_of ready.job)) how events
        × Leaves (manner_of engine) (task_of ready.job)
        (map H.In.remaining (feeds_of ready.job)) events
        × SaysLittle engine.digests events) }
    ensures files { Returns engine.program files.now (option_map string_bytes ready.out.name)
        (H.log host.old) (H.log host.new) }
{
    let Ready { job, out, seed } = ready;
    let Output { drain, name } = out;
    let mut job = job;
    let Ran {
        result,
        out: drain,
        output,
        meaning,
    } = run_into(engine, &mut job, drain, seed);
    close_job(host, job);
    let out = Output { drain, name };
    match result {
        Ok(report) => kept(
            keep_out(host, place_of(engine.program, files), out),
            Done {
                report,
                output,
                meaning,
            },
        ),
        Err(halted) => {
            drop_out(host, engine.program, out);
            Err(tell_refusal(engine, host, halted, files.input))
        }
    }
}

/// Does what is to be done with IN, and returns the counts of what was written.
pub(crate) fn write<H: Host>(
    engine: Engine,
    host: &mut H,
    files: &Files<'_>,
    plan: Plan,
    progress: bool,
) -> Result<Counts, Ending>
    ensures ok { IfOk result (λ counts. (events : List Event)
        × (H.log host.new ≡ then_all (H.log host.old) events)
        × WritesCounts (manner_of engine) (plan_of plan) files.now counts events) }
    ensures err { IfErr result (λ how. (events : List Event)
        × (H.log host.new ≡ then_all (H.log host.old) events)
        × FailsFor files.now.input.now (manner_of engine) (judging_for (plan_of plan)) how events
        × LeavesFor files.now.input.now (manner_of engine) (plan_of plan) events
        × IsSaid engine.digests (Writes (manner_of engine) (plan_of plan) files.now) how events) }
    ensures files { Settles engine.program files.now (H.log host.old) (H.log host.new) }
{
    let ready = prepare(engine, host, files, plan, progress)?;
    let done = run_job(engine, host, ready, files)?;
    let screen = screen_of(is_screen(engine.program, files.output));
    print_done(engine.alloc, host, screen, &done, files)?;
    Ok(done.report.counts)
}

/// Whether there is no entity.
fn is_empty(counts: Counts) -> bool
    ensures { result ≡ is_empty counts }
{
    counts.nodes == 0 && counts.ways == 0 && counts.relations == 0
}

/// Says on a terminal that an extract is empty.
#[tactic(auto, using(crate::proofs::Beginning::advice_none, crate::proofs::Beginning::advice_some, crate::proofs::Logging::then_none))]
fn advise_empty<H: Host>(host: &mut H, region: &Region<'_>, counts: Counts)
    ensures { H.log host.new ≡ then_all (H.log host.old) (advice counts) }
{
    if !is_empty(counts) {
        return;
    }
    host.advise_empty(region);
}

/// The plan of an extract.
fn plan_extract(alloc: Global, cut: Cut, strategy: Strategy<'_>) -> Result<Plan, AllocError>
    ensures { IfOk result (λ plan. plan_of plan
        ≡ extracting (strategy_of strategy.entry) (area_of cut)) }
{
    match strategy {
        Strategy::CompleteWays => Ok(Plan::Extract(cut)),
        Strategy::AllParents => Ok(Plan::ExtractParents(cut)),
        Strategy::Smart(types) => Ok(Plan::ExtractSmart(cut, WholeTypes::parse(alloc, types)?)),
    }
}

/// `extract IN OUT`, by a strategy.
pub(crate) fn run_extract<H: Host>(
    engine: Engine,
    host: &mut H,
    region: &Region<'_>,
    strategy: Strategy<'_>,
    files: &Files<'_>,
    progress: bool,
) -> Result<(), Ending>
    ensures ok { OnOk result ((events : List Event)
        × (H.log host.new ≡ then_all (H.log host.old) events)
        × RunsExtract (manner_of engine) region.now strategy.entry files.now events) }
    ensures err { IfErr result (λ how. (events : List Event)
        × (H.log host.new ≡ then_all (H.log host.old) events)
        × FailsFor files.now.input.now (manner_of engine)
        (judging_cut region.now strategy.entry events) how events
        × (Each Quiet events
        ⊎ LeavesCut files.now.input.now (manner_of engine) region.now strategy.entry events)
        × IsSaid engine.digests
        (RunsExtract (manner_of engine) region.now strategy.entry files.now) how events) }
    ensures files { Settles engine.program files.now (H.log host.old) (H.log host.new) }
{
    let cut = read_region(engine.alloc, host, region)?;
    let plan = plan_extract(engine.alloc, cut, strategy)?;
    let counts = write(engine, host, files, plan, progress)?;
    advise_empty(host, region, counts);
    Ok(())
}
