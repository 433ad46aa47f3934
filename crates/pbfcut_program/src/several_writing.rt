//! The command that cuts out several areas, each into a file of its own. Before anything is written it is settled that all OUTs are new, IN
//! is opened once for each pass, and there is a seed.

ghost use Rattle.std.specs.Prelude.{◌≡◌, ◌∷◌, ◌++◌, ◌+◌, ◌⊎◌, [], List, length, map, IfErr, IfOk, OnOk, string_bytes};
ghost use Rattle.std.specs.List.{zip};
ghost use Rattle.pbfcut.specs.EachReceipts.{each_strategy};
ghost use Rattle.pbfcut.specs.Receipts.{judge_by};
ghost use Rattle.pbfcut.specs.Tasks.{spares_by};
ghost use Rattle.pbfcut_program.specs.declared.host.Screen.TheVariants as screen;
ghost use Rattle.pbfcut_program.specs.ConfiguredCuts.{output_area_of};
ghost use Rattle.pbfcut_program.specs.Devices.{AreFresh};
ghost use Rattle.pbfcut_program.specs.Events.{Event, then_all};
ghost use Rattle.pbfcut_program.specs.Fails.{Each, Fails, FailsFor, FailsOpening, Quiet, judging};
ghost use Rattle.pbfcut_program.specs.Inputs.{AreReady, feeds_in};
ghost use Rattle.pbfcut_program.specs.Lines.{check_lines, named_counts_text, out_lines, prints};
ghost use Rattle.pbfcut_program.specs.Manner.{check_in, manner_of};
ghost use Rattle.pbfcut_program.specs.Outcomes.{ending_of_file};
ghost use Rattle.pbfcut_program.specs.Settling.{SettlesEach};
ghost use Rattle.pbfcut_program.specs.SeveralChanges.{SettlesOuts};
ghost use Rattle.pbfcut_program.specs.SeveralEnds.{EndsEach, IsReadyEach, KeepsDone, ReturnsEach, areas_into, done_of, outs_lines};
ghost use Rattle.pbfcut_program.specs.SeveralWrites.{AllGiveRaw, AreLeft, AreLeftFor, LeavesEach, RunsExtractEach, WritesOuts, areas_of, begun_each, judging_each, paths_of};
ghost use Rattle.pbfcut_program.specs.Telling.{IsSaid, SaysLittle, Tells};

use crate::configured::{OutputCut, read_configured};
use crate::engine::Engine;
use crate::host::{Host, Screen, Seed};
use crate::opening::{Input, Inputs, close_inputs, draw_seed, open_inputs, open_passes};
use crate::printing::{Digested, print_file, print_text, tell_refusal};
use crate::several::{InputDigests, OutputArea};
use crate::several_files::{
    MadeOuts, Placing, drop_outs, keep_outs, make_outs, refuse_existing_each,
};
use crate::several_into::run_each_into;
use crate::writing::ending_of_file;
use pbf_frame::{Drain, Feed, Stop};
use pbf_pass::Counts;
use pbf_published::PublishedFeed;
use pbfcut::{AreaOutput, EachStrategy};
use pbfcut_cli::{ConfigFiles, Ending, Program};
use std::alloc::{AllocError, Global};

/// A run for several areas: what is kept besides what lies in one, the files of the command, and whether the run reports how far it has come.
#[derive(Clone, Copy)]
pub(crate) struct EachRun<'a> {
    pub(crate) strategy: EachStrategy,
    pub(crate) files: ConfigFiles<'a>,
    pub(crate) progress: bool,
}

impl EachRun<'_> {
    /// How often IN is read.
    fn passes(&self) -> u8
        ensures { result ≡ spares_by (each_strategy self.now.strategy) + 2 }
    {
        match self.strategy {
            EachStrategy::CompleteWays => 3,
            EachStrategy::AllParents => 4,
        }
    }

    /// Where OUTs are made.
    fn placing(&self, program: Program) -> Placing
        ensures { (result.program ≡ program) × (result.overwrite ≡ self.now.files.overwrite) }
    {
        Placing {
            program,
            overwrite: self.files.overwrite,
        }
    }
}

// ---- before the work

/// IN, opened for each pass, and a seed.
#[derive(Drop)]
struct OpenedEach<F, S> {
    inputs: Inputs<F>,
    seed: Seed<S>,
}

/// Settles that all OUTs are new, opens IN for each pass, and draws a seed.
fn open_each<H: Host>(
    engine: Engine,
    host: &mut H,
    run: EachRun<'_>,
    outs: &[OutputCut],
) -> Result<OpenedEach<H::In, H::Hasher>, Ending>
    ensures ok { IfOk result (λ o. H.log host.new ≡ then_all (H.log host.old)
        (begun_each run.entry.files (map (λ out. string_bytes out.output) outs.now)
        (map H.In.remaining (feeds_in o.inputs)) o.seed.key)) }
    ensures fresh { IfOk result (λ o. AreFresh H.In.Feed (feeds_in o.inputs)) }
    ensures count { IfOk result (λ o. length (feeds_in o.inputs)
        ≡ spares_by (each_strategy run.entry.strategy) + 2) }
    ensures ready { IfOk result (λ o. AreReady H.In.Feed ⟦<PublishedFeed<H::In> as Feed>⟧
        engine.program (check_in engine o.seed.key) o.inputs) }
    ensures err { IfErr result (λ how. (events : List Event)
        × (H.log host.new ≡ then_all (H.log host.old) events) × FailsOpening how events) }
{
    refuse_existing_each(host, outs, run.files.overwrite)?;
    let input = Input {
        path: run.files.input,
        passes: run.passes(),
        progress: run.progress,
    };
    let feeds = open_passes(engine.alloc, host, &input)?;
    let seed = draw_seed(host)?;
    let inputs = open_inputs(engine, feeds, seed.key)?;
    Ok(OpenedEach { inputs, seed })
}

/// All that is needed before the areas are cut out.
#[derive(Drop)]
struct ReadyEach<'a, F, D, S> {
    inputs: Inputs<F>,
    made: MadeOuts<'a, D>,
    seed: Seed<S>,
}

// ---- the work

/// The numbers of the entities in an OUT, and if digests are printed, that of what it took, and that of the raw file which this means, if it
/// isn't that.
#[derive(Clone, Copy)]
struct DoneOut {
    counts: Counts,
    output: Option<[u8; 32]>,
    meaning: Option<[u8; 32]>,
}

/// What a run for several areas reports: the digests of IN, and of each OUT, in order, what was done.
#[derive(Drop)]
struct DoneEach {
    input: InputDigests,
    outs: Vec<DoneOut>,
}

/// What was done of each of these.
fn done_outs<D>(
    alloc: Global,
    outputs: &[AreaOutput<OutputArea<'_>, D>],
) -> Result<Vec<DoneOut>, AllocError>
    ensures { IfOk result (λ dones. dones.items ≡ map done_of outputs.now) }
{
    let mut dones = Vec::new(alloc);
    for output in outputs {
        dones.push(DoneOut {
            counts: output.counts,
            output: output.area.output,
            meaning: output.area.meaning,
        })?;
    }
    Ok(dones)
}

/// All areas were cut out: their OUTs are kept.
fn keep_done<H: Host>(
    engine: Engine,
    host: &mut H,
    placing: Placing,
    made: MadeOuts<'_, H::Out>,
) -> Result<Vec<DoneOut>, Ending>
    requires { length made.parts.items ≡ length made.outputs.items }
    ensures { KeepsDone H.Out.Drain placing made.entry result (H.log host.old) (H.log host.new) }
{
    let MadeOuts { outputs, parts } = made;
    let Ok(dones) = done_outs(engine.alloc, outputs.as_slice()) else {
        drop_outs(host, placing.program, parts.as_slice(), outputs);
        return Err(Ending::Stopped(Stop::Memory));
    };
    match keep_outs(host, placing, parts.as_slice(), outputs) {
        Ok(()) => Ok(dones),
        Err(lost) => Err(ending_of_file(lost.fault)),
    }
}

/// Cuts out all areas, hands all files back, and returns what it reports: then all that each OUT took went out, and it is kept.
fn run_ready_each<H: Host>(
    engine: Engine,
    host: &mut H,
    run: EachRun<'_>,
    ready: ReadyEach<'_, H::In, H::Out, H::Hasher>,
) -> Result<DoneEach, Ending>
    requires { IsReadyEach H.In.Feed ⟦<PublishedFeed<H::In> as Feed>⟧ H.Out.Drain engine
        (each_strategy run.strategy) ready.seed.key ready }
    ensures ok { IfOk result (λ done. EndsEach (manner_of engine)
        (check_in engine ready.entry.seed.key) (each_strategy run.entry.strategy) run.entry.files.overwrite
        (map H.In.remaining (feeds_in ready.entry.inputs)) done.input.input done.input.raw
        ready.entry.made.parts.items ready.entry.made.outputs.items done.outs.items
        (H.log host.old) (H.log host.new)) }
    ensures err { IfErr result (λ how. (events : List Event)
        × (H.log host.new ≡ then_all (H.log host.old) events)
        × Fails (manner_of engine) (judging (judge_by (each_strategy run.entry.strategy))
        (AllGiveRaw (each_strategy run.entry.strategy) (areas_into ready.entry.made.outputs.items)))
        (map H.In.remaining (feeds_in ready.entry.inputs)) how events
        × AreLeft (manner_of engine) (each_strategy run.entry.strategy)
        (map H.In.remaining (feeds_in ready.entry.inputs))
        (areas_into ready.entry.made.outputs.items) events
        × SaysLittle engine.digests events) }
    ensures files { ReturnsEach engine.program run.entry.files.overwrite
        ready.entry.made.parts.items (H.log host.old) (H.log host.new) }
{
    let ReadyEach { inputs, made, seed } = ready;
    let MadeOuts { outputs, parts } = made;
    let mut inputs = inputs;
    let (outputs, result) = run_each_into(engine, run.strategy, &mut inputs, outputs, seed);
    close_inputs(host, inputs);
    match result {
        Ok(input) => {
            let placing = run.placing(engine.program);
            let outs = keep_done(engine, host, placing, MadeOuts { outputs, parts })?;
            Ok(DoneEach { input, outs })
        }
        Err(halted) => {
            drop_outs(host, engine.program, parts.as_slice(), outputs);
            Err(tell_refusal(engine, host, halted, run.files.input))
        }
    }
}

// ---- after the work

fn named_counts_line(alloc: Global, counts: Counts, output: &str) -> Result<String, AllocError>
    ensures { IfOk result (λ text. string_bytes text ≡ named_counts_text counts output.now) }
{
    let Counts {
        nodes,
        ways,
        relations,
    } = counts;
    format!(in alloc; "nodes {nodes} ways {ways} relations {relations} {output}\n")
}

/// Prints the counts of an OUT, with its path.
fn print_named_counts<H: Host>(
    alloc: Global,
    host: &mut H,
    counts: Counts,
    output: &str,
) -> Result<(), Ending>
    ensures { Tells (H.log host.old) (H.log host.new)
        (prints screen.Output (named_counts_text counts output.now ∷ [])) result }
{
    match named_counts_line(alloc, counts, output) {
        Ok(line) => print_text(host, Screen::Output, line.as_str().as_bytes()),
        Err(_) => Err(Ending::Stopped(Stop::Memory)),
    }
}

/// Prints what is reported of an OUT.
fn print_out<H: Host>(
    alloc: Global,
    host: &mut H,
    output: &str,
    done: &DoneOut,
) -> Result<(), Ending>
    ensures { Tells (H.log host.old) (H.log host.new) (prints screen.Output
        (out_lines done.now.counts done.now.output done.now.meaning output.now)) result }
{
    print_named_counts(alloc, host, done.counts, output)?;
    match done.output {
        Some(digest) => print_file(
            alloc,
            host,
            Screen::Output,
            &Digested {
                path: output,
                digest,
                raw: done.meaning,
            },
        ),
        None => Ok(()),
    }
}

/// Prints what is reported of each OUT, in order.
fn print_outs<H: Host>(
    alloc: Global,
    host: &mut H,
    outs: &[OutputCut],
    dones: &[DoneOut],
) -> Result<(), Ending>
    ensures { Tells (H.log host.old) (H.log host.new)
        (prints screen.Output (outs_lines (zip outs.now dones.now))) result }
{
    'outs: for (out, done) in outs.iter().zip(dones) {
        print_out(alloc, host, out.output.as_str(), done)?;
    }
    Ok(())
}

/// Prints what a run for several areas reports.
fn print_done_each<H: Host>(
    engine: Engine,
    host: &mut H,
    outs: &[OutputCut],
    done: &DoneEach,
    input: &str,
) -> Result<(), Ending>
    ensures { Tells (H.log host.old) (H.log host.new) (prints screen.Output
        (check_lines engine.digests done.now.input.input done.now.input.raw input.now
        ++ outs_lines (zip outs.now done.now.outs.items))) result }
{
    if engine.digests {
        print_file(
            engine.alloc,
            host,
            Screen::Output,
            &Digested {
                path: input,
                digest: done.input.input,
                raw: done.input.raw,
            },
        )?;
    }
    print_outs(engine.alloc, host, outs, done.outs.as_slice())
}

// ---- the command

/// Cuts each of these areas out of IN, into its OUT.
fn cut_out_each<H: Host>(
    engine: Engine,
    host: &mut H,
    run: EachRun<'_>,
    outs: &[OutputCut],
) -> Result<(), Ending>
    requires { outs.now ≡ [] → ⊥ }
    ensures ok { OnOk result ((events : List Event)
        × (H.log host.new ≡ then_all (H.log host.old) events)
        × WritesOuts (manner_of engine) (each_strategy run.entry.strategy) run.entry.files
        (map output_area_of outs.now) events) }
    ensures err { IfErr result (λ how. (events : List Event)
        × (H.log host.new ≡ then_all (H.log host.old) events)
        × FailsFor run.entry.files.input.now (manner_of engine)
        (judging (judge_by (each_strategy run.entry.strategy))
        (AllGiveRaw (each_strategy run.entry.strategy)
        (areas_of (map output_area_of outs.now)))) how events
        × AreLeftFor run.entry.files.input.now (manner_of engine) (each_strategy run.entry.strategy)
        (areas_of (map output_area_of outs.now)) events
        × IsSaid engine.digests (WritesOuts (manner_of engine) (each_strategy run.entry.strategy)
        run.entry.files (map output_area_of outs.now)) how events) }
    ensures files { SettlesOuts engine.program run.entry.files.overwrite
        (paths_of (map output_area_of outs.now)) (H.log host.old) (H.log host.new) }
{
    let opened = open_each(engine, host, run, outs)?;
    let made = make_outs(engine.alloc, host, run.placing(engine.program), outs)?;
    let ready = ReadyEach {
        inputs: opened.inputs,
        made,
        seed: opened.seed,
    };
    let done = run_ready_each(engine, host, run, ready)?;
    print_done_each(engine, host, outs, &done, run.files.input)
}

/// `extract --config=FILE IN`: cuts each area of the configuration out of IN.
pub(crate) fn run_extract_each<H: Host>(
    engine: Engine,
    host: &mut H,
    run: EachRun<'_>,
) -> Result<(), Ending>
    ensures ok { OnOk result ((events : List Event)
        × (H.log host.new ≡ then_all (H.log host.old) events)
        × RunsExtractEach (manner_of engine) (each_strategy run.entry.strategy)
        run.entry.files events) }
    ensures err { IfErr result (λ how. (events : List Event)
        × (H.log host.new ≡ then_all (H.log host.old) events)
        × FailsFor run.entry.files.input.now (manner_of engine)
        (judging_each (each_strategy run.entry.strategy) run.entry.files events) how events
        × (Each Quiet events
        ⊎ LeavesEach (manner_of engine) (each_strategy run.entry.strategy) run.entry.files events)
        × IsSaid engine.digests (RunsExtractEach (manner_of engine) (each_strategy run.entry.strategy)
        run.entry.files) how events) }
    ensures files { SettlesEach engine.program run.entry.files (H.log host.old) (H.log host.new) }
{
    let outs = read_configured(engine.alloc, host, run.files.config, run.files.directory)?;
    cut_out_each(engine, host, run, outs.as_slice())
}
