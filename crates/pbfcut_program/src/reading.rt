//! The commands that write no file: `blobs`, `info`, `show` and `check`.

ghost use Rattle.std.specs.Prelude.{◌≡◌, ◌∷◌, [], ℕ, false, List, Option, IfErr, IfOk, OnOk, is_ok, None};
ghost use Rattle.pbf_published.specs.Showing.{TellsInfo};
ghost use Rattle.pbfcut.specs.Summary.{judged_headings};
ghost use Rattle.pbfcut_cli.specs.declared.programs.Program.TheVariants as program;
ghost use Rattle.pbfcut_program.specs.Devices.{Finishes};
ghost use Rattle.pbfcut_program.specs.Events.{Event, Reading, opened, read, then_all};
ghost use Rattle.pbfcut_program.specs.Fails.{Each, FailsFor, judging, judging_for, listing};
ghost use Rattle.pbfcut_program.specs.Leaving.{LeavesFor};
ghost use Rattle.pbfcut_program.specs.Manner.{manner, manner_of, once_check, to_raw};
ghost use Rattle.pbfcut_program.specs.Outcomes.{EndsAfterText, ending_of_text};
ghost use Rattle.pbfcut_program.specs.Program.{RunsCheck, IsListing, RunsListing, RunsShow};
ghost use Rattle.pbfcut_program.specs.Readings.{IsWork};
ghost use Rattle.pbfcut_program.specs.Settling.{IsStill};
ghost use Rattle.pbfcut.specs.Tasks.{checking, listing_frames, showing};
ghost use Rattle.pbfcut_program.specs.Telling.{IsSaid, SaysLittle, Silent};

use crate::engine::{Engine, Halted, Report, check, list_blobs, run_task, show_info};
use crate::host::{FinishFault, Host, Seed};
use crate::opening::{
    Input, close_inputs, draw_key, open_inputs, open_pass, open_passes, open_screen,
};
use crate::printing::{print_checked, tell_refusal};
use pbf_frame::Stop;
use pbfcut::PlainTask;
use pbfcut_cli::Ending;
use std::hash::{BuildHasherDefault, FoldHasher};

/// The one pass of `check`.
fn read_once<H: Host>(
    engine: Engine,
    host: &mut H,
    path: &str,
    progress: bool,
) -> Result<Report, Ending>
    ensures ok { IfOk result (λ report. (has : Option (List ℕ)) × (first : Reading)
        × (H.log host.new ≡ then_all (H.log host.old) (opened path.now 1 has ∷ read first ∷ []))
        × IsWork (manner_of engine) (once_check engine.digests) checking (has ∷ []) (first ∷ [])
        []
        report.counts report.input report.raw) }
    ensures err { IfErr result (λ how. (events : List Event)
        × (H.log host.new ≡ then_all (H.log host.old) events)
        × FailsFor path.now (manner_of engine) (judging_for checking) how events
        × SaysLittle engine.digests events) }
    ensures files { IsStill (H.log host.old) (H.log host.new) }
{
    let input = Input {
        path,
        passes: 1,
        progress,
    };
    let mut pass = open_pass(host, &input, 1)?;
    let outcome = check(engine, &mut pass);
    host.close(pass);
    match outcome {
        Ok(report) => Ok(report),
        Err(halted) => Err(tell_refusal(engine, host, halted, path)),
    }
}

/// `check IN`: the numbers of entities go to standard output if the file is accepted, and with `--digests` the digest of IN.
pub(crate) fn run_check<H: Host>(
    engine: Engine,
    host: &mut H,
    path: &str,
    progress: bool,
) -> Result<(), Ending>
    ensures ok { OnOk result ((events : List Event)
        × (H.log host.new ≡ then_all (H.log host.old) events)
        × RunsCheck (manner_of engine) path.now events) }
    ensures err { IfErr result (λ how. (events : List Event)
        × (H.log host.new ≡ then_all (H.log host.old) events)
        × FailsFor path.now (manner_of engine) (judging_for checking) how events
        × IsSaid engine.digests (RunsCheck (manner_of engine) path.now) how events) }
    ensures files { IsStill (H.log host.old) (H.log host.new) }
{
    let report = read_once(engine, host, path, progress)?;
    print_checked(engine, host, &report, path)
}

/// How a command ends whose text didn't all go to standard output.
fn unsent(fault: FinishFault) -> Ending
    ensures { result ≡ ending_of_text fault }
{
    match fault {
        FinishFault::Failed => Ending::Stopped(Stop::Write),
        FinishFault::Exists => Ending::OutExists,
        FinishFault::Closed => Ending::Closed,
    }
}

/// Hands standard output back after a call whose text goes to it. A text that can't be written is reported instead of a later refusal,
/// since it came first.
fn ended<H: Host, T: Drop>(
    host: &mut H,
    out: H::Out,
    outcome: Result<T, Halted>,
) -> Result<(), Ending>
    ensures { (fault : Option FinishFault)
        × Finishes H.Out.Drain out None (is_ok outcome) fault (H.log host.old) (H.log host.new)
        × EndsAfterText fault outcome result }
{
    if let Err(fault) = host.finish_screen(out, outcome.is_ok()) {
        return Err(unsent(fault));
    }
    match outcome {
        Ok(_done) => Ok(()),
        Err(halted) => Err(halted.ending),
    }
}

/// `show IN`: IN is opened for each of the two passes, and the text goes to standard output. Nothing is written of a file that is
/// refused.
pub(crate) fn run_show<H: Host>(
    engine: Engine,
    host: &mut H,
    input: &Input<'_>,
    dates: bool,
) -> Result<(), Ending>
    requires { input.now.passes ≡ 2 }
    ensures ok { OnOk result ((events : List Event)
        × (H.log host.new ≡ then_all (H.log host.old) events)
        × RunsShow (manner_of engine) dates input.now.path.now events) }
    ensures err { IfErr result (λ how. (events : List Event)
        × (H.log host.new ≡ then_all (H.log host.old) events)
        × FailsFor input.now.path.now (to_raw (manner_of engine)) (judging_for (showing dates)) how
        events
        × LeavesFor input.now.path.now (to_raw (manner_of engine)) (showing dates) events
        × Each Silent events) }
    ensures files { IsStill (H.log host.old) (H.log host.new) }
{
    let feeds = open_passes(engine.alloc, host, input)?;
    let key = draw_key(host, engine.program)?;
    let mut inputs = open_inputs(engine, feeds, key)?;
    let mut out = open_screen(host)?;
    // Nothing is hashed for a text.
    let hasher: BuildHasherDefault<FoldHasher> = BuildHasherDefault::new();
    let seed = Seed { hasher, key };
    let outcome = run_task(
        engine,
        PlainTask::Show { dates },
        &mut inputs,
        &mut out,
        seed,
    );
    close_inputs(host, inputs);
    ended(host, out, outcome)
}

/// `blobs IN`: the lines go to standard output, even if the file is refused.
pub(crate) fn run_blobs<H: Host>(
    engine: Engine,
    host: &mut H,
    input: &Input<'_>,
) -> Result<(), Ending>
    ensures ok { OnOk result ((events : List Event)
        × (H.log host.new ≡ then_all (H.log host.old) events)
        × RunsListing (IsListing engine.program) input.now.path.now events) }
    ensures err { IfErr result (λ how. (events : List Event)
        × (H.log host.new ≡ then_all (H.log host.old) events)
        × FailsFor input.now.path.now (manner_of engine) listing how events
        × LeavesFor input.now.path.now (to_raw (manner_of engine)) listing_frames events
        × Each Silent events) }
    ensures files { IsStill (H.log host.old) (H.log host.new) }
{
    let mut pass = open_pass(host, input, 1)?;
    let mut out = open_screen(host)?;
    let outcome = list_blobs(engine, &mut pass, &mut out);
    host.close(pass);
    ended(host, out, outcome)
}

/// `info IN`: what the header says, how blobs are stored and how many frames there are go to standard output, as lines or in JSON. Nothing
/// is written of a file that is refused.
pub(crate) fn run_info<H: Host>(
    engine: Engine,
    host: &mut H,
    input: &Input<'_>,
    json: bool,
) -> Result<(), Ending>
    ensures ok { OnOk result ((events : List Event)
        × (H.log host.new ≡ then_all (H.log host.old) events)
        × RunsListing (TellsInfo json) input.now.path.now events) }
    ensures err { IfErr result (λ how. (events : List Event)
        × (H.log host.new ≡ then_all (H.log host.old) events)
        × FailsFor input.now.path.now (manner program.Pbfcutz false engine.digests)
        (judging judged_headings (λ file. ⊥)) how events × Each Silent events) }
    ensures files { IsStill (H.log host.old) (H.log host.new) }
{
    let mut pass = open_pass(host, input, 1)?;
    let mut out = open_screen(host)?;
    let outcome = show_info(engine, &mut pass, &mut out, json);
    host.close(pass);
    ended(host, out, outcome)
}
