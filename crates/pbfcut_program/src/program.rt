//! The whole run of a command.

ghost use Rattle.std.specs.Prelude.{◌≡◌, [], List, IfErr, IfOk, OnOk, map, string_bytes};
ghost use Rattle.pbfcut.specs.EachReceipts.{each_strategy};
ghost use Rattle.pbfcut_cli.specs.Words.{word_texts};
ghost use Rattle.pbfcut_program.specs.Events.{Event, then_all};
ghost use Rattle.pbfcut_program.specs.Fails.{FailsFor, judging_for};
ghost use Rattle.pbfcut_program.specs.Jobs.{plan_of};
ghost use Rattle.pbfcut_program.specs.Leaving.{LeavesFor};
ghost use Rattle.pbfcut_program.specs.Manner.{manner_of};
ghost use Rattle.pbfcut_program.specs.Settling.{RunSettles, Settles, SettlesIn};
ghost use Rattle.pbfcut_program.specs.SeveralWrites.{strategy_with};
ghost use Rattle.pbfcut_program.specs.Telling.{IsSaid};
ghost use Rattle.pbfcut_program.specs.Program.{Does, FailsIn, IsRun, IsWhy, Writes, digests_of, packs_of};

use crate::ending::{report, report_command};
use crate::engine::Engine;
use crate::host::{Host, Screen};
use crate::jobs::Plan;
use crate::opening::Input;
use crate::printing::print_text;
use crate::reading::{run_blobs, run_check, run_info, run_show};
use crate::several_writing::{EachRun, run_extract_each};
use crate::writing::{run_extract, write};
use pbfcut::EachStrategy;
use pbfcut_cli::{Command, ConfigFiles, Ending, Files, Program, normalize_words, read_words};
use std::alloc::{AllocError, Global};

/// Whether a command prints the digests of what it reads.
fn prints_digests(command: &Command<'_>) -> bool
    ensures { result ≡ digests_of command.now }
{
    match command {
        Command::Check { digests, .. } => *digests,
        Command::Convert(files) | Command::Pack(files) | Command::Unpack(files) => files.digests,
        Command::Extract { files, .. } => files.digests,
        Command::ExtractEach { files, .. } => files.digests,
        Command::Help(_) | Command::Blobs { .. } | Command::Info { .. } | Command::Show { .. } => {
            false
        }
    }
}

/// Whether OUT gets zlib blobs, if it is pbfcutz that writes it: unless raw ones are wanted.
fn packs(command: &Command<'_>) -> bool
    ensures { result ≡ packs_of command.now }
{
    match command {
        Command::Convert(files) => !files.raw,
        Command::Extract { files, .. } => !files.raw,
        Command::ExtractEach { files, .. } => !files.raw,
        Command::Pack(_) => true,
        _ => false,
    }
}

/// Whether the progress of a run is shown: with `--progress`, and by pbfcutz also if the host shows it by itself.
fn shows_progress<H: Host>(host: &H, program: Program, asked: bool, path: &str) -> bool {
    asked || program == Program::Pbfcutz && host.shows_progress(path)
}

/// The same of a command that writes a file, which `--no-progress` may forbid.
fn shows_writing<H: Host>(host: &H, program: Program, files: &Files<'_>) -> bool {
    !files.quiet && shows_progress(host, program, files.progress, files.input)
}

/// The same of a command that writes several.
fn shows_each<H: Host>(host: &H, program: Program, files: &ConfigFiles<'_>) -> bool {
    !files.quiet && shows_progress(host, program, files.progress, files.input)
}

/// What is kept besides what lies in each of several areas.
fn strategy_with(parents: bool) -> EachStrategy
    ensures { each_strategy result ≡ strategy_with parents }
{
    if parents {
        EachStrategy::AllParents
    } else {
        EachStrategy::CompleteWays
    }
}

/// Converts or copies.
fn run_writing<H: Host>(
    engine: Engine,
    host: &mut H,
    files: &Files<'_>,
    plan: Plan,
) -> Result<(), Ending>
    ensures ok { OnOk result ((events : List Event)
        × (H.log host.new ≡ then_all (H.log host.old) events)
        × Writes (manner_of engine) (plan_of plan) files.now events) }
    ensures err { IfErr result (λ how. (events : List Event)
        × (H.log host.new ≡ then_all (H.log host.old) events)
        × FailsFor files.now.input.now (manner_of engine) (judging_for (plan_of plan)) how events
        × LeavesFor files.now.input.now (manner_of engine) (plan_of plan) events
        × IsSaid engine.digests (Writes (manner_of engine) (plan_of plan) files.now) how events) }
    ensures files { Settles engine.program files.now (H.log host.old) (H.log host.new) }
{
    let progress = shows_writing(&*host, engine.program, files);
    write(engine, host, files, plan, progress)?;
    Ok(())
}

/// Runs a command.
fn run_command<H: Host>(engine: Engine, host: &mut H, command: &Command<'_>) -> Result<(), Ending>
    ensures ok { OnOk result ((events : List Event)
        × (H.log host.new ≡ then_all (H.log host.old) events)
        × Does (manner_of engine) command.now events) }
    ensures err { IfErr result (λ how. (events : List Event)
        × (H.log host.new ≡ then_all (H.log host.old) events)
        × FailsIn (manner_of engine) command.now how events) }
    ensures files { SettlesIn engine.program command.now (H.log host.old) (H.log host.new) }
{
    match command {
        Command::Help(text) => print_text(host, Screen::Output, text.as_str().as_bytes()),
        Command::Blobs { input: path } => {
            let input = Input {
                path: *path,
                passes: 1,
                progress: false,
            };
            run_blobs(engine, host, &input)
        }
        Command::Info { input: path, json } => {
            let input = Input {
                path: *path,
                passes: 1,
                progress: false,
            };
            run_info(engine, host, &input, *json)
        }
        Command::Show {
            input: path,
            dates,
            progress,
        } => {
            let input = Input {
                path: *path,
                passes: 2,
                progress: *progress,
            };
            run_show(engine, host, &input, *dates)
        }
        Command::Check {
            input: path,
            progress,
            ..
        } => {
            let progress = shows_progress(&*host, engine.program, *progress, path);
            run_check(engine, host, path, progress)
        }
        Command::Convert(files) => run_writing(engine, host, files, Plan::Convert),
        Command::Pack(files) | Command::Unpack(files) => {
            run_writing(engine, host, files, Plan::Copy)
        }
        Command::Extract {
            region,
            strategy,
            files,
        } => {
            let progress = shows_writing(&*host, engine.program, files);
            run_extract(engine, host, region, *strategy, files, progress)
        }
        Command::ExtractEach { parents, files } => {
            let progress = shows_each(&*host, engine.program, files);
            let run = EachRun {
                strategy: strategy_with(*parents),
                files: *files,
                progress,
            };
            run_extract_each(engine, host, run)
        }
    }
}

/// The words as `clap` reads them.
fn texts_of<'a>(alloc: Global, words: &'a [String]) -> Result<Vec<&'a str>, AllocError>
    ensures { IfOk result (λ texts. word_texts texts.items ≡ map string_bytes words.now) }
{
    let mut texts = Vec::new(alloc);
    for word in words {
        texts.push(word.as_str())?;
    }
    Ok(texts)
}

/// Runs the command that the words mean, and reports how it ended if it fails. `Err` says why the words mean none.
fn work<H: Host>(
    alloc: Global,
    host: &mut H,
    program: Program,
    words: &[String],
) -> Result<u8, Ending>
    ensures ok { IfOk result (λ status. (events : List Event)
        × (H.log host.new ≡ then_all (H.log host.old) events)
        × IsRun program (map string_bytes words.now) events status) }
    ensures err { IfErr result (λ how. (H.log host.new ≡ H.log host.old)
        × IsWhy program (map string_bytes words.now) how []) }
    ensures files { RunSettles program (map string_bytes words.now) (H.log host.old) (H.log host.new) }
{
    let normalized = normalize_words(alloc, words)?;
    let texts = texts_of(alloc, &normalized)?;
    let command = read_words(alloc, program, texts.as_slice())?;
    let engine = Engine {
        program,
        alloc,
        digests: prints_digests(&command),
        packs: packs(&command),
    };
    match run_command(engine, host, &command) {
        Ok(()) => Ok(0),
        Err(how) => Ok(report_command(alloc, host, program, &command, &how)),
    }
}

/// Runs the command that the words after the program's name mean, over any host, reports how it ended if it fails, and returns the exit
/// status.
pub fn run<H: Host>(alloc: Global, host: &mut H, program: Program, words: &[String]) -> u8
    // What happened, and the exit status, is a run of these words.
    ensures run { (events : List Event) × (H.log host.new ≡ then_all (H.log host.old) events)
        × IsRun program (map string_bytes words.now) events result }
    // It changes no file but OUT, which is kept, if all that it took went out, or dropped.
    ensures files { RunSettles program (map string_bytes words.now) (H.log host.old) (H.log host.new) }
{
    match work(alloc, host, program, words) {
        Ok(status) => status,
        Err(how) => report(alloc, host, program, &how),
    }
}
