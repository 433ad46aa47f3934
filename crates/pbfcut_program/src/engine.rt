//! The calls of both programs: those of pbfcut over raw files, and those of pbfcutz over published ones.

ghost use Rattle.std.specs.Prelude.{◌≡◌, [], ◌∷◌, length, IfErr, OnOk, false, true};
ghost use Rattle.pbf_frame.specs.Transfers.{Added};
ghost use Rattle.pbf_pass.specs.Given.{Took};
ghost use Rattle.pbf_pass.specs.Refused.{stop_of};
ghost use Rattle.pbf_pass.specs.Stops.{WriteFailed};
ghost use Rattle.pbf_published.specs.Showing.{TellsInfo};
ghost use Rattle.pbfcut.specs.Summary.{judged_headings};
ghost use Rattle.pbfcut.specs.Tasks.{checking, listing_frames, passes_of};
ghost use Rattle.pbfcut_cli.specs.declared.endings.Ending.TheVariants as ending;
ghost use Rattle.pbfcut_cli.specs.declared.programs.Program.TheVariants.{Pbfcutz};
ghost use Rattle.pbfcut_program.specs.Devices.{AreFresh, EndsFor, Fronts, RunsTask, Works};
ghost use Rattle.pbfcut_program.specs.Fails.{EndsAsStop};
ghost use Rattle.pbfcut_program.specs.Inputs.{AreReady, feeds_in};
ghost use Rattle.pbfcut_program.specs.Manner.{check_in, input_form, manner_of, once_check, output_form, raw_file};
ghost use Rattle.pbfcut_program.specs.Outcomes.{ListsBy, ReportsPublished, ReportsRaw};

use crate::host::Seed;
use crate::opening::Inputs;
use pbf_frame::{Drain, Feed, Stop};
use pbf_pass::{Counts, Halt, InputReceipt, PassCheck, Passes, Refusal};
use pbf_published::{PublishedFeed, PublishedHalt, PublishedInput};
use pbf_unpack::{Place, UnpackFault};
use pbf_wire::{Fault, Reason};
use pbfcut::FileTask;
use pbfcut_cli::{Ending, PackedRefusal, Program};
use std::alloc::Global;
use std::hash::BuildHasher;

/// What a call reports that ended well.
#[derive(Clone, Copy)]
pub(crate) struct Report {
    pub(crate) counts: Counts,
    /// The digest of IN.
    pub(crate) input: [u8; 32],
    /// The digest of IN unpacked, if it is.
    pub(crate) raw: Option<[u8; 32]>,
}

/// How a call ended that did not end well, and what was read of IN, or of IN unpacked, until a refusal.
#[derive(Drop)]
pub(crate) struct Halted {
    pub(crate) ending: Ending,
    pub(crate) refusal: Option<Refusal>,
}

impl From<Stop> for Halted {
    ghost from_gives = { λ s e. e.ending ≡ ending.Stopped s };

    fn from(stop: Stop) -> Halted {
        Halted {
            ending: Ending::Stopped(stop),
            refusal: None,
        }
    }
}

impl From<Halt> for Halted {
    ghost from_gives = { λ halt e. e.ending ≡ ending.Stopped (stop_of halt) };

    fn from(halt: Halt) -> Halted {
        let refusal = match halt {
            Halt::Refused(refusal) => Some(refusal),
            Halt::Stopped(_) => None,
        };
        Halted {
            ending: Ending::Stopped(Stop::from(halt)),
            refusal,
        }
    }
}

/// What a call over raw files came to.
fn reported(outcome: Result<InputReceipt, Halt>) -> Result<Report, Halted>
    ensures { ReportsRaw outcome result }
{
    match outcome {
        Ok(receipt) => {
            let input = receipt.input;
            Ok(Report {
                counts: receipt.counts,
                input,
                raw: None,
            })
        }
        Err(halt) => Err(Halted::from(halt)),
    }
}

/// What is wrong with zlib data and where, if that is what the refusal is for.
fn zlib_fault_of(halt: &PublishedHalt, fault: Fault) -> Option<UnpackFault> {
    halt.fault.filter(|_| fault.reason == Reason::Zlib)
}

/// How pbfcutz ends after such a halt. A blob may have more than one occurrence of zlib data, of which the last counts: that is where a
/// fault of such data is.
fn ending_of(halt: &PublishedHalt) -> Ending
    ensures { EndsAsStop Pbfcutz halt.now.stop result }
{
    match (halt.stop, halt.place) {
        (Stop::Refused(fault), Some(place)) => {
            let found = zlib_fault_of(halt, fault);
            Ending::RefusedPacked(PackedRefusal {
                reason: fault.reason,
                place: found.map_or(place, |found| Place::Byte(found.offset)),
                detail: found.map(|found| found.reason),
            })
        }
        (stop, _) => Ending::Stopped(stop),
    }
}

impl From<PublishedHalt> for Halted {
    ghost from_gives = { λ halt e. EndsAsStop Pbfcutz halt.stop e.ending };

    fn from(halt: PublishedHalt) -> Halted {
        Halted {
            ending: ending_of(&halt),
            refusal: halt.refusal,
        }
    }
}

/// What a call over published files came to.
fn published(outcome: Result<PublishedInput, PublishedHalt>) -> Result<Report, Halted>
    ensures { ReportsPublished outcome result }
{
    match outcome {
        Ok(receipt) => {
            let (input, raw) = (receipt.input, receipt.raw);
            Ok(Report {
                counts: receipt.counts,
                input,
                raw: Some(raw),
            })
        }
        Err(halt) => Err(Halted::from(halt)),
    }
}

/// How a program's calls are made.
#[derive(Clone, Copy)]
pub(crate) struct Engine {
    pub(crate) program: Program,
    pub(crate) alloc: Global,
    /// Whether the digests of what is read are printed.
    pub(crate) digests: bool,
    /// Whether OUT gets zlib blobs, if it is pbfcutz that writes it.
    pub(crate) packs: bool,
}

impl Engine {
    /// How a call makes one pass: what it reads is hashed only for its digest.
    fn one_pass(self) -> Passes
        ensures { result.check ≡ once_check self.digests }
    {
        Passes {
            alloc: self.alloc,
            check: if self.digests {
                PassCheck::Sha256
            } else {
                PassCheck::None
            },
        }
    }

    /// How a call makes passes that have to read the same bytes: pbfcutz compares them by a keyed hash, unless their digests are printed.
    pub(crate) fn many_passes(self, key: u128) -> Passes
        ensures { result.check ≡ check_in self key }
    {
        Passes {
            alloc: self.alloc,
            check: if self.digests || self.program == Program::Pbfcut {
                PassCheck::Sha256
            } else {
                PassCheck::Keyed(key)
            },
        }
    }

    /// Whether OUT gets zlib blobs.
    pub(crate) fn gives_packed(self) -> bool
        ensures packed { result ≡ true → (self.program ≡ Pbfcutz) × (self.packs ≡ true) }
        ensures raw { result ≡ false → output_form self.packs self.program ≡ raw_file }
    {
        self.program == Program::Pbfcutz && self.packs
    }
}

/// Judges IN, and counts its entities.
pub(crate) fn check<F: Feed>(engine: Engine, pass: &mut F) -> Result<Report, Halted>
    ensures { AreFresh F.Feed (pass.old ∷ []) → Works (manner_of engine)
        (once_check engine.digests) F.Feed checking (pass.old ∷ []) (pass.new ∷ []) (λ took. took ≡ []) ⊥ result }
{
    let how = engine.one_pass();
    match engine.program {
        Program::Pbfcut => reported(pbf_pass::check_with_receipt(how, pass)),
        Program::Pbfcutz => published(pbf_published::check_with_receipt(how, pass)),
    }
}

/// Does a task with IN, which was opened for each of its passes.
pub(crate) fn run_task<T: FileTask, F: Feed, D: Drain, S: BuildHasher + Drop>(
    engine: Engine,
    task: T,
    inputs: &mut Inputs<F>,
    drain: &mut D,
    seed: Seed<S>,
) -> Result<Report, Halted>
    requires count { length (feeds_in inputs.old) ≡ passes_of (T.task task) }
    requires ready { AreReady F.Feed ⟦<PublishedFeed<F> as Feed>⟧ engine.program
        (check_in engine seed.key) inputs.old }
    ensures { RunsTask (manner_of engine) (check_in engine seed.key) F.Feed D.Drain (T.task task)
        (feeds_in inputs.old) (feeds_in inputs.new) drain.old drain.new result }
{
    let Seed { hasher, key } = seed;
    let how = engine.many_passes(key);
    match inputs {
        Inputs::Raw(feeds) => reported(task.run(how, feeds, drain, hasher)),
        Inputs::Published(feeds) => {
            published(pbf_published::run_published(how, task, feeds, drain, hasher))
        }
    }
}

/// Writes the lines of the frames, and returns how many.
pub(crate) fn list_blobs<F: Feed, D: Drain>(
    engine: Engine,
    pass: &mut F,
    drain: &mut D,
) -> Result<u64, Halted>
    ensures lists { ListsBy engine.program F.Feed D.Drain pass.old pass.new
        drain.old drain.new result }
    ensures front { Fronts (input_form engine.program) listing_frames (F.remaining pass.old ∷ [])
        (D.taken drain.old) (D.taken drain.new) result }
{
    let alloc = engine.alloc;
    match engine.program {
        Program::Pbfcut => match pbfcut::list_blobs(alloc, pass, drain) {
            Ok(frames) => Ok(frames),
            Err(stop) => Err(Halted::from(stop)),
        },
        Program::Pbfcutz => match pbf_published::list_blobs(alloc, pass, drain) {
            Ok(frames) => Ok(frames),
            Err(halt) => Err(Halted::from(halt)),
        },
    }
}

/// Writes what the header says, how blobs are stored, and how many frames there are: as lines, or in JSON.
pub(crate) fn show_info<F: Feed, D: Drain>(
    engine: Engine,
    pass: &mut F,
    drain: &mut D,
    json: bool,
) -> Result<(), Halted>
    ensures shown { OnOk result (Took D.Drain drain.old drain.new
        (TellsInfo json (F.remaining pass.old))) }
    ensures ends { IfErr result (λ halted. EndsFor Pbfcutz F.Feed judged_headings
        (pass.old ∷ []) (pass.new ∷ []) (Added D.Drain drain.old [] drain.new)
        (WriteFailed D.Drain drain.old drain.new) halted.ending) }
{
    match pbf_published::show_info(engine.alloc, pass, drain, json) {
        Ok(()) => Ok(()),
        Err(halt) => Err(Halted::from(halt)),
    }
}
