//! The drains between a run for several areas and their OUTs, which hash what goes through.

ghost use Rattle.std.specs.Prelude.{◌≡◌, ◌≤◌, ◌+◌, [], None, length, true};
ghost use Rattle.std.specs.List.{AllByRecursion, AllZip};
ghost use Rattle.std.specs.Vec.{vec_capacity};
ghost use Rattle.pbfcut.specs.EachReceipts.{each_strategy};
ghost use Rattle.pbfcut.specs.Tasks.{spares_by};
ghost use Rattle.pbfcut_program.specs.Inputs.{AreReady, feeds_in};
ghost use Rattle.pbfcut_program.specs.Manner.{check_in, manner_of};
ghost use Rattle.pbfcut_program.specs.SeveralOuts.{IsHashing, IsUnhashed, RunsRawEach};

use crate::engine::{Engine, Halted};
use crate::host::Seed;
use crate::linked::LinkedDrain;
use crate::opening::Inputs;
use crate::several::{InputDigests, OutputArea, run_task_each};
use pbf_frame::{Drain, Feed, Stop};
use pbf_pass::HashedDrain;
use pbf_published::PublishedFeed;
use pbfcut::{AreaOutput, EachStrategy};
use std::hash::BuildHasher;

/// The areas of a run, each with its drain.
pub(crate) type Outputs<'a, D> = Vec<AreaOutput<OutputArea<'a>, D>>;

/// A drain that hashes what goes to the one below.
pub(crate) type HashingDrain<D> = LinkedDrain<HashedDrain<D>>;

/// Puts a drain that hashes over that of an output.
fn put_hasher<'a, D: Drain>(
    output: AreaOutput<OutputArea<'a>, D>,
) -> AreaOutput<OutputArea<'a>, HashingDrain<D>>
    ensures { IsHashing output.entry result }
{
    AreaOutput {
        area: output.area,
        drain: LinkedDrain::new(HashedDrain::new(output.drain)),
        counts: output.counts,
    }
}

/// Takes it off again: the output has the digest then.
fn take_hasher<'a, D: Drain>(
    output: AreaOutput<OutputArea<'a>, HashingDrain<D>>,
) -> AreaOutput<OutputArea<'a>, D>
    ensures { IsUnhashed output.entry result }
{
    let area = output.area;
    let mut hashed = output.drain.into_inner();
    let digest = hashed.digest();
    AreaOutput {
        area: OutputArea {
            cut: area.cut,
            output: Some(digest),
            meaning: area.meaning,
        },
        drain: hashed.into_inner(),
        counts: output.counts,
    }
}

/// Puts drains that hash over those of these outputs; `hashing` has room for them.
#[tactic(auto, using(crate::proofs::SeveralOutLemmas::hashing_more))]
pub(crate) fn put_hashers<'a, D: Drain + Drop>(
    outputs: Outputs<'a, D>,
    hashing: Outputs<'a, HashingDrain<D>>,
) -> Outputs<'a, HashingDrain<D>>
    requires room { length outputs.items ≤ vec_capacity hashing }
    requires none { hashing.items ≡ [] }
    ensures { AllZip IsHashing outputs.entry.items result.items }
{
    let mut hashing = hashing;
    'outputs: for output in outputs {
        hashing.push(put_hasher(output)).unwrap();
    }
    hashing
}

/// Takes them off again; `outputs` has room for what is left.
#[tactic(auto, using(crate::proofs::SeveralOutLemmas::unhashed_more))]
pub(crate) fn take_hashers<'a, D: Drain + Drop>(
    hashing: Outputs<'a, HashingDrain<D>>,
    outputs: Outputs<'a, D>,
) -> Outputs<'a, D>
    requires room { length hashing.items ≤ vec_capacity outputs }
    requires none { outputs.items ≡ [] }
    ensures { AllZip IsUnhashed hashing.entry.items result.items }
{
    let mut outputs = outputs;
    'hashing: for output in hashing {
        outputs.push(take_hasher(output)).unwrap();
    }
    outputs
}

/// Writes the extract of each of these areas, in raw blobs, and hashes what each drain takes.
fn run_each_hashed<'a, F: Feed, D: Drain + Drop, S: BuildHasher + Copy + Drop>(
    engine: Engine,
    strategy: EachStrategy,
    inputs: &mut Inputs<F>,
    outputs: Outputs<'a, D>,
    seed: Seed<S>,
) -> (Outputs<'a, D>, Result<InputDigests, Halted>)
    requires digests { engine.digests ≡ true }
    requires count { length (feeds_in inputs.old) ≡ spares_by (each_strategy strategy) + 2 }
    requires ready { AreReady F.Feed ⟦<PublishedFeed<F> as Feed>⟧ engine.program
        (check_in engine seed.key) inputs.old }
    ensures { RunsRawEach (manner_of engine) (check_in engine seed.key) (each_strategy strategy)
        F.Feed D.Drain (feeds_in inputs.old) (feeds_in inputs.new)
        outputs.entry.items result.0.items result.1 }
{
    let alloc = engine.alloc;
    let (Ok(hashing), Ok(back)) = (
        Vec::with_capacity(alloc, outputs.len()),
        Vec::with_capacity(alloc, outputs.len()),
    ) else {
        return (outputs, Err(Halted::from(Stop::Memory)));
    };
    let hashing = put_hashers(outputs, hashing);
    let (hashing, result) = run_task_each(engine, strategy, inputs, hashing, seed);
    (take_hashers(hashing, back), result)
}

/// Writes the extract of each of these areas into its drain, in raw blobs. What they take is hashed if digests are printed.
pub(crate) fn run_each_raw<'a, F: Feed, D: Drain + Drop, S: BuildHasher + Copy + Drop>(
    engine: Engine,
    strategy: EachStrategy,
    inputs: &mut Inputs<F>,
    outputs: Outputs<'a, D>,
    seed: Seed<S>,
) -> (Outputs<'a, D>, Result<InputDigests, Halted>)
    requires unhashed { AllByRecursion (λ out. out.area.output ≡ None) outputs.items }
    requires count { length (feeds_in inputs.old) ≡ spares_by (each_strategy strategy) + 2 }
    requires ready { AreReady F.Feed ⟦<PublishedFeed<F> as Feed>⟧ engine.program
        (check_in engine seed.key) inputs.old }
    ensures { RunsRawEach (manner_of engine) (check_in engine seed.key) (each_strategy strategy)
        F.Feed D.Drain (feeds_in inputs.old) (feeds_in inputs.new)
        outputs.entry.items result.0.items result.1 }
{
    if engine.digests {
        run_each_hashed(engine, strategy, inputs, outputs, seed)
    } else {
        run_task_each(engine, strategy, inputs, outputs, seed)
    }
}
