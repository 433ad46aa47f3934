//! A run for several areas, into their OUTs.

ghost use Rattle.std.specs.Prelude.{◌≡◌, ◌+◌, None, length, true};
ghost use Rattle.std.specs.List.{AllByRecursion};
ghost use Rattle.pbfcut.specs.EachReceipts.{each_strategy};
ghost use Rattle.pbfcut.specs.Tasks.{spares_by};
ghost use Rattle.pbfcut_program.specs.Devices.{IsFreshOut};
ghost use Rattle.pbfcut_program.specs.Inputs.{AreReady, feeds_in};
ghost use Rattle.pbfcut_program.specs.Manner.{check_in, manner_of};
ghost use Rattle.pbfcut_program.specs.SeveralOuts.{RunsEachInto, RunsUnhashedEach};

use crate::engine::{Engine, Halted};
use crate::host::Seed;
use crate::opening::Inputs;
use crate::several::{InputDigests, run_task_each};
use crate::several_outs::{Outputs, put_hashers, take_hashers};
use crate::several_packed::run_each_packed;
use pbf_frame::{Drain, Feed, Stop};
use pbf_published::PublishedFeed;
use pbfcut::EachStrategy;
use std::hash::BuildHasher;

/// Writes the extract of each of these areas into its drain, in raw blobs or in zlib blobs.
fn run_each_unhashed<'a, F: Feed, D: Drain + Drop, S: BuildHasher + Copy + Drop>(
    engine: Engine,
    strategy: EachStrategy,
    inputs: &mut Inputs<F>,
    outputs: Outputs<'a, D>,
    seed: Seed<S>,
) -> (Outputs<'a, D>, Result<InputDigests, Halted>)
    requires fresh { AllByRecursion (λ out. IsFreshOut D.Drain out.drain) outputs.items }
    requires unhashed { AllByRecursion (λ out. out.area.output ≡ None) outputs.items }
    requires unmeant { AllByRecursion (λ out. out.area.meaning ≡ None) outputs.items }
    requires count { length (feeds_in inputs.old) ≡ spares_by (each_strategy strategy) + 2 }
    requires ready { AreReady F.Feed ⟦<PublishedFeed<F> as Feed>⟧ engine.program
        (check_in engine seed.key) inputs.old }
    ensures { RunsUnhashedEach (manner_of engine) (check_in engine seed.key)
        (each_strategy strategy) F.Feed D.Drain (feeds_in inputs.old) (feeds_in inputs.new)
        outputs.entry.items result.0.items result.1 }
{
    if engine.gives_packed() {
        run_each_packed(engine, strategy, inputs, outputs, seed)
    } else {
        run_task_each(engine, strategy, inputs, outputs, seed)
    }
}

/// Writes the extract of each of these areas into its OUT, and hashes what it takes.
fn run_each_out_hashed<'a, F: Feed, D: Drain + Drop, S: BuildHasher + Copy + Drop>(
    engine: Engine,
    strategy: EachStrategy,
    inputs: &mut Inputs<F>,
    outputs: Outputs<'a, D>,
    seed: Seed<S>,
) -> (Outputs<'a, D>, Result<InputDigests, Halted>)
    requires digests { engine.digests ≡ true }
    requires fresh { AllByRecursion (λ out. IsFreshOut D.Drain out.drain) outputs.items }
    requires unhashed { AllByRecursion (λ out. out.area.output ≡ None) outputs.items }
    requires unmeant { AllByRecursion (λ out. out.area.meaning ≡ None) outputs.items }
    requires count { length (feeds_in inputs.old) ≡ spares_by (each_strategy strategy) + 2 }
    requires ready { AreReady F.Feed ⟦<PublishedFeed<F> as Feed>⟧ engine.program
        (check_in engine seed.key) inputs.old }
    ensures { RunsEachInto (manner_of engine) (check_in engine seed.key) (each_strategy strategy)
        F.Feed D.Drain (feeds_in inputs.old) (feeds_in inputs.new)
        outputs.entry.items result.0.items result.1 }
{
    let alloc = engine.alloc;
    let (Ok(hashing), Ok(back)) = (
        Vec::with_capacity(alloc, outputs.len()),
        Vec::with_capacity(alloc, outputs.len()),
    ) else {
        return (outputs, Err(Halted::from(Stop::Memory)));
    };
    let hashing = put_hashers(outputs, hashing);
    let (hashing, result) = run_each_unhashed(engine, strategy, inputs, hashing, seed);
    (take_hashers(hashing, back), result)
}

/// Writes the extract of each of these areas into its OUT, and hashes what it takes if its digest is printed.
pub(crate) fn run_each_into<'a, F: Feed, D: Drain + Drop, S: BuildHasher + Copy + Drop>(
    engine: Engine,
    strategy: EachStrategy,
    inputs: &mut Inputs<F>,
    outputs: Outputs<'a, D>,
    seed: Seed<S>,
) -> (Outputs<'a, D>, Result<InputDigests, Halted>)
    requires fresh { AllByRecursion (λ out. IsFreshOut D.Drain out.drain) outputs.items }
    requires unhashed { AllByRecursion (λ out. out.area.output ≡ None) outputs.items }
    requires unmeant { AllByRecursion (λ out. out.area.meaning ≡ None) outputs.items }
    requires count { length (feeds_in inputs.old) ≡ spares_by (each_strategy strategy) + 2 }
    requires ready { AreReady F.Feed ⟦<PublishedFeed<F> as Feed>⟧ engine.program
        (check_in engine seed.key) inputs.old }
    ensures { RunsEachInto (manner_of engine) (check_in engine seed.key) (each_strategy strategy)
        F.Feed D.Drain (feeds_in inputs.old) (feeds_in inputs.new)
        outputs.entry.items result.0.items result.1 }
{
    if engine.digests {
        run_each_out_hashed(engine, strategy, inputs, outputs, seed)
    } else {
        run_each_unhashed(engine, strategy, inputs, outputs, seed)
    }
}
