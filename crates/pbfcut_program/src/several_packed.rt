//! The drains between a run for several areas and their OUTs, which pack what goes through.

ghost use Rattle.std.specs.Prelude.{◌≡◌, ◌≤◌, ◌+◌, [], IfOk, IfSome, None, length, true};
ghost use Rattle.std.specs.List.{AllByRecursion, AllZip};
ghost use Rattle.std.specs.Vec.{vec_capacity, vec_len};
ghost use Rattle.pbfcut.specs.EachReceipts.{each_strategy};
ghost use Rattle.pbfcut.specs.Tasks.{spares_by};
ghost use Rattle.pbfcut_cli.specs.declared.programs.Program.TheVariants.{Pbfcutz};
ghost use Rattle.pbfcut_program.specs.Devices.{IsFreshOut};
ghost use Rattle.pbfcut_program.specs.Inputs.{AreReady, feeds_in};
ghost use Rattle.pbfcut_program.specs.Manner.{check_in, manner_of};
ghost use Rattle.pbfcut_program.specs.SeveralOuts.{AreUnpacked, IsPackingOver, IsUnpacked, RunsUnhashedEach};

use crate::engine::{Engine, Halted};
use crate::host::Seed;
use crate::opening::Inputs;
use crate::several::{InputDigests, OutputArea};
use crate::several_outs::{Outputs, run_each_raw};
use crate::writing::finish;
use pbf_frame::{Drain, Feed, Stop};
use pbf_published::PublishedFeed;
use pbf_unpack::{Deflater, PackedDrain};
use pbfcut::{AreaOutput, EachStrategy};
use std::alloc::{AllocError, Global};
use std::hash::BuildHasher;

/// Makes this many deflaters.
fn make_deflaters(alloc: Global, count: usize) -> Result<Vec<Deflater>, AllocError>
    ensures { IfOk result (λ made. vec_len made ≡ count) }
{
    let mut made = Vec::new(alloc);
    for _made in 0..count {
        let deflater = Deflater::new(alloc)?;
        made.push(deflater)?;
    }
    Ok(made)
}

/// Puts a drain that packs over that of an output.
fn put_packer<'a, D: Drain>(
    alloc: Global,
    output: AreaOutput<OutputArea<'a>, D>,
    deflater: Deflater,
) -> AreaOutput<OutputArea<'a>, PackedDrain<D>>
    requires { IfSome (D.taken output.drain) (λ taken. taken ≡ []) }
    ensures { IsPackingOver output.entry result }
{
    AreaOutput {
        area: output.area,
        drain: PackedDrain::new(alloc, deflater, output.drain),
        counts: output.counts,
    }
}

/// Finishes it, if all went well so far, and takes it off again. What it took was hashed as the raw file that OUT means.
fn take_packer<'a, D: Drain>(
    output: AreaOutput<OutputArea<'a>, PackedDrain<D>>,
    returned: Result<InputDigests, Halted>,
) -> (AreaOutput<OutputArea<'a>, D>, Result<InputDigests, Halted>)
    ensures { IsUnpacked output.entry returned result.1 result.0 }
{
    let area = output.area;
    let mut packed = output.drain;
    let result = finish(returned, &mut packed);
    let unpacked = AreaOutput {
        area: OutputArea {
            cut: area.cut,
            output: None,
            meaning: area.output,
        },
        drain: packed.into_inner(),
        counts: output.counts,
    };
    (unpacked, result)
}

/// Puts drains that pack over those of these outputs; `packing` has room for them.
fn put_packers<'a, D: Drain + Drop>(
    alloc: Global,
    outputs: Outputs<'a, D>,
    deflaters: Vec<Deflater>,
    packing: Outputs<'a, PackedDrain<D>>,
) -> Outputs<'a, PackedDrain<D>>
    requires fresh { AllByRecursion (λ out. IsFreshOut D.Drain out.drain) outputs.items }
    requires same { vec_len deflaters ≡ length outputs.items }
    requires room { length outputs.items ≤ vec_capacity packing }
    requires none { packing.items ≡ [] }
    ensures { AllZip IsPackingOver outputs.entry.items result.items }
{
    let mut deflaters = deflaters;
    let mut packing = packing;
    'outputs: for output in outputs {
        let Some(deflater) = deflaters.pop() else {
            unreachable!()
        };
        packing.push(put_packer(alloc, output, deflater)).unwrap();
    }
    packing
}

/// Finishes them, one after the other, and takes them off again; `outputs` has room for what is left. The first that fails decides what
/// the run comes to, and none is finished after that.
fn take_packers<'a, D: Drain + Drop>(
    packing: Outputs<'a, PackedDrain<D>>,
    returned: Result<InputDigests, Halted>,
    outputs: Outputs<'a, D>,
) -> (Outputs<'a, D>, Result<InputDigests, Halted>)
    requires room { length packing.items ≤ vec_capacity outputs }
    requires none { outputs.items ≡ [] }
    ensures { AreUnpacked packing.entry.items returned result.1 result.0.items }
{
    let mut outputs = outputs;
    let mut result = returned;
    'packing: for over in packing {
        let (output, next) = take_packer(over, result);
        result = next;
        outputs.push(output).unwrap();
    }
    (outputs, result)
}

/// Writes the extract of each of these areas into its drain, in zlib blobs.
pub(crate) fn run_each_packed<'a, F: Feed, D: Drain + Drop, S: BuildHasher + Copy + Drop>(
    engine: Engine,
    strategy: EachStrategy,
    inputs: &mut Inputs<F>,
    outputs: Outputs<'a, D>,
    seed: Seed<S>,
) -> (Outputs<'a, D>, Result<InputDigests, Halted>)
    requires packs { (engine.program ≡ Pbfcutz) × (engine.packs ≡ true) }
    requires fresh { AllByRecursion (λ out. IsFreshOut D.Drain out.drain) outputs.items }
    requires unhashed { AllByRecursion (λ out. out.area.output ≡ None) outputs.items }
    requires count { length (feeds_in inputs.old) ≡ spares_by (each_strategy strategy) + 2 }
    requires ready { AreReady F.Feed ⟦<PublishedFeed<F> as Feed>⟧ engine.program
        (check_in engine seed.key) inputs.old }
    ensures { RunsUnhashedEach (manner_of engine) (check_in engine seed.key)
        (each_strategy strategy) F.Feed D.Drain (feeds_in inputs.old) (feeds_in inputs.new)
        outputs.entry.items result.0.items result.1 }
{
    let alloc = engine.alloc;
    let (Ok(deflaters), Ok(packing), Ok(back)) = (
        make_deflaters(alloc, outputs.len()),
        Vec::with_capacity(alloc, outputs.len()),
        Vec::with_capacity(alloc, outputs.len()),
    ) else {
        return (outputs, Err(Halted::from(Stop::Memory)));
    };
    let packing = put_packers(alloc, outputs, deflaters, packing);
    let (packing, returned) = run_each_raw(engine, strategy, inputs, packing, seed);
    take_packers(packing, returned, back)
}
