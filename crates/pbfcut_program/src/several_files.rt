//! Several OUTs on the disk, of which all are whole before the first gets its name.

ghost use Rattle.std.specs.Prelude.{◌≡◌, ◌<◌, ◌≤◌, [], ◌∷◌, ◌++◌, List, None, length, map, IfErr, IfOk, OnOk, string_bytes};
ghost use Rattle.std.specs.List.{zip};
ghost use Rattle.std.specs.Vec.{vec_capacity};
ghost use Rattle.pbfcut_program.specs.Devices.{IsFreshOut};
ghost use Rattle.pbfcut_program.specs.Events.{Event, then_all};
ghost use Rattle.pbfcut_program.specs.Fails.{FailsOpening};
ghost use Rattle.pbfcut_program.specs.SeveralFiles.{DoesEach, DropsEach, DropsPart, FindsOne, FinishesEach, FinishesNext, FinishesUnkept, HasFile, KeepsEach, MakesEach, MakesPart, NamesEach, OneByOne, UnmakesEach, looks_each};

use crate::configured::OutputCut;
use crate::host::{FinishFault, Host};
use crate::jobs::Cut;
use crate::output::{Place, forget, make_out, name_whole};
use crate::several::OutputArea;
use crate::several_outs::Outputs;
use pbf_frame::{Drain, Stop};
use pbfcut::AreaOutput;
use pbfcut_cli::{Ending, Program};
use std::alloc::Global;

/// Which program writes the OUTs, and whether plain files there are replaced.
#[derive(Clone, Copy)]
pub(crate) struct Placing {
    pub(crate) program: Program,
    pub(crate) overwrite: bool,
}

/// The file of an OUT: OUT's path, and the name that the file has until it is whole.
#[derive(Drop)]
pub(crate) struct OutPart {
    pub(crate) path: String,
    pub(crate) name: String,
}

/// All OUTs of a run, in order, and their files.
#[derive(Drop)]
pub(crate) struct MadeOuts<'a, D> {
    pub(crate) outputs: Outputs<'a, D>,
    pub(crate) parts: Vec<OutPart>,
}

/// The first OUT that isn't kept, by its place in the list, and what failed.
#[derive(Clone, Copy, Debug)]
pub(crate) struct NotKept {
    pub(crate) at: usize,
    pub(crate) fault: FinishFault,
}

// ---- before the work

/// Refuses the first OUT that is there.
pub(crate) fn refuse_existing_each<H: Host>(
    host: &mut H,
    outs: &[OutputCut],
    overwrite: bool,
) -> Result<(), Ending>
    ensures ok { OnOk result (H.log host.new ≡ then_all (H.log host.old)
        (looks_each overwrite (map (λ out. string_bytes out.output) outs.now))) }
    ensures err { IfErr result (λ how. (events : List Event)
        × (H.log host.new ≡ then_all (H.log host.old) events) × FailsOpening how events
        × FindsOne overwrite (map (λ out. string_bytes out.output) outs.now) events) }
{
    let mut rest = outs;
    'outs: while let Some((out, more)) = rest.split_first() {
        if host.exists(out.output.as_str(), overwrite) {
            return Err(Ending::OutExists);
        }
        rest = more;
    }
    Ok(())
}

/// A new file of an OUT.
#[derive(Drop)]
struct MadeFile<D> {
    drain: D,
    part: OutPart,
}

/// Makes the file of an OUT.
fn make_out_file<H: Host>(
    alloc: Global,
    host: &mut H,
    place: Place<'_>,
) -> Result<MadeFile<H::Out>, Ending>
    ensures ok { IfOk result (λ file. (events : List Event)
        × (H.log host.new ≡ then_all (H.log host.old) events)
        × MakesPart place.entry.program file.part events
        × (string_bytes file.part.path ≡ place.entry.path.now)
        × IsFreshOut H.Out.Drain file.drain) }
    ensures err { IfErr result (λ how. (events : List Event)
        × (H.log host.new ≡ then_all (H.log host.old) events) × FailsOpening how events) }
{
    let path = String::from_str(alloc, place.path)?;
    let out = make_out(alloc, host, false, place)?;
    Ok(MadeFile {
        drain: out.drain,
        part: OutPart {
            path,
            name: out.name.unwrap(),
        },
    })
}

/// The output for what is cut out into a new file.
fn begin_output<'a, D>(cut: &'a Cut, drain: D) -> AreaOutput<OutputArea<'a>, D>
    ensures area { (result.area.cut.now ≡ cut.now) × (result.area.output ≡ None)
        × (result.area.meaning ≡ None) }
    ensures drain { result.drain ≡ drain }
{
    let area = OutputArea {
        cut,
        output: None,
        meaning: None,
    };
    AreaOutput::new(area, drain)
}

/// One output more, for which there is room.
fn add_output<'a, D: Drain + Drop>(
    outputs: Outputs<'a, D>,
    output: AreaOutput<OutputArea<'a>, D>,
) -> Outputs<'a, D>
    requires { length outputs.items < vec_capacity outputs }
    ensures items { result.items ≡ outputs.entry.items ++ output.entry ∷ [] }
    ensures room { vec_capacity outputs.entry ≤ vec_capacity result }
{
    let mut outputs = outputs;
    outputs.push(output).unwrap();
    outputs
}

/// One file more, for which there is room.
fn add_part(parts: Vec<OutPart>, part: OutPart) -> Vec<OutPart>
    requires { length parts.items < vec_capacity parts }
    ensures items { result.items ≡ parts.items ++ part ∷ [] }
    ensures room { vec_capacity parts ≤ vec_capacity result }
{
    let mut parts = parts;
    parts.push(part).unwrap();
    parts
}

/// One OUT more, for which `made` has room.
fn with_file<'a, D: Drain + Drop>(
    made: MadeOuts<'a, D>,
    cut: &'a Cut,
    file: MadeFile<D>,
) -> MadeOuts<'a, D>
    requires outputs { length made.outputs.items < vec_capacity made.outputs }
    requires parts { length made.parts.items < vec_capacity made.parts }
    ensures { HasFile made.entry cut.now file result }
{
    let MadeOuts { outputs, parts } = made;
    let output = begin_output(cut, file.drain);
    let outputs = add_output(outputs, output);
    let parts = add_part(parts, file.part);
    MadeOuts { outputs, parts }
}

/// Makes each of these OUTs; `made` has room for them. If one can't be made, those before it are dropped.
fn make_each<'a, H: Host>(
    alloc: Global,
    host: &mut H,
    placing: Placing,
    outs: &'a [OutputCut],
    made: MadeOuts<'a, H::Out>,
) -> Result<MadeOuts<'a, H::Out>, Ending>
    requires outputs { (made.outputs.items ≡ []) × (length outs.now ≤ vec_capacity made.outputs) }
    requires parts { (made.parts.items ≡ []) × (length outs.now ≤ vec_capacity made.parts) }
    ensures ok { IfOk result (λ made. MakesEach H.Out.Drain placing.program outs.now
        made.parts.items made.outputs.items (H.log host.old) (H.log host.new)) }
    ensures err { IfErr result (λ how. UnmakesEach placing.program outs.now how
        (H.log host.old) (H.log host.new)) }
{
    let mut made = made;
    let mut rest = outs;
    'outs: while let Some((out, more)) = rest.split_first() {
        let place = Place {
            program: placing.program,
            path: out.output.as_str(),
            overwrite: placing.overwrite,
        };
        match make_out_file(alloc, host, place) {
            Ok(file) => {
                let longer = with_file(made, &out.cut, file);
                made = longer;
                rest = more;
            }
            Err(how) => {
                let MadeOuts { outputs, parts } = made;
                drop_outs(host, placing.program, parts.as_slice(), outputs);
                return Err(how);
            }
        }
    }
    Ok(made)
}

/// Makes each of these OUTs: under other names, if it is pbfcutz that writes them. If one can't be made, there is none.
pub(crate) fn make_outs<'a, H: Host>(
    alloc: Global,
    host: &mut H,
    placing: Placing,
    outs: &'a [OutputCut],
) -> Result<MadeOuts<'a, H::Out>, Ending>
    ensures ok { IfOk result (λ made. MakesEach H.Out.Drain placing.program outs.now
        made.parts.items made.outputs.items (H.log host.old) (H.log host.new)) }
    ensures err { IfErr result (λ how. UnmakesEach placing.program outs.now how
        (H.log host.old) (H.log host.new)) }
{
    let (Ok(outputs), Ok(parts)) = (
        Vec::with_capacity(alloc, outs.len()),
        Vec::with_capacity(alloc, outs.len()),
    ) else {
        return Err(Ending::Stopped(Stop::Memory));
    };
    make_each(alloc, host, placing, outs, MadeOuts { outputs, parts })
}

// ---- after the work

/// The files of OUTs that aren't whole, and won't be: pbfcut leaves them to its user, pbfcutz removes them.
fn forget_each<H: Host>(host: &mut H, program: Program, parts: &[OutPart])
    ensures { DoesEach (DropsPart program) parts.now (H.log host.old) (H.log host.new) }
{
    let mut rest = parts;
    'parts: while let Some((part, more)) = rest.split_first() {
        forget(host, program, part.name.as_str());
        rest = more;
    }
}

/// Takes an OUT back that isn't whole.
fn close_part<H: Host>(host: &mut H, part: &OutPart, output: AreaOutput<OutputArea<'_>, H::Out>)
    ensures { FinishesUnkept H.Out.Drain (part.now, output.entry) (H.log host.old) (H.log host.new) }
{
    host.close_out(part.name.as_str(), output.drain);
}

/// Takes OUTs back that aren't whole.
fn close_each<H: Host>(host: &mut H, parts: &[OutPart], outputs: Outputs<'_, H::Out>)
    ensures { OneByOne (FinishesUnkept H.Out.Drain) (zip parts.now outputs.entry.items)
        (H.log host.old) (H.log host.new) }
{
    'outs: for (part, output) in parts.iter().zip(outputs) {
        close_part(host, part, output);
    }
}

/// None of the OUTs is whole.
pub(crate) fn drop_outs<H: Host>(
    host: &mut H,
    program: Program,
    parts: &[OutPart],
    outputs: Outputs<'_, H::Out>,
)
    requires { length parts.now ≡ length outputs.items }
    ensures { DropsEach H.Out.Drain program parts.now outputs.entry.items
        (H.log host.old) (H.log host.new) }
{
    close_each(host, parts, outputs);
    forget_each(host, program, parts);
}

/// Takes the OUT at this place back: it is kept if those before it are whole.
fn finish_part<H: Host>(
    host: &mut H,
    before: Result<(), NotKept>,
    at: usize,
    part: &OutPart,
    output: AreaOutput<OutputArea<'_>, H::Out>,
) -> Result<(), NotKept>
    ensures { FinishesNext H.Out.Drain before at (part.now, output.entry) result
        (H.log host.old) (H.log host.new) }
{
    match before {
        Ok(()) => match host.sync(part.name.as_str(), output.drain) {
            Ok(()) => Ok(()),
            Err(fault) => Err(NotKept { at, fault }),
        },
        Err(told) => {
            host.close_out(part.name.as_str(), output.drain);
            Err(told)
        }
    }
}

/// Takes whole OUTs back. If not all of one went out, those after it aren't kept, either.
fn finish_each<H: Host>(
    host: &mut H,
    parts: &[OutPart],
    outputs: Outputs<'_, H::Out>,
) -> Result<(), NotKept>
    ensures { FinishesEach H.Out.Drain result (zip parts.now outputs.entry.items)
        (H.log host.old) (H.log host.new) }
{
    let mut result = Ok(());
    let mut at = 0usize;
    'outs: for (part, output) in parts.iter().zip(outputs) {
        let next = finish_part(host, result, at, part, output);
        result = next;
        at += 1;
    }
    result
}

/// Gives whole files the names of their OUTs. If one doesn't get its name, it and those after it are dropped, and those before it stay.
fn name_each<H: Host>(host: &mut H, placing: Placing, parts: &[OutPart]) -> Result<(), NotKept>
    ensures { NamesEach placing.program placing.overwrite result parts.now
        (H.log host.old) (H.log host.new) }
{
    let mut rest = parts;
    'parts: while let Some((part, more)) = rest.split_first() {
        let place = Place {
            program: placing.program,
            path: part.path.as_str(),
            overwrite: placing.overwrite,
        };
        match name_whole(host, part.name.as_str(), place) {
            Ok(()) => rest = more,
            Err(fault) => {
                forget_each(host, placing.program, more);
                let at = parts.len() - rest.len();
                return Err(NotKept { at, fault });
            }
        }
    }
    Ok(())
}

/// All OUTs are whole: they are kept, once all of them are on the disk. If not all of one went out, none is.
pub(crate) fn keep_outs<H: Host>(
    host: &mut H,
    placing: Placing,
    parts: &[OutPart],
    outputs: Outputs<'_, H::Out>,
) -> Result<(), NotKept>
    requires { length parts.now ≡ length outputs.items }
    ensures { KeepsEach H.Out.Drain placing.program placing.overwrite result parts.now
        outputs.entry.items (H.log host.old) (H.log host.new) }
{
    match finish_each(host, parts, outputs) {
        Ok(()) => name_each(host, placing, parts),
        Err(failed) => {
            forget_each(host, placing.program, parts);
            Err(failed)
        }
    }
}
