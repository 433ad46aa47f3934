//! The pass that writes several extracts: each area has its writer, and each frame goes through all of them.

ghost use Rattle.std.specs.Prelude.{◌≡◌, ◌<◌, ◌≤◌, List, Some, [], true, false, Ok, OnOk, IfOk, IfSome, IfErr, length};
ghost use Rattle.std.specs.List.{AllByRecursion, AllZip};
ghost use Rattle.std.specs.Vec.{vec_capacity};
ghost use Rattle.pbf_frame.specs.declared.stop.Stop.{Stop};
ghost use Rattle.pbf_header.specs.Header.{header_of};
ghost use Rattle.pbf_pass.specs.HeaderLimit.{HasShortTexts};
ghost use Rattle.pbfcut.specs.Calls.{fed};
ghost use Rattle.osm_entity.specs.Entity.{EntitySpec};
ghost use Rattle.osm_ways.specs.ChoiceStrips.{NamesChoice};
ghost use Rattle.pbf_pass.specs.Payload.{Payload, lent_by};
ghost use Rattle.pbfcut.specs.Pick.{IsReadyToPack};
ghost use Rattle.pbfcut.specs.Wanted.{AllFrom, listed_entities};
ghost use Rattle.pbfcut.specs.Several.{AllThree, AreNamed, CanPackEach, CanBegin, IsFreshWriter, IsOutputOf, IsReadyWriter, IsWriterOf, OneStopped, OneStoppedWith, PutsHeader, StopsAtHeader, StopsAtLast, WriterFailsAtPayload, WriterPacks, WriterStops, WriterTakesPayload, WritersFail, WritersTake, WritesEach, WritesEachUnjudged, WritesLast};

use crate::carrying::{AreaChoice, AreaOutput};
use crate::pick::EntityPacker;
use crate::picker::Picker;
use crate::repeat::LaterPass;
use crate::wanted::{name_choices, wanted_each};
use crate::write::pack_payload;
use osm_pack::Packer;
use osm_ways::ChoiceStrips;
use pbf_block::{Counts, Kinds, Run, UnjudgedBlock};
use pbf_frame::{Drain, Feed, Frame, FrameKind, Stop};
use pbf_pass::{Visit, pass_over};
use std::alloc::{AllocError, Global};
use std::hash::BuildHasher;

/// Writes the extract of one of several areas. It owns its drain, and gives it back in the end.
#[derive(Drop)]
struct AreaWriter<'a, A, D: Drain, S: BuildHasher> {
    area: A,
    choice: &'a AreaChoice,
    packer: Packer<D, S>,
    entities: EntityPacker<'a>,
}

impl<'a, A, D: Drain, S: BuildHasher> AreaWriter<'a, A, D, S> {
    /// A writer of this output, for what was chosen for it, in the pass of this number.
    fn new(
        pass: LaterPass,
        choice: &'a AreaChoice,
        output: AreaOutput<A, D>,
        hasher: S,
    ) -> AreaWriter<'a, A, D, S>
        ensures { IsWriterOf pass.number choice.now output result }
    {
        let alloc = pass.passes.alloc;
        let picker = Picker::of_taken(Some(&choice.chosen));
        AreaWriter {
            area: output.area,
            choice,
            packer: Packer::new(alloc, output.drain, hasher),
            entities: EntityPacker::new(alloc, picker, Counts::none(), pass.number),
        }
    }

    /// Its output, with the numbers of what was packed.
    fn into_output(self) -> AreaOutput<A, D>
    where
        S: Drop,
        ensures { IsOutputOf self.entry result }
    {
        AreaOutput {
            area: self.area,
            counts: self.entities.counts,
            drain: self.packer.into_drain(),
        }
    }
}

/// The writers of several areas, in their order.
#[derive(Drop)]
struct EachWriter<'a, A, D: Drain, S: BuildHasher> {
    writers: Vec<AreaWriter<'a, A, D, S>>,
    /// Name the writers that may pick an entity; none if there is one writer, which reads all by itself.
    strips: Option<ChoiceStrips>,
}

impl<A, D: Drain, S: BuildHasher> Visit for EachWriter<'_, A, D, S> {
    ghost took = { WritersTake D.Drain };

    ghost failed = { WritersFail D.Drain };

    ghost ready = { λ v. CanPackEach v.strips v.writers.items };

    fn visit(&mut self, alloc: Global, frame: &Frame<'_>) -> Result<(), Stop> {
        pack_frame_each(alloc, frame, &self.strips, &mut self.writers)
    }
}

/// What is packed of a block, or of a whole payload.
trait PacksParts {
    /// Whether it can pack.
    ghost can_pack: { Self → Type 0 };

    /// It packed what it picks of these entities.
    ghost packed: { List EntitySpec → Self → Self → Type 0 };

    /// Why it stopped among them, and what it is then.
    ghost not_packed: { List EntitySpec → Stop → Self → Self → Type 0 };

    /// It packed what it picks of a payload.
    ghost took: { Payload → Self → Self → Type 0 };

    /// Why it stopped at the payload, and what it is then.
    ghost not_taken: { Payload → Stop → Self → Self → Type 0 };

    /// Packs what it picks of these runs.
    fn pack_wanted(&mut self, wanted: &[Run<'_>]) -> Result<(), Stop>
        requires { can_pack self.old }
        ensures packed { OnOk result (packed (listed_entities wanted.now) self.old self.new) }
        ensures stopped { IfErr result (λ stop.
            not_packed (listed_entities wanted.now) stop self.old self.new) };

    /// Packs what it picks of the payload of a frame.
    fn pack_payload(&mut self, frame: &Frame<'_>) -> Result<(), Stop>
        requires { can_pack self.old }
        ensures took { OnOk result (took (lent_by frame.now) self.old self.new) }
        ensures stopped { IfErr result (λ stop.
            not_taken (lent_by frame.now) stop self.old self.new) };
}

impl<A, D: Drain, S: BuildHasher> PacksParts for AreaWriter<'_, A, D, S> {
    ghost can_pack = { IsReadyWriter };

    ghost packed = { WriterPacks D.Drain };

    ghost not_packed = { WriterStops D.Drain };

    ghost took = { WriterTakesPayload D.Drain };

    ghost not_taken = { WriterFailsAtPayload D.Drain };

    fn pack_wanted(&mut self, wanted: &[Run<'_>]) -> Result<(), Stop> {
        self.entities.pack_wanted(wanted, &mut self.packer)
    }

    fn pack_payload(&mut self, frame: &Frame<'_>) -> Result<(), Stop> {
        pack_payload(frame, &mut self.entities, &mut self.packer)
    }
}

/// Packs what each of the writers picks of its runs, by one writer after another.
fn pack_wanted_each<W: PacksParts>(lists: &[Vec<Run<'_>>], writers: &mut [W]) -> Result<(), Stop>
    requires ready { AllByRecursion W.can_pack writers.old }
    requires as_many { length lists.now ≡ length writers.old }
    ensures packed { OnOk result (AllThree (λ list. W.packed (listed_entities list.items))
        lists.now writers.old writers.new) }
    ensures stopped { IfErr result (λ stop. OneStoppedWith
        (λ list. W.packed (listed_entities list.items))
        (λ list. W.not_packed (listed_entities list.items) stop)
        lists.now writers.old writers.new) }
{
    let Some((first, later)) = writers.split_first_mut() else {
        return Ok(());
    };
    let Some((list, more)) = lists.split_first() else {
        return Ok(());
    };
    first.pack_wanted(list)?;
    pack_wanted_each(more, later)
}

/// Packs what each of the writers picks of the payload of a frame, which each of them reads by itself.
fn pack_payload_each<W: PacksParts>(frame: &Frame<'_>, writers: &mut [W]) -> Result<(), Stop>
    requires { AllByRecursion W.can_pack writers.old }
    ensures took { OnOk result (AllZip (W.took (lent_by frame.now)) writers.old writers.new) }
    ensures stopped { IfErr result (λ stop. OneStopped (W.took (lent_by frame.now))
        (W.not_taken (lent_by frame.now) stop) writers.old writers.new) }
{
    let Some((first, later)) = writers.split_first_mut() else {
        return Ok(());
    };
    first.pack_payload(frame)?;
    pack_payload_each(frame, later)
}

/// Packs what each of the writers picks of a block, which is read once to find that. It returns false, and nothing was done, if too much of it
/// is wanted, if memory is refused, or if the frame has no block.
fn pack_together<A, D: Drain, S: BuildHasher>(
    alloc: Global,
    frame: &Frame<'_>,
    strips: &ChoiceStrips,
    writers: &mut [AreaWriter<'_, A, D, S>],
) -> Result<bool, Stop>
    requires { CanPackEach (Some strips.now) writers.old }
    ensures packed { result ≡ Ok true → AllZip (WriterTakesPayload D.Drain (lent_by frame.now))
        writers.old writers.new }
    ensures left { result ≡ Ok false → writers.new ≡ writers.old }
    ensures stopped { IfErr result (λ stop. OneStopped
        (WriterTakesPayload D.Drain (lent_by frame.now))
        (WriterFailsAtPayload D.Drain (lent_by frame.now) stop) writers.old writers.new) }
{
    let FrameKind::Data = frame.kind else {
        return Ok(false);
    };
    let Ok(Some(block)) = UnjudgedBlock::open(alloc, frame.payload, frame.payload_at) else {
        return Ok(false);
    };
    let runs = block.runs_among(Kinds::all());
    let Ok(Some(lists)) = wanted_each(alloc, strips, writers.len(), runs) else {
        return Ok(false);
    };
    pack_wanted_each(&lists, writers)?;
    Ok(true)
}

/// The same if there are strips; it returns false if there are none.
fn pack_by_strips<A, D: Drain, S: BuildHasher>(
    alloc: Global,
    frame: &Frame<'_>,
    strips: &Option<ChoiceStrips>,
    writers: &mut [AreaWriter<'_, A, D, S>],
) -> Result<bool, Stop>
    requires { CanPackEach strips.now writers.old }
    ensures packed { result ≡ Ok true → AllZip (WriterTakesPayload D.Drain (lent_by frame.now))
        writers.old writers.new }
    ensures left { result ≡ Ok false → writers.new ≡ writers.old }
    ensures stopped { IfErr result (λ stop. OneStopped
        (WriterTakesPayload D.Drain (lent_by frame.now))
        (WriterFailsAtPayload D.Drain (lent_by frame.now) stop) writers.old writers.new) }
{
    match strips {
        Some(strips) => pack_together(alloc, frame, strips, writers),
        None => Ok(false),
    }
}

/// Packs what each of the writers picks of the payload of a frame, which is read once if that can be.
fn pack_frame_each<A, D: Drain, S: BuildHasher>(
    alloc: Global,
    frame: &Frame<'_>,
    strips: &Option<ChoiceStrips>,
    writers: &mut [AreaWriter<'_, A, D, S>],
) -> Result<(), Stop>
    requires { CanPackEach strips.now writers.old }
    ensures packed { OnOk result (AllZip (WriterTakesPayload D.Drain (lent_by frame.now))
        writers.old writers.new) }
    ensures stopped { IfErr result (λ stop. OneStopped
        (WriterTakesPayload D.Drain (lent_by frame.now))
        (WriterFailsAtPayload D.Drain (lent_by frame.now) stop) writers.old writers.new) }
{
    if pack_by_strips(alloc, frame, strips, writers)? {
        return Ok(());
    }
    pack_payload_each(frame, writers)
}

/// What is done before the frames of a file, and after them.
trait Ends {
    /// Whether it can begin.
    ghost can_begin: { Self → Type 0 };

    /// What it did before the frames.
    ghost began: { Self → Self → Type 0 };

    /// Why it stopped there, and what it is then.
    ghost not_begun: { Stop → Self → Self → Type 0 };

    /// Whether it can end.
    ghost can_end: { Self → Type 0 };

    /// What it did after the frames.
    ghost ended: { Self → Self → Type 0 };

    /// Why it stopped there, and what it is then.
    ghost not_ended: { Stop → Self → Self → Type 0 };

    /// Does what comes before the frames.
    fn begin(&mut self) -> Result<(), Stop>
        requires { can_begin self.old }
        ensures began { OnOk result (began self.old self.new) }
        ensures stopped { IfErr result (λ stop. not_begun stop self.old self.new) };

    /// Does what comes after them.
    fn end(&mut self) -> Result<(), Stop>
        requires { can_end self.old }
        ensures ended { OnOk result (ended self.old self.new) }
        ensures stopped { IfErr result (λ stop. not_ended stop self.old self.new) };
}

impl<A, D: Drain, S: BuildHasher> Ends for AreaWriter<'_, A, D, S> {
    ghost can_begin = { CanBegin };

    ghost began = { PutsHeader D.Drain };

    ghost not_begun = { StopsAtHeader D.Drain };

    ghost can_end = { λ w. IsReadyToPack w.packer };

    ghost ended = { WritesLast D.Drain };

    ghost not_ended = { StopsAtLast D.Drain };

    fn begin(&mut self) -> Result<(), Stop> {
        self.packer.put_header(&self.choice.header)
    }

    fn end(&mut self) -> Result<(), Stop> {
        self.packer.finish()
    }
}

/// Makes the writers of these outputs; `writers` has room for them.
#[tactic(auto, using(crate::proofs::SeveralLemmas::three_more))]
fn load<'a, A: Drop, D: Drain + Drop, S: BuildHasher + Copy>(
    pass: LaterPass,
    choices: &'a [AreaChoice],
    outputs: Vec<AreaOutput<A, D>>,
    hasher: S,
    writers: Vec<AreaWriter<'a, A, D, S>>,
) -> Vec<AreaWriter<'a, A, D, S>>
    requires same { length choices.now ≡ length outputs.items }
    requires room { length outputs.items ≤ vec_capacity writers }
    requires none { writers.items ≡ [] }
    ensures { AllThree (IsWriterOf pass.number) choices.now outputs.items result.items }
{
    let mut writers = writers;
    let mut rest = choices;
    'outputs: for output in outputs {
        let Some((choice, later)) = rest.split_first() else {
            unreachable!()
        };
        rest = later;
        writers
            .push(AreaWriter::new(pass, choice, output, hasher))
            .unwrap();
    }
    writers
}

/// What is left of these writers; `outputs` has room for it.
#[tactic(auto, using(crate::proofs::SeveralLemmas::zip_more))]
fn unload<A: Drop, D: Drain + Drop, S: BuildHasher + Drop>(
    writers: Vec<AreaWriter<'_, A, D, S>>,
    outputs: Vec<AreaOutput<A, D>>,
) -> Vec<AreaOutput<A, D>>
    requires room { length writers.items ≤ vec_capacity outputs }
    requires none { outputs.items ≡ [] }
    ensures { AllZip IsOutputOf writers.entry.items result.items }
{
    let mut outputs = outputs;
    'writers: for writer in writers {
        outputs.push(writer.into_output()).unwrap();
    }
    outputs
}

/// Does what comes before the frames, by one writer after another.
fn begin_all<W: Ends>(writers: &mut [W]) -> Result<(), Stop>
    requires { AllByRecursion W.can_begin writers.old }
    ensures began { OnOk result (AllZip W.began writers.old writers.new) }
    ensures stopped { IfErr result (λ stop. OneStopped W.began (W.not_begun stop)
        writers.old writers.new) }
{
    let Some((first, later)) = writers.split_first_mut() else {
        return Ok(());
    };
    first.begin()?;
    begin_all(later)
}

/// Does what comes after the frames, by one writer after another.
fn end_all<W: Ends>(writers: &mut [W]) -> Result<(), Stop>
    requires { AllByRecursion W.can_end writers.old }
    ensures ended { OnOk result (AllZip W.ended writers.old writers.new) }
    ensures stopped { IfErr result (λ stop. OneStopped W.ended (W.not_ended stop)
        writers.old writers.new) }
{
    let Some((first, later)) = writers.split_first_mut() else {
        return Ok(());
    };
    first.end()?;
    end_all(later)
}

/// The strips of these choices, if they are two or more: otherwise nothing would be read twice.
fn strips_if_several(
    alloc: Global,
    choices: &[AreaChoice],
) -> Result<Option<ChoiceStrips>, AllocError>
    ensures { IfOk result (λ found. IfSome found (λ strips. AllFrom
        (λ number choice. NamesChoice strips number choice.chosen) 0 choices.now)) }
{
    if choices.len() < 2 {
        return Ok(None);
    }
    let strips = name_choices(alloc, choices)?;
    Ok(Some(strips))
}

/// Puts the headers, what is picked of a whole file, and the last blocks through the writers.
#[tactic(auto, using(crate::proofs::SeveralLemmas::all_back))]
fn pack_each<'a, A, F: Feed, D: Drain, S: BuildHasher>(
    pass: LaterPass,
    feed: &mut F,
    strips: Option<ChoiceStrips>,
    writers: Vec<AreaWriter<'a, A, D, S>>,
) -> (Vec<AreaWriter<'a, A, D, S>>, Result<[u8; 32], Stop>)
    requires fresh { AllByRecursion (IsFreshWriter pass.number) writers.items }
    requires named { AreNamed strips writers.items }
    ensures { WritesEachUnjudged (fed F.Feed feed.old feed.new) D.Drain pass
        writers.entry.items result.0.items result.1 }
{
    let mut writers = writers;
    if let Err(stop) = begin_all(&mut writers) {
        return (writers, Err(stop));
    }
    let mut each = EachWriter { writers, strips };
    let outcome = pass_over(pass.passes, feed, &mut each);
    let EachWriter {
        writers,
        strips: _strips,
    } = each;
    let mut writers = writers;
    let read = match outcome {
        Ok(read) => read,
        Err(halt) => return (writers, Err(halt.into())),
    };
    if let Err(stop) = end_all(&mut writers) {
        return (writers, Err(stop));
    }
    (writers, Ok(read.digest))
}

/// Writes the extracts of these outputs, for what was chosen for each of them, in a pass over a whole file, which has to be the one that
/// was judged. The outputs come back in the same order.
pub(crate) fn write_each<A: Drop, F: Feed, D: Drain + Drop, S: BuildHasher + Copy + Drop>(
    pass: LaterPass,
    choices: &[AreaChoice],
    outputs: Vec<AreaOutput<A, D>>,
    feed: &mut F,
    hasher: S,
) -> (Vec<AreaOutput<A, D>>, Result<(), Stop>)
    requires same { length choices.now ≡ length outputs.items }
    requires short { AllByRecursion (λ choice. HasShortTexts (header_of choice.header)) choices.now }
    ensures { WritesEach (fed F.Feed feed.old feed.new) D.Drain pass choices.now
        outputs.items result.0.items result.1 }
{
    let alloc = pass.passes.alloc;
    let (Ok(writers), Ok(back)) = (
        Vec::with_capacity(alloc, outputs.len()),
        Vec::with_capacity(alloc, outputs.len()),
    ) else {
        return (outputs, Err(Stop::Memory));
    };
    let Ok(strips) = strips_if_several(alloc, choices) else {
        return (outputs, Err(Stop::Memory));
    };
    let writers = load(pass, choices, outputs, hasher, writers);
    let (writers, outcome) = pack_each(pass, feed, strips, writers);
    (unload(writers, back), pass.conclude(outcome))
}
