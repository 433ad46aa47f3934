//! What is opened before a command begins.

ghost use Rattle.std.specs.Prelude.{◌≡◌, ◌∷◌, [], length, map, IfOk, IfErr, Some, true};
ghost use Rattle.pbf_published.specs.PublishedTasks.{below_of};
ghost use Rattle.pbfcut_program.specs.Events.{Event, opened, screened, seeded, then_all, then_one, openings};
ghost use Rattle.pbfcut_program.specs.Devices.{AreFresh, CloseAll, IsFreshFeed, IsFreshOut};
ghost use Rattle.pbfcut_program.specs.Fails.{FailsOpening, StopsOpening};
ghost use Rattle.pbfcut_program.specs.Inputs.{AreReady, feeds_in};
ghost use Rattle.pbfcut_program.specs.Manner.{check_in};
ghost use Rattle.pbfcut_program.specs.Program.{draws};

use crate::engine::Engine;
use crate::host::{Host, OpenFault, Seed, Turn};
use pbf_frame::{Feed, Stop};
use pbf_published::{PublishedFeed, close, open_all};
use pbfcut_cli::{Ending, Program};
use std::alloc::{AllocError, Global};

/// IN, opened for each pass, as a program reads it.
#[derive(Drop)]
pub(crate) enum Inputs<F> {
    /// As it is.
    Raw(Vec<F>),
    /// Unpacked.
    Published(Vec<PublishedFeed<F>>),
}

/// IN, how often it is read, and whether the run reports how far it has come.
#[derive(Clone, Copy)]
pub(crate) struct Input<'a> {
    pub(crate) path: &'a str,
    pub(crate) passes: u8,
    pub(crate) progress: bool,
}

/// Opens IN for the pass of this number.
pub(crate) fn open_pass<H: Host>(host: &mut H, input: &Input<'_>, pass: u8) -> Result<H::In, Ending>
    ensures opened { IfOk result (λ feed. H.log host.new ≡ then_one (H.log host.old)
        (opened input.now.path.now pass (H.In.remaining feed))) }
    ensures fresh { IfOk result (λ feed. IsFreshFeed H.In.Feed feed) }
    ensures failed { IfErr result (λ how. (event : Event)
        × (H.log host.new ≡ then_one (H.log host.old) event) × FailsOpening how (event ∷ [])) }
{
    let turn = Turn {
        pass,
        passes: input.passes,
        progress: input.progress,
    };
    match host.open(input.path, turn) {
        Ok(feed) => Ok(feed),
        Err(OpenFault::Failed) => Err(Ending::CannotOpen),
        Err(OpenFault::Pipe) => Err(Ending::IsPipe),
    }
}

/// Opens IN for each pass.
#[tactic(auto, using(crate::proofs::OpeningLemmas::opened_more, crate::proofs::Logging::then_none))]
pub(crate) fn open_passes<H: Host>(
    alloc: Global,
    host: &mut H,
    input: &Input<'_>,
) -> Result<Vec<H::In>, Ending>
    ensures opened { IfOk result (λ feeds. H.log host.new ≡ then_all (H.log host.old)
        (openings input.now.path.now 1 (map H.In.remaining feeds.items))) }
    ensures fresh { IfOk result (λ feeds. AreFresh H.In.Feed feeds.items) }
    ensures count { IfOk result (λ feeds. length feeds.items ≡ input.now.passes) }
    ensures failed { IfErr result (StopsOpening (H.log host.old) (H.log host.new)) }
{
    let mut feeds = Vec::with_capacity(alloc, usize::from(input.passes))?;
    'passes: for pass in 0..input.passes {
        let feed = open_pass(host, input, pass + 1)?;
        let Ok(()) = feeds.push(feed) else {
            return Err(Ending::Stopped(Stop::Memory));
        };
    }
    Ok(feeds)
}

/// Reads these feeds as a program does.
pub(crate) fn open_inputs<F: Feed + Drop>(
    engine: Engine,
    feeds: Vec<F>,
    key: u128,
) -> Result<Inputs<F>, AllocError>
    ensures feeds { IfOk result (λ inputs. feeds_in inputs ≡ feeds.items) }
    ensures ready { IfOk result (λ inputs. AreReady F.Feed ⟦<PublishedFeed<F> as Feed>⟧
        engine.program (check_in engine key) inputs) }
{
    match engine.program {
        Program::Pbfcut => Ok(Inputs::Raw(feeds)),
        Program::Pbfcutz => {
            let check = engine.many_passes(key).check;
            Ok(Inputs::Published(open_all(engine.alloc, feeds, check)?))
        }
    }
}

/// Hands raw feeds back.
#[tactic(auto, using(crate::proofs::OpeningLemmas::closed_more))]
fn close_raw<H: Host>(host: &mut H, feeds: Vec<H::In>)
    ensures { CloseAll H.In.Feed feeds.items (H.log host.old) (H.log host.new) }
{
    'feeds: for feed in feeds {
        host.close(feed);
    }
}

/// Hands back the feeds below those that unpack.
#[tactic(auto, using(crate::proofs::OpeningLemmas::closed_below))]
fn close_published<H: Host>(host: &mut H, feeds: Vec<PublishedFeed<H::In>>)
    ensures { CloseAll H.In.Feed (map below_of feeds.items) (H.log host.old) (H.log host.new) }
{
    'feeds: for feed in feeds {
        host.close(close(feed));
    }
}

/// Hands IN back after all passes.
pub(crate) fn close_inputs<H: Host>(host: &mut H, inputs: Inputs<H::In>)
    ensures { CloseAll H.In.Feed (feeds_in inputs) (H.log host.old) (H.log host.new) }
{
    match inputs {
        Inputs::Raw(feeds) => close_raw(host, feeds),
        Inputs::Published(feeds) => close_published(host, feeds),
    }
}

/// Takes standard output to be written to as OUT is.
pub(crate) fn open_screen<H: Host>(host: &mut H) -> Result<H::Out, Ending>
    ensures opened { IfOk result (λ out. (H.log host.new ≡ then_one (H.log host.old) (screened true))
        × IsFreshOut H.Out.Drain out) }
    ensures failed { IfErr result (StopsOpening (H.log host.old) (H.log host.new)) }
{
    match host.screen() {
        Ok(out) => Ok(out),
        Err(_) => Err(Ending::Stopped(Stop::Memory)),
    }
}

/// Draws a seed: IN is untrusted, its strings are hashed, and it may change between two passes.
pub(crate) fn draw_seed<H: Host>(host: &mut H) -> Result<Seed<H::Hasher>, Ending>
    ensures ok { IfOk result (λ seed. H.log host.new
        ≡ then_one (H.log host.old) (seeded (Some seed.key))) }
    ensures err { IfErr result (StopsOpening (H.log host.old) (H.log host.new)) }
{
    match host.seed() {
        Ok(seed) => Ok(seed),
        Err(_) => Err(Ending::CannotOpen),
    }
}

/// Draws the key by which pbfcutz compares its passes, where nothing else is drawn. pbfcut needs none.
#[tactic(auto, using(crate::proofs::Logging::then_none))]
pub(crate) fn draw_key<H: Host>(host: &mut H, program: Program) -> Result<u128, Ending>
    ensures ok { IfOk result (λ key. H.log host.new
        ≡ then_all (H.log host.old) (draws program key)) }
    ensures err { IfErr result (StopsOpening (H.log host.old) (H.log host.new)) }
{
    if program == Program::Pbfcut {
        return Ok(0);
    }
    match draw_seed(host) {
        Ok(seed) => Ok(seed.key),
        Err(how) => Err(how),
    }
}
