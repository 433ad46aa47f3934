//! OUT: standard output, or a file that is made new, and which gets its name from pbfcutz only when it is whole.

ghost use Rattle.std.specs.Prelude.{◌≡◌, ◌⊎◌, ◌++◌, ◌∷◌, [], ℕ, List, Option, Some, None, true, false, IfErr, IfOk, IfSome, OnOk, string_bytes};
ghost use Rattle.std.specs.Option.{option_map};
ghost use Rattle.pbfcut_cli.specs.declared.programs.Program.TheVariants.{Pbfcut, Pbfcutz};
ghost use Rattle.pbfcut_program.specs.Devices.{Finishes, IsFreshOut};
ghost use Rattle.pbfcut_program.specs.Events.{Event, made, not_made, not_named, renamed, then_all, then_one};
ghost use Rattle.pbfcut_program.specs.Fails.{Each, FailsOpening, FailsToFinish, FailsToOpen, Has};
ghost use Rattle.pbfcut_program.specs.Files.{Drops, EndsOut, IsDropped, IsMade, Misnames, Misses, Names};
ghost use Rattle.pbfcut_program.specs.declared.host.CreateFault.TheVariants as creating;
ghost use Rattle.pbfcut_program.specs.declared.host.FinishFault.{FinishFault};
ghost use Rattle.pbfcut_program.specs.declared.host.NameFault.TheVariants as naming;
ghost use Rattle.pbfcut_program.specs.Outcomes.{finish_fault_of, unmade, unmade_part};

use crate::host::{CreateFault, FinishFault, Host, NameFault};
use crate::opening::open_screen;
use pbf_frame::Stop;
use pbfcut_cli::{Ending, Program};
use std::alloc::{AllocError, Global};

/// How many names are tried for an OUT that isn't whole: more than one only if a run that was killed had the same process number, or one on
/// another machine has it.
const MOST_PARTS: u32 = 1_000;

/// How the name of a part begins if OUT's is too long to be its beginning.
const SHORT_NAME: &str = "pbfcutz";

/// The place of OUT.
#[derive(Clone, Copy)]
pub(crate) struct Place<'a> {
    pub(crate) program: Program,
    pub(crate) path: &'a str,
    /// Whether a plain file there is replaced.
    pub(crate) overwrite: bool,
}

/// OUT as it is written, and the name that it has until it is whole; standard output has none.
#[derive(Drop)]
pub(crate) struct Output<D> {
    pub(crate) drain: D,
    pub(crate) name: Option<String>,
}

/// How a command ends that can't make OUT by its name.
fn unmade(fault: CreateFault) -> Ending
    ensures { result ≡ unmade fault }
{
    match fault {
        CreateFault::Failed | CreateFault::Long => Ending::CannotOpen,
        CreateFault::Exists => Ending::OutExists,
        CreateFault::Memory => Ending::Stopped(Stop::Memory),
    }
}

/// The same by another name: that there is a file of this name says nothing of OUT.
fn unmade_part(fault: CreateFault) -> Ending
    ensures { result ≡ unmade_part fault }
{
    match fault {
        CreateFault::Failed | CreateFault::Long | CreateFault::Exists => Ending::CannotOpen,
        CreateFault::Memory => Ending::Stopped(Stop::Memory),
    }
}

/// Makes OUT by its own name.
fn make_there<H: Host>(alloc: Global, host: &mut H, path: &str) -> Result<Output<H::Out>, Ending>
    ensures ok { IfOk result (λ out. (option_map string_bytes out.name ≡ Some path.now)
        × (H.log host.new ≡ then_one (H.log host.old) (made path.now))
        × IsFreshOut H.Out.Drain out.drain) }
    ensures err { IfErr result (λ how. (events : List Event)
        × (H.log host.new ≡ then_all (H.log host.old) events) × FailsOpening how events) }
{
    let Ok(name) = String::from_str(alloc, path) else {
        return Err(Ending::Stopped(Stop::Memory));
    };
    match host.make(path, None) {
        Ok(drain) => Ok(Output {
            drain,
            name: Some(name),
        }),
        Err(fault) => Err(unmade(fault)),
    }
}

/// How the names of parts begin, and the file that they replace, if there is one.
#[derive(Clone, Copy)]
struct Naming<'a> {
    start: &'a str,
    replaced: Option<&'a str>,
}

/// The name of a part of OUT. Two runs have two names, even if one of them removes or renames a file late.
fn part_name(alloc: Global, start: &str, process: u32, number: u32) -> Result<String, AllocError> {
    format!(in alloc; "{start}.{process}.{number}.part")
}

/// Makes a part of OUT by this name, unless it is OUT's own: then nothing is done.
fn make_part<H: Host>(
    host: &mut H,
    path: &str,
    name: String,
    replaced: Option<&str>,
) -> Result<Option<Output<H::Out>>, CreateFault>
    ensures made { IfOk result (λ one. IfSome one (λ out. (name : List ℕ)
        × (option_map string_bytes out.name ≡ Some name) × (name ≡ path.now → ⊥)
        × (H.log host.new ≡ then_one (H.log host.old) (made name))
        × IsFreshOut H.Out.Drain out.drain)) }
    ensures own { IfOk result (λ one. one ≡ None → H.log host.new ≡ H.log host.old) }
    ensures failed { IfErr result (λ fault. (name : List ℕ)
        × (H.log host.new ≡ then_one (H.log host.old) (not_made name fault))) }
{
    let text = name.as_str();
    if text == path {
        return Ok(None);
    }
    match host.make(text, replaced) {
        Ok(drain) => Ok(Some(Output {
            drain,
            name: Some(name),
        })),
        Err(fault) => Err(fault),
    }
}

/// Makes a part of OUT by the first name that no file has, of those that begin so.
fn make_numbered<H: Host>(
    alloc: Global,
    host: &mut H,
    path: &str,
    naming: Naming<'_>,
) -> Result<Output<H::Out>, CreateFault>
    ensures ok { IfOk result (λ out. (tries : List Event) × (name : List ℕ)
        × (H.log host.new ≡ then_all (H.log host.old) (tries ++ made name ∷ []))
        × Each Misses tries × (option_map string_bytes out.name ≡ Some name) × (name ≡ path.now → ⊥)
        × IsFreshOut H.Out.Drain out.drain) }
    ensures err { IfErr result (λ fault. (tries : List Event)
        × (H.log host.new ≡ then_all (H.log host.old) tries) × Each Misses tries
        × ((fault ≡ creating.Memory) ⊎ Has FailsToOpen tries)) }
{
    let process = host.process();
    let mut tried = false;
    'numbers: for number in 0..MOST_PARTS {
        let Ok(name) = part_name(alloc, naming.start, process, number) else {
            return Err(CreateFault::Memory);
        };
        match make_part(host, path, name, naming.replaced) {
            Ok(Some(out)) => return Ok(out),
            Ok(None) => {}
            Err(CreateFault::Exists) => tried = true,
            Err(fault) => return Err(fault),
        }
    }
    if tried {
        Err(CreateFault::Exists)
    } else {
        // No two of the names are OUT's.
        Err(CreateFault::Memory)
    }
}

/// The folder of a file.
fn folder_of(path: &str) -> &str {
    match path.rsplit_once('/') {
        Some(("", _)) => "/",
        Some((folder, _)) => folder,
        None => ".",
    }
}

/// The same by a short name in OUT's folder, where the system takes no name that is longer than OUT's.
fn make_short<H: Host>(
    alloc: Global,
    host: &mut H,
    path: &str,
    replaced: Option<&str>,
) -> Result<Output<H::Out>, CreateFault>
    ensures ok { IfOk result (λ out. (tries : List Event) × (name : List ℕ)
        × (H.log host.new ≡ then_all (H.log host.old) (tries ++ made name ∷ []))
        × Each Misses tries × (option_map string_bytes out.name ≡ Some name) × (name ≡ path.now → ⊥)
        × IsFreshOut H.Out.Drain out.drain) }
    ensures err { IfErr result (λ fault. (tries : List Event)
        × (H.log host.new ≡ then_all (H.log host.old) tries) × Each Misses tries
        × ((fault ≡ creating.Memory) ⊎ Has FailsToOpen tries)) }
{
    let folder = folder_of(path);
    let Ok(start) = format!(in alloc; "{folder}/{SHORT_NAME}") else {
        return Err(CreateFault::Memory);
    };
    let naming = Naming {
        start: start.as_str(),
        replaced,
    };
    make_numbered(alloc, host, path, naming)
}

/// The same by a name that begins as OUT's does, if the system takes one so long.
fn make_near<H: Host>(
    alloc: Global,
    host: &mut H,
    path: &str,
    replaced: Option<&str>,
) -> Result<Output<H::Out>, CreateFault>
    ensures ok { IfOk result (λ out. (tries : List Event) × (name : List ℕ)
        × (H.log host.new ≡ then_all (H.log host.old) (tries ++ made name ∷ []))
        × Each Misses tries × (option_map string_bytes out.name ≡ Some name) × (name ≡ path.now → ⊥)
        × IsFreshOut H.Out.Drain out.drain) }
    ensures err { IfErr result (λ fault. (tries : List Event)
        × (H.log host.new ≡ then_all (H.log host.old) tries) × Each Misses tries
        × ((fault ≡ creating.Memory) ⊎ Has FailsToOpen tries)) }
{
    let naming = Naming {
        start: path,
        replaced,
    };
    match make_numbered(alloc, host, path, naming) {
        Err(CreateFault::Long) => make_short(alloc, host, path, replaced),
        made => made,
    }
}

/// The file that OUT replaces, if there is one.
fn replaced_at<'a, H: Host>(host: &mut H, place: Place<'a>) -> Result<Option<&'a str>, Ending>
    ensures ok { OnOk result (H.log host.new ≡ H.log host.old) }
    ensures err { IfErr result (λ how. (events : List Event)
        × (H.log host.new ≡ then_all (H.log host.old) events) × FailsOpening how events) }
{
    match host.replaces(place.path, place.overwrite) {
        Ok(true) => Ok(Some(place.path)),
        Ok(false) => Ok(None),
        Err(fault) => Err(unmade(fault)),
    }
}

/// Makes OUT by another name, in the same folder.
fn make_beside<H: Host>(
    alloc: Global,
    host: &mut H,
    place: Place<'_>,
) -> Result<Output<H::Out>, Ending>
    ensures ok { IfOk result (λ out. (events : List Event)
        × (H.log host.new ≡ then_all (H.log host.old) events)
        × IsMade Pbfcutz false place.entry.path.now (option_map string_bytes out.name) events
        × IsFreshOut H.Out.Drain out.drain) }
    ensures err { IfErr result (λ how. (events : List Event)
        × (H.log host.new ≡ then_all (H.log host.old) events) × FailsOpening how events) }
{
    let replaced = replaced_at(host, place)?;
    match make_near(alloc, host, place.path, replaced) {
        Ok(out) => Ok(out),
        Err(fault) => Err(unmade_part(fault)),
    }
}

/// Makes OUT.
pub(crate) fn make_out<H: Host>(
    alloc: Global,
    host: &mut H,
    is_screen: bool,
    place: Place<'_>,
) -> Result<Output<H::Out>, Ending>
    ensures ok { IfOk result (λ out. (events : List Event)
        × (H.log host.new ≡ then_all (H.log host.old) events)
        × IsMade place.entry.program is_screen place.entry.path.now (option_map string_bytes out.name) events
        × IsFreshOut H.Out.Drain out.drain) }
    ensures err { IfErr result (λ how. (events : List Event)
        × (H.log host.new ≡ then_all (H.log host.old) events) × FailsOpening how events) }
{
    if is_screen {
        let drain = open_screen(host)?;
        return Ok(Output { drain, name: None });
    }
    match place.program {
        Program::Pbfcut => make_there(alloc, host, place.path),
        Program::Pbfcutz => make_beside(alloc, host, place),
    }
}

// ---- OUT is whole, or not

/// A file that isn't whole, and won't be: pbfcut leaves it to its user, pbfcutz removes it.
pub(crate) fn forget<H: Host>(host: &mut H, program: Program, name: &str)
    ensures { (events : List Event) × (H.log host.new ≡ then_all (H.log host.old) events)
        × Drops program name.now events }
{
    match program {
        Program::Pbfcut => {}
        Program::Pbfcutz => host.remove(name),
    }
}

/// OUT isn't whole.
pub(crate) fn drop_out<H: Host>(host: &mut H, program: Program, out: Output<H::Out>)
    ensures { (fault : Option FinishFault) × (closed : Option (List Event))
        × Finishes H.Out.Drain out.drain (option_map string_bytes out.name) false fault (H.log host.old) closed
        × (events : List Event) × (H.log host.new ≡ then_all closed events)
        × IsDropped program (option_map string_bytes out.name) events }
{
    let Output { drain, name } = out;
    match name {
        None => {
            // What comes of it says nothing of OUT, which isn't whole.
            let _ = host.finish_screen(drain, false);
        }
        Some(name) => {
            let name = name.as_str();
            host.close_out(name, drain);
            forget(host, program, name);
        }
    }
}

/// Gives a whole file OUT's name, which none has; and takes the other name from it.
fn name_new<H: Host>(host: &mut H, name: &str, path: &str) -> Result<(), NameFault>
    ensures ok { OnOk result ((tries : List Event) × (names : List Event)
        × (H.log host.new ≡ then_all (H.log host.old) (tries ++ names))
        × Each Misnames tries × Names false path.now name.now names) }
    ensures err { IfErr result (λ fault. (tries : List Event)
        × (H.log host.new ≡ then_all (H.log host.old) tries) × Each Misnames tries
        × Has (FailsToFinish (finish_fault_of fault)) tries) }
{
    match host.link(name, path) {
        Ok(()) => {
            host.remove(name);
            Ok(())
        }
        Err(NameFault::Exists) => Err(NameFault::Exists),
        // There may be no links.
        Err(NameFault::Failed) => host.move_new(name, path),
    }
}

/// Whether a plain file has OUT's name that is to be replaced.
fn may_replace<H: Host>(host: &H, place: Place<'_>) -> bool
    ensures { result ≡ true → place.entry.overwrite ≡ true }
{
    place.overwrite && host.is_plain(place.path)
}

/// Gives a whole file OUT's name in place of a plain file that has it.
fn replace<H: Host>(host: &mut H, name: &str, path: &str) -> Result<(), NameFault>
    ensures ok { OnOk result (H.log host.new ≡ then_one (H.log host.old) (renamed name.now path.now)) }
    ensures err { IfErr result (λ fault. H.log host.new
        ≡ then_one (H.log host.old) (not_named name.now path.now fault)) }
{
    match host.rename(name, path) {
        Ok(()) => Ok(()),
        Err(_) => Err(NameFault::Failed),
    }
}

/// Gives a whole file OUT's name, if the one that has it is a plain file that is to be replaced.
fn replace_late<H: Host>(host: &mut H, name: &str, place: Place<'_>) -> Result<(), NameFault>
    ensures ok { OnOk result ((place.entry.overwrite ≡ true) × (H.log host.new
        ≡ then_one (H.log host.old) (renamed name.now place.entry.path.now))) }
    ensures err { IfErr result (λ fault. (tries : List Event)
        × (H.log host.new ≡ then_all (H.log host.old) tries) × Each Misnames tries
        × ((fault ≡ naming.Exists) ⊎ Has (FailsToFinish (finish_fault_of fault)) tries)) }
{
    if may_replace(&*host, place) {
        return replace(host, name, place.path);
    }
    Err(NameFault::Exists)
}

/// Gives a whole file OUT's name: in place of a plain file only if that is to be replaced.
fn give_name<H: Host>(host: &mut H, name: &str, place: Place<'_>) -> Result<(), NameFault>
    ensures ok { OnOk result ((tries : List Event) × (names : List Event)
        × (H.log host.new ≡ then_all (H.log host.old) (tries ++ names))
        × Each Misnames tries × Names place.entry.overwrite place.entry.path.now name.now names) }
    ensures err { IfErr result (λ fault. (tries : List Event)
        × (H.log host.new ≡ then_all (H.log host.old) tries) × Each Misnames tries
        × Has (FailsToFinish (finish_fault_of fault)) tries) }
{
    if may_replace(&*host, place) {
        return replace(host, name, place.path);
    }
    match name_new(host, name, place.path) {
        // Another run has made it meanwhile.
        Err(NameFault::Exists) => replace_late(host, name, place),
        named => named,
    }
}

/// Why OUT isn't there if a file doesn't get its name.
fn finish_fault_of(fault: NameFault) -> FinishFault
    ensures { result ≡ finish_fault_of fault }
{
    match fault {
        NameFault::Failed => FinishFault::Failed,
        NameFault::Exists => FinishFault::Exists,
    }
}

/// Gives a whole file of pbfcutz OUT's name, and has that written to the disk. If it doesn't get the name, it is dropped.
fn name_part<H: Host>(host: &mut H, name: &str, place: Place<'_>) -> Result<(), FinishFault>
    ensures { (events : List Event) × (H.log host.new ≡ then_all (H.log host.old) events)
        × EndsOut Pbfcutz place.entry.overwrite place.entry.path.now (Some name.now) None result events }
{
    match give_name(host, name, place) {
        Ok(()) => match host.sync_name(place.path) {
            Ok(()) => Ok(()),
            Err(_) => Err(FinishFault::Failed),
        },
        Err(fault) => {
            forget(host, Program::Pbfcutz, name);
            Err(finish_fault_of(fault))
        }
    }
}

/// A whole file, which is on the disk, has OUT's name or gets it.
pub(crate) fn name_whole<H: Host>(
    host: &mut H,
    name: &str,
    place: Place<'_>,
) -> Result<(), FinishFault>
    ensures { (events : List Event) × (H.log host.new ≡ then_all (H.log host.old) events)
        × EndsOut place.entry.program place.entry.overwrite place.entry.path.now (Some name.now) None result events }
{
    match place.program {
        Program::Pbfcut => Ok(()),
        Program::Pbfcutz => name_part(host, name, place),
    }
}

/// A file that is whole: it is on the disk, by OUT's name. If that fails, pbfcutz has none, unless only its name can't be written to the disk.
fn keep_file<H: Host>(
    host: &mut H,
    place: Place<'_>,
    name: &str,
    drain: H::Out,
) -> Result<(), FinishFault>
    ensures { (fault : Option FinishFault) × (closed : Option (List Event))
        × Finishes H.Out.Drain drain (Some name.now) true fault (H.log host.old) closed
        × (events : List Event) × (H.log host.new ≡ then_all closed events)
        × EndsOut place.entry.program place.entry.overwrite place.entry.path.now (Some name.now) fault result events }
{
    match host.sync(name, drain) {
        Ok(()) => name_whole(host, name, place),
        Err(fault) => {
            forget(host, place.program, name);
            Err(fault)
        }
    }
}

/// OUT is whole: it is kept.
pub(crate) fn keep_out<H: Host>(
    host: &mut H,
    place: Place<'_>,
    out: Output<H::Out>,
) -> Result<(), FinishFault>
    ensures { (fault : Option FinishFault) × (closed : Option (List Event))
        × Finishes H.Out.Drain out.drain (option_map string_bytes out.name) true fault (H.log host.old) closed
        × (events : List Event) × (H.log host.new ≡ then_all closed events)
        × EndsOut place.entry.program place.entry.overwrite place.entry.path.now
        (option_map string_bytes out.name) fault result events }
{
    let Output { drain, name } = out;
    match name {
        None => host.finish_screen(drain, true),
        Some(name) => keep_file(host, place, name.as_str(), drain),
    }
}
