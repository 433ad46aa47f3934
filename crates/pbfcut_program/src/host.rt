//! The world of a command: files, the standard streams, and a terminal.

ghost use Rattle.std.specs.Prelude.{◌≡◌, ℕ, List, [], Option, Some, None, true, false, IfOk, IfErr, OnOk, OnErr, is_ok, string_bytes};
ghost use Rattle.std.specs.Result.{result_err};
ghost use Rattle.pbfcut_program.specs.Devices.{Finishes, IsFreshOut};
ghost use Rattle.pbfcut_program.specs.Files.{IsEnd};
ghost use Rattle.pbfcut_program.specs.declared.host.FinishFault.{FinishFault};
ghost use Rattle.pbfcut_program.specs.declared.host.NameFault.TheVariants as name;
ghost use Rattle.pbfcut_program.specs.Events.{Event, text_read, text_not_read, looked, opened, not_opened, seeded, screened, read, made, not_made, linked, moved, renamed, not_named, not_synced, printed, told, advised, then_one};

use pbf_frame::{Drain, Feed};
use pbfcut_cli::{Command, Ending, Region};
use std::hash::BuildHasher;

/// Why IN isn't opened.
#[derive(Clone, Copy, Debug, PartialEq, Eq)]
pub enum OpenFault {
    /// It can't be opened.
    Failed,
    /// It is a pipe, which gives its bytes once, and more passes than one are to be made.
    Pipe,
}

/// Why a text isn't read.
#[derive(Clone, Copy, Debug, PartialEq, Eq)]
pub enum TextFault {
    /// The file can't be read, or isn't a text.
    Failed,
    /// A request for memory was refused.
    Memory,
}

/// Why OUT isn't created.
#[derive(Clone, Copy, Debug, PartialEq, Eq)]
pub enum CreateFault {
    /// It can't be created.
    Failed,
    /// A file has the name.
    Exists,
    /// The system takes no name that is so long.
    Long,
    /// A request for memory was refused.
    Memory,
}

/// Why a file isn't given a name.
#[derive(Clone, Copy, Debug, PartialEq, Eq)]
pub enum NameFault {
    /// The system says so.
    Failed,
    /// Another file has it.
    Exists,
}

/// Why not all that OUT took went out.
#[derive(Clone, Copy, Debug, PartialEq, Eq)]
pub enum FinishFault {
    /// The rest can't be written, or OUT can't get its name.
    Failed,
    /// Another file has OUT's name meanwhile.
    Exists,
    /// OUT is a pipe that nobody reads any more.
    Closed,
}

/// Why a text isn't printed whole.
#[derive(Clone, Copy, Debug, PartialEq, Eq)]
pub enum PrintFault {
    /// It can't be written.
    Failed,
    /// The screen is a pipe that nobody reads any more.
    Closed,
}

/// It couldn't be done.
#[derive(Clone, Copy, Debug, PartialEq, Eq)]
pub struct NotDone;

/// Where counts and digests go.
#[derive(Clone, Copy, Debug, PartialEq, Eq)]
pub enum Screen {
    /// To standard output.
    Output,
    /// To standard error, since OUT is written to standard output.
    Error,
}

/// For which pass of so many IN is opened, and whether the run reports how far it has come.
#[derive(Clone, Copy, Debug)]
pub struct Turn {
    /// The number of the pass, from 1 on.
    pub pass: u8,
    pub passes: u8,
    pub progress: bool,
}

/// What is drawn for a run, so that nobody can know it before.
#[derive(Drop)]
pub struct Seed<S> {
    /// Strings of IN, which is untrusted, are hashed by this.
    pub hasher: S,
    /// The passes of pbfcutz are compared by a hash that has this key.
    pub key: u128,
}

/// Files and the standard streams, as a command sees them. What each call did is one event of the log.
pub trait Host {
    /// IN, opened for a pass.
    type In: Feed + Drop;

    /// OUT, or standard output, as it is written.
    type Out: Drain + Drop;

    /// What hashes by a seed.
    type Hasher: BuildHasher + Copy + Drop;

    /// What happened so far, if the host reports it.
    ghost log: { Self → Option (List Event) };

    /// Whether the progress of a run over this file is shown although nobody asked.
    fn shows_progress(&self, path: &str) -> bool;

    /// Reads a whole text.
    fn read_text(&mut self, path: &str) -> Result<String, TextFault>
        ensures read { IfOk result (λ text. log self.new
            ≡ then_one (log self.old) (text_read path.now (string_bytes text))) }
        ensures failed { OnErr result (log self.new
            ≡ then_one (log self.old) (text_not_read path.now)) };

    /// Whether there is a file that is not to be replaced: with `overwrite` a plain one is.
    fn exists(&mut self, path: &str, overwrite: bool) -> bool
        ensures { log self.new ≡ then_one (log self.old) (looked path.now overwrite result) };

    /// Opens IN for a pass. Nothing was read of it, and no read has failed.
    fn open(&mut self, path: &str, turn: Turn) -> Result<Self::In, OpenFault>
        ensures opened { IfOk result (λ feed. log self.new
            ≡ then_one (log self.old) (opened path.now turn.pass (Self.In.remaining feed))) }
        ensures fresh { IfOk result (λ feed. Self.In.has_passed feed 0 []
            × (Self.In.failures feed ≡ 0)) }
        ensures failed { IfErr result (λ fault. log self.new
            ≡ then_one (log self.old) (not_opened path.now fault)) };

    /// Takes IN back after a pass: these bytes were read of it.
    fn close(&mut self, feed: Self::In)
        ensures some { (bytes : List ℕ) × (log self.new ≡ then_one (log self.old) (read (record
            { bytes = bytes; left = Self.In.remaining feed; failures = Self.In.failures feed }))) }
        ensures logged { (bytes : List ℕ) → Self.In.has_passed feed 0 bytes
            → log self.new ≡ then_one (log self.old) (read (record
            { bytes = bytes; left = Self.In.remaining feed; failures = Self.In.failures feed })) };

    /// Draws a seed.
    fn seed(&mut self) -> Result<Seed<Self::Hasher>, NotDone>
        ensures drawn { IfOk result (λ seed. log self.new
            ≡ then_one (log self.old) (seeded (Some seed.key))) }
        ensures failed { OnErr result (log self.new ≡ then_one (log self.old) (seeded None)) };

    /// The number of this process.
    fn process(&self) -> u32;

    /// Settles that OUT can be made: whether it replaces a file. Only a plain one can be replaced, and only with `overwrite`.
    fn replaces(&mut self, path: &str, overwrite: bool) -> Result<bool, CreateFault>
        ensures settled { OnOk result (log self.new ≡ log self.old) }
        ensures failed { IfErr result (λ fault. log self.new
            ≡ then_one (log self.old) (not_made path.now fault)) };

    /// Makes a new file by a name that none had. It took nothing, and no write has failed. If it is to replace another one, it has that one's mode
    /// and owner, as far as that can be done.
    fn make(&mut self, name: &str, replaced: Option<&str>) -> Result<Self::Out, CreateFault>
        ensures made { IfOk result (λ _. log self.new ≡ then_one (log self.old) (made name.now)) }
        ensures fresh { IfOk result (λ out. IsFreshOut Self.Out.Drain out) }
        ensures failed { IfErr result (λ fault. log self.new
            ≡ then_one (log self.old) (not_made name.now fault)) };

    /// Standard output, to be written to as OUT is. `Err` says that memory was refused.
    fn screen(&mut self) -> Result<Self::Out, NotDone>
        ensures screened { log self.new ≡ then_one (log self.old) (screened (is_ok result)) }
        ensures fresh { IfOk result (λ out. IsFreshOut Self.Out.Drain out) };

    /// Takes a whole file back: it took these bytes, which it reports if it reports any. On `Ok` all of them are on the disk.
    fn sync(&mut self, name: &str, out: Self::Out) -> Result<(), FinishFault>
        ensures { Finishes Self.Out.Drain out (Some name.now) true (result_err result)
            (log self.old) (log self.new) };

    /// Takes a file back that isn't whole.
    fn close_out(&mut self, name: &str, out: Self::Out)
        ensures { (fault : Option FinishFault) × Finishes Self.Out.Drain out (Some name.now) false fault
            (log self.old) (log self.new) };

    /// Takes standard output back. On `Ok` all that it took went out.
    fn finish_screen(&mut self, out: Self::Out, whole: bool) -> Result<(), FinishFault>
        ensures { Finishes Self.Out.Drain out None whole (result_err result) (log self.old) (log self.new) };

    /// Whether a plain file has this name, and no link to one.
    fn is_plain(&self, path: &str) -> bool;

    /// Gives a file a second name, which none had.
    fn link(&mut self, from: &str, to: &str) -> Result<(), NameFault>
        ensures linked { OnOk result (log self.new ≡ then_one (log self.old) (linked from.now to.now)) }
        ensures failed { IfErr result (λ fault. log self.new
            ≡ then_one (log self.old) (not_named from.now to.now fault)) };

    /// Gives a file another name, which none had, if a file can have only one.
    fn move_new(&mut self, from: &str, to: &str) -> Result<(), NameFault>
        ensures moved { OnOk result (log self.new ≡ then_one (log self.old) (moved from.now to.now)) }
        ensures failed { IfErr result (λ fault. log self.new
            ≡ then_one (log self.old) (not_named from.now to.now fault)) };

    /// Gives a file another name, in place of a file that has it.
    fn rename(&mut self, from: &str, to: &str) -> Result<(), NotDone>
        ensures renamed { OnOk result (log self.new ≡ then_one (log self.old) (renamed from.now to.now)) }
        ensures failed { OnErr result (log self.new
            ≡ then_one (log self.old) (not_named from.now to.now name.Failed)) };

    /// Takes a name from a file, if that can be done.
    fn remove(&mut self, name: &str)
        ensures { (end : Event) × IsEnd name.now end × (log self.new ≡ then_one (log self.old) end) };

    /// Has the system write to the disk that a file has this name.
    fn sync_name(&mut self, name: &str) -> Result<(), NotDone>
        ensures synced { OnOk result (log self.new ≡ log self.old) }
        ensures failed { OnErr result (log self.new ≡ then_one (log self.old) (not_synced name.now)) };

    /// Writes a text at once.
    fn print(&mut self, screen: Screen, text: &[u8]) -> Result<(), PrintFault>
        ensures { log self.new ≡ then_one (log self.old) (printed screen text.now (result_err result)) };

    /// Writes to standard error, if that can be done.
    fn tell(&mut self, text: &[u8])
        ensures { log self.new ≡ then_one (log self.old) (told text.now) };

    /// Says on a terminal what to do next after words that are no command.
    fn advise_words(&mut self, ending: &Ending)
        ensures { log self.new ≡ then_one (log self.old) advised };

    /// Says on a terminal what to do next after a command that ended so.
    fn advise(&mut self, command: &Command<'_>, ending: &Ending)
        ensures { log self.new ≡ then_one (log self.old) advised };

    /// Says on a terminal that nothing lies in what was cut out.
    fn advise_empty(&mut self, region: &Region<'_>)
        ensures { log self.new ≡ then_one (log self.old) advised };
}
