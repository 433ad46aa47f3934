//! The operating system as a host: it is trusted to be one, and tested. It reports nothing to a proof of what happens.

ghost use Rattle.std.specs.Prelude.{None};

use crate::out_file::OutFile;
use pbf_frame::FromRead;
use pbfcut_cli::{Command, Ending, Program, Region};
use pbfcut_files::{
    Asked, BROKEN_PIPE, Entry, FailedWrite, Identity, OutStream, Spoiled, Target, Watched,
    fault_of_any_file, is_long, is_plain, is_taken, make_file, move_new, open_input,
    open_standard_output, plain_file_at, plain_screen, read_polygon_text, replaces, sync_name,
    tell_box, tell_empty, tell_form, tell_hint, tell_left, tell_spoiled,
};
use pbfcut_program::{
    CreateFault, FinishFault, Host, NameFault, NotDone, OpenFault, PrintFault, Screen, Seed,
    TextFault, Turn,
};
use std::collections::BTreeSet;
use std::fs::{self, File};
use std::hash::{BuildHasher, RandomState};
use std::io::{self, ErrorKind, IsTerminal, Write};
use std::process;

/// Files by their paths, and the standard streams.
#[derive(Drop)]
pub(crate) struct Os<'a> {
    rt: &'a HostRuntime,
    program: Program,
    /// The texts that the run has read, and IN, as far as they are plain files.
    texts: Vec<Identity>,
    input: Option<Identity>,
    /// The path of the text that was read last, for a hint.
    text: Option<String>,
    /// The path of the OUT that the run came to last, for a hint.
    output: Option<String>,
    /// The OUTs that the run may make, as far as they could be noted.
    outputs: BTreeSet<Entry>,
    /// What the run would have spoiled, for a hint.
    spoiled: Option<Spoiled>,
    /// The last write that failed, for a hint.
    failed: Option<FailedWrite>,
}

impl<'a> Os<'a> {
    pub(crate) fn new(rt: &'a HostRuntime, program: Program) -> Os<'a> {
        Os {
            rt,
            program,
            texts: Vec::new(rt.alloc()),
            input: None,
            text: None,
            output: None,
            outputs: BTreeSet::new(rt.alloc()),
            spoiled: None,
            failed: None,
        }
    }

    /// Whether the plain file at this path is one that the run reads.
    fn is_read(&self, path: &str) -> bool {
        match plain_file_at(self.rt, path) {
            Some(file) => self.input == Some(file) || self.texts.contains(&file),
            None => false,
        }
    }

    /// Whether this OUT has another one's folder and name. If it hasn't, it is noted, and so is its path.
    fn is_repeated(&mut self, path: &str) -> bool {
        self.note_output(path);
        let Some(entry) = Entry::at(self.rt, path) else {
            return false;
        };
        // If there is no memory for it, it isn't compared.
        let is_new = self.outputs.insert(entry).unwrap_or(true);
        !is_new
    }

    /// Notes the OUT that the run is at.
    fn note_output(&mut self, path: &str) {
        self.output = String::from_str(self.rt.alloc(), path).ok();
    }

    /// Notes the system's number of the reason why a write failed, if there is one.
    fn note(&mut self, target: Target, code: Option<i32>) {
        self.failed = code.map(|code| FailedWrite { target, code });
    }

    /// Notes what the system says of OUT.
    fn note_error(&mut self, error: &io::Error) {
        self.note(Target::Out, error.raw_os_error());
    }

    /// Writes what is left in the buffer. If nobody reads a pipe any more, bytes are lost even if none are left.
    fn flush(&mut self, output: &mut OutStream) -> Result<(), FinishFault> {
        let flushed = output.flush();
        self.note(output.target(), output.code());
        if output.is_closed() {
            return Err(FinishFault::Closed);
        }
        match flushed {
            Ok(()) => Ok(()),
            Err(_) => Err(FinishFault::Failed),
        }
    }

    /// Notes the system's number of the reason, if no file can be opened any more.
    fn note_any_file(&mut self) {
        let code = fault_of_any_file(self.rt);
        self.note(Target::Out, code);
    }

    /// Why OUT can't be made: there may be a file that was made since OUT was looked for.
    fn unmade(&self, path: &str, overwrite: bool) -> CreateFault {
        if is_taken(self.rt, path, overwrite) {
            CreateFault::Exists
        } else {
            CreateFault::Failed
        }
    }

    /// Why a file can't be made by this name. Only of a part does it matter that the name has a file, whatever that is.
    fn create_fault(&self, name: &str, error: &io::Error) -> CreateFault {
        match (error.kind(), self.program) {
            (ErrorKind::OutOfMemory, _) => CreateFault::Memory,
            (_, Program::Pbfcut) => self.unmade(name, false),
            (ErrorKind::AlreadyExists, Program::Pbfcutz) => CreateFault::Exists,
            (ErrorKind::InvalidFilename, Program::Pbfcutz) => CreateFault::Long,
            (_, Program::Pbfcutz) => CreateFault::Failed,
        }
    }
}

/// Why a file isn't given a name that none has.
fn name_fault(error: &io::Error) -> NameFault {
    match error.kind() {
        ErrorKind::AlreadyExists => NameFault::Exists,
        _ => NameFault::Failed,
    }
}

impl Host for Os<'_> {
    type In = Watched<FromRead<File>>;

    type Out = OutFile;

    type Hasher = RandomState;

    ghost log = { λ _. None };

    fn shows_progress(&self, path: &str) -> bool {
        self.rt.stderr().is_terminal() && is_long(self.rt, path)
    }

    fn read_text(&mut self, path: &str) -> Result<String, TextFault> {
        self.text = String::from_str(self.rt.alloc(), path).ok();
        if let Some(file) = plain_file_at(self.rt, path) {
            if self.texts.push(file).is_err() {
                return Err(TextFault::Memory);
            }
        }
        match read_polygon_text(self.rt, path) {
            Ok(text) => Ok(text),
            Err(error) if error.kind() == io::ErrorKind::OutOfMemory => Err(TextFault::Memory),
            Err(_) => Err(TextFault::Failed),
        }
    }

    fn exists(&mut self, path: &str, overwrite: bool) -> bool {
        let is_taken = is_taken(self.rt, path, overwrite);
        if is_taken {
            self.note_output(path);
        }
        is_taken
    }

    fn open(&mut self, path: &str, turn: Turn) -> Result<Watched<FromRead<File>>, OpenFault> {
        let Turn {
            pass,
            passes,
            progress,
        } = turn;
        let input = plain_file_at(self.rt, path);
        // What is printed would go into IN, and come in again.
        if input.is_some() && input == plain_screen(self.rt) {
            self.spoiled = Some(Spoiled::Input);
            return Err(OpenFault::Failed);
        }
        self.input = input;
        match open_input(self.rt, path, pass, passes, progress) {
            Ok(feed) => Ok(feed),
            Err(Ending::IsPipe) => Err(OpenFault::Pipe),
            Err(_) => Err(OpenFault::Failed),
        }
    }

    fn close(&mut self, feed: Watched<FromRead<File>>) {
        feed.end(self.rt);
    }

    fn seed(&mut self) -> Result<Seed<RandomState>, NotDone> {
        let Ok(hasher) = RandomState::new(self.rt) else {
            return Err(NotDone);
        };
        // Two words that nobody knows who doesn't know the seed.
        let high = u128::from(hasher.hash_one(0_u64));
        let low = u128::from(hasher.hash_one(1_u64));
        Ok(Seed {
            hasher,
            key: high << 64 | low,
        })
    }

    fn process(&self) -> u32 {
        process::id(self.rt.process())
    }

    fn replaces(&mut self, path: &str, overwrite: bool) -> Result<bool, CreateFault> {
        if self.is_repeated(path) {
            self.spoiled = Some(Spoiled::Repeated);
            return Err(CreateFault::Exists);
        }
        if overwrite && self.is_read(path) {
            self.spoiled = Some(Spoiled::Source);
            return Err(CreateFault::Failed);
        }
        tell_form(self.rt, self.program, path);
        match replaces(self.rt, path, overwrite) {
            Some(is_there) => Ok(is_there),
            None => {
                self.note_any_file();
                Err(self.unmade(path, overwrite))
            }
        }
    }

    fn make(&mut self, name: &str, replaced: Option<&str>) -> Result<OutFile, CreateFault> {
        if self.program == Program::Pbfcut {
            tell_form(self.rt, self.program, name);
        }
        match make_file(self.rt, name, replaced) {
            Ok(output) => {
                let path = match &self.output {
                    Some(path) => {
                        tell_left(self.rt, path.as_str());
                        String::from_str(self.rt.alloc(), path.as_str()).ok()
                    }
                    None => None,
                };
                Ok(OutFile::new(output, path))
            }
            Err(error) => {
                self.note_any_file();
                Err(self.create_fault(name, &error))
            }
        }
    }

    fn screen(&mut self) -> Result<OutFile, NotDone> {
        match open_standard_output(self.rt) {
            Ok(output) => Ok(OutFile::new(output, None)),
            Err(_) => Err(NotDone),
        }
    }

    fn sync(&mut self, name: &str, out: OutFile) -> Result<(), FinishFault> {
        let (mut output, path) = out.into_parts();
        self.output = path;
        self.flush(&mut output)?;
        match output.sync(self.rt, name) {
            Ok(()) => Ok(()),
            Err(error) => {
                self.note_error(&error);
                Err(FinishFault::Failed)
            }
        }
    }

    fn close_out(&mut self, _name: &str, out: OutFile) {
        let (mut output, path) = out.into_parts();
        // Of several OUTs it is the first to which a write failed that the run failed for.
        if self.failed.is_none() && output.code().is_some() {
            self.note(output.target(), output.code());
            self.output = path;
        }
        // What comes of it says nothing of OUT, which isn't whole.
        let _ = output.flush();
    }

    fn finish_screen(&mut self, out: OutFile, _whole: bool) -> Result<(), FinishFault> {
        let (mut output, _) = out.into_parts();
        self.flush(&mut output)
    }

    fn is_plain(&self, path: &str) -> bool {
        is_plain(self.rt, path)
    }

    fn link(&mut self, from: &str, to: &str) -> Result<(), NameFault> {
        match fs::hard_link(self.rt, from, to) {
            Ok(()) => Ok(()),
            Err(error) => {
                self.note_output(to);
                Err(name_fault(&error))
            }
        }
    }

    fn move_new(&mut self, from: &str, to: &str) -> Result<(), NameFault> {
        match move_new(self.rt, from, to) {
            Ok(()) => Ok(()),
            Err(error) => {
                self.note_error(&error);
                Err(name_fault(&error))
            }
        }
    }

    fn rename(&mut self, from: &str, to: &str) -> Result<(), NotDone> {
        match fs::rename(self.rt, from, to) {
            Ok(()) => Ok(()),
            Err(error) => {
                self.note_output(to);
                self.note_error(&error);
                Err(NotDone)
            }
        }
    }

    fn remove(&mut self, name: &str) {
        // If it can't be removed, it is a file by a name of its own, and no OUT.
        let _ = fs::remove_file(self.rt, name);
    }

    fn sync_name(&mut self, name: &str) -> Result<(), NotDone> {
        match sync_name(self.rt, name) {
            Ok(()) => Ok(()),
            Err(_) => {
                // OUT is there, so there is nothing to do about the reason.
                self.failed = None;
                Err(NotDone)
            }
        }
    }

    fn print(&mut self, screen: Screen, text: &[u8]) -> Result<(), PrintFault> {
        if screen == Screen::Error {
            // If it can't be written, OUT is there all the same.
            let _ = self.rt.stderr().write_all(text);
            return Ok(());
        }
        let mut output = self.rt.stdout();
        let printed = match output.write_all(text) {
            Ok(()) => output.flush(),
            Err(error) => Err(error),
        };
        if let Err(error) = printed {
            let code = error.raw_os_error();
            self.note(Target::StandardOutput, code);
            return Err(match code {
                Some(BROKEN_PIPE) => PrintFault::Closed,
                _ => PrintFault::Failed,
            });
        }
        Ok(())
    }

    fn tell(&mut self, text: &[u8]) {
        // If it can't be written, nothing more can be reported.
        let _ = self.rt.stderr().write_all(text);
    }

    fn advise_words(&mut self, ending: &Ending) {
        if let Ending::Box(fault) = ending {
            tell_box(self.rt, *fault);
        }
    }

    fn advise(&mut self, command: &Command<'_>, ending: &Ending) {
        let text = match &self.text {
            Some(path) => Some(path.as_str()),
            None => None,
        };
        let output = match &self.output {
            Some(path) => Some(path.as_str()),
            None => None,
        };
        let Some(asked) = Asked::of(self.program, command, text, output) else {
            return;
        };
        match self.spoiled {
            Some(spoiled) => tell_spoiled(self.rt, asked, spoiled),
            None => tell_hint(self.rt, asked, ending, self.failed),
        }
    }

    fn advise_empty(&mut self, region: &Region<'_>) {
        tell_empty(self.rt, *region);
    }
}
