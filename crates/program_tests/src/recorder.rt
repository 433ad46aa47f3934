//! A host over a disk in memory that keeps its log: so the clauses of a host can be met. A test ends if memory for the log is refused.

ghost use Rattle.std.specs.Prelude.{◌≡◌, [], map, string_bytes, Some, IfOk, IfSome};
ghost use Rattle.program_tests.specs.Log.{event_of};
ghost use Rattle.pbf_frame.specs.Memory.{sink_bytes};
ghost use Rattle.pbfcut_program.specs.Events.{then_one};

use crate::disk::{Disk, File, Mishaps, copy};
use crate::happened::Happened;
use crate::tape::{Reel, Tape};
use pbfcut_cli::{Command, Ending, Region};
use pbfcut_program::{
    CreateFault, FinishFault, Host, NameFault, NotDone, OpenFault, PrintFault, Screen, Seed,
    TextFault, Turn,
};
use std::hash::{BuildHasherDefault, FoldHasher};
use std::process::Abort;

/// The key of each run.
pub(crate) const KEY: u128 = 7;

/// The number of the process of each run.
pub(crate) const PROCESS: u32 = 42;

/// A disk, room for so many bytes of OUT, and what happened so far.
#[derive(Drop)]
pub(crate) struct Recorder<'a, R> {
    rt: &'a R,
    pub(crate) disk: Disk<'a, R>,
    room: usize,
    pub(crate) events: Vec<Happened>,
}

/// Makes a file, and takes room for what it is to take.
fn make_reel<R: Abort + AllocGlobal>(
    rt: &R,
    disk: &mut Disk<'_, R>,
    name: &str,
    room: usize,
) -> Result<Reel, CreateFault>
    ensures { IfOk result (λ reel. (sink_bytes reel.sink ≡ []) × (reel.failures ≡ 0)) }
{
    let Ok(reel) = Reel::new(rt.alloc(), room) else {
        return Err(CreateFault::Memory);
    };
    match disk.make(name) {
        Ok(()) => Ok(reel),
        Err(fault) => Err(fault),
    }
}

impl<'a, R: Abort + AllocGlobal> Recorder<'a, R> {
    /// A host over these files, with which nothing goes wrong.
    pub(crate) fn new(rt: &'a R, files: &[File<'_>], room: usize) -> Recorder<'a, R> {
        Recorder::beset(rt, files, room, Mishaps::none())
    }

    /// The same, with which this goes wrong.
    pub(crate) fn beset(
        rt: &'a R,
        files: &[File<'_>],
        room: usize,
        mishaps: Mishaps,
    ) -> Recorder<'a, R> {
        Recorder {
            rt,
            disk: Disk::new(rt, files, mishaps),
            room,
            events: Vec::new(rt.alloc()),
        }
    }

    /// The text at a path.
    fn text(&mut self, path: &str) -> Option<String>
        ensures { self.new.events ≡ self.old.events }
    {
        let refusal = self.disk.mishaps.text;
        if self.disk.is_refused(refusal) {
            return None;
        }
        let text = str::from_utf8(self.disk.find(path)?).ok()?;
        String::from_str(self.rt.alloc(), text).ok()
    }

    /// Adds to the log.
    fn record(&mut self, happened: Happened)
        ensures { Some (map event_of self.new.events.items)
            ≡ then_one (Some (map event_of self.old.events.items)) (event_of happened) }
    {
        self.events.push(happened).expect(self.rt, "memory");
    }
}

impl<'a, R: Abort + AllocGlobal> Host for Recorder<'a, R> {
    type In = Tape;

    type Out = Reel;

    type Hasher = BuildHasherDefault<FoldHasher>;

    ghost log = { λ h. Some (map event_of h.events.items) };

    fn shows_progress(&self, _path: &str) -> bool {
        false
    }

    fn read_text(&mut self, path: &str) -> Result<String, TextFault> {
        let name = copy(self.rt, path.as_bytes());
        match self.text(path) {
            Some(text) => {
                let bytes = copy(self.rt, text.as_str().as_bytes());
                self.record(Happened::TextRead(name, bytes));
                Ok(text)
            }
            None => {
                self.record(Happened::TextNotRead(name));
                Err(TextFault::Failed)
            }
        }
    }

    fn exists(&mut self, path: &str, overwrite: bool) -> bool {
        let there = self.disk.find(path).is_some() && !overwrite;
        let name = copy(self.rt, path.as_bytes());
        self.record(Happened::Looked(name, overwrite, there));
        there
    }

    fn open(&mut self, path: &str, turn: Turn) -> Result<Tape, OpenFault> {
        let name = copy(self.rt, path.as_bytes());
        match self.disk.open(path) {
            Ok(bytes) => {
                let has = copy(self.rt, &bytes);
                self.record(Happened::Opened(name, turn.pass, has));
                Ok(Tape::new(bytes))
            }
            Err(fault) => {
                self.record(Happened::NotOpened(name, fault));
                Err(fault)
            }
        }
    }

    fn close(&mut self, feed: Tape) {
        let bytes = copy(self.rt, feed.passed());
        let left = copy(self.rt, feed.left());
        self.record(Happened::Read(bytes, left, 0));
    }

    fn seed(&mut self) -> Result<Seed<BuildHasherDefault<FoldHasher>>, NotDone> {
        let refusal = self.disk.mishaps.seed;
        if self.disk.is_refused(refusal) {
            self.record(Happened::Seeded(None));
            return Err(NotDone);
        }
        self.record(Happened::Seeded(Some(KEY)));
        Ok(Seed {
            hasher: BuildHasherDefault::new(),
            key: KEY,
        })
    }

    fn process(&self) -> u32 {
        PROCESS
    }

    fn replaces(&mut self, path: &str, overwrite: bool) -> Result<bool, CreateFault> {
        match self.disk.replaces(path, overwrite) {
            Ok(is_there) => Ok(is_there),
            Err(fault) => {
                let name = copy(self.rt, path.as_bytes());
                self.record(Happened::NotMade(name, fault));
                Err(fault)
            }
        }
    }

    fn make(&mut self, name: &str, _replaced: Option<&str>) -> Result<Reel, CreateFault> {
        let made = copy(self.rt, name.as_bytes());
        match make_reel(self.rt, &mut self.disk, name, self.room) {
            Ok(reel) => {
                self.record(Happened::Made(made));
                Ok(reel)
            }
            Err(fault) => {
                self.record(Happened::NotMade(made, fault));
                Err(fault)
            }
        }
    }

    fn screen(&mut self) -> Result<Reel, NotDone> {
        match Reel::new(self.rt.alloc(), self.room) {
            Ok(reel) => {
                self.record(Happened::Screened(true));
                Ok(reel)
            }
            Err(_) => {
                self.record(Happened::Screened(false));
                Err(NotDone)
            }
        }
    }

    fn sync(&mut self, name: &str, out: Reel) -> Result<(), FinishFault> {
        let to = copy(self.rt, name.as_bytes());
        let bytes = copy(self.rt, out.taken());
        self.disk.write(name, &bytes);
        let unsynced = self.disk.sync();
        self.record(Happened::Wrote(to, bytes, out.failures, true, unsynced));
        match unsynced {
            Some(fault) => Err(fault),
            None => Ok(()),
        }
    }

    fn close_out(&mut self, name: &str, out: Reel) {
        let to = copy(self.rt, name.as_bytes());
        let bytes = copy(self.rt, out.taken());
        self.disk.write(name, &bytes);
        self.record(Happened::Wrote(to, bytes, out.failures, false, None));
    }

    fn finish_screen(&mut self, out: Reel, whole: bool) -> Result<(), FinishFault> {
        let bytes = copy(self.rt, out.taken());
        let refusal = self.disk.mishaps.screen;
        let unfinished = self.disk.refusal(refusal, FinishFault::Failed);
        self.record(Happened::WroteScreen(bytes, out.failures, whole, unfinished));
        match unfinished {
            Some(fault) => Err(fault),
            None => Ok(()),
        }
    }

    fn is_plain(&self, path: &str) -> bool {
        self.disk.find(path).is_some()
    }

    fn link(&mut self, from: &str, to: &str) -> Result<(), NameFault> {
        let (old, new) = (copy(self.rt, from.as_bytes()), copy(self.rt, to.as_bytes()));
        match self.disk.link(from, to) {
            Ok(()) => {
                self.record(Happened::Linked(old, new));
                Ok(())
            }
            Err(fault) => {
                self.record(Happened::NotNamed(old, new, fault));
                Err(fault)
            }
        }
    }

    fn move_new(&mut self, from: &str, to: &str) -> Result<(), NameFault> {
        let (old, new) = (copy(self.rt, from.as_bytes()), copy(self.rt, to.as_bytes()));
        match self.disk.move_new(from, to) {
            Ok(()) => {
                self.record(Happened::Moved(old, new));
                Ok(())
            }
            Err(fault) => {
                self.record(Happened::NotNamed(old, new, fault));
                Err(fault)
            }
        }
    }

    fn rename(&mut self, from: &str, to: &str) -> Result<(), NotDone> {
        let (old, new) = (copy(self.rt, from.as_bytes()), copy(self.rt, to.as_bytes()));
        match self.disk.rename(from, to) {
            Ok(()) => {
                self.record(Happened::Renamed(old, new));
                Ok(())
            }
            Err(_) => {
                self.record(Happened::NotNamed(old, new, NameFault::Failed));
                Err(NotDone)
            }
        }
    }

    fn remove(&mut self, name: &str) {
        let of = copy(self.rt, name.as_bytes());
        match self.disk.remove(name) {
            Ok(()) => self.record(Happened::Removed(of)),
            Err(_) => self.record(Happened::Stays(of)),
        }
    }

    fn sync_name(&mut self, name: &str) -> Result<(), NotDone> {
        match self.disk.sync_name() {
            Ok(()) => Ok(()),
            Err(_) => {
                let of = copy(self.rt, name.as_bytes());
                self.record(Happened::NotSynced(of));
                Err(NotDone)
            }
        }
    }

    fn print(&mut self, screen: Screen, text: &[u8]) -> Result<(), PrintFault> {
        let text = copy(self.rt, text);
        let refusal = self.disk.mishaps.print;
        let unprinted = self.disk.refusal(refusal, PrintFault::Failed);
        self.record(Happened::Printed(screen, text, unprinted));
        match unprinted {
            Some(fault) => Err(fault),
            None => Ok(()),
        }
    }

    fn tell(&mut self, text: &[u8]) {
        let text = copy(self.rt, text);
        self.record(Happened::Told(text));
    }

    fn advise_words(&mut self, _ending: &Ending) {
        self.record(Happened::Advised);
    }

    fn advise(&mut self, _command: &Command<'_>, _ending: &Ending) {
        self.record(Happened::Advised);
    }

    fn advise_empty(&mut self, _region: &Region<'_>) {
        self.record(Happened::Advised);
    }
}
