//! A disk in memory: the names of its files, and what each has. Each call can be refused, and another run can make a file meanwhile. A test ends
//! if there is no memory for it.

ghost use Rattle.std.specs.Prelude.{◌≡◌, ◌<◌, IfSome, vec_len};

use pbfcut_program::{CreateFault, FinishFault, NameFault, NotDone, OpenFault, PrintFault};
use std::process::Abort;

/// The longest name of a file, without that of its folder.
const LONGEST: usize = 255;

/// The file that another run makes.
const OTHER_NAME: &str = "b";

pub(crate) const OTHER: &[u8] = b"another run's";

/// Owned bytes; the test ends if there is no memory for them.
pub(crate) fn copy<R: Abort + AllocGlobal>(rt: &R, bytes: &[u8]) -> Vec<u8>
    ensures { result.items ≡ bytes.now }
{
    Vec::from_slice(rt.alloc(), bytes).expect(rt, "memory")
}

/// A file by its name.
#[derive(Clone, Copy)]
pub(crate) struct File<'a> {
    pub(crate) path: &'a str,
    pub(crate) bytes: &'a [u8],
}

/// The same on a disk.
#[derive(Drop)]
struct Stored {
    name: Vec<u8>,
    bytes: Vec<u8>,
}

/// A call before which another run makes a file.
#[derive(Clone, Copy, PartialEq, Eq)]
pub(crate) enum Moment {
    Make,
    Link,
    MoveNew,
}

/// What goes wrong: why the calls of a kind are refused, if they are, those of the disk and those of a host over it; and more.
#[derive(Clone, Copy)]
pub(crate) struct Mishaps {
    pub(crate) text: bool,
    pub(crate) open: Option<OpenFault>,
    pub(crate) seed: bool,
    pub(crate) replaces: Option<CreateFault>,
    pub(crate) make: Option<CreateFault>,
    pub(crate) sync: Option<FinishFault>,
    pub(crate) link: Option<NameFault>,
    pub(crate) move_new: Option<NameFault>,
    pub(crate) rename: bool,
    pub(crate) remove: bool,
    pub(crate) sync_name: bool,
    /// Of what is written to standard output as OUT is, and of what is printed at once.
    pub(crate) screen: Option<FinishFault>,
    pub(crate) print: Option<PrintFault>,
    /// The number of the one call that is refused too, from 0 on.
    pub(crate) failing: Option<u64>,
    /// Before which call another run makes its file.
    pub(crate) another: Option<Moment>,
}

/// Some files, what goes wrong with them, and how many calls there were that can be refused.
#[derive(Drop)]
pub(crate) struct Disk<'a, R> {
    rt: &'a R,
    files: Vec<Stored>,
    pub(crate) mishaps: Mishaps,
    pub(crate) calls: u64,
}

/// Whether no file can have such a name.
fn is_too_long(name: &str) -> bool {
    match name.rsplit_once('/') {
        Some((_folder, name)) => name.len() > LONGEST,
        None => name.len() > LONGEST,
    }
}

impl Mishaps {
    pub(crate) fn none() -> Mishaps {
        Mishaps {
            text: false,
            open: None,
            seed: false,
            replaces: None,
            make: None,
            sync: None,
            link: None,
            move_new: None,
            rename: false,
            remove: false,
            sync_name: false,
            screen: None,
            print: None,
            failing: None,
            another: None,
        }
    }
}

impl<'a, R: Abort + AllocGlobal> Disk<'a, R> {
    pub(crate) fn new(rt: &'a R, files: &[File<'_>], mishaps: Mishaps) -> Disk<'a, R> {
        let mut disk = Disk {
            rt,
            files: Vec::new(rt.alloc()),
            mishaps,
            calls: 0,
        };
        for file in files {
            disk.put(file.path, copy(rt, file.bytes));
        }
        disk
    }

    fn position(&self, name: &str) -> Option<usize>
        ensures { IfSome result (λ place. place < vec_len self.now.files) }
    {
        self.files
            .iter()
            .position(|file| file.name.as_slice() == name.as_bytes())
    }

    /// What the file of this name has.
    pub(crate) fn find(&self, name: &str) -> Option<&[u8]> {
        let stored = self.files.get(self.position(name)?)?;
        Some(stored.bytes.as_slice())
    }

    /// How many files there are.
    pub(crate) fn count(&self) -> usize {
        self.files.len()
    }

    /// Puts a file there, by a name that none has.
    fn put(&mut self, name: &str, bytes: Vec<u8>) {
        let name = copy(self.rt, name.as_bytes());
        let stored = Stored { name, bytes };
        self.files.push(stored).expect(self.rt, "memory");
    }

    /// Takes a name from a file.
    fn take(&mut self, name: &str) -> Option<Vec<u8>> {
        let place = self.position(name)?;
        let stored = self.files.swap_remove(place);
        Some(stored.bytes)
    }

    /// Counts a call, and says why it is refused, if it is.
    pub(crate) fn refusal<T: Copy>(&mut self, given: Option<T>, usual: T) -> Option<T> {
        let number = self.calls;
        self.calls = number.saturating_add(1);
        if self.mishaps.failing == Some(number) {
            Some(usual)
        } else {
            given
        }
    }

    /// Whether a call is refused, which it counts.
    pub(crate) fn is_refused(&mut self, given: bool) -> bool {
        self.refusal(given.then_some(NotDone), NotDone).is_some()
    }

    /// Lets another run make its file, if it does so now.
    fn let_another(&mut self, now: Moment) {
        if self.mishaps.another == Some(now) && self.find(OTHER_NAME).is_none() {
            self.put(OTHER_NAME, copy(self.rt, OTHER));
        }
    }

    /// All that a file has.
    pub(crate) fn open(&mut self, name: &str) -> Result<Vec<u8>, OpenFault> {
        if let Some(fault) = self.refusal(self.mishaps.open, OpenFault::Failed) {
            return Err(fault);
        }
        match self.find(name) {
            Some(bytes) => Ok(copy(self.rt, bytes)),
            None => Err(OpenFault::Failed),
        }
    }

    /// Whether a file is there that OUT may replace.
    pub(crate) fn replaces(&mut self, name: &str, overwrite: bool) -> Result<bool, CreateFault> {
        if let Some(fault) = self.refusal(self.mishaps.replaces, CreateFault::Failed) {
            return Err(fault);
        }
        let is_there = self.find(name).is_some();
        if is_there && !overwrite {
            return Err(CreateFault::Exists);
        }
        Ok(is_there)
    }

    /// Makes an empty file.
    pub(crate) fn make(&mut self, name: &str) -> Result<(), CreateFault> {
        self.let_another(Moment::Make);
        if let Some(fault) = self.refusal(self.mishaps.make, CreateFault::Failed) {
            return Err(fault);
        }
        if is_too_long(name) {
            return Err(CreateFault::Long);
        }
        if self.find(name).is_some() {
            return Err(CreateFault::Exists);
        }
        self.put(name, Vec::new(self.rt.alloc()));
        Ok(())
    }

    /// Writes to a file, after what it has.
    pub(crate) fn write(&mut self, name: &str, bytes: &[u8]) {
        if let Some(mut all) = self.take(name) {
            all.extend_from_slice(bytes).expect(self.rt, "memory");
            self.put(name, all);
        }
    }

    /// Why what was written to a file isn't synced, if it isn't.
    pub(crate) fn sync(&mut self) -> Option<FinishFault> {
        self.refusal(self.mishaps.sync, FinishFault::Failed)
    }

    pub(crate) fn link(&mut self, from: &str, to: &str) -> Result<(), NameFault> {
        self.let_another(Moment::Link);
        if let Some(fault) = self.refusal(self.mishaps.link, NameFault::Failed) {
            return Err(fault);
        }
        if self.find(to).is_some() {
            return Err(NameFault::Exists);
        }
        match self.find(from) {
            Some(bytes) => {
                let bytes = copy(self.rt, bytes);
                self.put(to, bytes);
                Ok(())
            }
            None => Err(NameFault::Failed),
        }
    }

    pub(crate) fn move_new(&mut self, from: &str, to: &str) -> Result<(), NameFault> {
        self.let_another(Moment::MoveNew);
        if let Some(fault) = self.refusal(self.mishaps.move_new, NameFault::Failed) {
            return Err(fault);
        }
        if self.find(to).is_some() {
            return Err(NameFault::Exists);
        }
        match self.take(from) {
            Some(bytes) => {
                self.put(to, bytes);
                Ok(())
            }
            None => Err(NameFault::Failed),
        }
    }

    pub(crate) fn rename(&mut self, from: &str, to: &str) -> Result<(), NotDone> {
        if self.is_refused(self.mishaps.rename) {
            return Err(NotDone);
        }
        let Some(bytes) = self.take(from) else {
            return Err(NotDone);
        };
        let _old = self.take(to);
        self.put(to, bytes);
        Ok(())
    }

    pub(crate) fn remove(&mut self, name: &str) -> Result<(), NotDone> {
        if self.is_refused(self.mishaps.remove) {
            return Err(NotDone);
        }
        match self.take(name) {
            Some(_) => Ok(()),
            None => Err(NotDone),
        }
    }

    pub(crate) fn sync_name(&mut self) -> Result<(), NotDone> {
        if self.is_refused(self.mishaps.sync_name) {
            return Err(NotDone);
        }
        Ok(())
    }
}
