//! Why a write failed, as the system says it.

use std::io::{self, Write};

/// The system's number for a pipe that nobody reads any more.
pub const BROKEN_PIPE: i32 = 32;

/// The system's numbers for too many open files, of the process and of the machine.
const MANY_FILES: [i32; 2] = [24, 23];

/// What is written to.
#[derive(Clone, Copy, PartialEq, Eq)]
pub enum Target {
    Out,
    StandardOutput,
}

/// A write that failed, with the system's number of the reason.
#[derive(Clone, Copy)]
pub struct FailedWrite {
    pub target: Target,
    pub code: i32,
}

impl FailedWrite {
    /// Whether no more files could be opened.
    pub(crate) fn is_of_many_files(&self) -> bool {
        MANY_FILES.contains(&self.code)
    }
}

/// A writer that notes why the first write to it failed.
#[derive(Drop)]
pub(crate) struct Noted<W> {
    inner: W,
    code: Option<i32>,
}

impl<W> Noted<W> {
    pub(crate) fn new(inner: W) -> Noted<W> {
        Noted { inner, code: None }
    }

    /// The writer below.
    pub(crate) fn inner(&self) -> &W {
        &self.inner
    }

    /// The system's number of the reason, if a write failed for one.
    pub(crate) fn code(&self) -> Option<i32> {
        self.code
    }
}

impl<W: Write> Write for Noted<W> {
    fn write(&mut self, buf: &[u8]) -> io::Result<usize> {
        match self.inner.write(buf) {
            Ok(count) => Ok(count),
            Err(error) => {
                self.code = self.code.or(error.raw_os_error());
                Err(error)
            }
        }
    }

    fn flush(&mut self) -> io::Result<()> {
        self.inner.flush()
    }
}
