//! OUT as it is written: a file, or standard output.

ghost use Rattle.std.specs.Prelude.{◌≤◌, IfOk, length};

use crate::disk::{sync_file, sync_name};
use crate::failure::{BROKEN_PIPE, Noted, Target};
use std::fs::File;
use std::io::{self, BufWriter, Stdout, Write};

/// The length of the buffers of OUT and of standard output.
const OUTPUT_BUFFER: usize = 65_536;

/// What OUT is written to.
#[derive(Drop)]
enum OutSink {
    File(File),
    Screen(Stdout),
}

impl Write for OutSink {
    fn write(&mut self, buf: &[u8]) -> io::Result<usize> {
        match self {
            OutSink::File(file) => file.write(buf),
            OutSink::Screen(screen) => screen.write(buf),
        }
    }

    fn flush(&mut self) -> io::Result<()> {
        match self {
            OutSink::File(file) => file.flush(),
            OutSink::Screen(screen) => screen.flush(),
        }
    }
}

/// OUT, or standard output, with a buffer.
#[derive(Drop)]
pub struct OutStream {
    writer: BufWriter<Noted<OutSink>>,
}

fn with_buffer(rt: &HostRuntime, sink: OutSink) -> io::Result<OutStream> {
    let writer = BufWriter::with_capacity(rt.alloc(), OUTPUT_BUFFER, Noted::new(sink))?;
    Ok(OutStream { writer })
}

/// Standard output. An error is that memory was refused.
pub fn open_standard_output(rt: &HostRuntime) -> io::Result<OutStream> {
    with_buffer(rt, OutSink::Screen(rt.stdout()))
}

impl OutStream {
    /// An open file. An error is that memory was refused.
    pub(crate) fn to_file(rt: &HostRuntime, file: File) -> io::Result<OutStream> {
        with_buffer(rt, OutSink::File(file))
    }

    /// Writes some of the bytes, by way of the buffer.
    pub fn write(&mut self, bytes: &[u8]) -> io::Result<usize>
        ensures { IfOk result (λ n. n ≤ length bytes.now) }
    {
        self.writer.write(bytes)
    }

    /// Writes what is left in the buffer.
    pub fn flush(&mut self) -> io::Result<()> {
        self.writer.flush()
    }

    /// The system's number of the reason, if a write failed for one.
    pub fn code(&self) -> Option<i32> {
        self.writer.get_ref().code()
    }

    /// Whether it is a pipe that nobody reads any more, so that a write to it failed.
    pub fn is_closed(&self) -> bool {
        self.code() == Some(BROKEN_PIPE)
    }

    /// What it is.
    pub fn target(&self) -> Target {
        match self.writer.get_ref().inner() {
            OutSink::File(_) => Target::Out,
            OutSink::Screen(_) => Target::StandardOutput,
        }
    }

    /// Has the system write what a file of this name was written to, and its name, to the disk. The buffer was written out before.
    pub fn sync(&self, rt: &HostRuntime, name: &str) -> io::Result<()> {
        match self.writer.get_ref().inner() {
            OutSink::File(file) => sync_file(file)?,
            OutSink::Screen(_) => return Ok(()),
        }
        sync_name(rt, name)
    }
}
