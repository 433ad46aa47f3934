//! The progress of a run: one line on standard error, which is rewritten as the run goes on.

ghost use Rattle.std.specs.Prelude.{◌≡◌};

use pbf_frame::{Feed, FeedFault};
use std::alloc::Global;
use std::io::{Stderr, Write};

/// What is counted of a pipe: so many bytes are a megabyte.
const MEGABYTE: u64 = 1_000_000;

/// The line of progress of one pass.
#[derive(Drop)]
pub(crate) struct Line {
    alloc: Global,
    screen: Stderr,
    pass: u8,
    passes: u8,
    /// The length of IN; 0 if it has none, as a pipe.
    length: u64,
    /// How many bytes this pass has read.
    read: u64,
    /// The number that the line shows, if it shows one.
    shown: Option<u64>,
}

impl Line {
    /// A line that is not shown yet.
    pub(crate) fn new(rt: &HostRuntime, pass: u8, passes: u8, length: u64) -> Line {
        Line {
            alloc: rt.alloc(),
            screen: rt.stderr(),
            pass,
            passes,
            length,
            read: 0,
            shown: None,
        }
    }

    /// The number to be shown: the per cent of IN that were read, of a pipe the megabytes.
    fn number(&self) -> u64 {
        if self.length == 0 {
            return self.read / MEGABYTE;
        }
        (self.read.saturating_mul(100) / self.length).min(100)
    }

    /// Writes the line again, with spaces after it over what an earlier pass left. If it can't be written, the run goes on
    /// without it.
    fn show(&mut self, number: u64) {
        let (pass, passes) = (self.pass, self.passes);
        let unit = if self.length == 0 { "MB" } else { "%" };
        let line = format!(in self.alloc; "\rpass {pass} of {passes}: {number} {unit}  ");
        if let Ok(line) = line {
            let _ = self.screen.write_all(line.as_bytes());
        }
    }

    /// Counts bytes that were read, and shows the number if it is another one.
    fn count(&mut self, bytes: usize) {
        self.read = self.read.saturating_add(bytes as u64);
        let number = self.number();
        if self.shown != Some(number) {
            self.show(number);
            self.shown = Some(number);
        }
    }
}

/// A feed that reports what is read of it, if there is a line for it.
#[derive(Drop)]
pub struct Watched<F> {
    feed: F,
    line: Option<Line>,
}

impl<F: Feed> Watched<F> {
    pub(crate) fn new(feed: F, line: Option<Line>) -> Watched<F>
        ensures { result.feed ≡ feed }
    {
        Watched { feed, line }
    }

    /// Ends the line of the last pass, if there is one.
    pub fn end(&self, rt: &HostRuntime) {
        if let Some(line) = &self.line {
            if line.pass == line.passes {
                let _ = eprintln!(rt; "");
            }
        }
    }
}

impl<F: Feed> Feed for Watched<F> {
    ghost remaining = { λ w. F.remaining w.feed };

    ghost failures = { λ w. F.failures w.feed };

    ghost lender = { λ w. F.lender w.feed };

    ghost has_passed = { λ w log b. F.has_passed w.feed log b };

    fn read(&mut self, buf: &mut [u8]) -> Result<usize, FeedFault> {
        let count = self.feed.read(buf)?;
        if let Some(line) = &mut self.line {
            line.count(count);
        }
        Ok(count)
    }
}
