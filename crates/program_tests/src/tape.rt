//! Devices over memory that know what has passed.

ghost use Rattle.std.specs.Prelude.{◌≡◌, ◌≤◌, length, take, drop, [], Some, IfOk};
ghost use Rattle.pbf_frame.specs.Memory.{sink_bytes};

use pbf_frame::{Drain, DrainFault, Feed, FeedFault, Sink};
use std::alloc::{AllocError, Global};

/// Supplies the bytes of a file, of which so many have passed. No read fails.
#[derive(Drop)]
pub struct Tape {
    pub(crate) whole: Vec<u8>,
    pub(crate) place: usize,
    ghost within: { place ≤ length whole.items },
}

impl Tape {
    pub fn new(whole: Vec<u8>) -> Tape
        ensures whole { result.whole.items ≡ whole.items }
        ensures place { result.place ≡ 0 }
    {
        Tape { whole, place: 0 }
    }

    /// The bytes that have passed.
    pub fn passed(&self) -> &[u8]
        ensures { result.now ≡ take self.now.place self.now.whole.items }
    {
        &self.whole[..self.place]
    }

    /// The bytes still to supply.
    pub fn left(&self) -> &[u8]
        ensures { result.now ≡ drop self.now.place self.now.whole.items }
    {
        &self.whole[self.place..]
    }
}

impl Feed for Tape {
    ghost remaining = { λ t. Some (drop t.place t.whole.items) };

    ghost failures = { λ _. 0 };

    ghost has_passed = { λ t _ bytes. bytes ≡ take t.place t.whole.items };

    fn read(&mut self, buf: &mut [u8]) -> Result<usize, FeedFault> {
        let rest = &self.whole[self.place..];
        let count = buf.len().min(rest.len());
        buf[..count].copy_from_slice(&rest[..count]);
        self.place += count;
        Ok(count)
    }
}

/// Takes bytes into memory, up to some room, and counts the writes that fail.
#[derive(Drop)]
pub struct Reel {
    pub(crate) sink: Sink,
    pub(crate) failures: u64,
}

impl Reel {
    pub fn new(alloc: Global, room: usize) -> Result<Reel, AllocError>
        ensures { IfOk result (λ reel. (sink_bytes reel.sink ≡ []) × (reel.failures ≡ 0)) }
    {
        let sink = Sink::new(alloc, room, 0)?;
        Ok(Reel { sink, failures: 0 })
    }

    /// The bytes that it took.
    pub fn taken(&self) -> &[u8]
        ensures { result.now ≡ sink_bytes self.now.sink }
    {
        self.sink.bytes()
    }
}

impl Drain for Reel {
    ghost taken = { λ r. Some (sink_bytes r.sink) };

    ghost has_taken = { λ r _ bytes. bytes ≡ sink_bytes r.sink };

    ghost failures = { λ r. r.failures };

    fn write(&mut self, bytes: &[u8]) -> Result<usize, DrainFault> {
        match self.sink.write(bytes) {
            Ok(count) => Ok(count),
            Err(_) => {
                self.failures = self.failures.saturating_add(1);
                Err(DrainFault)
            }
        }
    }
}
