//! The bytes of one frame, packed and unpacked.

ghost use Rattle.std.specs.Prelude.{◌≡◌, ◌+◌, ◌-◌, ◌<◌, ◌≤◌, vec_len};
ghost use Rattle.pbf_frame.specs.declared.header.TheConstants.{HEADER_LIMIT, LARGEST_SIZE};

use std::alloc::Global;

/// Empties a buffer, and frees its memory.
fn free(buffer: &mut Vec<u8>)
    ensures { vec_len buffer.new ≡ 0 }
{
    buffer.clear();
    buffer.shrink_to_fit();
}

/// One packed frame and one raw one. `front` and then `raw` are what is supplied.
#[derive(Drop)]
pub(crate) struct Buffers {
    /// The four bytes and the header of the frame, as they were read or in written form.
    pub(crate) front: Vec<u8>,
    /// Only the header, as it was read.
    pub(crate) header: Vec<u8>,
    /// The blob as it was read.
    pub(crate) packed: Vec<u8>,
    /// The blob or the payload that is supplied.
    pub(crate) raw: Vec<u8>,
    ghost front_held: { vec_len front ≤ HEADER_LIMIT + 3 },
    ghost header_held: { vec_len header ≤ HEADER_LIMIT - 1 },
    ghost packed_held: { vec_len packed ≤ LARGEST_SIZE },
    ghost raw_held: { vec_len raw ≤ LARGEST_SIZE },
}

impl Buffers {
    /// Nothing. It does not allocate.
    pub(crate) fn new(alloc: Global) -> Buffers
        ensures front { vec_len result.front ≡ 0 }
        ensures raw { vec_len result.raw ≡ 0 }
    {
        Buffers {
            front: Vec::new(alloc),
            header: Vec::new(alloc),
            packed: Vec::new(alloc),
            raw: Vec::new(alloc),
        }
    }

    /// Supplies the blob as it was read.
    pub(crate) fn stand(&mut self)
        ensures front { self.new.front ≡ self.old.front }
        ensures raw { self.new.raw ≡ self.old.packed }
    {
        std::mem::swap(&mut self.packed, &mut self.raw);
    }

    /// Nothing is supplied any more.
    pub(crate) fn drop_supplied(&mut self) {
        self.front.clear();
        self.raw.clear();
    }

    /// Nothing is held any more, and its memory is free.
    pub(crate) fn free(&mut self)
        ensures front { vec_len self.new.front ≡ 0 }
        ensures raw { vec_len self.new.raw ≡ 0 }
    {
        free(&mut self.front);
        free(&mut self.header);
        free(&mut self.packed);
        free(&mut self.raw);
    }

    /// The number of bytes held.
    pub(crate) fn held(&self) -> u64
        ensures { result ≡ vec_len self.now.front + vec_len self.now.header
            + vec_len self.now.packed + vec_len self.now.raw }
    {
        self.front.len() as u64
            + self.header.len() as u64
            + self.packed.len() as u64
            + self.raw.len() as u64
    }
}
