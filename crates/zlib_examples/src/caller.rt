//! Callers of the crates `zlib` and `deflate`, which their READMEs show.

ghost use Rattle.std.specs.Prelude.{◌≡◌, Ok, IfOk};
ghost use Rattle.zlib.specs.Stream.{inflated};

use deflate::deflate;
use std::alloc::Global;
use zlib::{InflateFault, inflate};

/// What a stream means if that is at most `limit` bytes, in a vector of its own.
pub fn unpacked(alloc: Global, packed: &[u8], limit: usize) -> Result<Vec<u8>, InflateFault>
    ensures { IfOk result (λ out. inflated limit packed.now ≡ Ok out.items) }
{
    let mut out = Vec::new(alloc);
    inflate(alloc, packed, limit, &mut out)?;
    Ok(out)
}

/// Packs bytes, and reads the stream: they come back.
pub fn packed_and_unpacked(alloc: Global, input: &[u8]) -> Result<Vec<u8>, InflateFault>
    ensures { IfOk result (λ out. out.items ≡ input.now) }
{
    let Ok(packed) = deflate(alloc, input) else {
        return Err(InflateFault::Memory);
    };
    unpacked(alloc, &packed, input.len())
}
