//! Loops over a device, however it cuts the bytes.

ghost use Rattle.std.specs.Prelude.{◌≡◌, ◌<◌, ◌≤◌, ◌++◌, length, take, IfOk, OnOk, OnErr};
ghost use Rattle.pbf_frame.specs.Devices.{IsAtEnd, HasRisen, IsFront};
ghost use Rattle.pbf_frame.specs.Keeps.{KeepsFeed};
ghost use Rattle.pbf_frame.specs.Transfers.{Added, SuppliedFirst};

use crate::device::{Drain, Feed};
use crate::stop::{DrainFault, FeedFault};

/// Fills the buffer, or less of it only at the end of the feed: each read is for all that is still wanted.
pub(crate) fn fill<F: Feed>(feed: &mut F, buf: &mut [u8]) -> Result<usize, FeedFault>
    ensures bound { IfOk result (λ n. n ≤ length buf.old) }
    ensures supplied { IfOk result (λ n.
        SuppliedFirst F.Feed feed.old (take n buf.new) feed.new) }
    ensures end { IfOk result (λ n. n < length buf.old → IsAtEnd (F.remaining feed.new)) }
    ensures keeps { KeepsFeed F.Feed feed.old feed.new }
    ensures failed { OnErr result (HasRisen (F.failures feed.old) (F.failures feed.new)) }
{
    let mut done = 0;
    while done < buf.len() {
        let count = feed.read(&mut buf[done..])?;
        if count == 0 {
            break;
        }
        done += count;
    }
    Ok(done)
}

/// Writes all of the bytes; after a failure a prefix of them went out. It does not allocate.
pub fn write_all<D: Drain>(drain: &mut D, bytes: &[u8]) -> Result<(), DrainFault>
    ensures ok { OnOk result (Added D.Drain drain.old bytes.now drain.new) }
    ensures front { IsFront (D.taken drain.old) (D.taken drain.new) bytes.now }
    ensures counts { D.failures drain.old ≤ D.failures drain.new }
    ensures failed { OnErr result (HasRisen (D.failures drain.old) (D.failures drain.new)) }
    ensures lender { D.lender drain.new ≡ D.lender drain.old }
{
    let mut done = 0;
    while done < bytes.len() {
        done += drain.write(&bytes[done..])?;
    }
    Ok(())
}

/// Writes both slices, one after the other; after a failure a prefix of their bytes went out. It does not allocate.
pub fn write_both<D: Drain>(drain: &mut D, first: &[u8], second: &[u8]) -> Result<(), DrainFault>
    ensures ok { OnOk result (Added D.Drain drain.old (first.now ++ second.now) drain.new) }
    ensures front { IsFront (D.taken drain.old) (D.taken drain.new) (first.now ++ second.now) }
    ensures counts { D.failures drain.old ≤ D.failures drain.new }
    ensures failed { OnErr result (HasRisen (D.failures drain.old) (D.failures drain.new)) }
    ensures lender { D.lender drain.new ≡ D.lender drain.old }
{
    write_all(drain, first)?;
    write_all(drain, second)
}
