//! The parts of a frame, read from a feed.

ghost use Rattle.std.specs.Prelude.{None, Ok, true, ◌≡◌, ◌+◌, ◌-◌, ◌<◌, ◌≤◌, length, IfOk, OnOk, IfErr, IfSome, IfNone, vec_len, max};
ghost use Rattle.byteorder.specs.Endian.{big_number};
ghost use Rattle.pbf_wire.specs.Least.{least};
ghost use Rattle.pbf_frame.specs.Devices.{IsAtEnd, given_prefix};
ghost use Rattle.pbf_frame.specs.Transfers.{SuppliedFirst};
ghost use Rattle.pbf_wire.specs.Faults.{fault};
ghost use Rattle.pbf_frame.specs.declared.frame.TheConstants.{FILE_LIMIT};
ghost use Rattle.pbf_frame.specs.Frames.{order_faults, next_of};
ghost use Rattle.pbf_frame.specs.declared.header.TheConstants.{HEADER_LIMIT, LARGEST_SIZE};
ghost use Rattle.pbf_frame.specs.Reads.{UsesFeed, FillsFrom, ReadsPart, ReadsBytes, Skips, GaveBlob, GaveFrame, GaveEnd, IsWithinFile};
ghost use Rattle.pbf_frame.specs.Refusals.{RefusedFrom};
ghost use Rattle.pbf_frame.specs.Sound.{IsSoundBlob};
ghost use Rattle.pbf_frame.specs.Blob.{blob_fault};
ghost use Rattle.pbf_frame.specs.Steps.{prefix_at, bytes_at, header_after, known_blob_of, blob_of, head_of};
ghost use Rattle.pbf_wire.specs.declared.limits.TheConstants.{OFFSET_LIMIT};

use crate::blob::judge_blob;
use crate::device::Feed;
use crate::frame::{FILE_LIMIT, FrameKind};
use crate::header::{HEADER_LIMIT, Head, read_head};
use crate::stop::Stop;
use crate::transfer::fill;
use byteorder::{BigEndian, ByteOrder};
use pbf_wire::{Fault, Reason, fault_where, lesser};

/// How many bytes of a blob of another type are skipped at a time.
const SKIPPED_PIECE: usize = 8192;

/// Where a frame begins, and whether the header came before it.
#[derive(Clone, Copy)]
pub(crate) struct FrameStart {
    pub(crate) place: u64,
    pub(crate) had_header: bool,
}

fn refused(offset: u64, reason: Reason) -> Stop
    ensures { result ≡ Stop.Refused (fault offset reason) }
{
    Stop::Refused(Fault { offset, reason })
}

/// Fills the vector with the next bytes of the feed: this many, or fewer only at its end. `Read` says that a read failed, and
/// `Memory` that the vector could not grow.
pub fn fill_vec<F: Feed>(feed: &mut F, buf: &mut Vec<u8>, count: usize) -> Result<(), Stop>
    ensures reads { OnOk result
        (ReadsBytes (F.remaining feed.old) (F.remaining feed.new) count buf.new.items) }
    ensures supplied { OnOk result (SuppliedFirst F.Feed feed.old buf.new.items feed.new) }
    ensures bound { OnOk result (vec_len buf.new ≤ count) }
    ensures end { OnOk result (vec_len buf.new < count → IsAtEnd (F.remaining feed.new)) }
    ensures held { vec_len buf.new ≤ max count (vec_len buf.old) }
    ensures feed { FillsFrom F.Feed feed.old feed.new result }
{
    buf.resize(count, 0)?;
    let read = fill(feed, buf)?;
    buf.truncate(read);
    Ok(())
}

/// The four bytes before the next frame's header, or nothing at the end.
#[tactic(auto, unfolding(crate::specs::Steps::prefix_at))]
fn read_prefix<F: Feed>(feed: &mut F, start: FrameStart) -> Result<Option<[u8; 4]>, Stop>
    ensures reads { ReadsPart F.Feed (prefix_at start.had_header start.place) (λ o. o)
        feed.old feed.new result }
    ensures small { IfOk result (λ o. IfSome o (λ prefix. (length prefix ≡ 4)
        × (big_number 4 prefix < HEADER_LIMIT))) }
    ensures ended { IfOk result (λ o. IfNone o (IsAtEnd (F.remaining feed.new)
        × (start.had_header ≡ true))) }
    ensures supplied { IfOk result (λ o.
        SuppliedFirst F.Feed feed.old (given_prefix o) feed.new) }
{
    let mut prefix = [0; 4];
    let read = fill(feed, &mut prefix)?;
    if read == 0 {
        return if start.had_header {
            Ok(None)
        } else {
            Err(refused(start.place, Reason::NoHeader))
        };
    }
    if read < 4 {
        return Err(refused(start.place, Reason::PrefixCut));
    }
    if BigEndian::read_u32(&prefix) >= HEADER_LIMIT {
        return Err(refused(start.place, Reason::HeaderLong));
    }
    Ok(Some(prefix))
}

/// This many bytes.
#[tactic(auto, using(crate::proofs::FrontLemmas::bytes_at_ok), unfolding(crate::specs::Steps::bytes_at))]
fn read_bytes<F: Feed>(feed: &mut F, buf: &mut Vec<u8>, count: u32, cut: Fault) -> Result<(), Stop>
    ensures reads { ReadsPart F.Feed (bytes_at cut count) (λ _. buf.new.items)
        feed.old feed.new result }
    ensures held { vec_len buf.new ≤ max count (vec_len buf.old) }
    ensures len { OnOk result (vec_len buf.new ≡ count) }
    ensures supplied { OnOk result (SuppliedFirst F.Feed feed.old buf.new.items feed.new) }
{
    fill_vec(feed, buf, count as usize)?;
    if buf.len() < count as usize {
        return Err(Stop::Refused(cut));
    }
    Ok(())
}

/// Whether a frame of this kind may be here and end here.
#[tactic(auto, using(crate::proofs::Parts::lesser_parts))]
fn judge_order(start: FrameStart, kind: FrameKind, end: u64) -> Option<Fault>
    ensures { result ≡ least
        (order_faults (Some FILE_LIMIT) start.had_header start.place kind end) }
{
    let second = start.had_header && kind == FrameKind::Header;
    let first = !start.had_header && kind == FrameKind::Data;
    let order = lesser(
        fault_where(second, start.place, Reason::SecondHeader),
        fault_where(first, start.place, Reason::DataFirst),
    );
    lesser(
        order,
        fault_where(end > FILE_LIMIT, start.place, Reason::FileLong),
    )
}

/// The header after a prefix, and what it says.
#[tactic(auto, unfolding(crate::specs::Steps::header_after))]
fn read_header<F: Feed>(
    feed: &mut F,
    header: &mut Vec<u8>,
    start: FrameStart,
    prefix: &[u8],
) -> Result<Head, Stop>
    requires in_range { start.place ≤ FILE_LIMIT }
    requires whole { 4 ≤ length prefix.now }
    requires small { big_number 4 prefix.now < HEADER_LIMIT }
    ensures reads { ReadsPart F.Feed (header_after start.had_header start.place prefix.now)
        (λ head. (header.new.items, head)) feed.old feed.new result }
    ensures head { IfOk result (λ head. head_of (start.place + 4) header.new.items ≡ Ok head) }
    ensures small { IfOk result (λ head. head.size ≤ LARGEST_SIZE) }
    ensures end { IfOk result (λ head.
        start.place + 4 + vec_len header.new + head.size ≤ FILE_LIMIT) }
    ensures held { vec_len header.new ≤ max (HEADER_LIMIT - 1) (vec_len header.old) }
    ensures supplied { OnOk result (SuppliedFirst F.Feed feed.old header.new.items feed.new) }
    ensures spelled { OnOk result (length header.new.items ≡ big_number 4 prefix.now) }
    ensures ordered { IfOk result (λ head.
        least (order_faults (Some FILE_LIMIT) start.had_header start.place head.kind
        (start.place + 4 + length header.new.items + head.size)) ≡ None) }
{
    let cut = Fault {
        offset: start.place,
        reason: Reason::HeaderCut,
    };
    read_bytes(feed, header, BigEndian::read_u32(prefix), cut)?;
    let head = read_head(header, start.place + 4)?;
    let end = start.place + 4 + header.len() as u64 + u64::from(head.size);
    if let Some(fault) = judge_order(start, head.kind, end) {
        return Err(Stop::Refused(fault));
    }
    Ok(head)
}

/// Skips this many bytes, in pieces of the room's length.
fn skip<F: Feed>(feed: &mut F, count: u32, room: &mut [u8], cut: Fault) -> Result<(), Stop>
    requires { 0 < length room.old }
    ensures skips { OnOk result
        (Skips (F.has_passed feed.old) (F.has_passed feed.new) (F.remaining feed.old)
        (F.remaining feed.new) count) }
    ensures refused { IfErr result (RefusedFrom F.Feed (bytes_at cut count) feed.old feed.new) }
    ensures feed { UsesFeed F.Feed feed.old feed.new result }
{
    let mut left = count as usize;
    while left > 0 {
        let piece = left.min(room.len());
        let read = fill(feed, &mut room[..piece])?;
        if read < piece {
            return Err(Stop::Refused(cut));
        }
        left -= piece;
    }
    Ok(())
}

/// The blob of a header or of data.
#[tactic(auto, unfolding(crate::specs::Steps::known_blob_of))]
fn read_known_blob<F: Feed>(
    feed: &mut F,
    blob: &mut Vec<u8>,
    size: u32,
    at: u64,
) -> Result<(), Stop>
    requires in_range { at + size ≤ OFFSET_LIMIT }
    ensures reads { ReadsPart F.Feed (known_blob_of size at) (λ _. blob.new.items)
        feed.old feed.new result }
    ensures sound { OnOk result (blob_fault at blob.new.items ≡ None) }
    ensures long { OnOk result (vec_len blob.new ≡ size) }
    ensures held { vec_len blob.new ≤ max size (vec_len blob.old) }
    ensures supplied { OnOk result (SuppliedFirst F.Feed feed.old blob.new.items feed.new) }
{
    let cut = Fault {
        offset: at,
        reason: Reason::BlobCut,
    };
    read_bytes(feed, blob, size, cut)?;
    if let Some(fault) = judge_blob(blob, at) {
        return Err(Stop::Refused(fault));
    }
    Ok(())
}

/// The blob after a header; one of another type is skipped.
fn read_blob<F: Feed>(feed: &mut F, blob: &mut Vec<u8>, head: Head, at: u64) -> Result<(), Stop>
    requires in_range { at + head.size ≤ OFFSET_LIMIT }
    ensures gave { OnOk result
        (GaveBlob head.kind head.size at blob.new.items (F.has_passed feed.old)
        (F.has_passed feed.new) (F.remaining feed.old) (F.remaining feed.new)) }
    ensures sound { OnOk result (IsSoundBlob head.kind at blob.new.items) }
    ensures refused { IfErr result
        (RefusedFrom F.Feed (blob_of head.kind head.size at) feed.old feed.new) }
    ensures held { vec_len blob.new ≤ max head.size (vec_len blob.old) }
    ensures feed { UsesFeed F.Feed feed.old feed.new result }
{
    match head.kind {
        FrameKind::Header | FrameKind::Data => read_known_blob(feed, blob, head.size, at),
        FrameKind::Other => {
            blob.clear();
            let cut = Fault {
                offset: at,
                reason: Reason::BlobCut,
            };
            skip(feed, head.size, &mut [0; SKIPPED_PIECE], cut)?;
            Ok(())
        }
    }
}

/// A frame whose bytes lie in the reader's buffers.
#[derive(Clone, Copy, PartialEq, Eq)]
pub(crate) struct BufferedFrame {
    pub(crate) offset: u64,
    pub(crate) kind: FrameKind,
    pub(crate) size: u32,
    pub(crate) blob_at: u64,
}

/// The next frame, or nothing at the end.
pub(crate) fn read_frame<F: Feed>(
    feed: &mut F,
    header: &mut Vec<u8>,
    blob: &mut Vec<u8>,
    start: FrameStart,
) -> Result<Option<BufferedFrame>, Stop>
    requires in_range { start.place ≤ FILE_LIMIT }
    ensures gave { IfOk result (λ o.
        IfSome o (λ seen. GaveFrame start.had_header start.place header.new.items blob.new.items
        seen (F.has_passed feed.old) (F.has_passed feed.new) (F.remaining feed.old)
        (F.remaining feed.new))) }
    ensures ended { IfOk result (λ o.
        IfNone o (GaveEnd start.had_header start.place (F.has_passed feed.old)
        (F.has_passed feed.new) (F.remaining feed.old) (F.remaining feed.new))) }
    ensures refused { IfErr result
        (RefusedFrom F.Feed (next_of start.had_header start.place) feed.old feed.new) }
    ensures later { IfOk result (λ o.
        IfSome o (λ seen. (start.place < seen.blob_at) × IsWithinFile seen)) }
    ensures sound { IfOk result (λ o.
        IfSome o (λ seen. IsSoundBlob seen.kind seen.blob_at blob.new.items)) }
    ensures header_held { vec_len header.new ≤ max (HEADER_LIMIT - 1) (vec_len header.old) }
    ensures blob_held { vec_len blob.new ≤ max LARGEST_SIZE (vec_len blob.old) }
    ensures feed { UsesFeed F.Feed feed.old feed.new result }
{
    let Some(prefix) = read_prefix(feed, start)? else {
        return Ok(None);
    };
    let head = read_header(feed, header, start, &prefix)?;
    let blob_at = start.place + 4 + header.len() as u64;
    read_blob(feed, blob, head, blob_at)?;
    Ok(Some(BufferedFrame {
        offset: start.place,
        kind: head.kind,
        size: head.size,
        blob_at,
    }))
}
