//! A whole frame, read from a feed.

ghost use Rattle.std.specs.Prelude.{◌≡◌, ◌+◌, ◌-◌, ◌<◌, ◌≤◌, ◌++◌, length, IfOk, IfSome, None, OnOk, vec_len, max};
ghost use Rattle.pbf_frame.specs.declared.header.Head.{Head};
ghost use Rattle.pbf_frame.specs.declared.header.TheConstants.{HEADER_LIMIT};
ghost use Rattle.pbf_frame.specs.Reads.{FillsFrom};
ghost use Rattle.pbf_unpack.specs.Whole.{TookBytes, BeginsWith, Means, MeansWhole, EndsWithinFile, IsPlacedAt, Stores, StoresFront};
ghost use Rattle.pbf_unpack.specs.RawFrames.{IsFrameOf, IsPastLimit};
ghost use Rattle.pbf_frame.specs.declared.frame.TheConstants.{FILE_LIMIT};

use crate::buffers::Buffers;
use byteorder::{BigEndian, ByteOrder};
use pbf_frame::{FILE_LIMIT, Feed, FrameKind, HEADER_LIMIT, Head, Stop, fill_vec, read_head};

/// A whole frame. Its blob may be anything.
#[derive(Clone, Copy, PartialEq, Eq)]
pub(crate) struct WholeFrame {
    pub(crate) kind: FrameKind,
    /// Where in the packed file its blob begins.
    pub(crate) blob_at: u64,
    /// Where it ends.
    pub(crate) end: u64,
}

/// What a feed has at the start of a frame.
#[derive(Clone, Copy, PartialEq, Eq)]
pub(crate) enum Found {
    /// A whole frame.
    Whole(WholeFrame),
    /// Bytes that begin no whole frame, whatever follows them.
    Unfit,
    /// What there is up to the end of the feed: no whole frame, or nothing at all.
    Cut,
}

/// The same of the four bytes and the header of a frame.
#[derive(Clone, Copy, PartialEq, Eq)]
enum Front {
    /// They are there, and the header says this.
    Says(Head),
    Unfit,
    Cut,
}

/// The frame that these bytes are, if they are a whole one at this place.
pub(crate) fn whole_frame(front: &[u8], blob: &[u8], place: u64) -> Option<WholeFrame>
    requires { place ≤ FILE_LIMIT }
    ensures means { IfSome result (MeansWhole place (front.now ++ blob.now) blob.now) }
    ensures placed { IfSome result (IsPlacedAt place (front.now ++ blob.now) blob.now) }
    ensures frame { IfSome result (λ w. IsFrameOf w.kind front.now blob.now) }
    ensures past { result ≡ None → IsPastLimit place front.now blob.now }
{
    if front.len() < 4 {
        return None;
    }
    let (prefix, header) = front.split_at(4);
    let length = BigEndian::read_u32(prefix);
    if length >= HEADER_LIMIT || header.len() != length as usize {
        return None;
    }
    let Ok(head) = read_head(header, place + 4) else {
        return None;
    };
    let blob_at = place + front.len() as u64;
    let end = blob_at + blob.len() as u64;
    if head.size as usize != blob.len() || end > FILE_LIMIT {
        return None;
    }
    Some(WholeFrame {
        kind: head.kind,
        blob_at,
        end,
    })
}

/// Reads the four bytes and the header of a frame into `front`, and the header into `header` too.
fn read_front<F: Feed>(
    feed: &mut F,
    front: &mut Vec<u8>,
    header: &mut Vec<u8>,
    place: u64,
) -> Result<Front, Stop>
    requires { place ≤ FILE_LIMIT }
    ensures took { OnOk result (TookBytes front.new.items (F.has_passed feed.old)
        (F.has_passed feed.new) (F.remaining feed.old) (F.remaining feed.new)) }
    ensures means { IfOk result
        (BeginsWith place front.new.items header.new.items (F.remaining feed.new)) }
    ensures stores { IfOk result (StoresFront place front.new.items) }
    ensures front_held { vec_len front.new ≤ max (HEADER_LIMIT + 3) (vec_len front.old) }
    ensures header_held { vec_len header.new ≤ max (HEADER_LIMIT - 1) (vec_len header.old) }
    ensures feed { FillsFrom F.Feed feed.old feed.new result }
{
    fill_vec(feed, front, 4)?;
    if front.len() < 4 {
        return Ok(Front::Cut);
    }
    let length = BigEndian::read_u32(front);
    if length >= HEADER_LIMIT {
        return Ok(Front::Unfit);
    }
    fill_vec(feed, header, length as usize)?;
    front.extend_from_slice(header)?;
    if header.len() < length as usize {
        return Ok(Front::Cut);
    }
    match read_head(header, place + 4) {
        Ok(head) => Ok(Front::Says(head)),
        Err(_) => Ok(Front::Unfit),
    }
}

/// What a feed has at the start of a frame, all of it read: what is packed into `packed`, and what is before it into `front`.
pub(crate) fn read_whole<F: Feed>(
    feed: &mut F,
    buffers: &mut Buffers,
    place: u64,
) -> Result<Found, Stop>
    requires { place ≤ FILE_LIMIT }
    ensures took { OnOk result (TookBytes (buffers.new.front.items ++ buffers.new.packed.items)
        (F.has_passed feed.old) (F.has_passed feed.new)
        (F.remaining feed.old) (F.remaining feed.new)) }
    ensures means { IfOk result (Means place (buffers.new.front.items ++ buffers.new.packed.items)
        buffers.new.packed.items (F.remaining feed.new)) }
    ensures stores { IfOk result (Stores place (buffers.new.front.items ++ buffers.new.packed.items)
        buffers.new.packed.items) }
    ensures placed { IfOk result (EndsWithinFile buffers.new.packed.items) }
    ensures raw { buffers.new.raw ≡ buffers.old.raw }
    ensures feed { FillsFrom F.Feed feed.old feed.new result }
{
    buffers.packed.clear();
    let head = match read_front(feed, &mut buffers.front, &mut buffers.header, place)? {
        Front::Says(head) => head,
        Front::Unfit => return Ok(Found::Unfit),
        Front::Cut => return Ok(Found::Cut),
    };
    let blob_at = place + buffers.front.len() as u64;
    let end = blob_at + u64::from(head.size);
    if end > FILE_LIMIT {
        return Ok(Found::Unfit);
    }
    fill_vec(feed, &mut buffers.packed, head.size as usize)?;
    if buffers.packed.len() < head.size as usize {
        return Ok(Found::Cut);
    }
    Ok(Found::Whole(WholeFrame {
        kind: head.kind,
        blob_at,
        end,
    }))
}
