//! The frames of the bytes that a feed supplies.

ghost use Rattle.std.specs.Prelude.{◌≡◌, ◌+◌, ◌<◌, ◌≤◌, IfOk, IfSome, false, vec_len};
ghost use Rattle.pbf_frame.specs.declared.header.TheConstants.{HEADER_LIMIT, LARGEST_SIZE};
ghost use Rattle.pbf_frame.specs.declared.frame.TheConstants.{FILE_LIMIT};
ghost use Rattle.pbf_frame.specs.declared.reader.TheConstants.{MOST_BUFFERED};

use crate::blob::payload_in;
use crate::device::Feed;
use crate::frame::{Frame, FrameKind};
use crate::frame_parts::{BufferedFrame, FrameStart, read_frame};
use crate::header::TYPE;
use crate::stop::Stop;
use pbf_wire::{Message, last_field, occurrence_text};
use std::alloc::Global;

/// The most bytes that a reader holds: a BlobHeader and a Blob, each of the greatest length.
pub const MOST_BUFFERED: u64 = 33_620_990;

/// Whether a reader goes on.
#[derive(Clone, Copy, PartialEq, Eq)]
enum State {
    Reading,
    Ended,
    Stopped(Stop),
}

/// Returns the frames of the bytes that a feed supplies, one after another, however the feed cuts them.
///
/// It owns two buffers, for a BlobHeader and for a Blob, and holds the bytes of one frame at a time.
#[derive(Drop)]
pub struct FrameReader<F> {
    /// The feed, at the bytes after the last frame given.
    pub feed: F,
    header: Vec<u8>,
    blob: Vec<u8>,
    place: u64,
    had_header: bool,
    state: State,
    ghost in_range: { place ≤ FILE_LIMIT },
    ghost header_held: { vec_len header < HEADER_LIMIT },
    ghost blob_held: { vec_len blob ≤ LARGEST_SIZE },
}

impl<F: Feed> FrameReader<F> {
    ghost use Rattle.std.specs.Borrow.{sem, follows_so};
    ghost use Rattle.std.specs.Prelude.{⊤};
    ghost use mathlib.Core.Option.{none};
    ghost use Rattle.pbf_frame.specs.contracts.reader.FrameReader.{the_row};
    ghost use Rattle.pbf_frame.specs.Frames.{FrameSpec};
    ghost use Rattle.pbf_frame.specs.Verdict.{judged_known};
    ghost use Rattle.pbf_frame.specs.Reads.{IsSeen, IsWithinFile};
    ghost use Rattle.pbf_frame.specs.Sound.{IsSoundBlob};
    ghost use Rattle.pbf_frame.specs.Next.{IsSeeingNext, IsLendingNext, IsReading, Shows, place_of, had_header_of, held_by, verdict};

    /// A reader at the start of a file: the verdict on it is that on the feed's bytes. It allocates nothing before the first frame.
    pub fn new(alloc: Global, feed: F) -> Self
        ensures feed { result.feed ≡ feed }
        ensures lender { F.lender result.feed ≡ F.lender feed }
        ensures reading { IsReading result }
        ensures place { place_of result ≡ 0 }
        ensures had_header { had_header_of result ≡ false }
        ensures held { held_by result ≡ 0 }
        ensures verdict { verdict F.remaining result ≡ judged_known false 0 (F.remaining feed) }
    {
        FrameReader {
            feed,
            header: Vec::new(alloc),
            blob: Vec::new(alloc),
            place: 0,
            had_header: false,
            state: State::Reading,
        }
    }

    /// The next frame, whose bytes are left in the buffers.
    fn advance(&mut self) -> Result<Option<BufferedFrame>, Stop>
        ensures next { IsSeeingNext F.remaining F.failures F.lender F.has_passed self.old result
            self.new }
        ensures placed { IfOk result (λ o. IfSome o IsWithinFile) }
        ensures sound { IfOk result (λ o.
            IfSome o (λ seen. IsSoundBlob seen.kind seen.blob_at self.new.blob.items)) }
    {
        match self.state {
            State::Ended => return Ok(None),
            State::Stopped(stop) => return Err(stop),
            State::Reading => {}
        }
        let start = FrameStart {
            place: self.place,
            had_header: self.had_header,
        };
        let read = read_frame(&mut self.feed, &mut self.header, &mut self.blob, start);
        match read {
            Ok(Some(seen)) => {
                self.place = seen.blob_at + u64::from(seen.size);
                self.had_header = self.had_header || seen.kind == FrameKind::Header;
            }
            Ok(None) => self.state = State::Ended,
            Err(stop) => self.state = State::Stopped(stop),
        }
        read
    }

    /// The next frame, lent until the next call; `None` at the end of an input that had its header.
    ///
    /// `Refused` names the least fault of the frame. After a stop the reader is spent: it returns the same stop again and
    /// touches no device. `None` stays `None`.
    #[tactic(auto, using(crate::proofs::Advancing::lends_err, crate::proofs::Advancing::lends_some))]
    pub fn next(&mut self) -> Result<Option<Frame<'_>>, Stop>
        // The next frame of what the feed still supplies, which has no fault, and exactly its bytes are gone, however the feed cuts them; or
        // the least fault of its first faulty phase. `None` comes only at the end of an input that had its header, otherwise `NoHeader`. A
        // refusal holds of whatever begins with the bytes that were read (or of them, if the feed was at its end), whether the feed reports
        // its bytes or not. `Read` comes only if its count of failures rose. The place rises with each frame. A reader at its end, and a
        // spent one, stay so, and return the same again without touching the feed.
        ensures* after { sem 𝓛 (follows_so (the_row F.row) (the_row F.row)
            self.entry.ghost_name none (λ _ _. ⊤)
            (λ new. IsLendingNext F.remaining F.failures F.lender F.has_passed
            self.old result new)) }
    {
        let Some(seen) = self.advance()? else {
            return Ok(None);
        };
        Ok(Some(self.lend(seen)))
    }

    /// The frame whose bytes are left in the buffers.
    fn lend(&self, seen: BufferedFrame) -> Frame<'_>
        requires placed { IsWithinFile seen }
        requires sound { IsSoundBlob seen.kind seen.blob_at self.now.blob.items }
        ensures { (f : FrameSpec) → IsSeen self.now.header.items self.now.blob.items seen f
            → Shows result f }
    {
        let header = Message {
            bytes: &self.header,
            at: seen.offset + 4,
        };
        let name = occurrence_text(last_field(header, TYPE));
        let (payload, payload_at) = match seen.kind {
            FrameKind::Header | FrameKind::Data => payload_in(&self.blob, seen.blob_at),
            FrameKind::Other => (b"".as_slice(), seen.blob_at),
        };
        Frame {
            offset: seen.offset,
            kind: seen.kind,
            name,
            size: seen.size,
            payload_at,
            payload,
        }
    }

    /// The end of the last frame given, and 0 before the first; at most 2^62.
    pub fn place(&self) -> u64
        ensures value { result ≡ place_of self.now }
        ensures in_range { result ≤ FILE_LIMIT }
    {
        self.place
    }

    /// The feed, at the bytes after the last frame given. After a stop it is unspecified where the feed is.
    pub fn into_feed(self) -> F
        ensures feed { result ≡ self.feed }
        ensures lender { F.lender result ≡ F.lender self.feed }
    {
        self.feed
    }

    /// The bytes held: the lengths of the two buffers.
    pub fn held(&self) -> u64
        ensures value { result ≡ held_by self.now }
        ensures bound { result ≤ MOST_BUFFERED }
    {
        self.header.len() as u64 + self.blob.len() as u64
    }
}
