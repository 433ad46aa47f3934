//! What a feed of unpacked bytes says of itself.

ghost use Rattle.std.specs.Prelude.{◌≡◌, ◌+◌, ◌*◌, ◌≤◌, ℕ, List, [], None, Some, true};
ghost use Rattle.std.specs.Option.{option_map};
ghost use Rattle.pbf_frame.specs.declared.header.TheConstants.{HEADER_LIMIT, LARGEST_SIZE};
ghost use Rattle.pbf_unpack.specs.Reports.{stop_in, has_all, GavePacked, held_by_feed};
ghost use Rattle.pbf_unpack.specs.Supplying.{remaining_in, refusals, HasSupplied};
ghost use Rattle.pbf_unpack.specs.Unpacked.{unpacked};

use crate::buffers::Buffers;
use crate::fault::UnpackFault;
use crate::feed::{FeedState, Origin, UnpackedFeed};
use crate::stored::Stored;
use pbf_frame::{Feed, Stop};
use std::alloc::Global;
use zlib::Inflater;

/// Where a byte of the raw file comes from.
#[derive(Clone, Copy, Debug, PartialEq, Eq)]
pub enum Place {
    /// This byte of the packed file, or a frame that begins there and was rewritten.
    Byte(u64),
    /// Of the frame that begins at the first place in the packed file, this byte of the payload.
    InPayload(u64, u64),
}

/// A feed that has a digest of what it gave.
pub trait DigestFeed: Feed {
    /// It returned this digest, and was left so.
    ghost digested: { Self → Self → List ℕ → Type 0 };

    /// The digest of what it gave. Another digest is begun.
    fn digest(&mut self) -> [u8; 32]
        ensures { digested self.old self.new result };
}

impl<F: Feed> UnpackedFeed<F> {
    /// A feed over one at the start of a file. It has supplied nothing, by each log, and if the feed below reports its bytes, it
    /// reports the raw file that they mean. It does not allocate before the first frame.
    pub fn new(alloc: Global, inflater: Inflater, feed: F) -> Self
        ensures feed { result.feed ≡ feed }
        ensures lender { F.lender result.feed ≡ F.lender feed }
        ensures remaining { remaining_in F.remaining result
            ≡ option_map unpacked (F.remaining feed) }
        ensures supplied { (log : ℕ) → F.has_passed feed log []
            → HasSupplied F.remaining F.has_passed result log [] }
        ensures fault { result.fault ≡ None }
        ensures failures { refusals result.state ≡ 0 }
        ensures all { has_all result ≡ true }
    {
        UnpackedFeed {
            feed,
            inflater,
            buffers: Buffers::new(alloc),
            done: 0,
            place: 0,
            state: FeedState::Reading,
            fault: None,
            stored: Stored::none(),
            origin: Origin {
                packed: 0,
                raw: 0,
                payload: None,
            },
            header: None,
        }
    }

    /// The first fault of zlib data in what was read, with its place in the packed file.
    pub fn fault(&self) -> Option<UnpackFault>
        ensures { result ≡ self.now.fault }
    {
        self.fault
    }

    /// How the blobs are stored that were read. Once nothing is reported to be left these are those of the file.
    pub fn stored(&self) -> Stored
        ensures value { result ≡ self.now.stored }
        ensures gave { (log : ℕ) (raw : List ℕ) → remaining_in F.remaining self.now ≡ Some []
            → HasSupplied F.remaining F.has_passed self.now log raw
            → GavePacked F.remaining F.has_passed self.now log raw }
    {
        self.stored
    }

    /// Why a read failed, once one did: `Read` if one of the feed below did, `Memory` if memory was refused.
    pub fn stop(&self) -> Option<Stop>
        ensures { result ≡ stop_in self.now.state }
    {
        match self.state {
            FeedState::Failed => Some(Stop::Read),
            FeedState::Refused => Some(Stop::Memory),
            FeedState::Reading | FeedState::PassingOn | FeedState::Ended => None,
        }
    }

    /// Whether nothing is left in the buffers: then what was supplied is exactly what the packed bytes mean that passed below, and
    /// [`fault`](Self::fault) is their first fault.
    pub fn has_given_all(&self) -> bool
        ensures value { result ≡ has_all self.now }
        ensures gave { (log : ℕ) (raw : List ℕ) → result ≡ true
            → HasSupplied F.remaining F.has_passed self.now log raw
            → GavePacked F.remaining F.has_passed self.now log raw }
    {
        self.stop().is_none() && self.is_spent()
    }

    /// The bytes held, beside the tables of the [`Inflater`], 256 KiB: one packed frame and a raw one, at most 67,241,984.
    pub fn held(&self) -> u64
        ensures value { result ≡ held_by_feed self.now }
        ensures bound { result ≤ 2 * (LARGEST_SIZE + HEADER_LIMIT + 1) }
    {
        self.buffers.held()
    }

    /// The feed below.
    pub fn into_feed(self) -> F
        ensures feed { result ≡ self.feed }
        ensures lender { F.lender result ≡ F.lender self.feed }
    {
        self.feed
    }
}

impl<F: DigestFeed> UnpackedFeed<F> {
    /// The digest of the packed bytes: that of what the feed below gave.
    pub fn digest(&mut self) -> [u8; 32]
        ensures { F.digested self.old.feed self.new.feed result }
    {
        self.feed.digest()
    }
}
