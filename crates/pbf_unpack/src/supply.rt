//! How the raw bytes are supplied.

ghost use Rattle.std.specs.Prelude.{◌≡◌, ◌+◌, ◌-◌, ◌<◌, ◌≤◌, ◌++◌, ◌==◌, [], None, length, take, drop, vec_len, IfOk, OnOk};
ghost use Rattle.pbf_frame.specs.Devices.{prepend, Passes, IsAtEnd};
ghost use Rattle.pbf_frame.specs.Reads.{FillsFrom};
ghost use Rattle.pbf_unpack.specs.declared.feed.FeedState.TheVariants as states;
ghost use Rattle.pbf_unpack.specs.Stored.{stored_by_kind, together};
ghost use Rattle.pbf_unpack.specs.Supplying.{left_in, remaining_in, refusals, HasSupplied, SuppliesTheSame, HasSupply, IsSameBut, SuppliesFrom};

use crate::buffers::Buffers;
use crate::feed::{FeedState, Origin, UnpackedFeed};
use crate::unpack::{Outcome, unpack};
use crate::whole::{Found, WholeFrame, read_whole};
use pbf_frame::{Feed, FeedFault, FrameKind, Stop};

/// Copies a prefix of some bytes, as many as there is room for.
fn copy_front(from: &[u8], buf: &mut [u8]) -> usize
    ensures bound { result ≤ length buf.old }
    ensures within { result ≤ length from.now }
    ensures bytes { take result buf.new ≡ take result from.now }
    ensures some { 0 < length from.now → 0 < length buf.old → 0 < result }
{
    let count = from.len().min(buf.len());
    buf[..count].copy_from_slice(&from[..count]);
    count
}

/// Copies bytes that are supplied, from this one on, as many as there is room for in one of the two vectors.
fn copy_left(buffers: &Buffers, done: usize, buf: &mut [u8]) -> usize
    requires { done ≤ vec_len buffers.now.front + vec_len buffers.now.raw }
    ensures bound { result ≤ length buf.old }
    ensures within { done + result ≤ vec_len buffers.now.front + vec_len buffers.now.raw }
    ensures bytes { take result buf.new
        ≡ take result (drop done (buffers.now.front.items ++ buffers.now.raw.items)) }
    ensures some { done < vec_len buffers.now.front + vec_len buffers.now.raw
        → 0 < length buf.old → 0 < result }
{
    let front = buffers.front.len();
    if done < front {
        copy_front(&buffers.front[done..], buf)
    } else {
        copy_front(buffers.raw.split_at(done - front).1, buf)
    }
}

impl<F: Feed> UnpackedFeed<F> {
    /// Whether all bytes in the buffers were supplied.
    pub(crate) fn is_spent(&self) -> bool
        ensures { result ≡ (length (left_in self.now) == 0) }
    {
        self.done == self.buffers.front.len() + self.buffers.raw.len()
    }

    /// Where the next frame comes from.
    fn next_origin(&self) -> Origin {
        let length = self.buffers.front.len() as u64 + self.buffers.raw.len() as u64;
        Origin {
            packed: self.place,
            raw: self.origin.raw.saturating_add(length),
            payload: None,
        }
    }

    /// Keeps where the frame in the buffers comes from.
    fn come_from(&mut self, from: Origin, frame: WholeFrame, outcome: Outcome)
        ensures same { IsSameBut self.old self.new }
        ensures stored { self.new.stored
            ≡ together self.old.stored (stored_by_kind frame.kind outcome) }
    {
        let mut origin = from;
        if outcome == Outcome::Unpacked {
            origin.payload = Some(from.raw.saturating_add(self.buffers.front.len() as u64));
        }
        self.origin = origin;
        self.stored = self.stored.with(frame.kind, outcome);
        if frame.kind == FrameKind::Header && self.header.is_none() {
            self.header = Some(origin);
        }
    }

    /// Reads the next frame into the buffers, unpacked, or what there is in its place.
    fn next_frame(&mut self) -> Result<(), Stop>
        requires reading { self.old.state ≡ states.Reading }
        requires spent { left_in self.old ≡ [] }
        ensures goes_on { OnOk result (SuppliesTheSame F.remaining F.has_passed self.old self.new) }
        ensures ready { OnOk result (HasSupply self.new.state (left_in self.new)) }
        ensures feed { FillsFrom F.Feed self.old.feed self.new.feed result }
    {
        let next = self.next_origin();
        self.done = 0;
        let found = read_whole(&mut self.feed, &mut self.buffers, self.place)?;
        match found {
            Found::Whole(frame) => {
                let outcome = unpack(&mut self.buffers, &mut self.inflater, frame)?;
                self.fault = self.fault.or(outcome.fault());
                self.place = frame.end;
                self.come_from(next, frame, outcome);
            }
            Found::Unfit => {
                self.buffers.stand();
                self.state = FeedState::PassingOn;
                self.origin = next;
            }
            Found::Cut => {
                self.buffers.stand();
                self.state = FeedState::Ended;
                self.origin = next;
            }
        }
        Ok(())
    }

    /// Makes sure that there are bytes in the buffers, if there are any left.
    fn make_ready(&mut self) -> Result<(), Stop>
        ensures goes_on { OnOk result (SuppliesTheSame F.remaining F.has_passed self.old self.new) }
        ensures ready { OnOk result (HasSupply self.new.state (left_in self.new)) }
        ensures feed { SuppliesFrom F.Feed self.old self.new result }
    {
        if self.state == FeedState::Refused {
            return Err(Stop::Memory);
        }
        if self.state == FeedState::Reading && self.is_spent() {
            self.next_frame()?;
        }
        Ok(())
    }

    /// Supplies bytes of those in the buffers.
    fn give(&mut self, buf: &mut [u8]) -> usize
        ensures bound { result ≤ length buf.old }
        ensures left { left_in self.old ≡ take result buf.new ++ left_in self.new }
        ensures some { 0 < length (left_in self.old) → 0 < length buf.old → 0 < result }
        ensures feed { self.new.feed ≡ self.old.feed }
        ensures state { self.new.state ≡ self.old.state }
        ensures place { self.new.place ≡ self.old.place }
        ensures fault { self.new.fault ≡ self.old.fault }
        ensures stored { self.new.stored ≡ self.old.stored }
    {
        let count = copy_left(&self.buffers, self.done, buf);
        self.done += count;
        count
    }

    /// A read of the feed below failed: what was read of a frame is dropped, and what follows is passed on.
    fn pass_on(&mut self)
        ensures feed { self.new.feed ≡ self.old.feed }
        ensures state { self.new.state ≡ states.Failed }
    {
        self.buffers.drop_supplied();
        self.done = 0;
        self.state = FeedState::Failed;
    }

    /// The end was reached: no memory is held for frames any more, since other passes may follow.
    fn free_buffers(&mut self)
        requires { left_in self.old ≡ [] }
        ensures left { left_in self.new ≡ [] }
        ensures feed { self.new.feed ≡ self.old.feed }
        ensures state { self.new.state ≡ self.old.state }
        ensures place { self.new.place ≡ self.old.place }
        ensures fault { self.new.fault ≡ self.old.fault }
        ensures stored { self.new.stored ≡ self.old.stored }
    {
        self.buffers.free();
        self.done = 0;
    }

    /// Supplies bytes, none only at the end.
    fn supply(&mut self, buf: &mut [u8]) -> Result<usize, Stop>
        ensures bound { IfOk result (λ n. n ≤ length buf.old) }
        ensures bytes { IfOk result (λ n. remaining_in F.remaining self.old
            ≡ prepend (take n buf.new) (remaining_in F.remaining self.new)) }
        ensures end { IfOk result (λ n. n ≡ 0 → 0 < length buf.old
            → IsAtEnd (remaining_in F.remaining self.old)) }
        ensures passed { IfOk result (λ n. Passes (HasSupplied F.remaining F.has_passed self.old)
            (take n buf.new) (HasSupplied F.remaining F.has_passed self.new)) }
        ensures feed { SuppliesFrom F.Feed self.old self.new result }
    {
        self.make_ready()?;
        if !self.is_spent() {
            return Ok(self.give(buf));
        }
        if self.state == FeedState::PassingOn || self.state == FeedState::Failed {
            return Ok(self.feed.read(buf)?);
        }
        self.free_buffers();
        Ok(0)
    }
}

impl<F: Feed> Feed for UnpackedFeed<F> {
    ghost remaining = { λ u. remaining_in F.remaining u };

    ghost failures = { λ u. refusals u.state + F.failures u.feed };

    ghost lender = { λ u. F.lender u.feed };

    ghost has_passed = { λ u log bytes. HasSupplied F.remaining F.has_passed u log bytes };

    fn read(&mut self, buf: &mut [u8]) -> Result<usize, FeedFault> {
        match self.supply(buf) {
            Ok(count) => Ok(count),
            Err(Stop::Memory) => {
                self.state = FeedState::Refused;
                Err(FeedFault)
            }
            Err(_) => {
                self.pass_on();
                Err(FeedFault)
            }
        }
    }
}
