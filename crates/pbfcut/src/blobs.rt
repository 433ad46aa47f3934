//! `blobs`: a line for each frame.

ghost use Rattle.std.specs.Prelude.{◌∷◌, false, None, ◌≡◌, ◌++◌, IfOk, IfErr, OnOk, OnErr};
ghost use Rattle.pbf_frame.specs.Devices.{IsFront};
ghost use Rattle.pbf_frame.specs.Transfers.{Added};
ghost use Rattle.pbf_frame.specs.Verdict.{judged_known};
ghost use Rattle.pbfcut.specs.Blobs.{lent_line, shown_name, shown_length};
ghost use Rattle.pbfcut.specs.Listing.{Lists, ListsFront, ListsToFault, ListsNext, StopsListing};
ghost use Rattle.pbf_pass.specs.Stops.{Caused, Only, unchanged, ReadFailed, WriteFailed};
ghost use Rattle.pbf_frame.specs.Keeps.{KeepsDrain, KeepsFeed};

use osm_text::{put_number, put_quoted};
use pbf_frame::{Drain, Feed, Frame, FrameKind, FrameReader, Stop, write_all};
use pbf_pass::{Visit, visit_rest};
use std::alloc::{AllocError, Global};

/// Appends the type of a frame: as it is if it is known, otherwise in quotation marks.
fn put_name(out: &mut Vec<u8>, kind: FrameKind, name: &[u8]) -> Result<(), AllocError>
    ensures { OnOk result (out.new.items ≡ out.old.items ++ shown_name kind name.now) }
{
    match kind {
        FrameKind::Header | FrameKind::Data => out.extend_from_slice(name)?,
        FrameKind::Other => put_quoted(out, name)?,
    }
    Ok(())
}

/// Appends the length of a payload, or that its blob is not read.
fn put_length(out: &mut Vec<u8>, kind: FrameKind, length: u64) -> Result<(), AllocError>
    ensures { OnOk result (out.new.items ≡ out.old.items ++ shown_length kind length) }
{
    match kind {
        FrameKind::Header | FrameKind::Data => put_number(out, length)?,
        FrameKind::Other => out.extend_from_slice(b"skipped")?,
    }
    Ok(())
}

/// Appends the line of a frame.
fn put_line(out: &mut Vec<u8>, frame: &Frame<'_>) -> Result<(), AllocError>
    ensures { OnOk result (out.new.items ≡ out.old.items ++ lent_line frame.now) }
{
    put_number(out, frame.offset)?;
    out.push(b' ')?;
    put_name(out, frame.kind, frame.name)?;
    out.push(b' ')?;
    put_number(out, u64::from(frame.size))?;
    out.push(b' ')?;
    put_length(out, frame.kind, frame.payload.len() as u64)?;
    out.push(b'\n')?;
    Ok(())
}

/// Writes the line of a frame, which is put together in `text`, so that it is one write.
fn write_line<D: Drain>(frame: &Frame<'_>, text: &mut Vec<u8>, drain: &mut D) -> Result<(), Stop>
    ensures listed { OnOk result (Added D.Drain drain.old (lent_line frame.now) drain.new) }
    ensures front { IsFront (D.taken drain.old) (D.taken drain.new) (lent_line frame.now) }
    ensures stops { IfErr result
        (Caused (Only None) ⊥ (WriteFailed D.Drain drain.old drain.new) unchanged) }
    ensures keeps { KeepsDrain D.Drain drain.old drain.new }
{
    text.clear();
    put_line(text, frame)?;
    write_all(drain, text)?;
    Ok(())
}

/// Writes the lines of frames.
#[derive(Drop)]
struct Listing<'a, D> {
    /// What a line is put together in.
    text: &'a mut Vec<u8>,
    drain: &'a mut D,
}

impl<D: Drain> Visit for Listing<'_, D> {
    ghost took = { λ old f new. ListsNext D.Drain old.drain.now new.drain.now f };

    ghost failed = { λ old f new stop. StopsListing D.Drain old.drain.now new.drain.now f stop };

    ghost lender = { λ v. v.drain.ghost_name ∷ D.lender v.drain.now };

    fn visit(&mut self, _alloc: Global, frame: &Frame<'_>) -> Result<(), Stop> {
        write_line(frame, self.text, self.drain)
    }
}

/// Writes one line for each frame, and returns how many frames there are: the frame's place, its type, the size of its blob
/// and the length of its payload, with single spaces between. A blob of another type than `OSMHeader` and `OSMData` has its
/// type in quotation marks, and `skipped` for the length.
///
/// `Refused` names the first fault of the frames, phases of payloads left out; the lines of the frames before it are written
/// then. Whatever fails, what was written is a prefix of the lines. Reads once, and holds one frame at a time.
pub fn list_blobs<F: Feed, D: Drain>(
    alloc: Global,
    feed: &mut F,
    drain: &mut D,
) -> Result<u64, Stop>
    // The file has no frame fault, and the drain took exactly the lines of its frames; their number is returned.
    ensures listed { IfOk result (Lists D.Drain drain.old drain.new
        (judged_known false 0 (F.remaining feed.old))) }
    // Whatever stopped it, a prefix of the lines of the frames before the first fault went out.
    ensures beginning { OnErr result (ListsFront D.Drain drain.old drain.new
        (judged_known false 0 (F.remaining feed.old))) }
    // `Refused` names the first frame fault, and all the lines of the frames before it went out. `Read` and `Write` come only if the count
    // of failures of the feed, of the drain, rose; `Changed` never comes.
    ensures stops { IfErr result (Caused
        (ListsToFault D.Drain drain.old drain.new (judged_known false 0 (F.remaining feed.old)))
        (ReadFailed F.Feed feed.old feed.new) (WriteFailed D.Drain drain.old drain.new) unchanged) }
    // The feed keeps its references, and its count of failures doesn't fall.
    ensures keeps { KeepsFeed F.Feed feed.old feed.new }
{
    let mut text = Vec::new(alloc);
    let mut listing = Listing {
        text: &mut text,
        drain,
    };
    let mut reader = FrameReader::new(alloc, &mut *feed);
    let outcome = visit_rest(alloc, &mut reader, &mut listing);
    // What is known of the feed comes back with the reference itself.
    let _feed = reader.into_feed();
    Ok(outcome?)
}
