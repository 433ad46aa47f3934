//! `show`, `info` and `blobs` of published files.

ghost use Rattle.std.specs.Prelude.{◌≡◌, IfOk, IfErr, OnErr, OnOk, false};
ghost use Rattle.pbf_frame.specs.Verdict.{judged_known};
ghost use Rattle.pbf_pass.specs.Given.{Took};
ghost use Rattle.pbfcut.specs.Listing.{Lists, ListsFront, ListsToFault};
ghost use Rattle.pbfcut.specs.Summary.{counts_line, counts_object, judged_headings};
ghost use Rattle.pbf_pass.specs.Stops.{Caused, FaultOf, ReadFailed, WriteFailed, unchanged};
ghost use Rattle.pbf_published.specs.Showing.{TellsInfo, info_lines, info_object, storage, summary_text};
ghost use Rattle.pbf_published.specs.Published.{RefusedRaw, raw_of};

use crate::input::{PublishedHalt, close, lacks_memory, open, stopped};
use pbf_frame::{Drain, Feed, Stop, write_all};
use pbf_pass::PassCheck;
use pbf_unpack::Stored;
use pbfcut::{Summary, put_counts, put_counts_object};
use std::alloc::{AllocError, Global};

/// How blobs are stored, in quotation marks.
fn storage(stored: Stored) -> &'static [u8]
    ensures { result.now ≡ storage stored }
{
    if !stored.packed {
        return b"\"raw\"";
    }
    if stored.raw {
        b"\"mixed\""
    } else {
        b"\"zlib\""
    }
}

/// What is said of a file, as lines.
fn info_lines(alloc: Global, summary: &Summary, stored: Stored) -> Result<Vec<u8>, AllocError>
    ensures { IfOk result (λ text. text.items ≡ info_lines summary.now.lines.items stored
        (counts_line summary.now.headers summary.now.blocks summary.now.others)) }
{
    let mut text = Vec::new(alloc);
    text.extend_from_slice(&summary.lines)?;
    text.extend_from_slice(b"H stored ")?;
    text.extend_from_slice(storage(stored))?;
    text.push(b'\n')?;
    put_counts(&mut text, summary)?;
    Ok(text)
}

/// What is said of a file, as an object of JSON.
fn info_object(alloc: Global, summary: &Summary, stored: Stored) -> Result<Vec<u8>, AllocError>
    ensures { IfOk result (λ text. text.items ≡ info_object summary.now.members.items stored
        (counts_object summary.now.headers summary.now.blocks summary.now.others)) }
{
    let mut text = Vec::new(alloc);
    text.push(b'{')?;
    text.extend_from_slice(&summary.members)?;
    text.extend_from_slice(b"\"stored\":")?;
    text.extend_from_slice(storage(stored))?;
    text.extend_from_slice(b",\"frames\":")?;
    put_counts_object(&mut text, summary)?;
    text.extend_from_slice(b"}\n")?;
    Ok(text)
}

/// What is said of a file.
fn info_text(
    alloc: Global,
    summary: &Summary,
    stored: Stored,
    json: bool,
) -> Result<Vec<u8>, AllocError>
    ensures { IfOk result (λ text. text.items ≡ summary_text json summary.now stored) }
{
    if json {
        info_object(alloc, summary, stored)
    } else {
        info_lines(alloc, summary, stored)
    }
}

/// Reads a published file, and returns what is said of it.
fn read_info<F: Feed>(alloc: Global, feed: &mut F, json: bool) -> Result<Vec<u8>, PublishedHalt>
    ensures told { IfOk result (λ text. TellsInfo json (F.remaining feed.old) text.items) }
    ensures stops { IfErr result (λ h. Caused
        (FaultOf (judged_headings (raw_of (F.remaining feed.old))))
        (ReadFailed F.Feed feed.old feed.new) ⊥ unchanged h.stop) }
{
    let mut input = open(alloc, &mut *feed, PassCheck::None)?;
    let outcome = pbfcut::read_summary(alloc, &mut input);
    let stored = input.stored();
    match outcome {
        Ok(summary) => Ok(info_text(alloc, &summary, stored, json)?),
        Err(stop) => {
            let halt = stopped(stop, &input, lacks_memory(&input));
            // What is known of the feed comes back with the reference itself.
            let _feed = close(input);
            Err(halt)
        }
    }
}

/// Writes the lines of the first header of a published file, how its blobs are stored, and how many frames it has of each type; with
/// `json` the same as one object of JSON.
///
/// Nothing is written of a file that is refused: by the first fault of its frames or of its header, whose place is that in the
/// published file. What other frames hold is not judged. Reads once, and holds one packed frame and two raw ones.
pub fn show_info<F: Feed, D: Drain>(
    alloc: Global,
    feed: &mut F,
    drain: &mut D,
    json: bool,
) -> Result<(), PublishedHalt>
    // The drain took what is to be said of the frames of the raw file that the feed's bytes mean, and of how their blobs are stored.
    ensures shown { OnOk result (Took D.Drain drain.old drain.new
        (TellsInfo json (F.remaining feed.old))) }
    // Each stop has its cause. What is refused is that raw file, for the first fault of its frames and its header, and the drain took
    // nothing. `Read` and `Write` come only if a count of failures rose: of the feed, of the drain; `Changed` never comes.
    ensures stops { IfErr result (λ h. Caused (RefusedRaw
        (judged_headings (raw_of (F.remaining feed.old))) D.Drain drain.old drain.new)
        (ReadFailed F.Feed feed.old feed.new) (WriteFailed D.Drain drain.old drain.new)
        unchanged h.stop) }
{
    let text = read_info(alloc, feed, json)?;
    match write_all(drain, &text) {
        Ok(()) => Ok(()),
        Err(_) => Err(PublishedHalt::from(Stop::Write)),
    }
}

/// Writes one line for each frame of the raw file that a published one means, as `list_blobs` of pbfcut does for a raw file. So the
/// places and the sizes of blobs are those of the raw file.
///
/// A refusal has the place of the fault in the published file. Reads once, and holds one packed frame and two raw ones.
pub fn list_blobs<F: Feed, D: Drain>(
    alloc: Global,
    feed: &mut F,
    drain: &mut D,
) -> Result<u64, PublishedHalt>
    // The raw file that the feed's bytes mean has no frame fault, and the drain took exactly the lines of its frames; their number is
    // returned.
    ensures listed { IfOk result (Lists D.Drain drain.old drain.new
        (judged_known false 0 (raw_of (F.remaining feed.old)))) }
    // Each stop has its cause. If it is refused, all the lines of the frames before the fault went out. `Read` and `Write` come only if
    // a count of failures rose: of the feed, of the drain; `Changed` never comes.
    ensures stops { IfErr result (λ h. Caused (ListsToFault D.Drain drain.old drain.new
        (judged_known false 0 (raw_of (F.remaining feed.old)))) (ReadFailed F.Feed feed.old feed.new)
        (WriteFailed D.Drain drain.old drain.new) unchanged h.stop) }
    // Whatever stopped it, a prefix of the lines of the frames before the first fault went out.
    ensures beginning { OnErr result (ListsFront D.Drain drain.old drain.new
        (judged_known false 0 (raw_of (F.remaining feed.old)))) }
{
    let mut input = open(alloc, &mut *feed, PassCheck::None)?;
    let outcome = pbfcut::list_blobs(alloc, &mut input, drain);
    match outcome {
        Ok(frames) => Ok(frames),
        Err(stop) => {
            let halt = stopped(stop, &input, lacks_memory(&input));
            // What is known of the feed comes back with the reference itself.
            let _feed = close(input);
            Err(halt)
        }
    }
}
