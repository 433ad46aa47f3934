//! `check`: a whole file, judged and counted.

ghost use Rattle.std.specs.Prelude.{◌≤◌, Some, IfOk, IfErr};
ghost use Rattle.pbf_pass.specs.Given.{GaveFile};
ghost use Rattle.pbf_pass.specs.Hashing.{mark_by};
ghost use Rattle.pbf_pass.specs.Judged.{judged_file};
ghost use Rattle.pbf_pass.specs.Pass.{CountsFile};
ghost use Rattle.pbf_pass.specs.Stops.{Caused, FaultOf, unchanged, ReadFailed};
ghost use Rattle.pbf_pass.specs.Refused.{EndsJudging};

use crate::hashing::PassCheck;
use crate::pass::{Nothing, judge};
use crate::receipt::{Halt, InputReceipt, Passes};
use pbf_block::Counts;
use pbf_frame::{Feed, Stop};
use std::alloc::Global;

/// Judges a whole file, and counts its entities.
///
/// `Refused` names the first fault of the file, of any phase. Reads once, and holds one frame at a time, with the places of
/// its texts.
pub fn check<F: Feed>(alloc: Global, feed: &mut F) -> Result<Counts, Stop>
    // The file has no fault of any phase, and the counts are those of the entities that it decodes to.
    ensures counted { IfOk result (CountsFile (judged_file (F.remaining feed.old))) }
    // `Refused` names the first fault of the file. `Read` comes only if the feed's count of failures rose; `Write` and `Changed` never come.
    ensures stops { IfErr result (Caused (FaultOf (judged_file (F.remaining feed.old)))
        (ReadFailed F.Feed feed.old feed.new) ⊥ unchanged) }
    // The feed's count of failures doesn't fall.
    ensures counts { F.failures feed.old ≤ F.failures feed.new }
{
    let passes = Passes {
        alloc,
        check: PassCheck::None,
    };
    Ok(check_with_receipt(passes, feed)?.counts)
}

/// Like [`check`], and returns the digest of the bytes that were validated, whether the feed reports its bytes or not.
///
/// A refusal has how many bytes were read, and their digest. The fault is the first one of every file that begins with these bytes;
/// or, if the feed was at its end, of the file that has exactly these bytes.
pub fn check_with_receipt<F: Feed>(passes: Passes, feed: &mut F) -> Result<InputReceipt, Halt>
    // The feed gave a file, of this digest by the check, to its end. It has no fault, and the counts are those of its entities.
    ensures receipt { IfOk result (λ receipt. GaveFile F.Feed feed.old feed.new
        (mark_by passes.check receipt.input)
        (λ file. CountsFile (judged_file (Some file)) receipt.counts)) }
    // However it ends: `refused` says what is refused, of the bytes that were read; `stops` why it stops; and `keeps` that it keeps its feed.
    ensures ends { EndsJudging F.Feed feed.old feed.new passes.check result }
{
    let told = judge(passes, feed, &mut Nothing)?;
    let input = told.digest;
    Ok(InputReceipt {
        counts: told.pass.counts,
        input,
        spared: false,
    })
}
