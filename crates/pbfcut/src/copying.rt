//! A file that is judged, and then copied as it is.

ghost use Rattle.std.specs.Prelude.{◌≡◌, [], ◌∷◌, Some, List, ℕ, IfOk, IfErr, OnErr};
ghost use Rattle.pbf_frame.specs.Devices.{IsFront};
ghost use Rattle.pbf_frame.specs.Keeps.{KeepsDrain, KeepsFeed};
ghost use Rattle.pbf_pass.specs.Given.{GaveFile, Took};
ghost use Rattle.pbf_pass.specs.Hashing.{mark_by};
ghost use Rattle.pbf_pass.specs.Judged.{judged_file};
ghost use Rattle.pbf_pass.specs.Pass.{CountsFile};
ghost use Rattle.pbf_pass.specs.Stops.{Caused, ReadFailed, WriteFailed, unchanged};
ghost use Rattle.pbfcut.specs.Calls.{AllSupply, drained, fed};
ghost use Rattle.pbfcut.specs.Copying.{Copied, CopiesAgain, IsAllOrLong};
ghost use Rattle.pbfcut.specs.Ends.{EndsPasses};

use crate::repeat::LaterPass;
use pbf_frame::{Drain, FILE_LIMIT, Feed, Stop, write_all};
use pbf_pass::{Halt, InputReceipt, Nothing, PassFeed, Passes, judge};

/// How many bytes are read at once: few enough for a thread with a small stack.
const ROOM: usize = 16_384;

/// Copies what a feed has. Returns false once it has given more than the longest file has.
fn copy_rest<F: Feed, D: Drain>(feed: &mut F, drain: &mut D) -> Result<bool, Stop>
    ensures copied { IfOk result (λ all.
        (copied : Copied F.Feed feed.old feed.new D.Drain drain.old drain.new)
        × IsAllOrLong all (F.remaining feed.new) copied.bytes) }
    ensures front { (all : List ℕ) → F.remaining feed.old ≡ Some all
        → IsFront (D.taken drain.old) (D.taken drain.new) all }
    ensures stops { IfErr result (Caused (λ e. ⊥) (ReadFailed F.Feed feed.old feed.new)
        (WriteFailed D.Drain drain.old drain.new) unchanged) }
    ensures keeps { KeepsFeed F.Feed feed.old feed.new × KeepsDrain D.Drain drain.old drain.new }
{
    let mut room = [0; ROOM];
    let mut done: u64 = 0;
    'done: while done <= FILE_LIMIT {
        let count = feed.read(&mut room)?;
        if count == 0 {
            return Ok(true);
        }
        write_all(drain, &room[..count])?;
        done += count as u64;
    }
    Ok(false)
}

/// Copies what a later feed has, whose bytes have to be those of the first pass.
fn copy_again<F: Feed, D: Drain>(again: LaterPass, feed: &mut F, drain: &mut D) -> Result<(), Stop>
    ensures { CopiesAgain (fed F.Feed feed.old feed.new)
        (drained D.Drain drain.old drain.new) again result }
{
    let mut passing = PassFeed::new(&mut *feed, again.passes.check);
    let outcome = copy_rest(&mut passing, drain);
    let digest = passing.digest();
    // What is known of the feed comes back with the reference itself.
    let _feed = passing.into_inner();
    if outcome? {
        again.compare(digest)
    } else {
        Err(Stop::Changed(again.number))
    }
}

/// Judges a file, and then writes its bytes as they are.
///
/// Both feeds have to supply the same bytes. The first is judged as a whole before anything is written: `Refused` names its first fault,
/// of any phase. The second is copied. `Changed(2)` says that it had another digest, or more bytes than any file has. Holds one frame at a
/// time, with the places of its texts, or 16,384 bytes.
pub fn copy_with_receipt<F: Feed, G: Feed, D: Drain>(
    passes: Passes,
    first: &mut F,
    second: &mut G,
    drain: &mut D,
) -> Result<InputReceipt, Halt>
    // Each feed gave a file, of the digest `input` by the check, to its end. The first has no fault, and the counts are those of
    // its entities. The drain took exactly the second.
    ensures receipt { IfOk result (λ receipt. GaveFile F.Feed first.old first.new
        (mark_by passes.check receipt.input)
        (λ b. CountsFile (judged_file (Some b)) receipt.counts
        × GaveFile G.Feed second.old second.new (mark_by passes.check receipt.input)
        (λ c. Took D.Drain drain.old drain.new (λ written. written ≡ c)))) }
    // However it ends: `refused` says what is refused, of the bytes that were read, and that the drain took nothing then; `stops` why it
    // stops; `changed` of what bytes it says `Changed`; and `feeds` and `out` that it keeps its devices.
    ensures ends { EndsPasses judged_file (fed F.Feed first.old first.new)
        (fed G.Feed second.old second.new ∷ [])
        (drained D.Drain drain.old drain.new) passes.check result }
    // Whatever stopped it, if both feeds supply these bytes, a prefix of them went out.
    ensures beginning { OnErr result ((b : List ℕ)
        → AllSupply b (F.remaining first.old ∷ G.remaining second.old ∷ [])
        → IsFront (D.taken drain.old) (D.taken drain.new) b) }
{
    let judged = judge(passes, first, &mut Nothing)?;
    let input = judged.digest;
    let again = LaterPass {
        number: 2,
        digest: input,
        passes,
    };
    copy_again(again, second, drain)?;
    Ok(InputReceipt {
        counts: judged.pass.counts,
        input,
        spared: false,
    })
}
