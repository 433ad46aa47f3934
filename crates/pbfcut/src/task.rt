//! One call for every task, over a list of feeds: one for each pass.

ghost use Rattle.std.specs.Prelude.{◌≡◌, length};
ghost use Rattle.pbfcut.specs.Calls.{drained, used};
ghost use Rattle.pbfcut.specs.TaskCalls.{DoesTask};
ghost use Rattle.pbfcut.specs.Tasks.{Task, passes_of, plain_task};

use crate::converting::convert_with_receipt;
use crate::copying::copy_with_receipt;
use crate::showing::show_with_receipt;
use pbf_frame::{Drain, Feed};
use pbf_pass::{Halt, InputReceipt, Passes, check_with_receipt};
use std::hash::BuildHasher;

/// What is done with a file: a [`PlainTask`], or an extract, such as [`CompleteWays`](crate::CompleteWays).
pub trait FileTask {
    /// What the task means.
    ghost task: { Self → Task };

    /// How many feeds the task takes.
    fn pass_count(&self) -> usize
        ensures { result ≡ passes_of (task self.now) };

    /// Does the task. All feeds have to supply the same file. Each is read in one pass, in their order; but if the first pass of an extract was
    /// enough, nothing is read of the feeds between the first and the last.
    ///
    /// The first feed's file is judged as a whole before anything is written: a refusal names its first fault. `Changed(n)` says that the feed
    /// of pass n gave other bytes than the first. Space: what the call for the task needs.
    fn run<F: Feed, D: Drain, S: BuildHasher + Drop>(
        self,
        passes: Passes,
        feeds: &mut [F],
        drain: &mut D,
        hasher: S,
    ) -> Result<InputReceipt, Halt>
        requires { length feeds.old ≡ passes_of (task self) }
        // Each feed gave a file, of the digest `input` by the check, to its end, unless it was spared. What the task means holds of these files,
        // the counts and the bytes that the drain took. However it ends: what is refused, why it stops, what went out by then, and that the
        // devices are kept.
        ensures { DoesTask (task self) (used F.Feed feeds.old feeds.new)
            (drained D.Drain drain.old drain.new) passes.check result };
}

/// A task that needs no area. Each is done by the call that it names.
#[derive(Clone, Copy, Debug)]
pub enum PlainTask {
    /// [`check_with_receipt`]: one feed, and nothing is written.
    Check,
    /// [`show_with_receipt`]: two feeds.
    Show { dates: bool },
    /// [`convert_with_receipt`]: two feeds.
    Convert,
    /// [`copy_with_receipt`]: two feeds.
    Copy,
}

impl FileTask for PlainTask {
    ghost task = { plain_task };

    fn pass_count(&self) -> usize {
        match *self {
            PlainTask::Check => 1,
            PlainTask::Show { .. } | PlainTask::Convert | PlainTask::Copy => 2,
        }
    }

    fn run<F: Feed, D: Drain, S: BuildHasher + Drop>(
        self,
        passes: Passes,
        feeds: &mut [F],
        drain: &mut D,
        hasher: S,
    ) -> Result<InputReceipt, Halt> {
        let (one, two) = feeds.split_at_mut(1);
        match self {
            PlainTask::Check => check_with_receipt(passes, &mut one[0]),
            PlainTask::Show { dates } => {
                show_with_receipt(passes, &mut one[0], &mut two[0], drain, dates)
            }
            PlainTask::Convert => {
                convert_with_receipt(passes, &mut one[0], &mut two[0], drain, hasher)
            }
            PlainTask::Copy => copy_with_receipt(passes, &mut one[0], &mut two[0], drain),
        }
    }
}
