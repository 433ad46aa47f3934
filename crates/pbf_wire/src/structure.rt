//! The structure of messages: fields that are absent or come twice, and how many numbers a column has.
//!
//! A message of which these calls read one field may have a wire fault; its fields before the fault count.

ghost use Rattle.std.specs.Prelude.{◌≡◌};
ghost use Rattle.pbf_wire.specs.Least.{least};
ghost use Rattle.pbf_wire.specs.Faults.{found_in, missing, twice, column_count};

use crate::fault::{Fault, Reason};
use crate::judge::fault_where;
use crate::least::lesser;
use crate::message::Message;

/// `Missing` at `place`, if the message has no field of this number.
pub fn judge_missing(message: Message<'_>, place: u64, number: u64) -> Option<Fault>
    ensures { result ≡ least (missing number place (found_in message.entry)) }
{
    let is_there = message.found().any(|field| field.number == number);
    fault_where(!is_there, place, Reason::Missing(number))
}

/// `TwiceMessage` at the least of the occurrences after the first.
#[tactic(auto, using(crate::proofs::FaultLemmas::least_next, crate::proofs::LeastLemmas::lesser_nothing))]
pub fn judge_twice(message: Message<'_>, number: u64) -> Option<Fault>
    ensures { result ≡ least (twice number (found_in message.entry)) }
{
    let mut least = None;
    let mut seen = false;
    for field in message.found() {
        if field.number == number {
            if seen {
                let twice = Fault {
                    offset: field.offset,
                    reason: Reason::TwiceMessage,
                };
                least = lesser(least, Some(twice));
            }
            seen = true;
        }
    }
    least
}

/// How many numbers a column has, in all of its occurrences. No packed payload is decoded: the bytes that end a varint are
/// counted, many at once.
#[tactic(auto, using(crate::proofs::FaultLemmas::count_short))]
pub fn column_count(message: Message<'_>, number: u64) -> usize
    ensures { result ≡ column_count number (found_in message.entry) }
{
    let mut count = 0;
    for field in message.found() {
        if field.number == number {
            count += field.payload.count();
        }
    }
    count
}
