//! The wire form of messages: the kinds of the fields that are known, and the least fault of a message and of those in it.
//!
//! What judges a message is inlined: so the loop over the fields of each message knows their kinds, and takes no call for a field.

ghost use Rattle.std.specs.Prelude.{◌≡◌, ◌+◌, ◌≤◌, [], IsTrue, None, Ok, Err, length};
ghost use Rattle.pbf_wire.specs.Occurrence.{items};
ghost use Rattle.pbf_wire.specs.Payload.{content};
ghost use Rattle.pbf_wire.specs.Columns.{entries, entry_fault};
ghost use Rattle.pbf_wire.specs.Least.{least};
ghost use Rattle.pbf_wire.specs.Wire.{kind_of, reason_in, wire, ok_unless};
ghost use Rattle.pbf_wire.specs.Faults.{message_faults, leaf_faults, nested_faults};
ghost use Rattle.pbf_wire.specs.declared.limits.TheConstants.{OFFSET_LIMIT};

use crate::fault::{Fault, Reason};
use crate::field::{Field, Payload};
use crate::judge::{InField, Judge, JudgeMessage, refuse};
use crate::kind::Kind;
use crate::least::lesser;
use crate::message::Message;
use crate::short::is_short;
use crate::varint::first_varint;

/// Of so few bytes none begins a varint that is too long.
const FEW_BYTES: usize = 9;

/// Whether a quick test shows that the bytes are whole varints: they are few and the last one ends a varint, as in most columns, or the
/// numbers are short throughout.
#[tactic(auto, using(crate::proofs::ShortLemmas::few_bytes, crate::proofs::ShortLemmas::short_column))]
fn are_whole(packed: &[u8]) -> bool
    ensures { IsTrue result → entry_fault (entries packed.now) ≡ None }
{
    let Some(last) = packed.last() else {
        return false;
    };
    packed.len() <= FEW_BYTES && *last < 128 || is_short(packed)
}

/// Whether the bytes are whole varints.
fn judge_packed(packed: &[u8]) -> Result<(), Reason>
    ensures { result ≡ ok_unless (entry_fault (entries packed.now)) }
{
    if are_whole(packed) {
        return Ok(());
    }
    let mut rest = packed;
    while !rest.is_empty() {
        let (_, length) = first_varint(rest)?;
        rest = &rest[length..];
    }
    Ok(())
}

/// The kind of a field, if it is listed; the first, if it is listed twice. Looks through the list from its start.
pub fn kind_of(kinds: &[(u64, Kind)], number: u64) -> Option<Kind>
    ensures { result ≡ kind_of kinds.now number }
{
    let (_, kind) = kinds.iter().find(|(known, _)| *known == number)?;
    Some(*kind)
}

/// Whether a field of this kind may have this payload: any payload if the kind is not known. The errors are `WrongType`,
/// and for a packed column `VarintCut` or `VarintLong`, that of its first varint that fails.
#[inline(always)]
pub fn judge_payload(payload: Payload<'_>, kind: Option<Kind>) -> Result<(), Reason>
    ensures { result ≡ ok_unless (reason_in kind (content payload.entry)) }
{
    match (kind, payload) {
        (None, _) => Ok(()),
        (Some(Kind::Number | Kind::Column), Payload::Number(_)) => Ok(()),
        (Some(Kind::Bytes), Payload::Bytes(..)) => Ok(()),
        (Some(Kind::Column), Payload::Bytes(bytes, _)) => judge_packed(bytes),
        _ => Err(Reason::WrongType),
    }
}

/// The least wire fault of a message. `kinds` lists its known fields by their numbers; others may have any wire type. `inner`
/// judges the messages that its fields hold. After a field with a fault of its own nothing is read.
#[inline(always)]
#[tactic(auto, using(crate::proofs::LeastLemmas::least_more, crate::proofs::LeastLemmas::lesser_nothing))]
pub fn judge_form<J: Judge>(message: Message<'_>, kinds: &[(u64, Kind)], inner: &J) -> Option<Fault>
    ensures { result ≡ least (message_faults kinds.now (J.faults inner.now)
        (items message.entry.at message.entry.bytes.now)) }
{
    let mut least = None;
    for item in message.fields() {
        let field = match item {
            Ok(field) => field,
            Err(fault) => return lesser(least, Some(fault)),
        };
        if let Err(reason) = judge_payload(field.payload, kind_of(kinds, field.number)) {
            let fault = Fault {
                offset: field.offset,
                reason,
            };
            return lesser(least, Some(fault));
        }
        least = lesser(least, inner.judge(field));
    }
    least
}

/// No messages: what the fields hold has no fault for it.
#[derive(Clone, Copy)]
struct NoMessages;

impl Judge for NoMessages {
    ghost faults = { λ _ o. [] };

    fn judge(&self, _field: Field<'_>) -> Option<Fault> {
        None
    }
}

/// The first wire fault of a message without embedded messages, as [`judge_wire`] finds it.
#[inline(always)]
pub fn judge_leaf(message: Message<'_>, kinds: &[(u64, Kind)]) -> Option<Fault>
    ensures { result ≡ least (leaf_faults kinds.now 0 message.entry.at message.entry.bytes.now) }
{
    judge_form(message, kinds, &NoMessages)
}

/// The first wire fault of a message whose first byte is at `at` in the file. `kinds` lists the known fields by their
/// numbers; others may have any wire type. Embedded messages are not entered. Reads all bytes once and does not allocate.
#[inline(always)]
#[tactic(auto, using(crate::proofs::FaultLemmas::leaf_is_wire))]
pub fn judge_wire(message: &[u8], at: u64, kinds: &[(u64, Kind)]) -> Result<(), Fault>
    requires { at + length message.now ≤ OFFSET_LIMIT }
    ensures { result ≡ ok_unless (wire kinds.now (items at message.now)) }
{
    let message = Message { bytes: message, at };
    refuse(judge_leaf(message, kinds))
}

/// The wire form of messages with these fields.
#[derive(Clone, Copy)]
struct LeafForm<'a>(&'a [(u64, Kind)]);

impl JudgeMessage for LeafForm<'_> {
    ghost faults = { λ leaf. leaf_faults leaf.0.now };

    #[inline(always)]
    fn judge_message(&self, message: Message<'_>, _place: u64) -> Option<Fault> {
        judge_leaf(message, self.0)
    }
}

/// The least wire fault of a message with embedded messages at the field `number`, whose own fields `inner` lists.
#[inline(always)]
pub fn judge_nested(
    message: Message<'_>,
    kinds: &[(u64, Kind)],
    number: u64,
    inner: &[(u64, Kind)],
) -> Option<Fault>
    ensures { result ≡ least (nested_faults kinds.now number inner.now 0
        message.entry.at message.entry.bytes.now) }
{
    judge_form(message, kinds, &InField(number, LeafForm(inner)))
}
