//! The lesser of two faults. It is inlined, so that a fault that there is not takes no room.

ghost use Rattle.std.specs.Prelude.{◌≡◌};
ghost use Rattle.pbf_wire.specs.Least.{fault_rank, is_less, lesser};

use crate::fault::Fault;

/// Whether the first fault comes before the second: by offset, then by the reason's number, then by the field of `Missing`.
pub fn comes_before(one: Fault, other: Fault) -> bool
    ensures { result ≡ is_less (fault_rank one) (fault_rank other) }
{
    if one.offset != other.offset {
        return one.offset < other.offset;
    }
    let (first, second) = (one.reason.number(), other.reason.number());
    if first != second {
        return first < second;
    }
    one.reason.missing_field() < other.reason.missing_field()
}

/// The lesser of two faults, if there are any; of two that are alike the first.
#[inline(always)]
pub fn lesser(one: Option<Fault>, other: Option<Fault>) -> Option<Fault>
    ensures { result ≡ lesser one other }
{
    // Mostly there is no other: then nothing moves.
    let Some(second) = other else {
        return one;
    };
    let Some(first) = one else {
        return other;
    };
    if comes_before(second, first) {
        other
    } else {
        one
    }
}
