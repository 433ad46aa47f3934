//! The judgement of a dense message, and its reading if it has no fault.

ghost use Rattle.std.specs.Prelude.{◌≡◌, ◌+◌, ◌≤◌, length};
ghost use Rattle.pbf_wire.specs.Least.{least};
ghost use Rattle.pbf_wire.specs.Wire.{ok_unless};
ghost use Rattle.pbf_dense.specs.declared.phase.Phase.TheVariants as phase;
ghost use Rattle.pbf_dense.specs.Judged.{fault_before_weights, phase_faults, dense_fault};
ghost use Rattle.pbf_wire.specs.declared.limits.TheConstants.{OFFSET_LIMIT, SUM_LIMIT};

use crate::dense::Dense;
use crate::phase::Phase;
use osm_entity::Scale;
use pbf_strings::Table;
use pbf_wire::{Fault, Message, refuse};

/// The first fault of the phases before the weights.
#[tactic(auto, unfolding(crate::specs::Judged::fault_before_weights))]
fn fault_before_weights(message: Message<'_>, place: u64, table: &Table<'_>) -> Option<Fault>
    ensures exact { result ≡ fault_before_weights (length table.now) place
        message.entry.at message.entry.bytes.now }
    ensures few { length table.now ≤ SUM_LIMIT }
{
    let limit = table.len() as u64;
    let wire = Dense::judge_wire(message);
    if wire.is_some() {
        return wire;
    }
    let structure = Dense::judge_structure(message, place);
    if structure.is_some() {
        return structure;
    }
    Dense::judge_values(message, limit)
}

/// The least fault of the weights, if there is none before them.
#[tactic(auto, using(crate::proofs::SoundDense::weights_last))]
fn weight_fault(
    early: Option<Fault>,
    message: Message<'_>,
    place: u64,
    table: &Table<'_>,
) -> Option<Fault>
    requires early { early ≡ fault_before_weights (length table.now) place message.at message.bytes.now }
    requires few { length table.now ≤ SUM_LIMIT }
    ensures { result ≡ least (phase_faults phase.Weights place
        message.entry.at table.now message.entry.bytes.now) }
{
    match early {
        Some(_) => None,
        None => Dense::judge_weights(message, place, table),
    }
}

impl<'a> Dense<'a> {
    ghost use Rattle.std.specs.Prelude.{◌↔◌, Some, None, Err, IfOk, OnOk};
    ghost use Rattle.pbf_wire.specs.declared.fault.Fault.{Fault};
    ghost use Rattle.pbf_wire.specs.Faults.{fields_in};
    ghost use Rattle.pbf_dense.specs.Nodes.{nodes};
    ghost use Rattle.pbf_dense.specs.Cursors.{dense_left};
    ghost use Rattle.pbf_dense.specs.Judged.{IsSoundDense};

    /// Judges a dense message by one phase. Its first byte is at `at` in the file, and its field at `place`; the table is
    /// that of its block. The error is the least fault of the phase. Weights are judged only if the other phases have no
    /// fault, so that takes a pass over all of them. Does not allocate.
    pub fn judge(
        message: &[u8],
        at: u64,
        place: u64,
        phase: Phase,
        table: &Table<'_>,
    ) -> Result<(), Fault>
        requires placed { at + length message.now ≤ OFFSET_LIMIT }
        requires tagged { place ≤ at }
        ensures { result ≡ ok_unless (least (phase_faults phase place at table.now message.now)) }
    {
        let message = Message { bytes: message, at };
        refuse(match phase {
            Phase::Wire => Dense::judge_wire(message),
            Phase::Structure => Dense::judge_structure(message, place),
            Phase::Values => Dense::judge_values(message, table.len() as u64),
            Phase::Weights => {
                let early = fault_before_weights(message, place, table);
                weight_fault(early, message, place, table)
            }
        })
    }

    /// The nodes of a dense message that was judged to have no fault before its weights. Judges nothing; the rest is as for
    /// [`Dense::over`].
    #[tactic(auto, using(crate::proofs::SoundDense::nodes_same))]
    pub fn open(message: &'a [u8], at: u64, table: &'a Table<'a>, scale: Scale) -> Dense<'a>
        requires placed { at + length message.now ≤ OFFSET_LIMIT }
        requires sound { IsSoundDense table.now at message.now }
        ensures { dense_left result ≡ nodes table.now scale (fields_in at message.now) }
    {
        Dense::over(Message { bytes: message, at }, table, scale)
    }

    /// Judges a dense message by all phases, and returns its nodes. The error is the first fault by phase, and in it the least.
    #[tactic(auto, using(crate::proofs::SoundDense::sound_at), unfolding(crate::specs::Judged::dense_fault))]
    pub fn read(
        message: &'a [u8],
        at: u64,
        place: u64,
        table: &'a Table<'a>,
        scale: Scale,
    ) -> Result<Dense<'a>, Fault>
        requires placed { at + length message.now ≤ OFFSET_LIMIT }
        requires tagged { place ≤ at }
        ensures nodes { IfOk result
            (λ dense. dense_left dense ≡ nodes table.now scale (fields_in at message.now)) }
        ensures sound { OnOk result (dense_fault place at table.now message.now ≡ None) }
        ensures refused { (fault : Fault)
            → result ≡ Err fault ↔ dense_fault place at table.now message.now ≡ Some fault }
    {
        let whole = Message { bytes: message, at };
        let early = fault_before_weights(whole, place, table);
        refuse(early.or(weight_fault(early, whole, place, table)))?;
        Ok(Dense::open(message, at, table, scale))
    }
}
