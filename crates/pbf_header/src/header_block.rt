//! A HeaderBlock and the HeaderBBox in it: their fields, and their rules phase by phase.

ghost use Rattle.std.specs.Prelude.{◌≡◌, map};
ghost use Rattle.pbf_wire.specs.Faults.{found_in};
ghost use Rattle.pbf_wire.specs.Least.{least};
ghost use Rattle.pbf_wire.specs.Wire.{ok_unless};
ghost use Rattle.pbf_strings.specs.TableOut.{has_text};
ghost use Rattle.pbf_header.specs.HeaderFaults.{edge_faults, header_structure, feature_faults, header_fault};

use crate::header::KNOWN_FEATURES;
use pbf_wire::{
    Fault, InField, JudgeMessage, Kind, Message, Reason, fault_where, judge_fields, judge_missing,
    judge_nested, judge_twice, lesser, refuse,
};

// The fields of a HeaderBlock.
pub(crate) const BBOX: u64 = 1;

pub(crate) const REQUIRED_FEATURES: u64 = 4;

pub(crate) const OPTIONAL_FEATURES: u64 = 5;

pub(crate) const WRITINGPROGRAM: u64 = 16;

pub(crate) const SOURCE: u64 = 17;

pub(crate) const REPLICATION_TIMESTAMP: u64 = 32;

pub(crate) const REPLICATION_SEQUENCE: u64 = 33;

pub(crate) const REPLICATION_URL: u64 = 34;

/// How the fields of a HeaderBlock are stored.
pub(crate) const HEADER_BLOCK_KINDS: [(u64, Kind); 8] = [
    (BBOX, Kind::Bytes),
    (REQUIRED_FEATURES, Kind::Bytes),
    (OPTIONAL_FEATURES, Kind::Bytes),
    (WRITINGPROGRAM, Kind::Bytes),
    (SOURCE, Kind::Bytes),
    (REPLICATION_TIMESTAMP, Kind::Number),
    (REPLICATION_SEQUENCE, Kind::Number),
    (REPLICATION_URL, Kind::Bytes),
];

// The fields of a HeaderBBox.
pub(crate) const LEFT: u64 = 1;

pub(crate) const RIGHT: u64 = 2;

pub(crate) const TOP: u64 = 3;

pub(crate) const BOTTOM: u64 = 4;

/// How the fields of a HeaderBBox are stored.
pub(crate) const BBOX_KINDS: [(u64, Kind); 4] = [
    (LEFT, Kind::Number),
    (RIGHT, Kind::Number),
    (TOP, Kind::Number),
    (BOTTOM, Kind::Number),
];

/// The first of the edges that a box lacks.
#[derive(Clone, Copy)]
struct BoxStructure;

impl JudgeMessage for BoxStructure {
    ghost faults = { λ _. edge_faults };

    #[tactic(auto, using(crate::proofs::HeaderLemmas::edges_joined))]
    fn judge_message(&self, message: Message<'_>, place: u64) -> Option<Fault> {
        let left = judge_missing(message, place, LEFT);
        let right = judge_missing(message, place, RIGHT);
        let top = judge_missing(message, place, TOP);
        let bottom = judge_missing(message, place, BOTTOM);
        lesser(left, lesser(right, lesser(top, bottom)))
    }
}

/// The least fault of structure.
#[tactic(auto, using(crate::proofs::Parts::lesser_parts))]
fn judge_header_structure(payload: Message<'_>) -> Option<Fault>
    ensures { result ≡ least (header_structure (found_in payload.entry)) }
{
    lesser(
        judge_twice(payload, BBOX),
        judge_fields(payload, &InField(BBOX, BoxStructure)),
    )
}

/// Whether one of these texts is this one.
fn is_one_of(texts: &[&[u8]], text: &[u8]) -> bool
    ensures { result ≡ has_text (map (λ t. t.now) texts.now) text.now }
{
    texts.contains(&text)
}

/// Whether a required feature is known.
#[derive(Clone, Copy)]
struct FeatureValue;

impl JudgeMessage for FeatureValue {
    ghost faults = { λ _. feature_faults };

    fn judge_message(&self, feature: Message<'_>, place: u64) -> Option<Fault> {
        let known = is_one_of(&KNOWN_FEATURES, feature.bytes);
        fault_where(!known, place, Reason::Feature)
    }
}

/// The first fault of a HeaderBlock. Does not allocate.
#[tactic(auto, unfolding(crate::specs::HeaderFaults::header_fault))]
pub(crate) fn judge_header(payload: Message<'_>) -> Result<(), Fault>
    ensures { result ≡ ok_unless (header_fault payload.entry.at payload.entry.bytes.now) }
{
    refuse(judge_nested(payload, &HEADER_BLOCK_KINDS, BBOX, &BBOX_KINDS))?;
    refuse(judge_header_structure(payload))?;
    let features = InField(REQUIRED_FEATURES, FeatureValue);
    refuse(judge_fields(payload, &features))
}
