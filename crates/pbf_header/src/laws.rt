//! The laws of headers. Each is the contract of a function that does nothing: a proof that needs the law calls it, or takes the
//! lemma of that name from this crate's `proofs/`.

ghost use Rattle.std.specs.Prelude.{◌≡◌, ℕ, ◌+◌, ◌^◌, ◌<◌, ◌≤◌, List, length, Option, None};
ghost use Rattle.std.specs.Option.{option_map};
ghost use Rattle.pbf_wire.specs.Least.{least_by};
ghost use Rattle.pbf_wire.specs.Phases.{phase_rank};
ghost use Rattle.osm_entity.specs.Ranges.{IsInt64, IfPresent};
ghost use Rattle.osm_entity.specs.Weight.{text_weight};
ghost use Rattle.pbf_header.specs.declared.header.HeaderBox.{HeaderBox};
ghost use Rattle.pbf_header.specs.Header.{HeaderSpec, header_in};
ghost use Rattle.pbf_header.specs.HeaderFaults.{header_fault, all_header_faults};
ghost use Rattle.pbf_header.specs.WrittenHeader.{BoxTyped, HeaderFits, header_message, header_out, header_out_for_box, header_out_for_convert};
ghost use Rattle.pbf_header.specs.declared.write.TheConstants.{MOST_HEADER_TEXT};
ghost use Rattle.pbf_wire.specs.declared.limits.TheConstants.{RAW_LIMIT};

use osm_entity::BoundingBox;

/// The first fault of a header, phase by phase, is the least of all its faults by phase, then offset, then the reason's number, then
/// the field that is missing.
pub fn header_phases_are_one_order()
    ensures { (at : ℕ) (m : List ℕ)
        → option_map (λ p. p.1) (least_by phase_rank (all_header_faults at m)) ≡ header_fault at m }
{}

/// The header that is written for a header that was written is that header again, with each box and with none. Of two boxes
/// the later counts.
pub fn header_out_twice_is_once()
    ensures area { (area : BoundingBox) (h : HeaderSpec)
        → header_out_for_box area (header_out_for_box area h) ≡ header_out_for_box area h }
    ensures convert { (h : HeaderSpec)
        → header_out_for_convert (header_out_for_convert h) ≡ header_out_for_convert h }
    ensures later { (bbox other : Option HeaderBox) (h : HeaderSpec)
        → header_out bbox (header_out other h) ≡ header_out bbox h }
{}

/// A written header has no fault of any phase and is read, at every place, as the header that it was written for. It fits a frame
/// if its source and its URL have together at most 12,000,000 bytes.
pub fn written_header_is_read()
    ensures out { (bbox : Option HeaderBox) (h : HeaderSpec) → BoxTyped bbox
        → IfPresent IsInt64 h.timestamp → IfPresent IsInt64 h.sequence
        → HeaderFits (header_out bbox h) }
    ensures read { (at : ℕ) (h : HeaderSpec) → HeaderFits h → length (header_message h) < 2 ^ 64
        → header_in at (header_message h) ≡ h }
    ensures sound { (at : ℕ) (h : HeaderSpec) → HeaderFits h → length (header_message h) < 2 ^ 64
        → header_fault at (header_message h) ≡ None }
    ensures short { (h : HeaderSpec) → HeaderFits h
        → text_weight h.source + text_weight h.url ≤ MOST_HEADER_TEXT
        → length (header_message h) < RAW_LIMIT }
    ensures light_read { (at : ℕ) (h : HeaderSpec) → HeaderFits h
        → text_weight h.source + text_weight h.url ≤ MOST_HEADER_TEXT
        → header_in at (header_message h) ≡ h }
    ensures light_sound { (at : ℕ) (h : HeaderSpec) → HeaderFits h
        → text_weight h.source + text_weight h.url ≤ MOST_HEADER_TEXT
        → header_fault at (header_message h) ≡ None }
{}

/// The header of every payload can be written, whatever is wrong with the payload: its numbers fit the types of the format. So it
/// can with the box of an extract, whose edges are numbers of 64 bits.
pub fn read_header_fits(area: BoundingBox)
    ensures convert { (at : ℕ) (m : List ℕ) → HeaderFits (header_out_for_convert (header_in at m)) }
    ensures area { (at : ℕ) (m : List ℕ) → HeaderFits (header_out_for_box area (header_in at m)) }
{}
