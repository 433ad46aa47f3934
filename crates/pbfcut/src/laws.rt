//! The laws of whole files that are written. Each is the contract of a function that does nothing: a proof that needs the law calls
//! it, or takes the lemma of that name from this crate's `proofs/`.

ghost use Rattle.std.specs.Prelude.{◌≡◌, ℕ, [], ◌+◌, ◌++◌, ◌≤◌, true, false, List, length, Some, None};
ghost use Rattle.std.specs.List.{AllByRecursion};
ghost use Rattle.std.specs.Option.{option_map};
ghost use Rattle.pbf_wire.specs.declared.fault.Fault.{Fault};
ghost use Rattle.pbf_wire.specs.declared.fault.Reason.TheVariants.{EntityLarge, Unsorted};
ghost use Rattle.pbf_wire.specs.Least.{least_by};
ghost use Rattle.osm_box.specs.declared.bounding_box.BoundingBox.{BoundingBox};
ghost use Rattle.osm_box.specs.BoundingBox.{is_box_within};
ghost use Rattle.osm_entity.specs.Entity.{EntitySpec};
ghost use Rattle.osm_entity.specs.Ranges.{EntityFits, EntityTyped};
ghost use Rattle.osm_entity.specs.Weight.{text_weight};
ghost use Rattle.osm_area.specs.Area.{AreaSpec, IsAreaWithin, box_area};
ghost use Rattle.osm_ways.specs.Selection.{Strategy, IsWider};
ghost use Rattle.osm_pack.specs.Cuts.{written_file};
ghost use Rattle.pbf_block.specs.declared.counts.Counts.{Counts};
ghost use Rattle.pbf_header.specs.Header.{HeaderSpec};
ghost use Rattle.pbf_header.specs.declared.write.TheConstants.{MOST_HEADER_TEXT};
ghost use Rattle.pbf_header.specs.WrittenHeader.{HeaderFits, header_out_for_convert};
ghost use Rattle.pbf_frame.specs.declared.frame.TheConstants.{FILE_LIMIT};
ghost use Rattle.pbf_frame.specs.Ends.{comes_of_end};
ghost use Rattle.pbf_frame.specs.Refusals.{Refuses};
ghost use Rattle.pbf_frame.specs.Transfers.{Added};
ghost use Rattle.pbf_pass.specs.Counting.{stored_entities};
ghost use Rattle.pbfcut.specs.Converting.{answer_bytes};
ghost use Rattle.pbfcut.specs.Extracting.{extract_bytes};
ghost use Rattle.pbfcut.specs.FileFaults.{file_faults, file_rank};
ghost use Rattle.pbf_pass.specs.HeaderLimit.{judged_writable};
ghost use Rattle.pbf_pass.specs.Judged.{judged_file};
ghost use Rattle.pbf_pass.specs.SortedFile.{judged_sorted};
ghost use Rattle.pbf_pass.specs.Stops.{FaultOf};
ghost use Rattle.pbfcut.specs.Kept.{verdict_within, verdict_on, IsWritable, header_read, conversion_of, extract_of};
ghost use Rattle.pbfcut.specs.Theorem.{IsConversion, IsExtract, IsExtraction};
ghost use Rattle.pbf_pass.specs.declared.hashed.HashedDrain.{HashedDrain};
ghost use Rattle.sha2.specs.Sha256.{sha256};

use osm_area::Area;
use osm_entity::BoundingBox;
use pbf_frame::{Drain, Feed};
use pbf_pass::HashedDrain;
use sha2::{Digest, Sha256};

/// The fault that a file is refused for is the least of all its faults as one set: by the place of the frame, then by phase,
/// then by offset, by the reason's number and by the field that is missing.
pub fn file_faults_are_one_order()
    ensures { (file : List ℕ) → option_map (λ verdict. verdict.1) (judged_file (Some file))
        ≡ Some (option_map (λ p. p.1.1) (least_by file_rank (file_faults file))) }
{}

/// Bytes that have no fault as a file of any length, and that are no longer than a file may be, are the same file with that limit. So
/// what is stated of the bytes that went out holds of them as a file.
pub fn bytes_within_the_limit_are_a_file()
    ensures { (bytes : List ℕ) → length bytes ≤ FILE_LIMIT → (verdict_within None bytes).1 ≡ None
        → verdict_on bytes ≡ verdict_within None bytes }
{}

/// The fault of a file is that of every file that begins with it, unless it comes of the file's end: the file is cut there, or has no
/// header; or, of a file that is to be written, its header is too long; or, of one that has to be sorted, it isn't.
pub fn file_fault_stays()
    ensures judged { (file rest : List ℕ) (fault : Fault) → FaultOf (judged_file (Some file)) fault
        → comes_of_end fault.reason ≡ false → FaultOf (judged_file (Some (file ++ rest))) fault }
    ensures writable { (file rest : List ℕ) (fault : Fault)
        → FaultOf (judged_writable (Some file)) fault
        → comes_of_end fault.reason ≡ false → (fault.reason ≡ EntityLarge → ⊥)
        → FaultOf (judged_writable (Some (file ++ rest))) fault }
    ensures sorted { (file rest : List ℕ) (fault : Fault)
        → FaultOf (judged_sorted (Some file)) fault
        → comes_of_end fault.reason ≡ false → (fault.reason ≡ EntityLarge → ⊥)
        → (fault.reason ≡ Unsorted → ⊥) → FaultOf (judged_sorted (Some (file ++ rest))) fault }
{}

/// A refusal for another reason than these holds whatever follows the bytes that were read: what the calls say of a refusal at the end of
/// a feed concerns these reasons only.
pub fn refusal_stays<F: Feed>()
    // Of `check` and `show`.
    ensures judged { (old new : F) (fault : Fault)
        (bytes : Refuses (λ b. FaultOf (judged_file (Some b)) fault) (F.has_passed old)
        (F.has_passed new) (F.remaining old) (F.remaining new))
        → comes_of_end fault.reason ≡ false
        → (rest : List ℕ) → FaultOf (judged_file (Some (bytes.read ++ rest))) fault }
    // Of the calls that write a file.
    ensures writable { (old new : F) (fault : Fault)
        (bytes : Refuses (λ b. FaultOf (judged_writable (Some b)) fault) (F.has_passed old)
        (F.has_passed new) (F.remaining old) (F.remaining new))
        → comes_of_end fault.reason ≡ false → (fault.reason ≡ EntityLarge → ⊥)
        → (rest : List ℕ) → FaultOf (judged_writable (Some (bytes.read ++ rest))) fault }
    // Of the smart extract.
    ensures sorted { (old new : F) (fault : Fault)
        (bytes : Refuses (λ b. FaultOf (judged_sorted (Some b)) fault) (F.has_passed old)
        (F.has_passed new) (F.remaining old) (F.remaining new))
        → comes_of_end fault.reason ≡ false → (fault.reason ≡ EntityLarge → ⊥)
        → (fault.reason ≡ Unsorted → ⊥)
        → (rest : List ℕ) → FaultOf (judged_sorted (Some (bytes.read ++ rest))) fault }
{}

/// A file that is written is read back, however long it is: it has no fault of any phase, its header is the header that was
/// written and can be written again, and its entities are those that were written.
pub fn written_file_is_read()
    ensures { (h : HeaderSpec) (es : List EntitySpec) → HeaderFits (header_out_for_convert h)
        → text_weight h.source + text_weight h.url ≤ MOST_HEADER_TEXT → AllByRecursion EntityFits es
        → AllByRecursion EntityTyped es
        → ((verdict_within None (written_file h es)).1 ≡ None)
        × (header_read (verdict_within None (written_file h es)) ≡ Some (header_out_for_convert h))
        × (stored_entities (verdict_within None (written_file h es)).0 ≡ es) }
{}

/// A conversion of a file that can be converted is bytes without a fault that have the file's header in written form and the file's
/// entities, in order, with all that is stored of them; and a conversion of it is the same bytes.
pub fn converted_file_is_kept()
    // It can be converted again, and its bytes decode to exactly what the file's do.
    ensures kept { (file : List ℕ) → IsWritable file
        → IsConversion (verdict_on file) (verdict_within None (conversion_of file)) }
    // A conversion of it is the same bytes.
    ensures again { (file : List ℕ) → IsWritable file
        → answer_bytes (verdict_within None (conversion_of file)) ≡ conversion_of file }
{}

/// The extract of such a file, by each strategy, is bytes without a fault that have the file's header in written form with the box, and
/// of the file's entities those that the selection keeps, in order, with all that is stored of them; it means the extract of what the
/// file means, with places in nanodegrees and times in milliseconds; and an extract of it by the same strategy and box is the same bytes.
pub fn extracted_file_is_kept(area: BoundingBox)
    // An extract can be written of it, and its bytes decode to exactly the file's extract, and mean the extract of what the file means.
    ensures kept { (by : Strategy) (file : List ℕ) → IsWritable file
        → IsExtract by (box_area area) (verdict_on file)
        (verdict_within None (extract_of by (box_area area) file)) }
    // An extract of it, by the same strategy and box, is the same bytes.
    ensures again { (by : Strategy) (file : List ℕ) → IsWritable file
        → extract_bytes by (box_area area)
        (verdict_within None (extract_of by (box_area area) file))
        ≡ extract_of by (box_area area) file }
    // An extract of it by a strategy that is no wider, and by a box that lies in this one, is the same bytes as that of the file.
    ensures smaller { (narrow wide : Strategy) → IsWider narrow wide
        → (small : BoundingBox) → is_box_within small area ≡ true
        → (file : List ℕ) → IsWritable file
        → extract_bytes narrow (box_area small)
        (verdict_within None (extract_of wide (box_area area) file))
        ≡ extract_of narrow (box_area small) file }
{}

/// Two runs compose. If an extract of a file wrote `part`, and an extract of `part` by a strategy that is no wider, and by an area that
/// lies in that area, wrote `cut`, then `cut` is byte for byte what the second run writes of the file: its header too, which has the
/// smaller box, and the features, the source and the replication fields that an extract of the file has. A file that is read has at
/// most `FILE_LIMIT` bytes.
pub fn area_extracts_compose<A: Area>(area: &A)
    ensures { let large = A.area area.now in
        (narrow wide : Strategy) → IsWider narrow wide
        → (small : AreaSpec) → IsAreaWithin small large → (file part cut : List ℕ)
        → (counts fewer : Counts) → length part ≤ FILE_LIMIT
        → IsExtraction wide large file counts part
        → IsExtraction narrow small part fewer cut
        → cut ≡ extract_of narrow small file }
{
    let _bounds = area.bounds();
}

/// The same of two boxes, of which the smaller one lies in the other.
pub fn extracts_compose(area: BoundingBox, small: BoundingBox)
    ensures { let large = box_area area in let little = box_area small in
        (narrow wide : Strategy) → IsWider narrow wide
        → is_box_within small area ≡ true → (file part cut : List ℕ)
        → (counts fewer : Counts) → length part ≤ FILE_LIMIT
        → IsExtraction wide large file counts part
        → IsExtraction narrow little part fewer cut
        → cut ≡ extract_of narrow little file }
{}

/// What a hashing drain took, if anything, the drain below took; and the digest that the hashing drain returns is that of it. So such
/// a drain adds the digest of what was written to the receipt of a call.
pub fn hashed_drain_took<D: Drain>()
    ensures { (old : D) (fresh new : HashedDrain D) (digest written : List ℕ) → fresh.drain ≡ old
        → ⟦<Sha256 as Digest>⟧.holds fresh.hasher []
        → ((b : List ℕ) → ⟦<Sha256 as Digest>⟧.holds new.hasher b → digest ≡ sha256 b)
        → Added ⟦<HashedDrain<D> as Drain>⟧ fresh written new
        → Added D.Drain old written new.drain × (digest ≡ sha256 written) }
{}
