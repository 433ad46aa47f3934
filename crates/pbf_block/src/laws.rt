//! The laws of blocks. Each is the contract of a function that does nothing: a proof that needs the law calls it, or takes the
//! lemma of that name from this crate's `proofs/`. Those of headers are re-exported from `pbf_header`.

ghost use Rattle.std.specs.Prelude.{◌≡◌, ℕ, ◌+◌, ◌*◌, ◌<◌, ◌≤◌, true, List, [], length, None};
ghost use Rattle.std.specs.List.{AllByRecursion, sum_by};
ghost use Rattle.std.specs.Option.{option_map};
ghost use Rattle.pbf_wire.specs.Faults.{fields_in, nested_faults};
ghost use Rattle.pbf_wire.specs.Least.{least_by};
ghost use Rattle.pbf_wire.specs.Phases.{phase_rank};
ghost use Rattle.pbf_strings.specs.TableOut.{has_text, table_of};
ghost use Rattle.osm_entity.specs.Entity.{WaySpec, RelationSpec, EntitySpec, way, relation};
ghost use Rattle.osm_entity.specs.EntityTexts.{way_texts, relation_texts};
ghost use Rattle.osm_entity.specs.Ranges.{WayFits, RelationFits, EntityFits, EntityTyped};
ghost use Rattle.osm_entity.specs.Weight.{entity_weight};
ghost use Rattle.pbf_block.specs.declared.way.TheConstants.{WAY_KINDS};
ghost use Rattle.pbf_block.specs.declared.relation.TheConstants.{RELATION_KINDS};
ghost use Rattle.pbf_block.specs.declared.entity.TheConstants.{INFO};
ghost use Rattle.pbf_block.specs.declared.info.TheConstants.{INFO_KINDS};
ghost use Rattle.pbf_block.specs.PrimitiveBlock.{block_fault, all_faults, indexed, entities};
ghost use Rattle.pbf_block.specs.Way.{way_in, way_structure, way_values};
ghost use Rattle.pbf_block.specs.Relation.{relation_in, relation_structure, relation_values};
ghost use Rattle.pbf_block.specs.WrittenBlock.{is_block, block_message};
ghost use Rattle.pbf_block.specs.WrittenEntity.{way_message, relation_message};
ghost use Rattle.pbf_strings.specs.declared.table.TheConstants.{MOST_TEXTS};
ghost use Rattle.pbf_wire.specs.declared.limits.TheConstants.{RAW_LIMIT};

pub use pbf_header::laws::{
    header_out_twice_is_once, header_phases_are_one_order, read_header_fits, written_header_is_read,
};

/// The first fault of a payload, phase by phase, is the least of all its faults by phase, then offset, then the reason's
/// number, then the field that is missing.
#[tactic(auto, using(crate::proofs::PayloadLemmas::phases_joined))]
pub fn phases_are_one_order()
    ensures { (at : ℕ) (m : List ℕ)
        → option_map (λ p. p.1) (least_by phase_rank (all_faults at m)) ≡ block_fault at m }
{}

/// A written way has no fault of any phase and is read, at every place, as the way that it was written for: with every table that
/// has all its texts and isn't too long.
pub fn written_way_is_read()
    ensures read { (texts : List (List ℕ)) (w : WaySpec) → WayFits w → EntityTyped (way w)
        → AllByRecursion (λ text. has_text texts text ≡ true) (way_texts w)
        → length (table_of texts) ≤ MOST_TEXTS → (at : ℕ)
        → way_in indexed (table_of texts) w.scale (fields_in at (way_message texts w)) ≡ w }
    ensures wire { (texts : List (List ℕ)) (w : WaySpec) → WayFits w → EntityTyped (way w)
        → AllByRecursion (λ text. has_text texts text ≡ true) (way_texts w)
        → length (table_of texts) ≤ MOST_TEXTS → (place at : ℕ)
        → nested_faults WAY_KINDS INFO INFO_KINDS place at (way_message texts w) ≡ [] }
    ensures structure { (texts : List (List ℕ)) (w : WaySpec) → WayFits w → EntityTyped (way w)
        → AllByRecursion (λ text. has_text texts text ≡ true) (way_texts w)
        → length (table_of texts) ≤ MOST_TEXTS → (place at : ℕ)
        → way_structure place at (way_message texts w) ≡ [] }
    ensures values { (texts : List (List ℕ)) (w : WaySpec) → WayFits w → EntityTyped (way w)
        → AllByRecursion (λ text. has_text texts text ≡ true) (way_texts w)
        → length (table_of texts) ≤ MOST_TEXTS → (place at : ℕ)
        → way_values (length (table_of texts)) place at (way_message texts w) ≡ [] }
{}

/// The same of a relation.
pub fn written_relation_is_read()
    ensures read { (texts : List (List ℕ)) (r : RelationSpec) → RelationFits r
        → EntityTyped (relation r) → AllByRecursion (λ text. has_text texts text ≡ true)
        (relation_texts r) → length (table_of texts) ≤ MOST_TEXTS → (at : ℕ)
        → relation_in indexed (table_of texts) r.scale (fields_in at (relation_message texts r))
        ≡ r }
    ensures wire { (texts : List (List ℕ)) (r : RelationSpec) → RelationFits r
        → EntityTyped (relation r) → AllByRecursion (λ text. has_text texts text ≡ true)
        (relation_texts r) → length (table_of texts) ≤ MOST_TEXTS → (place at : ℕ)
        → nested_faults RELATION_KINDS INFO INFO_KINDS place at (relation_message texts r) ≡ [] }
    ensures structure { (texts : List (List ℕ)) (r : RelationSpec) → RelationFits r
        → EntityTyped (relation r) → AllByRecursion (λ text. has_text texts text ≡ true)
        (relation_texts r) → length (table_of texts) ≤ MOST_TEXTS → (place at : ℕ)
        → relation_structure place at (relation_message texts r) ≡ [] }
    ensures values { (texts : List (List ℕ)) (r : RelationSpec) → RelationFits r
        → EntityTyped (relation r) → AllByRecursion (λ text. has_text texts text ≡ true)
        (relation_texts r) → length (table_of texts) ≤ MOST_TEXTS → (place at : ℕ)
        → relation_values (length (table_of texts)) place at (relation_message texts r) ≡ [] }
{}

/// A written block is at most 380 bytes longer than twice its weight; so entities that may be in one block fit a frame.
#[tactic(auto, using(crate::proofs::LengthLaw::block_short, crate::proofs::LengthLaw::block_fits))]
pub fn written_block_fits()
    ensures short { (es : List EntitySpec)
        → length (block_message es) ≤ 380 + 2 * sum_by entity_weight es }
    ensures fits { (es : List EntitySpec) → is_block es ≡ true
        → length (block_message es) < RAW_LIMIT }
{}

/// Entities in their ranges that may be in one block are written as a block that has no fault of any phase and holds those entities,
/// wherever in a file it is.
#[tactic(auto, using(crate::proofs::WrittenLaw::written_sound, crate::proofs::WrittenLaw::written_read))]
pub fn written_block_is_read()
    ensures sound { (at : ℕ) (es : List EntitySpec) → is_block es ≡ true
        → AllByRecursion EntityFits es → AllByRecursion EntityTyped es
        → block_fault at (block_message es) ≡ None }
    ensures read { (at : ℕ) (es : List EntitySpec) → is_block es ≡ true
        → AllByRecursion EntityFits es → AllByRecursion EntityTyped es
        → entities at (block_message es) ≡ es }
{}

/// The entities of a payload without a fault are in their ranges and light enough to be written, and their numbers have the types
/// of the format.
#[tactic(auto, using(crate::proofs::FitsLaw::entities_fit, crate::proofs::FitsLaw::entities_typed))]
pub fn sound_entities_fit()
    ensures fits { (at : ℕ) (m : List ℕ) → block_fault at m ≡ None
        → AllByRecursion EntityFits (entities at m) }
    ensures typed { (at : ℕ) (m : List ℕ) → block_fault at m ≡ None
        → AllByRecursion EntityTyped (entities at m) }
{}
