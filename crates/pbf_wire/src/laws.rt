//! The laws of the wire encoding. Each is the contract of a function that does nothing: a proof that needs the law calls it,
//! or takes the lemma of that name from this crate's `proofs/`.

ghost use Rattle.std.specs.Prelude.{◌≡◌, ◌+◌, ◌^◌, ◌<◌, ◌≤◌, ◌<ℤ◌, ◌≤ℤ◌, neg_ℤ, ◌++◌, ℕ, ℤ, pos, negsuc, List, [], ◌∷◌, Ok, None, Some, length, map};
ghost use Rattle.std.specs.List.{AllByRecursion, flat_map, last_or};
ghost use Rattle.std.specs.Option.{option_map};
ghost use Rattle.pbf_wire.specs.declared.fault.Fault.{Fault};
ghost use Rattle.pbf_wire.specs.declared.kind.Kind.{Kind};
ghost use Rattle.pbf_wire.specs.Least.{fault_rank, is_less, least, least_by, lesser, IsLeastBy};
ghost use Rattle.pbf_wire.specs.Reasons.{reason_number, missing_field};
ghost use Rattle.pbf_wire.specs.Phases.{first_fault, in_phases, phase_rank};
ghost use Rattle.pbf_wire.specs.Varint.{IsVarint, varint_at, shortest};
ghost use Rattle.pbf_wire.specs.Occurrence.{Occurrence, Joins, IsCutting, items, found, fault_of, without_places};
ghost use Rattle.pbf_wire.specs.Columns.{entries, packed, joined, column};
ghost use Rattle.pbf_wire.specs.Reading.{last_number, each};
ghost use Rattle.pbf_wire.specs.declared.kind.Kind.TheVariants as kind;
ghost use Rattle.pbf_wire.specs.Faults.{fields_in, column_count};
ghost use Rattle.pbf_wire.specs.Wire.{kind_of, wire};
ghost use Rattle.pbf_wire.specs.Signed.{zigzag, unzigzag, low_i32, low_i64, sign_extended, IsWithin};
ghost use Rattle.pbf_wire.specs.Sums.{sums, sums_from, sums_within, deltas};
ghost use Rattle.pbf_wire.specs.Writing.{occurrences_of};
ghost use Rattle.pbf_wire.specs.Message.{Slot, parts_of, message, SlotFits, SlotIs, SlotBelow, numbers_at, scalars_at, messages_at};
ghost use Rattle.pbf_wire.specs.declared.limits.TheConstants.{SUM_LIMIT};

/// No spelling of a varint begins another.
#[tactic(auto, using(crate::proofs::Spellings::prefix_free))]
pub fn varints_are_prefix_free()
    ensures { (s t x y : List ℕ) (a b : ℕ) → IsVarint a s → IsVarint b t → s ++ x ≡ t ++ y
        → (s ≡ t) × (a ≡ b) × (x ≡ y) }
{}

/// The shortest spelling is a spelling, no other is shorter, and it is read back whatever follows it.
#[tactic(auto, using(crate::proofs::Shortest::shortest_spells, crate::proofs::Shortest::shortest_least, crate::proofs::Spellings::spelling_is_read))]
pub fn shortest_is_shortest()
    ensures spelling { (v : ℕ) → v < 2 ^ 64 → IsVarint v (shortest v) }
    ensures least { (v : ℕ) (s : List ℕ) → IsVarint v s → length (shortest v) ≤ length s }
    ensures reads_back { (v : ℕ) (rest : List ℕ) → v < 2 ^ 64
        → varint_at (shortest v ++ rest) ≡ Ok (v, length (shortest v)) }
{}

/// Spellings that are joined, shortest or not, are read back one by one, and are no other spellings joined. So packed numbers are
/// read back.
#[tactic(auto, using(crate::proofs::Written::joined_read, crate::proofs::Written::joined_only, crate::proofs::Written::column_reads_back))]
pub fn joined_spellings_are_read()
    ensures numbers { (pairs : List (ℕ × List ℕ)) → AllByRecursion (λ p. IsVarint p.0 p.1) pairs
        → entries (flat_map (λ p. p.1) pairs) ≡ map (λ p. Ok p.0) pairs }
    ensures only { (pairs others : List (ℕ × List ℕ)) → AllByRecursion (λ p. IsVarint p.0 p.1) pairs
        → AllByRecursion (λ p. IsVarint p.0 p.1) others
        → flat_map (λ p. p.1) pairs ≡ flat_map (λ p. p.1) others → pairs ≡ others }
    ensures packed { (numbers : List ℕ) → AllByRecursion (λ n. n < 2 ^ 64) numbers
        → entries (packed numbers) ≡ map Ok numbers }
{}

/// The items of a message are the occurrences of its longest prefix that has a cutting into spellings, and then the fault
/// of what is left. If the whole message has a cutting, it is this one.
#[tactic(auto, using(crate::proofs::Cutting::is_cutting, crate::proofs::Cutting::only_cut))]
pub fn one_cutting()
    ensures longest { (at : ℕ) (m : List ℕ)
        → IsCutting at m (found (items at m)) (fault_of (items at m)) }
    ensures only { (at : ℕ) (m : List ℕ) (os : List Occurrence) → Joins at m os
        → (found (items at m) ≡ os) × (fault_of (items at m) ≡ None) }
{}

/// A message has the same occurrences wherever in the file it is, except for their places.
#[tactic(auto, using(crate::proofs::PlaceLemmas::moved))]
pub fn places_move_alike()
    ensures { (at to : ℕ) (m : List ℕ)
        → map without_places (found (items at m)) ≡ map without_places (found (items to m)) }
{}

/// Signed numbers are read back: by zigzag all of them, by two's complement those of 64 and of 32 bits. A negative number in
/// two's complement takes ten bytes.
#[tactic(auto, using(crate::proofs::SumLemmas::ten_bytes))]
pub fn signed_numbers_are_read()
    ensures zigzag { (z : ℤ) → unzigzag (zigzag z) ≡ z }
    ensures wide { (z : ℤ) → neg_ℤ (pos (2 ^ 63)) ≤ℤ z → z <ℤ pos (2 ^ 63)
        → low_i64 (sign_extended z) ≡ z }
    ensures narrow { (z : ℤ) → neg_ℤ (pos (2 ^ 31)) ≤ℤ z → z <ℤ pos (2 ^ 31)
        → low_i32 (sign_extended z) ≡ z }
    ensures fit { (z : ℤ) → neg_ℤ (pos (2 ^ 63)) ≤ℤ z → z <ℤ pos (2 ^ 63)
        → sign_extended z < 2 ^ 64 }
    ensures ten_bytes { (n : ℕ) → n < 2 ^ 63 → length (shortest (sign_extended (negsuc n))) ≡ 10 }
{}

/// A running sum is, at each entry, the sum of that entry and all before it; and the sums of the differences of values are
/// the values. If no sum is out of range, the sums up to the first that is out of range are all sums. If the values are in range, their
/// differences fit 64 bits.
#[tactic(auto, using(crate::proofs::SumLemmas::running_sums, crate::proofs::SumLemmas::sums_of_deltas, crate::proofs::SumLemmas::sums_in_range, crate::proofs::SumLemmas::deltas_fit))]
pub fn sums_undo_differences()
    ensures running { (entries : List ℤ) → sums_from (pos 0) entries ≡ sums entries }
    ensures values { (values : List ℤ) → sums (map unzigzag (deltas values)) ≡ values }
    ensures within { (limit : ℤ) (entries : List ℤ) → AllByRecursion (IsWithin limit) (sums entries)
        → sums_within limit (pos 0) entries ≡ sums entries }
    ensures fit { (values : List ℤ) → AllByRecursion (IsWithin (pos SUM_LIMIT)) values
        → AllByRecursion (λ n. n < 2 ^ 64) (deltas values) }
{}

/// A message in written form is read back, wherever in the file it is: its occurrences are the written fields in order, each field number
/// reads as what was written there, its embedded messages are shorter than it is, and if its slots have the types of the
/// known fields it has no wire fault.
#[tactic(auto, using(crate::proofs::MessageLemmas::items_written, crate::proofs::MessageLemmas::column_written, crate::proofs::MessageLemmas::last_written, crate::proofs::MessageLemmas::each_written, crate::proofs::MessageLemmas::no_wire_fault))]
pub fn written_message_is_read()
    ensures items { (at : ℕ) (slots : List Slot) → AllByRecursion SlotFits slots
        → length (message slots) < 2 ^ 64
        → items at (message slots) ≡ map Ok (occurrences_of at (flat_map parts_of slots)) }
    ensures columns { (k at : ℕ) (slots : List Slot) → AllByRecursion SlotFits slots
        → length (message slots) < 2 ^ 64
        → column k (found (items at (message slots))) ≡ flat_map (numbers_at k) slots }
    ensures numbers { (k at : ℕ) (slots : List Slot) → AllByRecursion SlotFits slots
        → length (message slots) < 2 ^ 64
        → last_number k (found (items at (message slots)))
        ≡ last_or None (flat_map (scalars_at k) slots) }
    ensures messages { (k at : ℕ) (slots : List Slot) → AllByRecursion SlotFits slots
        → length (message slots) < 2 ^ 64
        → each k (found (items at (message slots))) ≡ flat_map (messages_at k) slots }
    ensures sound { (kinds : List (ℕ × Kind)) (at : ℕ) (slots : List Slot)
        → AllByRecursion (SlotIs kinds) slots → AllByRecursion SlotFits slots
        → length (message slots) < 2 ^ 64 → wire kinds (items at (message slots)) ≡ None }
    ensures shorter { (n : ℕ) (slots : List Slot) → length (message slots) < n
        → AllByRecursion (SlotBelow n) slots }
{}

/// The least of a list of faults is one of them, and none of them is less; only an empty list has none. The least of a
/// joined list is the lesser of the least of its parts.
#[tactic(auto, using(crate::proofs::LeastLemmas::least_is, crate::proofs::LeastLemmas::least_joined))]
pub fn least_is_least()
    ensures least { (faults : List Fault) → IsLeastBy fault_rank (least faults) faults }
    ensures parts { (faults others : List Fault)
        → least (faults ++ others) ≡ lesser (least faults) (least others) }
{}

/// Reasons are declared in the order of their numbers, so faults are compared by offset, then by the reason's number, then by the
/// field of `Missing`.
#[tactic(auto, using(crate::proofs::ReasonLemmas::by_number))]
pub fn faults_go_by_number()
    ensures { (one other : Fault) → is_less (fault_rank one) (fault_rank other)
        ≡ is_less (one.offset ∷ reason_number one.reason ∷ missing_field one.reason ∷ [])
        (other.offset ∷ reason_number other.reason ∷ missing_field other.reason ∷ []) }
{}

/// If faults are found phase by phase, the least of the first phase that has one is the least of all: phases are one order, in
/// which a fault comes before those of later phases.
#[tactic(auto, using(crate::proofs::PhaseLemmas::phases_joined))]
pub fn phases_are_one_order()
    ensures { (first : ℕ) (phases : List (List Fault))
        → option_map (λ p. p.1) (least_by phase_rank (in_phases first phases)) ≡ first_fault phases }
{}

/// In a message without a wire fault, a column has as many numbers as bytes of it end a varint, with one for each single number:
/// so its numbers are counted without being decoded.
#[tactic(auto, using(crate::proofs::SoundLemmas::whole_count))]
pub fn counts_are_lengths()
    ensures { (kinds : List (ℕ × Kind)) (k at : ℕ) (m : List ℕ) → kind_of kinds k ≡ Some kind.Column
        → wire kinds (items at m) ≡ None
        → column_count k (fields_in at m) ≡ length (joined k (fields_in at m)) }
{}
