//! The laws of cutting. Each is the contract of a function that does nothing: a proof that needs the law calls it, or takes the
//! lemma of that name from this crate's `proofs/`.

ghost use Rattle.std.specs.Prelude.{◌≡◌, ◌≤◌, ◌++◌, [], List, true};
ghost use Rattle.std.specs.List.{flat_map, AllByRecursion};
ghost use Rattle.osm_entity.specs.Entity.{EntitySpec};
ghost use Rattle.osm_entity.specs.Ranges.{EntityFits};
ghost use Rattle.osm_entity.specs.Weight.{entity_weight};
ghost use Rattle.pbf_block.specs.WrittenBlock.{is_block};
ghost use Rattle.osm_pack.specs.Cuts.{cuts, AreLongest, MayStand, written_entities, at_end, pending_after, written_after};
ghost use Rattle.osm_entity.specs.declared.weight.TheConstants.{HIGHEST_WEIGHT};

/// The blocks of a list, joined, are the list; and if no entity is too heavy by itself, each may be a block.
#[tactic(auto, using(crate::proofs::CutLaws::cuts_joined, crate::proofs::CutLaws::cuts_kept))]
pub fn cuts_are_blocks()
    ensures joined { (es : List EntitySpec) → flat_map (λ block. block) (cuts es) ≡ es }
    ensures blocks { (es : List EntitySpec)
        → AllByRecursion (λ e. entity_weight e ≤ HIGHEST_WEIGHT) es
        → AllByRecursion (λ block. is_block block ≡ true) (cuts es) }
{}

/// Each block is as long as may be: it ends only where the next entity may not join it. A prefix of what may be a block may be one
/// too, so no two neighbours could have been one block. And no other list of blocks is so.
#[tactic(auto, using(crate::proofs::CutLaws::cuts_longest, crate::proofs::CutLaws::front_kept, crate::proofs::CutLaws::cuts_only))]
pub fn cuts_are_longest()
    ensures longest { (es : List EntitySpec) → AreLongest (cuts es) }
    ensures fronts { (xs ys : List EntitySpec) → is_block (xs ++ ys) ≡ true → is_block xs ≡ true }
    ensures only { (blocks : List (List EntitySpec)) → AllByRecursion MayStand blocks
        → AreLongest blocks → cuts (flat_map (λ block. block) blocks) ≡ blocks }
{}

/// Entities that come one by one are written as they are all together: what went out by then, and in the end what is pending.
/// What went out by then begins what is written for them and all that come later.
pub fn run_writes_all()
    ensures ends { (es : List EntitySpec) → AllByRecursion EntityFits es
        → written_after [] es ++ at_end (pending_after [] es) ≡ written_entities es }
    ensures begins { (es rest : List EntitySpec) → AllByRecursion EntityFits es
        → written_after [] es ++ written_entities (pending_after [] es ++ rest)
        ≡ written_entities (es ++ rest) }
{}
