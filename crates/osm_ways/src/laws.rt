//! The laws of the selection. Each is the contract of a function that does nothing: a proof that needs the law calls it, or
//! takes the lemma of that name from this crate's `proofs/`.

ghost use Rattle.std.specs.Prelude.{◌≡◌, Bool, true, false, List, map};
ghost use Rattle.std.specs.List.{filter, fold};
ghost use Rattle.std.specs.Ordering.{int_cmp};
ghost use Rattle.std.specs.FinSet as set;
ghost use Rattle.osm_area.specs.Area.{AreaSpec, IsAreaWithin, box_area};
ghost use Rattle.osm_box.specs.declared.bounding_box.BoundingBox.{BoundingBox};
ghost use Rattle.osm_box.specs.BoundingBox.{is_box_within};
ghost use Rattle.osm_entity.specs.Entity.{EntitySpec, TagSpec, decoded};
ghost use Rattle.osm_ids.specs.Links.{IsLeast};
ghost use Rattle.osm_ways.specs.Selection.{Seen, Strategy, complete_ways, all_parents, smart, node_ids, way_ids, all_levels, keeps, extract, IsWider, AreSeenWithin, WantsMore};
ghost use Rattle.osm_ways.specs.Seen.{seen_entity, seen_decoded};
ghost use Rattle.osm_ways.specs.Parents.{IsLeastSelected, links_in, start_in};
ghost use Rattle.osm_ways.specs.Added.{nothing_added};
ghost use Rattle.osm_ways.specs.First.{first_pass};
ghost use Rattle.osm_ways.specs.Phases.{KeptSets, start_ways, node_pass, nothing_found, relations_from, way_pass, relation_pass, member_pass, member_step, without_parents, is_chosen, is_taken};
ghost use Rattle.osm_ways.specs.Sorted.{is_sorted, sorted_pass};

/// An extract of an extract is the extract, by each strategy.
pub fn extract_twice_is_once<X>()
    ensures { (by : Strategy) (look : X → Seen) (xs : List X)
        → extract by look (extract by look xs) ≡ extract by look xs }
{}

/// Cuts compose: if a small look is within a large one, and the large look's extract is by a strategy that is as wide, the small
/// look's extract of it is its extract of the whole list.
pub fn extract_of_larger_is_extract<X>()
    ensures { (narrow wide : Strategy) → IsWider narrow wide
        → (small large : X → Seen) → AreSeenWithin small large → (xs : List X)
        → extract narrow small (extract wide large xs) ≡ extract narrow small xs }
{}

/// The look has to be as large: there are two looks and a list for which the large look drops what the small one needs.
pub fn larger_look_is_needed()
    ensures { ((small large : Seen → Seen) (xs : List Seen)
        → extract complete_ways small (extract complete_ways large xs)
        ≡ extract complete_ways small xs) → ⊥ }
{}

/// And the strategy has to be as wide: there is a list whose smart extract is more than that of its complete-ways extract.
pub fn larger_strategy_is_needed()
    ensures { ((whole : List TagSpec → Bool) (look : Seen → Seen) (xs : List Seen)
        → extract (smart whole) look (extract complete_ways look xs)
        ≡ extract (smart whole) look xs) → ⊥ }
{}

/// Each strategy keeps what those before it keep, and a smart one keeps more if it wants more relations whole: so any extract can be cut
/// out of a smart one that wants no fewer.
pub fn strategies_are_a_chain()
    ensures parents { IsWider complete_ways all_parents }
    ensures smart { (whole : List TagSpec → Bool) → IsWider all_parents (smart whole) }
    ensures types { (some more : List TagSpec → Bool) → WantsMore some more
        → IsWider (smart some) (smart more) }
{}

/// A large look's extract of a small look's extract is all of it, if it is by a strategy that is as wide.
pub fn extract_is_kept_by_larger<X>()
    ensures { (narrow wide : Strategy) → IsWider narrow wide
        → (small large : X → Seen) → AreSeenWithin small large → (xs : List X)
        → extract wide large (extract narrow small xs) ≡ extract narrow small xs }
{}

/// If an area lies in a larger one, for which no fewer relations are wanted whole, the look by it is within the look by the larger one, over
/// stored entities and over decoded ones.
pub fn area_within_area()
    ensures stored { (some more : List TagSpec → Bool) → WantsMore some more
        → (small large : AreaSpec) → IsAreaWithin small large
        → AreSeenWithin (seen_entity some small) (seen_entity more large) }
    ensures meant { (some more : List TagSpec → Bool) → WantsMore some more
        → (small large : AreaSpec) → IsAreaWithin small large
        → AreSeenWithin (seen_decoded some small) (seen_decoded more large) }
{}

/// A box lies in a larger one if its corners do.
pub fn box_within_box()
    ensures { (small large : BoundingBox) → is_box_within small large ≡ true
        → IsAreaWithin (box_area small) (box_area large) }
{}

/// If two views of an entity look alike to the selection, the extract of the one view is that view of the extract.
pub fn extract_follows_view<X, Y>()
    ensures { (by : Strategy) (view : X → Y) (look : X → Seen) (other : Y → Seen)
        → ((x : X) → other (view x) ≡ look x) → (xs : List X)
        → map view (extract by look xs) ≡ extract by other (map view xs) }
{}

/// The relations that are kept with all parents are the least set that has the id of each relation with a node member, a way
/// member or a relation member that is kept; and it is the least set over the links from each relation member to its relation
/// that holds the relations which nodes and ways select.
pub fn parents_are_least()
    ensures least { (by : Strategy) (seen : List Seen)
        → IsLeastSelected (node_ids by seen) (way_ids seen) seen (all_levels by seen) }
    ensures links { (by : Strategy) (seen : List Seen) (start ids : set.FinSet int_cmp)
        → set.contains start ≡ start_in by seen → IsLeast (links_in seen) start ids
        → set.contains ids ≡ all_levels by seen }
{}

/// One pass over nodes and ways gathers what two do, if no node comes after a way; otherwise what the one over nodes does.
pub fn one_pass_is_two()
    ensures in_order { (seen : List Seen)
        → (first_pass seen).in_order ≡ true → (first_pass seen).ways ≡ way_pass seen }
    ensures broken { (seen : List Seen) → (first_pass seen).in_order ≡ false
        → (first_pass seen).ways ≡ start_ways (node_pass seen) }
{}

/// If no node comes after a way, and neither after a relation, one pass gathers what three do; otherwise what the one over nodes does.
pub fn one_pass_is_three()
    ensures in_order { (seen : List Seen) → (sorted_pass seen).first.in_order ≡ true
        → relations_from (sorted_pass seen).first.ways (sorted_pass seen).found
        ≡ relation_pass seen }
    ensures broken { (seen : List Seen) → (sorted_pass seen).first.in_order ≡ false
        → ((sorted_pass seen).first.ways ≡ start_ways (node_pass seen))
        × ((sorted_pass seen).found ≡ nothing_found) }
    ensures sorted { (seen : List Seen)
        → (sorted_pass seen).first.in_order ≡ is_sorted seen }
{}

/// Over a whole list the passes keep what the extract keeps: of two passes, of nodes and of ways, the extract; of a third one,
/// of relations, and the least set over its links, the extract with all parents; and of a fourth one, of the ways that were added,
/// the smart extract. If none was added, the fourth changes nothing.
pub fn passes_are_extract()
    ensures ways { (seen : List Seen) → is_chosen (without_parents (way_pass seen))
        ≡ keeps complete_ways seen }
    ensures kept { (seen : List Seen) → (relation_pass seen).ways ≡ way_pass seen }
    ensures parents { (seen : List Seen) (ids : set.FinSet int_cmp)
        → IsLeast (set.contains (relation_pass seen).links) (relation_pass seen).start ids
        → is_chosen (record { ways = (relation_pass seen).ways; relation_ids = ids; added = nothing_added })
        ≡ keeps all_parents seen }
    ensures members { (seen : List Seen) (ids : set.FinSet int_cmp)
        → IsLeast (set.contains (relation_pass seen).links) (relation_pass seen).start ids
        → (whole : List TagSpec → Bool) → is_chosen (member_pass ids seen) ≡ keeps (smart whole) seen }
    ensures spared { (sets : KeptSets) → sets.added.ways ≡ set.empty → (seen : List Seen)
        → fold member_step sets seen ≡ sets }
{}

/// Of the list that the sets were gathered from they take by id and refs what they choose by the refs.
pub fn taken_are_chosen<X>()
    ensures { (look : X → Seen) (sets : KeptSets) (xs : List X)
        → sets.ways ≡ way_pass (map look xs)
        → filter (λ x. is_taken sets (look x)) xs ≡ filter (λ x. is_chosen sets (look x)) xs }
{}

/// The extract of stored entities is that of decoded ones: the selection sees both alike.
pub fn extract_is_decoded()
    ensures { (by : Strategy) (area : AreaSpec) (entities : List EntitySpec)
        → map decoded (extract by (seen_entity by.whole area) entities)
        ≡ extract by (seen_decoded by.whole area) (map decoded entities) }
{}
