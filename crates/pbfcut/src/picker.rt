//! Which entities are written, by what was chosen.

ghost use Rattle.std.specs.Prelude.{true, false, ℤ, ◌≡◌, IsTrue};
ghost use Rattle.std.specs.Option.{option_map};
ghost use Rattle.osm_entity.specs.Entity.{way};
ghost use Rattle.osm_entity.specs.Views.{entity_of};
ghost use Rattle.pbf_wire.specs.Spans.{is_in};
ghost use Rattle.pbf_block.specs.Runs.{way_from};
ghost use Rattle.pbfcut.specs.Pick.{pick_of, take_of, picks_of, picks_id};

use osm_entity::EntityRef;
use osm_ways::{Chooser, Chosen, SeenWay};
use pbf_block::Unmade;
use pbf_wire::{EMPTY_SPAN, Span};

/// What was chosen, to test many entities one after another.
fn chooser_of(chosen: Option<&Chosen>) -> Option<Chooser<'_>>
    ensures { result ≡ option_map (λ c. c.now) chosen.entry }
{
    match chosen {
        None => None,
        Some(chosen) => Some(chosen.chooser()),
    }
}

/// Which entities are written, for many of them one after another: the look-ups of ids that lie close together are cheap.
#[derive(Drop)]
pub(crate) struct Picker<'a> {
    /// What was chosen; all of them if nothing was.
    pub(crate) chooser: Option<Chooser<'a>>,
    /// Whether ways are looked up by their ids first, as can be done in the file that was chosen from.
    pub(crate) by_ids: bool,
}

impl<'a> Picker<'a> {
    /// Those that were chosen, or all if nothing was.
    #[tactic(auto, unfolding(crate::specs::Pick::pick_of, crate::specs::Pick::picks_of))]
    pub(crate) fn of(chosen: Option<&'a Chosen>) -> Picker<'a>
        ensures { picks_of result ≡ pick_of chosen.entry }
    {
        Picker {
            chooser: chooser_of(chosen),
            by_ids: false,
        }
    }

    /// The same in the file that was chosen from.
    #[tactic(auto, unfolding(crate::specs::Pick::take_of, crate::specs::Pick::picks_of))]
    pub(crate) fn of_taken(chosen: Option<&'a Chosen>) -> Picker<'a>
        ensures { picks_of result ≡ take_of chosen.entry }
    {
        Picker {
            chooser: chooser_of(chosen),
            by_ids: true,
        }
    }

    /// Whether an entity is written.
    #[tactic(auto, unfolding(crate::specs::Pick::picks_of))]
    pub(crate) fn picks(&mut self, entity: &EntityRef<'_>) -> bool
        ensures picked { result ≡ picks_of self.old (entity_of entity.now) }
        ensures same { self.new ≡ self.old }
    {
        match &mut self.chooser {
            None => true,
            Some(chooser) => match entity {
                EntityRef::Node(node) => chooser.keeps_node(node.id()),
                EntityRef::Way(way) if self.by_ids => chooser.takes_way(SeenWay::of(way)),
                EntityRef::Way(way) => chooser.keeps_way(way),
                EntityRef::Relation(relation) => chooser.keeps_relation(relation),
            },
        }
    }

    /// Whether a way that is not made yet is written.
    #[tactic(auto, unfolding(crate::specs::Pick::picks_of))]
    pub(crate) fn picks_way(&mut self, unmade: &Unmade<'_>) -> bool
        ensures picked { result ≡ picks_of self.old (way (way_from unmade.now)) }
        ensures same { self.new ≡ self.old }
    {
        match &mut self.chooser {
            None => true,
            Some(chooser) => {
                let (id, refs) = unmade.id_and_refs();
                let way = SeenWay { id, refs };
                if self.by_ids {
                    chooser.takes_way(way)
                } else {
                    chooser.keeps_seen(way)
                }
            }
        }
    }

    /// Whether nodes of this id are written.
    #[tactic(auto, unfolding(crate::specs::Pick::picks_id))]
    pub(crate) fn picks_id(&mut self, id: i64) -> bool
        ensures picked { result ≡ picks_id self.old id }
        ensures same { self.new ≡ self.old }
    {
        match &mut self.chooser {
            None => true,
            Some(chooser) => chooser.keeps_node(id),
        }
    }

    /// Whether all nodes are written, whatever their ids are.
    #[tactic(auto, unfolding(crate::specs::Pick::picks_id))]
    pub(crate) fn picks_all(&self) -> bool
        ensures { IsTrue result → (id : ℤ) → picks_id self.now id ≡ true }
    {
        self.chooser.is_none()
    }

    /// Ids of which no node is written, as far as the last look-ups showed: none if they showed nothing.
    #[tactic(auto, unfolding(crate::specs::Pick::picks_id))]
    pub(crate) fn absent(&self) -> Span
        ensures { (id : ℤ) → is_in result id ≡ true → picks_id self.now id ≡ false }
    {
        match &self.chooser {
            None => EMPTY_SPAN,
            Some(chooser) => chooser.absent(),
        }
    }

    /// Ids of which all nodes are written, as far as the last look-up showed: none if it showed nothing.
    #[tactic(auto, unfolding(crate::specs::Pick::picks_id))]
    pub(crate) fn present(&self) -> Span
        ensures { (id : ℤ) → is_in result id ≡ true → picks_id self.now id ≡ true }
    {
        let Some(chooser) = &self.chooser else {
            return EMPTY_SPAN;
        };
        chooser.present()
    }
}
