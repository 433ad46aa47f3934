//! The entities of a PrimitiveBlock.

use crate::runs::{Run, Runs};
use osm_entity::EntityRef;
use pbf_dense::Dense;

/// The entities of a block that are still to come, in the order of its groups: an iterator over its runs, which does not allocate. A
/// copy of it continues by itself.
#[derive(Clone, Copy)]
pub struct Entities<'a> {
    /// What is left of the dense message that was begun.
    dense: Option<Dense<'a>>,
    runs: Runs<'a>,
}

impl<'a> Entities<'a> {
    ghost use Rattle.std.specs.Prelude.{◌≡◌};
    ghost use Rattle.pbf_block.specs.Runs.{entities_left, joined_runs, runs_left};

    /// The entities of these runs.
    pub(crate) fn of(runs: Runs<'a>) -> Entities<'a>
        ensures { entities_left result ≡ joined_runs (runs_left runs.entry) }
    {
        Entities { dense: None, runs }
    }
}

impl<'a> Iterator for Entities<'a> {
    ghost use Rattle.std.specs.Iterator.{YieldsFirstBy, item_count};
    ghost use Rattle.osm_entity.specs.Views.{entity_of};
    ghost use Rattle.pbf_block.specs.Runs.{entities_left};

    type Item = EntityRef<'a>;

    ghost next_gives = { YieldsFirstBy entity_of entities_left };

    ghost remaining = { item_count entities_left };

    fn next(&mut self) -> Option<EntityRef<'a>> {
        'runs: loop {
            if let Some(dense) = &mut self.dense {
                if let Some(node) = dense.next() {
                    return Some(EntityRef::Node(node));
                }
            }
            match self.runs.next()? {
                Run::Nothing => {}
                Run::Node(unmade) => return Some(EntityRef::Node(unmade.node())),
                Run::Way(unmade) => return Some(EntityRef::Way(unmade.way())),
                Run::Relation(unmade) => return Some(EntityRef::Relation(unmade.relation())),
                Run::Dense(unmade) => self.dense = Some(unmade.nodes()),
            }
        }
    }
}
