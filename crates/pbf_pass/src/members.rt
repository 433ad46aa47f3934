//! Gathers the refs of ways that were added for relations that are wanted whole.

ghost use Rattle.std.specs.Prelude.{◌≡◌};
ghost use Rattle.pbf_pass.specs.Pass.{with_added_way};

use crate::pass::{Gather, seen};
use osm_entity::EntityRef;
use osm_ways::MemberPhase;
use pbf_block::{Kinds, Unmade};
use pbf_dense::Dense;
use std::alloc::AllocError;

impl Gather for MemberPhase {
    ghost gathered = { with_added_way };

    fn kinds() -> Kinds {
        Kinds {
            nodes: false,
            ways: true,
            relations: false,
        }
    }

    fn gather(&mut self, entity: &EntityRef<'_>) -> Result<(), AllocError> {
        match entity {
            EntityRef::Way(way) => self.take_way(way),
            EntityRef::Node(_) | EntityRef::Relation(_) => Ok(()),
        }
    }

    fn gather_way(&mut self, unmade: &Unmade<'_>) -> Result<(), AllocError> {
        self.take_refs(seen(unmade))
    }

    #[tactic(auto, using(crate::proofs::GatherLemmas::added_ways_of_nodes))]
    fn gather_dense(&mut self, _dense: &Dense<'_>) -> Result<(), AllocError> {
        Ok(())
    }
}
