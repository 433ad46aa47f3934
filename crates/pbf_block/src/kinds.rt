//! Kinds of entities.

ghost use Rattle.std.specs.Prelude.{◌≡◌, true};
ghost use Rattle.osm_entity.specs.Entity.{EntitySpec};
ghost use Rattle.pbf_block.specs.Kinds.{holds_kind, is_among};

use crate::group::{DENSE, NODES, RELATIONS, WAYS};

/// Which kinds of entities are wanted.
#[derive(Clone, Copy, Debug)]
pub struct Kinds {
    pub nodes: bool,
    pub ways: bool,
    pub relations: bool,
}

impl Kinds {
    /// All kinds.
    pub fn all() -> Kinds
        ensures { (e : EntitySpec) → is_among result e ≡ true }
    {
        Kinds {
            nodes: true,
            ways: true,
            relations: true,
        }
    }

    /// Whether the field of a group that has this number holds entities of one of the kinds.
    pub(crate) fn are_in(self, number: u64) -> bool
        ensures { result ≡ holds_kind self number }
    {
        match number {
            NODES | DENSE => self.nodes,
            WAYS => self.ways,
            RELATIONS => self.relations,
            _ => false,
        }
    }
}
