//! The entities of a PrimitiveBlock, those of a dense message together.

ghost use Rattle.std.specs.Prelude.{◌≡◌};
ghost use Rattle.pbf_wire.specs.Fields.{occurrence};
ghost use Rattle.pbf_block.specs.Kinds.{member_entities_among};
ghost use Rattle.pbf_block.specs.PrimitiveBlock.{streaming};
ghost use Rattle.pbf_block.specs.Runs.{run_entities};

use crate::group::{DENSE, NODES, RELATIONS, WAYS};
use crate::kinds::Kinds;
use crate::members::GroupFields;
use crate::unmade::Unmade;
use osm_entity::Scale;
use pbf_strings::Table;
use pbf_wire::{Field, Message, Payload};

/// Entities that one field of a group holds.
#[derive(Clone, Copy)]
pub enum Run<'a> {
    /// None, or none of the wanted kinds.
    Nothing,
    /// A node, which is not made yet.
    Node(Unmade<'a>),
    /// A way, which is not made yet.
    Way(Unmade<'a>),
    /// A relation, which is not made yet.
    Relation(Unmade<'a>),
    /// The nodes of a dense message, of which none is made yet.
    Dense(Unmade<'a>),
}

/// What a field of a group holds, if it is of these kinds.
pub(crate) fn run_in<'a>(
    field: Field<'a>,
    table: &'a Table<'a>,
    scale: Scale,
    kinds: Kinds,
) -> Run<'a>
    ensures { run_entities result
        ≡ member_entities_among kinds streaming table.now scale (occurrence field.entry) }
{
    if !kinds.are_in(field.number) {
        return Run::Nothing;
    }
    let Payload::Bytes(bytes, at) = field.payload else {
        return Run::Nothing;
    };
    let unmade = Unmade {
        message: Message { bytes, at },
        table,
        scale,
    };
    match field.number {
        NODES => Run::Node(unmade),
        DENSE => Run::Dense(unmade),
        WAYS => Run::Way(unmade),
        RELATIONS => Run::Relation(unmade),
        _ => Run::Nothing,
    }
}

/// The runs of a block that are still to come, one for each field of its groups, in order: an iterator over the payload, which
/// does not allocate.
#[derive(Clone, Copy)]
pub struct Runs<'a> {
    members: GroupFields<'a>,
    table: &'a Table<'a>,
    scale: Scale,
    kinds: Kinds,
}

impl<'a> Runs<'a> {
    ghost use Rattle.pbf_wire.specs.Faults.{found_in};
    ghost use Rattle.pbf_block.specs.Kinds.{entities_among};
    ghost use Rattle.pbf_block.specs.Runs.{joined_runs, runs_left};

    /// The runs of a payload, whatever is wrong with it.
    pub(crate) fn over(
        payload: Message<'a>,
        table: &'a Table<'a>,
        scale: Scale,
        kinds: Kinds,
    ) -> Runs<'a>
        ensures { joined_runs (runs_left result)
            ≡ entities_among kinds streaming table.now scale (found_in payload.entry) }
    {
        Runs {
            members: GroupFields::over(payload),
            table,
            scale,
            kinds,
        }
    }
}

impl<'a> Iterator for Runs<'a> {
    ghost use Rattle.std.specs.Iterator.{YieldsFirstBy, item_count};
    ghost use Rattle.pbf_block.specs.Runs.{runs_left};

    type Item = Run<'a>;

    ghost next_gives = { YieldsFirstBy run_entities runs_left };

    ghost remaining = { item_count runs_left };

    /// It is inlined, so that a run stays in registers.
    #[inline(always)]
    #[tactic(auto, unfolding(crate::specs::Runs::runs_left))]
    fn next(&mut self) -> Option<Run<'a>> {
        let field = self.members.next()?;
        Some(run_in(field, self.table, self.scale, self.kinds))
    }
}
