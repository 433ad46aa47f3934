//! The fields of the groups of a PrimitiveBlock.

use crate::primitive_block::PRIMITIVEGROUP;
use pbf_wire::{Field, Fields, FoundFields, Message, Payload};

/// The fields of a block's groups that are still to come, in order: an iterator over the payload, which does not allocate.
#[derive(Clone, Copy)]
pub(crate) struct GroupFields<'a> {
    /// What is left of the group that was begun.
    fields: FoundFields<'a>,
    groups: FoundFields<'a>,
}

impl<'a> GroupFields<'a> {
    ghost use Rattle.std.specs.Prelude.{◌≡◌};
    ghost use Rattle.std.specs.List.{flat_map};
    ghost use Rattle.pbf_wire.specs.Faults.{found_in};
    ghost use Rattle.pbf_block.specs.Runs.{group_members, group_fields_left};

    /// The fields of all groups of a payload, whatever is wrong with it.
    #[tactic(auto, unfolding(crate::proofs::Parts::items_past))]
    pub(crate) fn over(payload: Message<'a>) -> GroupFields<'a>
        ensures { group_fields_left result ≡ flat_map group_members (found_in payload.entry) }
    {
        GroupFields {
            fields: Fields::new(&[], 0).found(),
            groups: payload.found(),
        }
    }
}

impl<'a> Iterator for GroupFields<'a> {
    ghost use Rattle.std.specs.Iterator.{YieldsFirstBy, item_count};
    ghost use Rattle.pbf_wire.specs.Fields.{occurrence};
    ghost use Rattle.pbf_block.specs.Runs.{group_fields_left};

    type Item = Field<'a>;

    ghost next_gives = { YieldsFirstBy occurrence group_fields_left };

    ghost remaining = { item_count group_fields_left };

    /// It is inlined, so that the cursor of a loop stays in registers.
    #[inline(always)]
    fn next(&mut self) -> Option<Field<'a>> {
        'groups: loop {
            if let Some(field) = self.fields.next() {
                return Some(field);
            }
            let field = self.groups.next()?;
            if field.number == PRIMITIVEGROUP {
                if let Payload::Bytes(bytes, at) = field.payload {
                    self.fields = Message { bytes, at }.found();
                }
            }
        }
    }
}
