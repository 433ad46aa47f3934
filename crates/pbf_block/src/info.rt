//! An Info: who changed an entity, and when. Its fields, what is judged of them, and how they are read.

ghost use Rattle.std.specs.Prelude.{◌≡◌};
ghost use Rattle.std.specs.Option.{option_map};
ghost use Rattle.pbf_wire.specs.Fields.{occurrence};
ghost use Rattle.pbf_wire.specs.Faults.{fields_of, found_in};
ghost use Rattle.pbf_wire.specs.Reading.{last_number};
ghost use Rattle.osm_entity.specs.Sources.{named};
ghost use Rattle.osm_entity.specs.Views.{meta_of};
ghost use Rattle.pbf_dense.specs.declared.dense_info.TheConstants.{USER_SID};
ghost use Rattle.pbf_block.specs.Info.{info_in, info_values};

use crate::ranges::{judge_uid, judge_user, judge_wide};
use osm_entity::MetaRef;
use pbf_dense::dense_info::{CHANGESET, TIMESTAMP, UID, USER_SID, VERSION, VISIBLE};
use pbf_strings::Table;
use pbf_wire::{
    Fault, Field, JudgeMessage, Kind, Message, Payload, last_number, last_value_left, lesser,
    low_i32, low_i64, low_u32,
};

/// How the fields of an Info are stored. They have the numbers of those of a DenseInfo.
pub(crate) const INFO_KINDS: [(u64, Kind); 6] = [
    (VERSION, Kind::Number),
    (TIMESTAMP, Kind::Number),
    (CHANGESET, Kind::Number),
    (UID, Kind::Number),
    (USER_SID, Kind::Number),
    (VISIBLE, Kind::Number),
];

/// The values of an Info whose user is named in a table of `limit` texts.
#[derive(Clone, Copy)]
pub(crate) struct InfoRanges {
    pub(crate) limit: u64,
}

impl JudgeMessage for InfoRanges {
    ghost faults = { λ info. info_values info.limit };

    #[tactic(auto, using(crate::proofs::Parts::lesser_parts))]
    fn judge_message(&self, message: Message<'_>, _place: u64) -> Option<Fault> {
        let last = |number| last_value_left(message.fields(), number);
        let times = lesser(judge_wide(last(TIMESTAMP)), judge_wide(last(CHANGESET)));
        let signed = lesser(times, judge_uid(last(UID)));
        lesser(signed, judge_user(last(USER_SID), self.limit))
    }
}

/// The Info that a field holds, and one without fields if it is absent.
#[tactic(auto, unfolding(crate::proofs::Parts::items_past))]
fn info_or_none(info: Option<Field<'_>>) -> Message<'_>
    ensures { found_in result ≡ fields_of (option_map occurrence info.entry) }
{
    let Some(
        Field {
            payload: Payload::Bytes(bytes, at),
            ..
        },
    ) = info
    else {
        return Message { bytes: &[], at: 0 };
    };
    Message { bytes, at }
}

/// The text of the user, of whose number the low 32 bits count; empty if the table has none.
fn user_in<'a>(info: Message<'_>, table: &'a Table<'a>) -> Option<&'a [u8]>
    ensures { option_map (λ text. text.now) result
        ≡ option_map (named table.now) (last_number USER_SID (found_in info.entry)) }
{
    let number = last_number(info, USER_SID)?;
    Some(table.text(low_u32(number) as usize))
}

/// The metadata that a field holds: nothing if it is absent.
pub(crate) fn meta_in<'a>(info: Option<Field<'a>>, table: &'a Table<'a>) -> MetaRef<'a>
    ensures { meta_of result ≡ info_in table.now (fields_of (option_map occurrence info.entry)) }
{
    let info = info_or_none(info);
    MetaRef {
        version: last_number(info, VERSION).map(|number| low_i32(number)),
        timestamp: last_number(info, TIMESTAMP).map(|number| low_i64(number)),
        changeset: last_number(info, CHANGESET).map(|number| low_i64(number)),
        uid: last_number(info, UID).map(|number| low_i32(number)),
        user: user_in(info, table),
        visible: last_number(info, VISIBLE).map(|number| number != 0),
    }
}
