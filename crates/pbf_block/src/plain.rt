//! Ways and Infos as most are: each field once, in the order of their numbers, and none that is unknown. They are read straight on,
//! without a loop over fields. A quick test that says nothing of other messages, which are judged field by field.
//!
//! All parts of a way are read in one function, without a call for each.

ghost use Rattle.std.specs.Prelude.{◌≡◌, ◌-◌, ◌/◌, ◌<◌, ◌≤◌, [], ℕ, List, Ok, IfSome, IsTrue, drop, length, slice_index};
ghost use Rattle.pbf_wire.specs.Varint.{varint_at};
ghost use Rattle.pbf_wire.specs.Faults.{embedded, fields_in};
ghost use Rattle.osm_entity.specs.Sources.{refs_left, tags_left};
ghost use Rattle.osm_entity.specs.Views.{meta_of};
ghost use Rattle.pbf_block.specs.Entity.{tags_in, values_in};
ghost use Rattle.pbf_block.specs.Info.{info_in, info_values};
ghost use Rattle.pbf_block.specs.Plain.{IsTag, BeginsWithNumber, BeginsWithBytes, IsPlainWay, IsPlainInfo};
ghost use Rattle.pbf_block.specs.PrimitiveBlock.{streaming};
ghost use Rattle.pbf_block.specs.Clean.{AreTags, IsCleanWay, NamesTexts};
ghost use Rattle.pbf_block.specs.declared.entity.TheConstants.{INFO};
ghost use Rattle.pbf_block.specs.declared.way.TheConstants.{REFS};

use crate::ranges::{judge_uid, judge_user, judge_wide};
use osm_entity::{MetaRef, PairedTags, Refs, STORED_LIMIT, Tags};
use pbf_strings::Table;
use pbf_wire::{
    Column, Message, Sums, get_varint, is_short, judge_index, lesser, low_i32, low_i64, low_u32,
};

// Tags of one byte: eight times the field's number, and 2 if it holds bytes. First those of a way, then those of an Info.
const ID_TAG: u8 = 8;

const KEYS_TAG: u8 = 18;

const VALS_TAG: u8 = 26;

const INFO_TAG: u8 = 34;

const REFS_TAG: u8 = 66;

const VERSION_TAG: u8 = 8;

const TIMESTAMP_TAG: u8 = 16;

const CHANGESET_TAG: u8 = 24;

const UID_TAG: u8 = 32;

const USER_SID_TAG: u8 = 40;

/// The varint after a tag of one byte, and the index after it, if the bytes begin with that tag.
#[inline(always)]
fn after_tag(bytes: &[u8], tag: u8) -> Option<(u64, usize)>
    ensures { IfSome result (λ found. (0 < length bytes.now) × (slice_index bytes.now 0 ≡ tag)
        × (varint_at (drop 1 bytes.now) ≡ Ok (found.0, found.1 - 1))
        × (1 < found.1) × (found.1 ≤ length bytes.now)) }
{
    let [first, second, ..] = bytes else {
        return None;
    };
    if *first != tag {
        return None;
    }
    if *second < 128 {
        return Some((u64::from(*second), 2));
    }
    let Ok(found) = get_varint(bytes, 1) else {
        return None;
    };
    Some(found)
}

/// The number of the field that the bytes begin with, if it has this tag, and the bytes after it.
#[inline(always)]
fn number_front(bytes: &[u8], tag: u8) -> Option<(u64, &[u8])>
    requires { IsTag 0 tag }
    ensures { IfSome result (λ front. (at : ℕ)
        → BeginsWithNumber at bytes.now (tag / 8) front.0 front.1.now) }
{
    let (number, after) = after_tag(bytes, tag)?;
    Some((number, &bytes[after..]))
}

/// The bytes of the field that the bytes begin with, if it has this tag, and the bytes after it.
#[inline(always)]
fn bytes_front(bytes: &[u8], tag: u8) -> Option<(&[u8], &[u8])>
    requires { IsTag 2 tag }
    ensures { IfSome result (λ front. (at : ℕ)
        → BeginsWithBytes at bytes.now (tag / 8) front.0.now front.1.now) }
{
    let (size, after) = after_tag(bytes, tag)?;
    let rest = &bytes[after..];
    if (rest.len() as u64) < size {
        return None;
    }
    let size = size as usize;
    Some((&rest[..size], &rest[size..]))
}

/// A way with one id, keys, values, an Info and refs.
#[derive(Clone, Copy)]
pub(crate) struct PlainWay<'a> {
    pub(crate) id: u64,
    keys: &'a [u8],
    vals: &'a [u8],
    info: &'a [u8],
    refs: &'a [u8],
}

/// The fields of a way, if it is plain.
#[inline(always)]
pub(crate) fn plain_way(bytes: &[u8]) -> Option<PlainWay<'_>>
    ensures { IfSome result (λ way. (at : ℕ) → IsPlainWay way at bytes.now) }
{
    let (id, rest) = number_front(bytes, ID_TAG)?;
    let (keys, rest) = bytes_front(rest, KEYS_TAG)?;
    let (vals, rest) = bytes_front(rest, VALS_TAG)?;
    let (info, rest) = bytes_front(rest, INFO_TAG)?;
    let (refs, rest) = bytes_front(rest, REFS_TAG)?;
    if !rest.is_empty() {
        return None;
    }
    Some(PlainWay {
        id,
        keys,
        vals,
        info,
        refs,
    })
}

/// The numbers of an Info with a version, a time, a changeset and a user.
#[derive(Clone, Copy)]
pub(crate) struct PlainInfo {
    version: u64,
    timestamp: u64,
    changeset: u64,
    uid: u64,
    user: u64,
}

/// The numbers of an Info, if it is plain.
#[inline(always)]
fn plain_info(bytes: &[u8]) -> Option<PlainInfo>
    ensures { IfSome result (λ info. (at : ℕ) → IsPlainInfo info at bytes.now) }
{
    let (version, rest) = number_front(bytes, VERSION_TAG)?;
    let (timestamp, rest) = number_front(rest, TIMESTAMP_TAG)?;
    let (changeset, rest) = number_front(rest, CHANGESET_TAG)?;
    let (uid, rest) = number_front(rest, UID_TAG)?;
    let (user, rest) = number_front(rest, USER_SID_TAG)?;
    if !rest.is_empty() {
        return None;
    }
    Some(PlainInfo {
        version,
        timestamp,
        changeset,
        uid,
        user,
    })
}

impl<'a> PlainWay<'a> {
    /// Its refs.
    pub(crate) fn refs(&self) -> Refs<'a>
        ensures { (at : ℕ) (m : List ℕ) → IsPlainWay self.now at m
            → refs_left result ≡ values_in streaming REFS (fields_in at m) }
    {
        Refs::Summed(Sums::new(Column::packed(self.refs), STORED_LIMIT))
    }

    /// Its tags.
    pub(crate) fn tags(&self, table: &'a Table<'a>) -> Tags<'a>
        ensures { (at : ℕ) (m : List ℕ) → IsPlainWay self.now at m
            → tags_left result ≡ tags_in table.now (fields_in at m) }
    {
        let keys = Column::packed(self.keys);
        let vals = Column::packed(self.vals);
        Tags::Paired(PairedTags::new(keys, vals, table))
    }

    /// Its metadata, if its Info is plain too.
    pub(crate) fn meta(&self, table: &'a Table<'a>) -> Option<MetaRef<'a>>
        ensures { IfSome result (λ meta. (at : ℕ) (m : List ℕ) → IsPlainWay self.now at m
            → meta_of meta ≡ info_in table.now (embedded INFO (fields_in at m))) }
    {
        let info = plain_info(self.info)?;
        Some(MetaRef {
            version: Some(low_i32(info.version)),
            timestamp: Some(low_i64(info.timestamp)),
            changeset: Some(low_i64(info.changeset)),
            uid: Some(low_i32(info.uid)),
            user: Some(table.text(low_u32(info.user) as usize)),
            visible: None,
        })
    }
}

/// Messages of at most so many bytes have no more than 2^26 refs.
const MOST_WAY_BYTES: usize = 1 << 26;

/// Whether the values of a plain Info are in range, and the table of `limit` texts has one for its user.
fn is_info_valued(info: PlainInfo, limit: u64) -> bool
    ensures { IsTrue result → (place at : ℕ) (m : List ℕ) → IsPlainInfo info at m
        → info_values limit place at m ≡ [] }
{
    let times = lesser(
        judge_wide(Some((0, info.timestamp))),
        judge_wide(Some((0, info.changeset))),
    );
    let signed = lesser(times, judge_uid(Some((0, info.uid))));
    lesser(signed, judge_user(Some((0, info.user)), limit)).is_none()
}

/// How many numbers a packed column has, if its bytes are whole varints and a table of `limit` texts has one for each number.
fn named_count(packed: &[u8], limit: u64) -> Option<usize>
    ensures { IfSome result (λ count. NamesTexts limit count packed.now) }
{
    let mut count = 0;
    let mut rest = packed;
    'numbers: while !rest.is_empty() {
        let Ok((number, after)) = get_varint(rest, 0) else {
            return None;
        };
        if judge_index(0, number, limit).is_some() {
            return None;
        }
        rest = &rest[after..];
        count += 1;
    }
    Some(count)
}

/// Whether keys and values are whole varints, there are as many of them, and a table of `limit` texts has one for each.
fn are_tags(keys: &[u8], vals: &[u8], limit: u64) -> bool
    ensures { IsTrue result → AreTags limit keys.now vals.now }
{
    let (Some(keys), Some(vals)) = (named_count(keys, limit), named_count(vals, limit)) else {
        return false;
    };
    keys == vals
}

/// Whether a way is plain and so is its Info, its columns are whole varints, it has as many keys as values, its values are in range,
/// and the table of `limit` texts has one for each of its numbers: then no phase before the weights finds a fault. It is one call
/// for each way.
#[inline(never)]
pub(crate) fn is_plain_way(message: Message<'_>, limit: u64) -> bool
    ensures { IsTrue result → (place : ℕ)
        → IsCleanWay limit place message.entry.at message.entry.bytes.now }
{
    let Some(way) = plain_way(message.bytes) else {
        return false;
    };
    let Some(info) = plain_info(way.info) else {
        return false;
    };
    if judge_wide(Some((0, way.id))).is_some() || !is_info_valued(info, limit) {
        return false;
    }
    if !are_tags(way.keys, way.vals, limit) {
        return false;
    }
    message.bytes.len() <= MOST_WAY_BYTES && is_short(way.refs)
}
