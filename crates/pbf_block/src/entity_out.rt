//! Ways and relations, written.

ghost use Rattle.std.specs.Prelude.{◌≡◌, ◌++◌, ◌∷◌, [], ◌+◌, ◌*◌, ◌-◌, ◌≤◌, ◌<◌, ◌^◌, min, ℕ, List, OnOk, length};
ghost use Rattle.std.specs.Option.{option_to_list};
ghost use Rattle.pbf_wire.specs.Message.{Each, slot_bytes, message};
ghost use Rattle.pbf_strings.specs.TableOut.{texts_after};
ghost use Rattle.osm_entity.specs.EntityTexts.{tag_texts, way_texts, relation_texts};
ghost use Rattle.osm_entity.specs.Ranges.{WayFits, RelationFits};
ghost use Rattle.osm_entity.specs.Sources.{tags_left};
ghost use Rattle.osm_entity.specs.Views.{meta_of, way_of, relation_of};
ghost use Rattle.pbf_block.specs.WrittenEntity.{entity_slots, way_message, relation_message, writer_length, begun_length, KeepsColumns, MovesMessage, most_way_held, most_relation_held};
ghost use Rattle.pbf_strings.specs.declared.table.TheConstants.{MOST_USED_TEXTS};

use crate::entity::{ID, INFO, KEYS, VALS};
use crate::entity_write::{
    put_info, put_locations, put_member_fields, put_ref_fields, put_tag_fields,
};
use crate::group::{RELATIONS, WAYS};
use crate::relation::{MEMIDS, ROLES_SID, TYPES};
use crate::way::{REFS, WAY_LAT, WAY_LON};
use osm_entity::{MetaRef, RelationRef, Tags, WayRef};
use pbf_strings::TableOut;
use pbf_wire::{
    ColumnOut, DeltaOut, put_bytes, put_column, put_number, put_unless_empty, sign_extended,
};
use std::alloc::{AllocError, Global};
use std::hash::BuildHasher;

/// What writes ways and relations, each as a field of a group. The columns and the message of an entity are made first; when the
/// message is appended to a group they are removed, and the next entity's are made in the same room.
#[derive(Drop)]
pub struct EntityOut {
    keys: ColumnOut,
    values: ColumnOut,
    info: Vec<u8>,
    refs: DeltaOut,
    lats: DeltaOut,
    lons: DeltaOut,
    roles: ColumnOut,
    members: DeltaOut,
    kinds: ColumnOut,
    message: Vec<u8>,
}

impl EntityOut {
    /// It allocates nothing yet.
    pub fn new(alloc: Global) -> EntityOut
        ensures { writer_length result ≡ 0 }
    {
        EntityOut {
            keys: ColumnOut::new(alloc),
            values: ColumnOut::new(alloc),
            info: Vec::new(alloc),
            refs: DeltaOut::new(alloc),
            lats: DeltaOut::new(alloc),
            lons: DeltaOut::new(alloc),
            roles: ColumnOut::new(alloc),
            members: DeltaOut::new(alloc),
            kinds: ColumnOut::new(alloc),
            message: Vec::new(alloc),
        }
    }

    /// Removes all of an entity and keeps the room, also if writing it failed.
    pub fn clear(&mut self)
        ensures { writer_length self.new ≡ 0 }
    {
        self.keys.clear();
        self.values.clear();
        self.info.clear();
        self.refs.clear();
        self.lats.clear();
        self.lons.clear();
        self.roles.clear();
        self.members.clear();
        self.kinds.clear();
        self.message.clear();
    }

    /// How many bytes the columns and messages hold, or the greatest number if they are more.
    pub fn held(&self) -> u64
        ensures { result ≡ min (writer_length self.now) (2 ^ 64 - 1) }
    {
        self.keys
            .held()
            .saturating_add(self.values.held())
            .saturating_add(self.info.len() as u64)
            .saturating_add(self.refs.held())
            .saturating_add(self.lats.held())
            .saturating_add(self.lons.held())
            .saturating_add(self.roles.held())
            .saturating_add(self.members.held())
            .saturating_add(self.kinds.held())
            .saturating_add(self.message.len() as u64)
    }

    /// Begins a message with the fields that ways and relations have in common.
    fn begin<S: BuildHasher>(
        &mut self,
        id: i64,
        meta: &MetaRef<'_>,
        tags: Tags<'_>,
        table: &mut TableOut<S>,
    ) -> Result<(), AllocError>
        requires { length table.old + (length (tag_texts (tags_left tags)) + length
            (option_to_list (meta_of meta.now).user)) ≤ MOST_USED_TEXTS }
        ensures texts { OnOk result (table.new
            ≡ texts_after table.old
            (tag_texts (tags_left tags.entry) ++ option_to_list (meta_of meta.now).user)) }
        ensures begun { (used : List (List ℕ))
            → OnOk result (self.new.message.items
            ≡ message (entity_slots (texts_after table.new used) id (meta_of meta.now)
            (tags_left tags.entry) [])) }
        ensures held { OnOk result
            (begun_length self.new ≤ 120 + 20 * length (tags_left tags.entry)) }
        ensures columns { KeepsColumns self.old self.new }
    {
        put_tag_fields(&mut self.keys, &mut self.values, tags, table)?;
        let user = table.index_if_some(meta.user)?;
        self.info.clear();
        put_info(&mut self.info, meta, user)?;
        self.message.clear();
        put_number(&mut self.message, ID, sign_extended(id))?;
        put_column(&mut self.message, KEYS, self.keys.bytes())?;
        put_column(&mut self.message, VALS, self.values.bytes())?;
        put_unless_empty(&mut self.message, INFO, &self.info)?;
        Ok(())
    }

    /// Appends the message as a field of a group, and removes all of the entity.
    fn put_message(&mut self, group: &mut Vec<u8>, number: u64) -> Result<(), AllocError>
        requires { number < 2 ^ 29 }
        ensures { MovesMessage number self.old self.new group.old.items group.new.items result }
    {
        put_bytes(group, number, &self.message)?;
        self.clear();
        Ok(())
    }

    /// Makes the message of a way, and adds its texts to the table: the keys and values of its tags in turn, then its user. The
    /// caller must prove that the way fits, and that the table has room for its texts, repeats counted. After an `Err` writer and
    /// table are unspecified.
    pub fn make_way<S: BuildHasher>(
        &mut self,
        way: &WayRef<'_>,
        table: &mut TableOut<S>,
    ) -> Result<(), AllocError>
        requires fits { WayFits (way_of way.now) }
        requires room { length table.old + length (way_texts (way_of way.now)) ≤ MOST_USED_TEXTS }
        // The texts are in the table.
        ensures texts { OnOk result
            (table.new ≡ texts_after table.old (way_texts (way_of way.now))) }
        // The message is that of the way, also as it would be with a table that more texts are added to later.
        ensures made { (used : List (List ℕ))
            → OnOk result (self.new.message.items
            ≡ way_message (texts_after table.new used) (way_of way.now)) }
        // If nothing of another entity was there, columns and message together are at most 380 bytes, and 40 for each tag and each
        // location and 20 for each ref.
        ensures held { writer_length self.old ≡ 0
            → OnOk result (writer_length self.new ≤ most_way_held (way_of way.now)) }
    {
        self.begin(way.id(), &way.meta(), way.tags(), table)?;
        put_ref_fields(&mut self.refs, way.refs())?;
        put_locations(&mut self.lats, &mut self.lons, way.locations())?;
        put_column(&mut self.message, REFS, self.refs.bytes())?;
        put_column(&mut self.message, WAY_LAT, self.lats.bytes())?;
        put_column(&mut self.message, WAY_LON, self.lons.bytes())?;
        Ok(())
    }

    /// Makes the message of a relation, and adds its texts to the table: the keys and values of its tags in turn, then its user,
    /// then the roles of its members. The rest is as for [`EntityOut::make_way`].
    pub fn make_relation<S: BuildHasher>(
        &mut self,
        relation: &RelationRef<'_>,
        table: &mut TableOut<S>,
    ) -> Result<(), AllocError>
        requires fits { RelationFits (relation_of relation.now) }
        requires room { length table.old + length (relation_texts (relation_of relation.now))
            ≤ MOST_USED_TEXTS }
        // The texts are in the table.
        ensures texts { OnOk result
            (table.new ≡ texts_after table.old (relation_texts (relation_of relation.now))) }
        // The message is that of the relation, also as it would be with a table that more texts are added to later.
        ensures made { (used : List (List ℕ))
            → OnOk result (self.new.message.items
            ≡ relation_message (texts_after table.new used) (relation_of relation.now)) }
        // If nothing of another entity was there, columns and message together are at most 380 bytes, and 40 for each tag and 42 for
        // each member.
        ensures held { writer_length self.old ≡ 0 → OnOk result
            (writer_length self.new ≤ most_relation_held (relation_of relation.now)) }
    {
        self.begin(relation.id(), &relation.meta(), relation.tags(), table)?;
        put_member_fields(
            &mut self.roles,
            &mut self.members,
            &mut self.kinds,
            relation.members(),
            table,
        )?;
        put_column(&mut self.message, ROLES_SID, self.roles.bytes())?;
        put_column(&mut self.message, MEMIDS, self.members.bytes())?;
        put_column(&mut self.message, TYPES, self.kinds.bytes())?;
        Ok(())
    }

    /// Appends the message that was made to a group, as a way. Then nothing of it stays in the writer. After an `Err` group and
    /// writer are unspecified.
    pub fn append_way(&mut self, group: &mut Vec<u8>) -> Result<(), AllocError>
        ensures { MovesMessage WAYS self.old self.new group.old.items group.new.items result }
    {
        self.put_message(group, WAYS)
    }

    /// Appends the message that was made to a group, as a relation. The rest is as for [`EntityOut::append_way`].
    pub fn append_relation(&mut self, group: &mut Vec<u8>) -> Result<(), AllocError>
        ensures { MovesMessage RELATIONS self.old self.new group.old.items group.new.items result }
    {
        self.put_message(group, RELATIONS)
    }

    /// Appends a way to a group: [`EntityOut::make_way`] and [`EntityOut::append_way`]. After an `Err` group, writer and table are
    /// unspecified.
    pub fn put_way<S: BuildHasher>(
        &mut self,
        group: &mut Vec<u8>,
        way: &WayRef<'_>,
        table: &mut TableOut<S>,
    ) -> Result<(), AllocError>
        requires fits { WayFits (way_of way.now) }
        requires room { length table.old + length (way_texts (way_of way.now)) ≤ MOST_USED_TEXTS }
        ensures texts { OnOk result
            (table.new ≡ texts_after table.old (way_texts (way_of way.now))) }
        ensures written { (used : List (List ℕ))
            → OnOk result (group.new.items ≡ group.old.items
            ++ slot_bytes (Each WAYS
            (way_message (texts_after table.new used) (way_of way.now) ∷ []))) }
        ensures empty { OnOk result (writer_length self.new ≡ 0) }
    {
        self.make_way(way, table)?;
        self.append_way(group)
    }

    /// Appends a relation to a group. The rest is as for [`EntityOut::put_way`].
    pub fn put_relation<S: BuildHasher>(
        &mut self,
        group: &mut Vec<u8>,
        relation: &RelationRef<'_>,
        table: &mut TableOut<S>,
    ) -> Result<(), AllocError>
        requires fits { RelationFits (relation_of relation.now) }
        requires room { length table.old + length (relation_texts (relation_of relation.now))
            ≤ MOST_USED_TEXTS }
        ensures texts { OnOk result
            (table.new ≡ texts_after table.old (relation_texts (relation_of relation.now))) }
        ensures written { (used : List (List ℕ))
            → OnOk result (group.new.items ≡ group.old.items
            ++ slot_bytes (Each RELATIONS
            (relation_message (texts_after table.new used) (relation_of relation.now) ∷ []))) }
        ensures empty { OnOk result (writer_length self.new ≡ 0) }
    {
        self.make_relation(relation, table)?;
        self.append_relation(group)
    }
}
