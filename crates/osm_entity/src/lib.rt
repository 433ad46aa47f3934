//! OpenStreetMap's entities: nodes, ways and relations, as views over a block's bytes or over owned ones, their weight and
//! ranges. The box of an extract is `osm_box`'s.
#![tactic(auto)]

mod entity;
mod locations;
mod member;
mod meta;
mod node;
mod refs;
mod relation;
mod scale;
mod tags;
mod way;
mod weight;

pub use entity::EntityRef;
pub use locations::{Locations, NanoLocations, SummedLocations};
pub use member::{ColumnMembers, Member, MemberKind, MemberRef, Members};
pub use meta::{Meta, MetaRef};
pub use node::{Node, NodeRef};
pub use osm_box::{BoundingBox, BoxFault};
pub use pbf_wire::STORED_LIMIT;
pub use refs::Refs;
pub use relation::{Relation, RelationRef};
pub use scale::Scale;
pub use tags::{PairedTags, RunTags, Tag, Tags};
pub use way::{Way, WayRef};
pub use weight::{ENTITY_WEIGHT, HIGHEST_WEIGHT, PART_WEIGHT, UID_LIMIT};
