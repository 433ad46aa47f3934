//! The members of a relation, wherever they lie.

ghost use Rattle.std.specs.Prelude.{◌≡◌, map, IfOk};
ghost use Rattle.osm_entity.specs.Sources.{member_kind, owned_member, lent_member, members_left};

use crate::tags::named;
use pbf_strings::Table;
use pbf_wire::{Column, Sums, low_u32};
use std::alloc::{AllocError, Global};

/// What a member of a relation is.
#[derive(Clone, Copy, Debug, PartialEq, Eq)]
pub enum MemberKind {
    Node,
    Way,
    Relation,
}

/// A member of an owned relation.
#[derive(Debug, Drop)]
pub struct Member {
    pub kind: MemberKind,
    pub id: i64,
    pub role: Vec<u8>,
}

/// A member of a relation, wherever it lies.
#[derive(Clone, Copy, Debug)]
pub struct MemberRef<'a> {
    pub kind: MemberKind,
    pub id: i64,
    pub role: &'a [u8],
}

impl<'a> MemberRef<'a> {
    /// The same member with a role of its own.
    pub fn to_owned(&self, alloc: Global) -> Result<Member, AllocError>
        ensures { IfOk result (λ owned. owned_member owned ≡ lent_member self.now) }
    {
        Ok(Member {
            kind: self.kind,
            id: self.id,
            role: Vec::from_slice(alloc, self.role)?,
        })
    }
}

/// The kind that a stored number means: 0 a node, 1 a way, 2 (and, if it wasn't judged, any other) a relation.
fn member_kind(number: u64) -> MemberKind
    ensures { result ≡ member_kind number }
{
    match low_u32(number) {
        0 => MemberKind::Node,
        1 => MemberKind::Way,
        _ => MemberKind::Relation,
    }
}

/// The members of a relation in a block that are still to come: the numbers of three columns.
#[derive(Clone, Copy)]
pub struct ColumnMembers<'a> {
    kinds: Column<'a>,
    ids: Sums<'a>,
    roles: Column<'a>,
    table: &'a Table<'a>,
}

impl<'a> ColumnMembers<'a> {
    ghost use Rattle.pbf_wire.specs.Cursors.{numbers_left, sums_left};
    ghost use Rattle.osm_entity.specs.Sources.{column_members, column_members_left};

    /// As many members as all three columns have numbers for. A number that the table has no text for gives an empty role.
    pub fn new(
        kinds: Column<'a>,
        ids: Sums<'a>,
        roles: Column<'a>,
        table: &'a Table<'a>,
    ) -> ColumnMembers<'a>
        ensures { column_members_left result
            ≡ column_members table.now (numbers_left kinds.entry) (sums_left ids.entry)
            (numbers_left roles.entry) }
    {
        ColumnMembers {
            kinds,
            ids,
            roles,
            table,
        }
    }
}

impl<'a> Iterator for ColumnMembers<'a> {
    ghost use Rattle.std.specs.Iterator.{YieldsFirstBy, item_count};
    ghost use Rattle.osm_entity.specs.Sources.{column_members_left, lent_member};

    type Item = MemberRef<'a>;

    ghost next_gives = { YieldsFirstBy lent_member column_members_left };

    ghost remaining = { item_count column_members_left };

    #[tactic(auto, using(crate::proofs::TagLemmas::zip_nothing))]
    fn next(&mut self) -> Option<MemberRef<'a>> {
        let kind = self.kinds.next()?;
        let id = self.ids.next()?;
        let role = self.roles.next()?;
        Some(MemberRef {
            kind: member_kind(kind),
            id,
            role: named(self.table, role),
        })
    }
}

/// The members of a relation that are still to come.
#[derive(Clone, Copy)]
pub enum Members<'a> {
    Owned(&'a [Member]),
    Columns(ColumnMembers<'a>),
}

impl<'a> Iterator for Members<'a> {
    ghost use Rattle.std.specs.Iterator.{YieldsFirstBy, item_count};
    ghost use Rattle.osm_entity.specs.Sources.{members_left, lent_member};

    type Item = MemberRef<'a>;

    ghost next_gives = { YieldsFirstBy lent_member members_left };

    ghost remaining = { item_count members_left };

    fn next(&mut self) -> Option<MemberRef<'a>> {
        match self {
            Members::Owned(members) => {
                let (first, rest) = members.split_first()?;
                *members = rest;
                Some(MemberRef {
                    kind: first.kind,
                    id: first.id,
                    role: first.role.as_slice(),
                })
            }
            Members::Columns(members) => members.next(),
        }
    }
}

/// The same members with roles of their own.
pub(crate) fn owned_members(alloc: Global, members: Members<'_>) -> Result<Vec<Member>, AllocError>
    ensures { IfOk result (λ owned. map owned_member owned.items ≡ members_left members.entry) }
{
    let mut owned = Vec::new(alloc);
    for member in members {
        owned.push(member.to_owned(alloc)?)?;
    }
    Ok(owned)
}
