//! What is kept of known lists if relations are wanted whole. Each row says what is expected of it.

use crate::ways::{SCALE, WayRow, chosen, keeps_nodes, keeps_ways, no_meta, way};
use osm_entity::{Member, MemberKind, Relation};
use osm_ways::{Chosen, MemberPhase, RelationPhase};
use std::alloc::{AllocError, Global};

/// The id of a relation, its members, whether it is wanted whole, and whether it is kept.
type MembersRow<'a> = (i64, &'a [(MemberKind, i64)], bool, bool);

fn relation(alloc: Global, row: MembersRow<'_>) -> Result<Relation, AllocError> {
    let mut members = Vec::new(alloc);
    for (kind, id) in row.1 {
        members.push(Member {
            kind: *kind,
            id: *id,
            role: Vec::new(alloc),
        })?;
    }
    Ok(Relation {
        id: row.0,
        meta: no_meta(),
        tags: Vec::new(alloc),
        members,
        scale: SCALE,
    })
}

fn take_relations(
    phase: &mut RelationPhase,
    alloc: Global,
    rows: &[MembersRow<'_>],
) -> Result<(), AllocError> {
    for row in rows {
        phase.take_whole(&relation(alloc, *row)?.view(), row.2)?;
    }
    Ok(())
}

fn take_ways(
    phase: &mut MemberPhase,
    alloc: Global,
    rows: &[WayRow<'_>],
) -> Result<(), AllocError> {
    for row in rows {
        phase.take_way(&way(alloc, *row)?.view())?;
    }
    Ok(())
}

/// What is chosen of a list with node 1 in the box, and whether the pass over the ways that were added could be spared.
fn chosen_whole(
    alloc: Global,
    ways: &[WayRow<'_>],
    relations: &[MembersRow<'_>],
) -> Result<(bool, Chosen), AllocError> {
    let mut phase = chosen(alloc, &[(1, 1)], ways)?.with_parents();
    take_relations(&mut phase, alloc, relations)?;
    let mut members = phase.begin_members()?;
    let is_done = members.has_all_refs();
    take_ways(&mut members, alloc, ways)?;
    Ok((is_done, members.end_members()?))
}

fn keeps_relations(
    alloc: Global,
    chosen: &Chosen,
    rows: &[MembersRow<'_>],
) -> Result<bool, AllocError> {
    for row in rows {
        if chosen.keeps_relation(&relation(alloc, *row)?.view()) != row.3 {
            return Ok(false);
        }
    }
    Ok(true)
}

/// Whether the pass over the ways that were added could be spared; and whether all rows are kept, or not, as they say.
fn extracts(
    alloc: Global,
    ways: &[WayRow<'_>],
    relations: &[MembersRow<'_>],
    ids: &[(i64, bool)],
) -> Result<(bool, bool), AllocError> {
    let (is_done, chosen) = chosen_whole(alloc, ways, relations)?;
    let kept = keeps_nodes(&chosen, ids)
        && keeps_ways(alloc, &chosen, ways)?
        && keeps_relations(alloc, &chosen, relations)?;
    Ok((is_done, kept))
}

/// A lake of two ways, of which one has a node in the box: the other is added with its nodes, and a node member too. What was added
/// selects no relation.
#[test]
fn lake_at_the_border(rt: HostRuntime) -> Result<(), AllocError> {
    let ways: [WayRow<'_>; 3] = [(7, &[1, 2], true), (8, &[3, 4], true), (9, &[4, 5], false)];
    let relations: [MembersRow<'_>; 3] = [
        (
            10,
            &[
                (MemberKind::Way, 7),
                (MemberKind::Way, 8),
                (MemberKind::Node, 6),
            ],
            true,
            true,
        ),
        (11, &[(MemberKind::Way, 8)], true, false),
        (
            12,
            &[(MemberKind::Node, 6), (MemberKind::Node, 3)],
            true,
            false,
        ),
    ];
    let ids = [
        (1, true),
        (2, true),
        (3, true),
        (4, true),
        (5, false),
        (6, true),
    ];
    assert_eq!(rt;
        extracts(rt.alloc(), &ways, &relations, &ids)?,
        (false, true)
    );
    Ok(())
}

/// Of a type that isn't wanted whole, or kept only as a parent: nothing is added.
#[test]
fn kept_but_not_completed(rt: HostRuntime) -> Result<(), AllocError> {
    let ways: [WayRow<'_>; 2] = [(7, &[1], true), (8, &[3], false)];
    let relations: [MembersRow<'_>; 2] = [
        (
            10,
            &[(MemberKind::Way, 7), (MemberKind::Way, 8)],
            false,
            true,
        ),
        (
            11,
            &[(MemberKind::Relation, 10), (MemberKind::Way, 8)],
            true,
            true,
        ),
    ];
    let ids = [(1, true), (3, false)];
    assert_eq!(rt;
        extracts(rt.alloc(), &ways, &relations, &ids)?,
        (true, true)
    );
    Ok(())
}

/// A member relation is not added, a member that the list doesn't have changes nothing, and ids may be negative.
#[test]
fn members_of_all_kinds(rt: HostRuntime) -> Result<(), AllocError> {
    let ways: [WayRow<'_>; 3] = [(-8, &[-3], true), (-8, &[4], true), (9, &[5], false)];
    let relations: [MembersRow<'_>; 2] = [
        (
            10,
            &[
                (MemberKind::Node, 1),
                (MemberKind::Way, -8),
                (MemberKind::Way, 77),
                (MemberKind::Relation, 11),
            ],
            true,
            true,
        ),
        (11, &[(MemberKind::Way, 9)], true, false),
    ];
    let ids = [(1, true), (-3, true), (4, true), (5, false), (77, false)];
    assert_eq!(rt;
        extracts(rt.alloc(), &ways, &relations, &ids)?,
        (false, true)
    );
    Ok(())
}
