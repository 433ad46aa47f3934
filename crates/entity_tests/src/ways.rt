//! What no clause says: what is kept of known lists, and that the calls can succeed.
//!
//! A test passes rows to one of four functions and asserts its result. It holds no sets itself, and each call of the crate is
//! in a function without clauses: with both in the tests their proof takes ten times as long.

use osm_entity::{BoundingBox, Member, MemberKind, Meta, Node, Relation, Scale, Way};
use osm_ways::{
    Chooser, Chosen, ChosenParents, FirstPhase, InArea, NodePhase, NodeTaker, RelationPhase,
    SeenWay, WayPhase,
};
use std::alloc::{AllocError, Global};

/// From 0 to 1 degree both ways.
const AREA: BoundingBox = BoundingBox {
    left: 0,
    bottom: 0,
    right: 1_000_000_000,
    top: 1_000_000_000,
};

pub(crate) const SCALE: Scale = Scale {
    granularity: 100,
    date_granularity: 1000,
    lat_offset: 0,
    lon_offset: 0,
};

/// The id of a node, and its latitude on the first meridian of the box: inside from 0 on.
pub(crate) type NodeRow = (i64, i64);

/// The id of a way, its refs, and whether it is kept.
pub(crate) type WayRow<'a> = (i64, &'a [i64], bool);

/// The id of a relation, the kind and the id of its one member, and whether it is kept.
type RelationRow = (i64, MemberKind, i64, bool);

pub(crate) fn no_meta() -> Meta {
    Meta {
        version: None,
        timestamp: None,
        changeset: None,
        uid: None,
        user: None,
        visible: None,
    }
}

fn node(alloc: Global, row: NodeRow) -> Node {
    Node {
        id: row.0,
        lat: row.1,
        lon: 0,
        meta: no_meta(),
        tags: Vec::new(alloc),
        scale: SCALE,
    }
}

pub(crate) fn way(alloc: Global, row: WayRow<'_>) -> Result<Way, AllocError> {
    Ok(Way {
        id: row.0,
        meta: no_meta(),
        tags: Vec::new(alloc),
        refs: Vec::from_slice(alloc, row.1)?,
        locations: Vec::new(alloc),
        scale: SCALE,
    })
}

fn relation(alloc: Global, row: RelationRow) -> Result<Relation, AllocError> {
    let mut members = Vec::new(alloc);
    members.push(Member {
        kind: row.1,
        id: row.2,
        role: Vec::new(alloc),
    })?;
    Ok(Relation {
        id: row.0,
        meta: no_meta(),
        tags: Vec::new(alloc),
        members,
        scale: SCALE,
    })
}

fn take_node(phase: &mut NodePhase, alloc: Global, row: NodeRow) -> Result<(), AllocError> {
    phase.take_node(&node(alloc, row).view())
}

fn take_way(phase: &mut WayPhase, alloc: Global, row: WayRow<'_>) -> Result<(), AllocError> {
    phase.take_way(&way(alloc, row)?.view())
}

fn take_relation(
    phase: &mut RelationPhase,
    alloc: Global,
    row: RelationRow,
) -> Result<(), AllocError> {
    phase.take_relation(&relation(alloc, row)?.view())
}

pub(crate) fn chosen(
    alloc: Global,
    nodes: &[NodeRow],
    ways: &[WayRow<'_>],
) -> Result<Chosen, AllocError> {
    let mut phase = NodePhase::new(alloc, AREA);
    for row in nodes {
        take_node(&mut phase, alloc, *row)?;
    }
    let mut phase = phase.end_nodes()?;
    for row in ways {
        take_way(&mut phase, alloc, *row)?;
    }
    phase.end_ways()
}

fn take_first_nodes(
    first: &mut InArea<BoundingBox, FirstPhase>,
    alloc: Global,
    rows: &[NodeRow],
) -> Result<(), AllocError> {
    for row in rows {
        first.take_node(&node(alloc, *row).view())?;
    }
    Ok(())
}

fn take_first_ways(
    first: &mut InArea<BoundingBox, FirstPhase>,
    alloc: Global,
    rows: &[WayRow<'_>],
) -> Result<(), AllocError> {
    for row in rows {
        first
            .phase
            .take_refs(SeenWay::of(&way(alloc, *row)?.view()))?;
    }
    Ok(())
}

/// What is chosen once the phase of nodes and ways has ended; if they didn't come in order, these ways are taken again.
fn chosen_after(
    phase: FirstPhase,
    alloc: Global,
    ways: &[WayRow<'_>],
) -> Result<Chosen, AllocError> {
    let in_order = phase.has_all_ways();
    let mut phase = phase.end()?;
    if !in_order {
        for row in ways {
            take_way(&mut phase, alloc, *row)?;
        }
    }
    phase.end_ways()
}

/// What one phase of nodes and ways takes: these nodes, these ways, and then these nodes. Whether they came in order, and what was
/// chosen.
fn chosen_first(
    alloc: Global,
    nodes: &[NodeRow],
    ways: &[WayRow<'_>],
    late: &[NodeRow],
) -> Result<(bool, Chosen), AllocError> {
    let mut first = InArea::<BoundingBox, FirstPhase>::new(alloc, AREA);
    take_first_nodes(&mut first, alloc, nodes)?;
    take_first_ways(&mut first, alloc, ways)?;
    take_first_nodes(&mut first, alloc, late)?;
    let in_order = first.phase.has_all_ways();
    Ok((in_order, chosen_after(first.phase, alloc, ways)?))
}

/// With all parents, of a list with node 1 in the box and these relations.
fn chosen_parents(alloc: Global, relations: &[RelationRow]) -> Result<ChosenParents, AllocError> {
    let mut phase = chosen(alloc, &[(1, 1)], &[])?.with_parents();
    for row in relations {
        take_relation(&mut phase, alloc, *row)?;
    }
    phase.end_relations()
}

/// Whether nodes of each id are kept, or not, as expected.
pub(crate) fn keeps_nodes(chosen: &Chosen, expected: &[(i64, bool)]) -> bool {
    for (id, is_kept) in expected {
        if chosen.keeps_node(*id) != *is_kept {
            return false;
        }
    }
    true
}

/// Whether the ways are kept that are to be kept, and no others.
pub(crate) fn keeps_ways(
    alloc: Global,
    chosen: &Chosen,
    rows: &[WayRow<'_>],
) -> Result<bool, AllocError> {
    for row in rows {
        if chosen.keeps_way(&way(alloc, *row)?.view()) != row.2 {
            return Ok(false);
        }
    }
    Ok(true)
}

/// The same of relations.
fn keeps_relations(
    alloc: Global,
    chosen: &Chosen,
    rows: &[RelationRow],
) -> Result<bool, AllocError> {
    for row in rows {
        if chosen.keeps_relation(&relation(alloc, *row)?.view()) != row.3 {
            return Ok(false);
        }
    }
    Ok(true)
}

/// The same with one chooser for all of them.
fn keeps_nodes_in_turn(chooser: &mut Chooser<'_>, expected: &[(i64, bool)]) -> bool {
    for (id, is_kept) in expected {
        if chooser.keeps_node(*id) != *is_kept {
            return false;
        }
    }
    true
}

fn keeps_ways_in_turn(
    alloc: Global,
    chooser: &mut Chooser<'_>,
    rows: &[WayRow<'_>],
) -> Result<bool, AllocError> {
    for row in rows {
        if chooser.keeps_way(&way(alloc, *row)?.view()) != row.2 {
            return Ok(false);
        }
    }
    Ok(true)
}

fn keeps_relations_in_turn(
    alloc: Global,
    chooser: &mut Chooser<'_>,
    rows: &[RelationRow],
) -> Result<bool, AllocError> {
    for row in rows {
        if chooser.keeps_relation(&relation(alloc, *row)?.view()) != row.3 {
            return Ok(false);
        }
    }
    Ok(true)
}

/// The same with all parents.
fn keeps_nodes_with_parents(chosen: &ChosenParents, expected: &[(i64, bool)]) -> bool {
    for (id, is_kept) in expected {
        if chosen.keeps_node(*id) != *is_kept {
            return false;
        }
    }
    true
}

fn keeps_ways_with_parents(
    alloc: Global,
    chosen: &ChosenParents,
    rows: &[WayRow<'_>],
) -> Result<bool, AllocError> {
    for row in rows {
        if chosen.keeps_way(&way(alloc, *row)?.view()) != row.2 {
            return Ok(false);
        }
    }
    Ok(true)
}

fn keeps_relations_with_parents(
    alloc: Global,
    chosen: &ChosenParents,
    rows: &[RelationRow],
) -> Result<bool, AllocError> {
    for row in rows {
        if chosen.keeps_relation(&relation(alloc, *row)?.view()) != row.3 {
            return Ok(false);
        }
    }
    Ok(true)
}

/// Whether the ids, the ways and the relations are kept that are to be kept, and no others.
fn keeps(
    alloc: Global,
    chosen: &Chosen,
    ways: &[WayRow<'_>],
    relations: &[RelationRow],
    ids: &[(i64, bool)],
) -> Result<bool, AllocError> {
    Ok(
        keeps_nodes(chosen, ids)
            && keeps_ways(alloc, chosen, ways)?
            && keeps_relations(alloc, chosen, relations)?,
    )
}

/// Whether of these nodes and ways the extract is as expected.
fn extracts(
    alloc: Global,
    nodes: &[NodeRow],
    ways: &[WayRow<'_>],
    relations: &[RelationRow],
    ids: &[(i64, bool)],
) -> Result<bool, AllocError> {
    let chosen = chosen(alloc, nodes, ways)?;
    keeps(alloc, &chosen, ways, relations, ids)
}

/// The same, with one chooser for all of them.
fn keeps_in_turn(
    alloc: Global,
    chosen: &Chosen,
    ways: &[WayRow<'_>],
    relations: &[RelationRow],
    ids: &[(i64, bool)],
) -> Result<bool, AllocError> {
    let mut chooser = chosen.chooser();
    Ok(
        keeps_nodes_in_turn(&mut chooser, ids)
            && keeps_ways_in_turn(alloc, &mut chooser, ways)?
            && keeps_relations_in_turn(alloc, &mut chooser, relations)?,
    )
}

fn extracts_in_turn(
    alloc: Global,
    nodes: &[NodeRow],
    ways: &[WayRow<'_>],
    relations: &[RelationRow],
    ids: &[(i64, bool)],
) -> Result<bool, AllocError> {
    let chosen = chosen(alloc, nodes, ways)?;
    keeps_in_turn(alloc, &chosen, ways, relations, ids)
}

/// The same, of one phase of nodes and ways, with nodes that come after the ways, and whether they came in order.
fn extracts_first(
    alloc: Global,
    nodes: &[NodeRow],
    ways: &[WayRow<'_>],
    late: &[NodeRow],
    ids: &[(i64, bool)],
) -> Result<(bool, bool), AllocError> {
    let (in_order, chosen) = chosen_first(alloc, nodes, ways, late)?;
    Ok((in_order, keeps(alloc, &chosen, ways, &[], ids)?))
}

/// The same with all parents, if only node 1 is in the box.
fn keeps_with_parents(
    alloc: Global,
    chosen: &ChosenParents,
    ways: &[WayRow<'_>],
    relations: &[RelationRow],
    ids: &[(i64, bool)],
) -> Result<bool, AllocError> {
    Ok(
        keeps_nodes_with_parents(chosen, ids)
            && keeps_ways_with_parents(alloc, chosen, ways)?
            && keeps_relations_with_parents(alloc, chosen, relations)?,
    )
}

fn extracts_with_parents(
    alloc: Global,
    ways: &[WayRow<'_>],
    relations: &[RelationRow],
    ids: &[(i64, bool)],
) -> Result<bool, AllocError> {
    let chosen = chosen_parents(alloc, relations)?;
    keeps_with_parents(alloc, &chosen, ways, relations, ids)
}

fn extracts_with_parents_in_turn(
    alloc: Global,
    ways: &[WayRow<'_>],
    relations: &[RelationRow],
    ids: &[(i64, bool)],
) -> Result<bool, AllocError> {
    let chosen = chosen_parents(alloc, relations)?;
    keeps_in_turn(alloc, chosen.chosen(), ways, relations, ids)
}

/// The way has a node inside, one outside and one that is absent.
#[test]
fn way_before_its_nodes(rt: HostRuntime) -> Result<(), AllocError> {
    let nodes = [(1, 1), (2, -1), (4, -1)];
    let ways: [WayRow<'_>; 2] = [(7, &[1, 2, 3], true), (6, &[2, 3], false)];
    let ids = [(1, true), (2, true), (3, true), (4, false)];
    assert!(rt; extracts(rt.alloc(), &nodes, &ways, &[], &ids)?);
    Ok(())
}

/// Each look-up begins where the last one ended, whatever order the ids come in.
#[test]
fn one_chooser_for_all(rt: HostRuntime) -> Result<(), AllocError> {
    let nodes = [(1, 1), (2, -1), (8, 1)];
    let ways: [WayRow<'_>; 2] = [(7, &[5, 1, 3], true), (6, &[2, 3], false)];
    let relations = [
        (9, MemberKind::Way, 7, true),
        (9, MemberKind::Way, 6, false),
        (9, MemberKind::Node, 3, true),
    ];
    let ids = [
        (5, true),
        (2, false),
        (3, true),
        (8, true),
        (4, false),
        (1, true),
        (9, false),
        (1, true),
        (3, true),
    ];
    assert!(rt; extracts_in_turn(rt.alloc(), &nodes, &ways, &relations, &ids)?);
    Ok(())
}

/// Ids that rise, and ids that don't: neither breaks the order of nodes and ways.
#[test]
fn nodes_then_ways(rt: HostRuntime) -> Result<(), AllocError> {
    let ways: [WayRow<'_>; 2] = [(7, &[5, 1, 3], true), (6, &[2, 3], false)];
    let ids = [(1, true), (2, false), (3, true), (5, true), (8, true)];
    let rising = [(1, 1), (2, -1), (8, 1)];
    assert_eq!(rt;
        extracts_first(rt.alloc(), &rising, &ways, &[], &ids)?,
        (true, true)
    );
    let falling = [(8, 1), (2, -1), (1, 1)];
    assert_eq!(rt;
        extracts_first(rt.alloc(), &falling, &ways, &[], &ids)?,
        (true, true)
    );
    Ok(())
}

/// A ref of a way is a node of the box that comes after it.
#[test]
fn node_behind_a_way(rt: HostRuntime) -> Result<(), AllocError> {
    let ways: [WayRow<'_>; 2] = [(7, &[5, 1, 3], true), (6, &[2, 3], true)];
    let ids = [(1, true), (2, true), (3, true), (5, true), (4, false)];
    let late = [(2, 1), (4, -1)];
    assert_eq!(rt;
        extracts_first(rt.alloc(), &[(1, 1)], &ways, &late, &ids)?,
        (false, true)
    );
    Ok(())
}

#[test]
fn two_ways_with_one_id(rt: HostRuntime) -> Result<(), AllocError> {
    let nodes = [(1, 1), (1, -1)];
    let ways: [WayRow<'_>; 2] = [(7, &[1], true), (7, &[2], false)];
    assert!(rt; extracts(rt.alloc(), &nodes, &ways, &[], &[(1, true), (2, false)])?);
    Ok(())
}

#[test]
fn relation_of_a_relation(rt: HostRuntime) -> Result<(), AllocError> {
    let relations = [
        (8, MemberKind::Node, 1, true),
        (9, MemberKind::Relation, 8, false),
    ];
    assert!(rt; extracts(rt.alloc(), &[(1, 1)], &[], &relations, &[])?);
    Ok(())
}

/// Relations 8 to 10, each a member of the next, and two cycles.
const CHAIN_BESIDE_CYCLES: [RelationRow; 6] = [
    (10, MemberKind::Relation, 9, true),
    (9, MemberKind::Relation, 8, true),
    (8, MemberKind::Node, 1, true),
    (11, MemberKind::Relation, 12, false),
    (12, MemberKind::Relation, 11, false),
    (13, MemberKind::Relation, 13, false),
];

#[test]
fn one_chooser_with_parents(rt: HostRuntime) -> Result<(), AllocError> {
    let ids = [(8, false), (1, true)];
    assert!(rt; extracts_with_parents_in_turn(rt.alloc(), &[], &CHAIN_BESIDE_CYCLES, &ids)?);
    Ok(())
}

#[test]
fn two_relations_with_one_id(rt: HostRuntime) -> Result<(), AllocError> {
    let relations = [
        (8, MemberKind::Node, 1, true),
        (8, MemberKind::Node, 2, false),
        (9, MemberKind::Relation, 8, true),
    ];
    assert!(rt; extracts_with_parents(rt.alloc(), &[(7, &[2], false)], &relations, &[])?);
    Ok(())
}
