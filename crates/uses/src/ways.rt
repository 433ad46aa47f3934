//! A caller of `osm_ways`.

ghost use Rattle.std.specs.Prelude.{◌≡◌, IfOk};
ghost use Rattle.std.specs.FinSet as set;
ghost use Rattle.osm_area.specs.Area.{box_area};
ghost use Rattle.osm_entity.specs.Views.{node_of, way_of};
ghost use Rattle.osm_ways.specs.Phases.{node_step, start_ways, way_step, without_parents};
ghost use Rattle.osm_ways.specs.Seen.{seen_node, seen_way};

use osm_entity::{BoundingBox, NodeRef, WayRef};
use osm_ways::{Chosen, NodePhase};
use std::alloc::{AllocError, Global};

/// What a list of one node and one way chooses.
pub fn choose(
    alloc: Global,
    area: BoundingBox,
    node: &NodeRef<'_>,
    way: &WayRef<'_>,
) -> Result<Chosen, AllocError>
    ensures { IfOk result (λ chosen. chosen ≡ without_parents (way_step
        (start_ways (node_step set.empty (seen_node (box_area area) (node_of node.now))))
        (seen_way (way_of way.now)))) }
{
    let mut nodes = NodePhase::new(alloc, area);
    nodes.take_node(node)?;
    let mut ways = nodes.end_nodes()?;
    ways.take_way(way)?;
    ways.end_ways()
}
