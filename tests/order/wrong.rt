//! Calls of phases out of order: a way before the nodes have ended, a node after they have. Neither compiles.
#![tactic(auto)]

use osm_entity::{BoundingBox, NodeRef, WayRef};
use osm_ways::NodePhase;
use std::alloc::{AllocError, Global};

/// A way, given to the phase of the nodes.
pub fn way_too_early(alloc: Global, area: BoundingBox, way: &WayRef<'_>) -> Result<(), AllocError> {
    let mut nodes = NodePhase::new(alloc, area);
    nodes.take_way(way)
}

/// A node, given to the phase of the ways.
pub fn node_too_late(alloc: Global, area: BoundingBox, node: &NodeRef<'_>) -> Result<(), AllocError> {
    let nodes = NodePhase::new(alloc, area);
    let mut ways = nodes.end_nodes()?;
    ways.take_node(node)
}
