//! A caller of `osm_entity`.

ghost use Rattle.std.specs.Prelude.{◌≡◌};
ghost use Rattle.osm_box.specs.BoundingBox.{is_inside};
ghost use Rattle.osm_entity.specs.Scale.{nano_lat, nano_lon};
ghost use Rattle.osm_entity.specs.Views.{node_of};

use osm_entity::{BoundingBox, NodeRef};

/// Whether the node is in the box.
pub fn is_in(area: &BoundingBox, node: &NodeRef<'_>) -> bool
    ensures { let n = node_of node.now in
        result ≡ is_inside area.now (nano_lat n.scale n.lat) (nano_lon n.scale n.lon) }
{
    area.contains(node.nano_lat(), node.nano_lon())
}
