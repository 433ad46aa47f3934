//! The laws of a polygon. Each is the contract of a function that does nothing: a proof that needs the law calls it, or takes the lemma of that
//! name from this crate's `proofs/`.

ghost use Rattle.std.specs.Prelude.{◌≡◌, ◌&&◌, ◌++◌, ◌∷◌, ◌≤ℤ◌, ℤ, List, reverse};
ghost use Rattle.osm_box.specs.declared.bounding_box.BoundingBox.{BoundingBox};
ghost use Rattle.osm_box.specs.BoundingBox.{is_inside};
ghost use Rattle.osm_polygon.specs.Earth.{is_on_earth};
ghost use Rattle.osm_polygon.specs.Polygon.{Point, is_amid_edges, is_in_polygon};
ghost use Rattle.osm_polygon.specs.Rings.{corners, ring_sides, rings_sides, polygon_of};

/// The box of a polygon takes no place away: the polygon has all places on earth that lie on one of its edges, or whose ray to the east crosses an
/// odd number of them.
pub fn box_takes_no_place()
    ensures { (rings : List (List Point)) (lat lon : ℤ)
        → is_in_polygon (polygon_of rings) lat lon ≡ (is_on_earth lat lon
        && is_amid_edges (rings_sides rings) (record { lat = lat; lon = lon })) }
{}

/// A ring that is turned round keeps the places of its polygon.
pub fn turned_ring_is_the_same()
    ensures { (before after : List (List Point)) (ring : List Point) (lat lon : ℤ)
        → is_in_polygon (polygon_of (before ++ reverse ring ∷ after)) lat lon
        ≡ is_in_polygon (polygon_of (before ++ ring ∷ after)) lat lon }
{}

/// So does a ring that begins at another of its places.
pub fn ring_begins_anywhere()
    ensures { (before after : List (List Point)) (front back : List Point) (lat lon : ℤ)
        → is_in_polygon (polygon_of (before ++ (back ++ front) ∷ after)) lat lon
        ≡ is_in_polygon (polygon_of (before ++ (front ++ back) ∷ after)) lat lon }
{}

/// The ring round a box has the places of the box, its edges included.
pub fn rectangle_is_its_box()
    ensures { (area : BoundingBox) → area.left ≤ℤ area.right → area.bottom ≤ℤ area.top
        → (lat lon : ℤ) → is_amid_edges (ring_sides (corners area)) (record { lat = lat; lon = lon })
        ≡ is_inside area lat lon }
{}
