//! Belts of latitude. Most are one band; one with many edges is cut evenly into several, so that edges which lie close together are few in
//! each, even if others lie far away.

ghost use Rattle.std.specs.Prelude.{◌≡◌, ◌<◌, ◌≤◌, ◌+◌, ◌-◌, ◌*◌, ◌^◌, IfOk, List, filter, length};
ghost use Rattle.osm_polygon.specs.declared.edge.Axis.TheVariants.{Latitude};
ghost use Rattle.osm_polygon.specs.declared.edge.Edge as edge;
ghost use Rattle.osm_polygon.specs.Edges.{is_in_strip};
ghost use Rattle.osm_polygon.specs.Strips.{spans_of};
ghost use Rattle.osm_polygon.specs.Belts.{IsBelt, IsNarrow, AreNarrow, AreBelts, BeltBandsTell, BeltTells, held_of, held_in, cells_of, cells_in};

use crate::bands::{Band, Border, Probe, band_of, bands_of};
use crate::edge::{Axis, Edge, strip_of};
use crate::place::Place;
use crate::strips::{StripRange, choose_parts, strips_of};
use std::alloc::{AllocError, Global};

/// A belt.
#[derive(Debug, Drop)]
pub(crate) enum Belt {
    /// It is one band.
    One(Band),
    /// It has several.
    Many(BeltBands),
}

/// The bands of a belt from the one with the number `first` to the north.
#[derive(Debug, Drop)]
pub(crate) struct BeltBands {
    pub(crate) bands: Vec<Band>,
    /// The number of the first band.
    pub(crate) first: u64,
    /// A band is 2^shift nanodegrees high.
    pub(crate) shift: u32,
}

/// The belt north of this border, which has these edges.
fn belt_of(alloc: Global, edges: &[Edge], border: Border) -> Result<Belt, AllocError>
    requires width { border.shift < 64 }
    requires small { border.band < 2 ^ 39 }
    ensures is { IfOk result (λ belt. (all : List edge.Edge)
        → edges.now ≡ filter (is_in_strip Latitude border.shift border.band) all
        → IsBelt border.shift border.band all belt) }
    ensures few { IfOk result (λ belt. held_of belt ≤ 3 * length edges.now) }
    ensures number { IfOk result (λ belt. 2 * cells_of belt ≤ 5 * length edges.now + 2) }
{
    let strip = StripRange {
        axis: Axis::Latitude,
        shift: border.shift,
        first: border.band,
        end: border.band + 1,
    };
    let cut = choose_parts(edges, strip);
    if cut.shift == border.shift {
        return Ok(Belt::One(band_of(alloc, edges, border)?));
    }
    let bands = bands_of(alloc, edges, cut)?;
    Ok(Belt::Many(BeltBands {
        bands,
        first: cut.first,
        shift: cut.shift,
    }))
}

/// The belts of `cut`, each with its edges.
pub(crate) fn belts_of(
    alloc: Global,
    edges: &[Edge],
    cut: StripRange,
) -> Result<Vec<Belt>, AllocError>
    requires width { (cut.axis ≡ Latitude) × (cut.shift < 64) }
    requires small { cut.end ≤ 2 ^ 39 }
    ensures are { IfOk result (λ belts. AreBelts cut.shift cut.first edges.now belts.items) }
    ensures number { IfOk result (λ belts. length belts.items ≡ cut.end - cut.first) }
    ensures few { IfOk result (λ belts. held_in belts.items ≤ 3 * spans_of cut edges.now) }
    ensures cells { IfOk result (λ belts.
        2 * cells_in belts.items ≤ 5 * spans_of cut edges.now + 2 * length belts.items) }
{
    let strips = strips_of(alloc, edges, cut)?;
    let mut belts = Vec::new(alloc);
    let mut number = cut.first;
    for strip in strips.as_slice() {
        let border = Border {
            shift: cut.shift,
            band: number,
        };
        belts.push(belt_of(alloc, strip.edges.as_slice(), border)?)?;
        number += 1;
    }
    Ok(belts)
}

impl BeltBands {
    /// Whether a place of the belt lies on an edge of the polygon, or the ray from it to the east crosses an odd number of them.
    #[inline(always)]
    fn has(&self, place: Place) -> bool
        requires bands { self.now.shift < 64 }
        requires cells { AreNarrow self.now.bands.items }
        ensures { BeltBandsTell self.now place result }
    {
        let number = strip_of(Axis::Latitude, self.shift, place);
        if number < self.first {
            return false;
        }
        let Some(band) = self.bands.get((number - self.first) as usize) else {
            return false;
        };
        let border = Border {
            shift: self.shift,
            band: number,
        };
        band.has(Probe { place, border })
    }
}

impl Belt {
    /// Whether a place of the belt north of this border lies on an edge of the polygon, or the ray from it to the east crosses an odd number of them.
    #[inline(always)]
    pub(crate) fn has(&self, asked: Probe) -> bool
        requires width { asked.border.shift < 64 }
        requires narrow { IsNarrow self.now }
        ensures { BeltTells self.now asked result }
    {
        match self {
            Belt::One(band) => band.has(asked),
            Belt::Many(parts) => parts.has(asked.place),
        }
    }
}
