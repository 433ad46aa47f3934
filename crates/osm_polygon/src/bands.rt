//! Bands of latitude, each cut into cells of longitude. So a place is compared with the edges of one cell only.
//!
//! From a place in a cell a way goes south to the southern border of its band, and from there to the east. The rings are closed; so an odd
//! number of edges crosses the ray to the east just if an odd number crosses this way. Those in the cell are compared with the place, and of
//! those east of it, which cross the border or not, the cell knows whether they are an odd number.

ghost use Rattle.std.specs.Prelude.{◌≡◌, ◌<◌, ◌≤◌, ◌+◌, ◌-◌, ◌*◌, IfOk, length};
ghost use Rattle.osm_polygon.specs.declared.edge.Axis.TheVariants.{Latitude};
ghost use Rattle.osm_polygon.specs.Strips.{edges_held, spans_of};
ghost use Rattle.osm_polygon.specs.Bands.{differ, is_south_of, crosses_border, is_beside, is_told, is_odd_of, is_last, IsBand, AreBands, held_by_bands, cells_by, TellsOfPlace};

use crate::edge::{Axis, Edge, Meeting, strip_of};
use crate::place::Place;
use crate::strips::{Strip, StripRange, choose_cut, strips_of};
use std::alloc::{AllocError, Global};

/// A band, and its cells from the one with the number `first` to the west.
#[derive(Debug, Drop)]
pub(crate) struct Band {
    /// For each cell the edges that have a place in it and in the band: at most twice as many together as the band has.
    pub(crate) cells: Vec<Strip>,
    /// For each cell, whether an odd number of edges east of it crosses the southern border of the band.
    pub(crate) odds: Vec<bool>,
    /// The number of the first cell.
    pub(crate) first: u64,
    /// A cell is 2^shift nanodegrees wide.
    pub(crate) shift: u32,
}

/// The southern border of a band: bands are 2^shift nanodegrees high, and this one has the number `band`.
#[derive(Clone, Copy, Debug)]
pub(crate) struct Border {
    pub(crate) shift: u32,
    pub(crate) band: u64,
}

/// A place that is looked up, and the southern border of its band.
#[derive(Clone, Copy, Debug)]
pub(crate) struct Probe {
    pub(crate) place: Place,
    pub(crate) border: Border,
}

/// Whether one of two is true, and not the other.
#[inline(always)]
fn differ(a: bool, b: bool) -> bool
    ensures { result ≡ differ a b }
{
    if a { !b } else { b }
}

impl Border {
    /// Whether a place lies north of it, or on it.
    #[inline(always)]
    fn is_south_of(self, place: Place) -> bool
        requires { self.shift < 64 }
        ensures { result ≡ is_south_of self place }
    {
        self.band <= strip_of(Axis::Latitude, self.shift, place)
    }

    /// Whether the edge crosses it.
    fn is_crossed(self, edge: &Edge) -> bool
        requires { self.shift < 64 }
        ensures { result ≡ crosses_border self edge.now }
    {
        differ(self.is_south_of(edge.from), self.is_south_of(edge.to))
    }
}

impl Probe {
    /// Whether an end of an edge lies north of the way from the place, and no farther north than the place.
    #[inline(always)]
    fn is_beside(self, end: Place) -> bool
        requires { self.border.shift < 64 }
        ensures { result ≡ is_beside self end }
    {
        self.place.lon < end.lon && end.lat <= self.place.lat && self.border.is_south_of(end)
    }

    /// Whether the edge crosses the way from the place, if it crosses the ray or not.
    #[inline(always)]
    fn is_passed(self, edge: &Edge, is_crossed: bool) -> bool
        requires { self.border.shift < 64 }
        ensures { result ≡ differ is_crossed
            (differ (is_beside self edge.now.from) (is_beside self edge.now.to)) }
    {
        differ(
            is_crossed,
            differ(self.is_beside(edge.from), self.is_beside(edge.to)),
        )
    }
}

/// Whether the place lies on one of these edges, or an odd number of edges crosses the way from it. `is_odd` says whether an odd number of others
/// does.
#[tactic(auto, using(crate::proofs::Counting::none_left, crate::proofs::Counting::step_on, crate::proofs::Counting::step_off))]
fn is_within(edges: &[Edge], is_odd: bool, asked: Probe) -> bool
    requires { asked.border.shift < 64 }
    ensures { result ≡ is_told asked is_odd edges.now }
{
    let mut is_odd = is_odd;
    let mut rest = edges;
    'edges: while let Some((edge, more)) = rest.split_first() {
        let is_crossed = match edge.meeting(asked.place) {
            Meeting::On => return true,
            Meeting::Crossed => true,
            Meeting::Nothing => false,
        };
        is_odd = differ(is_odd, asked.is_passed(edge, is_crossed));
        rest = more;
    }
    is_odd
}

/// Whether the edge crosses the border and has its last cell here. In all further cells it lies east.
fn is_last(edge: &Edge, shift: u32, cell: u64, border: Border) -> bool
    requires cells { shift < 64 }
    requires bands { border.shift < 64 }
    ensures { result ≡ is_last shift cell (crosses_border border) edge.now }
{
    edge.highest(Axis::Longitude, shift) == cell && border.is_crossed(edge)
}

/// Whether an odd number of these edges crosses the border and has its last cell here.
fn is_odd_here(edges: &[Edge], shift: u32, cell: u64, border: Border) -> bool
    requires cells { shift < 64 }
    requires bands { border.shift < 64 }
    ensures { result ≡ is_odd_of (is_last shift cell (crosses_border border)) edges.now }
{
    let mut is_odd = false;
    for edge in edges {
        is_odd = differ(is_odd, is_last(edge, shift, cell, border));
    }
    is_odd
}

/// The band north of this border, which has these edges.
pub(crate) fn band_of(alloc: Global, edges: &[Edge], border: Border) -> Result<Band, AllocError>
    requires { border.shift < 64 }
    ensures is { IfOk result (λ band. IsBand border edges.now band) }
    ensures few { IfOk result (λ band. edges_held band.cells.items ≤ 2 * length edges.now) }
    ensures number { IfOk result (λ band. length band.cells.items ≤ length edges.now + 1) }
{
    let cut = choose_cut(edges, Axis::Longitude, 2);
    let cells = strips_of(alloc, edges, cut)?;
    let mut odds = Vec::new(alloc);
    let mut is_odd = false;
    let mut number = cut.first;
    for cell in cells.as_slice() {
        odds.push(is_odd)?;
        is_odd = differ(
            is_odd,
            is_odd_here(cell.edges.as_slice(), cut.shift, number, border),
        );
        number += 1;
    }
    Ok(Band {
        cells,
        odds,
        first: cut.first,
        shift: cut.shift,
    })
}

/// The bands of `cut`, each with its edges.
pub(crate) fn bands_of(
    alloc: Global,
    edges: &[Edge],
    cut: StripRange,
) -> Result<Vec<Band>, AllocError>
    requires { (cut.axis ≡ Latitude) × (cut.shift < 64) }
    ensures are { IfOk result (λ bands. AreBands cut.shift cut.first edges.now bands.items) }
    ensures number { IfOk result (λ bands. length bands.items ≡ cut.end - cut.first) }
    ensures few { IfOk result (λ bands.
        held_by_bands bands.items ≤ 2 * spans_of cut edges.now) }
    ensures cells { IfOk result (λ bands.
        cells_by bands.items ≤ spans_of cut edges.now + length bands.items) }
{
    let strips = strips_of(alloc, edges, cut)?;
    let mut bands = Vec::new(alloc);
    let mut number = cut.first;
    for strip in strips.as_slice() {
        let border = Border {
            shift: cut.shift,
            band: number,
        };
        bands.push(band_of(alloc, strip.edges.as_slice(), border)?)?;
        number += 1;
    }
    Ok(bands)
}

impl Band {
    /// Whether a place of the band lies on one of its edges, or the ray from it to the east crosses an odd number of them.
    #[inline(always)]
    pub(crate) fn has(&self, asked: Probe) -> bool
        requires cells { self.now.shift < 64 }
        requires bands { asked.border.shift < 64 }
        ensures { TellsOfPlace self.now asked result }
    {
        let number = strip_of(Axis::Longitude, self.shift, asked.place);
        if number < self.first {
            return false;
        }
        let index = (number - self.first) as usize;
        let Some(cell) = self.cells.get(index) else {
            return false;
        };
        let Some(is_odd) = self.odds.get(index) else {
            return false;
        };
        is_within(cell.edges.as_slice(), *is_odd, asked)
    }
}
