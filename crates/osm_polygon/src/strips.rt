//! Strips of latitude or of longitude, each with the edges that have a place in it.

ghost use Rattle.std.specs.Prelude.{◌≡◌, ◌<◌, ◌≤◌, ◌+◌, ◌-◌, ◌*◌, ◌^◌, true, [], IfOk, OnOk, length};
ghost use Rattle.osm_polygon.specs.Strips.{AreStrips, AreWithin, lists_of, cut_at, parts_at, pushed_at, with_edge, first_strip, end_strip, span_of, spans_of, edges_held};
ghost use Rattle.osm_polygon.specs.Edges.{is_in_strip};

use crate::edge::{Axis, Edge};
use std::alloc::{AllocError, Global};

/// A strip that is 2^39 nanodegrees wide is the whole earth.
const WHOLE_EARTH: u32 = 39;

/// The parts of a strip are at most the 2^24th part as wide.
const FINEST: u32 = 24;

/// A strip of fewer edges stays whole.
const MANY_EDGES: u64 = 32;

/// The edges that have a place in one strip, in their order.
#[derive(Debug, Drop)]
pub(crate) struct Strip {
    pub(crate) edges: Vec<Edge>,
}

/// Which strips there are: those with the numbers from `first` on and before `end`, each 2^shift nanodegrees wide.
#[derive(Clone, Copy, Debug)]
pub(crate) struct StripRange {
    pub(crate) axis: Axis,
    pub(crate) shift: u32,
    pub(crate) first: u64,
    pub(crate) end: u64,
}

impl StripRange {
    /// The number of the first of its strips that an edge has a place in.
    fn first_of(self, edge: &Edge) -> u64
        requires { self.shift < 64 }
        ensures { result ≡ first_strip self edge.now }
    {
        edge.lowest(self.axis, self.shift).max(self.first)
    }

    /// The number after that of the last one.
    fn end_of(self, edge: &Edge) -> u64
        requires { self.shift < 64 }
        ensures { result ≡ end_strip self edge.now }
    {
        (edge.highest(self.axis, self.shift) + 1).min(self.end)
    }

    /// How many of its strips an edge has a place in.
    fn span(self, edge: &Edge) -> u64
        requires { self.shift < 64 }
        ensures { result ≡ span_of self edge.now }
    {
        self.end_of(edge).saturating_sub(self.first_of(edge))
    }
}

/// Whether these strips have at most `most` edges together. An edge counts once in each strip that it has a place in.
fn are_few(edges: &[Edge], cut: StripRange, most: u64) -> bool
    requires { cut.shift < 64 }
    ensures { result ≡ true → spans_of cut edges.now ≤ most }
{
    let mut left = most;
    for edge in edges {
        let Some(rest) = left.checked_sub(cut.span(edge)) else {
            return false;
        };
        left = rest;
    }
    true
}

/// How far along the axis the first and the last end of edges lie, in nanodegrees.
fn ends(edges: &[Edge], axis: Axis) -> (u64, u64)
    ensures within { AreWithin axis 0 result.0 (result.1 + 1) edges.now }
    ensures small { result.1 < 2 ^ 39 }
{
    let mut first = u64::MAX;
    let mut last = 0;
    for edge in edges {
        first = first.min(edge.lowest(axis, 0));
        last = last.max(edge.highest(axis, 0));
    }
    (first, last)
}

/// The strips of this width from `first` to `last`, in nanodegrees along the axis.
fn cut_at(axis: Axis, shift: u32, first: u64, last: u64) -> StripRange
    requires width { shift < 64 }
    requires small { last < 2 ^ 39 }
    ensures value { result ≡ cut_at axis shift first last }
    ensures small { result.end ≤ 2 ^ 39 }
{
    StripRange {
        axis,
        shift,
        first: first >> shift,
        end: (last >> shift) + 1,
    }
}

/// Which strips edges get: the narrowest such that there are no more strips than edges, and that they have at most `times` as many edges
/// together. So edges that all reach from one end to the other get few strips, and no polygon gets strips that take more memory than that.
#[tactic(auto, using(crate::proofs::StripLemmas::within_cut))]
pub(crate) fn choose_cut(edges: &[Edge], axis: Axis, times: u64) -> StripRange
    requires { 1 ≤ times }
    ensures width { (result.axis ≡ axis) × (result.shift < 64) }
    ensures within { AreWithin axis result.shift result.first result.end edges.now }
    ensures number { result.end ≤ result.first + (length edges.now + 1) }
    ensures small { result.end ≤ 2 ^ 39 }
    ensures few { spans_of result edges.now ≤ times * length edges.now }
{
    let most = edges.len() as u64;
    let (first, last) = ends(edges, axis);
    for shift in 0..WHOLE_EARTH {
        let cut = cut_at(axis, shift, first, last);
        if cut.end.saturating_sub(cut.first) <= most
            && are_few(edges, cut, most.saturating_mul(times))
        {
            return cut;
        }
    }
    cut_at(axis, WHOLE_EARTH, first, last)
}

/// The strip with this number, cut evenly into parts that are 2^finer nanodegrees wide.
fn parts_at(strip: StripRange, finer: u32) -> StripRange
    requires width { (finer ≤ strip.shift) × (strip.shift ≤ finer + 24) × (strip.shift < 64) }
    requires small { strip.end ≤ 2 ^ 39 }
    requires some { strip.first ≤ strip.end }
    ensures { result ≡ parts_at strip finer }
{
    let depth = strip.shift - finer;
    StripRange {
        axis: strip.axis,
        shift: finer,
        first: strip.first << depth,
        end: strip.end << depth,
    }
}

/// Into which parts a strip with these edges is cut: the narrowest such that there are no more parts than edges, and that they have at most half as
/// many edges more together. A strip of few edges stays whole, and so does one whose edges go through it from one end to the other.
pub(crate) fn choose_parts(edges: &[Edge], strip: StripRange) -> StripRange
    requires width { strip.shift < 64 }
    requires small { strip.end ≤ 2 ^ 39 }
    requires one { strip.end ≡ strip.first + 1 }
    ensures width { result.shift ≤ strip.shift }
    ensures are { result ≡ parts_at strip result.shift }
    ensures number { result.end ≤ result.first + (length edges.now + 1) }
    ensures few { 2 * spans_of result edges.now ≤ 3 * length edges.now }
{
    let count = edges.len() as u64;
    if count < MANY_EDGES {
        return strip;
    }
    for finer in strip.shift.saturating_sub(FINEST)..strip.shift {
        let parts = parts_at(strip, finer);
        if parts.end.saturating_sub(parts.first) <= count
            && are_few(edges, parts, count.saturating_add(count / 2))
        {
            return parts;
        }
    }
    strip
}

/// As many strips as `cut` says, without edges.
fn empty_strips(alloc: Global, cut: StripRange) -> Result<Vec<Strip>, AllocError>
    ensures are { IfOk result (λ strips.
        AreStrips cut.axis cut.shift cut.first [] (lists_of strips.items)) }
    ensures number { IfOk result (λ strips. length strips.items ≡ cut.end - cut.first) }
    ensures none { IfOk result (λ strips. edges_held strips.items ≡ 0) }
{
    let mut strips = Vec::new(alloc);
    for _number in cut.first..cut.end {
        strips.push(Strip {
            edges: Vec::new(alloc),
        })?;
    }
    Ok(strips)
}

/// Adds an edge to the strip with this index, if there is one.
fn push_at(strips: &mut Vec<Strip>, index: usize, edge: Edge) -> Result<(), AllocError>
    ensures { OnOk result (lists_of strips.new.items
        ≡ pushed_at index edge (lists_of strips.old.items)) }
{
    if let Some(strip) = strips.get_mut(index) {
        strip.edges.push(edge)?;
    }
    Ok(())
}

/// Adds an edge to each strip that it has a place in.
fn add_edge(strips: &mut Vec<Strip>, cut: StripRange, edge: Edge) -> Result<(), AllocError>
    requires width { cut.shift < 64 }
    requires number { length strips.now.items ≡ cut.end - cut.first }
    ensures with { OnOk result (lists_of strips.new.items
        ≡ with_edge (λ n. is_in_strip cut.axis cut.shift n edge) edge cut.first
        (lists_of strips.old.items)) }
    ensures few { OnOk result
        (edges_held strips.new.items ≤ edges_held strips.old.items + span_of cut edge) }
{
    let from = cut.first_of(&edge);
    let end = cut.end_of(&edge);
    for number in from..end {
        push_at(strips, (number - cut.first) as usize, edge)?;
    }
    Ok(())
}

/// The strips of `cut`, each with its edges. Each edge is compared with no strip but pushed to those that it reaches.
pub(crate) fn strips_of(
    alloc: Global,
    edges: &[Edge],
    cut: StripRange,
) -> Result<Vec<Strip>, AllocError>
    requires { cut.shift < 64 }
    ensures are { IfOk result (λ strips.
        AreStrips cut.axis cut.shift cut.first edges.now (lists_of strips.items)) }
    ensures number { IfOk result (λ strips. length strips.items ≡ cut.end - cut.first) }
    ensures few { IfOk result (λ strips.
        edges_held strips.items ≤ spans_of cut edges.now) }
{
    let mut strips = empty_strips(alloc, cut)?;
    for edge in edges {
        add_edge(&mut strips, cut, *edge)?;
    }
    Ok(strips)
}
