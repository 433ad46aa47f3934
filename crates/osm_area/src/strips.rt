//! Strips of longitude, each with the boxes that reach into it: they name the areas that a place may lie in.

ghost use Rattle.std.specs.Prelude.{◌≡◌, ◌<◌, ◌^◌, ◌+◌, ◌-ℤ◌, IfOk, length, nat_abs, true};
ghost use Rattle.osm_box.specs.BoundingBox.{is_between};
ghost use Rattle.osm_area.specs.Strips.{AskEnough, ListBoxes, LieBetween, asked_at, is_met, tested_numbers, lon_strip};

use crate::strip_span::StripSpan;
use osm_box::BoundingBox;
use std::alloc::{AllocError, Global};

/// There are at most 2^10 strips.
const STRIP_BITS: u32 = 10;

/// Whether strips reach a longitude.
#[inline(always)]
fn have_lon(span: StripSpan, lon: i128) -> bool
    ensures value { result ≡ is_between span.west span.east lon }
    ensures near { result ≡ true → nat_abs (lon -ℤ span.west) < 2 ^ 64 }
{
    i128::from(span.west) <= lon && lon <= i128::from(span.east)
}

/// The number of the strip that a longitude is in, counted from the west.
#[inline(always)]
fn strip_with(span: StripSpan, lon: i128) -> u64
    requires { nat_abs (lon -ℤ span.west) < 2 ^ 64 }
    ensures { result ≡ lon_strip span lon }
{
    ((lon - i128::from(span.west)).unsigned_abs() as u64) >> span.shift
}

/// Whether a box has a longitude in the strip with this number.
fn meets(span: StripSpan, number: u64, bounds: BoundingBox) -> bool
    ensures { result ≡ is_met span number bounds }
{
    strip_with(span, i128::from(bounds.left)) <= number
        && number <= strip_with(span, i128::from(bounds.right))
}

/// The westmost and the eastmost longitude of boxes.
fn ends_of(boxes: &[BoundingBox]) -> (i64, i64)
    ensures { LieBetween result.0 result.1 boxes.now }
{
    let mut west = i64::MAX;
    let mut east = i64::MIN;
    let mut rest = boxes;
    'boxes: while let Some((bounds, later)) = rest.split_first() {
        west = west.min(bounds.left);
        east = east.max(bounds.right);
        rest = later;
    }
    (west, east)
}

/// Where the strips of boxes between these longitudes lie: the narrowest such that there are at most 1,024.
fn span_between(west: i64, east: i64) -> StripSpan
    ensures ends { (result.west ≡ west) × (result.east ≡ east) }
    ensures few { lon_strip result east < 1024 }
{
    let length = (i128::from(east) - i128::from(west)).unsigned_abs() as u64;
    let bits = 64 - length.leading_zeros();
    StripSpan {
        west,
        east,
        shift: bits.saturating_sub(STRIP_BITS),
    }
}

/// The numbers of the boxes that have a longitude in the strip with this number.
fn met_in(
    alloc: Global,
    span: StripSpan,
    number: u64,
    boxes: &[BoundingBox],
) -> Result<Vec<usize>, AllocError>
    ensures { IfOk result (λ met. met.items ≡ tested_numbers (is_met span number) 0 boxes.now) }
{
    let mut met = Vec::new(alloc);
    let mut index = 0;
    let mut rest = boxes;
    'boxes: while let Some((bounds, later)) = rest.split_first() {
        if meets(span, number, *bounds) {
            met.push(index)?;
        }
        index += 1;
        rest = later;
    }
    Ok(met)
}

/// The strips up to the one with this number.
fn strips_to(
    alloc: Global,
    span: StripSpan,
    last: u64,
    boxes: &[BoundingBox],
) -> Result<Vec<Vec<usize>>, AllocError>
    requires { last < 1024 }
    ensures are { IfOk result (λ strips. ListBoxes span 0 boxes.now strips.items) }
    ensures number { IfOk result (λ strips. length strips.items ≡ last + 1) }
{
    let mut strips = Vec::new(alloc);
    'strips: for number in 0..last + 1 {
        strips.push(met_in(alloc, span, number, boxes)?)?;
    }
    Ok(strips)
}

/// Strips of longitude, and which boxes of a list have a longitude in each. By the boxes of areas they name those that a place may lie in.
#[derive(Debug, Drop)]
pub struct AreaStrips {
    span: StripSpan,
    strips: Vec<Vec<usize>>,
}

impl AreaStrips {
    /// The strips of these boxes, at most 1,024, which together reach from the westmost longitude of the boxes to the eastmost one.
    ///
    /// # Errors
    ///
    /// If memory is refused.
    pub fn new(alloc: Global, boxes: &[BoundingBox]) -> Result<AreaStrips, AllocError>
        ensures { IfOk result (AskEnough boxes.now) }
    {
        let (west, east) = ends_of(boxes);
        let span = span_between(west, east);
        let last = strip_with(span, i128::from(east));
        let strips = strips_to(alloc, span, last, boxes)?;
        Ok(AreaStrips { span, strips })
    }

    /// The numbers of the boxes that may have a place of this longitude in nanodegrees, counted from 0, in rising order. It does not allocate.
    #[inline(always)]
    pub fn at(&self, lon: i128) -> &[usize]
        ensures { result.now ≡ asked_at self.now lon }
    {
        if !have_lon(self.span, lon) {
            return &[];
        }
        match self.strips.get(strip_with(self.span, lon) as usize) {
            Some(strip) => strip.as_slice(),
            None => &[],
        }
    }
}
