//! A box's text: four parts, each a number of degrees.

ghost use Rattle.std.specs.Prelude.{◌≡◌, ◌≤ℤ◌, ◌<ℤ◌, pos, ◌+◌, ◌<◌, ◌≤◌, ◌*◌, ◌^◌, ◌-◌, IfSome, option_map};
ghost use Rattle.osm_box.specs.Degrees.{degrees_of, magnitude_of, comma_parts};
ghost use Rattle.osm_box.specs.BoxText.{texts_of};

use crate::number::{cut_at_char, digits, halves};

/// The nanodegrees of whole degrees and `count` digits after the point.
fn nanos(degrees: u64, rest: u64, count: usize) -> i64
    requires whole { degrees < 1000 }
    requires fits { rest < 10 ^ count }
    requires few { count ≤ 9 }
    ensures value { result ≡ pos (degrees * 10 ^ 9 + rest * 10 ^ (9 - count)) }
    ensures small { result <ℤ pos (2 ^ 50) }
{
    let scale = 10u64.pow(9 - count as u32);
    (degrees * 1_000_000_000 + rest * scale) as i64
}

/// The nanodegrees of a part without its sign.
fn magnitude(text: &str) -> Option<i64>
    ensures value { result ≡ option_map pos (magnitude_of text.now) }
    ensures small { IfSome result (λ n. (pos 0 ≤ℤ n) × (n <ℤ pos (2 ^ 50))) }
{
    let (whole, fraction) = halves(text);
    let degrees = digits(whole, 3)?;
    let rest = digits(fraction, 9)?;
    Some(nanos(degrees, rest, fraction.len()))
}

/// The nanodegrees of a part.
pub(crate) fn degrees(text: &str) -> Option<i64>
    ensures { result ≡ degrees_of text.now }
{
    match text.strip_prefix('-') {
        Some(rest) => Some(-magnitude(rest)?),
        None => magnitude(text),
    }
}

/// The parts of a box's text.
#[derive(Clone, Copy)]
pub(crate) struct Parts<'a> {
    pub left: &'a str,
    pub bottom: &'a str,
    pub right: &'a str,
    pub top: &'a str,
}

impl<'a> Parts<'a> {
    /// The parts between exactly three commas.
    pub(crate) fn of(text: &'a str) -> Option<Parts<'a>>
        ensures { option_map texts_of result ≡ comma_parts text.now }
    {
        let (left, rest) = cut_at_char(text, ',')?;
        let (bottom, rest) = cut_at_char(rest, ',')?;
        let (right, top) = cut_at_char(rest, ',')?;
        if cut_at_char(top, ',').is_some() {
            return None;
        }
        Some(Parts {
            left,
            bottom,
            right,
            top,
        })
    }
}
