//! What no clause says: by example what texts of .poly files mean, and each fault.

use osm_polygon::{Place, PolyError, PolyFault, PolyPlace, PolyReason, read_polygons};
use std::alloc::Global;
use std::test::Fail;

/// A text that is in order.
const PLAIN: &str =
    "x\n1\n   9.5000000   47.1000000\n   9.6000000   47.1000000\n   9.5500000   47.2000000\nEND\nEND\n";

/// The same with exponents.
const EXPONENTS: &str =
    "x\n1\n   9.5000000E+00   4.7100000E+01\n   96.000000E-1   4.71e1\n   0.0955E2   4.72E+01\nEND\nEND\n";

/// The same with tabs.
const TABS: &str =
    "x\n1\n\t9.5000000\t47.1000000\n\t9.6000000\t47.1000000\n\t9.5500000\t47.2000000\nEND\nEND\n";

/// The same with a carriage return at the end of each line, and blank lines after the last.
const RETURNS: &str = "x\r\n1\r\n 9.5 47.1\r\n 9.6 47.1\r\n 9.55 47.2\r\nEND\r\nEND\r\n\r\n  \r\n";

/// The same without the last line end, without names, and with `+`.
const BARE: &str = "\n\n+9.5 +47.1\n9.6  47.1\n  9.55 \t 47.2  \n END \nEND";

/// The same with blank lines, and a byte order mark.
const SPACED: &str = "\u{feff}x\n\n \n1\n\n9.5 47.1\n\n\t\n9.6 47.1\n9.55 47.2\n\nEND\n\nEND\n\n";

/// The same, but for digits after the ninth decimal place, which are cut off.
const LONG: &str =
    "x\n1\n   9.5000000000000000   47.100000000000001\n   9.600000000999999999   47.1\n   9.5500000000000007   47.200000000000003\nEND\nEND\n";

/// South and west.
const MINUS: &str = "x\n1\n -9.5 -47.1\n -9.6 -4.71E+01\n -955e-2 -4.72e1\nEND\nEND\n";

/// Whether a place has these numbers of nanodegrees.
fn is_at(place: Place, lat: i64, lon: i64) -> bool {
    place.lat == lat && place.lon == lon
}

/// Whether the text has one ring, and this is that of `PLAIN`, or the same beyond the equator and the prime meridian.
fn is_plain(alloc: Global, text: &str, is_minus: bool) -> bool {
    let Ok(polygons) = read_polygons(alloc, text) else {
        return false;
    };
    let [rings] = polygons.as_slice() else {
        return false;
    };
    let [ring] = rings.as_slice() else {
        return false;
    };
    let [first, second, third] = ring.places.as_slice() else {
        return false;
    };
    if is_minus {
        is_at(*first, -47_100_000_000, -9_500_000_000)
            && is_at(*second, -47_100_000_000, -9_600_000_000)
            && is_at(*third, -47_200_000_000, -9_550_000_000)
    } else {
        is_at(*first, 47_100_000_000, 9_500_000_000)
            && is_at(*second, 47_100_000_000, 9_600_000_000)
            && is_at(*third, 47_200_000_000, 9_550_000_000)
    }
}

#[test]
fn one_ring_in_many_spellings(rt: HostRuntime) {
    for text in [PLAIN, EXPONENTS, TABS, RETURNS, BARE, SPACED, LONG] {
        assert!(rt; is_plain(rt.alloc(), text, false), "at {text}");
    }
    assert!(rt; is_plain(rt.alloc(), MINUS, true));
}

/// Numbers that end far beyond the ninth decimal place.
#[test]
fn small_numbers(rt: HostRuntime) {
    let text =
        "x\n1\n 9e-13 0.00000000012345678901234567890123\n -999e-11 99.9E-10\n 9.55000000000000000000000000001 5e-99\nEND\nEND\n";
    let polygons = read_polygons(rt.alloc(), text).ok();
    let places = polygons
        .as_ref()
        .and_then(|polygons| polygons.first())
        .and_then(|rings| rings.first());
    assert!(rt;
        match places {
            Some(ring) => match ring.places.as_slice() {
                [first, second, third] => {
                    is_at(*first, 0, 0) && is_at(*second, 9, -9) && is_at(*third, 0, 9_550_000_000)
                }
                _ => false,
            },
            None => false,
        }
    );
}

/// How many rings and places the text has.
fn size_of(alloc: Global, text: &str) -> Option<(usize, usize)> {
    let polygons = read_polygons(alloc, text).ok()?;
    let [rings] = polygons.as_slice() else {
        return None;
    };
    let mut places = 0usize;
    for ring in rings {
        places = places.saturating_add(ring.places.len());
    }
    Some((rings.len(), places))
}

#[test]
fn two_rings_and_their_places(rt: HostRuntime) {
    let two = "x\n1\n0 0\n1 0\n1 1\n0 1\nEND\n!2\n2 0\n3 0\n3 1\nEND\nEND\n";
    assert_eq!(rt; size_of(rt.alloc(), two), Some((2, 7)));
}

/// Whether the text has this fault.
fn has_fault(alloc: Global, text: &str, place: PolyPlace, reason: PolyReason) -> bool {
    match read_polygons(alloc, text) {
        Err(PolyError::Refused(fault)) => fault == PolyFault { place, reason },
        _ => false,
    }
}

#[test]
fn each_fault(rt: HostRuntime) {
    for (text, line, column, reason) in [
        ("", 1, 1, PolyReason::Ended),
        ("x", 1, 1, PolyReason::Ended),
        ("x\n", 2, 1, PolyReason::Ended),
        ("x\n1\n0 0\n1 0\n1 1", 5, 1, PolyReason::Ended),
        ("x\n1\n0 0\n1 0\n1 1\nEND\n", 7, 1, PolyReason::Ended),
        (
            "x\n1\n0 0\n1 foo\n1 1\nEND\nEND\n",
            4,
            3,
            PolyReason::Number,
        ),
        ("x\n1\n0 0\n1\n1 1\nEND\nEND\n", 4, 1, PolyReason::Number),
        (
            "x\n1\n0 0\n1 0 0\n1 1\nEND\nEND\n",
            4,
            3,
            PolyReason::Number,
        ),
        ("x\n1\n0 0\n1 0\n1 1\nend\nEND\n", 6, 1, PolyReason::Number),
        ("x\n1\n0 0\n1. 0\n1 1\nEND\nEND\n", 4, 1, PolyReason::Number),
        ("x\n1\n0 0\n.1 0\n1 1\nEND\nEND\n", 4, 1, PolyReason::Number),
        (
            "x\n1\n0 0\n000000001 0\n1 1\nEND\nEND\n",
            4,
            1,
            PolyReason::Number,
        ),
        (
            "x\n1\n0 0\n3500000.25 5300000\n1 1\nEND\nEND\n",
            4,
            1,
            PolyReason::Range,
        ),
        (
            "x\n1\n0 0\n9 20037508.34\n1 1\nEND\nEND\n",
            4,
            3,
            PolyReason::Range,
        ),
        ("0 0\n1 0\n1 1\nEND\nEND\n", 1, 1, PolyReason::Name),
        ("1\n 0 0\n1 0\n1 1\nEND\nEND\n", 2, 2, PolyReason::Name),
        (
            "x\n1\n0 0\n1 0\n1 1\nEND\n2 2\n3 2\n3 3\nEND\nEND\n",
            7,
            1,
            PolyReason::Name,
        ),
        (
            "x\n1\n179 0\n -179 0\n-179 1\nEND\nEND\n",
            4,
            2,
            PolyReason::Long,
        ),
        (
            "x\n1\n179 0\n0 0\n-179 1\n END\nEND\n",
            6,
            2,
            PolyReason::Long,
        ),
        (
            "x\n1\n-90 0\n90.000000001 0\n0 1\nEND\nEND\n",
            4,
            1,
            PolyReason::Long,
        ),
        (
            "x\n1\n0 0\n1E3 0\n1 1\nEND\nEND\n",
            4,
            1,
            PolyReason::Number,
        ),
        (
            "x\n1\n0 0\n1E-100 0\n1 1\nEND\nEND\n",
            4,
            1,
            PolyReason::Number,
        ),
        (
            "x\n1\n0 0\n+-1 0\n1 1\nEND\nEND\n",
            4,
            1,
            PolyReason::Number,
        ),
        (
            "x\n1\n0 0\n1.0000000000000000000x 0\n1 1\nEND\nEND\n",
            4,
            1,
            PolyReason::Number,
        ),
        (
            "x\n1\n0 0\n1 90.000000001\n1 1\nEND\nEND\n",
            4,
            3,
            PolyReason::Range,
        ),
        (
            "x\n1\n0 0\n-180.000000001 0\n1 1\nEND\nEND\n",
            4,
            1,
            PolyReason::Range,
        ),
        ("x\n1\n0 0\n1 0\nEND\nEND\n", 5, 1, PolyReason::Short),
        ("x\n1\nEND\nEND\n", 3, 1, PolyReason::Short),
        ("x\nEND\n", 3, 1, PolyReason::Empty),
        ("x\nEND", 2, 1, PolyReason::Empty),
        (
            "x\n1\n0 0\n1 0\n1 1\nEND\nEND\n\nmore\n",
            9,
            1,
            PolyReason::Rest,
        ),
        ("x\nEND\nmore\n", 3, 1, PolyReason::Rest),
        ("x\nEND\n\n \t more\n", 4, 4, PolyReason::Rest),
        (
            "x\n1\n 0 0\n 1\t 0x\n1 1\nEND\nEND\n",
            4,
            5,
            PolyReason::Number,
        ),
        (
            "x\n1\n 0 0\n \t 1x   0x\n1 1\nEND\nEND\n",
            4,
            4,
            PolyReason::Number,
        ),
        (
            "x\n1\n 0 0\n  181 91\n1 1\nEND\nEND\n",
            4,
            3,
            PolyReason::Range,
        ),
        (
            "x\n1\n 0 0\n  180     91  \r\n1 1\nEND\nEND\n",
            4,
            11,
            PolyReason::Range,
        ),
        ("x\n1\n 0 0\n  END\nEND\n", 4, 3, PolyReason::Short),
    ] {
        assert!(rt;
            has_fault(rt.alloc(), text, PolyPlace::Line(line, column), reason),
            "at {text}"
        );
    }
}

/// Edges of 180 degrees, and of 360.
#[test]
fn the_longest_edges(rt: HostRuntime) {
    let half = "x\n1\n-90 0\n90 0\n0 1\nEND\nEND\n";
    assert_eq!(rt; size_of(rt.alloc(), half), Some((1, 3)));
    let whole = "x\n1\n-180 0\n180 0\n180 1\n-180 1\nEND\nEND\n";
    assert_eq!(rt; size_of(rt.alloc(), whole), Some((1, 4)));
}

/// The limits themselves are in range.
#[test]
fn the_ends_of_the_range(rt: HostRuntime) {
    let ends = "x\n1\n-180 -90\n180 -90\n180.0000000009 90.0000000009\nEND\nEND\n";
    assert_eq!(rt; size_of(rt.alloc(), ends), Some((1, 3)));
}

#[test]
fn faults_by_their_names(rt: HostRuntime) -> Result<(), Fail> {
    for (reason, name) in [
        (PolyReason::Ended, "Ended"),
        (PolyReason::Number, "Number"),
        (PolyReason::Range, "Range"),
        (PolyReason::Short, "Short"),
        (PolyReason::Empty, "Empty"),
        (PolyReason::Rest, "Rest"),
        (PolyReason::Json, "Json"),
        (PolyReason::Shape, "Shape"),
        (PolyReason::Open, "Open"),
        (PolyReason::Long, "Long"),
        (PolyReason::Name, "Name"),
    ] {
        let text = reason.to_string(rt.alloc())?;
        assert_eq!(rt; text.as_str(), name);
    }
    Ok(())
}
