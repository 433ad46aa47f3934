//! What no clause says: by example what a configuration means, and each of its faults.

use osm_box::{BoundingBox, BoxFault};
use osm_config::{Config, ConfigError, ConfigReason, ConfiguredArea, read_config};
use osm_polygon::{PolyFault, PolyPlace, PolyReason, Ring};
use std::alloc::Global;

/// The extracts of Osmium's manual, with the members that it shows, but for `output_header`.
const MANUAL: &str = "{\"directory\": \"/tmp/\", \"extracts\": [
    {\"output\": \"hamburg.osm.pbf\", \"output_format\": \"pbf\", \"description\": \"optional description\",
     \"polygon\": [[[9.613465, 53.58071], [9.647599, 53.59655], [9.649288, 53.61059], [9.613465, 53.58071]]]},
    {\"output\": \"munich.osm.pbf\", \"description\": \"Bounding box specified in array format\",
     \"bbox\": [11.35, 48.05, 11.73, 48.25]},
    {\"output\": \"dresden.osm.pbf\", \"description\": \"Bounding box specified in object format\",
     \"bbox\": {\"left\": 13.57, \"right\": 13.97, \"top\": 51.18, \"bottom\": 50.97}},
    {\"output\": \"cologne.osm.pbf\",
     \"multipolygon\": [[[[6.847, 50.987], [6.910, 51.007], [7.037, 50.953], [6.967, 50.880], [6.842, 50.925], [6.847, 50.987]],
                         [[6.967, 50.954], [6.969, 50.920], [6.932, 50.928], [6.934, 50.950], [6.967, 50.954]]]]},
    {\"output\": \"berlin.osm.pbf\", \"polygon\": {\"file_name\": \"berlin.geojson\", \"file_type\": \"geojson\"}},
    {\"output\": \"bremen.osm.pbf\", \"multipolygon\": {\"file_name\": \"bremen\"}}]}\n";

/// Whether the extract of this index has this output, and this box as its area.
fn has_box(config: &Config, index: usize, output: &str, bounds: BoundingBox) -> bool {
    match config.extracts.get(index) {
        Some(extract) => match &extract.area {
            ConfiguredArea::InBox(found) => extract.output.as_str() == output && *found == bounds,
            _ => false,
        },
        None => false,
    }
}

/// The same for the name of a polygon's file.
fn has_file(config: &Config, index: usize, output: &str, file: &str) -> bool {
    match config.extracts.get(index) {
        Some(extract) => match &extract.area {
            ConfiguredArea::InFile(found) => {
                extract.output.as_str() == output && found.as_str() == file
            }
            _ => false,
        },
        None => false,
    }
}

/// Whether these are the rings of one polygon, with so many places each.
fn have_places(polygons: &[Vec<Ring>], first: usize, second: usize) -> bool {
    let [rings] = polygons else {
        return false;
    };
    match rings.as_slice() {
        [one] => one.places.len() == first && second == 0,
        [one, two] => one.places.len() == first && two.places.len() == second,
        _ => false,
    }
}

/// The same for inline polygons: one polygon with a ring of so many places, and another of so many, or none.
fn has_rings(config: &Config, index: usize, output: &str, first: usize, second: usize) -> bool {
    match config.extracts.get(index) {
        Some(extract) => match &extract.area {
            ConfiguredArea::InPolygons(polygons) => {
                extract.output.as_str() == output && have_places(polygons.as_slice(), first, second)
            }
            _ => false,
        },
        None => false,
    }
}

/// The box of these edges, in hundredths of a degree.
fn hundredths(left: i16, bottom: i16, right: i16, top: i16) -> BoundingBox {
    BoundingBox {
        left: i64::from(left) * 10_000_000,
        bottom: i64::from(bottom) * 10_000_000,
        right: i64::from(right) * 10_000_000,
        top: i64::from(top) * 10_000_000,
    }
}

#[test]
fn extracts_of_the_manual(rt: HostRuntime) {
    let Ok(config) = read_config(rt.alloc(), MANUAL) else {
        assert!(rt; false);
        return;
    };
    let folder = match &config.directory {
        Some(folder) => folder.as_str() == "/tmp/",
        None => false,
    };
    assert!(rt; folder && config.extracts.len() == 6);
    assert!(rt; has_rings(&config, 0, "hamburg.osm.pbf", 4, 0));
    assert!(rt;
        has_box(
            &config,
            1,
            "munich.osm.pbf",
            hundredths(1135, 4805, 1173, 4825)
        )
    );
    assert!(rt;
        has_box(
            &config,
            2,
            "dresden.osm.pbf",
            hundredths(1357, 5097, 1397, 5118)
        )
    );
    assert!(rt; has_rings(&config, 3, "cologne.osm.pbf", 6, 5));
    assert!(rt; has_file(&config, 4, "berlin.osm.pbf", "berlin.geojson"));
    assert!(rt; has_file(&config, 5, "bremen.osm.pbf", "bremen"));
}

/// What a text without a fault needs at least, and a byte order mark.
#[test]
fn least_configuration(rt: HostRuntime) {
    for text in [
        "{\"extracts\":[{\"output\":\"a\",\"bbox\":[1,2,3,4]}]}",
        "\u{feff} {\"extracts\": [{\"bbox\": {\"top\": 4, \"right\": 3, \"bottom\": 2.0, \"left\": 1}, \"output\": \"a\"}]}",
        "{\"extracts\":[{\"\\u006futput\":\"\\u0061\",\"bbox\":[1,2,3,4]}]}",
    ] {
        let is_right = match read_config(rt.alloc(), text) {
            Ok(config) => {
                config.directory.is_none()
                    && has_box(&config, 0, "a", hundredths(100, 200, 300, 400))
            }
            Err(_) => false,
        };
        assert!(rt; is_right, "at {text}");
    }
}

/// Whether the text has this fault.
fn has_fault(
    alloc: Global,
    text: &str,
    extract: usize,
    member: &str,
    reason: ConfigReason,
) -> bool {
    match read_config(alloc, text) {
        Err(ConfigError::Refused(fault)) => {
            fault.extract == extract && fault.member.as_str() == member && fault.reason == reason
        }
        _ => false,
    }
}

#[test]
fn each_fault_of_the_whole(rt: HostRuntime) {
    for (text, member, reason) in [
        ("", "", ConfigReason::Json),
        ("{", "", ConfigReason::Json),
        ("{/* */}", "", ConfigReason::Json),
        ("{\"extracts\": [],}", "", ConfigReason::Json),
        ("[]", "", ConfigReason::Shape),
        ("{}", "extracts", ConfigReason::Missing),
        ("{\"extracts\": {}}", "extracts", ConfigReason::Shape),
        ("{\"extracts\": []}", "extracts", ConfigReason::Empty),
        (
            "{\"directory\": 3, \"extracts\": []}",
            "directory",
            ConfigReason::Shape,
        ),
        ("{\"extract\": []}", "extract", ConfigReason::Unknown),
        (
            "{\"extracts\": [], \"extracts\": []}",
            "extracts",
            ConfigReason::Repeated,
        ),
        (
            "{\"extracts\": 1, \"comment\": 1, \"comment\": 1}",
            "comment",
            ConfigReason::Unknown,
        ),
    ] {
        assert!(rt; has_fault(rt.alloc(), text, 0, member, reason), "at {text}");
    }
}

/// Whether the second extract has this fault, and the first is in order.
fn has_second_fault(alloc: Global, members: &str, member: &str, reason: ConfigReason) -> bool {
    match format!(in alloc;
        "{{\"extracts\": [{{\"output\": \"a\", \"bbox\": [1, 2, 3, 4]}}, {members}]}}"
    ) {
        Ok(text) => has_fault(alloc, text.as_str(), 2, member, reason),
        Err(_) => false,
    }
}

#[test]
fn each_fault_of_an_extract(rt: HostRuntime) {
    for (members, member, reason) in [
        ("3", "", ConfigReason::Shape),
        ("{}", "output", ConfigReason::Missing),
        ("{\"output\": null}", "output", ConfigReason::Shape),
        ("{\"output\": \"\"}", "output", ConfigReason::FileName),
        ("{\"output\": \"-\"}", "output", ConfigReason::FileName),
        (
            "{\"output\": \"b\", \"output\": \"c\"}",
            "output",
            ConfigReason::Repeated,
        ),
        (
            "{\"output\": \"b\", \"output_header\": {}}",
            "output_header",
            ConfigReason::Unknown,
        ),
        (
            "{\"output\": \"b\", \"description\": 3}",
            "description",
            ConfigReason::Shape,
        ),
        (
            "{\"output\": \"b\", \"output_format\": 3}",
            "output_format",
            ConfigReason::Shape,
        ),
        (
            "{\"output\": \"b\", \"output_format\": \"osm.pbf\"}",
            "output_format",
            ConfigReason::Format,
        ),
        ("{\"output\": \"b\"}", "", ConfigReason::Area),
        (
            "{\"output\": \"b\", \"bbox\": [1, 2, 3, 4], \"polygon\": []}",
            "",
            ConfigReason::Area,
        ),
        (
            "{\"output\": \"b\", \"polygon\": [], \"multipolygon\": []}",
            "",
            ConfigReason::Area,
        ),
        (
            "{\"output\": \"a\", \"bbox\": [1, 2, 3, 4]}",
            "output",
            ConfigReason::SameOutput,
        ),
    ] {
        assert!(rt;
            has_second_fault(rt.alloc(), members, member, reason),
            "at {members}"
        );
    }
}

/// Whether the second extract has this fault in its area, which is this one.
fn has_area_fault(alloc: Global, area: &str, member: &str, reason: ConfigReason) -> bool {
    match format!(in alloc; "{{\"output\": \"b\", {area}}}") {
        Ok(members) => has_second_fault(alloc, members.as_str(), member, reason),
        Err(_) => false,
    }
}

#[test]
fn each_fault_of_a_box(rt: HostRuntime) {
    for (area, member, reason) in [
        ("\"bbox\": null", "bbox", ConfigReason::Shape),
        ("\"bbox\": [1, 2, 3]", "bbox", ConfigReason::Shape),
        ("\"bbox\": [1, 2, 3, 4, 5]", "bbox", ConfigReason::Shape),
        ("\"bbox\": [1, 2, 3, \"4\"]", "bbox", ConfigReason::Shape),
        (
            "\"bbox\": {\"left\": 1, \"bottom\": 2, \"right\": 3}",
            "top",
            ConfigReason::Missing,
        ),
        (
            "\"bbox\": {\"left\": 1, \"botom\": 2}",
            "botom",
            ConfigReason::Unknown,
        ),
        (
            "\"bbox\": {\"left\": 1, \"left\": 2}",
            "left",
            ConfigReason::Repeated,
        ),
        (
            "\"bbox\": [1e0, 2, 3, 4]",
            "bbox",
            ConfigReason::BadBox(BoxFault::Digit),
        ),
        (
            "\"bbox\": [1, 2, 3, 4.0000000001]",
            "bbox",
            ConfigReason::BadBox(BoxFault::Digit),
        ),
        (
            "\"bbox\": [1, 2, 181, 4]",
            "bbox",
            ConfigReason::BadBox(BoxFault::Range),
        ),
        (
            "\"bbox\": [3, 2, 1, 4]",
            "bbox",
            ConfigReason::BadBox(BoxFault::LeftOverRight),
        ),
        (
            "\"bbox\": [1, 4, 3, 2]",
            "bbox",
            ConfigReason::BadBox(BoxFault::BottomOverTop),
        ),
    ] {
        assert!(rt;
            has_area_fault(rt.alloc(), area, member, reason),
            "at {area}"
        );
    }
}

/// The fault of a polygon.
fn in_ring(ring: usize, position: usize, reason: PolyReason) -> ConfigReason {
    ConfigReason::BadPolygon(PolyFault {
        place: PolyPlace::Ring(ring, position),
        reason,
    })
}

/// That of all polygons.
fn in_all(reason: PolyReason) -> ConfigReason {
    ConfigReason::BadPolygon(PolyFault {
        place: PolyPlace::Text,
        reason,
    })
}

#[test]
fn each_fault_of_a_polygon(rt: HostRuntime) {
    for (area, member, reason) in [
        ("\"polygon\": null", "polygon", ConfigReason::Shape),
        (
            "\"multipolygon\": \"a.poly\"",
            "multipolygon",
            ConfigReason::Shape,
        ),
        ("\"polygon\": []", "polygon", in_all(PolyReason::Empty)),
        (
            "\"multipolygon\": [[]]",
            "multipolygon",
            in_all(PolyReason::Empty),
        ),
        ("\"polygon\": [1]", "polygon", in_all(PolyReason::Shape)),
        (
            "\"polygon\": [[[0, 0], [1, 0], [1, 1]]]",
            "polygon",
            in_ring(1, 3, PolyReason::Short),
        ),
        (
            "\"multipolygon\": [[[[0, 0], [1, 0], [1, 1], [0, 0]]], [[[0, 0], [1, 91]]]]",
            "multipolygon",
            in_ring(2, 2, PolyReason::Range),
        ),
        ("\"polygon\": {}", "file_name", ConfigReason::Missing),
        (
            "\"polygon\": {\"file_name\": \"\"}",
            "file_name",
            ConfigReason::FileName,
        ),
        (
            "\"polygon\": {\"file_name\": 3}",
            "file_name",
            ConfigReason::Shape,
        ),
        (
            "\"polygon\": {\"file\": \"a\"}",
            "file",
            ConfigReason::Unknown,
        ),
        (
            "\"polygon\": {\"file_name\": \"a\", \"file_type\": \"osm\"}",
            "file_type",
            ConfigReason::FileType,
        ),
    ] {
        assert!(rt;
            has_area_fault(rt.alloc(), area, member, reason),
            "at {area}"
        );
    }
}
