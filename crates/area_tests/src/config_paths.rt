//! By example where the files of a configuration are.

use osm_config::{ConfigError, ConfigReason, ConfiguredArea, read_extracts};
use std::alloc::Global;

/// A configuration with a folder, an output, and a file of polygons.
const WITH_FOLDER: &str = "{\"directory\": \"cuts\", \"extracts\": [
    {\"output\": \"a.osm.pbf\", \"polygon\": {\"file_name\": \"a.poly\"}}]}";

/// The same without a folder.
const WITHOUT_FOLDER: &str = "{\"extracts\": [
    {\"output\": \"a.osm.pbf\", \"polygon\": {\"file_name\": \"a.poly\"}}]}";

/// One whose paths begin at the root.
const ABSOLUTE: &str = "{\"directory\": \"cuts\", \"extracts\": [
    {\"output\": \"/a.osm.pbf\", \"polygon\": {\"file_name\": \"/areas/a.poly\"}}]}";

/// One with two outputs that are one in the root folder.
const TWO_AT_THE_ROOT: &str = "{\"directory\": \"/\", \"extracts\": [
    {\"output\": \"a\", \"bbox\": [1, 2, 3, 4]}, {\"output\": \"/a\", \"bbox\": [1, 2, 3, 4]}]}";

/// Whether the only extract of the configuration at this path has this output, and this file of polygons.
fn has_paths(alloc: Global, text: &str, places: (&str, Option<&str>), paths: (&str, &str)) -> bool {
    let Ok(extracts) = read_extracts(alloc, text, places.0, places.1) else {
        return false;
    };
    let [extract] = extracts.as_slice() else {
        return false;
    };
    match &extract.area {
        ConfiguredArea::InFile(file) => {
            extract.output.as_str() == paths.0 && file.as_str() == paths.1
        }
        _ => false,
    }
}

/// Whether the second extract has the output of the first.
fn has_same_output(alloc: Global, text: &str, folder: Option<&str>) -> bool {
    match read_extracts(alloc, text, "areas.json", folder) {
        Err(ConfigError::Refused(fault)) => {
            fault.extract == 2 && fault.reason == ConfigReason::SameOutput
        }
        _ => false,
    }
}

#[test]
fn outputs_and_files(rt: HostRuntime) {
    let alloc = rt.alloc();
    let here = ("areas.json", None);
    assert!(rt; has_paths(alloc, WITH_FOLDER, here, ("cuts/a.osm.pbf", "a.poly")));
    assert!(rt; has_paths(alloc, WITHOUT_FOLDER, here, ("a.osm.pbf", "a.poly")));
    assert!(rt; has_paths(alloc, ABSOLUTE, here, ("/a.osm.pbf", "/areas/a.poly")));
    let there = ("maps/areas.json", Some("new/"));
    assert!(rt; has_paths(alloc, WITH_FOLDER, there, ("new/a.osm.pbf", "maps/a.poly")));
    assert!(rt;
        has_paths(
            alloc,
            WITHOUT_FOLDER,
            there,
            ("new/a.osm.pbf", "maps/a.poly")
        )
    );
    assert!(rt; has_paths(alloc, ABSOLUTE, there, ("/a.osm.pbf", "/areas/a.poly")));
    let at_root = ("/areas.json", Some(""));
    assert!(rt; has_paths(alloc, WITH_FOLDER, at_root, ("a.osm.pbf", "/a.poly")));
}

#[test]
fn one_file_by_two_names(rt: HostRuntime) {
    let alloc = rt.alloc();
    assert!(rt; has_same_output(alloc, TWO_AT_THE_ROOT, None));
    assert!(rt; !has_same_output(alloc, TWO_AT_THE_ROOT, Some("cuts")));
}
