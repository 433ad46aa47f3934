//! What no clause says of a configuration: that its words are accepted, and the lines of its faults by example.

use osm_box::BoxFault;
use osm_config::{ConfigFault, ConfigReason};
use osm_polygon::{PolyFault, PolyPlace, PolyReason};
use pbfcut_cli::{ChoiceFault, CliFault, Command, Ending, Program, read_words};
use std::alloc::{AllocError, Global};
use std::test::Fail;

/// Whether pbfcutz reads these words as a cut of the areas of `c` out of `a`, into this folder, with or without parents.
fn is_each(alloc: Global, words: &[&str], folder: Option<&str>, asked: bool) -> bool {
    let read = read_words(alloc, Program::Pbfcutz, words);
    match &read {
        Ok(Command::ExtractEach { parents, files }) => {
            files.input == "a"
                && files.config == "c"
                && files.directory == folder
                && *parents == asked
                && files.overwrite == asked
                && !files.raw
        }
        _ => false,
    }
}

/// Whether pbfcutz refuses these words for this choice.
fn is_choice_of_pbfcutz(alloc: Global, words: &[&str], choice: ChoiceFault) -> bool {
    let read = read_words(alloc, Program::Pbfcutz, words);
    matches!(&read, Err(CliFault::Choice(found)) if *found == choice)
}

#[test]
fn words_of_a_configuration(rt: HostRuntime) {
    let alloc = rt.alloc();
    assert!(rt; is_each(alloc, &["extract", "-c", "c", "a"], None, false));
    assert!(rt; is_each(alloc, &["extract", "--config=c", "a"], None, false));
    let words = ["extract", "-c", "c", "-d", "f", "a"];
    assert!(rt; is_each(alloc, &words, Some("f"), false));
    let words = [
        "extract",
        "--config=c",
        "--directory=f",
        "--parents",
        "-O",
        "a",
    ];
    assert!(rt; is_each(alloc, &words, Some("f"), true));
}

#[test]
fn words_that_exclude_a_configuration(rt: HostRuntime) {
    let alloc = rt.alloc();
    let output = ChoiceFault::ConfigAndOutput;
    assert!(rt; is_choice_of_pbfcutz(alloc, &["extract", "-c", "c", "a", "b"], output));
    let words = ["extract", "-c", "c", "-o", "b", "a"];
    assert!(rt; is_choice_of_pbfcutz(alloc, &words, output));
    let region = ChoiceFault::ConfigAndRegion;
    let words = ["extract", "-c", "c", "--box=0,0,1,1", "a"];
    assert!(rt; is_choice_of_pbfcutz(alloc, &words, region));
    let words = ["extract", "-c", "c", "-p", "p", "a"];
    assert!(rt; is_choice_of_pbfcutz(alloc, &words, region));
    let words = ["extract", "-c", "c", "-s", "smart", "a"];
    assert!(rt; is_choice_of_pbfcutz(alloc, &words, ChoiceFault::ConfigAndSmart));
    let words = ["extract", "-p", "p", "-d", "f", "a", "b"];
    assert!(rt; is_choice_of_pbfcutz(alloc, &words, ChoiceFault::DirectoryAlone));
}

/// Whether a configuration's fault in this extract and member has this message.
fn is_config_line(
    alloc: Global,
    place: (usize, &str),
    reason: ConfigReason,
    text: &str,
) -> Result<bool, AllocError> {
    let fault = ConfigFault {
        extract: place.0,
        member: String::from_str(alloc, place.1)?,
        reason,
    };
    let ending = Ending::Config(fault);
    let message = ending.message(alloc, Program::Pbfcutz)?;
    Ok(ending.status() == 2 && message.as_str() == text)
}

#[test]
fn lines_of_a_configuration(rt: HostRuntime) -> Result<(), Fail> {
    let alloc = rt.alloc();
    let line = "pbfcutz: config: 1 Json\n";
    assert!(rt; is_config_line(alloc, (0, ""), ConfigReason::Json, line)?);
    let line = "pbfcutz: config: extracts: 6 Empty\n";
    assert!(rt; is_config_line(alloc, (0, "extracts"), ConfigReason::Empty, line)?);
    let line = "pbfcutz: config: extract 12: 10 Area\n";
    assert!(rt; is_config_line(alloc, (12, ""), ConfigReason::Area, line)?);
    let line = "pbfcutz: config: extract 1: ouput: 3 Unknown\n";
    assert!(rt; is_config_line(alloc, (1, "ouput"), ConfigReason::Unknown, line)?);
    let line = "pbfcutz: config: extract 1: ?: 3 Unknown\n";
    assert!(rt; is_config_line(alloc, (1, "\u{1b}[31m"), ConfigReason::Unknown, line)?);
    let line = "pbfcutz: config: extract 2: bbox: 11 BadBox(Range)\n";
    let reason = ConfigReason::BadBox(BoxFault::Range);
    assert!(rt; is_config_line(alloc, (2, "bbox"), reason, line)?);
    let line = "pbfcutz: config: extract 2: polygon: 12 BadPolygon(ring 1, position 3: 10 Long)\n";
    let reason = ConfigReason::BadPolygon(PolyFault {
        place: PolyPlace::Ring(1, 3),
        reason: PolyReason::Long,
    });
    assert!(rt; is_config_line(alloc, (2, "polygon"), reason, line)?);
    Ok(())
}
