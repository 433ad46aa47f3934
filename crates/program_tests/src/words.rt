//! What no clause says: that words are accepted at all, and the texts of `clap` and of help.

use osm_entity::{BoundingBox, BoxFault};
use pbf_frame::Stop;
use pbf_wire::{Fault, Reason};
use pbfcut_cli::{
    ChoiceFault, CliFault, Command, Ending, Files, Program, Region, Strategy, line,
    normalize_words, read_words, status,
};
use std::alloc::{AllocError, Global};
use std::process::Abort;
use std::test::Fail;

const LONDON: BoundingBox = BoundingBox {
    left: -500_000_000,
    bottom: 51_250_000_000,
    right: 300_000_000,
    top: 51_700_000_000,
};

/// Whether these words are a command to list the frames of this file.
fn is_blobs(alloc: Global, words: &[&str], input: &str) -> bool {
    let read = read_words(alloc, Program::Pbfcut, words);
    matches!(&read, Ok(Command::Blobs { input: found }) if *found == input)
}

/// Whether they are a command to print this file, with or without dates and progress.
fn is_show(alloc: Global, words: &[&str], input: &str, asked: (bool, bool)) -> bool {
    let read = read_words(alloc, Program::Pbfcut, words);
    match &read {
        Ok(
            Command::Show {
                input: found,
                dates,
                progress,
            },
        ) => *found == input && (*dates, *progress) == asked,
        _ => false,
    }
}

/// Whether they are a command of pbfcutz to print the header of `a`, as lines or in JSON.
fn is_info(alloc: Global, words: &[&str], asked: bool) -> bool {
    let read = read_words(alloc, Program::Pbfcutz, words);
    matches!(&read, Ok(Command::Info { input, json }) if *input == "a" && *json == asked)
}

/// Whether they are a command to check this file, with or without progress and digests.
fn is_check(alloc: Global, words: &[&str], input: &str, asked: (bool, bool)) -> bool {
    let read = read_words(alloc, Program::Pbfcut, words);
    match &read {
        Ok(
            Command::Check {
                input: found,
                progress,
                digests,
            },
        ) => *found == input && (*progress, *digests) == asked,
        _ => false,
    }
}

/// Whether the files are `a` and `b`, with or without progress and digests, and with neither raw blobs nor a file that is replaced.
fn are_files(files: &Files<'_>, asked: (bool, bool)) -> bool {
    files.input == "a"
        && files.output == "b"
        && !files.raw
        && !files.overwrite
        && !files.quiet
        && (files.progress, files.digests) == asked
}

/// Whether they are a command to convert `a` to `b`, with or without progress and digests.
fn is_convert(alloc: Global, words: &[&str], asked: (bool, bool)) -> bool {
    let read = read_words(alloc, Program::Pbfcut, words);
    match &read {
        Ok(Command::Convert(files)) => are_files(files, asked),
        _ => false,
    }
}

/// Whether they are a command of pbfcutz to convert `a` to `b`, with these flags: raw blobs, and a file that is replaced.
fn is_convert_of_pbfcutz(alloc: Global, words: &[&str], flags: (bool, bool)) -> bool {
    let read = read_words(alloc, Program::Pbfcutz, words);
    match &read {
        Ok(Command::Convert(files)) => {
            files.input == "a" && files.output == "b" && (files.raw, files.overwrite) == flags
        }
        _ => false,
    }
}

/// Whether they are a command to cut London out of `a` into `b`, with all of parents, progress and digests, or with none of them.
fn is_extract(alloc: Global, words: &[&str], asked: bool) -> bool {
    let read = read_words(alloc, Program::Pbfcut, words);
    match &read {
        Ok(
            Command::Extract {
                region: Region::Box(area),
                strategy,
                files,
            },
        ) => {
            *area == LONDON
                && matches!(strategy, Strategy::AllParents) == asked
                && are_files(files, (asked, asked))
        }
        _ => false,
    }
}

/// Whether they are a command to cut the polygon of `p` out of `a` into `b`.
fn is_polygon(alloc: Global, program: Program, words: &[&str]) -> bool {
    let read = read_words(alloc, program, words);
    match &read {
        Ok(
            Command::Extract {
                region: Region::Polygon(path),
                strategy: Strategy::CompleteWays,
                files,
            },
        ) => *path == "p" && are_files(files, (false, false)),
        _ => false,
    }
}

/// Whether they are a command to make a smart extract with these types.
fn is_smart(alloc: Global, program: Program, words: &[&str], types: &str) -> bool {
    let read = read_words(alloc, program, words);
    match &read {
        Ok(
            Command::Extract {
                strategy: Strategy::Smart(named),
                ..
            },
        ) => *named == types,
        _ => false,
    }
}

/// Whether the words are refused for this choice.
fn is_choice(alloc: Global, program: Program, words: &[&str], choice: ChoiceFault) -> bool {
    let read = read_words(alloc, program, words);
    match &read {
        Err(CliFault::Choice(found)) => *found == choice,
        _ => false,
    }
}

#[test]
fn commands_that_read(rt: HostRuntime) {
    assert!(rt; is_blobs(rt.alloc(), &["blobs", "a"], "a"));
    assert!(rt; is_show(rt.alloc(), &["show", "a"], "a", (false, false)));
    assert!(rt; is_show(rt.alloc(), &["show", "--dates", "a"], "a", (true, false)));
    assert!(rt; is_show(rt.alloc(), &["show", "a", "--dates"], "a", (true, false)));
    assert!(rt; is_check(rt.alloc(), &["check", "a"], "a", (false, false)));
    assert!(rt;
        is_check(
            rt.alloc(),
            &["check", "--", "--dates"],
            "--dates",
            (false, false)
        )
    );
}

#[test]
fn commands_that_write(rt: HostRuntime) {
    assert!(rt; is_convert(rt.alloc(), &["convert", "a", "b"], (false, false)));
    let words = ["extract", "--box=-0.5,51.25,0.3,51.7", "a", "b"];
    assert!(rt; is_extract(rt.alloc(), &words, false));
    let words = [
        "extract",
        "--parents",
        "--progress",
        "--digests",
        "--box=-0.5,51.25,0.3,51.7",
        "a",
        "b",
    ];
    assert!(rt; is_extract(rt.alloc(), &words, true));
    let words = ["extract", "--bbox=-0.5,51.25,0.3,51.7", "a", "b"];
    assert!(rt; is_extract(rt.alloc(), &words, false));
    let words = ["extract", "-b=-0.5,51.25,0.3,51.7", "a", "b"];
    assert!(rt; is_extract(rt.alloc(), &words, false));
    let words = ["extract", "-b-0.5,51.25,0.3,51.7", "a", "b"];
    assert!(rt; is_extract(rt.alloc(), &words, false));
}

#[test]
fn polygons(rt: HostRuntime) {
    for program in [Program::Pbfcut, Program::Pbfcutz] {
        assert!(rt; is_polygon(rt.alloc(), program, &["extract", "--polygon=p", "a", "b"]));
        assert!(rt; is_polygon(rt.alloc(), program, &["extract", "-p", "p", "a", "b"]));
        assert!(rt;
            is_choice(
                rt.alloc(),
                program,
                &["extract", "a", "b"],
                ChoiceFault::NoRegion
            )
        );
        assert!(rt;
            is_choice(
                rt.alloc(),
                program,
                &["extract", "--box=0,0,1,1", "-p", "p", "a", "b"],
                ChoiceFault::TwoRegions
            )
        );
    }
}

#[test]
fn output_as_an_option(rt: HostRuntime) {
    let alloc = rt.alloc();
    let plain = (false, false);
    assert!(rt; is_convert_of_pbfcutz(alloc, &["convert", "a", "-o", "b"], plain));
    assert!(rt; is_convert_of_pbfcutz(alloc, &["convert", "-ob", "a"], plain));
    assert!(rt; is_convert_of_pbfcutz(alloc, &["convert", "--output=b", "a"], plain));
    assert!(rt; is_convert_of_pbfcutz(alloc, &["convert", "-O", "a", "b"], (false, true)));
    assert!(rt; is_convert_of_pbfcutz(alloc, &["convert", "-Oo", "b", "a"], (false, true)));
    let pbfcutz = Program::Pbfcutz;
    assert!(rt; is_choice(alloc, pbfcutz, &["convert", "a"], ChoiceFault::NoOutput));
    let twice = ["convert", "a", "b", "-o", "c"];
    assert!(rt; is_choice(alloc, pbfcutz, &twice, ChoiceFault::TwoOutputs));
}

/// Whether these words are a command to convert `a` to `b`, without progress.
fn is_quiet_convert(alloc: Global, program: Program, words: &[&str]) -> bool {
    let read = read_words(alloc, program, words);
    match &read {
        Ok(Command::Convert(files)) => files.input == "a" && files.output == "b" && files.quiet,
        _ => false,
    }
}

#[test]
fn words_of_osmium(rt: HostRuntime) {
    let alloc = rt.alloc();
    for program in [Program::Pbfcut, Program::Pbfcutz] {
        assert!(rt; is_quiet_convert(alloc, program, &["convert", "--no-progress", "a", "b"]));
        let words = ["extract", "-p", "p", "-s", "complete_ways", "a", "b"];
        assert!(rt; is_polygon(alloc, program, &words));
        let words = ["extract", "--strategy=complete_ways", "-pp", "a", "b"];
        assert!(rt; is_polygon(alloc, program, &words));
        let words = ["extract", "--set-bounds", "--fsync", "-pp", "a", "b"];
        assert!(rt; is_polygon(alloc, program, &words));
        let words = ["extract", "-f", "pbf", "-Fpbf", "-pp", "a", "b"];
        assert!(rt; is_polygon(alloc, program, &words));
        let words = [
            "extract",
            "--output-format=pbf",
            "--input-format",
            "pbf",
            "-pp",
            "a",
            "b",
        ];
        assert!(rt; is_polygon(alloc, program, &words));
        let words = ["extract", "-s", "simple", "-pp", "a", "b"];
        assert!(rt; is_choice(alloc, program, &words, ChoiceFault::OtherStrategy));
        let words = ["convert", "-f", "osm.pbf", "a", "b"];
        assert!(rt; is_choice(alloc, program, &words, ChoiceFault::OtherFormat));
        let words = ["convert", "--input-format=xml", "a", "b"];
        assert!(rt; is_choice(alloc, program, &words, ChoiceFault::OtherFormat));
    }
}

#[test]
fn smart_words(rt: HostRuntime) {
    let alloc = rt.alloc();
    for program in [Program::Pbfcut, Program::Pbfcutz] {
        let words = ["extract", "-s", "smart", "-pp", "a", "b"];
        assert!(rt; is_smart(alloc, program, &words, "multipolygon"));
        let words = ["extract", "--strategy=smart", "--parents", "-pp", "a", "b"];
        assert!(rt; is_smart(alloc, program, &words, "multipolygon"));
        let words = [
            "extract",
            "-ssmart",
            "--types",
            "boundary,route",
            "-pp",
            "a",
            "b",
        ];
        assert!(rt; is_smart(alloc, program, &words, "boundary,route"));
        let words = ["extract", "-s", "smart", "--types=", "-pp", "a", "b"];
        assert!(rt; is_smart(alloc, program, &words, ""));
        let words = ["extract", "--types=any", "-pp", "a", "b"];
        assert!(rt; is_choice(alloc, program, &words, ChoiceFault::TypesAlone));
    }
}

/// Whether these words are a command of pbfcutz, and none of pbfcut.
fn is_of_pbfcutz(alloc: Global, words: &[&str]) -> bool {
    let taken = read_words(alloc, Program::Pbfcutz, words);
    let refused = read_words(alloc, Program::Pbfcut, words);
    taken.is_ok() && matches!(&refused, Err(CliFault::Line(_)))
}

#[test]
fn commands_of_pbfcutz(rt: HostRuntime) {
    assert!(rt; is_of_pbfcutz(rt.alloc(), &["pack", "a", "b"]));
    assert!(rt; is_of_pbfcutz(rt.alloc(), &["unpack", "a", "-o", "b"]));
    assert!(rt; is_of_pbfcutz(rt.alloc(), &["info", "a"]));
    assert!(rt; is_info(rt.alloc(), &["info", "a"], false));
    assert!(rt; is_info(rt.alloc(), &["info", "--json", "a"], true));
    assert!(rt; is_info(rt.alloc(), &["info", "a", "--json"], true));
}

#[test]
fn commands_with_progress(rt: HostRuntime) {
    assert!(rt;
        is_check(
            rt.alloc(),
            &["check", "--progress", "a"],
            "a",
            (true, false)
        )
    );
    assert!(rt; is_show(rt.alloc(), &["show", "--progress", "a"], "a", (false, true)));
    assert!(rt;
        is_convert(
            rt.alloc(),
            &["convert", "--progress", "a", "b"],
            (true, false)
        )
    );
}

#[test]
fn raw_is_an_option_of_pbfcutz(rt: HostRuntime) {
    let words = ["convert", "--raw", "a", "b"];
    assert!(rt; is_convert_of_pbfcutz(rt.alloc(), &words, (true, false)));
    assert!(rt; is_convert_of_pbfcutz(rt.alloc(), &["convert", "a", "b"], (false, false)));
    let read = read_words(rt.alloc(), Program::Pbfcut, &words);
    assert!(rt; matches!(&read, Err(CliFault::Line(_))));
}

#[test]
fn commands_with_digests(rt: HostRuntime) {
    assert!(rt; is_check(rt.alloc(), &["check", "a", "--digests"], "a", (false, true)));
    assert!(rt;
        is_convert(
            rt.alloc(),
            &["convert", "--digests", "a", "b"],
            (false, true)
        )
    );
}

/// Owned copies of the words.
pub(crate) fn owned(alloc: Global, words: &[&str]) -> Result<Vec<String>, AllocError> {
    let mut given = Vec::new(alloc);
    for word in words {
        given.push(String::from_str(alloc, word)?)?;
    }
    Ok(given)
}

/// Whether the words are these as `read_words` takes them.
fn are_seen(alloc: Global, words: &[String], expected: &[&str]) -> Result<bool, AllocError> {
    let seen = normalize_words(alloc, words)?;
    if seen.len() != expected.len() {
        return Ok(false);
    }
    for (found, word) in seen.iter().zip(expected) {
        if found.as_str() != *word {
            return Ok(false);
        }
    }
    Ok(true)
}

fn joins(rt: &(impl Abort + AllocGlobal), words: &[&str], expected: &[&str]) -> Result<(), Fail> {
    let given = owned(rt.alloc(), words)?;
    assert!(rt; are_seen(rt.alloc(), given.as_slice(), expected)?);
    Ok(())
}

#[test]
fn boxes_that_are_words_of_their_own(rt: HostRuntime) -> Result<(), Fail> {
    for (words, expected) in [
        ([].as_slice(), [].as_slice()),
        (
            &["extract", "--box", "-0.5,1,2,3", "a"],
            &["extract", "--box=-0.5,1,2,3", "a"],
        ),
        (&["--box", "-.5"], &["--box=-.5"]),
        (&["--bbox", "-.5"], &["--bbox=-.5"]),
        (&["-b", "-.5"], &["-b=-.5"]),
        (
            &["--box", "--box", "-9", "-9"],
            &["--box", "--box=-9", "-9"],
        ),
        (&["--box", "0,1,2,3", "a"], &["--box", "0,1,2,3", "a"]),
        (&["--box", "-h"], &["--box", "-h"]),
        (&["--box", "-"], &["--box", "-"]),
        (&["--dates", "-1"], &["--dates", "-1"]),
        (&["check", "--box"], &["check", "--box"]),
    ] {
        joins(&rt, words, expected)?;
    }
    Ok(())
}

#[test]
fn help_that_is_a_word(rt: HostRuntime) -> Result<(), Fail> {
    for (words, expected) in [
        (["help"].as_slice(), ["--help"].as_slice()),
        (&["help", "show"], &["show", "--help"]),
        (&["help", "--box", "-9"], &["--box=-9", "--help"]),
        (&["show", "help"], &["show", "help"]),
        (&["helps"], &["helps"]),
    ] {
        joins(&rt, words, expected)?;
    }
    Ok(())
}

/// Whether the text is a refusal of words, whose first line is this.
fn is_refusal(text: &str, first_line: &str) -> bool {
    text.lines().next() == Some(first_line)
        && text.contains("Usage: pbfcut")
        && text.ends_with("\n")
}

/// Whether the words are refused, with a text that names the program and gives this line first.
fn is_refused(alloc: Global, words: &[&str], first_line: &str) -> bool {
    let read = read_words(alloc, Program::Pbfcut, words);
    match &read {
        Err(CliFault::Line(text)) => is_refusal(text.as_str(), first_line),
        _ => false,
    }
}

fn refuses_with(
    rt: &(impl Abort + AllocGlobal),
    words: &[&str],
    first_line: &str,
) -> Result<(), Fail> {
    assert!(rt;
        is_refused(rt.alloc(), words, first_line),
        "not: {first_line}"
    );
    Ok(())
}

#[test]
fn words_that_are_no_command(rt: HostRuntime) -> Result<(), Fail> {
    let missing = "error: the following required arguments were not provided:";
    for (words, first_line) in [
        (
            ["cut", "a"].as_slice(),
            "error: unrecognized subcommand 'cut'",
        ),
        (&["show"], missing),
        (&["convert", "a"], missing),
        (&["extract", "a"], missing),
        (
            &["check", "--dates", "a"],
            "error: unexpected argument '--dates' found",
        ),
        (
            &["convert", "a", "-o", "b"],
            "error: unexpected argument '-o' found",
        ),
        (&["blobs", "a", "b"], "error: unexpected argument 'b' found"),
        (
            &[],
            "error: 'pbfcut' requires a subcommand but one was not provided",
        ),
    ] {
        refuses_with(&rt, words, first_line)?;
    }
    Ok(())
}

fn has_parts(text: &str, parts: &[&str]) -> bool {
    for part in parts {
        if !text.contains(*part) {
            return false;
        }
    }
    true
}

/// Whether no line has more than 80 columns.
fn is_narrow(text: &str) -> bool {
    for line in text.lines() {
        if line.len() > 80 {
            return false;
        }
    }
    true
}

/// Whether `--help` after these words gives help with each of the parts in it, and with those that each help has.
fn is_help(alloc: Global, words: &[&str], parts: &[&str]) -> bool {
    let of_each = [
        "Usage: pbfcut",
        "Example",
        "\n  pbfcut",
        "Exit status:\n  0  done",
        "5  IN changed",
    ];
    let read = read_words(alloc, Program::Pbfcut, words);
    match &read {
        Ok(Command::Help(text)) => {
            is_narrow(text.as_str())
                && has_parts(text.as_str(), &of_each)
                && has_parts(text.as_str(), parts)
        }
        _ => false,
    }
}

fn helps_with(rt: &(impl Abort + AllocGlobal), words: &[&str], parts: &[&str]) -> Result<(), Fail> {
    assert!(rt; is_help(rt.alloc(), words, parts));
    Ok(())
}

#[test]
fn help_of_each_command(rt: HostRuntime) -> Result<(), Fail> {
    let commands = ["extract", "convert", "check", "show", "blobs", "pbfcutz"];
    helps_with(&rt, &["--help"], &commands)?;
    helps_with(&rt, &["-h"], &commands)?;
    helps_with(&rt, &["blobs", "--help"], &["<IN>", "bytes", "pbfcutz"])?;
    helps_with(
        &rt,
        &["show", "--help"],
        &["<IN>", "--dates", "nanodegrees of WGS84", "milliseconds"],
    )?;
    helps_with(&rt, &["check", "--help"], &["<IN>"])?;
    helps_with(&rt, &["convert", "--help"], &["<IN>", "<OUT>"])?;
    let box_parts = [
        "degrees of WGS84",
        "west,south,east,north",
        "--parents",
        "--box=",
        "--bbox",
        "pbfcutz",
        "<IN>",
        "<OUT>",
    ];
    helps_with(&rt, &["extract", "--help"], &box_parts)?;
    helps_with(&rt, &["extract", "-h"], &box_parts)
}

/// Whether this is the line of the stop, here and where it is printed by itself.
fn is_line(alloc: Global, stop: &Stop, text: &str) -> Result<bool, AllocError> {
    let told = line(alloc, stop)?;
    let printed = format!(in alloc; "pbfcut: {stop}")?;
    Ok(told.as_str() == text && printed.as_str() == text)
}

/// Whether this is the message of the ending, without its line end.
fn is_message(alloc: Global, ending: &Ending, text: &str) -> Result<bool, AllocError> {
    let message = ending.message(alloc, Program::Pbfcut)?;
    Ok(message.as_str().strip_suffix("\n") == Some(text))
}

/// Whether the stop, as an ending, has this message and status.
fn ends_so(alloc: Global, stop: Stop, text: &str, number: u8) -> Result<bool, AllocError> {
    let ending = Ending::from(stop);
    Ok(ending.status() == number && is_message(alloc, &ending, text)?)
}

/// Whether the stop has this line and this status, by itself and as an ending.
fn is_told(alloc: Global, stop: Stop, text: &str, number: u8) -> Result<bool, AllocError> {
    let line_is = is_line(alloc, &stop, text)?;
    let ending_is = ends_so(alloc, stop, text, number)?;
    Ok(status(&stop) == number && line_is && ending_is)
}

fn told_as(
    rt: &(impl Abort + AllocGlobal),
    stop: Stop,
    text: &str,
    number: u8,
) -> Result<(), Fail> {
    assert!(rt; is_told(rt.alloc(), stop, text, number)?, "not: {text}");
    Ok(())
}

#[test]
fn stops(rt: HostRuntime) -> Result<(), Fail> {
    let feature = Stop::Refused(Fault {
        offset: 19,
        reason: Reason::Feature,
    });
    told_as(&rt, feature, "pbfcut: refused at 19: 55 Feature", 1)?;
    let missing = Stop::Refused(Fault {
        offset: 36,
        reason: Reason::Missing(1),
    });
    told_as(&rt, missing, "pbfcut: refused at 36: 25 Missing(1)", 1)?;
    told_as(&rt, Stop::Read, "pbfcut: read failed", 3)?;
    told_as(&rt, Stop::Write, "pbfcut: write failed", 3)?;
    told_as(&rt, Stop::Memory, "pbfcut: out of memory", 4)?;
    told_as(&rt, Stop::Changed(2), "pbfcut: input changed in pass 2", 5)
}

/// Whether the ending has this message, without its line end, and this status.
fn has_message(alloc: Global, ending: Ending, text: &str, number: u8) -> Result<bool, AllocError> {
    Ok(ending.status() == number && is_message(alloc, &ending, text)?)
}

fn ends_with(
    rt: &(impl Abort + AllocGlobal),
    ending: Ending,
    text: &str,
    number: u8,
) -> Result<(), Fail> {
    assert!(rt;
        has_message(rt.alloc(), ending, text, number)?,
        "not: {text}"
    );
    Ok(())
}

#[test]
fn endings_of_the_program(rt: HostRuntime) -> Result<(), Fail> {
    ends_with(&rt, Ending::Box(BoxFault::Shape), "pbfcut: box: Shape", 2)?;
    let last = Ending::Box(BoxFault::BottomOverTop);
    ends_with(&rt, last, "pbfcut: box: BottomOverTop", 2)?;
    ends_with(&rt, Ending::CannotOpen, "pbfcut: cannot open", 3)?;
    ends_with(&rt, Ending::OutExists, "pbfcut: OUT exists", 3)?;
    let pipe = "pbfcut: IN must be a file, not a pipe";
    ends_with(&rt, Ending::IsPipe, pipe, 3)
}

/// What was wrong with words ends with its message and its status.
#[test]
fn endings_of_words(rt: HostRuntime) -> Result<(), Fail> {
    let memory = Ending::from(CliFault::Memory);
    ends_with(&rt, memory, "pbfcut: out of memory", 4)?;
    let digit = Ending::from(CliFault::Box(BoxFault::Digit));
    ends_with(&rt, digit, "pbfcut: box: Digit", 2)
}

/// Whether the message of the ending begins so, and its status is that of words that are wrong.
fn begins_with(alloc: Global, ending: Ending, text: &str) -> Result<bool, AllocError> {
    let message = ending.message(alloc, Program::Pbfcut)?;
    Ok(ending.status() == 2 && message.as_str().starts_with(text))
}

/// Whether these words end in a message that begins so.
fn end_in(alloc: Global, words: &[&str], text: &str) -> Result<bool, AllocError> {
    match read_words(alloc, Program::Pbfcut, words) {
        Ok(_) => Ok(false),
        Err(fault) => begins_with(alloc, Ending::from(fault), text),
    }
}

#[test]
fn messages_of_words(rt: HostRuntime) -> Result<(), Fail> {
    assert!(rt;
        end_in(
            rt.alloc(),
            &["cut"],
            "error: unrecognized subcommand 'cut'\n"
        )?
    );
    let utf8 = "error: invalid UTF-8 was detected in one or more arguments\n";
    assert!(rt; begins_with(rt.alloc(), Ending::NotText, utf8)?);
    Ok(())
}
