//! What is said of arguments that are missing or too many, or have another value than the one they take, and of the file of a polygon.

ghost use Rattle.std.specs.Prelude.{◌≡◌, ◌++◌, IfOk, codes, string_bytes};
ghost use Rattle.pbfcut_cli.specs.Endings.{choice_error, choice_text, choice_usage, line_text, poly_place_text, poly_reason_text, polygon_text, ring_text};

use crate::words::ChoiceFault;
use osm_polygon::{PolyFault, PolyPlace, PolyReason};
use std::alloc::{AllocError, Global};

/// What is wrong, as `clap` says it of arguments that need or exclude each other.
fn choice_error(fault: ChoiceFault) -> &'static str
    ensures { result.now ≡ choice_error fault }
{
    match fault {
        ChoiceFault::NoRegion => {
            "the following required arguments were not provided:\n  --box <WEST,SOUTH,EAST,NORTH>"
        }
        ChoiceFault::TwoRegions => {
            "the argument '--box <WEST,SOUTH,EAST,NORTH>' cannot be used with '--polygon <FILE>'"
        }
        ChoiceFault::NoOutput => "the following required arguments were not provided:\n  <OUT>",
        ChoiceFault::TwoOutputs => "the argument '--output <OUT>' cannot be used with '[OUT]'",
        ChoiceFault::OtherFormat => {
            "the only format of IN and OUT is 'pbf'\n\n  tip: leave it out: IN and OUT are PBF files, whatever their names are"
        }
        ChoiceFault::OtherStrategy => {
            "the strategies are 'complete_ways' and 'smart'\n\n  tip: leave it out: ways are always complete"
        }
        ChoiceFault::TypesAlone => {
            "the argument '--types <LIST>' cannot be used without '--strategy smart'"
        }
        ChoiceFault::ConfigAndRegion => {
            "the argument '--config <FILE>' cannot be used with '--box <WEST,SOUTH,EAST,NORTH>' or '--polygon <FILE>'"
        }
        ChoiceFault::ConfigAndOutput => {
            "the argument '--config <FILE>' cannot be used with '[OUT]'\n\n  tip: leave it out: the configuration names the files that are written"
        }
        ChoiceFault::ConfigAndSmart => {
            "the argument '--config <FILE>' cannot be used with '--strategy smart'\n\n  tip: a run makes one smart extract: start a run for each area"
        }
        ChoiceFault::DirectoryAlone => {
            "the argument '--directory <FOLDER>' cannot be used without '--config <FILE>'"
        }
    }
}

/// How the command is used, after the program's name.
fn choice_usage(fault: ChoiceFault) -> &'static str
    ensures { result.now ≡ choice_usage fault }
{
    match fault {
        ChoiceFault::NoRegion
        | ChoiceFault::TwoRegions
        | ChoiceFault::OtherStrategy
        | ChoiceFault::TypesAlone => {
            "extract [OPTIONS] <--box=W,S,E,N|--polygon=FILE> <IN> <OUT>"
        }
        ChoiceFault::NoOutput | ChoiceFault::TwoOutputs | ChoiceFault::OtherFormat => {
            "<COMMAND> [OPTIONS] <IN> <OUT>"
        }
        ChoiceFault::ConfigAndRegion
        | ChoiceFault::ConfigAndOutput
        | ChoiceFault::ConfigAndSmart
        | ChoiceFault::DirectoryAlone => "extract [OPTIONS] --config=FILE <IN>",
    }
}

/// The lines of an error of the command line, by its parts.
fn error_lines(alloc: Global, program: &str, error: &str, usage: &str) -> Result<String, AllocError>
    ensures { IfOk result (λ text. string_bytes text ≡ codes "error: " ++ error.now
        ++ codes "\n\nUsage: " ++ program.now ++ codes " " ++ usage.now
        ++ codes "\n\nFor more information, try '--help'.\n") }
{
    format!(in alloc;
        "error: {error}\n\nUsage: {program} {usage}\n\nFor more information, try '--help'.\n"
    )
}

/// All that is said of a choice that was not made, made twice, or made otherwise.
pub(crate) fn choice_message(
    alloc: Global,
    program: &str,
    fault: ChoiceFault,
) -> Result<String, AllocError>
    ensures { IfOk result (λ text. string_bytes text ≡ choice_text program.now fault) }
{
    error_lines(alloc, program, choice_error(fault), choice_usage(fault))
}

/// A reason's number and name.
pub(crate) fn poly_reason(reason: PolyReason) -> &'static str
    ensures { result.now ≡ poly_reason_text reason }
{
    match reason {
        PolyReason::Ended => "1 Ended",
        PolyReason::Number => "2 Number",
        PolyReason::Range => "3 Range",
        PolyReason::Short => "4 Short",
        PolyReason::Empty => "5 Empty",
        PolyReason::Rest => "6 Rest",
        PolyReason::Json => "7 Json",
        PolyReason::Shape => "8 Shape",
        PolyReason::Open => "9 Open",
        PolyReason::Long => "10 Long",
        PolyReason::Name => "11 Name",
    }
}

/// The words for a byte of a line, both counted from 1.
fn line_words(alloc: Global, line: usize, column: usize) -> Result<String, AllocError>
    ensures { IfOk result (λ text. string_bytes text ≡ line_text line column) }
{
    format!(in alloc; "line {line}, column {column}: ")
}

/// The words for a position of a ring, both counted from 1.
fn ring_words(alloc: Global, ring: usize, position: usize) -> Result<String, AllocError>
    ensures { IfOk result (λ text. string_bytes text ≡ ring_text ring position) }
{
    format!(in alloc; "ring {ring}, position {position}: ")
}

/// The words for the place of a fault; none for the text as a whole.
pub(crate) fn place_words(alloc: Global, place: PolyPlace) -> Result<String, AllocError>
    ensures { IfOk result (λ text. string_bytes text ≡ poly_place_text place) }
{
    match place {
        PolyPlace::Line(line, column) => line_words(alloc, line, column),
        PolyPlace::Ring(ring, position) => ring_words(alloc, ring, position),
        PolyPlace::Text => Ok(String::new(alloc)),
    }
}

/// The line of a fault in this place for this reason.
fn polygon_line(
    alloc: Global,
    program: &str,
    place: &str,
    reason: &str,
) -> Result<String, AllocError>
    ensures { IfOk result (λ text. string_bytes text
        ≡ polygon_text program.now place.now reason.now) }
{
    format!(in alloc; "{program}: polygon: {place}{reason}\n")
}

/// All that is said of the file of a polygon, as `pbfcut: polygon: line 7, column 4: 2 Number`.
pub(crate) fn polygon_message(
    alloc: Global,
    program: &str,
    fault: PolyFault,
) -> Result<String, AllocError>
    ensures { IfOk result (λ text. string_bytes text
        ≡ polygon_text program.now (poly_place_text fault.place) (poly_reason_text fault.reason)) }
{
    let place = place_words(alloc, fault.place)?;
    polygon_line(alloc, program, place.as_str(), poly_reason(fault.reason))
}
