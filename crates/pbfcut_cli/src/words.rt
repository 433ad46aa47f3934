//! The words of the command line, read into a command.

ghost use Rattle.std.specs.Prelude.{◌≡◌, ◌⊎◌, Err, IfErr, IfOk, MatchResult, Some, codes, false, true};
ghost use Rattle.std.specs.Option.{option_map};
ghost use Rattle.clap.specs.Words.{first_of, found_of, kind_of, rows_of, subcommand_rows_of};
ghost use Rattle.pbfcut_cli.specs.Words.{
  HasConfigFault,
  HasExtractFault,
  HasFault,
  HasOutputFault,
  HasRegionFault,
  HasStrategyFault,
  IsCommandOf,
  IsFaultOf,
  IsHelp,
  IsOffered,
  ComesTo,
  IsRead,
  ReadsAs,
  ReadsConfigFiles,
  ReadsFiles,
  ReadsFlag,
  ReadsOutput,
  ReadsParents,
  ReadsRegion,
  ReadsStrategy,
  argument_value,
  is_given,
  is_or_absent,
  names_output,
  names_pbf,
  names_region,
  names_smart,
  word_texts,
};
ghost use Rattle.pbfcut_cli.specs.declared.words.CliFault.TheVariants as fault;

use crate::commands::command_line;
use crate::programs::Program;
use crate::tips::with_tip;
use clap::error::ErrorKind;
use clap::{ArgMatches, Error};
use osm_entity::{BoundingBox, BoxFault};
use std::alloc::{AllocError, Global};

/// What is cut out of IN.
#[derive(Clone, Copy, Debug)]
pub enum Region<'a> {
    /// This box.
    Box(BoundingBox),
    /// The polygon of the `.poly` or GeoJSON file at this path.
    Polygon(&'a str),
}

/// What an extract keeps besides what lies in its region.
#[derive(Clone, Copy, Debug)]
pub enum Strategy<'a> {
    /// The ways with a node inside, with all their nodes, and the relations that have one of these nodes or ways.
    CompleteWays,
    /// Also all relations that contain kept ones.
    AllParents,
    /// Also these, and the nodes and ways of relations of these types, which have commas between them.
    Smart(&'a str),
}

/// The files of a command that writes one, and how it is run. Paths are as they were given.
#[derive(Clone, Copy, Debug)]
pub struct Files<'a> {
    pub input: &'a str,
    pub output: &'a str,
    /// Whether a file at `output` is replaced.
    pub overwrite: bool,
    /// Whether the blobs that are written are raw ones.
    pub raw: bool,
    pub progress: bool,
    /// Whether no progress is shown, not even on a terminal.
    pub quiet: bool,
    pub digests: bool,
}

/// The files of a command that writes one for each area of a configuration, and how it is run. Paths are as they were given.
#[derive(Clone, Copy, Debug)]
pub struct ConfigFiles<'a> {
    pub input: &'a str,
    /// The configuration, which names the areas and the files that are written.
    pub config: &'a str,
    /// The folder in which the files are that are written, instead of the one that the configuration names.
    pub directory: Option<&'a str>,
    /// Whether files that are there are replaced.
    pub overwrite: bool,
    /// Whether the blobs that are written are raw ones.
    pub raw: bool,
    pub progress: bool,
    /// Whether no progress is shown, not even on a terminal.
    pub quiet: bool,
    pub digests: bool,
}

/// A command with its arguments. Paths are as they were given.
#[derive(Debug, Drop)]
pub enum Command<'a> {
    /// `blobs IN`: list the frames of the file at `input`.
    Blobs {
        input: &'a str,
    },
    /// `info [--json] IN`: print the header of the file at `input`, with `json` as JSON.
    Info {
        input: &'a str,
        json: bool,
    },
    /// `show [--dates] IN`: print the file at `input`, with `dates` times as dates.
    Show {
        input: &'a str,
        dates: bool,
        progress: bool,
    },
    /// `check IN`: validate the file at `input` and count its entities.
    Check {
        input: &'a str,
        progress: bool,
        digests: bool,
    },
    /// `convert IN OUT`: write all entities of IN to OUT.
    Convert(Files<'a>),
    /// `pack RAW OUT`: write the bytes of RAW to OUT, with its blobs compressed.
    Pack(Files<'a>),
    /// `unpack IN RAW`: write the bytes of IN to RAW, with its blobs decompressed.
    Unpack(Files<'a>),
    /// `extract [--parents] [-s smart] --box=L,B,R,T IN OUT`: cut `region` out of IN into OUT.
    Extract {
        region: Region<'a>,
        strategy: Strategy<'a>,
        files: Files<'a>,
    },
    /// `extract [--parents] --config=FILE [--directory=FOLDER] IN`: cut each area of a configuration out of IN, into a file of its own.
    ExtractEach {
        /// Whether all relations are kept that contain kept ones.
        parents: bool,
        files: ConfigFiles<'a>,
    },
    /// Help or the version is wanted: its text, with its line ends, for standard output.
    Help(String),
}

/// A choice between two arguments that was not made, or made twice, or one of Osmium's that was made otherwise.
#[derive(Clone, Copy, Debug, PartialEq, Eq)]
pub enum ChoiceFault {
    /// `extract` has neither a box nor a polygon.
    NoRegion,
    /// It has both.
    TwoRegions,
    /// OUT is missing.
    NoOutput,
    /// OUT is there twice: as an option, and as the last argument.
    TwoOutputs,
    /// A format that is not `pbf`.
    OtherFormat,
    /// A strategy that is neither `complete_ways` nor `smart`.
    OtherStrategy,
    /// Types of relations, for a strategy other than `smart`.
    TypesAlone,
    /// A configuration, and a box or a polygon.
    ConfigAndRegion,
    /// A configuration, which names the files that are written, and an OUT.
    ConfigAndOutput,
    /// A configuration, for the strategy `smart`.
    ConfigAndSmart,
    /// A folder for the files of a configuration, without one.
    DirectoryAlone,
}

/// Why the command line is no command.
#[derive(Debug, Drop)]
pub enum CliFault {
    /// The command line is invalid: what `clap` says of it, with its line ends, and for an option of other programs with another tip.
    Line(String),
    /// The box of `extract` is invalid.
    Box(BoxFault),
    /// An argument is missing, or there is one too many, or one has another value than the one it takes.
    Choice(ChoiceFault),
    /// A request for memory was refused.
    Memory,
}

impl From<AllocError> for CliFault {
    ghost from_gives = { λ _ e. e ≡ fault.Memory };

    fn from(_error: AllocError) -> CliFault {
        CliFault::Memory
    }
}

impl From<BoxFault> for CliFault {
    ghost from_gives = { λ box e. e ≡ fault.Box box };

    fn from(fault: BoxFault) -> CliFault {
        CliFault::Box(fault)
    }
}

impl From<ChoiceFault> for CliFault {
    ghost from_gives = { λ choice e. e ≡ fault.Choice choice };

    fn from(fault: ChoiceFault) -> CliFault {
        CliFault::Choice(fault)
    }
}

/// The value of an argument, if it has one.
fn value_of<'a>(matches: &ArgMatches<'a>, id: &str) -> Option<&'a str>
    ensures { option_map (λ text. text.now) result ≡ first_of id.now (rows_of (found_of matches.now)) }
{
    matches.get_str(id)
}

/// The value of an argument, or the empty text if it has none.
fn value<'a>(matches: &ArgMatches<'a>, id: &str) -> &'a str
    ensures { result.now ≡ argument_value id.now (rows_of (found_of matches.now)) }
{
    value_of(matches, id).unwrap_or("")
}

/// Whether the flag was used.
fn flag(matches: &ArgMatches<'_>, id: &str) -> bool
    ensures { ReadsFlag result id.now (rows_of (found_of matches.now)) }
{
    matches.get_flag(id)
}

/// Whether the argument is there.
fn is_given(matches: &ArgMatches<'_>, id: &str) -> bool
    ensures { result ≡ is_given id.now (rows_of (found_of matches.now)) }
{
    value_of(matches, id).is_some()
}

/// Whether there is a box or a polygon.
fn names_region(matches: &ArgMatches<'_>) -> bool
    ensures { result ≡ names_region (rows_of (found_of matches.now)) }
{
    is_given(matches, "box") || is_given(matches, "polygon")
}

/// Whether there is an OUT.
fn names_output(matches: &ArgMatches<'_>) -> bool
    ensures { result ≡ names_output (rows_of (found_of matches.now)) }
{
    is_given(matches, "OUT") || is_given(matches, "output")
}

/// Whether an argument is absent, or has this value.
fn is_or_absent(matches: &ArgMatches<'_>, id: &str, value: &str) -> bool
    ensures { result ≡ is_or_absent value.now (first_of id.now (rows_of (found_of matches.now))) }
{
    match value_of(matches, id) {
        Some(given) => given == value,
        None => true,
    }
}

/// Whether the formats that are named are those of PBF files.
fn names_pbf(matches: &ArgMatches<'_>) -> bool
    ensures { result ≡ names_pbf (rows_of (found_of matches.now)) }
{
    is_or_absent(matches, "output-format", "pbf") && is_or_absent(matches, "input-format", "pbf")
}

/// Whether the strategy is `smart`.
fn names_smart(matches: &ArgMatches<'_>) -> bool
    ensures { result ≡ names_smart (rows_of (found_of matches.now)) }
{
    match value_of(matches, "strategy") {
        Some(given) => given == "smart",
        None => false,
    }
}

/// What is kept besides what lies inside.
fn strategy_in<'a>(matches: &ArgMatches<'a>) -> Result<Strategy<'a>, CliFault>
    ensures { MatchResult result (ReadsStrategy (rows_of (found_of matches.now)))
        (HasStrategyFault (rows_of (found_of matches.now))) }
{
    let types = value_of(matches, "types");
    if names_smart(matches) {
        return Ok(Strategy::Smart(types.unwrap_or("multipolygon")));
    }
    if !is_or_absent(matches, "strategy", "complete_ways") {
        return Err(CliFault::Choice(ChoiceFault::OtherStrategy));
    }
    if types.is_some() {
        return Err(CliFault::Choice(ChoiceFault::TypesAlone));
    }
    if flag(matches, "parents") {
        Ok(Strategy::AllParents)
    } else {
        Ok(Strategy::CompleteWays)
    }
}

/// The path of the file that is written: that of the last argument, or of the option.
fn output_in<'a>(matches: &ArgMatches<'a>) -> Result<&'a str, ChoiceFault>
    ensures { MatchResult result (ReadsOutput (rows_of (found_of matches.now)))
        (HasOutputFault (rows_of (found_of matches.now))) }
{
    match (value_of(matches, "OUT"), value_of(matches, "output")) {
        (Some(path), None) => Ok(path),
        (None, Some(path)) => Ok(path),
        (None, None) => Err(ChoiceFault::NoOutput),
        (Some(_), Some(_)) => Err(ChoiceFault::TwoOutputs),
    }
}

/// The files of a command that writes one.
fn files_in<'a>(matches: &ArgMatches<'a>) -> Result<Files<'a>, ChoiceFault>
    ensures { MatchResult result (ReadsFiles (rows_of (found_of matches.now)))
        (HasOutputFault (rows_of (found_of matches.now))) }
{
    if !names_pbf(matches) {
        return Err(ChoiceFault::OtherFormat);
    }
    let output = output_in(matches)?;
    Ok(Files {
        input: value(matches, "IN"),
        output,
        overwrite: flag(matches, "overwrite"),
        raw: flag(matches, "raw"),
        progress: flag(matches, "progress"),
        quiet: flag(matches, "no-progress"),
        digests: flag(matches, "digests"),
    })
}

/// What is cut out: the box, or the polygon.
fn region_in<'a>(matches: &ArgMatches<'a>) -> Result<Region<'a>, CliFault>
    ensures { MatchResult result (ReadsRegion (rows_of (found_of matches.now)))
        (HasRegionFault (rows_of (found_of matches.now))) }
{
    match (value_of(matches, "box"), value_of(matches, "polygon")) {
        (Some(edges), None) => Ok(Region::Box(BoundingBox::parse(edges)?)),
        (None, Some(path)) => Ok(Region::Polygon(path)),
        (None, None) => Err(CliFault::Choice(ChoiceFault::NoRegion)),
        (Some(_), Some(_)) => Err(CliFault::Choice(ChoiceFault::TwoRegions)),
    }
}

/// An extract of one area, without a configuration.
fn one_area_in<'a>(matches: &ArgMatches<'a>) -> Result<Command<'a>, CliFault>
    requires { is_given (codes "config") (rows_of (found_of matches.now)) ≡ false }
    ensures { MatchResult result (ReadsAs (codes "extract") (rows_of (found_of matches.now)))
        (HasExtractFault (rows_of (found_of matches.now))) }
{
    if is_given(matches, "directory") {
        return Err(CliFault::Choice(ChoiceFault::DirectoryAlone));
    }
    let strategy = strategy_in(matches)?;
    let region = region_in(matches)?;
    let files = files_in(matches)?;
    Ok(Command::Extract {
        region,
        strategy,
        files,
    })
}

/// Whether all parents are kept in an extract with a configuration.
fn parents_in(matches: &ArgMatches<'_>) -> Result<bool, CliFault>
    ensures { MatchResult result (ReadsParents (rows_of (found_of matches.now)))
        (λ f. HasStrategyFault (rows_of (found_of matches.now)) f
        ⊎ HasConfigFault (rows_of (found_of matches.now)) f) }
{
    match strategy_in(matches)? {
        Strategy::CompleteWays => Ok(false),
        Strategy::AllParents => Ok(true),
        Strategy::Smart(_) => Err(CliFault::Choice(ChoiceFault::ConfigAndSmart)),
    }
}

/// The files of an extract with this configuration.
fn config_files_in<'a>(
    matches: &ArgMatches<'a>,
    config: &'a str,
) -> Result<ConfigFiles<'a>, CliFault>
    requires { first_of (codes "config") (rows_of (found_of matches.now)) ≡ Some config.now }
    ensures { MatchResult result (ReadsConfigFiles (rows_of (found_of matches.now)))
        (HasConfigFault (rows_of (found_of matches.now))) }
{
    if names_region(matches) {
        return Err(CliFault::Choice(ChoiceFault::ConfigAndRegion));
    }
    if names_output(matches) {
        return Err(CliFault::Choice(ChoiceFault::ConfigAndOutput));
    }
    if !names_pbf(matches) {
        return Err(CliFault::Choice(ChoiceFault::OtherFormat));
    }
    let input = value(matches, "IN");
    let directory = value_of(matches, "directory");
    let overwrite = flag(matches, "overwrite");
    let raw = flag(matches, "raw");
    let progress = flag(matches, "progress");
    let quiet = flag(matches, "no-progress");
    let digests = flag(matches, "digests");
    Ok(ConfigFiles {
        input,
        config,
        directory,
        overwrite,
        raw,
        progress,
        quiet,
        digests,
    })
}

/// An extract of each area of this configuration.
fn each_area_in<'a>(matches: &ArgMatches<'a>, config: &'a str) -> Result<Command<'a>, CliFault>
    requires { first_of (codes "config") (rows_of (found_of matches.now)) ≡ Some config.now }
    ensures { MatchResult result (ReadsAs (codes "extract") (rows_of (found_of matches.now)))
        (HasExtractFault (rows_of (found_of matches.now))) }
{
    let parents = parents_in(matches)?;
    let files = config_files_in(matches, config)?;
    Ok(Command::ExtractEach { parents, files })
}

/// The extract that the matches name: of one area, or of each area of a configuration.
fn extract_command_in<'a>(matches: &ArgMatches<'a>) -> Result<Command<'a>, CliFault>
    ensures { MatchResult result (ReadsAs (codes "extract") (rows_of (found_of matches.now)))
        (HasExtractFault (rows_of (found_of matches.now))) }
{
    match value_of(matches, "config") {
        Some(config) => each_area_in(matches, config),
        None => one_area_in(matches),
    }
}

/// The command that the matches name.
fn command_in<'a>(matches: &ArgMatches<'a>) -> Result<Command<'a>, CliFault>
    requires { IsOffered (subcommand_rows_of matches.now) }
    ensures { MatchResult result (IsRead (subcommand_rows_of matches.now))
        (HasFault (subcommand_rows_of matches.now)) }
{
    let Some((name, inner)) = matches.subcommand() else {
        unreachable!();
    };
    let input = value(inner, "IN");
    match name {
        "blobs" => Ok(Command::Blobs { input }),
        "info" => {
            let json = flag(inner, "json");
            Ok(Command::Info { input, json })
        }
        "show" => {
            let dates = flag(inner, "dates");
            let progress = flag(inner, "progress");
            Ok(Command::Show {
                input,
                dates,
                progress,
            })
        }
        "check" => {
            let progress = flag(inner, "progress");
            let digests = flag(inner, "digests");
            Ok(Command::Check {
                input,
                progress,
                digests,
            })
        }
        "convert" => Ok(Command::Convert(files_in(inner)?)),
        "pack" => Ok(Command::Pack(files_in(inner)?)),
        "unpack" => Ok(Command::Unpack(files_in(inner)?)),
        _ => extract_command_in(inner),
    }
}

/// What an error of `clap` comes to.
fn refused<'a>(alloc: Global, error: &Error) -> Result<Command<'a>, CliFault>
    ensures help { IfOk result (λ c. IsHelp c
        × ((kind_of error.now ≡ ErrorKind.DisplayHelp)
        ⊎ (kind_of error.now ≡ ErrorKind.DisplayVersion))) }
    ensures memory { kind_of error.now ≡ ErrorKind.OutOfMemory → result ≡ Err fault.Memory }
    ensures line { IfErr result (ComesTo (kind_of error.now)) }
{
    match error.kind() {
        ErrorKind::OutOfMemory => Err(CliFault::Memory),
        ErrorKind::DisplayHelp | ErrorKind::DisplayVersion => Ok(Command::Help(error.to_string(
            alloc,
        )?)),
        _ => Err(CliFault::Line(with_tip(alloc, error.to_string(alloc)?)?)),
    }
}

/// The command that the words after this program's name mean. If it isn't `Help`, its name and values are those
/// that `clap` reads in the words by its own definition, and the box is the one that `BoundingBox::parse` reads.
///
/// # Errors
///
/// `Line` if `clap` refuses the words, `Box` with the fault of the box of an `extract`, `Choice` if one of two arguments is needed and there
/// is none or both, or if a format or a strategy is unknown, or there are types for a strategy that takes none, or an area, an OUT or `smart`
/// besides a configuration, or a folder without one, `Memory` if a request for memory was refused. Words that `clap` takes give neither `Line` nor `Help`;
/// `Help` comes only of words that request it, or for the version.
pub fn read_words<'a>(
    alloc: Global,
    program: Program,
    words: &'a [&'a str],
) -> Result<Command<'a>, CliFault>
    // A command is what `clap` reads in the words, which it takes; or help, which they request.
    ensures read { IfOk result (IsCommandOf program (word_texts words.now)) }
    // `Line` comes only of words that `clap` refuses; the fault of a box or of a choice only of words that it takes, and that have it.
    ensures fault { IfErr result (IsFaultOf program (word_texts words.now)) }
{
    let command_line = command_line(alloc, program, program.help())?;
    match command_line.try_get_matches_from(words) {
        Ok(matches) => Ok(command_in(&matches)?),
        Err(error) => refused(alloc, &error),
    }
}
