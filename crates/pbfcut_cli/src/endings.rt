//! How each ending of the program is reported: the exit status, and what is written to standard error.

ghost use Rattle.std.specs.Prelude.{◌≡◌, ◌++◌, IfOk, codes, string_bytes};
ghost use Rattle.pbf_frame.specs.declared.stop.Stop.TheVariants as stop;
ghost use Rattle.pbfcut_cli.specs.declared.endings.Ending.TheVariants as ending;
ghost use Rattle.pbfcut_cli.specs.Endings.{box_fault_name, ending_of, ending_of_config, ending_of_polygon, ending_status, field_text, ending_line, message_of, not_text, plain_text, program_name, reason_text, refused_text, status_of};

use crate::config_faults::config_message;
use crate::faults::{choice_message, polygon_message};
use crate::packed::{PackedRefusal, packed_line};
use crate::programs::Program;
use crate::words::{ChoiceFault, CliFault};
use osm_config::{ConfigError, ConfigFault};
use osm_entity::BoxFault;
use osm_polygon::{PolyError, PolyFault};
use pbf_frame::Stop;
use pbf_wire::Reason;
use std::alloc::{AllocError, Global};

/// The exit status that a shell reports of a program that the system has ended since nobody reads its output: 128, and 13 for the signal.
const CLOSED: u8 = 128 + 13;

/// The exit status of a stop: 1 if the input is refused, 3 if a read or a write failed, 4 if memory was refused, 5 if the input
/// changed.
pub fn status(stop: &Stop) -> u8
    ensures { result ≡ status_of stop.now }
{
    match stop {
        Stop::Refused(_) => 1,
        Stop::Read | Stop::Write => 3,
        Stop::Memory => 4,
        Stop::Changed(_) => 5,
    }
}

/// As `55 Feature`.
fn plain_reason(alloc: Global, number: u32, name: &str) -> Result<String, AllocError>
    ensures { IfOk result (λ text. string_bytes text ≡ plain_text number name.now) }
{
    format!(in alloc; "{number} {name}")
}

/// As `25 Missing(1)`.
fn reason_with_field(
    alloc: Global,
    number: u32,
    name: &str,
    field: u64,
) -> Result<String, AllocError>
    ensures { IfOk result (λ text. string_bytes text
        ≡ plain_text number name.now ++ field_text field) }
{
    format!(in alloc; "{number} {name}({field})")
}

/// A reason's number and name, and for `Missing` the field.
pub(crate) fn reason_line(alloc: Global, reason: &Reason) -> Result<String, AllocError>
    ensures { IfOk result (λ text. string_bytes text ≡ reason_text reason.now) }
{
    let number = reason.number();
    let name = reason.name();
    match reason {
        Reason::Missing(field) => reason_with_field(alloc, number, name, *field),
        _ => plain_reason(alloc, number, name),
    }
}

/// The line of a refusal, by its offset and the reason's text.
fn refused_line(
    alloc: Global,
    program: &str,
    offset: u64,
    reason: &str,
) -> Result<String, AllocError>
    ensures { IfOk result (λ text. string_bytes text
        ≡ refused_text program.now offset reason.now) }
{
    format!(in alloc; "{program}: refused at {offset}: {reason}")
}

/// The line of a stop of this program, without its end.
fn line_by(alloc: Global, program: &str, stop: &Stop) -> Result<String, AllocError>
    ensures { IfOk result (λ text. string_bytes text ≡ ending_line program.now stop.now) }
{
    match stop {
        Stop::Refused(fault) => {
            let reason = reason_line(alloc, &fault.reason)?;
            refused_line(alloc, program, fault.offset, reason.as_str())
        }
        Stop::Read => format!(in alloc; "{program}: read failed"),
        Stop::Write => format!(in alloc; "{program}: write failed"),
        Stop::Memory => format!(in alloc; "{program}: out of memory"),
        Stop::Changed(pass) => format!(in alloc; "{program}: input changed in pass {pass}"),
    }
}

/// The line of a stop for standard error, without its end, as `pbfcut: refused at 36: 25 Missing(1)`.
///
/// # Errors
///
/// If a request for memory was refused.
pub fn line(alloc: Global, stop: &Stop) -> Result<String, AllocError>
    ensures { IfOk result (λ text. string_bytes text ≡ ending_line (codes "pbfcut") stop.now) }
{
    line_by(alloc, "pbfcut", stop)
}

/// Why the program fails.
#[derive(Debug, Drop)]
pub enum Ending {
    /// The command line is invalid: what is said of it, with its line ends.
    Words(String),
    /// A word isn't UTF-8.
    NotText,
    /// The box is invalid.
    Box(BoxFault),
    /// An argument is missing, or there is one too many.
    Choice(ChoiceFault),
    /// The file of the polygon isn't in its format.
    Polygon(PolyFault),
    /// The configuration of several extracts has a fault.
    Config(ConfigFault),
    /// IN can't be opened, there is no seed for the hasher, or OUT can't be created.
    CannotOpen,
    /// IN is a pipe, which the command would have to read more than once.
    IsPipe,
    /// OUT exists already.
    OutExists,
    /// Nobody reads standard output any more, so there is nobody to be told.
    Closed,
    /// The engine stopped; or `Memory`, if the program itself was refused memory.
    Stopped(Stop),
    /// A published file is refused.
    RefusedPacked(PackedRefusal),
}

impl From<CliFault> for Ending {
    ghost from_gives = { λ fault e. e ≡ ending_of fault };

    fn from(fault: CliFault) -> Ending {
        match fault {
            CliFault::Line(text) => Ending::Words(text),
            CliFault::Box(fault) => Ending::Box(fault),
            CliFault::Choice(fault) => Ending::Choice(fault),
            CliFault::Memory => Ending::Stopped(Stop::Memory),
        }
    }
}

impl From<PolyError> for Ending {
    ghost from_gives = { λ error e. e ≡ ending_of_polygon error };

    fn from(error: PolyError) -> Ending {
        match error {
            PolyError::Refused(fault) => Ending::Polygon(fault),
            PolyError::Memory => Ending::Stopped(Stop::Memory),
        }
    }
}

impl From<ConfigError> for Ending {
    ghost from_gives = { λ error e. e ≡ ending_of_config error };

    fn from(error: ConfigError) -> Ending {
        match error {
            ConfigError::Refused(fault) => Ending::Config(fault),
            ConfigError::Memory => Ending::Stopped(Stop::Memory),
        }
    }
}

impl From<Stop> for Ending {
    ghost from_gives = { λ s e. e ≡ ending.Stopped s };

    fn from(stop: Stop) -> Ending {
        Ending::Stopped(stop)
    }
}

impl From<AllocError> for Ending {
    ghost from_gives = { λ _ e. e ≡ ending.Stopped stop.Memory };

    fn from(_error: AllocError) -> Ending {
        Ending::Stopped(Stop::Memory)
    }
}

/// The name of a fault of a box.
pub(crate) fn fault_name(fault: &BoxFault) -> &'static str
    ensures { result.now ≡ box_fault_name fault.now }
{
    match fault {
        BoxFault::Shape => "Shape",
        BoxFault::Digit => "Digit",
        BoxFault::Range => "Range",
        BoxFault::LeftOverRight => "LeftOverRight",
        BoxFault::BottomOverTop => "BottomOverTop",
    }
}

/// The line of a fault of a box that has this name.
fn box_line(alloc: Global, program: &str, name: &str) -> Result<String, AllocError>
    ensures { IfOk result (λ text. string_bytes text
        ≡ program.now ++ codes ": box: " ++ name.now ++ codes "\n") }
{
    format!(in alloc; "{program}: box: {name}\n")
}

fn box_message(alloc: Global, program: &str, fault: &BoxFault) -> Result<String, AllocError>
    ensures { IfOk result (λ text. string_bytes text
        ≡ message_of program.now (ending.Box fault.now)) }
{
    box_line(alloc, program, fault_name(fault))
}

/// A line with its end.
fn ended(alloc: Global, line: &str) -> Result<String, AllocError>
    ensures { IfOk result (λ text. string_bytes text ≡ line.now ++ codes "\n") }
{
    format!(in alloc; "{line}\n")
}

/// What is said of words that aren't UTF-8: the text that `clap` has for them if it meets such words itself.
fn not_text(alloc: Global, program: &str) -> Result<String, AllocError>
    ensures { IfOk result (λ text. string_bytes text ≡ not_text program.now) }
{
    format!(in alloc;
        "error: invalid UTF-8 was detected in one or more arguments\n\nUsage: {program} <COMMAND>\n\nFor more information, try '--help'.\n"
    )
}

impl Ending {
    /// The exit status: 2 for a command line, a box, a polygon or a configuration, 3 if a file can't be used, 141 if nobody reads standard
    /// output any more, and otherwise that of the stop.
    pub fn status(&self) -> u8
        ensures { result ≡ ending_status self.now }
    {
        match self {
            Ending::Words(_) | Ending::NotText | Ending::Box(_) => 2,
            Ending::Choice(_) | Ending::Polygon(_) | Ending::Config(_) => 2,
            Ending::CannotOpen | Ending::IsPipe | Ending::OutExists => 3,
            Ending::Closed => CLOSED,
            Ending::Stopped(stop) => status(stop),
            Ending::RefusedPacked(_) => 1,
        }
    }

    /// What this program writes to standard error, with its line ends.
    ///
    /// # Errors
    ///
    /// If a request for memory was refused.
    pub fn message(&self, alloc: Global, program: Program) -> Result<String, AllocError>
        ensures { IfOk result (λ text. string_bytes text
            ≡ message_of (program_name program) self.now) }
    {
        let name = program.name();
        match self {
            Ending::Words(text) => String::from_str(alloc, text.as_str()),
            Ending::NotText => not_text(alloc, name),
            Ending::Box(fault) => box_message(alloc, name, fault),
            Ending::Choice(fault) => choice_message(alloc, name, *fault),
            Ending::Polygon(fault) => polygon_message(alloc, name, *fault),
            Ending::Config(fault) => config_message(alloc, name, fault),
            Ending::CannotOpen => format!(in alloc; "{name}: cannot open\n"),
            Ending::IsPipe => format!(in alloc; "{name}: IN must be a file, not a pipe\n"),
            Ending::OutExists => format!(in alloc; "{name}: OUT exists\n"),
            Ending::Closed => Ok(String::new(alloc)),
            Ending::Stopped(stop) => ended(alloc, line_by(alloc, name, stop)?.as_str()),
            Ending::RefusedPacked(refusal) => {
                ended(alloc, packed_line(alloc, name, refusal)?.as_str())
            }
        }
    }
}
