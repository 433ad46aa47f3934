//! The commands and their arguments, as `clap` takes them.

ghost use Rattle.std.specs.Prelude.{◌≡◌, IfOk, IsOkAnd, false, codes};
ghost use Rattle.clap.specs.Simple.{on_top};
ghost use Rattle.clap.specs.Words.{app_of, new_app, rule_of, with_rule, with_subcommand};
ghost use Rattle.pbfcut_cli.specs.Commands.{HasNoGlobals, IsArgument, IsCommand, IsWith};
ghost use Rattle.pbfcut_cli.specs.Words.{
  bare_app,
  blobs_app,
  box_rule,
  check_app,
  convert_app,
  dates_rule,
  digests_rule,
  extract_app,
  flag_rule,
  info_app,
  input_rule,
  json_rule,
  last_rule,
  lone_box_rule,
  named_rule,
  option_rule,
  options_app,
  output_rule,
  overwrite_rule,
  pack_app,
  parents_rule,
  polygon_rule,
  program_app,
  progress_rule,
  raw_rule,
  show_app,
  types_rule,
  unpack_app,
  versioned,
  with_accepted,
  with_any_files,
  with_both_files,
  with_config,
  with_file_options,
  with_files,
  with_formats,
  with_info,
  with_packing,
  with_raw,
  with_region,
  with_strategy,
  with_told,
  writers_app,
};

use crate::help::{self, Help};
use crate::programs::Program;
use clap::{Arg, ArgAction, Command};
use std::alloc::{AllocError, Global};

/// The file that is read.
fn input<'a>(alloc: Global, help: &'a Help) -> Arg<'a>
    ensures { IsArgument input_rule result }
{
    Arg::new(alloc, "IN").required(true).help(help.input)
}

/// The file that is written, if it isn't an option too.
fn output<'a>(alloc: Global) -> Arg<'a>
    ensures { IsArgument output_rule result }
{
    Arg::new(alloc, "OUT").required(true).help(help::OUTPUT)
}

/// The file that is written, as the last argument.
fn last<'a>(alloc: Global) -> Arg<'a>
    ensures { IsArgument last_rule result }
{
    Arg::new(alloc, "OUT").help(help::ANY_OUTPUT)
}

/// The file that is written, as an option.
fn option<'a>(alloc: Global) -> Arg<'a>
    ensures { IsArgument option_rule result }
{
    Arg::new(alloc, "output")
        .long("output")
        .short('o')
        .value_name("OUT")
        .help(help::OPTION)
}

fn overwrite<'a>(alloc: Global) -> Arg<'a>
    ensures { IsArgument overwrite_rule result }
{
    Arg::new(alloc, "overwrite")
        .long("overwrite")
        .short('O')
        .action(ArgAction::SetTrue)
        .help(help::OVERWRITE)
}

fn dates<'a>(alloc: Global) -> Arg<'a>
    ensures { IsArgument dates_rule result }
{
    Arg::new(alloc, "dates")
        .long("dates")
        .action(ArgAction::SetTrue)
        .help(help::DATES)
}

fn json<'a>(alloc: Global) -> Arg<'a>
    ensures { IsArgument json_rule result }
{
    Arg::new(alloc, "json")
        .long("json")
        .action(ArgAction::SetTrue)
        .help(help::JSON)
}

fn progress<'a>(alloc: Global) -> Arg<'a>
    ensures { IsArgument progress_rule result }
{
    Arg::new(alloc, "progress")
        .long("progress")
        .action(ArgAction::SetTrue)
        .help(help::PROGRESS)
}

fn digests<'a>(alloc: Global, help: &'a str) -> Arg<'a>
    ensures { IsArgument digests_rule result }
{
    Arg::new(alloc, "digests")
        .long("digests")
        .action(ArgAction::SetTrue)
        .help(help)
}

fn parents<'a>(alloc: Global) -> Arg<'a>
    ensures { IsArgument parents_rule result }
{
    Arg::new(alloc, "parents")
        .long("parents")
        .action(ArgAction::SetTrue)
        .help(help::PARENTS)
}

fn raw<'a>(alloc: Global) -> Arg<'a>
    ensures { IsArgument raw_rule result }
{
    Arg::new(alloc, "raw")
        .long("raw")
        .action(ArgAction::SetTrue)
        .help(help::RAW_BLOBS)
}

/// The box, as text, by one name.
fn box_alone<'a>(alloc: Global) -> Arg<'a>
    ensures { IsArgument lone_box_rule result }
{
    Arg::new(alloc, "box")
        .long("box")
        .short('b')
        .value_name("WEST,SOUTH,EAST,NORTH")
        .help(help::BOX)
}

/// The box, as text.
fn area<'a>(alloc: Global) -> Result<Arg<'a>, AllocError>
    ensures { IfOk result (IsArgument box_rule) }
{
    box_alone(alloc).alias("bbox")
}

/// The polygon, as the path of its file.
fn polygon<'a>(alloc: Global) -> Arg<'a>
    ensures { IsArgument polygon_rule result }
{
    Arg::new(alloc, "polygon")
        .long("polygon")
        .short('p')
        .value_name("FILE")
        .help(help::POLYGON)
}

/// The areas of several extracts, as the path of the configuration.
fn config<'a>(alloc: Global) -> Arg<'a>
    ensures { IsArgument (named_rule (codes "config") 99) result }
{
    Arg::new(alloc, "config")
        .long("config")
        .short('c')
        .value_name("FILE")
        .help(help::CONFIG)
}

/// The folder of the files that a configuration names.
fn directory<'a>(alloc: Global) -> Arg<'a>
    ensures { IsArgument (named_rule (codes "directory") 100) result }
{
    Arg::new(alloc, "directory")
        .long("directory")
        .short('d')
        .value_name("FOLDER")
        .help(help::DIRECTORY)
}

/// What is kept besides what lies inside.
fn strategy<'a>(alloc: Global) -> Arg<'a>
    ensures { IsArgument (named_rule (codes "strategy") 115) result }
{
    Arg::new(alloc, "strategy")
        .long("strategy")
        .short('s')
        .value_name("NAME")
        .help(help::STRATEGY)
}

/// The types of relations that are wanted whole.
fn types<'a>(alloc: Global) -> Arg<'a>
    ensures { IsArgument types_rule result }
{
    Arg::new(alloc, "types")
        .long("types")
        .value_name("LIST")
        .help(help::WHOLE_TYPES)
}

/// A flag of Osmium's, which help leaves out.
fn osmium_flag<'a>(alloc: Global, name: &'a str) -> Arg<'a>
    ensures { IsArgument (flag_rule name.now) result }
{
    Arg::new(alloc, name)
        .long(name)
        .action(ArgAction::SetTrue)
        .hide(true)
}

/// An option of Osmium's with a value, which help leaves out.
fn osmium_option<'a>(alloc: Global, name: &'a str, letter: char) -> Arg<'a>
    ensures { IsArgument (named_rule name.now letter) result }
{
    Arg::new(alloc, name)
        .long(name)
        .short(letter)
        .value_name("NAME")
        .hide(true)
}

/// A command of this name, with no argument yet.
fn named<'a>(alloc: Global, name: &'a str, about: &'a str, after_help: &'a str) -> Command<'a>
    ensures { IsCommand (new_app name.now) result }
{
    Command::new(alloc, name)
        .about(about)
        .after_help(after_help)
}

/// A command as far as it was made, or that memory was refused.
type Made<'a> = Result<Command<'a>, AllocError>;

/// The command with one more argument.
fn with_arg<'a>(command: Made<'a>, arg: Arg<'a>) -> Made<'a>
    requires local { IfOk command HasNoGlobals }
    requires at_home { arg.global ≡ false }
    ensures { IfOk result (IsWith (λ app. with_rule app (rule_of arg.entry)) command.entry) }
{
    command?.arg(arg)
}

/// The command with one more command below it.
fn with_command<'a>(command: Made<'a>, below: Made<'a>) -> Made<'a>
    requires local { IfOk command HasNoGlobals }
    requires below { IfOk below HasNoGlobals }
    ensures app { IfOk result (λ r. IsOkAnd command.entry (λ c. IsOkAnd below.entry
        (λ b. app_of r ≡ with_subcommand (app_of c) (app_of b).top))) }
    ensures local { IfOk result HasNoGlobals }
{
    command?.subcommand(below?)
}

/// The command with `--raw`, if the program compresses what it writes.
fn with_raw<'a>(command: Made<'a>, alloc: Global, program: Program) -> Made<'a>
    requires local { IfOk command HasNoGlobals }
    ensures { IfOk result (IsWith (with_raw program) command.entry) }
{
    match program {
        Program::Pbfcut => command,
        Program::Pbfcutz => with_arg(command, raw(alloc)),
    }
}

/// The command with OUT as an option, and with what is done with one that exists.
fn with_file_options<'a>(command: Made<'a>, alloc: Global) -> Made<'a>
    requires local { IfOk command HasNoGlobals }
    ensures { IfOk result (IsWith with_file_options command.entry) }
{
    let command = with_arg(command, option(alloc));
    with_arg(command, overwrite(alloc))
}

/// The command with the formats of its files, as Osmium takes them.
fn with_formats<'a>(command: Made<'a>, alloc: Global) -> Made<'a>
    requires local { IfOk command HasNoGlobals }
    ensures { IfOk result (IsWith with_formats command.entry) }
{
    let command = with_arg(command, osmium_option(alloc, "output-format", 'f'));
    with_arg(command, osmium_option(alloc, "input-format", 'F'))
}

/// The command with the words of Osmium's that say how a file is written.
fn with_accepted<'a>(command: Made<'a>, alloc: Global) -> Made<'a>
    requires local { IfOk command HasNoGlobals }
    ensures { IfOk result (IsWith with_accepted command.entry) }
{
    let command = with_arg(command, osmium_flag(alloc, "no-progress"));
    let command = with_arg(command, osmium_flag(alloc, "fsync"));
    with_formats(command, alloc)
}

/// A command of pbfcutz with its files.
fn with_any_files<'a>(command: Made<'a>, alloc: Global, help: &'a Help) -> Made<'a>
    requires local { IfOk command HasNoGlobals }
    ensures { IfOk result (IsWith with_any_files command.entry) }
{
    let command = with_accepted(with_file_options(command, alloc), alloc);
    let command = with_arg(command, input(alloc, help));
    with_arg(command, last(alloc))
}

/// A command of pbfcut with its files.
fn with_both_files<'a>(command: Made<'a>, alloc: Global, help: &'a Help) -> Made<'a>
    requires local { IfOk command HasNoGlobals }
    ensures { IfOk result (IsWith with_both_files command.entry) }
{
    let command = with_arg(with_accepted(command, alloc), input(alloc, help));
    with_arg(command, output(alloc))
}

/// A command that writes a file, with its files.
fn with_files<'a>(command: Made<'a>, alloc: Global, program: Program, help: &'a Help) -> Made<'a>
    requires local { IfOk command HasNoGlobals }
    ensures { IfOk result (IsWith (with_files program) command.entry) }
{
    match program {
        Program::Pbfcut => with_both_files(command, alloc, help),
        Program::Pbfcutz => with_any_files(command, alloc, help),
    }
}

fn blobs<'a>(alloc: Global, help: &'a Help) -> Made<'a>
    ensures { IfOk result (IsCommand blobs_app) }
{
    with_arg(
        Ok(named(alloc, "blobs", help::BLOBS, help.blobs)),
        input(alloc, help),
    )
}

fn show<'a>(alloc: Global, help: &'a Help) -> Made<'a>
    ensures { IfOk result (IsCommand show_app) }
{
    let command = named(alloc, "show", help::SHOW, help.show);
    let command = with_arg(Ok(command), dates(alloc));
    let command = with_arg(command, progress(alloc));
    with_arg(command, input(alloc, help))
}

/// The command with its progress and digests.
fn with_told<'a>(command: Made<'a>, alloc: Global, digests_help: &'a str) -> Made<'a>
    requires local { IfOk command HasNoGlobals }
    ensures { IfOk result (IsWith with_told command.entry) }
{
    let command = with_arg(command, progress(alloc));
    with_arg(command, digests(alloc, digests_help))
}

fn check<'a>(alloc: Global, help: &'a Help) -> Made<'a>
    ensures { IfOk result (IsCommand check_app) }
{
    let command = named(alloc, "check", help::CHECK, help.check);
    let command = with_told(Ok(command), alloc, help.digest_of_input);
    with_arg(command, input(alloc, help))
}

fn convert<'a>(alloc: Global, program: Program, help: &'a Help) -> Made<'a>
    ensures { IfOk result (IsCommand (convert_app program)) }
{
    let command = named(alloc, "convert", help::CONVERT, help.convert);
    let command = with_told(Ok(command), alloc, help.digests);
    with_files(with_raw(command, alloc, program), alloc, program, help)
}

fn pack<'a>(alloc: Global, help: &'a Help) -> Made<'a>
    ensures { IfOk result (IsCommand pack_app) }
{
    let command = named(alloc, "pack", help::PACK, help::AFTER_PACK);
    with_any_files(with_told(Ok(command), alloc, help.digests), alloc, help)
}

fn unpack<'a>(alloc: Global, help: &'a Help) -> Made<'a>
    ensures { IfOk result (IsCommand unpack_app) }
{
    let command = named(alloc, "unpack", help::UNPACK, help::AFTER_UNPACK);
    with_any_files(with_told(Ok(command), alloc, help.digests), alloc, help)
}

fn info<'a>(alloc: Global, help: &'a Help) -> Made<'a>
    ensures { IfOk result (IsCommand info_app) }
{
    let command = named(alloc, "info", help::INFO, help::AFTER_INFO);
    with_arg(with_arg(Ok(command), json(alloc)), input(alloc, help))
}

/// `extract` with no argument yet.
fn extraction<'a>(alloc: Global, help: &'a Help) -> Command<'a>
    ensures { IsCommand (new_app (codes "extract")) result }
{
    named(alloc, "extract", help::EXTRACT, help.extract).override_usage(help.usage_of_extract)
}

/// `extract` with its flags.
fn options<'a>(alloc: Global, help: &'a Help) -> Made<'a>
    ensures { IfOk result (IsCommand options_app) }
{
    let command = with_told(Ok(extraction(alloc, help)), alloc, help.digests);
    with_arg(command, parents(alloc))
}

/// The command with what is cut out.
fn with_region<'a>(command: Made<'a>, alloc: Global) -> Made<'a>
    requires local { IfOk command HasNoGlobals }
    ensures { IfOk result (IsWith with_region command.entry) }
{
    let command = with_arg(command, area(alloc)?);
    with_arg(command, polygon(alloc))
}

/// The command with a configuration and its folder, if the program takes one.
fn with_config<'a>(command: Made<'a>, alloc: Global, program: Program) -> Made<'a>
    requires local { IfOk command HasNoGlobals }
    ensures { IfOk result (IsWith (with_config program) command.entry) }
{
    match program {
        Program::Pbfcut => command,
        Program::Pbfcutz => {
            let command = with_arg(command, config(alloc));
            with_arg(command, directory(alloc))
        }
    }
}

/// The command with what is kept besides what lies inside; `--set-bounds` is done anyway.
fn with_strategy<'a>(command: Made<'a>, alloc: Global) -> Made<'a>
    requires local { IfOk command HasNoGlobals }
    ensures { IfOk result (IsWith with_strategy command.entry) }
{
    let command = with_arg(command, osmium_flag(alloc, "set-bounds"));
    let command = with_arg(command, strategy(alloc));
    with_arg(command, types(alloc))
}

fn extract<'a>(alloc: Global, program: Program, help: &'a Help) -> Made<'a>
    ensures { IfOk result (IsCommand (extract_app program)) }
{
    let command = with_region(with_raw(options(alloc, help), alloc, program), alloc);
    let command = with_strategy(with_config(command, alloc, program), alloc);
    with_files(command, alloc, program, help)
}

/// The command line with what it says of itself.
fn titled<'a>(alloc: Global, help: &'a Help) -> Command<'a>
    ensures { IsCommand (on_top versioned (new_app (codes "pbfcut"))) result }
{
    Command::new(alloc, "pbfcut")
        .about(help.about)
        .version(help::PROGRAM_VERSION)
        .after_help(help.after)
}

/// The command line with no command yet.
fn bare<'a>(alloc: Global, help: &'a Help) -> Made<'a>
    ensures { IfOk result (IsCommand bare_app) }
{
    titled(alloc, help)
        .no_binary_name(true)
        .subcommand_required(true)
        .disable_help_subcommand(true)
        .bin_name(help.name)?
        .display_name(help.name)
}

/// The command line with the commands that write entities.
fn writers<'a>(alloc: Global, program: Program, help: &'a Help) -> Made<'a>
    ensures { IfOk result (IsCommand (writers_app program)) }
{
    let command = with_command(bare(alloc, help), extract(alloc, program, help));
    with_command(command, convert(alloc, program, help))
}

/// The command line with the commands that write the same bytes in other blobs, if the program has them.
fn with_packing<'a>(command: Made<'a>, alloc: Global, program: Program, help: &'a Help) -> Made<'a>
    requires local { IfOk command HasNoGlobals }
    ensures { IfOk result (IsWith (with_packing program) command.entry) }
{
    match program {
        Program::Pbfcut => command,
        Program::Pbfcutz => {
            let command = with_command(command, pack(alloc, help));
            with_command(command, unpack(alloc, help))
        }
    }
}

/// The command line with `info`, if the program has it.
fn with_info<'a>(command: Made<'a>, alloc: Global, program: Program, help: &'a Help) -> Made<'a>
    requires local { IfOk command HasNoGlobals }
    ensures { IfOk result (IsWith (with_info program) command.entry) }
{
    match program {
        Program::Pbfcut => command,
        Program::Pbfcutz => with_command(command, info(alloc, help)),
    }
}

/// The command line of a program with this help, with the commands in the order in which help lists them.
pub(crate) fn command_line<'a>(
    alloc: Global,
    program: Program,
    help: &'a Help,
) -> Result<Command<'a>, AllocError>
    ensures { IfOk result (IsCommand (program_app program)) }
{
    let command = with_packing(writers(alloc, program, help), alloc, program, help);
    let command = with_command(command, check(alloc, help));
    let command = with_command(command, show(alloc, help));
    let command = with_command(command, blobs(alloc, help));
    with_info(command, alloc, program, help)
}
