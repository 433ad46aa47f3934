//! Tips for options and commands that other programs have, and for arguments in the wrong place. `clap` itself takes such an option for the name of a
//! file, or for one that is spelled alike.

use std::alloc::{AllocError, Global};

/// What to do instead of an option that says what is cut out, or how.
fn tip_of_area(option: &str) -> Option<&'static str> {
    match option {
        "-B" | "--bounding-box" | "--bounds" => Some("the box is --box=WEST,SOUTH,EAST,NORTH"),
        "--poly" | "--geojson" => Some("the area of a file is --polygon=FILE"),
        "-s" | "--strategy" => Some("'pbfcutz extract' has it: -s smart, or -s complete_ways"),
        "--complete-ways" => Some("leave it out: ways are always complete"),
        "--smart" => Some("the strategy is -s smart"),
        "-S" | "--option" => Some("the types that smart keeps whole are --types=LIST"),
        "-c" | "--config" | "-d" | "--directory" => {
            Some("a run makes one extract, into OUT: start a run for each area")
        }
        "--set-bounds" => Some("leave it out: the header of OUT always has the box"),
        _ => None,
    }
}

/// What to do instead of an option that names a file, or says what it has.
fn tip_of_file(option: &str) -> Option<&'static str> {
    match option {
        "-i" | "--input" => Some("IN is an argument without an option, before OUT"),
        "-o" | "--output" | "--out" => Some("OUT is the last argument; leave out the option"),
        "-O" | "--overwrite" | "--force" => {
            Some("pbfcutz has -O, which replaces OUT; otherwise name another OUT")
        }
        "-f" | "--output-format" | "-F" | "--input-format" => {
            Some("leave it out: IN and OUT are PBF files, whatever their names are")
        }
        "--raw" => Some("leave it out: only pbfcutz compresses what it writes"),
        "--compress" | "--compression" => {
            Some("leave it out: pbfcutz compresses OUT by zlib, and pbfcut does not")
        }
        "--generator" | "--output-header" => {
            Some("OUT has the header of IN; 'osmium cat' with this option changes it")
        }
        "--clean" => Some(
            "OUT has all fields of IN; 'osmium cat -f pbf,add_metadata=false' drops some of them",
        ),
        "--fsync" => Some("leave it out: when the run ends, OUT is on the disk"),
        "-H" | "--with-history" => Some(
            "files with history are refused; this takes the state of now: osmium time-filter IN -o NOW.osm.pbf",
        ),
        _ => None,
    }
}

/// What to do instead of an option that says how a program runs.
fn tip_of_run(option: &str) -> Option<&'static str> {
    match option {
        "-v" | "--verbose" => Some("what a run does is shown by --progress"),
        "-q" | "--quiet" | "--no-progress" => {
            Some(
                "leave it out: progress is shown only with --progress, and by pbfcutz on a terminal",
            )
        }
        "-j" | "--threads" | "--jobs" => {
            Some("leave it out: a run takes one processor; start several at once")
        }
        _ => None,
    }
}

/// Whether an argument looks like a part of a box, as it does if there are spaces in it.
fn is_part_of_box(argument: &str) -> bool {
    argument.ends_with(",")
        || argument
            .bytes()
            .all(|byte| byte.is_ascii_digit() || b"-.,".contains(&byte))
}

/// The tip for an option that other commands of these programs have.
fn tip_of_other(option: &str) -> Option<&'static str> {
    match option {
        "-b" | "--box" | "--bbox" | "-p" | "--polygon" | "--parents" => {
            Some("only 'extract' has this option")
        }
        "--dates" => Some("only 'show' has this option"),
        "--json" => Some("only 'info' of pbfcutz has this option"),
        "--progress" | "--digests" => Some("leave it out: this command has no such option"),
        _ => None,
    }
}

/// Whether an option names OUT, or says what is done with one that exists.
fn is_of_output(option: &str) -> bool {
    option == "-o"
        || option == "--output"
        || option == "--out"
        || option == "-O"
        || option == "--overwrite"
}

/// Whether an option names a configuration, or its folder.
fn is_of_config(option: &str) -> bool {
    option == "-c" || option == "--config" || option == "-d" || option == "--directory"
}

/// What to do without an argument that `clap` did not expect, in a command that is used so.
fn tip_of(argument: &str, usage: &str) -> Option<&'static str> {
    if is_of_output(argument) && !usage.contains("OUT") {
        return Some("leave it out: this command writes no file");
    }
    if is_of_config(argument) && usage.starts_with("Usage: pbfcutz ") {
        return Some("only 'extract' has this option");
    }
    if let Some(tip) = tip_of_area(argument) {
        return Some(tip);
    }
    if let Some(tip) = tip_of_file(argument) {
        return Some(tip);
    }
    if let Some(tip) = tip_of_run(argument) {
        return Some(tip);
    }
    if let Some(tip) = tip_of_other(argument) {
        return Some(tip);
    }
    if is_part_of_box(argument) {
        Some("a box has no spaces: --box=WEST,SOUTH,EAST,NORTH")
    } else if argument.starts_with("-") {
        None
    } else {
        Some("that is one argument too many; a name with spaces goes in quotation marks")
    }
}

/// The command that does what one of another program does, or what to write for it.
fn tip_of_command(command: &str) -> Option<&'static str> {
    match command {
        "cut" | "clip" | "crop" => Some("'extract' cuts an area out of a file"),
        "cat" => Some("'convert' writes a file in one fixed form"),
        "fileinfo" | "stats" | "count" | "validate" => {
            Some(
                "'check' validates a file and counts what it has; 'info' of pbfcutz prints its header",
            )
        }
        "print" | "dump" | "view" => Some("'show' prints a file as text"),
        "pack" | "unpack" | "info" => Some("only pbfcutz has this command"),
        "version" => Some("'--version' prints the version"),
        "sort" | "merge" | "tags-filter" | "getid" | "renumber" | "time-filter" | "export" => {
            Some("only osmium has this command")
        }
        _ => None,
    }
}

/// The tip for a word that is no command, as a file's name in the command's place, unless `clap` has one for a word that is spelled alike.
fn tip_of_word(word: &str, usage: &str, has_tip: bool) -> Option<&'static str> {
    let is_file = word.ends_with(".pbf") || word.ends_with(".osm") || word.starts_with("/");
    match tip_of_command(word) {
        Some(tip) => Some(tip),
        None if is_file => {
            Some(
                "the command comes first, as in: pbfcutz extract --box=WEST,SOUTH,EAST,NORTH IN OUT",
            )
        }
        None if has_tip => None,
        None if usage.starts_with("Usage: pbfcutz ") => {
            Some(
                "the commands are extract, convert, pack, unpack, check, show, blobs and info: '--help' says what they do",
            )
        }
        None => Some(
            "the commands are extract, convert, check, show and blobs: '--help' says what they do",
        ),
    }
}

/// The tip for an argument before any command.
fn tip_before_command(argument: &str, usage: &str) -> Option<&'static str> {
    let has_no_command = usage.starts_with("Usage: pbfcut <COMMAND>")
        || usage.starts_with("Usage: pbfcutz <COMMAND>");
    if has_no_command && argument == "-v" {
        Some("the version is --version, or -V")
    } else if has_no_command && argument.starts_with("-") {
        Some("the command comes first, as in: pbfcutz extract --box=WEST,SOUTH,EAST,NORTH IN OUT")
    } else {
        None
    }
}

/// What `clap` says of an argument: what is said before its usage, without a tip, the argument, and the usage.
#[derive(Clone, Copy)]
struct Said<'a> {
    error: &'a str,
    argument: &'a str,
    usage: &'a str,
}

/// The parts of a text that begins and ends so, with the argument between.
fn parts_of<'a>(text: &'a str, before: &str, after: &str) -> Option<Said<'a>> {
    let (error, usage) = text.split_once("\n\nUsage: ")?;
    let usage = text.get(text.len().checked_sub(usage.len())?.checked_sub(7)?..)?;
    let error = match error.split_once("\n\n  tip: ") {
        Some((error, _)) => error,
        None => error,
    };
    let argument = error.strip_prefix(before)?.strip_suffix(after)?;
    Some(Said {
        error,
        argument,
        usage,
    })
}

/// Our tip for what `clap` says, if there is one.
fn tipped(text: &str) -> Option<(Said<'_>, &'static str)> {
    if let Some(said) = parts_of(text, "error: unexpected argument '", "' found") {
        let tip = match tip_before_command(said.argument, said.usage) {
            Some(tip) => tip,
            None => tip_of(said.argument, said.usage)?,
        };
        return Some((said, tip));
    }
    let said = parts_of(text, "error: unrecognized subcommand '", "'")?;
    let has_tip = text.contains("\n\n  tip: ");
    Some((said, tip_of_word(said.argument, said.usage, has_tip)?))
}

/// The text of `clap`, with our tip for an argument that it did not expect if there is one. Any other text stays as it is.
pub(crate) fn with_tip(alloc: Global, text: String) -> Result<String, AllocError> {
    match tipped(text.as_str()) {
        Some((said, tip)) => {
            let (error, usage) = (said.error, said.usage);
            format!(in alloc; "{error}\n\n  tip: {tip}\n\n{usage}")
        }
        None => Ok(text),
    }
}
