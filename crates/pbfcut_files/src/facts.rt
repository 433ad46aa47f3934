//! The second line of a run that failed: the file that it is about, and why. It goes to every standard error, so that a log has the name of the file.
//! Nothing here allocates.

use crate::asked::{Asked, Existing, error_of, glance_at, what_exists};
use crate::disk::parent_folder;
use crate::failure::{FailedWrite, Target};
use crate::formats::form_of;
use crate::polygon_text::is_no_file;
use crate::reasons::{words_of, words_of_config, words_of_polygon, words_of_zlib};
use pbf_frame::Stop;
use pbf_unpack::{Place, UnpackReason};
use pbf_wire::Reason;
use pbfcut_cli::{Ending, PackedRefusal, Program};
use std::{fs, io};

/// A refusal: its reason, where it is if that is a byte of IN, and what is wrong with zlib data.
#[derive(Clone, Copy)]
pub(crate) struct Refused {
    pub(crate) reason: Reason,
    pub(crate) offset: Option<u64>,
    pub(crate) detail: Option<UnpackReason>,
}

/// The byte of IN that a refusal of a published file names.
fn offset_of(refusal: &PackedRefusal) -> Option<u64> {
    match refusal.place {
        Place::Byte(offset) => Some(offset),
        Place::InPayload(_, _) => None,
    }
}

/// The refusal that a run ended with, if it did.
pub(crate) fn refusal_of(ending: &Ending) -> Option<Refused> {
    match ending {
        Ending::Stopped(Stop::Refused(fault)) => Some(Refused {
            reason: fault.reason,
            offset: Some(fault.offset),
            detail: None,
        }),
        Ending::RefusedPacked(refusal) => Some(Refused {
            reason: refusal.reason,
            offset: offset_of(refusal),
            detail: refusal.detail,
        }),
        _ => None,
    }
}

/// Writes the line: the file, and what is said of it.
pub(crate) fn tell(rt: &HostRuntime, asked: Asked<'_, '_>, path: &str, words: &str) {
    let name = asked.program.name();
    let path = if path.is_empty() { "''" } else { path };
    let _ = eprintln!(rt; "{name}: {path}: {words}");
}

/// The same with what the system says.
fn tell_error(rt: &HostRuntime, asked: Asked<'_, '_>, path: &str, error: &io::Error) {
    let name = asked.program.name();
    let path = if path.is_empty() { "''" } else { path };
    let _ = eprintln!(rt; "{name}: {path}: {error}");
}

/// Why OUT can't be made.
pub(crate) fn words_of_unmade(rt: &HostRuntime, output: &str) -> &'static str {
    if output.is_empty() {
        "OUT has no name"
    } else if fs::metadata(rt, output).is_ok() {
        "it is there, and can't be read"
    } else if fs::symlink_metadata(rt, output).is_ok() {
        "it is a link to a file that isn't there"
    } else if fs::metadata(rt, parent_folder(output)).is_err() {
        "it can't be made: its folder isn't there"
    } else {
        "it can't be made: may its folder be written to?"
    }
}

/// Which file could not be opened, and why. What the system said of OUT is known if no more files could be opened.
fn tell_unopened(rt: &HostRuntime, asked: Asked<'_, '_>, failed: Option<FailedWrite>) {
    if let (Some(failed), Some(output)) = (failed, asked.output()) {
        if failed.is_of_many_files() {
            tell_error(
                rt,
                asked,
                output,
                &io::Error::from_raw_os_error(failed.code),
            );
            return;
        }
    }
    if let Some(path) = asked.text() {
        if is_no_file(rt, path) {
            tell(
                rt,
                asked,
                path,
                "it is a folder, a pipe or a device, and no file",
            );
            return;
        }
        if let Some(error) = error_of(rt, path) {
            tell_error(rt, asked, path, &error);
            return;
        }
    }
    if let Some(error) = error_of(rt, asked.input) {
        tell_error(rt, asked, asked.input, &error);
        return;
    }
    if let Some(output) = asked.output() {
        tell(rt, asked, output, words_of_unmade(rt, output));
    }
}

/// What is there by OUT's name.
fn tell_existing(rt: &HostRuntime, asked: Asked<'_, '_>) {
    let Some(output) = asked.output() else {
        return;
    };
    let name = asked.program.name();
    match what_exists(rt, asked) {
        Some(Existing::Input) => tell(rt, asked, output, "it is IN"),
        Some(Existing::Folder) => tell(rt, asked, output, "it is a folder"),
        Some(Existing::Pipe) => tell(rt, asked, output, "it is a pipe"),
        Some(Existing::Device) => tell(rt, asked, output, "it is a device"),
        Some(Existing::Alone(length) | Existing::Longer(length) | Existing::File(length)) => {
            let _ = eprintln!(rt; "{name}: {output}: it is there, with {length} bytes");
        }
        None => tell(rt, asked, output, "it is a link to a file that isn't there"),
    }
}

/// The feature at the start of these bytes, which are those of a header's field: its tag, its length and its text.
pub(crate) fn feature_of(bytes: &[u8]) -> Option<&str> {
    let (_tag, rest) = bytes.split_first()?;
    let (length, rest) = rest.split_first()?;
    let feature = rest.get(..*length as usize)?;
    if feature.iter().all(|byte| byte.is_ascii_graphic()) {
        str::from_utf8(feature).ok()
    } else {
        None
    }
}

/// Which feature IN requires, if that can be seen.
fn tell_feature(rt: &HostRuntime, asked: Asked<'_, '_>, offset: u64) -> bool {
    let Some(seen) = glance_at(rt, asked.input, offset) else {
        return false;
    };
    let Some(feature) = feature_of(seen.bytes()) else {
        return false;
    };
    let (name, input) = (asked.program.name(), asked.input);
    let _ = eprintln!(rt;
        "{name}: {input}: it requires the feature {feature}, which {name} does not know"
    );
    true
}

/// What IN is, if it does not begin as a PBF file does.
fn words_of_start(
    rt: &HostRuntime,
    asked: Asked<'_, '_>,
    refused: Refused,
) -> Option<&'static str> {
    if refused.offset != Some(0) {
        return None;
    }
    let seen = glance_at(rt, asked.input, 0)?;
    match refused.reason {
        Reason::HeaderLong => Some(form_of(seen.bytes()).words()),
        Reason::NoHeader if seen.bytes().is_empty() => Some("it is empty"),
        _ => None,
    }
}

/// Why IN is refused.
fn tell_refused(rt: &HostRuntime, asked: Asked<'_, '_>, refused: Refused) {
    if let (Reason::Feature, Some(offset)) = (refused.reason, refused.offset) {
        if tell_feature(rt, asked, offset) {
            return;
        }
    }
    let words = match (words_of_start(rt, asked, refused), refused.reason) {
        (Some(words), _) => words,
        (None, Reason::Zlib) if asked.program == Program::Pbfcutz => words_of_zlib(refused.detail),
        (None, reason) => words_of(reason),
    };
    tell(rt, asked, asked.input, words);
}

/// Which read failed.
fn tell_read(rt: &HostRuntime, asked: Asked<'_, '_>) {
    let is_folder = match fs::metadata(rt, asked.input) {
        Ok(metadata) => metadata.is_dir(),
        Err(_) => false,
    };
    let words = if is_folder {
        "it is a folder, and not a file"
    } else {
        "the system could not read it"
    };
    tell(rt, asked, asked.input, words);
}

/// Which write failed, and the system's reason.
fn tell_write(rt: &HostRuntime, asked: Asked<'_, '_>, failed: FailedWrite) {
    let (name, error) = (
        asked.program.name(),
        io::Error::from_raw_os_error(failed.code),
    );
    match (failed.target, asked.output_file()) {
        (Target::Out, Some(output)) => tell_error(rt, asked, output, &error),
        (Target::StandardOutput, _) if asked.is_several => {
            let _ = eprintln!(rt;
                "{name}: each OUT is complete; the counts could not be printed: {error}"
            );
        }
        (Target::StandardOutput, Some(output)) => {
            let _ = eprintln!(rt;
                "{name}: {output}: OUT is complete; the counts could not be printed: {error}"
            );
        }
        (_, None) => tell_error(rt, asked, "standard output", &error),
    }
}

/// Writes which file a run failed for, and why, unless its own line says all.
pub(crate) fn tell_fact(
    rt: &HostRuntime,
    asked: Asked<'_, '_>,
    ending: &Ending,
    failed: Option<FailedWrite>,
) {
    if let Some(refused) = refusal_of(ending) {
        tell_refused(rt, asked, refused);
        return;
    }
    match ending {
        Ending::Polygon(fault) => {
            let path = asked.text().unwrap_or("polygon");
            tell(rt, asked, path, words_of_polygon(fault.reason));
        }
        Ending::Config(fault) => {
            let path = asked.text().unwrap_or("config");
            tell(rt, asked, path, words_of_config(fault.reason));
        }
        Ending::CannotOpen => tell_unopened(rt, asked, failed),
        Ending::IsPipe => tell(
            rt,
            asked,
            asked.input,
            "it is a pipe, which can be read only once",
        ),
        Ending::OutExists => tell_existing(rt, asked),
        Ending::Stopped(Stop::Changed(_)) => {
            tell(
                rt,
                asked,
                asked.input,
                "it was written to while it was read",
            );
        }
        Ending::Stopped(Stop::Read) => tell_read(rt, asked),
        Ending::Stopped(Stop::Write) => {
            if let Some(failed) = failed {
                tell_write(rt, asked, failed);
            }
        }
        _ => {}
    }
}
