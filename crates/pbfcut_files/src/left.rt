//! What a run left that a signal stopped: a part of its OUT.

use crate::disk::parent_folder;
use std::fs;
use std::io::IsTerminal;

/// How many names of a folder are read for this.
const MOST_NAMES: usize = 10_000;

/// The process of the run that made the part of this name, if it is one of OUT's.
fn process_of(name: &str, output: &str) -> Option<u32> {
    let numbers = name
        .strip_prefix(output)?
        .strip_prefix('.')?
        .strip_suffix(".part")?;
    let (process, number) = numbers.split_once('.')?;
    number.parse::<u32>().ok()?;
    process.parse().ok()
}

/// Whether a process has ended, as far as this system shows that: it can be another machine's.
fn has_ended(rt: &HostRuntime, process: u32) -> bool {
    let Ok(path) = format!(in rt.alloc(); "/proc/{process}") else {
        return false;
    };
    fs::symlink_metadata(rt, "/proc/self").is_ok()
        && fs::symlink_metadata(rt, path.as_str()).is_err()
}

/// A part of OUT that was left by a run that has ended.
fn left_part(rt: &HostRuntime, output: &str) -> Option<String> {
    let name = match output.rsplit_once('/') {
        Some((_, name)) => name,
        None => output,
    };
    for entry in fs::read_dir(rt, parent_folder(output))
        .ok()?
        .take(MOST_NAMES)
    {
        let entry = entry.ok()?;
        let part = entry.file_name();
        if process_of(part, name).is_some_and(|process| has_ended(rt, process)) {
            return String::from_str(rt.alloc(), part).ok();
        }
    }
    None
}

/// Says on a terminal that a part of OUT was left.
pub fn tell_left(rt: &HostRuntime, output: &str) {
    if !rt.stderr().is_terminal() {
        return;
    }
    if let Some(part) = left_part(rt, output) {
        let _ = eprintln!(rt;
            "hint: {part} is what another run wrote: remove it, if that run has ended"
        );
    }
}
