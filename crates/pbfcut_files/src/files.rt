//! IN, opened once for each pass.

ghost use Rattle.std.specs.Prelude.{◌≡◌, IfOk};

use crate::progress::{Line, Watched};
use pbf_frame::{Feed, FromRead};
use pbfcut_cli::Ending;
use std::fs::{self, File};
use std::os::unix::fs::FileTypeExt;

/// How many bytes a file has whose progress is shown on a terminal: ten million.
const LONG: u64 = 10_000_000;

/// Whether IN is a pipe, which gives its bytes once. Its type is looked up by name, since to open it may wait for a writer.
fn is_pipe(rt: &HostRuntime, input: &str) -> bool {
    match fs::metadata(rt, input) {
        Ok(metadata) => metadata.file_type().is_fifo(),
        Err(_) => false,
    }
}

/// The length of a file, or 0 if it has none, as a pipe.
fn length_of(file: &File) -> u64 {
    match file.metadata() {
        Ok(metadata) => metadata.len(),
        Err(_) => 0,
    }
}

/// Whether a run over IN takes so long that its progress is shown on a terminal: some tenths of a second.
pub fn is_long(rt: &HostRuntime, input: &str) -> bool {
    match fs::metadata(rt, input) {
        Ok(metadata) => metadata.len() >= LONG,
        Err(_) => false,
    }
}

/// Opens IN for this pass of so many. A pipe is refused if there is more than one pass.
pub fn open_input(
    rt: &HostRuntime,
    path: &str,
    pass: u8,
    passes: u8,
    progress: bool,
) -> Result<Watched<FromRead<File>>, Ending>
    ensures { IfOk result (λ feed. ⟦<Watched<FromRead<File>> as Feed>⟧.failures feed ≡ 0) }
{
    if passes > 1 && is_pipe(rt, path) {
        return Err(Ending::IsPipe);
    }
    let Ok(file) = File::open(rt, path) else {
        return Err(Ending::CannotOpen);
    };
    let line = if progress {
        Some(Line::new(rt, pass, passes, length_of(&file)))
    } else {
        None
    };
    Ok(Watched::new(FromRead::new(file), line))
}
