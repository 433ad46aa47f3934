//! What a command was asked to do, and what is there by the names that it has of files.

use pbfcut_cli::{Command, Program, Region};
use std::fs::{self, File, Metadata};
use std::io::{self, Read, Seek, SeekFrom};
use std::os::unix::fs::{FileTypeExt, MetadataExt};

/// How many bytes of IN are read to see what it is.
const GLANCE: usize = 96;

/// The files that a command names, the program that runs, and what is known of the run.
#[derive(Clone, Copy)]
pub struct Asked<'a, 'b> {
    pub(crate) program: Program,
    pub(crate) input: &'a str,
    output: Option<&'a str>,
    pub(crate) region: Option<Region<'a>>,
    /// The text that the run read last, or tried to: a configuration, or the file of a polygon.
    text: Option<&'b str>,
    /// Of several OUTs the one that the run came to last.
    last_output: Option<&'b str>,
    /// Whether a configuration names the OUTs.
    pub(crate) is_several: bool,
}

impl<'a, 'b> Asked<'a, 'b> {
    /// The files of a command that isn't help, the program, and what is known of the run: the path of the text that it read last, and that of the
    /// OUT that it came to last.
    pub fn of(
        program: Program,
        command: &Command<'a>,
        text: Option<&'b str>,
        last_output: Option<&'b str>,
    ) -> Option<Asked<'a, 'b>> {
        let (input, output, region) = match command {
            Command::Help(_) => return None,
            Command::Blobs { input } => (*input, None, None),
            Command::Info { input, .. } => (*input, None, None),
            Command::Show { input, .. } => (*input, None, None),
            Command::Check { input, .. } => (*input, None, None),
            Command::Convert(files) => (files.input, Some(files.output), None),
            Command::Pack(files) => (files.input, Some(files.output), None),
            Command::Unpack(files) => (files.input, Some(files.output), None),
            Command::Extract { region, files, .. } => {
                (files.input, Some(files.output), Some(*region))
            }
            Command::ExtractEach { files, .. } => (files.input, None, None),
        };
        Some(Asked {
            program,
            input,
            output,
            region,
            text,
            last_output,
            is_several: matches!(command, Command::ExtractEach { .. }),
        })
    }

    /// OUT; of several the one that the run failed for, if that is known.
    pub(crate) fn output(&self) -> Option<&str> {
        if !self.is_several {
            return match self.output {
                Some(path) => Some(path),
                None => None,
            };
        }
        match self.last_output {
            Some(path) => Some(path),
            None => None,
        }
    }

    /// The path of the polygon's file if the area is one, otherwise of the text that was read last.
    pub(crate) fn text(&self) -> Option<&str> {
        if let Some(Region::Polygon(path)) = self.region {
            return Some(path);
        }
        match self.text {
            Some(path) => Some(path),
            None => None,
        }
    }

    /// OUT, if it is a file and not standard output.
    pub(crate) fn output_file(&self) -> Option<&str> {
        let output = self.output()?;
        let is_screen = self.program == Program::Pbfcutz
            && !self.is_several
            && (output == "-" || output == "/dev/stdout");
        if is_screen { None } else { Some(output) }
    }
}

/// What is there by OUT's name.
#[derive(Clone, Copy, PartialEq, Eq)]
pub(crate) enum Existing {
    /// The file that is IN too.
    Input,
    Folder,
    Pipe,
    Device,
    /// A file of so many bytes, while there is no IN.
    Alone(u64),
    /// A file of so many bytes, which is longer than IN.
    Longer(u64),
    /// Any other file of so many bytes.
    File(u64),
}

/// Whether both are the same file, maybe by two names.
fn is_same_file(one: &Metadata, other: &Metadata) -> bool {
    one.dev() == other.dev() && one.ino() == other.ino()
}

/// What is there by OUT's name, if there is something.
pub(crate) fn what_exists(rt: &HostRuntime, asked: Asked<'_, '_>) -> Option<Existing> {
    let there = fs::metadata(rt, asked.output()?).ok()?;
    if there.is_dir() {
        return Some(Existing::Folder);
    }
    if there.file_type().is_fifo() {
        return Some(Existing::Pipe);
    }
    if !there.is_file() {
        return Some(Existing::Device);
    }
    let length = there.len();
    let Ok(input) = fs::metadata(rt, asked.input) else {
        return Some(Existing::Alone(length));
    };
    if is_same_file(&there, &input) {
        Some(Existing::Input)
    } else if asked.region.is_some() && input.is_file() && length > input.len() {
        Some(Existing::Longer(length))
    } else {
        Some(Existing::File(length))
    }
}

/// The first bytes of a part of IN.
#[derive(Clone, Copy)]
pub(crate) struct Glance {
    bytes: [u8; GLANCE],
    length: usize,
}

impl Glance {
    pub(crate) fn bytes(&self) -> &[u8] {
        self.bytes.get(..self.length).unwrap_or(&[])
    }
}

/// What IN has from this byte on, if it is a plain file. This does not allocate, so the line below an ending is the same without memory.
pub(crate) fn glance_at(rt: &HostRuntime, input: &str, offset: u64) -> Option<Glance> {
    if !fs::metadata(rt, input).ok()?.is_file() {
        return None;
    }
    let mut file = File::open(rt, input).ok()?;
    file.seek(SeekFrom::Start(offset)).ok()?;
    let mut bytes = [0; GLANCE];
    // A plain file gives in one read what it has, unless that is interrupted; then less is seen.
    let length = file.read(&mut bytes).ok()?;
    Some(Glance { bytes, length })
}

/// Why a file cannot be read, as the system says it. A pipe is not opened again.
pub(crate) fn error_of(rt: &HostRuntime, path: &str) -> Option<io::Error> {
    match fs::metadata(rt, path) {
        Err(error) => Some(error),
        Ok(metadata) if metadata.is_file() => File::open(rt, path).err(),
        Ok(_) => None,
    }
}
