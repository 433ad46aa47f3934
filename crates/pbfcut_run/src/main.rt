//! The program, which is pbfcut or pbfcutz by the name that it is called by: reads its words, and runs them over the operating system.
#![tactic(auto)]

mod os;
mod out_file;

use os::Os;
use pbf_frame::Stop;
use pbfcut_cli::{Ending, Program};
use pbfcut_program::{report, run};
use std::env::{self, Env};
use std::fs::File;
use std::io;
use std::process::ExitCode;

/// The room for the first word of a command line: that of the longest path that Linux has.
const LONGEST_PATH: usize = 4_096;

/// The program that the first word of the command line names, which is read without a request for memory.
fn program_named(rt: &HostRuntime) -> Program {
    let mut path = [0; LONGEST_PATH];
    let length = rt.arg(0, &mut path).unwrap_or(0);
    let path = path.get(..length).unwrap_or(&[]);
    let name = path.rsplit(|byte| *byte == b'/').next().unwrap_or(path);
    if name == Program::Pbfcutz.name().as_bytes() {
        Program::Pbfcutz
    } else {
        Program::Pbfcut
    }
}

/// All words of the command line, the program's name too.
fn words(rt: &HostRuntime) -> Result<Vec<String>, Ending> {
    let args = match env::args(rt) {
        Ok(args) => args,
        Err(error) if error.kind() == io::ErrorKind::InvalidData => return Err(Ending::NotText),
        Err(_) => return Err(Ending::Stopped(Stop::Memory)),
    };
    let mut words = Vec::new(rt.alloc());
    for word in args {
        if words.push(word).is_err() {
            return Err(Ending::Stopped(Stop::Memory));
        }
    }
    Ok(words)
}

/// A file for each standard descriptor that may be closed. Otherwise the next files that are opened would get these numbers, and what is
/// printed would go into OUT. The root folder can be opened everywhere, and nothing can be read from it or written to it.
fn stand_ins(rt: &HostRuntime) -> [Option<File>; 3] {
    let open = || File::open(rt, "/").ok();
    [open(), open(), open()]
}

fn main(rt: HostRuntime) -> ExitCode {
    let _kept_open = stand_ins(&rt);
    let program = program_named(&rt);
    let mut host = Os::new(&rt, program);
    let status = match words(&rt) {
        Ok(words) => run(
            rt.alloc(),
            &mut host,
            program,
            words.get(1..).unwrap_or(&[]),
        ),
        Err(ending) => report(rt.alloc(), &mut host, program, &ending),
    };
    ExitCode::from(status)
}
