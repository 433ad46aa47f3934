//! What is said of a file that isn't opened though the system would open it: two names are one file.

use crate::asked::Asked;
use crate::facts::tell;
use std::io::IsTerminal;

/// What a run would spoil.
#[derive(Clone, Copy)]
pub enum Spoiled {
    /// OUT is a file that the run reads.
    Source,
    /// Standard output is IN.
    Input,
    /// OUT is an OUT before it by another name.
    Repeated,
}

/// Writes which file it is, and why it isn't opened; and on a terminal what to do next.
pub fn tell_spoiled(rt: &HostRuntime, asked: Asked<'_, '_>, spoiled: Spoiled) {
    let (words, hint) = match spoiled {
        Spoiled::Source if asked.is_several => (
            "it is a file that this run reads",
            "give this extract another output, and rename it when it is there",
        ),
        Spoiled::Source => (
            "it is a file that this run reads",
            "name another OUT, and rename it when it is there",
        ),
        Spoiled::Repeated => (
            "an earlier extract has the same output, by another name",
            "give each extract an output of its own",
        ),
        Spoiled::Input => ("it is standard output too", "write to another file"),
    };
    match (spoiled, asked.output()) {
        (Spoiled::Source | Spoiled::Repeated, Some(output)) => tell(rt, asked, output, words),
        _ => tell(rt, asked, asked.input, words),
    }
    if rt.stderr().is_terminal() {
        let _ = eprintln!(rt; "hint: {hint}");
    }
}
