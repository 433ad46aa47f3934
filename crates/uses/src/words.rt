//! A caller of `pbfcut_cli`.

use pbfcut_cli::{Command, Ending, Program, read_words};
use std::alloc::Global;

/// The path that a `check` is for.
pub fn path_to_check<'a>(alloc: Global, words: &'a [&'a str]) -> Result<Option<&'a str>, Ending> {
    match read_words(alloc, Program::Pbfcut, words)? {
        Command::Check { input, .. } => Ok(Some(input)),
        _ => Ok(None),
    }
}
