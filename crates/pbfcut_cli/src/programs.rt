//! The two programs that take these words.

ghost use Rattle.std.specs.Prelude.{◌≡◌};
ghost use Rattle.pbfcut_cli.specs.Endings.{program_name};

use crate::help::{Help, OF_PBFCUT, OF_PBFCUTZ};

/// A program that takes the words of this crate: both have the same commands, options and exit statuses.
#[derive(Clone, Copy, Debug, PartialEq, Eq)]
pub enum Program {
    /// It reads raw blobs.
    Pbfcut,
    /// It reads raw blobs and those that are compressed by zlib.
    Pbfcutz,
}

impl Program {
    /// The name that it is called by, and that its lines begin with.
    pub fn name(self) -> &'static str
        ensures { result.now ≡ program_name self }
    {
        match self {
            Program::Pbfcut => "pbfcut",
            Program::Pbfcutz => "pbfcutz",
        }
    }

    /// What its help says.
    pub(crate) fn help(self) -> &'static Help {
        match self {
            Program::Pbfcut => &OF_PBFCUT,
            Program::Pbfcutz => &OF_PBFCUTZ,
        }
    }
}
