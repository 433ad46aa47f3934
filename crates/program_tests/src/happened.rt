//! What a host recorded, as data.

use pbfcut_program::{CreateFault, FinishFault, NameFault, OpenFault, PrintFault, Screen};

/// One event, in the order of the calls of a host. Names and texts are bytes.
#[derive(Debug, PartialEq, Drop)]
pub enum Happened {
    /// A path, and the text that was read there.
    TextRead(Vec<u8>, Vec<u8>),
    TextNotRead(Vec<u8>),
    /// A path, whether a plain file may be replaced, and whether there is a file that isn't to be.
    Looked(Vec<u8>, bool, bool),
    /// A path, the number of the pass, and the bytes of the file.
    Opened(Vec<u8>, u8, Vec<u8>),
    NotOpened(Vec<u8>, OpenFault),
    /// The key that was drawn, if one was.
    Seeded(Option<u128>),
    /// The name of a new file.
    Made(Vec<u8>),
    NotMade(Vec<u8>, CreateFault),
    Screened(bool),
    /// The bytes that were read of IN, those that were left, and how many reads failed.
    Read(Vec<u8>, Vec<u8>, u64),
    /// The name of a file, the bytes that it took, how many writes failed, whether it was to be kept, and why not all that it took went out.
    Wrote(Vec<u8>, Vec<u8>, u64, bool, Option<FinishFault>),
    /// The same of standard output.
    WroteScreen(Vec<u8>, u64, bool, Option<FinishFault>),
    /// The name of a file, and one that it has too.
    Linked(Vec<u8>, Vec<u8>),
    /// The name that a file had, and the one that it has instead, which none had.
    Moved(Vec<u8>, Vec<u8>),
    /// The same, in place of a file.
    Renamed(Vec<u8>, Vec<u8>),
    NotNamed(Vec<u8>, Vec<u8>, NameFault),
    Removed(Vec<u8>),
    Stays(Vec<u8>),
    NotSynced(Vec<u8>),
    /// Where a text went, the text, and why not all of it did.
    Printed(Screen, Vec<u8>, Option<PrintFault>),
    Told(Vec<u8>),
    Advised,
}
