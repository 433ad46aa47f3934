//! OUT, or standard output, as a drain.

ghost use Rattle.std.specs.Prelude.{◌≡◌, None};

use pbf_frame::{Drain, DrainFault};
use pbfcut_files::OutStream;

/// OUT, to which so many writes failed.
#[derive(Drop)]
pub(crate) struct OutFile {
    output: OutStream,
    /// OUT's path, for a hint: none of standard output, or if there was no memory for it.
    path: Option<String>,
    failures: u64,
}

impl OutFile {
    pub(crate) fn new(output: OutStream, path: Option<String>) -> OutFile
        ensures { result.failures ≡ 0 }
    {
        OutFile {
            output,
            path,
            failures: 0,
        }
    }

    /// What it writes to, and OUT's path.
    pub(crate) fn into_parts(self) -> (OutStream, Option<String>) {
        let OutFile { output, path, .. } = self;
        (output, path)
    }
}

impl Drain for OutFile {
    ghost taken = { λ _. None };

    ghost failures = { λ out. out.failures };

    fn write(&mut self, bytes: &[u8]) -> Result<usize, DrainFault> {
        match self.output.write(bytes) {
            Ok(count) if count > 0 || bytes.is_empty() => Ok(count),
            _ => {
                self.failures = self.failures.saturating_add(1);
                Err(DrainFault)
            }
        }
    }
}
