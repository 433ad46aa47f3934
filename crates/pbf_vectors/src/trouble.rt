//! Why the suite stops.

use std::alloc::{AllocError, AllocFailed};

/// What is wrong with the suite, or with what a call did.
#[derive(Clone, Copy)]
pub(crate) enum Trouble {
    /// A file of the suite can't be read.
    File,
    /// A line of the list isn't of its form.
    List,
    /// There is no memory for the suite's own bytes.
    Memory,
    /// A call did not do what it should.
    Wrong(&'static str),
}

impl Trouble {
    pub(crate) fn text(self) -> &'static str {
        match self {
            Trouble::File => "a file of the suite can't be read",
            Trouble::List => "a line of the list isn't of its form",
            Trouble::Memory => "no memory for the suite's own bytes",
            Trouble::Wrong(what) => what,
        }
    }
}

impl From<AllocError> for Trouble {
    fn from(_error: AllocError) -> Trouble {
        Trouble::Memory
    }
}

impl<T: Drop> From<AllocFailed<T>> for Trouble {
    fn from(_error: AllocFailed<T>) -> Trouble {
        Trouble::Memory
    }
}

/// A call did not do what it should, unless this holds.
pub(crate) fn expect(holds: bool, what: &'static str) -> Result<(), Trouble> {
    if holds {
        Ok(())
    } else {
        Err(Trouble::Wrong(what))
    }
}
