//! Runs by example. Each function does nothing, and its contract is tables of a chapter: what is typed, what happens, and what is on the disk
//! then. They are proved by computing the definitions of a run and of a disk.
#![tactic(auto)]

ghost use Rattle.run_examples.specs.AnyRun.{EachRun};
ghost use Rattle.run_examples.specs.Dropped.{AsBefore, DroppedRun};
ghost use Rattle.run_examples.specs.Extract.{Happens, OnDisk, Typed};
ghost use Rattle.run_examples.specs.Mistyped.{Asked, Mistyped};
ghost use Rattle.run_examples.specs.Packed.{PartOnDisk, PartRun, TypedRaw};
ghost use Rattle.run_examples.specs.Refused.{EmptyOut, RefusedRun};

/// The command line of an extract by `pbfcut`, and what it means.
pub fn typed()
    ensures { Typed }
{}

/// What happens in a run of it.
pub fn extract()
    ensures { Happens }
{}

/// What is on the disk before, meanwhile and afterwards.
pub fn on_disk()
    ensures { OnDisk }
{}

/// What any run of the same command line comes to that ends with 0.
pub fn any_extract()
    ensures { EachRun }
{}

/// A run that is refused.
pub fn refused()
    ensures run { RefusedRun }
    ensures on_disk { EmptyOut }
{}

/// An extract by `pbfcutz`.
pub fn packed()
    ensures typed { TypedRaw }
    ensures happens { PartRun }
    ensures on_disk { PartOnDisk }
{}

/// A run of `pbfcutz` that is refused.
pub fn dropped()
    ensures run { DroppedRun }
    ensures on_disk { AsBefore }
{}

/// Command lines that are no command, and one that requests help.
pub fn mistyped()
    ensures refused { Mistyped }
    ensures asked { Asked }
{}
