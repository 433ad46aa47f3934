//! How OUT is made, gets its name, or goes, over a disk in memory whose calls fail.

use crate::blobs::THREE_DENSE_NODES;
use crate::disk::{File, Mishaps, Moment, OTHER, copy};
use crate::happened::Happened;
use crate::recorder::Recorder;
use crate::runs::{EXTRACTED, NODES, add_passes, seeded};
use crate::words::owned;
use pbfcut_cli::Program;
use pbfcut_program::{CreateFault, FinishFault, NameFault, PrintFault, Screen, run};
use std::alloc::AllocError;
use std::process::Abort;
use std::test::Fail;

/// The raw extract that `runs` has, of which no blob is compressed.
pub(crate) const CUT: [&str; 5] = ["extract", "--raw", "--box=0,0,1,1", "a", "b"];

pub(crate) const CUT_OVER: [&str; 6] = ["extract", "--raw", "-O", "--box=0,0,1,1", "a", "b"];

/// The same by pbfcut.
pub(crate) const CUT_THERE: [&str; 4] = ["extract", "--box=0,0,1,1", "a", "b"];

/// The first name of a part of OUT, by the number of the process, and the second.
const PART: &str = "b.42.0.part";

const SECOND_PART: &str = "b.42.1.part";

pub(crate) const OLD: &[u8] = b"old";

/// A disk with the three nodes, and with an OUT.
pub(crate) const NODES_AND_OUT: [File<'static>; 2] = [
    File {
        path: "a",
        bytes: &THREE_DENSE_NODES,
    },
    File {
        path: "b",
        bytes: OLD,
    },
];

const FAILED: &[u8] = b"pbfcutz: write failed\n";

fn name<R: Abort + AllocGlobal>(rt: &R, text: &str) -> Vec<u8> {
    copy(rt, text.as_bytes())
}

/// What happens until a part took the extract, and was synced, or not.
fn written<R: Abort + AllocGlobal>(
    rt: &R,
    overwrite: bool,
    part: &str,
    fault: Option<FinishFault>,
) -> Result<Vec<Happened>, AllocError> {
    let mut events = seeded(rt, &THREE_DENSE_NODES, overwrite)?;
    events.push(Happened::Made(name(rt, part)))?;
    add_passes(rt, &mut events)?;
    events.push(Happened::Wrote(name(rt, part), copy(rt, &EXTRACTED), 0, true, fault))?;
    Ok(events)
}

fn linked<R: Abort + AllocGlobal>(rt: &R) -> Happened {
    Happened::Linked(name(rt, PART), name(rt, "b"))
}

fn renamed<R: Abort + AllocGlobal>(rt: &R) -> Happened {
    Happened::Renamed(name(rt, PART), name(rt, "b"))
}

fn not_named<R: Abort + AllocGlobal>(rt: &R, fault: NameFault) -> Happened {
    Happened::NotNamed(name(rt, PART), name(rt, "b"), fault)
}

fn removed<R: Abort + AllocGlobal>(rt: &R) -> Happened {
    Happened::Removed(name(rt, PART))
}

/// The counts are printed.
fn counted<R: Abort + AllocGlobal>(rt: &R) -> Happened {
    let counts = copy(rt, b"nodes 2 ways 0 relations 0\n");
    Happened::Printed(Screen::Output, counts, None)
}

/// Adds the line of an ending, and what follows it.
fn add_line<R: Abort + AllocGlobal>(
    rt: &R,
    events: &mut Vec<Happened>,
    line: &[u8],
) -> Result<(), AllocError> {
    events.push(Happened::Told(copy(rt, line)))?;
    events.push(Happened::Advised)?;
    Ok(())
}

/// Whether pbfcutz ends with this status over this host, and exactly this happened.
fn ends<R: Abort + AllocGlobal>(
    rt: &R,
    host: &mut Recorder<'_, R>,
    given: &[&str],
    status: u8,
    events: &[Happened],
) -> Result<bool, AllocError> {
    let words = owned(rt.alloc(), given)?;
    let ended = run(rt.alloc(), host, Program::Pbfcutz, &words);
    Ok(ended == status && host.events.as_slice() == events)
}

/// Whether the disk has IN, these files, and no more.
fn leaves<R: Abort + AllocGlobal>(host: &Recorder<'_, R>, files: &[File<'_>]) -> bool {
    let kept = files
        .iter()
        .all(|file| host.disk.find(file.path) == Some(file.bytes));
    kept && host.disk.find("a").is_some() && host.disk.count() == files.len() + 1
}

/// OUT with these bytes.
fn with(bytes: &[u8]) -> File<'_> {
    File { path: "b", bytes }
}

#[test]
fn a_part_that_gets_the_name(rt: HostRuntime) -> Result<(), Fail> {
    let mut host = Recorder::new(&rt, &NODES, 4_096);
    let mut events = written(&rt, false, PART, None)?;
    events.push(linked(&rt))?;
    events.push(removed(&rt))?;
    events.push(counted(&rt))?;
    assert!(rt; ends(&rt, &mut host, &CUT, 0, &events)?);
    assert!(rt; leaves(&host, &[with(&EXTRACTED)]));
    Ok(())
}

#[test]
fn an_out_that_is_replaced(rt: HostRuntime) -> Result<(), Fail> {
    let mut host = Recorder::new(&rt, &NODES_AND_OUT, 4_096);
    let mut events = written(&rt, true, PART, None)?;
    events.push(renamed(&rt))?;
    events.push(counted(&rt))?;
    assert!(rt; ends(&rt, &mut host, &CUT_OVER, 0, &events)?);
    assert!(rt; leaves(&host, &[with(&EXTRACTED)]));
    Ok(())
}

/// Without `-O` OUT isn't replaced: nothing is read or made.
#[test]
fn an_out_that_is_there(rt: HostRuntime) -> Result<(), Fail> {
    let mut host = Recorder::new(&rt, &NODES_AND_OUT, 4_096);
    let mut events = Vec::new(rt.alloc());
    events.push(Happened::Looked(name(&rt, "b"), false, true))?;
    add_line(&rt, &mut events, b"pbfcutz: OUT exists\n")?;
    assert!(rt; ends(&rt, &mut host, &CUT, 3, &events)?);
    assert!(rt; leaves(&host, &[with(OLD)]));
    Ok(())
}

/// Another run makes OUT while this one writes its part: that OUT stays.
#[test]
fn an_out_made_meanwhile(rt: HostRuntime) -> Result<(), Fail> {
    let mut mishaps = Mishaps::none();
    mishaps.another = Some(Moment::Link);
    let mut host = Recorder::beset(&rt, &NODES, 4_096, mishaps);
    let mut events = written(&rt, false, PART, None)?;
    events.push(not_named(&rt, NameFault::Exists))?;
    events.push(removed(&rt))?;
    add_line(&rt, &mut events, b"pbfcutz: OUT exists\n")?;
    assert!(rt; ends(&rt, &mut host, &CUT, 3, &events)?);
    assert!(rt; leaves(&host, &[with(OTHER)]));
    Ok(())
}

/// The same with `-O`, which replaces that OUT too.
#[test]
fn an_out_made_meanwhile_and_replaced(rt: HostRuntime) -> Result<(), Fail> {
    let mut mishaps = Mishaps::none();
    mishaps.another = Some(Moment::Link);
    let mut host = Recorder::beset(&rt, &NODES, 4_096, mishaps);
    let mut events = written(&rt, true, PART, None)?;
    events.push(not_named(&rt, NameFault::Exists))?;
    events.push(renamed(&rt))?;
    events.push(counted(&rt))?;
    assert!(rt; ends(&rt, &mut host, &CUT_OVER, 0, &events)?);
    assert!(rt; leaves(&host, &[with(&EXTRACTED)]));
    Ok(())
}

/// A disk without links.
#[test]
fn a_part_that_is_moved(rt: HostRuntime) -> Result<(), Fail> {
    let mut mishaps = Mishaps::none();
    mishaps.link = Some(NameFault::Failed);
    let mut host = Recorder::beset(&rt, &NODES, 4_096, mishaps);
    let mut events = written(&rt, false, PART, None)?;
    events.push(not_named(&rt, NameFault::Failed))?;
    events.push(Happened::Moved(name(&rt, PART), name(&rt, "b")))?;
    events.push(counted(&rt))?;
    assert!(rt; ends(&rt, &mut host, &CUT, 0, &events)?);
    assert!(rt; leaves(&host, &[with(&EXTRACTED)]));
    Ok(())
}

/// There another run makes OUT meanwhile.
#[test]
fn an_out_made_before_a_move(rt: HostRuntime) -> Result<(), Fail> {
    let mut mishaps = Mishaps::none();
    mishaps.link = Some(NameFault::Failed);
    mishaps.another = Some(Moment::MoveNew);
    let mut host = Recorder::beset(&rt, &NODES, 4_096, mishaps);
    let mut events = written(&rt, false, PART, None)?;
    events.push(not_named(&rt, NameFault::Failed))?;
    events.push(not_named(&rt, NameFault::Exists))?;
    events.push(removed(&rt))?;
    add_line(&rt, &mut events, b"pbfcutz: OUT exists\n")?;
    assert!(rt; ends(&rt, &mut host, &CUT, 3, &events)?);
    assert!(rt; leaves(&host, &[with(OTHER)]));
    Ok(())
}

#[test]
fn a_rename_that_is_refused(rt: HostRuntime) -> Result<(), Fail> {
    let mut mishaps = Mishaps::none();
    mishaps.rename = true;
    let mut host = Recorder::beset(&rt, &NODES_AND_OUT, 4_096, mishaps);
    let mut events = written(&rt, true, PART, None)?;
    events.push(not_named(&rt, NameFault::Failed))?;
    events.push(removed(&rt))?;
    add_line(&rt, &mut events, FAILED)?;
    assert!(rt; ends(&rt, &mut host, &CUT_OVER, 3, &events)?);
    assert!(rt; leaves(&host, &[with(OLD)]));
    Ok(())
}

#[test]
fn a_sync_that_is_refused(rt: HostRuntime) -> Result<(), Fail> {
    let failed = Some(FinishFault::Failed);
    let mut mishaps = Mishaps::none();
    mishaps.sync = failed;
    let mut host = Recorder::beset(&rt, &NODES, 4_096, mishaps);
    let mut events = written(&rt, false, PART, failed)?;
    events.push(removed(&rt))?;
    add_line(&rt, &mut events, FAILED)?;
    assert!(rt; ends(&rt, &mut host, &CUT, 3, &events)?);
    assert!(rt; leaves(&host, &[]));
    Ok(())
}

/// OUT has its name, which may not be on the disk.
#[test]
fn a_name_that_is_not_synced(rt: HostRuntime) -> Result<(), Fail> {
    let mut mishaps = Mishaps::none();
    mishaps.sync_name = true;
    let mut host = Recorder::beset(&rt, &NODES, 4_096, mishaps);
    let mut events = written(&rt, false, PART, None)?;
    events.push(linked(&rt))?;
    events.push(removed(&rt))?;
    events.push(Happened::NotSynced(name(&rt, "b")))?;
    add_line(&rt, &mut events, FAILED)?;
    assert!(rt; ends(&rt, &mut host, &CUT, 3, &events)?);
    assert!(rt; leaves(&host, &[with(&EXTRACTED)]));
    Ok(())
}

/// OUT has two names.
#[test]
fn a_part_that_stays(rt: HostRuntime) -> Result<(), Fail> {
    let mut mishaps = Mishaps::none();
    mishaps.remove = true;
    let mut host = Recorder::beset(&rt, &NODES, 4_096, mishaps);
    let mut events = written(&rt, false, PART, None)?;
    events.push(linked(&rt))?;
    events.push(Happened::Stays(name(&rt, PART)))?;
    events.push(counted(&rt))?;
    assert!(rt; ends(&rt, &mut host, &CUT, 0, &events)?);
    let part = File {
        path: PART,
        bytes: &EXTRACTED,
    };
    assert!(rt; leaves(&host, &[with(&EXTRACTED), part]));
    Ok(())
}

/// A run that was killed has left the part of the first name, which stays.
#[test]
fn the_next_name_of_a_part(rt: HostRuntime) -> Result<(), Fail> {
    let left = File {
        path: PART,
        bytes: OLD,
    };
    let mut host = Recorder::new(&rt, &[NODES[0], left], 4_096);
    let mut events = seeded(&rt, &THREE_DENSE_NODES, false)?;
    events.push(Happened::NotMade(name(&rt, PART), CreateFault::Exists))?;
    events.push(Happened::Made(name(&rt, SECOND_PART)))?;
    add_passes(&rt, &mut events)?;
    let taken = copy(&rt, &EXTRACTED);
    events.push(Happened::Wrote(name(&rt, SECOND_PART), taken, 0, true, None))?;
    events.push(Happened::Linked(name(&rt, SECOND_PART), name(&rt, "b")))?;
    events.push(Happened::Removed(name(&rt, SECOND_PART)))?;
    events.push(counted(&rt))?;
    assert!(rt; ends(&rt, &mut host, &CUT, 0, &events)?);
    assert!(rt; leaves(&host, &[with(&EXTRACTED), left]));
    Ok(())
}

/// OUT's name is so long that the system takes none with more: the part has a short name in OUT's folder.
#[test]
fn the_short_name_of_a_part(rt: HostRuntime) -> Result<(), Fail> {
    let mut output = String::new(rt.alloc());
    for _letter in 0..250 {
        output.push('o')?;
    }
    let (output, part) = (output.as_str(), "./pbfcutz.42.0.part");
    let too_long = format!(in rt.alloc(); "{output}.42.0.part")?;
    let mut host = Recorder::new(&rt, &NODES, 4_096);
    let words = owned(
        rt.alloc(),
        &["extract", "--raw", "--box=0,0,1,1", "a", output],
    )?;
    assert_eq!(rt; run(rt.alloc(), &mut host, Program::Pbfcutz, &words), 0);
    let missed = Happened::NotMade(name(&rt, too_long.as_str()), CreateFault::Long);
    let named = Happened::Linked(name(&rt, part), name(&rt, output));
    for event in [missed, Happened::Made(name(&rt, part)), named] {
        assert!(rt; host.events.as_slice().contains(&event), "{event:?}");
    }
    let out = File {
        path: output,
        bytes: &EXTRACTED,
    };
    assert!(rt; leaves(&host, &[out]));
    Ok(())
}

/// A write fails once the part has taken 100 bytes: nothing is left.
#[test]
fn a_failed_write(rt: HostRuntime) -> Result<(), Fail> {
    let mut host = Recorder::new(&rt, &NODES, 100);
    let mut events = seeded(&rt, &THREE_DENSE_NODES, false)?;
    events.push(Happened::Made(name(&rt, PART)))?;
    add_passes(&rt, &mut events)?;
    let taken = copy(&rt, &EXTRACTED[..100]);
    events.push(Happened::Wrote(name(&rt, PART), taken, 1, false, None))?;
    events.push(removed(&rt))?;
    add_line(&rt, &mut events, FAILED)?;
    assert!(rt; ends(&rt, &mut host, &CUT, 3, &events)?);
    assert!(rt; leaves(&host, &[]));
    Ok(())
}

/// How pbfcut ends.
fn status_there<R: Abort + AllocGlobal>(
    rt: &R,
    host: &mut Recorder<'_, R>,
) -> Result<u8, AllocError> {
    let words = owned(rt.alloc(), &CUT_THERE)?;
    Ok(run(rt.alloc(), host, Program::Pbfcut, &words))
}

/// pbfcut writes to OUT itself, and leaves what OUT took.
#[test]
fn an_out_of_pbfcut(rt: HostRuntime) -> Result<(), Fail> {
    let failed = Some(FinishFault::Failed);
    for (room, unsynced, status) in [(4_096, None, 0), (4_096, failed, 3), (100, None, 3)] {
        let mut mishaps = Mishaps::none();
        mishaps.sync = unsynced;
        let mut host = Recorder::beset(&rt, &NODES, room, mishaps);
        assert_eq!(rt; status_there(&rt, &mut host)?, status);
        let length = EXTRACTED.len().min(room);
        assert!(rt; leaves(&host, &[with(&EXTRACTED[..length])]));
    }
    Ok(())
}
