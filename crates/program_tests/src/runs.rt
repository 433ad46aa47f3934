//! Whole runs over a host in memory: what happened, in order, and the exit status.

use crate::blobs::THREE_DENSE_NODES;
use crate::disk::{File, Mishaps, Moment, copy};
use crate::happened::Happened;
use crate::recorder::{KEY, Recorder};
use crate::show::THREE_LINES;
use crate::words::owned;
use pbfcut_cli::Program;
use pbfcut_program::{CreateFault, FinishFault, PrintFault, Screen, run};
use std::alloc::AllocError;
use std::process::Abort;
use std::test::Fail;

/// The box has the first and the last of the three nodes.
const EXTRACT: [&str; 4] = ["extract", "--box=0,0,1,1", "a", "b"];

/// The extract of the three dense nodes, from the suite of vectors.
pub(crate) const EXTRACTED: [u8; 111] =
    *b"\x00\x00\x00\x0d\x0a\x09OSMHeader\x18\x39\x0a\x37\x0a\x10\x08\x00\x10\x80\xa8\xd6\xb9\x07\x18\x80\xa8\xd6\xb9\x07\x20\x00\x22\x0eOsmSchema-V0.6\x22\x0aDenseNodes\x82\x01\x06pbfcut\x00\x00\x00\x0b\x0a\x07OSMData\x18\x16\x0a\x14\x0a\x02\x0a\x00\x12\x0e\x12\x0c\x0a\x02\x14\x0a\x42\x02\x02\x00\x4a\x02\x02\x00";

fn opened<R: Abort + AllocGlobal>(rt: &R, pass: u8, file: &[u8]) -> Happened {
    Happened::Opened(copy(rt, b"a"), pass, copy(rt, file))
}

fn read<R: Abort + AllocGlobal>(rt: &R, bytes: &[u8], left: &[u8]) -> Happened {
    Happened::Read(copy(rt, bytes), copy(rt, left), 0)
}

/// What happens before an extract of this file `a` makes `b`, which may replace a file.
pub(crate) fn seeded<R: Abort + AllocGlobal>(
    rt: &R,
    file: &[u8],
    overwrite: bool,
) -> Result<Vec<Happened>, AllocError> {
    let mut events = Vec::new(rt.alloc());
    events.push(Happened::Looked(copy(rt, b"b"), overwrite, false))?;
    events.push(opened(rt, 1, file))?;
    events.push(opened(rt, 2, file))?;
    events.push(opened(rt, 3, file))?;
    events.push(Happened::Seeded(Some(KEY)))?;
    Ok(events)
}

/// What happens before it reads.
fn prepared<R: Abort + AllocGlobal>(rt: &R, file: &[u8]) -> Result<Vec<Happened>, AllocError> {
    let mut events = seeded(rt, file, false)?;
    events.push(Happened::Made(copy(rt, b"b")))?;
    Ok(events)
}

/// Adds the passes, which read the three nodes. No node comes after a way, so nothing is read in the second.
pub(crate) fn add_passes<R: Abort + AllocGlobal>(
    rt: &R,
    events: &mut Vec<Happened>,
) -> Result<(), AllocError> {
    events.push(read(rt, &THREE_DENSE_NODES, &[]))?;
    events.push(read(rt, &[], &THREE_DENSE_NODES))?;
    events.push(read(rt, &THREE_DENSE_NODES, &[]))?;
    Ok(())
}

/// What happens in an extract of the three nodes, of which `b` took this.
fn extracted<R: Abort + AllocGlobal>(
    rt: &R,
    taken: &[u8],
    failures: u64,
) -> Result<Vec<Happened>, AllocError> {
    let mut events = prepared(rt, &THREE_DENSE_NODES)?;
    add_passes(rt, &mut events)?;
    let (name, is_whole) = (copy(rt, b"b"), failures == 0);
    events.push(Happened::Wrote(name, copy(rt, taken), failures, is_whole, None))?;
    Ok(events)
}

/// Whether these words end with this status over this host, and exactly this happened.
fn ends<R: Abort + AllocGlobal>(
    rt: &R,
    host: &mut Recorder<'_, R>,
    given: &[&str],
    status: u8,
    events: &[Happened],
) -> Result<bool, AllocError> {
    let words = owned(rt.alloc(), given)?;
    let ended = run(rt.alloc(), host, Program::Pbfcut, &words);
    Ok(ended == status && host.events.as_slice() == events)
}

/// The same over a file `a` and so much room for OUT.
fn goes<R: Abort + AllocGlobal>(
    rt: &R,
    given: &[&str],
    file: &[u8],
    room: usize,
    status: u8,
    events: &[Happened],
) -> Result<bool, AllocError> {
    let files = [File {
        path: "a",
        bytes: file,
    }];
    let mut host = Recorder::new(rt, &files, room);
    ends(rt, &mut host, given, status, events)
}

#[test]
fn an_extract(rt: HostRuntime) -> Result<(), Fail> {
    let mut events = extracted(&rt, &EXTRACTED, 0)?;
    let counts = copy(&rt, b"nodes 2 ways 0 relations 0\n");
    events.push(Happened::Printed(Screen::Output, counts, None))?;
    assert!(rt; goes(&rt, &EXTRACT, &THREE_DENSE_NODES, 4_096, 0, &events)?);
    Ok(())
}

/// A file whose second frame is cut: nothing is read in the later passes.
#[test]
fn a_refused_file(rt: HostRuntime) -> Result<(), Fail> {
    let file = &THREE_DENSE_NODES[..20];
    let mut events = prepared(&rt, file)?;
    events.push(read(&rt, file, &[]))?;
    events.push(read(&rt, &[], file))?;
    events.push(read(&rt, &[], file))?;
    events.push(Happened::Wrote(copy(&rt, b"b"), copy(&rt, &[]), 0, false, None))?;
    events.push(Happened::Told(copy(&rt, b"pbfcut: refused at 19: 10 PrefixCut\n")))?;
    events.push(Happened::Advised)?;
    assert!(rt; goes(&rt, &EXTRACT, file, 4_096, 1, &events)?);
    Ok(())
}

#[test]
fn a_wrong_command_line(rt: HostRuntime) -> Result<(), Fail> {
    let words = ["extract", "--box=0,0,1", "a", "b"];
    let mut events = Vec::new(rt.alloc());
    events.push(Happened::Told(copy(&rt, b"pbfcut: box: Shape\n")))?;
    events.push(Happened::Advised)?;
    assert!(rt; goes(&rt, &words, &THREE_DENSE_NODES, 4_096, 2, &events)?);
    Ok(())
}

/// OUT takes 100 bytes of the 111, and then a write fails.
#[test]
fn a_failed_write(rt: HostRuntime) -> Result<(), Fail> {
    let mut events = extracted(&rt, &EXTRACTED[..100], 1)?;
    events.push(Happened::Told(copy(&rt, b"pbfcut: write failed\n")))?;
    events.push(Happened::Advised)?;
    assert!(rt; goes(&rt, &EXTRACT, &THREE_DENSE_NODES, 100, 3, &events)?);
    Ok(())
}

/// A disk with the three nodes.
pub(crate) const NODES: [File<'static>; 1] = [File {
    path: "a",
    bytes: &THREE_DENSE_NODES,
}];

/// Another run makes OUT after it was looked for.
#[test]
fn an_out_made_meanwhile(rt: HostRuntime) -> Result<(), Fail> {
    let mut mishaps = Mishaps::none();
    mishaps.another = Some(Moment::Make);
    let mut host = Recorder::beset(&rt, &NODES, 4_096, mishaps);
    let mut events = seeded(&rt, &THREE_DENSE_NODES, false)?;
    events.push(Happened::NotMade(copy(&rt, b"b"), CreateFault::Exists))?;
    events.push(Happened::Told(copy(&rt, b"pbfcut: OUT exists\n")))?;
    events.push(Happened::Advised)?;
    assert!(rt; ends(&rt, &mut host, &EXTRACT, 3, &events)?);
    Ok(())
}

/// Nobody reads the text of `show` any more.
#[test]
fn a_text_that_nobody_reads(rt: HostRuntime) -> Result<(), Fail> {
    let closed = Some(FinishFault::Closed);
    let mut mishaps = Mishaps::none();
    mishaps.screen = closed;
    let mut host = Recorder::beset(&rt, &NODES, 4_096, mishaps);
    let mut events = Vec::new(rt.alloc());
    events.push(opened(&rt, 1, &THREE_DENSE_NODES))?;
    events.push(opened(&rt, 2, &THREE_DENSE_NODES))?;
    events.push(Happened::Screened(true))?;
    events.push(read(&rt, &THREE_DENSE_NODES, &[]))?;
    events.push(read(&rt, &THREE_DENSE_NODES, &[]))?;
    events.push(Happened::WroteScreen(copy(&rt, THREE_LINES.as_bytes()), 0, true, closed))?;
    events.push(Happened::Told(copy(&rt, &[])))?;
    events.push(Happened::Advised)?;
    assert!(rt; ends(&rt, &mut host, &["show", "a"], 141, &events)?);
    Ok(())
}

/// Nobody reads the counts of `check` any more.
#[test]
fn counts_that_nobody_reads(rt: HostRuntime) -> Result<(), Fail> {
    let closed = Some(PrintFault::Closed);
    let mut mishaps = Mishaps::none();
    mishaps.print = closed;
    let mut host = Recorder::beset(&rt, &NODES, 4_096, mishaps);
    let counts = copy(&rt, b"nodes 3 ways 0 relations 0\n");
    let mut events = Vec::new(rt.alloc());
    events.push(opened(&rt, 1, &THREE_DENSE_NODES))?;
    events.push(read(&rt, &THREE_DENSE_NODES, &[]))?;
    events.push(Happened::Printed(Screen::Output, counts, closed))?;
    events.push(Happened::Told(copy(&rt, &[])))?;
    events.push(Happened::Advised)?;
    assert!(rt; ends(&rt, &mut host, &["check", "a"], 141, &events)?);
    Ok(())
}

/// `info --json`.
#[test]
fn info_in_json(rt: HostRuntime) -> Result<(), Fail> {
    let mut host = Recorder::new(&rt, &NODES, 4_096);
    let text =
        b"{\"required\":[],\"optional\":[],\"stored\":\"raw\",\"frames\":{\"OSMHeader\":1,\"OSMData\":1,\"other\":0}}\n";
    let mut events = Vec::new(rt.alloc());
    events.push(opened(&rt, 1, &THREE_DENSE_NODES))?;
    events.push(Happened::Screened(true))?;
    events.push(read(&rt, &THREE_DENSE_NODES, &[]))?;
    events.push(Happened::WroteScreen(copy(&rt, text), 0, true, None))?;
    let words = owned(rt.alloc(), &["info", "--json", "a"])?;
    assert_eq!(rt; run(rt.alloc(), &mut host, Program::Pbfcutz, &words), 0);
    assert_eq!(rt; host.events.as_slice(), events.as_slice());
    Ok(())
}
