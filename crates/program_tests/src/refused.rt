//! Each call of a host refused in turn: what a run leaves then.

use crate::disk::{File, Mishaps};
use crate::happened::Happened;
use crate::parts::{CUT, CUT_OVER, CUT_THERE, NODES_AND_OUT, OLD};
use crate::recorder::Recorder;
use crate::runs::{EXTRACTED, NODES};
use crate::words::owned;
use pbfcut_cli::Program;
use pbfcut_program::{NameFault, run};
use std::alloc::AllocError;
use std::process::Abort;
use std::test::Fail;

/// More calls than a run makes.
const MOST: u64 = 100;

/// A program with its words, and the files that are there before.
#[derive(Clone, Copy)]
struct Run<'a> {
    program: Program,
    words: &'a [&'a str],
    files: &'a [File<'a>],
    mishaps: Mishaps,
}

/// Whether OUT got its name.
fn is_named(events: &[Happened]) -> bool {
    events.iter().any(|event| {
        matches!(
            event,
            Happened::Linked(_, _) | Happened::Moved(_, _) | Happened::Renamed(_, _)
        )
    })
}

/// Whether a part couldn't be removed.
fn has_stayed(events: &[Happened]) -> bool {
    events
        .iter()
        .any(|event| matches!(event, Happened::Stays(_)))
}

/// How a run ends whose call of this number is refused, and its host.
fn refused<'a, R: Abort + AllocGlobal>(
    rt: &'a R,
    one: Run<'_>,
    number: u64,
) -> Result<(u8, Recorder<'a, R>), AllocError> {
    let mut mishaps = one.mishaps;
    mishaps.failing = Some(number);
    let mut host = Recorder::beset(rt, one.files, 4_096, mishaps);
    let words = owned(rt.alloc(), one.words)?;
    let status = run(rt.alloc(), &mut host, one.program, &words);
    Ok((status, host))
}

/// Whether OUT is whole if it got its name, and what it was if not; and whether no other file is there but a part that couldn't be removed.
fn is_in_place<R: Abort + AllocGlobal>(
    host: &Recorder<'_, R>,
    status: u8,
    old: Option<&[u8]>,
) -> bool {
    let named = is_named(&host.events);
    let wanted = if named {
        Some(EXTRACTED.as_slice())
    } else {
        old
    };
    let files = 1 + wanted.is_some() as usize + has_stayed(&host.events) as usize;
    host.disk.find("b") == wanted && host.disk.count() == files && (named || status != 0)
}

/// How many calls a run makes, each of which is refused in turn.
fn refuse_each(rt: &(impl Abort + AllocGlobal), one: Run<'_>) -> Result<u64, Fail> {
    let old = if one.files.len() == 2 {
        Some(OLD)
    } else {
        None
    };
    for number in 0..MOST {
        let (status, host) = refused(rt, one, number)?;
        assert!(rt; is_in_place(&host, status, old), "{number}: {status}");
        if host.disk.calls <= number {
            return Ok(number);
        }
    }
    Ok(MOST)
}

/// IN is opened three times; a seed; `replaces`, `make`, `sync`; a link and a removal, and `sync_name`; the counts. The same without links.
#[test]
fn a_new_out(rt: HostRuntime) -> Result<(), Fail> {
    let mut without_links = Mishaps::none();
    without_links.link = Some(NameFault::Failed);
    for mishaps in [Mishaps::none(), without_links] {
        let one = Run {
            program: Program::Pbfcutz,
            words: &CUT,
            files: &NODES,
            mishaps,
        };
        assert_eq!(rt; refuse_each(&rt, one)?, 11);
    }
    Ok(())
}

/// A rename takes the place of a link and a removal, if there is an OUT.
#[test]
fn an_out_that_is_replaced(rt: HostRuntime) -> Result<(), Fail> {
    let files: [(&[File<'_>], u64); 2] = [(&NODES_AND_OUT, 10), (&NODES, 11)];
    for (files, calls) in files {
        let one = Run {
            program: Program::Pbfcutz,
            words: &CUT_OVER,
            files,
            mishaps: Mishaps::none(),
        };
        assert_eq!(rt; refuse_each(&rt, one)?, calls);
    }
    Ok(())
}

/// Of pbfcut OUT is there as soon as it is made: IN is opened three times; a seed; `make`, `sync`; the counts.
#[test]
fn an_out_of_pbfcut(rt: HostRuntime) -> Result<(), Fail> {
    let one = Run {
        program: Program::Pbfcut,
        words: &CUT_THERE,
        files: &NODES,
        mishaps: Mishaps::none(),
    };
    for number in 0..8 {
        let (status, host) = refused(&rt, one, number)?;
        let wanted = (number > 4).then_some(EXTRACTED.as_slice());
        assert_eq!(rt; host.disk.find("b"), wanted, "{number}");
        assert_eq!(rt; status == 0, number == 7, "{number}");
        assert_eq!(rt; host.disk.calls <= number, number == 7, "{number}");
    }
    Ok(())
}
