//! The conformance suite over devices in memory: a program that reads its folder `data/` and makes each call on each case.
#![tactic(auto)]

mod bytes;
mod devices;
mod faults;
mod list;
mod run;
mod supply;
mod trouble;

use bytes::loaded;
use list::{Row, row_of};
use run::CALLS;
use std::fs;
use std::process::ExitCode;
use trouble::Trouble;

/// The list of the cases. `vectors/run.py index` writes it.
const LIST: &str = "list";

/// Devices fail, and bytes change, over files of at most so many bytes.
const SMALL: usize = 1_000;

/// One of so many rows is cut and changed at each byte.
const CHANGED: u64 = 24;

/// Everything over one row; `number` is its place in the list.
fn try_row(rt: &HostRuntime, row: &Row<'_>, number: u64) -> Result<(), Trouble> {
    let input = loaded(rt, row.name, row.input)?;
    let small = input.len() <= SMALL;
    for call in CALLS {
        let wanted = match row.file(call) {
            Some(file) => loaded(rt, row.name, file)?,
            None => Vec::new(rt.alloc()),
        };
        supply::holds(rt.alloc(), row, call, &input, &wanted)?;
        if small {
            devices::each_read_fails(rt.alloc(), row, call, &input, &wanted)?;
            devices::each_write_fails(rt.alloc(), row, call, &input, &wanted)?;
            devices::each_pass_changes(rt.alloc(), row, call, &input)?;
        }
        if small && number % CHANGED == 0 {
            faults::same_however_supplied(rt.alloc(), row, call, &input)?;
        }
    }
    Ok(())
}

/// Runs all rows of the list; returns how many.
fn try_rows(rt: &HostRuntime, text: &str) -> Result<u64, Trouble> {
    let mut count = 0_u64;
    for line in text.lines() {
        let row = row_of(line)?;
        if let Err(trouble) = try_row(rt, &row, count) {
            let _ = eprintln!(rt; "{}: {}", row.name, trouble.text());
            return Err(trouble);
        }
        count = count.saturating_add(1);
    }
    Ok(count)
}

fn work(rt: &HostRuntime) -> Result<u64, Trouble> {
    let Ok(text) = fs::read_to_string(rt, LIST) else {
        return Err(Trouble::File);
    };
    try_rows(rt, text.as_str())
}

fn main(rt: HostRuntime) -> ExitCode {
    match work(&rt) {
        Ok(count) => {
            let _ = println!(rt; "{count} cases are as they are to be");
            ExitCode::SUCCESS
        }
        Err(trouble) => {
            let _ = eprintln!(rt; "pbf_vectors: {}", trouble.text());
            ExitCode::FAILURE
        }
    }
}
