//! One pass of SHA-256 over standard input, with which docs/PERFORMANCE.md compares its times. It prints the digest.
#![tactic(auto)]

use sha2::{Digest, Sha256};
use std::io::{self, Read};

/// How many bytes are read at a time.
const PIECE: usize = 65_536;

fn main(rt: HostRuntime) -> io::Result<()> {
    let mut piece = Vec::new(rt.alloc());
    piece.resize(PIECE, 0)?;
    let mut hasher = Sha256::new();
    let mut input = rt.stdin();
    for _ in 0..u64::MAX {
        let count = input.read(&mut piece)?;
        if count == 0 {
            break;
        }
        hasher.update(&piece[..count]);
    }
    for byte in hasher.finalize() {
        print!(rt; "{byte:02x}")?;
    }
    println!(rt;)?;
    Ok(())
}
