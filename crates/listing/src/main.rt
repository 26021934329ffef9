// Reads a sheet from standard input, stopping after 16,384 bytes, and prints the listing of its plan or the line of its refusal.
#![tactic(auto)]

use report::{read_full, report};
use std::io;

fn main(rt: HostRuntime) -> io::Result<()> {
    let mut sheet = [0u8; 16384];
    let n = read_full(&mut rt.stdin(), &mut sheet)?;
    report(&mut rt.stdout(), &sheet[..n])?;
    Ok(())
}
