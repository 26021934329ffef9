// Texts of document 02's BLIF on standard input, a byte 28 between two: each is imported for K = 4, T = 8, H = 9 and d = 2, and its sheet printed as
// numbers, or the line of its refusal.
#![tactic(auto)]

use report::{print_refusal, read_full};
use std::io;
use std::io::Write;

const SEPARATOR: u8 = 28;

// A space and a number.
fn print_next<W: Write>(out: &mut W, n: u8) -> io::Result<()> {
    write!(out, " {n}")
}

// The first n numbers, each behind a space.
fn print_first<W: Write>(out: &mut W, sheet: &[u8], n: usize) -> io::Result<()> {
    for number in sheet.iter().take(n) {
        print_next(out, *number)?;
    }
    Ok(())
}

// Imports a text and prints what came of it.
fn show<W: Write>(out: &mut W, text: &[u8]) -> io::Result<()> {
    let mut sheet = [0u8; 256];
    match importer::import_blif(text, 4, 8, 9, 1000, 500, &mut sheet) {
        Ok(n) => {
            out.write_all(b"sheet")?;
            print_first(out, &sheet, n)?;
            out.write_all(b"\n")
        }
        Err(why) => {
            print_refusal(out, why)?;
            Ok(())
        }
    }
}

// Shows the texts one after the other.
fn show_all<W: Write>(out: &mut W, texts: &[u8]) -> io::Result<()> {
    for text in texts.split(|byte| *byte == SEPARATOR) {
        show(out, text)?;
    }
    Ok(())
}

fn main(rt: HostRuntime) -> io::Result<()> {
    let mut texts = [0u8; 16384];
    let n = read_full(&mut rt.stdin(), &mut texts)?;
    show_all(&mut rt.stdout(), &texts[..n])
}
