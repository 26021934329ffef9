// Imports a BLIF text from standard input, with K, T, H, a table's and a level's picoseconds as arguments, and writes its sheet to standard output. The
// line of a refusal goes to standard error, so that a pipe has sheets only.
#![tactic(auto)]

use report::{print_refusal, read_full};
use std::env::FillError;
use std::io;
use std::io::Write;
use std::rt::Env;

// The number that decimal digits spell, where it has 32 bits.
fn number_of(word: &[u8]) -> Option<u32> {
    if word.is_empty() {
        return None;
    }
    let mut value: u32 = 0;
    for digit in word {
        if !digit.is_ascii_digit() {
            return None;
        }
        value = value
            .checked_mul(10)?
            .checked_add(u32::from(*digit - b'0'))?;
    }
    Some(value)
}

// Argument i of the program; one that is missing or longer than 16 bytes is no number.
fn argument_at(rt: &impl Env, i: usize) -> Option<u32> {
    let mut word = [0u8; 16];
    let n = rt.arg(i, &mut word).ok()?;
    number_of(&word[..n])
}

// Whether the program has an argument i.
fn has_argument(rt: &impl Env, i: usize) -> bool {
    let mut word = [0u8; 16];
    !matches!(rt.arg(i, &mut word), Err(FillError::NotPresent))
}

fn usage<E: Write>(errors: &mut E) -> io::Result<()> {
    errors.write_all(b"usage: import K T H TABLE LEVEL < model.blif > sheet\n")
}

// Writes the first n bytes of the sheet.
fn write_first<W: Write>(out: &mut W, sheet: &[u8], n: usize) -> io::Result<()> {
    if n <= sheet.len() {
        return out.write_all(&sheet[..n]);
    }
    Ok(())
}

// Imports the text on standard input, stopping one byte past the longest that can be.
fn run(
    rt: HostRuntime,
    leaves: u32,
    top: u32,
    horizon: u32,
    table: u32,
    level: u32,
) -> io::Result<()> {
    let mut text = [0u8; 65537];
    let mut sheet = [0u8; 13068];
    let n = read_full(&mut rt.stdin(), &mut text)?;
    match importer::import_blif(&text[..n], leaves, top, horizon, table, level, &mut sheet) {
        Ok(length) => write_first(&mut rt.stdout(), &sheet, length),
        Err(why) => {
            print_refusal(&mut rt.stderr(), why)?;
            Ok(())
        }
    }
}

fn main(rt: HostRuntime) -> io::Result<()> {
    let mut errors = rt.stderr();
    if has_argument(&rt, 6) {
        return usage(&mut errors);
    }
    let (Some(leaves), Some(top), Some(horizon), Some(table), Some(level)) = (
        argument_at(&rt, 1),
        argument_at(&rt, 2),
        argument_at(&rt, 3),
        argument_at(&rt, 4),
        argument_at(&rt, 5),
    ) else {
        return usage(&mut errors);
    };
    run(rt, leaves, top, horizon, table, level)
}
