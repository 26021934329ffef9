// The listing of a sheet's plan, or the line of its refusal, on a writer, and the reading of a whole input.
#![tactic(auto)]

ghost use Rattle.std.specs.Prelude.{◌≡◌, ◌++◌, IfOk, OnOk, codes, decimal};
ghost use Rattle.std.specs.Io.KnownBytes.{Appends};
ghost use Rattle.maps.specs.Outcome.{outcome, outcome_number};
ghost use Rattle.types.specs.Code.{number_of, place_of};

use number::{Cursor, Read, number_at};
use std::io;
use std::io::Write;
use types::Refusal;

mod input;

pub use input::read_full;

// The next number of the plan; past the end, 0 at the end.
fn next_item(plan: &[u8], c: Cursor) -> Read {
    let end = Cursor { at: plan.len() };
    number_at(plan, c).unwrap_or(Read {
        value: 0,
        next: end,
    })
}

// A space and a number.
fn print_next<W: Write>(out: &mut W, n: u32) -> io::Result<()> {
    write!(out, " {n}")
}

// The leaves, each behind a space; where the next number begins.
fn print_leaves<W: Write>(out: &mut W, plan: &[u8], c: Cursor, count: u32) -> io::Result<Cursor> {
    let mut at = c;
    for _ in 0..count {
        let leaf = next_item(plan, at);
        print_next(out, leaf.value)?;
        at = leaf.next;
    }
    Ok(at)
}

// The line of node id: id, step, level, `used` or `idle`, leaves.
fn print_node<W: Write>(out: &mut W, plan: &[u8], c: Cursor, id: u32) -> io::Result<Cursor> {
    let step = next_item(plan, c);
    let level = next_item(plan, step.next);
    let mark = next_item(plan, level.next);
    let count = next_item(plan, mark.next);
    write!(out, "{id}")?;
    print_next(out, step.value)?;
    print_next(out, level.value)?;
    if mark.value == 1 {
        out.write_all(b" used")?;
    } else {
        out.write_all(b" idle")?;
    }
    let end = print_leaves(out, plan, count.next, count.value)?;
    out.write_all(b"\n")?;
    Ok(end)
}

// The listing: the latency, then the nodes until the plan ends.
fn print_plan<W: Write>(out: &mut W, plan: &[u8]) -> io::Result<()> {
    let latency = next_item(plan, Cursor { at: 0 });
    out.write_all(b"latency")?;
    print_next(out, latency.value)?;
    out.write_all(b"\n")?;
    let mut at = latency.next;
    for id in 0..256u32 {
        if at.at >= plan.len() {
            return Ok(());
        }
        at = print_node(out, plan, at, id)?;
    }
    Ok(())
}

// The listing of the plan in the first n bytes.
fn print_first<W: Write>(out: &mut W, bytes: &[u8], n: usize) -> io::Result<()> {
    if n <= bytes.len() {
        return print_plan(out, &bytes[..n]);
    }
    Ok(())
}

// Prints the line of a refusal: number, then place; the number. An error is the writer's, and leaves it with what it took.
pub fn print_refusal<W: Write>(out: &mut W, why: Refusal) -> io::Result<u32>
    ensures number { IfOk result (λ n. n ≡ number_of why) }
    ensures line { OnOk result (Appends (W.contents out.old) (W.contents out.new)
        (codes "refused " ++ decimal (number_of why) ++ codes " " ++ decimal (place_of why) ++ codes "\n")) }
{
    let number = why.number();
    let place = why.place();
    writeln!(out, "refused {number} {place}")?;
    Ok(number)
}

// Plans a sheet and prints what came of it, the listing or the line of the refusal; its number. An error is the
// writer's, and leaves it with what it took.
pub fn report<W: Write>(out: &mut W, sheet: &[u8]) -> io::Result<u32>
    ensures { IfOk result (λ n. n ≡ outcome_number (outcome sheet.now 8192)) }
{
    let mut buffer = [0u8; 8192];
    match planner::plan(sheet, &mut buffer) {
        Err(why) => print_refusal(out, why),
        Ok(n) => {
            print_first(out, &buffer, n)?;
            Ok(0)
        }
    }
}
