// Reads a sheet from standard input, stopping after 16,384 bytes, and prints the line of its refusal or, for each logic node with the output mark, a
// line on its cone with all logic that can be inside: the leaves of its cut, and how many operands are looked at by a walk to the end (before) and
// by the test whether the cut fits (now).
#![tactic(auto)]

ghost use Rattle.std.specs.Prelude.{◌+◌, ◌<◌, ◌≤◌, IfSome, unwrap_or};
ghost use Rattle.rows.specs.Table.{Falling};
ghost use Rattle.looks.specs.Counted.{Counted};

use counting::{all_looks, cut_fits};
use report::{print_refusal, read_full};
use rows::{Graph, Tables, kind_in, output_in};
use sheet::read_sheet;
use std::io;
use std::io::Write;
use types::Kind;

// Marks the logic nodes.
fn mark_logic(graph: &Graph, marks: &mut [bool; 256]) {
    for u in 0..256u32 {
        marks[u as usize] = matches!(kind_in(graph, u), Kind::Logic);
    }
}

// The number of leaves, or that it is more than k.
fn print_leaves<W: Write>(out: &mut W, leaves: Option<u32>, k: u32) -> io::Result<()> {
    match leaves {
        Some(count) => write!(out, "{count}"),
        None => write!(out, "more than {k}"),
    }
}

// What is shown of a cone: the number of leaves of its cut, where they are at most k, and of the operands looked at.
#[derive(Clone, Copy)]
struct Counts {
    leaves: Option<u32>,
    before: u32,
    now: u32,
}

// The counts of the cone of v inside the marks.
fn count_cone(graph: &Graph, marks: &[bool; 256], v: u32, k: u32) -> Counts
    requires falling { Falling graph.now }
    requires v_bound { v < 256 }
    requires k_bound { k < 8 }
    ensures most { IfSome result.leaves (λ n. n ≤ k) }
    ensures counted { Counted graph.now marks.now v k (unwrap_or result.leaves (k + 1)) result.before result.now }
{
    let mut cut = [0u32; 8];
    let mut looked: u32 = 0;
    let before = all_looks(graph, marks, v);
    let leaves = cut_fits(graph, marks, &mut cut, &mut looked, v, k);
    Counts {
        leaves,
        before,
        now: looked,
    }
}

// The line of node v.
fn show<W: Write>(out: &mut W, graph: &Graph, marks: &[bool; 256], v: u32, k: u32) -> io::Result<()>
    requires falling { Falling graph.now }
    requires v_bound { v < 256 }
    requires k_bound { k < 8 }
{
    let found = count_cone(graph, marks, v, k);
    let before = found.before;
    let now = found.now;
    write!(out, "node {v}: ")?;
    print_leaves(out, found.leaves, k)?;
    writeln!(
        out,
        " leaves; operands looked at: {before} before, {now} now"
    )
}

// The lines of the logic nodes that are outputs.
fn show_nodes<W: Write>(out: &mut W, graph: &Graph, n: u32, k: u32) -> io::Result<()>
    requires falling { Falling graph.now }
    requires n_bound { n ≤ 256 }
    requires k_bound { k < 8 }
{
    let mut marks = [false; 256];
    mark_logic(graph, &mut marks);
    for v in 0..n {
        if marks[v as usize] && output_in(graph, v) {
            show(out, graph, &marks, v, k)?;
        }
    }
    Ok(())
}

// The lines of a sheet.
fn show_sheet<W: Write>(out: &mut W, bytes: &[u8]) -> io::Result<()> {
    let mut tables = Tables::EMPTY;
    match read_sheet(bytes, &mut tables) {
        Ok(header) => show_nodes(out, &tables.graph, header.nodes, header.leaves),
        Err(why) => {
            print_refusal(out, why)?;
            Ok(())
        }
    }
}

fn main(rt: HostRuntime) -> io::Result<()> {
    let mut bytes = [0u8; 16384];
    let n = read_full(&mut rt.stdin(), &mut bytes)?;
    show_sheet(&mut rt.stdout(), &bytes[..n])
}
