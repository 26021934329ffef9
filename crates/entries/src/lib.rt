// The parts of a sheet that have a fixed count of numbers: the header, a node before its operand ids, a difference.
#![tactic(auto)]

ghost use Rattle.std.specs.Prelude.{◌+◌, ◌<◌, ◌≤◌, length};
ghost use Rattle.maps.specs.Limits.{top_range, size_range};
ghost use Rattle.maps.specs.Write.{header_entries, head_entries};
ghost use Rattle.maps.specs.Sizes.{header_bytes_most, head_bytes_most, difference_bytes_most};
ghost use Rattle.records.specs.Rows.{difference_place, difference_entries};
ghost use Rattle.fields.specs.Wrote.{Room, Wrote};

use fields::{Position, put_field, put_in};
use ranges::{Field, range_of, ranges_of};
use records::{NodeRow, code_of, difference_at};
use types::Refusal;

// Writes K, T, H, and how many nodes and differences there are.
pub fn put_header(
    leaves: u32,
    top: u32,
    horizon: u32,
    n: usize,
    m: usize,
    bytes: &mut [u8],
    position: Position,
) -> Result<Position, Refusal>
    requires { Room header_bytes_most bytes.old position }
    ensures { Wrote (header_entries leaves top horizon n m) bytes.old bytes.new position result }
{
    let position = put_field(bytes, position, Field::Leaves, leaves as u64)?;
    let position = put_field(bytes, position, Field::Top, top as u64)?;
    let position = put_field(bytes, position, Field::Horizon, horizon as u64)?;
    let position = put_field(bytes, position, Field::Nodes, n as u64)?;
    put_field(bytes, position, Field::Differences, m as u64)
}

// Writes the numbers of a node before its operand ids, of which there are `count`.
pub fn put_head(
    row: NodeRow,
    top: u32,
    count: usize,
    bytes: &mut [u8],
    position: Position,
) -> Result<Position, Refusal>
    requires { (top ≤ top_range.high) × Room head_bytes_most bytes.old position }
    ensures { Wrote (head_entries top row.kind row.output row.delay row.latency row.clock count) bytes.old bytes.new position result }
{
    let position = put_field(bytes, position, Field::Kind, row.kind as u64)?;
    let position = put_field(bytes, position, Field::Mark, row.output as u64)?;
    let all = ranges_of(row.kind);
    let position = put_in(bytes, position, all.delay.up_to(top), row.delay as u64)?;
    let position = put_in(bytes, position, all.latency, row.latency as u64)?;
    let position = put_in(
        bytes,
        position,
        all.clock_to_q(row.latency, top),
        row.clock as u64,
    )?;
    put_in(bytes, position, all.operands, count as u64)
}

// Writes difference j among n nodes.
pub fn put_difference(
    differences: &[u32],
    j: usize,
    n: u32,
    bytes: &mut [u8],
    position: Position,
) -> Result<Position, Refusal>
    requires { (difference_place (j + 1) ≤ length differences.now) × (0 < n) × (n ≤ size_range.high) × Room difference_bytes_most bytes.old position }
    ensures { Wrote (difference_entries n differences.now j) bytes.old bytes.new position result }
{
    let row = difference_at(differences, j);
    let ids = range_of(Field::Id).up_to(n - 1);
    let position = put_in(bytes, position, ids, row.from as u64)?;
    let position = put_in(bytes, position, ids, row.to as u64)?;
    put_field(bytes, position, Field::Weight, code_of(row.weight) as u64)
}
