// The nodes, the differences and the windows of a sheet.
ghost use Rattle.std.specs.Prelude.{◌≡◌, map, ◌+◌, ◌*◌, ◌<◌, ◌≤◌, length, take, drop};
ghost use Rattle.maps.specs.Lists.{below, concat};
ghost use Rattle.maps.specs.Limits.{top_range, size_range, period_range};
ghost use Rattle.maps.specs.Form.{under};
ghost use Rattle.maps.specs.Write.{entry, cycle_numbers};
ghost use Rattle.maps.specs.Sizes.{id_bytes_most, node_bytes_most, difference_bytes_most, window_bytes_most, cycle_bytes_most};
ghost use Rattle.records.specs.Rows.{node_place, difference_place, window_place, end_of, node_entries, difference_entries, window_entries, windows_in, box_at};
ghost use Rattle.fields.specs.Wrote.{Room, Wrote};

use entries::{put_difference, put_head};
use fields::{Position, put_operand};
use records::{end_of, node_at, window_at, window_count};
use types::Refusal;
use window_write::{put_period, put_window};

// Writes the operands of the node own: `count` of them from `first` on.
pub fn put_operands(
    operands: &[u32],
    first: usize,
    count: usize,
    own: u32,
    bytes: &mut [u8],
    position: Position,
) -> Result<Position, Refusal>
    requires { (first + count ≤ length operands.now) × (own ≤ size_range.high) × Room (count * id_bytes_most) bytes.old position }
    ensures { Wrote (map (entry (under own)) (take count (drop first operands.now))) bytes.old bytes.new position result }
{
    let mut to = position;
    for &id in &operands[first..first + count] {
        to = put_operand(bytes, to, own, id)?;
    }
    Ok(to)
}

// Writes node v, whose operands are those from `first` on.
pub fn put_node(
    nodes: &[u32],
    operands: &[u32],
    v: usize,
    first: usize,
    top: u32,
    bytes: &mut [u8],
    position: Position,
) -> Result<Position, Refusal>
    requires v_in_bounds { (node_place (v + 1) ≤ length nodes.now) × (v < size_range.high) × (first ≡ end_of nodes.now operands.now v) }
    requires top_le_high { (top ≤ top_range.high) × Room node_bytes_most bytes.old position }
    ensures { Wrote (node_entries top nodes.now operands.now v) bytes.old bytes.new position result }
{
    let count = end_of(nodes, operands, v).saturating_sub(first);
    let position = put_head(node_at(nodes, v), top, count, bytes, position)?;
    put_operands(operands, first, count, v as u32, bytes, position)
}

// Writes n nodes.
pub fn put_nodes(
    nodes: &[u32],
    operands: &[u32],
    n: usize,
    top: u32,
    bytes: &mut [u8],
    position: Position,
) -> Result<Position, Refusal>
    requires { (node_place n ≤ length nodes.now) × (n ≤ size_range.high) × (top ≤ top_range.high) × Room (n * node_bytes_most) bytes.old position }
    ensures { Wrote (concat (map (node_entries top nodes.now operands.now) (below n))) bytes.old bytes.new position result }
{
    let mut to = position;
    let mut first = 0;
    for v in 0..n {
        to = put_node(nodes, operands, v, first, top, bytes, to)?;
        first = end_of(nodes, operands, v);
    }
    Ok(to)
}

// Writes m differences among n nodes.
pub fn put_differences(
    differences: &[u32],
    m: usize,
    n: u32,
    bytes: &mut [u8],
    position: Position,
) -> Result<Position, Refusal>
    requires { (difference_place m ≤ length differences.now) × (0 < n) × (n ≤ size_range.high) × Room (m * difference_bytes_most) bytes.old position }
    ensures { Wrote (concat (map (difference_entries n differences.now) (below m))) bytes.old bytes.new position result }
{
    let mut to = position;
    for j in 0..m {
        to = put_difference(differences, j, n, bytes, to)?;
    }
    Ok(to)
}

// Writes k windows among n nodes.
pub fn put_windows(
    nodes: &[u32],
    windows: &[u32],
    k: usize,
    n: u32,
    period: u32,
    bytes: &mut [u8],
    position: Position,
) -> Result<Position, Refusal>
    requires { (window_place k ≤ length windows.now) × (0 < n) × (n ≤ size_range.high) × (0 < period) × (period ≤ period_range.high) × Room (k * window_bytes_most) bytes.old position }
    ensures { Wrote (concat (map (window_entries n (box_at nodes.now) period windows.now) (below k))) bytes.old bytes.new position result }
{
    let mut to = position;
    let mut low = 0;
    for j in 0..k {
        to = put_window(nodes, windows, j, low, n, period, bytes, to)?;
        low = window_at(windows, j).id + 1;
    }
    Ok(to)
}

// Writes the period and the windows of a sheet of n nodes.
pub fn put_cycle(
    nodes: &[u32],
    windows: &[u32],
    n: u32,
    period: u32,
    bytes: &mut [u8],
    position: Position,
) -> Result<Position, Refusal>
    requires { (0 < n) × (n ≤ size_range.high) × Room cycle_bytes_most bytes.old position }
    ensures { Wrote (cycle_numbers n (box_at nodes.now) period (windows_in windows.now)) bytes.old bytes.new position result }
{
    let k = window_count(windows);
    let position = put_period(period, k, n, bytes, position)?;
    put_windows(nodes, windows, k, n, period, bytes, position)
}
