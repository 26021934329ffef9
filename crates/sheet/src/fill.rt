// Reads nodes, differences and windows into the two tables.
ghost use Rattle.std.specs.Prelude.{◌≡◌, ◌+◌, ◌≤◌, ◌<◌, length};
ghost use Rattle.maps.specs.Limits.{top_range, size_range, period_range};
ghost use Rattle.sheet.specs.Code.{progress_meant};
ghost use Rattle.rows.specs.Table.{node_place, operand_place, difference_place, boxes_in};
ghost use Rattle.sheet.specs.Fill.{filled, operand_into, operands_into, node_into, nodes_into, difference_into, differences_into, windows_into};

use crate::node::{difference_at, head_at};
use number::{Cursor, Read, operand_at};
use rows::{store_difference, store_head, store_operand, store_window};
use types::Refusal;
use window_read::window_at;

// Reads the operand i of the node own.
#[tactic(auto, unfolding(crate::specs::Fill::operand_into, crate::specs::Fill::got_on))]
pub fn read_operand(
    sheet: &[u8],
    c: Cursor,
    own: u32,
    i: u32,
    graph: &mut [u32],
) -> Result<Cursor, Refusal>
    requires { operand_place own + i < length graph.old }
    ensures { filled (progress_meant result) graph.new ≡ operand_into sheet.now own (operand_place own) i c.at graph.old }
{
    let Read { value, next } = operand_at(sheet, c, own)?;
    store_operand(graph, own, i, value);
    Ok(next)
}

// Reads count operands of the node own into its row.
pub fn read_operands(
    sheet: &[u8],
    c: Cursor,
    own: u32,
    count: u32,
    graph: &mut [u32],
) -> Result<Cursor, Refusal>
    requires { operand_place own + count ≤ length graph.old }
    ensures { filled (progress_meant result) graph.new ≡ operands_into sheet.now own (operand_place own) count c.at graph.old }
{
    let mut at = c;
    for i in 0..count {
        at = read_operand(sheet, at, own, i, graph)?;
    }
    Ok(at)
}

// Reads the node own into its row.
#[tactic(auto, unfolding(crate::specs::Fill::node_into, crate::specs::Fill::got_on))]
pub fn read_node(
    sheet: &[u8],
    c: Cursor,
    top: u32,
    own: u32,
    graph: &mut [u32],
) -> Result<Cursor, Refusal>
    requires { (top ≤ top_range.high) × (node_place (own + 1) ≤ length graph.old) }
    ensures { filled (progress_meant result) graph.new ≡ node_into sheet.now top own c.at graph.old }
{
    let (node, next) = head_at(sheet, c, top)?;
    store_head(graph, own, node);
    read_operands(sheet, next, own, node.operands, graph)
}

// Reads the nodes 0 to n - 1 into the table.
pub fn read_nodes(
    sheet: &[u8],
    c: Cursor,
    top: u32,
    n: u32,
    graph: &mut [u32],
) -> Result<Cursor, Refusal>
    requires { (top ≤ top_range.high) × (node_place n ≤ length graph.old) }
    ensures { filled (progress_meant result) graph.new ≡ nodes_into sheet.now top n c.at graph.old }
{
    let mut at = c;
    for own in 0..n {
        at = read_node(sheet, at, top, own, graph)?;
    }
    Ok(at)
}

// Reads the difference i into its row.
#[tactic(auto, unfolding(crate::specs::Fill::difference_into, crate::specs::Fill::got_on))]
pub fn read_difference(
    sheet: &[u8],
    c: Cursor,
    n: u32,
    i: u32,
    table: &mut [u32],
) -> Result<Cursor, Refusal>
    requires { (0 < n) × (n ≤ size_range.high) × (difference_place (i + 1) ≤ length table.old) }
    ensures { filled (progress_meant result) table.new ≡ difference_into sheet.now n i c.at table.old }
{
    let (difference, next) = difference_at(sheet, c, n)?;
    store_difference(table, i, difference);
    Ok(next)
}

// Reads m differences into the table.
pub fn read_differences(
    sheet: &[u8],
    c: Cursor,
    n: u32,
    m: u32,
    table: &mut [u32],
) -> Result<Cursor, Refusal>
    requires { (0 < n) × (n ≤ size_range.high) × (difference_place m ≤ length table.old) }
    ensures { filled (progress_meant result) table.new ≡ differences_into sheet.now n m c.at table.old }
{
    let mut at = c;
    for i in 0..m {
        at = read_difference(sheet, at, n, i, table)?;
    }
    Ok(at)
}

// Reads count entries, each into the row of its node.
pub fn read_windows(
    sheet: &[u8],
    c: Cursor,
    n: u32,
    period: u32,
    count: u32,
    graph: &mut [u32],
) -> Result<Cursor, Refusal>
    requires { (0 < n) × (n ≤ size_range.high) × (node_place n ≤ length graph.old) × (0 < period) × (period ≤ period_range.high) }
    ensures { filled (progress_meant result) graph.new ≡ windows_into sheet.now n (boxes_in graph.old) period count 0 c.at graph.old }
{
    let mut at = c;
    let mut low = 0;
    for _ in 0..count {
        let (entry, next) = window_at(sheet, at, n, period, low, graph)?;
        store_window(graph, entry.id, entry.window);
        low = entry.id + 1;
        at = next;
    }
    Ok(at)
}
