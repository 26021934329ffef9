// The sheet writer, under document 02's words for it.
ghost use Rattle.std.specs.Prelude.{length};
ghost use Rattle.records.specs.Rows.{records_in};
ghost use Rattle.demands.specs.Stores.{Stores, StoreBounded};

use out_bytes::Answer;
use planner::maps_write_rows;

// Writes the sheet of records into a buffer.
pub fn store_sheet(
    leaves: u32,
    top: u32,
    horizon: u32,
    nodes: &[u32],
    operands: &[u32],
    differences: &[u32],
    period: u32,
    windows: &[u32],
    buffer: &mut [u8],
) -> Answer
    ensures stores { Stores (records_in leaves top horizon nodes.now operands.now differences.now period windows.now)
        buffer.old result.number result.place buffer.new }
    ensures bounds { StoreBounded (length buffer.old) result.number result.place }
{
    maps_write_rows(
        leaves,
        top,
        horizon,
        nodes,
        operands,
        differences,
        period,
        windows,
        buffer,
    )
}
