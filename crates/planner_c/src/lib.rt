// The calls of the library for C: each answers what the library's call answers.
#![tactic(auto)]

ghost use Rattle.std.specs.Prelude.{length};
ghost use Rattle.maps.specs.Outcome.{outcome};
ghost use Rattle.maps.specs.Write.{writing};
ghost use Rattle.blif.specs.Limits.{caller};
ghost use Rattle.blif.specs.Import.{importing};
ghost use Rattle.records.specs.Rows.{records_in};
ghost use Rattle.out_bytes.specs.Outcome.{Answered};

use out_bytes::Answer;

#[unsafe(no_mangle)]
pub extern "C" fn maps_plan(sheet: &[u8], buffer: &mut [u8]) -> Answer
    ensures { Answered (outcome sheet.now (length buffer.old)) result.number result.place buffer.old buffer.new }
{
    planner::maps_plan(sheet, buffer)
}

#[unsafe(no_mangle)]
pub extern "C" fn maps_write_rows(
    leaves: u32,
    top: u32,
    horizon: u32,
    nodes: &[u32],
    operands: &[u32],
    differences: &[u32],
    period: u32,
    windows: &[u32],
    buffer: &mut [u8],
) -> Answer
    ensures { Answered (writing (records_in leaves top horizon nodes.now operands.now differences.now period windows.now) (length buffer.old))
        result.number result.place buffer.old buffer.new }
{
    planner::maps_write_rows(
        leaves,
        top,
        horizon,
        nodes,
        operands,
        differences,
        period,
        windows,
        buffer,
    )
}

#[unsafe(no_mangle)]
pub extern "C" fn maps_import(
    text: &[u8],
    leaves: u32,
    top: u32,
    horizon: u32,
    table: u32,
    level: u32,
    sheet: &mut [u8],
) -> Answer
    ensures { Answered (importing text.now (caller leaves top horizon table level) (length sheet.old))
        result.number result.place sheet.old sheet.new }
{
    planner::maps_import(text, leaves, top, horizon, table, level, sheet)
}
