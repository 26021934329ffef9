// The importer, under document 02's words for it.
ghost use Rattle.std.specs.Prelude.{length};
ghost use Rattle.blif.specs.Limits.{caller};
ghost use Rattle.demands.specs.Imports.{Imports, ImportBounded};

use out_bytes::Answer;
use planner::maps_import;

// Imports the BLIF model of a text as a sheet into a buffer.
pub fn import_model(
    text: &[u8],
    leaves: u32,
    top: u32,
    horizon: u32,
    table: u32,
    level: u32,
    sheet: &mut [u8],
) -> Answer
    ensures imports { Imports text.now (caller leaves top horizon table level)
        sheet.old result.number result.place sheet.new }
    ensures bounds { ImportBounded (length sheet.old) result.number result.place }
{
    maps_import(text, leaves, top, horizon, table, level, sheet)
}
