// The call that imports a BLIF text.
ghost use Rattle.std.specs.Prelude.{length};
ghost use Rattle.out_bytes.specs.Outcome.{Answered};
ghost use Rattle.blif.specs.Limits.{caller};
ghost use Rattle.blif.specs.Import.{importing};

use importer::import_blif;
use out_bytes::Answer;

pub fn maps_import(
    text: &[u8],
    leaves: u32,
    top: u32,
    horizon: u32,
    table: u32,
    level: u32,
    sheet: &mut [u8],
) -> Answer
    ensures { Answered (importing text.now (caller leaves top horizon table level) (length sheet.old))
        result.number result.place sheet.old sheet.new }
{
    import_blif(text, leaves, top, horizon, table, level, sheet).into()
}
