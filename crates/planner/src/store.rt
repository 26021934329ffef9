// The call that writes a sheet.
ghost use Rattle.std.specs.Prelude.{length};
ghost use Rattle.maps.specs.Write.{writing};
ghost use Rattle.out_bytes.specs.Outcome.{Answered};
ghost use Rattle.records.specs.Rows.{records_in};

use out_bytes::Answer;
use records::Records;
use writer::write;

pub fn maps_write_rows(
    leaves: u32,
    top: u32,
    horizon: u32,
    nodes: &[u32],
    operands: &[u32],
    differences: &[u32],
    period: u32,
    windows: &[u32],
    buffer: &mut [u8],
) -> Answer
    ensures { Answered (writing (records_in leaves top horizon nodes.now operands.now differences.now period windows.now) (length buffer.old))
        result.number result.place buffer.old buffer.new }
{
    let records = Records {
        leaves,
        top,
        horizon,
        nodes,
        operands,
        differences,
        period,
        windows,
    };
    write(&records, buffer).into()
}
