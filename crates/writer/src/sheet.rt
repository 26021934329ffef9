// The sheet of records, whole.
ghost use Rattle.std.specs.Prelude.{◌≡◌, length};
ghost use Rattle.maps.specs.Write.{numbers, writing};
ghost use Rattle.maps.specs.Sizes.{sheet_most};
ghost use Rattle.out_bytes.specs.Outcome.{Answered, number_answered, place_answered};
ghost use Rattle.records.specs.Rows.{records_of};
ghost use Rattle.fields.specs.Wrote.{start, Wrote};

use crate::parts::{put_cycle, put_differences, put_nodes};
use entries::put_header;
use fields::Position;
use out_bytes::hand_over;
use records::{Records, difference_count, node_count};
use types::Refusal;

// Room for the longest sheet.
pub type SheetBytes = [u8; 13068];

// Makes the sheet, whatever the room.
pub fn make_sheet(records: &Records, bytes: &mut SheetBytes) -> Result<Position, Refusal>
    requires { length bytes.old ≡ sheet_most }
    ensures { Wrote (numbers (records_of records.now)) bytes.old bytes.new start result }
{
    let n = node_count(records.nodes);
    let m = difference_count(records.differences);
    let position = put_header(
        records.leaves,
        records.top,
        records.horizon,
        n,
        m,
        bytes,
        Position { at: 0, number: 0 },
    )?;
    let position = put_nodes(
        records.nodes,
        records.operands,
        n,
        records.top,
        bytes,
        position,
    )?;
    let size = n as u32;
    let position = put_differences(records.differences, m, size, bytes, position)?;
    put_cycle(
        records.nodes,
        records.windows,
        size,
        records.period,
        bytes,
        position,
    )
}

// Writes the sheet of records into a buffer: number, place and every byte of the buffer are those of the defined outcome.
#[tactic(auto, using(crate::proofs::SheetRoom::sheet_room))]
pub fn write(records: &Records, buffer: &mut [u8]) -> Result<usize, Refusal>
    ensures { Answered (writing (records_of records.now) (length buffer.old)) (number_answered result) (place_answered result) buffer.old buffer.new }
{
    let mut bytes = [0u8; 13068];
    let position = make_sheet(records, &mut bytes)?;
    hand_over(&bytes, buffer, position.at)
}
