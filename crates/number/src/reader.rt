// A reader: the bytes of a sheet and a position among them. Its functions take it apart and call those over a slice and a cursor; `read_number`
// has plain parameters, for every other caller.
ghost use Rattle.std.specs.Prelude.{◌≡◌};
ghost use Rattle.maps.specs.Number.{number};
ghost use Rattle.number.specs.Code.{number_meant};

use crate::{Cursor, Read, number_at};
use types::Refusal;

#[derive(Clone, Copy)]
pub struct Reader<'a> {
    pub sheet: &'a [u8],
    pub at: Cursor,
}

// The reader of a sheet at a cursor.
pub fn reader_at(sheet: &[u8], at: Cursor) -> Reader<'_>
    ensures { (result.sheet ≡ sheet.entry) × (result.at ≡ at) }
{
    Reader { sheet, at }
}

// The number where a reader stands.
pub fn next_number(reader: Reader<'_>) -> Result<Read, Refusal>
    ensures { number_meant result ≡ number reader.entry.sheet.now reader.entry.at.at }
{
    number_at(reader.sheet, reader.at)
}

// The number at a cursor, through a reader.
pub fn read_number(sheet: &[u8], c: Cursor) -> Result<Read, Refusal>
    ensures { number_meant result ≡ number sheet.now c.at }
{
    next_number(reader_at(sheet, c))
}
