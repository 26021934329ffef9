// Numbers of a sheet, read at a cursor.
#![tactic(auto)]

ghost use Rattle.std.specs.Prelude.{◌≡◌};
ghost use Rattle.maps.specs.Number.{number};
ghost use Rattle.maps.specs.Form.{in_range, operand};
ghost use Rattle.number.specs.Code.{byte_meant, number_meant};
ghost use Rattle.ranges.specs.Ranges.{span_meant, field_range};

use ranges::{Field, Span, range_of};
use types::Refusal;

mod reader;

pub use reader::{Reader, next_number, read_number, reader_at};

// A position in the sheet.
#[derive(Clone, Copy)]
pub struct Cursor {
    pub at: usize,
}

// A number and the position after it.
#[derive(Clone, Copy)]
pub struct Read {
    pub value: u32,
    pub next: Cursor,
}

// The byte at a position; ground 1, wherever the sheet ends too early.
fn byte_at(sheet: &[u8], at: usize) -> Result<u32, Refusal>
    ensures { byte_meant sheet.now at result }
{
    let byte = sheet.get(at).ok_or(Refusal::Ended(sheet.len()))?;
    Ok(u32::from(*byte))
}

// The number at a cursor.
pub fn number_at(sheet: &[u8], c: Cursor) -> Result<Read, Refusal>
    ensures { number_meant result ≡ number sheet.now c.at }
{
    let at = c.at;
    let low = byte_at(sheet, at)?;
    if low < 128 {
        return Ok(Read {
            value: low,
            next: Cursor { at: at + 1 },
        });
    }
    let middle = byte_at(sheet, at + 1)?;
    if middle == 0 {
        return Err(Refusal::Spelling(at));
    }
    if middle < 128 {
        return Ok(Read {
            value: low - 128 + 128 * middle,
            next: Cursor { at: at + 2 },
        });
    }
    let high = byte_at(sheet, at + 2)?;
    if high == 0 || 128 <= high {
        return Err(Refusal::Spelling(at));
    }
    let above = middle - 128 + 128 * high;
    Ok(Read {
        value: low - 128 + 128 * above,
        next: Cursor { at: at + 3 },
    })
}

// The number at a cursor, in a range.
pub fn field_in(sheet: &[u8], c: Cursor, span: Span) -> Result<Read, Refusal>
    ensures { number_meant result ≡ in_range (span_meant span) sheet.now c.at }
{
    let read = read_number(sheet, c);
    let Ok(Read { value, .. }) = read else {
        return read;
    };
    if value < span.low || span.high < value {
        return Err(Refusal::Range(c.at));
    }
    read
}

// The number at a cursor, in the range of its field.
pub fn field_at(sheet: &[u8], c: Cursor, field: Field) -> Result<Read, Refusal>
    ensures { number_meant result ≡ in_range (field_range field) sheet.now c.at }
{
    field_in(sheet, c, range_of(field))
}

// The operand at a cursor, of the node own.
pub fn operand_at(sheet: &[u8], c: Cursor, own: u32) -> Result<Read, Refusal>
    ensures { number_meant result ≡ operand own sheet.now c.at }
{
    let id = read_number(sheet, c);
    let Ok(Read { value, .. }) = id else {
        return id;
    };
    if value < own {
        return id;
    }
    Err(Refusal::Operand(c.at))
}
